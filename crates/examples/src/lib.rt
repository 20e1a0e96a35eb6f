#![tactic(auto)]

// Document 01's checked examples, and the useless builds that its contracts rule out: the theorems are in specs/ and proofs/.
