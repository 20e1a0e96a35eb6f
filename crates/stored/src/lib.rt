#![tactic(auto)]

// Closed records, those that entries tell of: what opens, sizes, reads, writes and closes make of them: laws only, in specs/ and proofs/.
