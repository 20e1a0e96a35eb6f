#![tactic(auto)]

// What a call may do to what it does not name, and what follows from that: laws only, in specs/ and proofs/.
