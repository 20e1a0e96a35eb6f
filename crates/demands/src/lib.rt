#![tactic(auto)]

// The three demands, over any run, on any sound disk and on the 8-inch one: laws only, in specs/ and proofs/.
