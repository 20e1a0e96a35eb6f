// Request [11]: one word a day, however often the picker is started. The theorems about its definition: laws only, in specs/ and proofs/.
#![tactic(auto)]
