// The table of refusals taken apart, and what follows from it for every call: the laws are in specs/.
#![tactic(auto)]
