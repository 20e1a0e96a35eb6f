// Laws only, in specs/: what each byte, slot and note of what the calls make is.
#![tactic(auto)]
