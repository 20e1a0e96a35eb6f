// Laws of look-ups, names, slots and current FCBs, and what one pass over the directory notes down: all in specs/.
#![tactic(auto)]
