// Laws only (specs/): what a consistent directory is, as facts about its entries and blocks.
#![tactic(auto)]
