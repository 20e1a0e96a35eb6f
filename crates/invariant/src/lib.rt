#![tactic(auto)]

// Laws only (specs/): a consistent image and a right map stay so over every call.
