// Laws of integers, in specs/; no code.
#![tactic(auto)]
