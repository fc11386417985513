// Laws of lists, in specs/; no code.
#![tactic(auto)]
