// Laws only: what holds of the stretches of applications.
#![tactic(auto)]
