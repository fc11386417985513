// The listing in windows of an input, as definitions, and what holds of them. There is no function here.
#![tactic(auto)]
