// Document 01 worked in examples, in specs/; no code.
#![tactic(auto)]
