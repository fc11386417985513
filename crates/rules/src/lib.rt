// Document 01 as definitions, in specs/; no code and no proof.
#![tactic(auto)]
