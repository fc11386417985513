// That each public contract settles its answer and what it was lent, and asks no more than where what
// is passed came from, in specs/; no code.
#![tactic(auto)]
