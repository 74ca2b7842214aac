// A conversation of two files, one a direction, played again: definitions and proofs only.
#![tactic(auto)]
