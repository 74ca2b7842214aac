// What two ends wrote is replayed as they read it: definitions and proofs only.
#![tactic(auto)]
