// Opening an end, and the initiator's choice.
#![tactic(auto)]

pub mod choice;
pub mod opening;
