// One turn of a conversation, played again: what its writer owed, what its reader answers, and the writer's record after it.
#![tactic(auto)]

pub mod hear;
pub mod owed;
pub mod spoke;
