// Writing the NEGO of each end.
#![tactic(auto)]

mod nego;
pub mod offer;
pub mod reply;
