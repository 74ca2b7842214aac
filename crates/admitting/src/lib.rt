// 14 and 15 of one message of a peer's token.
#![tactic(auto)]

pub mod admit;
mod confirmed;
pub mod fits;
pub mod named;
