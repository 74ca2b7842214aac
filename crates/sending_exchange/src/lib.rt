// Writing metadata, AP_REQUEST and CHALLENGE.
#![tactic(auto)]

pub mod exchange;
pub mod metadata;
