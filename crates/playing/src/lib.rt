// Playing a script: the commands of its lines at two ends, and the lines that they answer with.
#![tactic(auto)]

mod end;
pub mod play;
