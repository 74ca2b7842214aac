// Wrapping a text: its lines gathered into a draft, and the envelope written from that.
#![tactic(auto)]

mod draft;
pub mod wrap;
