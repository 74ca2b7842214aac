// The library's door: every entry point under its plain name. Each is the function of the crate named beside it, with the contract that it has there;
// the crates behind the door are many so that a change is proved in seconds (docs/GATE.md).
#![tactic(auto)]

// The structural reading of a token: checks 1 to 13, or the first refusal with its place, and its messages by their place in the list.
pub use refusal::Refusal;
pub use token::{Refused, has_message, message_at, place_at, read_token};
pub use vector::TokenPlace;

// One message by itself: checks 2 to 6 and 10 to 13.
pub use message::{Header, Kind, read_message};

// What a message shows: its vectors as parts of the caller's octets, and its signed numbers.
pub use coverage::vectors::{vector_count, vector_of};
pub use parts::{
    alert_value, alerts, checksum, checksum_type, error_code, exchange, extension_type,
    extension_value, extensions, scheme, schemes,
};
pub use vector::{MessageOffset, Vector};

// The listing of a token, window by window.
pub use listing::window;
pub use windows::Shown;

// A conversation: the record of an end goes in by value, and the next one comes back in the answer. Extensions and alerts are handed over as `Elements`,
// with their values joined in a slice beside it.
pub use conversation::{Answer, Record};
pub use elements::Elements;
pub use negotiating::opening::open;
pub use receiving::read;
pub use sending_alert::{choose_alert, write_alert};
pub use sending_exchange::exchange::{choose_exchange, write_exchange};
pub use sending_exchange::metadata::write_metadata;
pub use sending_nego::offer::write_offer;
pub use sending_nego::reply::write_reply;
pub use sending_verify::{choose_verify, write_verify};
