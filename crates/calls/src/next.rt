// The next message of an end: its common fields, and the record after it.
ghost use Rattle.std.specs.Prelude.{◌≡◌, ◌+◌, ◌≤◌};
ghost use Rattle.conversation.specs.Turns.{type_of, place_after};
ghost use Rattle.conversation.specs.Outcomes.{wrote, unchanged};
ghost use Rattle.conversation.specs.Writing.{heading};

use conversation::turns::own_place;
use conversation::{Class, Record};
use encode::Heading;
use message::Kind;

// The message type of a class.
#[tactic(auto, unfolding(conversation::specs::Turns::type_of))]
fn type_of(acceptor: bool, class: u8) -> Kind
    ensures { result ≡ record { 0 = type_of acceptor class } }
{
    match (class, acceptor) {
        (Class::NEGO, true) => Kind::acceptor_nego(),
        (Class::NEGO, false) => Kind::initiator_nego(),
        (Class::METADATA, true) => Kind::acceptor_meta_data(),
        (Class::METADATA, false) => Kind::initiator_meta_data(),
        (Class::EXCHANGE, true) => Kind::challenge(),
        (Class::EXCHANGE, false) => Kind::ap_request(),
        (Class::VERIFY, _) => Kind::verify(),
        _ => Kind::alert(),
    }
}

// The common fields of the next message. Each writer calls this, its own encoder and after_message: a closure for the one call between would be no plainer.
pub fn heading_of(r: Record, class: u8) -> Heading
    ensures { result ≡ heading r class }
{
    let conversation = r.conversation;
    Heading {
        kind: type_of(r.acceptor, class),
        sequence: r.sequence,
        conversation,
    }
}

// The record after a written message. It asks that sequence number and used length can rise: a record's limits and 16 have shown it before a message
// is written.
pub fn after_message(r: Record, class: u8, size: usize) -> Record
    requires { (r.sequence ≤ 1023) × (r.used + size ≤ 65535) }
    ensures { result ≡ wrote r (place_after r class) size (unchanged r) }
{
    Record {
        position: own_place(r, class).unwrap_or(0),
        sequence: r.sequence + 1,
        used: r.used + size,
        ..r
    }
}
