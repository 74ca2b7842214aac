// AP_REQUEST and CHALLENGE.
ghost use Rattle.std.specs.Prelude.{◌≡◌};
ghost use Rattle.encode.specs.Encode.{of_exchange};
ghost use Rattle.conversation.specs.Outcomes.{leaving};
ghost use Rattle.conversation.specs.Writing.{request, requested_by, speaking};
ghost use Rattle.conversation.specs.Choosing.{choosing};
ghost use Rattle.calls.specs.Calls.{Ready, Appended};

use calls::next::{after_message, heading_of};
use calls::{accepted, refused};
use conversation::turns::writing_token;
use conversation::{Answer, Class, Record, Turn};
use encode_exchange::write;
use message::Kind;
use negotiating::choice::choose_and;
use sending::{check_named, scheme_id};

// The header of an exchange and of metadata.
pub(crate) const HEADER: usize = Kind::EXCHANGE_HEADER as usize;

// An exchange or metadata at the transcript's end.
pub(crate) fn append_payload(
    r: Record,
    transcript: &mut [u8],
    class: u8,
    id: [u8; 16],
    value: &[u8],
) -> Record
    requires { Ready r transcript.old class (of_exchange (record { scheme = id; value = value.now })) }
    ensures { Appended r transcript.old class (of_exchange (record { scheme = id; value = value.now }))
        transcript.new result }
{
    write(transcript, r.used, heading_of(r, class), id, value);
    after_message(r, class, HEADER + value.len())
}

// Where an initiator's AP_REQUEST of the first token is kept: it has named place 0.
fn requested_by(r: Record) -> usize
    ensures { result ≡ requested_by r }
{
    match writing_token(r.acceptor, r.stage) {
        Turn::FIRST => 0,
        _ => r.requested,
    }
}

// Writes an exchange of the rule's scheme.
pub fn write_exchange(r: Record, transcript: &mut [u8], value: &[u8]) -> Answer
    ensures { leaving result transcript.new ≡ speaking r transcript.old (request value.now) }
{
    if let Err(refusal) = check_named(
        r,
        Class::EXCHANGE,
        true,
        HEADER,
        value.len(),
        transcript.len(),
    ) {
        return refused(refusal, r);
    }
    let id = scheme_id(r);
    let requested = requested_by(r);
    let next = append_payload(r, transcript, Class::EXCHANGE, id, value);
    accepted(Record { requested, ..next })
}

// Chooses, and writes an AP_REQUEST of the chosen scheme. Where it is refused, nothing is chosen and nothing written.
pub fn choose_exchange(r: Record, transcript: &mut [u8], marks: u16, value: &[u8]) -> Answer
    ensures { leaving result transcript.new ≡ choosing r transcript.old marks (request value.now) }
{
    choose_and(
        r,
        transcript,
        Class::EXCHANGE,
        marks,
        true,
        |chosen, transcript| write_exchange(chosen, transcript, value),
    )
}
