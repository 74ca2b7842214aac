// The structural reading's own step, for its loop alone. What has one caller becomes a part of it when it is compiled, whatever else a library holds, so that
// no header and no answer of a step stands in memory. `read_next`, which a conversation's reading calls, says the same.
ghost use Rattle.std.specs.Prelude.{◌≡◌, ◌≤◌, length};
ghost use Rattle.refusal.specs.Refusals.{refusal_number};
ghost use Rattle.message.specs.Layout.{shape_of, header_of};
ghost use Rattle.message.specs.Check.{said, refusal_of, body_verdict, Passed};
ghost use Rattle.token.specs.Token.{order_verdict, next_verdict};

use message::{Header, Kind, check, exchange, field, read_header};
use octets::same_octets;
use refusal::Refusal;

// Checks 10 to 13 of the message m: the first that refuses it. A message with an exchange is judged here, since most are; the others where all callers' are.
fn step_check(kind: Kind, m: &[u8]) -> Result<(), Refusal>
    requires { header_of (shape_of kind.0) ≤ length m.now }
    ensures { refusal_number result ≡ refusal_of (shape_of kind.0) m.now }
{
    if Kind::ACCEPTOR_NEGO < kind.0 && kind.0 <= Kind::AP_REQUEST {
        return exchange::check(m);
    }
    check(kind, m)
}

// Checks 10 to 13 of the message at the front of `rest`, whose header is h.
fn step_body(rest: &[u8], h: Header) -> Result<Header, Refusal>
    requires { Passed rest.now h }
    ensures { said result ≡ body_verdict rest.now h }
{
    let length = h.length as usize;
    step_check(h.kind, &rest[..length])?;
    Ok(h)
}

// Checks 7 to 13 of the message at the front of `rest`, whose header is h.
fn step_ordered(
    rest: &[u8],
    sequence: u64,
    conversation: &[u8],
    h: Header,
) -> Result<Header, Refusal>
    requires { Passed rest.now h × (length conversation.now ≡ 16) }
    ensures { said result ≡ order_verdict rest.now sequence conversation.now h }
{
    if h.sequence as u64 != sequence {
        return Err(Refusal::Sequence);
    }
    if !same_octets(
        &rest[field::CONVERSATION..field::COMMON_HEADER],
        conversation,
    ) {
        return Err(Refusal::Conversation);
    }
    step_body(rest, h)
}

// Checks 2 to 13 of the message at the front of `rest`.
pub(crate) fn read_step(rest: &[u8], sequence: u64, conversation: &[u8]) -> Result<Header, Refusal>
    requires { length conversation.now ≡ 16 }
    ensures { said result ≡ next_verdict rest.now sequence conversation.now }
{
    let reading = read_header(rest);
    let Ok(h) = reading else {
        return reading;
    };
    step_ordered(rest, sequence, conversation, h)
}
