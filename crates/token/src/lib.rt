// The structural reading of a token.
#![tactic(auto)]

ghost use Rattle.std.specs.Prelude.{◌≡◌, ◌≤◌, ◌<◌, true, length};
ghost use Rattle.message.specs.Check.{said, Passed};
ghost use Rattle.token.specs.Token.{order_verdict, next_verdict, chain_of, reading_of, token_of, told, outcome_of};
ghost use Rattle.token.specs.Walk.{has_message, message_at};

use message::walk::first;
use message::{Header, field, read_body, read_header};
use octets::{le_u32, same_id};
use refusal::Refusal;
use step::read_step;
use vector::{MessageOffset, TokenPlace, in_token};

mod step;

// A refusal, with the place of the message at fault.
#[derive(Clone, Copy)]
pub struct Refused {
    pub refusal: Refusal,
    pub place: TokenPlace,
}

// Checks 7 to 13 of the message at the front of `rest`, whose header is h.
fn read_ordered(
    rest: &[u8],
    sequence: u64,
    conversation: &[u8],
    h: Header,
) -> Result<Header, Refusal>
    requires { Passed rest.now h }
    ensures { said result ≡ order_verdict rest.now sequence conversation.now h }
{
    if h.sequence as u64 != sequence {
        return Err(Refusal::Sequence);
    }
    if !same_id(
        &rest[field::CONVERSATION..field::COMMON_HEADER],
        conversation,
    ) {
        return Err(Refusal::Conversation);
    }
    read_body(rest, h)
}

// Checks 2 to 13 of the message at the front of `rest`.
pub fn read_next(rest: &[u8], sequence: u64, conversation: &[u8]) -> Result<Header, Refusal>
    ensures { said result ≡ next_verdict rest.now sequence conversation.now }
{
    let reading = read_header(rest);
    let Ok(h) = reading else {
        return reading;
    };
    read_ordered(rest, sequence, conversation, h)
}

// The messages of a token, the first of which has the number `first`.
fn read_messages(token: &[u8], first: u64, conversation: &[u8]) -> Result<u32, Refused>
    requires { (length token.now ≤ 65535) × (first < 4294967296) × (length conversation.now ≡ 16) }
    ensures { told result ≡ outcome_of (reading_of (chain_of token.now 0 0 first conversation.now)) }
{
    let mut rest = token;
    let mut place = TokenPlace(0);
    let mut sequence = first;
    let mut count: u32 = 0;
    // no index is counted here: where the next message begins, each header says
    while !rest.is_empty() {
        let reading = read_step(rest, sequence, conversation);
        let Ok(h) = reading else {
            return reading
                .map(|_| count)
                .map_err(|refusal| Refused { refusal, place });
        };
        let length = h.length as usize;
        rest = &rest[length..];
        place = in_token(place, MessageOffset(h.length));
        sequence += 1;
        count += 1;
    }
    Ok(count)
}

// The structural reading: checks 1 to 13, with the first message's sequence number and conversation as start.
pub fn read_token(token: &[u8]) -> Result<u32, Refused>
    ensures { told result ≡ outcome_of (token_of token.now) }
{
    if 65535 < token.len() {
        return Err(Refused {
            refusal: Refusal::TooLong,
            place: TokenPlace(0),
        });
    }
    if token.len() < field::COMMON_HEADER {
        return Err(Refused {
            refusal: Refusal::TooShort,
            place: TokenPlace(0),
        });
    }
    let first = le_u32(token, field::SEQUENCE) as u64;
    // each answer is made where it is returned: passed on whole, the padding behind its refusal would go through memory
    let count = read_messages(
        token,
        first,
        &token[field::CONVERSATION..field::COMMON_HEADER],
    )?;
    Ok(count)
}

// Whether the token is accepted and has a message with the index k.
pub fn has_message(token: &[u8], k: usize) -> bool
    ensures { result ≡ has_message token.now k }
{
    read_token(token).is_ok_and(|n| k < n as usize)
}

// The place of message k of a token that has it.
fn walk_to(token: &[u8], k: usize) -> TokenPlace
    requires { has_message token.now k ≡ true }
    ensures { result.0 ≡ (message_at token.now k).place }
{
    let mut rest = token;
    let mut place = TokenPlace(0);
    for _ in 0..k {
        let m = first(rest);
        let end = m.len() as u32;
        rest = &rest[m.len()..];
        place = in_token(place, MessageOffset(end));
    }
    place
}

// The place of message k; 0 where there is no such message.
pub fn place_at(token: &[u8], k: usize) -> TokenPlace
    ensures { result.0 ≡ (message_at token.now k).place }
{
    if !has_message(token, k) {
        return TokenPlace(0);
    }
    walk_to(token, k)
}

// Message k, as a part of the token; nothing where there is no such message.
pub fn message_at(token: &[u8], k: usize) -> &[u8]
    ensures { result.now ≡ (message_at token.now k).octets }
{
    if !has_message(token, k) {
        return &token[..0];
    }
    let at = walk_to(token, k).0;
    first(&token[at..])
}
