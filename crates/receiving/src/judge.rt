// A peer's token, judged message by message.
ghost use Rattle.std.specs.Prelude.{◌≡◌, cond, ◌≤◌, length, eqb};
ghost use Rattle.octets.specs.Octets.{octets};
ghost use Rattle.token.specs.Token.{chain_of};
ghost use Rattle.conversation.specs.Reading.{start_of, conversation_of, judge, judged};
ghost use Rattle.calls.specs.Calls.{Inside};
ghost use Rattle.receiving.specs.Receiving.{judged_as};

use admitting::admit::admit_message;
use conversation::turns::reading_token;
use conversation::{Record, Scan, Turn};
use message::field;
use refusal::Refusal;
use schemes::list::id_at;
use token::{Refused, read_next};
use vector::{MessageOffset, TokenPlace, in_token};

// What is carried into the first message.
fn start_of(r: Record) -> Scan
    ensures { result ≡ start_of r }
{
    Scan {
        position: 0,
        named: 0,
        requested: r.requested,
        chosen: r.chosen,
        confirmed: r.confirmed,
    }
}

// The messages of a token, each by 2 to 13 and then by 14 and 15.
fn judge_messages(r: Record, t: &[u8], conversation: &[u8]) -> Result<(u32, Scan), Refused>
    requires { Inside r × (length t.now ≤ 65535) }
    ensures { judged_as result ≡ judge r t.now 0 (start_of r) (chain_of t.now 0 0 r.sequence conversation.now) }
{
    let mut rest = t;
    let mut place = TokenPlace(0);
    let mut sequence = r.sequence as u64;
    let mut scan = start_of(r);
    let mut count: u32 = 0;
    // no index is counted here: where the next message begins, each header says
    while !rest.is_empty() {
        let reading = read_next(rest, sequence, conversation);
        let Ok(h) = reading else {
            return reading
                .map(|_| (count, scan))
                .map_err(|refusal| Refused { refusal, place });
        };
        let length = h.length as usize;
        let admission = admit_message(r, t, scan, &rest[..length]);
        let Ok(next) = admission else {
            return admission
                .map(|_| (count, scan))
                .map_err(|refusal| Refused { refusal, place });
        };
        rest = &rest[length..];
        place = in_token(place, MessageOffset(h.length));
        sequence += 1;
        scan = next;
        count += 1;
    }
    Ok((count, scan))
}

// The conversation that a token's messages must have: an acceptor takes it from the first.
pub(crate) fn conversation_of(r: Record, t: &[u8]) -> [u8; 16]
    requires { 40 ≤ length t.now }
    ensures { result ≡ conversation_of r t.now }
{
    let token = reading_token(r.acceptor, r.stage);
    if token == Turn::FIRST {
        return id_at(t, field::CONVERSATION);
    }
    r.conversation
}

// The same where it stands: a part of the token, or the record's own.
fn expected<'a>(token: u8, t: &'a [u8], own: &'a [u8]) -> &'a [u8]
    requires { 40 ≤ length t.now }
    ensures { result.now ≡ cond (eqb token 0) (octets 16 t.now 24) own.now }
{
    if token == Turn::FIRST {
        return &t[field::CONVERSATION..field::COMMON_HEADER];
    }
    own
}

// 2 to 15, message by message.
pub(crate) fn judge_token(r: Record, t: &[u8]) -> Result<(u32, Scan), Refused>
    requires { Inside r × (length t.now ≤ 65535) }
    ensures { judged_as result ≡ judged r t.now }
{
    if t.len() < field::COMMON_HEADER {
        return Err(Refused {
            refusal: Refusal::TooShort,
            place: TokenPlace(0),
        });
    }
    let token = reading_token(r.acceptor, r.stage);
    judge_messages(r, t, expected(token, t, &r.conversation))
}
