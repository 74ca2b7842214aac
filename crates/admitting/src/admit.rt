// 14 and 15 of one message, and what is carried on after it.
ghost use Rattle.std.specs.Prelude.{◌≡◌, ◌+◌, ◌≤◌, length};
ghost use Rattle.conversation.specs.Admitting.{confirmed_for, passed, admit};
ghost use Rattle.calls.specs.Calls.{Inside};
ghost use Rattle.admitting.specs.Admissions.{admitted};

use super::confirmed::confirmed_for;
use super::fits::scheme_fits;
use calls::find_own;
use conversation::turns::{class_of, place_after, reading_token};
use conversation::{Class, Record, Scan, Turn};
use message::field;
use octets::le_u32;
use refusal::Refusal;

// Where the scheme of a message that is no NEGO ends.
const SCHEME_END: usize = field::SCHEME + field::ID;

// What is carried on after a message, where `confirmed` says whether the peer's one VERIFY was spent for it.
#[tactic(auto, unfolding(conversation::specs::Admitting::passed))]
fn carry(r: Record, c: Scan, confirmed: bool, class: u8, position: u8, id: &[u8]) -> Scan
    requires { Inside r × (c.named ≤ 65535) × (confirmed ≡ confirmed_for r c id.now) }
    ensures { result ≡ passed r c class position id.now }
{
    let place = find_own(r, id);
    let token = reading_token(r.acceptor, r.stage);
    Scan {
        position,
        named: if class == Class::METADATA {
            c.named + 1
        } else {
            c.named
        },
        requested: if class == Class::EXCHANGE && token == Turn::FIRST {
            place
        } else {
            c.requested
        },
        chosen: if token == Turn::FURTHER {
            place
        } else {
            c.chosen
        },
        confirmed: confirmed || class == Class::VERIFY,
    }
}

// 14, then 15, of the message m of the token t, and what is carried on where neither refuses it. It asks for a record inside its limits and a message
// with a scheme: 18 and 2 to 13 have shown both.
pub fn admit_message(r: Record, t: &[u8], c: Scan, m: &[u8]) -> Result<Scan, Refusal>
    requires { Inside r × (c.named ≤ 65535) × (56 ≤ length m.now) }
    ensures { admitted result ≡ admit r t.now c m.now }
{
    let id = &m[field::SCHEME..SCHEME_END];
    let class = class_of(!r.acceptor, le_u32(m, field::TYPE));
    let token = reading_token(r.acceptor, r.stage);
    let confirmed = confirmed_for(r, c, id);
    let position = place_after(token, c.position, confirmed, class).ok_or(Refusal::OutOfTurn)?;
    if !scheme_fits(r, t, c, class, id) {
        return Err(Refusal::Scheme);
    }
    Ok(carry(r, c, confirmed, class, position, id))
}
