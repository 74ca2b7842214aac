// What the writers of an exchange, VERIFY and ALERT share: the rule's scheme, and their refusals.
#![tactic(auto)]

ghost use Rattle.std.specs.Prelude.{◌≡◌, ◌+◌, ◌≤◌, ◌<◌};
ghost use Rattle.refusal.specs.Refusals.{refusal_number};
ghost use Rattle.conversation.specs.State.{scheme_at};
ghost use Rattle.conversation.specs.Writing.{scheme_now, first_of_reply, scheme_allowed, named_rows};
ghost use Rattle.calls.specs.Calls.{write_refusal, Inside};

use calls::{check_stage, has_room};
use conversation::turns::writing_token;
use conversation::{Record, Turn};
use refusal::Refusal;
use schemes::choosing::choose_own;
use schemes::list::id_of;

// The own place of the scheme that the next message names.
#[tactic(auto, unfolding(conversation::specs::Writing::scheme_now))]
fn scheme_now(r: Record) -> usize
    ensures { result ≡ scheme_now r }
{
    match writing_token(r.acceptor, r.stage) {
        Turn::FIRST => 0,
        Turn::ANSWER => r.requested,
        _ => r.chosen,
    }
}

// Whether the AP_REQUEST's scheme stands first in the reply. The own schemes are different, so their places say it.
fn first_of_reply(r: Record) -> bool
    requires { Inside r }
    ensures { result ≡ first_of_reply r }
{
    let left = choose_own(r.common, r.marks);
    left.left != 0 && left.place as usize == r.requested
}

// 15, where the scheme follows from the rule.
fn scheme_allowed(r: Record) -> bool
    requires { Inside r }
    ensures { result ≡ scheme_allowed r }
{
    match writing_token(r.acceptor, r.stage) {
        Turn::ANSWER => first_of_reply(r),
        _ => scheme_now(r) < r.count,
    }
}

// The id of that scheme.
pub fn scheme_id(r: Record) -> [u8; 16]
    requires { (r.count ≤ 16) × (scheme_now r < r.count) }
    ensures { result ≡ scheme_at r (scheme_now r) }
{
    let list = r.list;
    id_of(list, scheme_now(r) as u32)
}

// 18, 25, 15 and 16 of a message of n octets behind its header, whose content keeps its limits or doesn't.
pub fn check_named(
    r: Record,
    class: u8,
    fit: bool,
    header: usize,
    n: usize,
    len: usize,
) -> Result<(), Refusal>
    ensures { refusal_number result ≡ write_refusal r class (named_rows r fit) (header + n) len }
{
    check_stage(r, class)?;
    if !fit {
        return Err(Refusal::ContentLimit);
    }
    if !scheme_allowed(r) {
        return Err(Refusal::Scheme);
    }
    if !has_room(r.used, header, n, len) {
        return Err(Refusal::Room);
    }
    Ok(())
}
