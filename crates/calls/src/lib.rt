// What the calls of an end share: answers, the room, the stage, whether the reply lists a scheme, and the next message.
#![tactic(auto)]

ghost use Rattle.std.specs.Prelude.{◌≡◌, ◌+◌};
ghost use Rattle.refusal.specs.Refusals.{number_of, refusal_number};
ghost use Rattle.schemes.specs.Lists.{mem, place};
ghost use Rattle.conversation.specs.State.{own_of, replied};
ghost use Rattle.conversation.specs.Outcomes.{answered};
ghost use Rattle.calls.specs.Calls.{room_for, stage_refusal, Inside};

use conversation::limits::check_limits;
use conversation::turns::own_place;
use conversation::{Answer, Record};
use refusal::Refusal;
use schemes::list::find;
use schemes::set::bit_of;
use vector::TokenPlace;

pub mod next;

// An answer with a refusal's number, 0 for none, its place, and the record to go on with.
pub fn answer(number: u32, place: TokenPlace, next: Record) -> Answer
    ensures { result ≡ answered number place.0 next }
{
    Answer {
        refusal: number,
        place,
        messages: 0,
        choice: [0u8; 16],
        left: 0,
        next,
    }
}

// An answer that refuses nothing: the record to go on with.
pub fn accepted(next: Record) -> Answer
    ensures { result ≡ answered 0 0 next }
{
    answer(0, TokenPlace(0), next)
}

// An answer that refuses a call as a whole, with the record as it was.
pub fn refused(refusal: Refusal, r: Record) -> Answer
    ensures { result ≡ answered (number_of refusal) 0 r }
{
    answer(refusal.number(), TokenPlace(0), r)
}

// An answer that names a choice and how many were left.
pub fn naming(next: Record, choice: [u8; 16], left: u32) -> Answer
    ensures { result ≡ record { refusal = 0; place = record { 0 = 0 }; messages = 0; choice = choice; left = left; next = next } }
{
    Answer {
        choice,
        left,
        ..accepted(next)
    }
}

// 16: whether n octets behind a header have room. Header and octets are not added, since their sum may be too large a number.
pub fn has_room(used: usize, header: usize, n: usize, len: usize) -> bool
    ensures { result ≡ room_for used (header + n) len }
{
    let room = len.min(65535);
    used <= room && header <= room - used && n <= room - used - header
}

// 18 where a record is outside its limits or may not write this class.
pub fn check_stage(r: Record, class: u8) -> Result<(), Refusal>
    ensures { refusal_number result ≡ stage_refusal r class }
{
    check_limits(r)?;
    if own_place(r, class).is_none() {
        return Err(Refusal::Stage);
    }
    Ok(())
}

// The own place of a scheme, or the list's length where it is not one of the list: a number, since a reading carries it on as it is. It asks for a record
// inside its limits, as the next function does: 18 has shown that before any call looks for a scheme.
pub fn find_own(r: Record, id: &[u8]) -> usize
    requires { Inside r }
    ensures { result ≡ place (own_of r) id.now }
{
    find(&r.list, r.count, id)
}

// Whether the reply lists a scheme.
#[tactic(auto, using(crate::proofs::Replies::reply_is))]
pub fn in_reply(r: Record, id: &[u8]) -> bool
    requires { Inside r }
    ensures { result ≡ mem id.now (replied r) }
{
    let place = find_own(r, id);
    place < r.count && bit_of(r.common, place as u32) && !bit_of(r.marks, place as u32)
}
