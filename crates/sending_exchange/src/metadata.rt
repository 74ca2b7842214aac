// INITIATOR_META_DATA and ACCEPTOR_META_DATA.
ghost use Rattle.std.specs.Prelude.{◌≡◌, ◌+◌};
ghost use Rattle.refusal.specs.Refusals.{refusal_number};
ghost use Rattle.conversation.specs.Turns.{METADATA};
ghost use Rattle.conversation.specs.Outcomes.{leaving};
ghost use Rattle.conversation.specs.Writing.{metadata_allowed, metadata_rows, writing_metadata};
ghost use Rattle.calls.specs.Calls.{write_refusal, Inside};

use super::exchange::{HEADER, append_payload};
use calls::{accepted, check_stage, find_own, has_room, in_reply, refused};
use conversation::{Answer, Class, Record};
use refusal::Refusal;
use schemes::set::{bit_of, with_bit};

// 15: whether metadata of a scheme may be written.
fn metadata_allowed(r: Record, id: [u8; 16]) -> bool
    requires { Inside r }
    ensures { result ≡ metadata_allowed r id }
{
    let place = find_own(r, &id);
    if bit_of(r.metadata, place as u32) {
        return false;
    }
    if r.acceptor {
        in_reply(r, &id)
    } else {
        place < r.count
    }
}

fn check_metadata(r: Record, id: [u8; 16], n: usize, len: usize) -> Result<(), Refusal>
    ensures { refusal_number result ≡ write_refusal r METADATA (metadata_rows r id n) (64 + n) len }
{
    check_stage(r, Class::METADATA)?;
    if n < 1 {
        return Err(Refusal::Argument);
    }
    if !metadata_allowed(r, id) {
        return Err(Refusal::Scheme);
    }
    if !has_room(r.used, HEADER, n, len) {
        return Err(Refusal::Room);
    }
    Ok(())
}

// Writes metadata of a scheme that the own NEGO lists.
pub fn write_metadata(r: Record, transcript: &mut [u8], id: [u8; 16], value: &[u8]) -> Answer
    ensures { leaving result transcript.new ≡ writing_metadata r transcript.old id value.now }
{
    if let Err(refusal) = check_metadata(r, id, value.len(), transcript.len()) {
        return refused(refusal, r);
    }
    let place = find_own(r, &id);
    let metadata = with_bit(r.metadata, place as u32);
    let next = append_payload(r, transcript, Class::METADATA, id, value);
    accepted(Record { metadata, ..next })
}
