// INITIATOR_NEGO.
ghost use Rattle.std.specs.Prelude.{◌≡◌, ◌+◌, ◌*◌};
ghost use Rattle.refusal.specs.Refusals.{refusal_number};
ghost use Rattle.elements.specs.Elements.{handed_size};
ghost use Rattle.conversation.specs.Turns.{NEGO};
ghost use Rattle.conversation.specs.Outcomes.{leaving};
ghost use Rattle.conversation.specs.Writing.{offer_rows, offering, nego_content};
ghost use Rattle.calls.specs.Calls.{write_refusal};
ghost use Rattle.sending_nego.specs.Ready.{tested};

use super::nego::{HEADER, append_nego, check_extensions};
use calls::{accepted, check_stage, has_room, refused};
use conversation::{Answer, Class, Record};
use elements::{Elements, size_of};
use message::field;
use refusal::Refusal;

fn check_offer(
    r: Record,
    test: bool,
    extensions: Elements,
    values: &[u8],
    len: usize,
) -> Result<(), Refusal>
    ensures { refusal_number result ≡ write_refusal r NEGO (offer_rows r (tested test extensions values.now))
        (96 + 16 * r.count + handed_size extensions values.now) len }
{
    check_stage(r, Class::NEGO)?;
    if r.acceptor {
        return Err(Refusal::Stage);
    }
    check_extensions(test, extensions, values)?;
    let size = size_of(extensions, values);
    if !has_room(r.used, HEADER + field::ID * r.count, size, len) {
        return Err(Refusal::Room);
    }
    Ok(())
}

// Writes the initiator's NEGO, with its whole own list and extensions. Only a call that says it is a test may have critical ones.
pub fn write_offer(
    r: Record,
    transcript: &mut [u8],
    random: [u8; 32],
    test: bool,
    extensions: Elements,
    values: &[u8],
) -> Answer
    ensures { leaving result transcript.new ≡ offering r transcript.old
        (nego_content random test extensions values.now) }
{
    if let Err(refusal) = check_offer(r, test, extensions, values, transcript.len()) {
        return refused(refusal, r);
    }
    let list = r.list;
    let end = field::ID * r.count;
    let next = append_nego(r, transcript, random, &list[..end], extensions, values);
    accepted(next)
}
