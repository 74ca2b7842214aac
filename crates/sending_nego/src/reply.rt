// ACCEPTOR_NEGO.
ghost use Rattle.std.specs.Prelude.{◌≡◌, ◌+◌, ◌*◌, length};
ghost use Rattle.refusal.specs.Refusals.{refusal_number};
ghost use Rattle.elements.specs.Elements.{items_of, handed_size};
ghost use Rattle.encode.specs.Encode.{nego_of};
ghost use Rattle.schemes.specs.Lists.{join_ids};
ghost use Rattle.schemes.specs.Sets.{left};
ghost use Rattle.conversation.specs.State.{own_of};
ghost use Rattle.conversation.specs.Turns.{NEGO, place_after};
ghost use Rattle.conversation.specs.Outcomes.{leaving, marking, appended};
ghost use Rattle.conversation.specs.Writing.{message_of, reply_rows, naming, replying, nego_content};
ghost use Rattle.calls.specs.Calls.{write_refusal};
ghost use Rattle.sending_nego.specs.Ready.{tested, ReplyReady};

use super::nego::{HEADER, append_nego, check_extensions};
use calls::{check_stage, has_room, naming, refused};
use conversation::{Answer, Class, Record};
use elements::{Elements, size_of};
use message::field;
use refusal::Refusal;
use schemes::choosing::choose_own;
use schemes::list::id_of;
use schemes::offer::gather;
use schemes::set::within;

fn check_reply(
    r: Record,
    marks: u16,
    test: bool,
    extensions: Elements,
    values: &[u8],
    len: usize,
) -> Result<(), Refusal>
    ensures { refusal_number result ≡ write_refusal r NEGO (reply_rows r marks (tested test extensions values.now))
        (96 + 16 * length (left (own_of r) r.common marks) + handed_size extensions values.now) len }
{
    check_stage(r, Class::NEGO)?;
    if !r.acceptor {
        return Err(Refusal::Stage);
    }
    if !within(marks, r.count as u32) {
        return Err(Refusal::Argument);
    }
    check_extensions(test, extensions, values)?;
    let left = choose_own(r.common, marks);
    if left.left == 0 {
        return Err(Refusal::NoCommonScheme);
    }
    let size = size_of(extensions, values);
    if !has_room(r.used, HEADER + field::ID * left.left as usize, size, len) {
        return Err(Refusal::Room);
    }
    Ok(())
}

// The reply, with the common schemes less the marks and with extensions, and the choice by these alone.
fn reply_with(
    r: Record,
    transcript: &mut [u8],
    marks: u16,
    random: [u8; 32],
    extensions: Elements,
    values: &[u8],
) -> Answer
    requires { ReplyReady r transcript.old marks random extensions values.now }
    ensures { leaving result transcript.new ≡ naming (left (own_of r) r.common marks)
        (appended r transcript.old (place_after r NEGO)
        (message_of r NEGO (nego_of random (join_ids (left (own_of r) r.common marks)) (items_of extensions values.now)))
        (marking marks r)) }
{
    let list = r.list;
    let schemes = gather(list, r.count, r.common & !marks);
    let end = field::ID * schemes.count as usize;
    let octets = schemes.octets;
    let next = append_nego(r, transcript, random, &octets[..end], extensions, values);
    let choice = choose_own(r.common, marks);
    let id = id_of(list, choice.place);
    naming(Record { marks, ..next }, id, choice.left)
}

// Writes the acceptor's NEGO, and answers its own choice, which does not bind the initiator.
pub fn write_reply(
    r: Record,
    transcript: &mut [u8],
    marks: u16,
    random: [u8; 32],
    test: bool,
    extensions: Elements,
    values: &[u8],
) -> Answer
    ensures { leaving result transcript.new ≡ replying r transcript.old marks
        (nego_content random test extensions values.now) }
{
    if let Err(refusal) = check_reply(r, marks, test, extensions, values, transcript.len()) {
        return refused(refusal, r);
    }
    reply_with(r, transcript, marks, random, extensions, values)
}
