// The writer's record after its turn, as if it had written it.
ghost use Rattle.std.specs.Prelude.{◌≡◌, cond, ◌&&◌, ◌||◌, ◌+◌, ◌*◌, ◌≤◌, length, eqb, ltb};
ghost use Rattle.schemes.specs.Lists.{place};
ghost use Rattle.schemes.specs.Answers.{with_bit};
ghost use Rattle.conversation.specs.State.{own_of};
ghost use Rattle.conversation.specs.Choosing.{open_to, first_place, chose};
ghost use Rattle.sides.specs.Merging.{messages_of};
ghost use Rattle.sides.specs.Turning.{begun, said, spoke};

use super::owed::may_choose;
use calls::next::after_message;
use conversation::turns::{class_of, writing_token};
use conversation::{Class, Record, Turn};
use message::{field, read_header};
use octets::le_u32;
use parts::scheme;
use schemes::choosing::choose_kept;
use schemes::list::find;
use schemes::set::with_bit;

// The first place that is open to a choice, or none.
fn first_open(w: Record, marks: u16) -> usize
    ensures { result ≡ first_place (open_to w marks) }
{
    let left = choose_kept(w.kept, w.common, marks);
    if left.left == 0 {
        return Record::NONE;
    }
    left.place as usize
}

// The record after the choice.
fn chosen(w: Record, marks: u16) -> Record
    ensures { result ≡ chose w marks }
{
    let place = first_open(w, marks);
    Record {
        stage: Record::LATER,
        position: 0,
        marks,
        chosen: place,
        attested: w.attested && place == w.requested,
        confirmed: w.confirmed && place == w.requested,
        ..w
    }
}

// The record in which the first message of a turn is written: marks come with the acceptor's NEGO, and with the choice.
fn begin(w: Record, marks: u16) -> Record
    ensures { result ≡ begun marks w }
{
    if may_choose(w) {
        return chosen(w, marks);
    }
    if writing_token(w.acceptor, w.stage) == Turn::ANSWER {
        return Record { marks, ..w };
    }
    w
}

// The schemes that have metadata, with that of a message, where it is metadata for an own scheme.
fn metadata_after(w: Record, class: u8, id: &[u8]) -> u16
    requires { w.count ≤ 16 }
    ensures { result ≡ cond (eqb class 2 && ltb (place (own_of w) id.now) w.count)
        (with_bit w.metadata (place (own_of w) id.now)) w.metadata }
{
    if class != Class::METADATA {
        return w.metadata;
    }
    let place = find(&w.list, w.count, id);
    if w.count <= place {
        return w.metadata;
    }
    with_bit(w.metadata, place as u32)
}

// The place of the first token's AP_REQUEST, where a message is it.
fn requested_after(requested: usize, class: u8, token: u8) -> usize
    ensures { result ≡ cond (eqb class 3 && eqb token 0) 0 requested }
{
    if class == Class::EXCHANGE && token == Turn::FIRST {
        return 0;
    }
    requested
}

// The writer's record after a message of its own.
fn say(w: Record, m: &[u8]) -> Record
    requires { (w.count ≤ 16) × (w.sequence ≤ 1023) × (w.used + length m.now ≤ 65535) × (64 ≤ length m.now) }
    ensures { result ≡ said w m.now }
{
    let class = class_of(w.acceptor, le_u32(m, field::TYPE));
    let token = writing_token(w.acceptor, w.stage);
    Record {
        metadata: metadata_after(w, class, scheme(m)),
        requested: requested_after(w.requested, class, token),
        attested: class == Class::VERIFY || w.attested,
        ..after_message(w, class, m.len())
    }
}

// The writer's record after its turn t.
pub fn speak(w: Record, marks: u16, t: &[u8]) -> Record
    requires { (w.count ≤ 16) × (64 * w.sequence ≤ w.used) × (w.used + length t.now ≤ 65535) }
    ensures { result ≡ spoke marks w (messages_of t.now) }
{
    let mut spoken = begin(w, marks);
    let mut rest = t;
    // no index is counted here: where the next message begins, each header says
    while !rest.is_empty() {
        let Ok(h) = read_header(rest) else {
            return spoken;
        };
        let length = h.length as usize;
        spoken = say(spoken, &rest[..length]);
        rest = &rest[length..];
    }
    spoken
}
