// 28: whether the first message of a turn is what its writer's list and marks give.
ghost use Rattle.std.specs.Prelude.{◌≡◌, not, ◌&&◌, ◌≤◌, length, take, eqb};
ghost use Rattle.octets.specs.Octets.{same_octets};
ghost use Rattle.schemes.specs.Sets.{named};
ghost use Rattle.conversation.specs.State.{own_of, replied};
ghost use Rattle.conversation.specs.Writing.{some_left, first_or};
ghost use Rattle.conversation.specs.Admitting.{scheme_in, listed_by};
ghost use Rattle.conversation.specs.Choosing.{open_to, may_choose};
ghost use Rattle.sides.specs.Turning.{same_list, with_marks, owed};

use admitting::fits::same_at;
use admitting::named::listed;
use conversation::turns::writing_token;
use conversation::{Record, Turn};
use message::field;
use parts::scheme;
use schemes::choosing::choose_kept;
use schemes::offer::gather;

// Whether a NEGO lists its writer's own schemes, in its order.
fn lists_own(w: Record, t: &[u8]) -> bool
    requires { w.count ≤ 16 }
    ensures { result ≡ same_list (listed_by t.now) (own_of w) }
{
    listed(t) == &w.list[..field::ID * w.count]
}

// Whether a NEGO lists the common schemes less the marks, in its writer's order, and there are some.
fn lists_reply(w: Record, marks: u16, t: &[u8]) -> bool
    requires { w.count ≤ 16 }
    ensures { result ≡ (some_left (replied (with_marks marks w)) && same_list (listed_by t.now) (replied (with_marks marks w))) }
{
    let schemes = gather(w.list, w.count, w.common & !marks);
    let reply = &schemes.octets[..field::ID * schemes.count as usize];
    schemes.count != 0 && listed(t) == reply
}

// Whether a message names the first scheme of the reply that its writer has left, and there is one.
fn names_choice(w: Record, marks: u16, t: &[u8]) -> bool
    requires { (w.count ≤ 16) × (64 ≤ length t.now) }
    ensures { result ≡ (some_left (named (own_of w) (open_to w marks)) && same_octets (scheme_in t.now)
        (first_or (named (own_of w) (open_to w marks)))) }
{
    let left = choose_kept(w.kept, w.common, marks);
    let place = left.place as usize;
    if left.left == 0 || w.count <= place {
        return false;
    }
    same_at(&w.list, place, scheme(t))
}

// Whether a record may choose.
pub(crate) fn may_choose(w: Record) -> bool
    ensures { result ≡ may_choose w }
{
    !w.acceptor && w.stage == Record::CHOOSING
}

// 28, by what the writer's record has to write.
pub fn owes(w: Record, marks: u16, t: &[u8]) -> bool
    requires { (w.count ≤ 16) × (64 ≤ length t.now) }
    ensures { result ≡ owed marks w t.now }
{
    match writing_token(w.acceptor, w.stage) {
        Turn::FIRST => lists_own(w, t),
        Turn::ANSWER => lists_reply(w, marks, t),
        _ => !may_choose(w) || names_choice(w, marks, t),
    }
}
