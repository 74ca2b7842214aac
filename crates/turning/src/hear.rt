// What a turn's reader answers, with 28 after the first message's 15.
ghost use Rattle.std.specs.Prelude.{◌≡◌, ◌≤◌, length};
ghost use Rattle.conversation.specs.Outcomes.{leaving};
ghost use Rattle.sides.specs.Turning.{heard_turn};
ghost use Rattle.turning.specs.Hearing.{owed_before};

use calls::answer;
use conversation::{Answer, Record};
use receiving::read;
use refusal::Refusal;
use vector::TokenPlace;

// The refusal of the first message, or else 28: a later message's and 16 come after it.
fn owed_before(r: Record, a: Answer) -> Answer
    ensures { result ≡ owed_before r a }
{
    if a.refusal == Refusal::Room.number() || 0 < a.place.0 {
        return answer(Refusal::Choice.number(), TokenPlace(0), r);
    }
    a
}

// A turn, read into its reader's record; `good` says that its first message is what its writer's list and marks give.
pub fn hear(good: bool, r: Record, transcript: &mut [u8], t: &[u8]) -> Answer
    requires { 64 ≤ length t.now }
    ensures { leaving result transcript.new ≡ heard_turn good r transcript.old t.now }
{
    if good {
        return read(r, transcript, t);
    }
    // No turn has room in so little, so that nothing is read, and the first refusal is known.
    let mut little = [0u8; 16];
    owed_before(r, read(r, &mut little, t))
}
