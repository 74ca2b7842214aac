// What a replay prints beside the listings of its turns, as lines of text from the front of a lent slice on.
#![tactic(auto)]

ghost use Rattle.std.specs.Prelude.{◌≡◌, [], ◌∷◌};
ghost use Rattle.text.specs.Text.{text, written};
ghost use Rattle.replaying.specs.Playing.{whose_as, ending_as};
ghost use Rattle.replay_lines.specs.Lines.{side_text, turn_line, choice_as, choice_line, refused_line, end_lines};

use replaying::{Fault, Whose};
use text::{append, field, id, wide_field};

// The word for a side, and the line's end.
fn side(d: &mut [u8], at: usize, whose: Whose) -> usize
    ensures { text d.new result ≡ written (side_text (whose_as whose) ∷ []) (text d.old at) }
{
    match whose {
        Whose::Initiator => append(d, at, b" initiator\n"),
        Whose::Acceptor => append(d, at, b" acceptor\n"),
        Whose::Neither => append(d, at, b" neither\n"),
    }
}

// The line of a turn.
pub fn turn_line(d: &mut [u8], k: u32, acceptor: bool) -> usize
    ensures { text d.new result ≡ written (turn_line k acceptor) (text d.old 0) }
{
    let number_end = field(d, 0, b"turn ", k);
    if acceptor {
        return side(d, number_end, Whose::Acceptor);
    }
    side(d, number_end, Whose::Initiator)
}

// The line of a choice, or of none.
pub fn choice_line(d: &mut [u8], chosen: Option<[u8; 16]>) -> usize
    ensures { text d.new result ≡ written (choice_line (choice_as chosen)) (text d.old 0) }
{
    let Some(scheme) = chosen else {
        return append(d, 0, b"choice none\n");
    };
    let id_start = append(d, 0, b"choice ");
    let id_end = id(d, id_start, &scheme);
    append(d, id_end, b"\n")
}

// The line of a refusal that ends a replay.
fn refusal(d: &mut [u8], number: u32, place: usize, whose: Whose) -> usize
    ensures { text d.new result ≡ written (refused_line number place (whose_as whose)) (text d.old 0) }
{
    let number_end = field(d, 0, b"refused ", number);
    let place_end = wide_field(d, number_end, b" at=", place);
    side(d, place_end, whose)
}

// The line of how a replay ended: none at the last turn, nor before its end.
pub fn end_line(d: &mut [u8], end: Option<Result<(), Fault>>) -> usize
    ensures { text d.new result ≡ written (end_lines (ending_as end)) (text d.old 0) }
{
    let Some(result) = end else {
        return 0;
    };
    let Err(fault) = result else {
        return 0;
    };
    match fault {
        Fault::Unopened => append(d, 0, b"no file\n"),
        Fault::Refused {
            number,
            place,
            whose,
        } => refusal(d, number, place.0, whose),
    }
}
