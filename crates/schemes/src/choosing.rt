// The choice at both ends: the lowest scheme left, and how many are left.
ghost use Rattle.std.specs.Prelude.{◌≡◌};
ghost use Rattle.schemes.specs.Sets.{open_places};
ghost use Rattle.schemes.specs.Answers.{marked_at, left_places, left_of};

use super::Left;
use super::set::{bit_of, set_where};

// The acceptor's choice: the common places less the marks.
pub fn choose_own(common: u16, marks: u16) -> Left
    ensures { result ≡ left_of (left_places 16 common marks) }
{
    let unmarked = common & !marks;
    if unmarked == 0 {
        return Left { place: 0, left: 0 };
    }
    Left {
        place: u16::trailing_zeros(unmarked),
        left: u16::count_ones(unmarked),
    }
}

// The set of the k whose kept place is marked.
fn marked_kept(kept: [u8; 16], marks: u16) -> u16
    ensures { result ≡ marked_at kept marks }
{
    set_where(16, |k| bit_of(marks, kept[k as usize] as u32))
}

// The initiator's choice: the reply's places less those whose own place is marked.
pub fn choose_kept(kept: [u8; 16], common: u16, marks: u16) -> Left
    ensures { result ≡ left_of (open_places kept common marks) }
{
    let open = choose_own(common, marked_kept(kept, marks));
    if open.left == 0 {
        return open;
    }
    Left {
        place: kept[open.place as usize] as u32,
        left: open.left,
    }
}
