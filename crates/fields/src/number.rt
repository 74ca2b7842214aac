// Digits and numbers.
ghost use Rattle.std.specs.Prelude.{◌≡◌};
ghost use Rattle.fields.specs.Fields.{base_of, below, digit_of, numeral as Fields·numeral, number_of, hexadecimal_of, room_of};

// The value of a digit of either case.
#[tactic(auto, unfolding(crate::specs::Fields::digit_of))]
pub(crate) fn digit(c: u8) -> Option<u8>
    ensures { result ≡ below 16 (digit_of c) }
{
    match c {
        b'0'..=b'9' => Some(c - b'0'),
        b'A'..=b'F' => Some(c - b'A' + 10),
        b'a'..=b'f' => Some(c - b'a' + 10),
        _ => None,
    }
}

// The bases of numbers.
#[derive(Clone, Copy)]
enum Base {
    Decimal = 10,
    Hexadecimal = 16,
}

// The number that digits of a base stand for, most significant first, where it is at most `most`.
fn numeral(s: &[u8], base: Base, most: u32) -> Option<u32>
    ensures { number_of result ≡ Fields·numeral (base_of base) most s.now }
{
    let base = base as u64;
    let mut number = 0;
    for c in s {
        let value = digit(*c)? as u64;
        let next = number as u64 * base + value;
        if base <= value || (most as u64) < next {
            return None;
        }
        number = next as u32;
    }
    Some(number)
}

// A number of so many hexadecimal digits.
#[tactic(auto, unfolding(crate::specs::Fields::hexadecimal_of))]
pub fn hexadecimal(s: &[u8], digits: usize, most: u32) -> Option<u32>
    ensures { number_of result ≡ hexadecimal_of digits most s.now }
{
    if s.len() != digits {
        return None;
    }
    numeral(s, Base::Hexadecimal, most)
}

// ROOM: one to five decimal digits, at most 65,536.
#[tactic(auto, unfolding(crate::specs::Fields::room_of))]
pub fn room(s: &[u8]) -> Option<u32>
    ensures { number_of result ≡ room_of s.now }
{
    if s.is_empty() || 5 < s.len() {
        return None;
    }
    numeral(s, Base::Decimal, 65536)
}
