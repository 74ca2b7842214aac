// What the fields of a call say: its number, its id, and the rest of its line.
ghost use Rattle.std.specs.Prelude.{◌≡◌, length};
ghost use Rattle.fields.specs.Fields.{number_of, fit, decoded_as, id_as};
ghost use Rattle.script.specs.Grammar.{ids_of, kind_of, number_in, id_in, rest_in};
ghost use Rattle.script.specs.Places.{fields_from};

use super::Kind;
use super::field::{behind, field, last};
use fields::hex::{id, octets};
use fields::number::{hexadecimal, room};
use put::put_octets;

// A line's number, in the field that starts at `from`: 0 where it has none.
#[tactic(auto, unfolding(crate::specs::Grammar::number_in))]
pub fn number_in(line: &[u8], from: usize, kind: Option<Kind>) -> Option<u32>
    ensures { number_of result ≡ number_in (kind_of kind) (fields_from line.now from) }
{
    match kind {
        None => Some(0),
        Some(Kind::Room) => room(field(line, from)),
        Some(Kind::Marks) => hexadecimal(field(line, from), 4, 65535),
        _ => hexadecimal(field(line, from), 8, 4294967295),
    }
}

// A line's id, in the field that starts at `from`, where there is one; else zeros.
#[tactic(auto, unfolding(crate::specs::Grammar::id_in))]
pub(crate) fn id_in(line: &[u8], from: usize, some: bool) -> Option<[u8; 16]>
    ensures { id_as result ≡ id_in some (fields_from line.now from) }
{
    if !some {
        return Some([0u8; 16]);
    }
    id(field(line, from))
}

// The ids of the fields from `from` on, one behind the other at the front of d.
fn ids(line: &[u8], from: usize, d: &mut [u8]) -> Option<usize>
    ensures { decoded_as result d.new ≡ fit (length d.old) (ids_of (fields_from line.now from)) }
{
    let mut at = from;
    let mut filled = 0;
    // No range: the step of a turn is a field's length.
    while at <= line.len() {
        let next = id(field(line, at))?;
        if d.len() - filled < 16 {
            return None;
        }
        filled = put_octets(d, filled, &next);
        at = behind(line, at);
    }
    Some(filled)
}

// The rest of a line that is octets alone, from the field that starts at `from`: they are put at the front of d.
#[tactic(auto, using(crate::proofs::Places::past_none, crate::proofs::Places::field_there), unfolding(crate::specs::Grammar::rest_in))]
pub fn rest_in(line: &[u8], from: usize, kind: Option<Kind>, d: &mut [u8]) -> Option<usize>
    ensures { decoded_as result d.new ≡ fit (length d.old) (rest_in (kind_of kind) (fields_from line.now from)) }
{
    match kind {
        Some(Kind::Ids) => ids(line, from, d),
        Some(Kind::Octets) => octets(last(line, from), d),
        _ if from <= line.len() => None,
        _ => Some(0),
    }
}
