// The text that `wrap` takes: a line read into what it says.
#![tactic(auto)]

ghost use Rattle.std.specs.Prelude.{◌≡◌, length};
ghost use Rattle.fields.specs.Fields.{fit, octets_of};
ghost use Rattle.envelope_script.specs.Grammar.{said_as, kind_of, state_said, octets_said, field_of, line_of};

use fields::hex::octets;
use fields::number::room;

// What a line says: the state, or octets of a kind, of which so many stand at the front of the lent slice.
#[derive(Clone, Copy)]
pub enum Line {
    Init,
    Resp,
    State(u32),
    Octets(Field, usize),
}

// The kinds of octets: the fields of an envelope that have some.
#[derive(Clone, Copy, PartialEq, Eq)]
pub enum Field {
    Mechanism,
    Flags,
    Token,
    Checksum,
}

// What a field N says.
#[tactic(auto, unfolding(crate::specs::Grammar::state_said))]
fn state(v: &[u8], lent: &[u8]) -> Option<Line>
    ensures { said_as result lent.now ≡ state_said v.now }
{
    let k = room(v)?;
    if 3 < v.len() || 255 < k {
        return None;
    }
    Some(Line::State(k))
}

// What a field OCTETS says.
fn octets_of(kind: Field, v: &[u8], lent: &mut [u8]) -> Option<Line>
    ensures { said_as result lent.new ≡ octets_said (kind_of kind) (fit (length lent.old) (octets_of v.now)) }
{
    let n = octets(v, lent)?;
    Some(Line::Octets(kind, n))
}

// What a line of octets says, by its word.
#[tactic(auto, using(crate::proofs::Lines::begins_so), unfolding(crate::specs::Grammar::field_of))]
fn field_line(s: &[u8], lent: &mut [u8]) -> Option<Line>
    ensures { said_as result lent.new ≡ field_of s.now (length lent.old) }
{
    if let Some(v) = s.strip_prefix(b"mechanism ") {
        return octets_of(Field::Mechanism, v, lent);
    }
    if let Some(v) = s.strip_prefix(b"flags ") {
        return octets_of(Field::Flags, v, lent);
    }
    if let Some(v) = s.strip_prefix(b"token ") {
        return octets_of(Field::Token, v, lent);
    }
    octets_of(Field::Checksum, s.strip_prefix(b"checksum ")?, lent)
}

// What a line says; octets stand at the front of the lent slice.
#[tactic(auto, using(crate::proofs::Lines::begins_so, octets::proofs::Same::compared), unfolding(crate::specs::Grammar::line_of))]
pub fn read_line(s: &[u8], lent: &mut [u8]) -> Option<Line>
    ensures { said_as result lent.new ≡ line_of s.now (length lent.old) }
{
    if s == b"init".as_slice() {
        return Some(Line::Init);
    }
    if s == b"resp".as_slice() {
        return Some(Line::Resp);
    }
    if let Some(v) = s.strip_prefix(b"state ") {
        return state(v, lent);
    }
    field_line(s, lent)
}
