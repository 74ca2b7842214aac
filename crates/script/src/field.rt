// The fields of a line. A field starts at a place of the line and ends before the next space or at the line's end; a place behind the line's end starts
// none.
ghost use Rattle.std.specs.Prelude.{◌≡◌};
ghost use Rattle.script.specs.Grammar.{first, only, past as Grammar·past};
ghost use Rattle.script.specs.Places.{fields_from, Behind};
ghost use Rattle.script.specs.Steps.{FieldEnd};

use fields::part;
use scan::find;

// Where the field that starts at `from` ends.
fn field_end(s: &[u8], from: usize) -> usize
    ensures { FieldEnd s.now from result }
{
    if s.len() < from {
        return s.len();
    }
    find(s, from, s.len(), b' ')
}

// The field that starts at `from`.
pub fn field(s: &[u8], from: usize) -> &[u8]
    ensures { result.now ≡ first (fields_from s.now from) }
{
    part(s, from, field_end(s, from))
}

// The field that starts at `from`, where it is the line's last; else nothing.
pub(crate) fn last(s: &[u8], from: usize) -> &[u8]
    ensures { result.now ≡ only (fields_from s.now from) }
{
    let end = field_end(s, from);
    if end < s.len() {
        return &s[..0];
    }
    part(s, from, end)
}

// Where the next field starts: behind the line's end, where there is none.
pub fn behind(s: &[u8], from: usize) -> usize
    ensures { Behind s.now from result }
{
    field_end(s, from) + 1
}

// Where the next field starts, once the one at `from` is read or not.
pub(crate) fn past(s: &[u8], from: usize, read: bool) -> usize
    ensures { fields_from s.now result ≡ Grammar·past read (fields_from s.now from) }
{
    if read { behind(s, from) } else { from }
}
