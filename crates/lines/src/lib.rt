// The lines of a message that passed its checks, and the last line of a listing, each in an array of 128 octets, which has room for every line.
#![tactic(auto)]

ghost use Rattle.std.specs.Prelude.{◌≡◌, ◌+◌, [], length, get_or};
ghost use Rattle.lines.specs.Lines.{message_lines, end_line, refused_line};
ghost use Rattle.lines.specs.Fit.{Fit, shape_in, lines_in, LineIs};

use message::{Kind, field};
use octets::le_u32;
use parts::{alerts, extensions, schemes};
use vector::TokenPlace;

mod content;
mod line;

// How many lines a message has.
pub fn count(m: &[u8]) -> usize
    requires { Fit (shape_in m.now) m.now }
    ensures { result ≡ 1 + length (lines_in (shape_in m.now) m.now) }
{
    let kind = le_u32(m, field::TYPE);
    if kind <= Kind::ACCEPTOR_NEGO {
        let ids = schemes(m);
        let array = extensions(m);
        return 1 + (ids.len() / field::ID + array.len() / field::ELEMENT);
    }
    if kind <= Kind::VERIFY {
        return 3;
    }
    let array = alerts(m);
    3 + array.len() / field::ELEMENT
}

// The line of the message m with an index; nothing where it has none with that index.
pub fn message_text(out: &mut [u8; 128], place: TokenPlace, m: &[u8], index: usize) -> usize
    requires { Fit (shape_in m.now) m.now }
    ensures { LineIs result out.old out.new (get_or (message_lines place.0 m.now) index []) }
{
    content::line_at(out, place, m, index)
}

// The last line of an accepted token.
pub fn end_text(out: &mut [u8; 128], n: u32, octets: usize) -> usize
    ensures { LineIs result out.old out.new (end_line n octets) }
{
    line::end(out, n, octets)
}

// The only line of a refused token.
pub fn refused_text(out: &mut [u8; 128], n: u32, place: TokenPlace) -> usize
    ensures { LineIs result out.old out.new (refused_line n place.0) }
{
    line::refused(out, n, place)
}
