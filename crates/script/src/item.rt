// Extensions and alerts in a line: TYPE:OCTETS, and the word `test` in front of the first one.
ghost use Rattle.std.specs.Prelude.{◌≡◌, ◌<◌};
ghost use Rattle.script.specs.Grammar.{size_of, test_in};
ghost use Rattle.script.specs.Places.{fields_from};
ghost use Rattle.script.specs.Steps.{ItemRead, one_more};

use super::field::{behind, field};
use elements::Elements;
use fields::hex::octets;
use fields::number::hexadecimal;
use fields::{octet, part};

// An extension or an alert: its type, and how many octets its value has.
#[derive(Clone, Copy)]
pub(crate) struct ItemText {
    pub(crate) kind: u32,
    pub(crate) size: usize,
}

// The extension or alert in a field. Its value is put at the front of d.
pub(crate) fn item(s: &[u8], d: &mut [u8]) -> Option<ItemText>
    ensures { ItemRead s.now d.old result d.new }
{
    if octet(s, 8) != b':' {
        return None;
    }
    let kind = hexadecimal(part(s, 0, 8), 8, 4294967295)?;
    let size = octets(part(s, 9, s.len()), d)?;
    Some(ItemText { kind, size })
}

// A size in 32 bits.
fn size_of(n: usize) -> u32
    ensures { result ≡ size_of n }
{
    n.min(4294967295) as u32
}

// Elements with one more behind them, whose value has n octets. Only the first eight have a place.
pub(crate) fn added(e: Elements, kind: u32, n: usize) -> Elements
    requires { e.count < 9223372036854775808 }
    ensures { result ≡ one_more e kind n }
{
    let i = e.count;
    let mut next = e;
    next.count = i + 1;
    if i < Elements::MOST {
        next.types[i] = kind;
        next.sizes[i] = size_of(n);
    }
    next
}

// Whether the word `test` stands at `from`, with another field behind it.
pub(crate) fn is_test(line: &[u8], from: usize) -> bool
    ensures { result ≡ test_in (fields_from line.now from) }
{
    behind(line, from) <= line.len() && field(line, from) == b"test".as_slice()
}
