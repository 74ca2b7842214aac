// Pieces of text appended in a lent slice. Each writer is given the place behind what is written already, and answers the next one. A piece that
// has no room is left out. Slice and place stay two parameters: a struct of both would hold the lent slice, and each caller would have to lend it anew.
#![tactic(auto)]

ghost use Rattle.std.specs.Prelude.{◌≡◌, ◌<◌, ◌∷◌, []};
ghost use Rattle.text.specs.Text.{text, written, decimal, decimal64, signed as Text·signed, glyph_of, glyphs as Text·glyphs, hex_of, digits_of, hex_digit, id_text};

use put::put_octets;

// The octets v.
pub fn append(d: &mut [u8], at: usize, v: &[u8]) -> usize
    ensures { text d.new result ≡ written (v.now ∷ []) (text d.old at) }
{
    if d.len() < v.len() || d.len() - v.len() < at {
        return at;
    }
    put_octets(d, at, v)
}

// A number in decimal.
pub fn number(d: &mut [u8], at: usize, n: u32) -> usize
    ensures { text d.new result ≡ written (decimal n ∷ []) (text d.old at) }
{
    wide_number(d, at, n as usize)
}

// A place or a size in decimal.
pub fn wide_number(d: &mut [u8], at: usize, n: usize) -> usize
    ensures { text d.new result ≡ written (decimal64 n ∷ []) (text d.old at) }
{
    let mut digits = [0u8; 20];
    let count = io::decimal(n as u64, &mut digits);
    append(d, at, &digits[..count])
}

// The octets v, and a number behind them.
pub fn field(d: &mut [u8], at: usize, v: &[u8], n: u32) -> usize
    ensures { text d.new result ≡ written (v.now ∷ decimal n ∷ []) (text d.old at) }
{
    wide_field(d, at, v, n as usize)
}

// The octets v, and a place or a size behind them.
pub fn wide_field(d: &mut [u8], at: usize, v: &[u8], n: usize) -> usize
    ensures { text d.new result ≡ written (v.now ∷ decimal64 n ∷ []) (text d.old at) }
{
    let next = append(d, at, v);
    wide_number(d, next, n)
}

// A signed number in decimal.
pub fn signed(d: &mut [u8], at: usize, z: i32) -> usize
    ensures { text d.new result ≡ written (Text·signed z) (text d.old at) }
{
    if z < 0 {
        return field(d, at, b"-", z.unsigned_abs());
    }
    number(d, at, z.unsigned_abs())
}

// A hexadecimal digit.
fn hex_digit(x: u8) -> u8
    requires { x < 16 }
    ensures { result ≡ hex_digit x }
{
    if x < 10 { b'0' + x } else { b'A' + (x - 10) }
}

// An octet as two digits.
pub fn hex(d: &mut [u8], at: usize, x: u8) -> usize
    ensures { text d.new result ≡ written (hex_of x ∷ []) (text d.old at) }
{
    let digits = [hex_digit(x / 16), hex_digit(x % 16)];
    append(d, at, &digits)
}

// Octets as digits.
pub fn hex_all(d: &mut [u8], at: usize, v: &[u8]) -> usize
    ensures { text d.new result ≡ written (digits_of v.now) (text d.old at) }
{
    let mut next = at;
    for x in v {
        next = hex(d, next, *x);
    }
    next
}

// The octet of an id at place k, 0 where it has none; or a dash, where k is 16: the definition `id_order` has 16 for a dash, and an `Option` for each place
// would need a second order beside it.
fn glyph(d: &mut [u8], at: usize, id: &[u8], k: u8) -> usize
    ensures { text d.new result ≡ written (glyph_of id.now k ∷ []) (text d.old at) }
{
    if k == 16 {
        return append(d, at, b"-");
    }
    hex(d, at, id.get(k as usize).copied().unwrap_or(0))
}

// The octets of an id at the places `order`, with dashes.
fn glyphs(d: &mut [u8], at: usize, id: &[u8], order: &[u8]) -> usize
    ensures { text d.new result ≡ written (Text·glyphs id.now order.now) (text d.old at) }
{
    let mut next = at;
    for k in order {
        next = glyph(d, next, id, *k);
    }
    next
}

// An id in its usual text.
pub fn id(d: &mut [u8], at: usize, i: &[u8]) -> usize
    ensures { text d.new result ≡ written (id_text i.now) (text d.old at) }
{
    let order = b"\x03\x02\x01\x00\x10\x05\x04\x10\x07\x06\x10\x08\x09\x10\x0A\x0B\x0C\x0D\x0E\x0F";
    glyphs(d, at, i, order)
}
