// Elements in DER, written into a lent slice. Each writer answers the place behind what it wrote.
#![tactic(auto, using(crate::proofs::Heads::sizes, crate::proofs::Heads::fieldSizes))]

ghost use Rattle.std.specs.Prelude.{◌≡◌, ◌+◌, ◌≤◌, length};
ghost use Rattle.put.specs.Put.{Written};
ghost use Rattle.der.specs.Element.{element};
ghost use Rattle.der.specs.Grammar.{field_octets};
ghost use Rattle.der.specs.Holder.{capped};
ghost use Rattle.der_put.specs.Size.{head, head_size, element_size, given, field_size};

use put::put_octets;

// How many octets an element has whose contents have n.
pub fn element_size(n: usize) -> usize
    requires { n ≤ 1000000 }
    ensures { result ≡ element_size n }
{
    if n < 128 {
        return 2 + n;
    }
    if n < 256 {
        return 3 + n;
    }
    4 + n
}

// A size, or 65,536 where it is larger.
pub fn cap(n: usize) -> usize
    ensures { result ≡ capped n }
{
    n.min(65536)
}

// How many octets a field has, capped.
pub fn field_size(there: bool, n: usize) -> usize
    ensures { result ≡ capped (field_size there n) }
{
    if !there {
        return 0;
    }
    if 65535 < n {
        return 65536;
    }
    cap(element_size(element_size(n)))
}

// A tag and a length.
pub fn put_head(d: &mut [u8], at: usize, tag: u8, n: usize) -> usize
    requires { (at + head_size n ≤ length d.old) × (n ≤ 65535) }
    ensures { Written d.old at (head_size n) (head tag n) d.new result }
{
    if n < 128 {
        return put_octets(d, at, &[tag, n as u8]);
    }
    if n < 256 {
        return put_octets(d, at, &[tag, 0x81, n as u8]);
    }
    put_octets(d, at, &[tag, 0x82, (n / 256) as u8, (n % 256) as u8])
}

// An element.
pub fn put_element(d: &mut [u8], at: usize, tag: u8, v: &[u8]) -> usize
    requires { (at + element_size (length v.now) ≤ length d.old) × (length v.now ≤ 65535) }
    ensures { Written d.old at (element_size (length v.now)) (element tag v.now) d.new result }
{
    let contents_at = put_head(d, at, tag, v.len());
    put_octets(d, contents_at, v)
}

// A field, where it is there.
pub fn put_field(d: &mut [u8], at: usize, tag: u8, inner: u8, there: bool, v: &[u8]) -> usize
    requires { (at + field_size there (length v.now) ≤ length d.old) × (field_size there (length v.now) ≤ 65535) }
    ensures { Written d.old at (field_size there (length v.now)) (field_octets tag inner (given there v.now))
        d.new result }
{
    if !there {
        return at;
    }
    let element_at = put_head(d, at, tag, element_size(v.len()));
    put_element(d, element_at, inner, v)
}
