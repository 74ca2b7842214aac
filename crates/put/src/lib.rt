// Octets and numbers written into a lent slice. Each writer answers the place behind what it wrote.
#![tactic(auto)]

ghost use Rattle.std.specs.Prelude.{◌≡◌, ◌+◌, ◌≤◌, length};
ghost use Rattle.put.specs.Put.{Written, octets_of, unsigned32};

// Octets, as they are.
pub fn put_octets(d: &mut [u8], at: usize, v: &[u8]) -> usize
    requires { at + length v.now ≤ length d.old }
    ensures { Written d.old at (length v.now) v.now d.new result }
{
    let next = at + v.len();
    d[at..next].copy_from_slice(v);
    next
}

// A number in two octets.
pub fn put_u16(d: &mut [u8], at: usize, x: u16) -> usize
    requires { at + 2 ≤ length d.old }
    ensures { Written d.old at 2 (octets_of 2 x) d.new result }
{
    put_octets(d, at, &x.to_le_bytes())
}

// A number in four octets.
pub fn put_u32(d: &mut [u8], at: usize, x: u32) -> usize
    requires { at + 4 ≤ length d.old }
    ensures { Written d.old at 4 (octets_of 4 x) d.new result }
{
    put_octets(d, at, &x.to_le_bytes())
}

// The 32-bit number that stands for a signed one, in two's complement.
pub fn from_i32(z: i32) -> u32
    ensures { result ≡ unsigned32 z }
{
    z.cast_unsigned()
}

// A signed number in four octets.
pub fn put_i32(d: &mut [u8], at: usize, z: i32) -> usize
    requires { at + 4 ≤ length d.old }
    ensures { Written d.old at 4 (octets_of 4 (unsigned32 z)) d.new result }
{
    put_u32(d, at, from_i32(z))
}
