// What a field of a text says: a part of it, and in their own files numbers, octets and ids.
#![tactic(auto)]

ghost use Rattle.std.specs.Prelude.{◌≡◌, get_or};
ghost use Rattle.fields.specs.Fields.{part as Fields·part};

pub mod hex;
pub mod number;

// The octets of s from `from` on, up to `end`: as many as there are.
pub fn part(s: &[u8], from: usize, end: usize) -> &[u8]
    ensures { result.now ≡ Fields·part s.now from end }
{
    let to = end.min(s.len());
    &s[from.min(to)..to]
}

// The octet of s at a place, 0 where it has none.
pub fn octet(s: &[u8], at: usize) -> u8
    ensures { result ≡ get_or s.now at 0 }
{
    s.get(at).copied().unwrap_or(0)
}
