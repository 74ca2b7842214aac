// The parts of an envelope that was read, where they stand in the caller's buffer.
#![tactic(auto)]

ghost use Rattle.std.specs.Prelude.{◌≡◌};
ghost use Rattle.der.specs.Holder.{HolderAt, octets_at};
ghost use Rattle.envelope_parts.specs.Parts.{octets_in, identifier_of, mechanism_of, is_negoex};

use der::{Part, cut_at};

// The octets of a part of a buffer, or as much of it as the buffer has.
fn part_of(s: &[u8], part: Part) -> &[u8]
    ensures { result.now ≡ octets_at s.now part }
{
    let end = part.end.min(s.len());
    if end < part.from {
        return &s[..0];
    }
    &s[part.from..end]
}

// A field's octets; none where it is absent.
pub fn octets(s: &[u8], f: Option<Part>) -> &[u8]
    ensures { result.now ≡ octets_in s.now f }
{
    match f {
        Some(part) => part_of(s, part),
        None => &s[..0],
    }
}

// Identifier k of a list.
fn identifier(s: &[u8], list: Part, k: usize) -> &[u8]
    requires { HolderAt s.now list }
    ensures { result.now ≡ identifier_of k (octets_at s.now list) }
{
    let mut rest = list;
    for i in 0..k {
        let Ok((_, behind)) = cut_at(s, rest, 0x06) else {
            return &s[..0];
        };
        rest = behind;
    }
    let Ok((contents, _)) = cut_at(s, rest, 0x06) else {
        return &s[..0];
    };
    &s[contents.from..contents.end]
}

// Mechanism k of the list with these contents; nothing where there is none.
pub fn mechanism(s: &[u8], list: Part, k: usize) -> &[u8]
    ensures { result.now ≡ mechanism_of k (octets_at s.now list) }
{
    let identifiers = part_of(s, list);
    if 65535 < identifiers.len() {
        return &identifiers[..0];
    }
    let whole = Part {
        from: 0,
        end: identifiers.len(),
    };
    identifier(identifiers, whole, k)
}

// Whether an identifier's contents are those of NEGOEX.
pub fn is_negoex(v: &[u8]) -> bool
    ensures { result ≡ is_negoex v.now }
{
    v == [0x2B, 0x06, 0x01, 0x04, 0x01, 0x82, 0x37, 0x02, 0x02, 0x1E].as_slice()
}
