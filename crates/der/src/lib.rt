// Elements in DER, read where they stand in the caller's buffer.
#![tactic(auto)]

ghost use Rattle.std.specs.Prelude.{◌≡◌, length, ◌+◌, ◌-◌, ◌*◌, ◌≤◌, ◌||◌};
ghost use Rattle.der.specs.Element.{number, length_in, shortest as Element·shortest, framed_from, frame, indefinite, cut, any, exactly, at_most};
ghost use Rattle.der.specs.Holder.{HolderAt, octets_at, capped, Frames, Cuts, verdict};

use refusal::Refusal;

// A part of the buffer, from a place to a place: a holder, or an element's contents.
#[derive(Clone, Copy)]
pub struct Part {
    pub from: usize,
    pub end: usize,
}

// An element taken apart: the octets of its length, its contents, and the rest of its holder.
#[derive(Clone, Copy)]
struct Framed {
    lead: Part,
    contents: Part,
    rest: Part,
}

// A capped number with one octet more behind it.
fn more(n: usize, x: u8) -> usize
    requires { n ≤ 65536 }
    ensures { result ≡ capped (n * 256 + x) }
{
    (n * 256 + usize::from(x)).min(65536)
}

// The number in octets, most significant first, capped: so the octets may be as many as there are.
fn whole(v: &[u8]) -> usize
    ensures { result ≡ capped (number v.now) }
{
    let mut value: usize = 0;
    for x in v {
        value = more(value, *x);
    }
    value
}

// How many octets a length has that begins with x.
fn lead(x: u8) -> usize
    ensures { result ≡ 1 + (x - 128) }
{
    1 + usize::from(x).saturating_sub(128)
}

// The number that the octets of a length say, capped.
fn size(v: &[u8]) -> usize
    ensures { result ≡ capped (length_in v.now) }
{
    if v.len() == 0 {
        return 0;
    }
    if v[0] < 128 {
        return usize::from(v[0]);
    }
    whole(&v[1..])
}

// Whether the octets of a length are the shortest that say n: they are compared with those that would be written.
fn shortest(v: &[u8], n: usize) -> bool
    requires { n ≤ 65535 }
    ensures { result ≡ Element·shortest v.now n }
{
    if n < 128 {
        return v == [n as u8].as_slice();
    }
    if n < 256 {
        return v == [0x81, n as u8].as_slice();
    }
    v == [0x82, (n / 256) as u8, (n % 256) as u8].as_slice()
}

// An element from its length on.
fn framed_from(s: &[u8], holder: Part) -> Result<Framed, Refusal>
    requires { HolderAt s.now holder }
    ensures { Frames s.now holder
        (framed_from (octets_at s.now holder)) result }
{
    let at = holder.from;
    if at == holder.end {
        return Err(Refusal::Element);
    }
    let from = at + lead(s[at]);
    if holder.end < from {
        return Err(Refusal::Element);
    }
    let end = from + size(&s[at..from]);
    if holder.end < end {
        return Err(Refusal::Element);
    }
    Ok(Framed {
        lead: Part {
            from: at,
            end: from,
        },
        contents: Part { from, end },
        rest: Part {
            from: end,
            end: holder.end,
        },
    })
}

// The element with a tag at the front of a holder, taken apart.
fn frame_at(s: &[u8], holder: Part, tag: u8) -> Result<Framed, Refusal>
    requires { HolderAt s.now holder }
    ensures { Frames s.now holder
        (frame tag (octets_at s.now holder)) result }
{
    let at = holder.from;
    if at == holder.end || s[at] != tag {
        return Err(Refusal::Element);
    }
    framed_from(
        s,
        Part {
            from: at + 1,
            end: holder.end,
        },
    )
}

// An element, once it is known whether its contents are right; those of an indefinite length can't be wrong.
fn judged(s: &[u8], element: Framed, right: bool) -> Result<(Part, Part), Refusal>
    requires { (element.lead.from ≤ element.lead.end) × (element.lead.end ≤ length s.now)
        × (element.contents.from ≤ element.contents.end) × (element.contents.end ≤ length s.now)
        × (element.contents.end - element.contents.from ≤ 65535) }
    ensures { result ≡ verdict right (octets_at s.now element.lead) element.contents element.rest }
{
    let lead = &s[element.lead.from..element.lead.end];
    let contents = element.contents;
    if !right && lead != [0x80].as_slice() {
        return Err(Refusal::Element);
    }
    if !shortest(lead, contents.end - contents.from) {
        return Err(Refusal::ElementLength);
    }
    Ok((contents, element.rest))
}

// The element with a tag at the front of a holder: its contents, and the rest of the holder.
pub fn cut_at(s: &[u8], holder: Part, tag: u8) -> Result<(Part, Part), Refusal>
    requires { HolderAt s.now holder }
    ensures { Cuts s.now holder
        (cut tag any (octets_at s.now holder)) result }
{
    let element = frame_at(s, holder, tag)?;
    judged(s, element, true)
}

// The same element, whose contents have to be the octets v.
pub fn cut_exactly(s: &[u8], holder: Part, tag: u8, v: &[u8]) -> Result<(Part, Part), Refusal>
    requires { HolderAt s.now holder }
    ensures { Cuts s.now holder
        (cut tag (exactly v.now) (octets_at s.now holder)) result }
{
    let element = frame_at(s, holder, tag)?;
    let contents = element.contents;
    judged(s, element, &s[contents.from..contents.end] == v)
}

// Whether a slice is one octet, n at the most.
fn at_most(v: &[u8], n: u8) -> bool
    ensures { result ≡ at_most n v.now }
{
    v.len() == 1 && v[0] <= n
}

// The same element, whose contents have to be one octet, n at the most.
pub fn cut_at_most(s: &[u8], holder: Part, tag: u8, n: u8) -> Result<(Part, Part), Refusal>
    requires { HolderAt s.now holder }
    ensures { Cuts s.now holder
        (cut tag (at_most n) (octets_at s.now holder)) result }
{
    let element = frame_at(s, holder, tag)?;
    let contents = element.contents;
    judged(s, element, at_most(&s[contents.from..contents.end], n))
}
