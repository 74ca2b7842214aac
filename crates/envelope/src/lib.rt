// NegTokenInit in its wrapper, and NegTokenResp, read where they stand in the caller's buffer.
#![tactic(auto)]

ghost use Rattle.std.specs.Prelude.{◌≡◌, length, ℕ, Bool, List};
ghost use Rattle.der.specs.Element.{any};
ghost use Rattle.der.specs.Grammar.{only, starts, optional};
ghost use Rattle.der.specs.Holder.{HolderAt, octets_at};
ghost use Rattle.envelope.specs.Reading.{mechanisms_of, tail_of, init_of, begins, resp_of, wrapped_of, envelope_of};
ghost use Rattle.envelope.specs.Answers.{Counts, Lists, Optionals, Tails, Reads, CutsBy, ReadsBy};

use der::{Part, cut_at, cut_at_most, cut_exactly};
use refusal::Refusal;

// A NegTokenInit: the contents of its list of mechanisms, how many these are, and the contents of its other fields, where they are there.
#[derive(Clone, Copy)]
pub struct Init {
    pub list: Part,
    pub count: usize,
    pub flags: Option<Part>,
    pub token: Option<Part>,
    pub checksum: Option<Part>,
}

// A NegTokenResp.
#[derive(Clone, Copy)]
pub struct Resp {
    pub state: Option<Part>,
    pub mechanism: Option<Part>,
    pub token: Option<Part>,
    pub checksum: Option<Part>,
}

#[derive(Clone, Copy)]
pub enum Envelope {
    Init(Init),
    Resp(Resp),
}

// The three fields behind the first.
#[derive(Clone, Copy)]
struct Tail {
    second: Option<Part>,
    token: Option<Part>,
    checksum: Option<Part>,
}

// Whether a holder begins with a tag.
fn starts_at(s: &[u8], holder: Part, tag: u8) -> bool
    requires { HolderAt s.now holder }
    ensures { result ≡ starts tag (octets_at s.now holder) }
{
    holder.from < holder.end && s[holder.from] == tag
}

// A field that may be missing, and the rest of the holder; `cut` takes out the element in the field.
fn optional_at<F: Fn(Part) -> Result<(Part, Part), Refusal>>(
    s: &[u8],
    holder: Part,
    tag: u8,
    cut: F,
) -> Result<(Option<Part>, Part), Refusal>
    requires inside { HolderAt s.now holder }
    requires callable { (field : _) → HolderAt s.now field → F.pre cut field }
    ensures { (u : ℕ) (p : List ℕ → Bool) → CutsBy s.now (F.post cut) u p
        → Optionals s.now holder (optional tag u p (octets_at s.now holder)) result }
{
    if !starts_at(s, holder, tag) {
        return Ok((None, holder));
    }
    let (field, behind) = cut_at(s, holder, tag)?;
    let (contents, rest) = cut(field)?;
    if rest.from != rest.end {
        return Err(Refusal::LeftOver);
    }
    Ok((Some(contents), behind))
}

// How many identifiers a list has: one at the least, sixteen at the most. The seventeenth has to be an element too.
fn identifiers_at(s: &[u8], list: Part) -> Result<usize, Refusal>
    requires { HolderAt s.now list }
    ensures { Counts (octets_at s.now list) result }
{
    if list.from == list.end {
        return Err(Refusal::Element);
    }
    let mut rest = list;
    for count in 0..17 {
        if rest.from == rest.end {
            return Ok(count);
        }
        let (_, behind) = cut_at(s, rest, 0x06)?;
        rest = behind;
    }
    Err(Refusal::Mechanisms)
}

// The list of mechanisms: its contents, how many they are, and the rest of the holder.
fn mechanisms_at(s: &[u8], holder: Part) -> Result<(Part, usize, Part), Refusal>
    requires { HolderAt s.now holder }
    ensures { Lists s.now holder (mechanisms_of (octets_at s.now holder)) result }
{
    let (sequence, behind) = cut_at(s, holder, 0xA0)?;
    let (list, rest) = cut_at(s, sequence, 0x30)?;
    let count = identifiers_at(s, list)?;
    if rest.from != rest.end {
        return Err(Refusal::LeftOver);
    }
    Ok((list, count, behind))
}

// The three fields behind the first; the second has an element with the tag `inner` in it.
fn tail_at(s: &[u8], holder: Part, inner: u8) -> Result<Tail, Refusal>
    requires { HolderAt s.now holder }
    ensures { Tails s.now holder.end (tail_of inner (octets_at s.now holder)) result }
{
    let (second, token_on) = optional_at(s, holder, 0xA1, |field| cut_at(s, field, inner))?;
    let (token, checksum_on) = optional_at(s, token_on, 0xA2, |field| cut_at(s, field, 0x04))?;
    let (checksum, rest) = optional_at(s, checksum_on, 0xA3, |field| cut_at(s, field, 0x04))?;
    if rest.from != rest.end {
        return Err(Refusal::LeftOver);
    }
    Ok(Tail {
        second,
        token,
        checksum,
    })
}

// The contents of an Init's sequence.
fn init_fields(s: &[u8], holder: Part) -> Result<Envelope, Refusal>
    requires { HolderAt s.now holder }
    ensures { Reads s.now holder.end (init_of (octets_at s.now holder)) result }
{
    let (list, count, behind) = mechanisms_at(s, holder)?;
    let tail = tail_at(s, behind, 0x03)?;
    Ok(Envelope::Init(Init {
        list,
        count,
        flags: tail.second,
        token: tail.token,
        checksum: tail.checksum,
    }))
}

// Whether a Resp's sequence may begin so.
fn begins_at(s: &[u8], holder: Part) -> bool
    requires { HolderAt s.now holder }
    ensures { result ≡ begins (octets_at s.now holder) }
{
    let at = holder.from;
    at == holder.end || (0xA0 <= s[at] && s[at] <= 0xA3)
}

// The contents of a Resp's sequence.
fn resp_fields(s: &[u8], holder: Part) -> Result<Envelope, Refusal>
    requires { HolderAt s.now holder }
    ensures { Reads s.now holder.end (resp_of (octets_at s.now holder)) result }
{
    if !begins_at(s, holder) {
        return Err(Refusal::Element);
    }
    let (state, behind) = optional_at(s, holder, 0xA0, |field| cut_at_most(s, field, 0x0A, 3))?;
    let tail = tail_at(s, behind, 0x06)?;
    Ok(Envelope::Resp(Resp {
        state,
        mechanism: tail.second,
        token: tail.token,
        checksum: tail.checksum,
    }))
}

// An element that is alone in its holder, and whose contents `read` reads.
fn only_at<F: Fn(Part) -> Result<Envelope, Refusal>>(
    s: &[u8],
    holder: Part,
    tag: u8,
    read: F,
) -> Result<Envelope, Refusal>
    requires inside { HolderAt s.now holder }
    requires callable { (contents : _) → HolderAt s.now contents → F.pre read contents }
    ensures { (body : List ℕ → _) → ReadsBy s.now (F.post read) body
        → Reads s.now holder.end (only tag any body (octets_at s.now holder)) result }
{
    let (contents, rest) = cut_at(s, holder, tag)?;
    let envelope = read(contents)?;
    if rest.from != rest.end {
        return Err(Refusal::LeftOver);
    }
    Ok(envelope)
}

// An Init's sequence.
fn init_at(s: &[u8], holder: Part) -> Result<Envelope, Refusal>
    requires { HolderAt s.now holder }
    ensures { Reads s.now holder.end (only 0x30 any init_of (octets_at s.now holder)) result }
{
    only_at(s, holder, 0x30, |fields| init_fields(s, fields))
}

// A Resp's sequence.
fn resp_at(s: &[u8], holder: Part) -> Result<Envelope, Refusal>
    requires { HolderAt s.now holder }
    ensures { Reads s.now holder.end (only 0x30 any resp_of (octets_at s.now holder)) result }
{
    only_at(s, holder, 0x30, |fields| resp_fields(s, fields))
}

// The contents of the wrapper: SPNEGO's identifier, then the Init.
fn wrapped_at(s: &[u8], holder: Part) -> Result<Envelope, Refusal>
    requires { HolderAt s.now holder }
    ensures { Reads s.now holder.end (wrapped_of (octets_at s.now holder)) result }
{
    let spnego = [0x2B, 0x06, 0x01, 0x05, 0x05, 0x02];
    let (_, token) = cut_exactly(s, holder, 0x06, &spnego)?;
    only_at(s, token, 0xA0, |sequence| init_at(s, sequence))
}

// The envelope in a buffer.
pub fn read_envelope(s: &[u8]) -> Result<Envelope, Refusal>
    ensures { Reads s.now (length s.now) (envelope_of s.now) result }
{
    if 65535 < s.len() {
        return Err(Refusal::TooLong);
    }
    let whole = Part {
        from: 0,
        end: s.len(),
    };
    if starts_at(s, whole, 0x60) {
        return only_at(s, whole, 0x60, |wrapped| wrapped_at(s, wrapped));
    }
    only_at(s, whole, 0xA1, |sequence| resp_at(s, sequence))
}
