// The text of an envelope, appended in a lent slice: each writer is given the place behind what is written already, and answers the next one.
#![tactic(auto)]

ghost use Rattle.std.specs.Prelude.{◌≡◌, ◌∷◌, [], ◌++◌, length};
ghost use Rattle.text.specs.Text.{text, written, quoted};
ghost use Rattle.der.specs.Holder.{octets_at};
ghost use Rattle.envelope.specs.Answers.{shown, mechanisms_in};
ghost use Rattle.envelope_lines.specs.Answers.{TokenAt, InitAt, told_init, RespAt, told_resp};
ghost use Rattle.envelope_lines.specs.Lines.{octets_text, mechanism_line, mechanism_lines, octets_line, named_lines, state_line, token_line, last_lines, head_line, refused_text, text_of, envelope_text, token_in, begun as Lines·begun, wrote_line};

use der::Part;
use envelope::{Envelope, Init, Resp, read_envelope};
use envelope_parts::{is_negoex, mechanism, octets};
use text::{append, field, hex_all, wide_field};

// A field OCTETS.
fn octets_text(d: &mut [u8], at: usize, v: &[u8]) -> usize
    ensures { text d.new result ≡ written (octets_text v.now) (text d.old at) }
{
    if v.is_empty() {
        return append(d, at, b"-");
    }
    hex_all(d, at, v)
}

// A mechanism's line.
fn mechanism_line(d: &mut [u8], at: usize, index: usize, v: &[u8]) -> usize
    ensures { text d.new result ≡ written (mechanism_line index v.now) (text d.old at) }
{
    let index_end = wide_field(d, at, b"mechanism ", index);
    let octets_start = append(d, index_end, b" ");
    let octets_end = octets_text(d, octets_start, v);
    if is_negoex(v) {
        return append(d, octets_end, b" negoex\n");
    }
    append(d, octets_end, b"\n")
}

// The lines of the mechanisms of a list.
fn mechanism_lines(d: &mut [u8], at: usize, s: &[u8], list: Part, count: usize) -> usize
    requires { count ≡ length (mechanisms_in (octets_at s.now list)) }
    ensures { text d.new result ≡ written (mechanism_lines 0 (mechanisms_in (octets_at s.now list)))
        (text d.old at) }
{
    let mut next = at;
    for k in 0..count {
        next = mechanism_line(d, next, k, mechanism(s, list, k));
    }
    next
}

// A line of octets behind a word.
fn octets_line(d: &mut [u8], at: usize, word: &[u8], v: &[u8]) -> usize
    ensures { text d.new result ≡ written (word.now ∷ (octets_text v.now ++ (quoted "\n" ∷ [])))
        (text d.old at) }
{
    let word_end = append(d, at, word);
    let octets_end = octets_text(d, word_end, v);
    append(d, octets_end, b"\n")
}

// A field's line, where it is there.
fn field_line(d: &mut [u8], at: usize, word: &[u8], s: &[u8], f: Option<Part>) -> usize
    ensures { text d.new result ≡ written (octets_line word.now (shown s.now f)) (text d.old at) }
{
    if f.is_none() {
        return at;
    }
    octets_line(d, at, word, octets(s, f))
}

// The line of a Resp's mechanism, where it is there.
fn named_line(d: &mut [u8], at: usize, s: &[u8], mechanism: Option<Part>) -> usize
    ensures { text d.new result ≡ written (named_lines (shown s.now mechanism)) (text d.old at) }
{
    if mechanism.is_none() {
        return at;
    }
    mechanism_line(d, at, 0, octets(s, mechanism))
}

// The line of a state, where it is there.
fn state_line(d: &mut [u8], at: usize, s: &[u8], state: Option<Part>) -> usize
    ensures { text d.new result ≡ written (state_line (shown s.now state)) (text d.old at) }
{
    if state.is_none() {
        return at;
    }
    let first = octets(s, state).first().copied().unwrap_or(0);
    let state_end = field(d, at, b"state ", u32::from(first));
    append(d, state_end, b"\n")
}

// The token's line, where it is there: its place in the buffer and its length.
fn token_line(
    d: &mut [u8],
    at: usize,
    s: &[u8],
    token: Option<Part>,
    checksum: Option<Part>,
) -> usize
    requires { TokenAt s.now token checksum }
    ensures { text d.new result ≡ written (token_line s.now (shown s.now token) (shown s.now checksum))
        (text d.old at) }
{
    let Some(part) = token else {
        return at;
    };
    let place_end = wide_field(d, at, b"token at=", part.from);
    let length_end = wide_field(d, place_end, b" length=", part.end - part.from);
    append(d, length_end, b"\n")
}

// The lines of the token and the checksum.
fn last_lines(
    d: &mut [u8],
    at: usize,
    s: &[u8],
    token: Option<Part>,
    checksum: Option<Part>,
) -> usize
    requires { TokenAt s.now token checksum }
    ensures { text d.new result ≡ written (last_lines s.now (shown s.now token) (shown s.now checksum))
        (text d.old at) }
{
    let token_end = token_line(d, at, s, token, checksum);
    field_line(d, token_end, b"checksum ", s, checksum)
}

// The first line: what the envelope is, and its length.
fn head_line(d: &mut [u8], word: &[u8], s: &[u8]) -> usize
    ensures { text d.new result ≡ written (head_line word.now s.now) (text d.old 0) }
{
    let length_end = wide_field(d, 0, word, s.len());
    append(d, length_end, b"\n")
}

// A refusal's line.
pub fn refused_line(d: &mut [u8], n: u32) -> usize
    ensures { text d.new result ≡ written (refused_text n) (text d.old 0) }
{
    let number_end = field(d, 0, b"refused ", n);
    append(d, number_end, b" at=0\n")
}

fn init_text(d: &mut [u8], s: &[u8], i: Init) -> usize
    requires { InitAt s.now i }
    ensures { text d.new result ≡ written (text_of s.now (told_init s.now i)) (text d.old 0) }
{
    let head_end = head_line(d, b"envelope init length=", s);
    let mechanisms_end = mechanism_lines(d, head_end, s, i.list, i.count);
    let flags_end = field_line(d, mechanisms_end, b"flags ", s, i.flags);
    last_lines(d, flags_end, s, i.token, i.checksum)
}

fn resp_text(d: &mut [u8], s: &[u8], r: Resp) -> usize
    requires { RespAt s.now r }
    ensures { text d.new result ≡ written (text_of s.now (told_resp s.now r)) (text d.old 0) }
{
    let head_end = head_line(d, b"envelope resp length=", s);
    let state_end = state_line(d, head_end, s, r.state);
    let mechanism_end = named_line(d, state_end, s, r.mechanism);
    last_lines(d, mechanism_end, s, r.token, r.checksum)
}

// The text of the envelope in a buffer, from the lent slice's front on.
pub fn envelope_text(d: &mut [u8], s: &[u8]) -> usize
    ensures { text d.new result ≡ written (envelope_text s.now) (text d.old 0) }
{
    match read_envelope(s) {
        Err(e) => refused_line(d, e.number()),
        Ok(Envelope::Init(i)) => init_text(d, s, i),
        Ok(Envelope::Resp(r)) => resp_text(d, s, r),
    }
}

// The token of the envelope in a buffer, nothing where there is none.
pub fn token(s: &[u8]) -> &[u8]
    ensures { result.now ≡ token_in s.now }
{
    match read_envelope(s) {
        Err(_) => &s[..0],
        Ok(Envelope::Init(i)) => octets(s, i.token),
        Ok(Envelope::Resp(r)) => octets(s, r.token),
    }
}

// Whether a token is NEGOEX's, by its signature.
pub fn begun(v: &[u8]) -> bool
    ensures { result ≡ Lines·begun v.now }
{
    v.starts_with(b"NEGOEXTS")
}

// The line of an envelope that was written.
pub fn wrote_line(d: &mut [u8], v: &[u8]) -> usize
    ensures { text d.new result ≡ written (wrote_line v.now) (text d.old 0) }
{
    let length_end = wide_field(d, 0, b"wrote ", v.len());
    octets_line(d, length_end, b" ", v)
}
