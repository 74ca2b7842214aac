// Octets, ids and random values in hexadecimal.
ghost use Rattle.std.specs.Prelude.{◌≡◌, ◌+◌, ◌<◌, get_or};
ghost use Rattle.fields.specs.Fields.{below, pair_of, pairs_of, octets_of, random_of, Decodes, octets_at, dashed, id_of, id_as};

use super::number::digit;
use super::octet;

// The octet that two digits stand for.
#[tactic(auto, using(crate::proofs::Numerals::digit_most), unfolding(crate::specs::Fields::pair_of))]
fn pair(a: u8, b: u8) -> Option<u8>
    ensures { result ≡ below 256 (pair_of a b) }
{
    let high = digit(a)?;
    let low = digit(b)?;
    Some(16 * high + low)
}

// The octet whose two digits stand from a place on.
fn pair_at(s: &[u8], at: usize) -> Option<u8>
    requires { at < 9223372036854775808 }
    ensures { result ≡ below 256 (pair_of (get_or s.now at 0) (get_or s.now (at + 1) 0)) }
{
    pair(octet(s, at), octet(s, at + 1))
}

// Two digits for each octet, in order.
fn decode(s: &[u8], d: &mut [u8]) -> Option<usize>
    ensures { Decodes s.now d.old (pairs_of s.now) result d.new }
{
    let count = s.len() / 2;
    if d.len() < count {
        return None;
    }
    for i in 0..count {
        d[i] = pair_at(s, 2 * i)?;
    }
    if s.len() % 2 == 1 {
        return None;
    }
    Some(count)
}

// How many octets OCTETS puts at the front of d. What d holds there is left open where they are bad; behind them it stays as it was.
#[tactic(auto, using(octets::proofs::Same::compared), unfolding(crate::specs::Fields::octets_of))]
pub fn octets(s: &[u8], d: &mut [u8]) -> Option<usize>
    ensures { Decodes s.now d.old (octets_of s.now) result d.new }
{
    if s.is_empty() {
        return None;
    }
    if s == b"-".as_slice() {
        return Some(0);
    }
    decode(s, d)
}

// Whether the dashes of an id's text stand where they should.
fn has_dashes(s: &[u8]) -> bool
    ensures { result ≡ dashed s.now }
{
    octet(s, 8) == b'-' && octet(s, 13) == b'-' && octet(s, 18) == b'-' && octet(s, 23) == b'-'
}

// The octets whose digits stand at 16 places.
fn octets_at(s: &[u8], places: &[u8; 16]) -> Option<[u8; 16]>
    ensures { id_as result ≡ octets_at s.now places.now }
{
    let mut octets = [0u8; 16];
    for (i, at) in places.iter().enumerate() {
        octets[i] = pair_at(s, *at as usize)?;
    }
    Some(octets)
}

// The id whose usual text is s.
#[tactic(auto, unfolding(crate::specs::Fields::id_of))]
pub fn id(s: &[u8]) -> Option<[u8; 16]>
    ensures { id_as result ≡ id_of s.now }
{
    if s.len() != 36 || !has_dashes(s) {
        return None;
    }
    let places = b"\x06\x04\x02\x00\x0B\x09\x10\x0E\x13\x15\x18\x1A\x1C\x1E\x20\x22";
    octets_at(s, places)
}

// RANDOM, at the front of d, likewise.
#[tactic(auto, unfolding(crate::specs::Fields::random_of))]
pub fn random(s: &[u8], d: &mut [u8]) -> Option<usize>
    ensures { Decodes s.now d.old (random_of s.now) result d.new }
{
    if s.len() != 64 {
        return None;
    }
    decode(s, d)
}
