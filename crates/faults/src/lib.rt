// The octets at fault of a refused token: the field whose test fails first.
#![tactic(auto)]

ghost use Rattle.std.specs.Prelude.{◌≡◌, ◌+◌, ◌≤◌, ◌<◌, length, take, drop, MatchOption};
ghost use Rattle.std.specs.Option.{unwrap_or};
ghost use Rattle.refusal.specs.Refusals.{number_of};
ghost use Rattle.message.specs.Layout.{nego, alert, elements_of, shape_of, header_of};
ghost use Rattle.token.specs.Token.{token_of};
ghost use Rattle.token.specs.Walk.{messages_of};
ghost use Rattle.coverage.specs.Coverage.{header_in, vectors_in};
ghost use Rattle.entries.specs.Lookup.{no_entry};
ghost use Rattle.faults.specs.Faults.{spot, no_spot, broken_in, vector_spot, broken_spot, first_critical, critical_spot, checksum_spot, spot_of, rest_entry, fault_entry, fault_at, fault_of};

use coverage::vectors::{vector_count, vector_of};
use entries::lookup::field_entry;
use entries::{Entry, name};
use message::field::{alert_vector, extension_vector};
use message::verify::CHECKSUM_HEADER;
use message::walk::first;
use message::{Kind, Shape, field};
use octets::{is_negative, le_u32};
use parts::extensions;
use refusal::Refusal;
use token::{Refused, read_token};
use vector::{MessageOffset, TokenPlace, keeps_rule};

// A field of a message: what it is, its number in its list, where it stands, and its size.
#[derive(Clone, Copy)]
pub struct Spot {
    pub what: u32,
    pub number: u32,
    pub at: usize,
    pub size: u32,
}

// What an entry is of that stands for octets and no field.
pub const REST: u32 = 31;

// A field that stands in no list.
fn single(what: u32, at: usize, size: u32) -> Spot
    ensures { result ≡ spot what 0 at size }
{
    Spot {
        what,
        number: 0,
        at,
        size,
    }
}

// The number of the first vector that breaks its rule.
fn broken_vector(m: &[u8]) -> Option<usize>
    requires { header_in m.now ≤ length m.now }
    ensures { MatchOption result (length (vectors_in m.now) ≤ broken_in m.now)
        (λ k. (k ≡ broken_in m.now) × (k < length (vectors_in m.now))) }
{
    let header = Kind(le_u32(m, field::TYPE)).header();
    for k in 0..vector_count(m) {
        if !keeps_rule(header, m.len(), vector_of(m, k)) {
            return Some(k);
        }
    }
    None
}

// Where the offset and size of vector k of a NEGO stand.
fn nego_spot(m: &[u8], k: usize) -> Spot
    requires { (96 ≤ length m.now) × (k < 65536) }
    ensures { result ≡ vector_spot nego m.now k }
{
    match k {
        0 => single(name::SCHEME_VECTOR, field::SCHEMES, 6),
        1 => single(name::EXTENSION_VECTOR, field::EXTENSIONS, 6),
        _ => Spot {
            what: name::EXTENSION_VALUE_VECTOR,
            number: (k - 2) as u32,
            at: extension_vector(m).offset.0 as usize
                + field::ELEMENT * (k - 2)
                + field::ELEMENT_VALUE,
            size: 8,
        },
    }
}

// Of an ALERT.
fn alert_spot(m: &[u8], k: usize) -> Spot
    requires { (72 ≤ length m.now) × (k < 65536) }
    ensures { result ≡ vector_spot alert m.now k }
{
    if k == 0 {
        return single(name::ALERT_VECTOR, field::ALERTS, 6);
    }
    let array = alert_vector(m);
    Spot {
        what: name::ALERT_VALUE_VECTOR,
        number: (k - 1) as u32,
        at: array.offset.0 as usize + field::ELEMENT * (k - 1) + field::ELEMENT_VALUE,
        size: 8,
    }
}

// Of a message of a kind.
fn vector_spot(kind: Kind, m: &[u8], k: usize) -> Spot
    requires { (header_of (shape_of kind.0) ≤ length m.now) × (k < 65536) }
    ensures { result ≡ vector_spot (shape_of kind.0) m.now k }
{
    match kind.shape() {
        Shape::Nego => nego_spot(m, k),
        Shape::Exchange => single(name::EXCHANGE_VECTOR, field::EXCHANGE, 8),
        Shape::Verify => single(name::CHECKSUM_VECTOR, field::CHECKSUM_VALUE, 8),
        Shape::Alert => alert_spot(m, k),
    }
}

// Where the offset and size of the first vector stand that breaks its rule.
fn broken_spot(m: &[u8]) -> Option<Spot>
    requires { length m.now ≤ 65535 }
    ensures { unwrap_or result no_spot ≡ broken_spot m.now }
{
    if vector_count(m) == 0 {
        return None;
    }
    let broken = broken_vector(m)?;
    Some(vector_spot(Kind(le_u32(m, field::TYPE)), m, broken))
}

// The number of the first critical element of an array; that of all of them where none is, since that is what a critical spot's place is counted from.
fn critical_element(array: &[u8]) -> usize
    ensures { result ≡ first_critical (elements_of array.now) 0 }
{
    let count = array.len() / field::ELEMENT;
    for k in 0..count {
        if is_negative(array, field::ELEMENT * k) {
            return k;
        }
    }
    count
}

// Where the type of the first critical extension stands.
fn critical_spot(m: &[u8]) -> Option<Spot>
    requires { length m.now ≤ 65535 }
    ensures { unwrap_or result no_spot ≡ critical_spot m.now }
{
    if m.len() < Kind::NEGO_HEADER_LEN {
        return None;
    }
    let critical = critical_element(extensions(m));
    let array = extension_vector(m);
    Some(Spot {
        what: name::EXTENSION_TYPE,
        number: critical as u32,
        at: array.offset.0 as usize + field::ELEMENT * critical,
        size: 4,
    })
}

// Of a VERIFY's checksum header length and scheme, the first that is another than it has to be.
fn checksum_spot(m: &[u8]) -> Option<Spot>
    ensures { unwrap_or result no_spot ≡ checksum_spot m.now }
{
    if m.len() < Kind::VERIFY_HEADER_LEN {
        return None;
    }
    if le_u32(m, field::CHECKSUM_HEADER_LENGTH) == CHECKSUM_HEADER {
        return Some(single(name::CHECKSUM_SCHEME, field::CHECKSUM_SCHEME, 4));
    }
    Some(single(name::CHECKSUM_HEADER, field::CHECKSUM_HEADER_LENGTH, 4))
}

// The field at fault of the message m, by what refuses it.
fn spot_of(refusal: Refusal, m: &[u8]) -> Option<Spot>
    requires { length m.now ≤ 65535 }
    ensures { unwrap_or result no_spot ≡ spot_of (number_of refusal) m.now }
{
    match refusal {
        Refusal::Signature => Some(single(name::SIGNATURE, field::SIGNATURE, 8)),
        Refusal::Type => Some(single(name::TYPE, field::TYPE, 4)),
        Refusal::HeaderLength => Some(single(name::HEADER_LENGTH, field::HEADER_LENGTH, 4)),
        Refusal::MessageLength => Some(single(name::MESSAGE_LENGTH, field::MESSAGE_LENGTH, 4)),
        Refusal::Sequence => Some(single(name::SEQUENCE, field::SEQUENCE, 4)),
        Refusal::Conversation => Some(single(name::CONVERSATION, field::CONVERSATION, 16)),
        Refusal::Version => Some(single(name::VERSION, field::VERSION, 8)),
        Refusal::Vector => broken_spot(m),
        Refusal::CriticalExtension => critical_spot(m),
        Refusal::Checksum => checksum_spot(m),
        _ => None,
    }
}

// Octets and no field.
fn rest_entry(place: u32, message: u32, length: u32) -> Entry
    ensures { result ≡ rest_entry place message length }
{
    Entry {
        what: REST,
        message,
        number: 0,
        value: 0,
        place,
        length,
    }
}

// No fault.
fn no_entry() -> Entry
    ensures { result ≡ no_entry }
{
    Entry {
        what: 0,
        message: 0,
        number: 0,
        value: 0,
        place: 0,
        length: 0,
    }
}

// The entry of a field of what is left of a token, where the field lies inside.
fn fault_entry(place: TokenPlace, message: u32, rest: &[u8], x: Spot) -> Option<Entry>
    requires { place.0 + length rest.now ≤ 65535 }
    ensures { unwrap_or result no_entry ≡ fault_entry place.0 message rest.now x }
{
    let size = x.size as usize;
    if rest.len() < size || rest.len() - size < x.at || size < 2 {
        return None;
    }
    let at = MessageOffset(x.at as u32);
    Some(field_entry(place, message, rest, x.what, x.number, at, x.size))
}

// How many messages stand before a place.
fn count_before(token: &[u8], place: usize) -> u32
    requires { place ≤ length token.now }
    ensures { result ≡ length (messages_of (token_of (take place token.now))) }
{
    read_token(&token[..place]).unwrap_or(0)
}

// The fault of a token that is refused.
fn fault_at(token: &[u8], refused: Refused) -> Option<Entry>
    requires { (refused.place.0 ≤ length token.now) × (length token.now ≤ 65535) }
    ensures { unwrap_or result no_entry ≡ fault_at refused.place.0
        (length (messages_of (token_of (take refused.place.0 token.now)))) (drop refused.place.0 token.now)
        (number_of refused.refusal) }
{
    let from = refused.place.0;
    let message = count_before(token, from);
    let rest = &token[from..];
    match refused.refusal {
        Refusal::TooShort => Some(rest_entry(from as u32, message, rest.len() as u32)),
        refusal => fault_entry(refused.place, message, rest, spot_of(refusal, first(rest))?),
    }
}

// The octets at fault of a refused token; of one that is too long the first octet too many, and of an accepted one nothing.
pub fn fault(token: &[u8]) -> Entry
    ensures { result ≡ fault_of token.now }
{
    if 65535 < token.len() {
        return rest_entry(65535, 0, 1);
    }
    match read_token(token) {
        Ok(_) => no_entry(),
        Err(refused) => fault_at(token, refused).unwrap_or(no_entry()),
    }
}
