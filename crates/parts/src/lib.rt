// The readers of a message's contents: vectors, as parts of the octets that the caller lends, and signed numbers. Each takes any slice; where it has no room
// for the header, or the vector breaks its rule, there is nothing to show, and a number is 0.
#![tactic(auto, using(crate::proofs::Shows::shows), unfolding(message::specs::Show::id_at, message::specs::Show::nested_of, message::specs::Show::signed_in, message::specs::Show::extension_type))]

ghost use Rattle.std.specs.Prelude.{◌≡◌, ◌+◌, ◌≤◌};
ghost use Rattle.vector.specs.Vector.{shown};
ghost use Rattle.message.specs.Layout.{scheme_vector, extension_vector, exchange_vector, checksum_vector, alert_vector};
ghost use Rattle.message.specs.Show.{id_at, nested_of, signed_in, extension_type, checksum_type, error_code};

use message::field::{
    alert_vector, checksum_vector, exchange_vector, extension_vector, octet_vector, scheme_vector,
};
use message::{Kind, field};
use octets::le_i32;
use vector::{Vector, vector_octets};

// Where the scheme of a message that is no NEGO ends.
const SCHEME_END: usize = field::SCHEME + field::ID;

// The scheme of a message that is no NEGO, as a part of the message.
pub fn scheme(m: &[u8]) -> &[u8]
    ensures { result.now ≡ id_at m.now 40 }
{
    if m.len() < SCHEME_END {
        return &m[..0];
    }
    &m[field::SCHEME..SCHEME_END]
}

// This reader and those below are alike but for a header and a vector: one function over both would have to say in its contract what a closure computes, and
// would leave each of them a call as long as its body.

// The scheme vector's octets, 16 a scheme.
pub fn schemes(m: &[u8]) -> &[u8]
    ensures { result.now ≡ shown 96 m.now (scheme_vector m.now) }
{
    if m.len() < Kind::NEGO_HEADER_LEN {
        return &m[..0];
    }
    vector_octets(Kind::NEGO_HEADER, m, scheme_vector(m))
}

// The extension vector's octets, 12 an extension.
pub fn extensions(m: &[u8]) -> &[u8]
    ensures { result.now ≡ shown 96 m.now (extension_vector m.now) }
{
    if m.len() < Kind::NEGO_HEADER_LEN {
        return &m[..0];
    }
    vector_octets(Kind::NEGO_HEADER, m, extension_vector(m))
}

// The exchange's octets.
pub fn exchange(m: &[u8]) -> &[u8]
    ensures { result.now ≡ shown 64 m.now (exchange_vector m.now) }
{
    if m.len() < Kind::EXCHANGE_HEADER_LEN {
        return &m[..0];
    }
    vector_octets(Kind::EXCHANGE_HEADER, m, exchange_vector(m))
}

// The checksum value's octets.
pub fn checksum(m: &[u8]) -> &[u8]
    ensures { result.now ≡ shown 80 m.now (checksum_vector m.now) }
{
    if m.len() < Kind::VERIFY_HEADER_LEN {
        return &m[..0];
    }
    vector_octets(Kind::VERIFY_HEADER, m, checksum_vector(m))
}

// The alert vector's octets, 12 an alert.
pub fn alerts(m: &[u8]) -> &[u8]
    ensures { result.now ≡ shown 72 m.now (alert_vector m.now) }
{
    if m.len() < Kind::ALERT_HEADER_LEN {
        return &m[..0];
    }
    vector_octets(Kind::ALERT_HEADER, m, alert_vector(m))
}

// The value of element k of an array of m, as a part of m; nothing beyond the array.
fn value(header: u32, m: &[u8], array: Vector, k: u32) -> &[u8]
    ensures { result.now ≡ nested_of header m.now array k }
{
    let elements = vector_octets(header, m, array);
    let at = field::ELEMENT * k as usize;
    if elements.len() < at + field::ELEMENT {
        return &m[..0];
    }
    vector_octets(header, m, octet_vector(elements, at + field::ELEMENT_VALUE))
}

// The value of extension k.
pub fn extension_value(m: &[u8], k: u32) -> &[u8]
    ensures { result.now ≡ nested_of 96 m.now (extension_vector m.now) k }
{
    if m.len() < Kind::NEGO_HEADER_LEN {
        return &m[..0];
    }
    value(Kind::NEGO_HEADER, m, extension_vector(m), k)
}

// The value of alert k.
pub fn alert_value(m: &[u8], k: u32) -> &[u8]
    ensures { result.now ≡ nested_of 72 m.now (alert_vector m.now) k }
{
    if m.len() < Kind::ALERT_HEADER_LEN {
        return &m[..0];
    }
    value(Kind::ALERT_HEADER, m, alert_vector(m), k)
}

// The signed number at an offset of m; 0 where m has fewer than `least` octets.
fn signed_in(least: usize, m: &[u8], at: usize) -> i32
    requires { at + 4 ≤ least }
    ensures { result ≡ signed_in least m.now at }
{
    if m.len() < least {
        return 0;
    }
    le_i32(m, at)
}

// The type of extension k; 0 beyond the array.
pub fn extension_type(m: &[u8], k: u32) -> i32
    ensures { result ≡ extension_type m.now k }
{
    let elements = extensions(m);
    let at = field::ELEMENT * k as usize;
    signed_in(at + field::ELEMENT, elements, at)
}

// The type of a VERIFY's checksum.
pub fn checksum_type(m: &[u8]) -> i32
    ensures { result ≡ checksum_type m.now }
{
    signed_in(Kind::VERIFY_HEADER_LEN, m, field::CHECKSUM_TYPE)
}

// An ALERT's error code.
pub fn error_code(m: &[u8]) -> i32
    ensures { result ≡ error_code m.now }
{
    signed_in(Kind::ALERT_HEADER_LEN, m, field::ERROR_CODE)
}
