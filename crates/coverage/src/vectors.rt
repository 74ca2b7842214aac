// The vectors of a message by number: the header's in order, then the nested ones.
#![tactic(auto, using(crate::proofs::Numbered::numbered))]

ghost use Rattle.std.specs.Prelude.{◌≡◌, ◌≤◌, ◌∷◌, [], length, get_or};
ghost use Rattle.message.specs.Layout.{nego, alert, shape_of, header_of, values_of, elements_of, vectors_of, content_of};
ghost use Rattle.coverage.specs.Coverage.{no_vector, vectors_in, vector_in};

use super::{part, whole_kind};
use message::field::{
    checksum_vector, exchange_vector, extension_vector, octet_vector, scheme_vector,
};
use message::{Kind, Shape, field};
use vector::{MessageOffset, Vector};

// An empty vector, which stands beyond the last.
fn none() -> Vector
    ensures { result ≡ no_vector }
{
    Vector {
        size: 1,
        offset: MessageOffset(0),
        count: 0,
    }
}

// The value of element k of an array.
fn value_of(array: &[u8], k: usize) -> Vector
    ensures { result ≡ get_or (values_of (elements_of array.now)) k no_vector }
{
    if array.len() / field::ELEMENT <= k {
        return none();
    }
    octet_vector(array, field::ELEMENT * k + field::ELEMENT_VALUE)
}

// The one vector of a message that has no other.
fn only(v: Vector, k: usize) -> Vector
    ensures { result ≡ get_or (v ∷ []) k no_vector }
{
    if k == 0 { v } else { none() }
}

// A NEGO's.
fn nego_vector(m: &[u8], k: usize) -> Vector
    requires { 96 ≤ length m.now }
    ensures { result ≡ get_or (vectors_of (content_of nego m.now)) k no_vector }
{
    if k == 0 {
        return scheme_vector(m);
    }
    let array = extension_vector(m);
    if k == 1 {
        return array;
    }
    value_of(part(m, array), k - 2)
}

// An ALERT's.
fn alert_vector(m: &[u8], k: usize) -> Vector
    requires { 72 ≤ length m.now }
    ensures { result ≡ get_or (vectors_of (content_of alert m.now)) k no_vector }
{
    let array = field::alert_vector(m);
    if k == 0 {
        return array;
    }
    value_of(part(m, array), k - 1)
}

// Those of a message of a kind.
fn kind_vector(kind: Kind, m: &[u8], k: usize) -> Vector
    requires { header_of (shape_of kind.0) ≤ length m.now }
    ensures { result ≡ get_or (vectors_of (content_of (shape_of kind.0) m.now)) k no_vector }
{
    match kind.shape() {
        Shape::Nego => nego_vector(m, k),
        Shape::Exchange => only(exchange_vector(m), k),
        Shape::Verify => only(checksum_vector(m), k),
        Shape::Alert => alert_vector(m, k),
    }
}

// How many a message of a kind has.
fn kind_count(kind: Kind, m: &[u8]) -> usize
    requires { header_of (shape_of kind.0) ≤ length m.now }
    ensures { result ≡ length (vectors_of (content_of (shape_of kind.0) m.now)) }
{
    match kind.shape() {
        Shape::Nego => 2 + part(m, extension_vector(m)).len() / field::ELEMENT,
        Shape::Exchange | Shape::Verify => 1,
        Shape::Alert => 1 + part(m, field::alert_vector(m)).len() / field::ELEMENT,
    }
}

// How many vectors a message has; none where it ends before its header does.
pub fn vector_count(m: &[u8]) -> usize
    ensures { result ≡ length (vectors_in m.now) }
{
    let Some(kind) = whole_kind(m) else {
        return 0;
    };
    kind_count(kind, m)
}

// Vector k of a message; an empty one at offset 0 beyond the last: no Option, since that one is promised to callers of the library.
pub fn vector_of(m: &[u8], k: usize) -> Vector
    ensures { result ≡ vector_in m.now k }
{
    let Some(kind) = whole_kind(m) else {
        return none();
    };
    kind_vector(kind, m, k)
}
