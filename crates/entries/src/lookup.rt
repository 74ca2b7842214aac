// The entries of one message, by number.
ghost use Rattle.std.specs.Prelude.{◌≡◌, ◌+◌, ◌-◌, ◌*◌, ◌≤◌, ◌<◌, ◌^◌, length, get_or};
ghost use Rattle.message.specs.Layout.{head_of, shape_of, header_of};
ghost use Rattle.coverage.specs.Coverage.{vectors_in, no_vector};
ghost use Rattle.table.specs.Table.{Held};
ghost use Rattle.entries.specs.Entries.{fields_of, number_at, field_entry, message_entry, header_entry, vector_what, vector_number, vector_entry, ids_vector, array_vector, type_what, value_what, elements_in, lists_in, body_in, entries_in};
ghost use Rattle.entries.specs.Lookup.{table_entry, Row, Holds, Counted, no_entry, count_in};

use super::{Entry, name};
use coverage::vectors::{vector_count, vector_of};
use message::field::{alert_vector, extension_vector, scheme_vector};
use message::{Kind, Shape, field};
use octets::{le_u16, le_u32};
use table::{vector_length, vector_place};
use vector::{MessageOffset, TokenPlace, Vector, in_token};

// The number in a field.
fn number_at(m: &[u8], at: usize, size: u32) -> u32
    requires { (at + size ≤ length m.now) × (2 ≤ size) }
    ensures { result ≡ number_at size m.now at }
{
    if size < 4 {
        return le_u16(m, at) as u32;
    }
    le_u32(m, at)
}

// The entry of a field, the number `number` in its list.
pub fn field_entry(
    place: TokenPlace,
    message: u32,
    m: &[u8],
    what: u32,
    number: u32,
    at: MessageOffset,
    size: u32,
) -> Entry
    requires { (place.0 + length m.now < 2 ^ 32) × (at.0 + size ≤ length m.now) × (2 ≤ size) }
    ensures { result ≡ field_entry place.0 message m.now what number at.0 size }
{
    let from = in_token(place, at);
    Entry {
        what,
        message,
        number,
        value: number_at(m, at.0 as usize, size),
        place: from.0 as u32,
        length: size,
    }
}

// The entry of field k of a header, by its layout's table.
fn table_entry(table: &[u8], place: TokenPlace, message: u32, m: &[u8], k: usize) -> Entry
    requires { (place.0 + length m.now < 2 ^ 32) × Row table.now m.now k }
    ensures { result ≡ table_entry place.0 message m.now table.now k }
{
    let row = 3 * k;
    let what = table[row] as u32;
    let at = table[row + 1] as u32;
    let size = table[row + 2] as u32;
    field_entry(place, message, m, what, 0, MessageOffset(at), size)
}

// How many fields a kind's header has.
fn field_count(kind: Kind) -> usize
    ensures { result ≡ length (fields_of (shape_of kind.0)) }
{
    match kind.shape() {
        Shape::Nego | Shape::Verify => 12,
        Shape::Exchange => 8,
        Shape::Alert => 11,
    }
}

// The entry of field k of a header. The tables have a row of three numbers a field: what it is, where it stands, its size.
fn header_entry(kind: Kind, place: TokenPlace, message: u32, m: &[u8], k: usize) -> Entry
    requires { Holds place.0 m.now kind.0 × (k < length (fields_of (shape_of kind.0))) }
    ensures { result ≡ header_entry place.0 message m.now (shape_of kind.0) k }
{
    let nego =
        b"\x01\x00\x08\x02\x08\x04\x03\x0C\x04\x04\x10\x04\x05\x14\x04\x06\x18\x10\x07\x28\x20\x08\x48\x08\x09\x50\x06\x13\x56\x02\x0A\x58\x06\x13\x5E\x02";
    let exchange =
        b"\x01\x00\x08\x02\x08\x04\x03\x0C\x04\x04\x10\x04\x05\x14\x04\x06\x18\x10\x0B\x28\x10\x0C\x38\x08";
    let verify =
        b"\x01\x00\x08\x02\x08\x04\x03\x0C\x04\x04\x10\x04\x05\x14\x04\x06\x18\x10\x0B\x28\x10\x0D\x38\x04\x0E\x3C\x04\x0F\x40\x04\x10\x44\x08\x13\x4C\x04";
    let alert =
        b"\x01\x00\x08\x02\x08\x04\x03\x0C\x04\x04\x10\x04\x05\x14\x04\x06\x18\x10\x0B\x28\x10\x11\x38\x04\x12\x3C\x06\x13\x42\x02\x13\x44\x04";
    match kind.shape() {
        Shape::Nego => table_entry(nego, place, message, m, k),
        Shape::Exchange => table_entry(exchange, place, message, m, k),
        Shape::Verify => table_entry(verify, place, message, m, k),
        Shape::Alert => table_entry(alert, place, message, m, k),
    }
}

// What vector k of a message of a kind points at.
fn vector_what(kind: Kind, k: usize) -> u32
    ensures { result ≡ vector_what (shape_of kind.0) k }
{
    match (kind.shape(), k) {
        (Shape::Nego, 0) => name::SCHEMES,
        (Shape::Nego, 1) => name::EXTENSIONS,
        (Shape::Nego, _) => name::EXTENSION_VALUE,
        (Shape::Exchange, _) => name::EXCHANGE,
        (Shape::Verify, _) => name::CHECKSUM_VALUE,
        (Shape::Alert, 0) => name::ALERTS,
        (Shape::Alert, _) => name::ALERT_VALUE,
    }
}

// The number of vector k in its list.
fn vector_number(kind: Kind, k: usize) -> usize
    ensures { result ≡ vector_number (shape_of kind.0) k }
{
    match kind.shape() {
        Shape::Nego => k.saturating_sub(2),
        Shape::Exchange | Shape::Verify => 0,
        Shape::Alert => k.saturating_sub(1),
    }
}

// The entry of the octets that vector k points at.
fn vector_entry(kind: Kind, place: TokenPlace, message: u32, m: &[u8], k: usize) -> Entry
    requires { Holds place.0 m.now kind.0 × (k < length (vectors_in m.now)) }
    ensures { result ≡ vector_entry place.0 message m.now (shape_of kind.0) k }
{
    let vector = vector_of(m, k);
    let from = vector_place(place, vector);
    Entry {
        what: vector_what(kind, k),
        message,
        number: vector_number(kind, k) as u32,
        value: vector.offset.0,
        place: from.0 as u32,
        length: vector_length(vector) as u32,
    }
}

// No elements.
fn no_vector() -> Vector
    ensures { result ≡ no_vector }
{
    Vector {
        size: 1,
        offset: MessageOffset(0),
        count: 0,
    }
}

// The vector of a list of schemes.
fn ids_vector(kind: Kind, m: &[u8]) -> Vector
    requires { header_of (shape_of kind.0) ≤ length m.now }
    ensures { result ≡ ids_vector (shape_of kind.0) m.now }
{
    match kind.shape() {
        Shape::Nego => scheme_vector(m),
        _ => no_vector(),
    }
}

// The vector of extensions or alerts.
fn array_vector(kind: Kind, m: &[u8]) -> Vector
    requires { header_of (shape_of kind.0) ≤ length m.now }
    ensures { result ≡ array_vector (shape_of kind.0) m.now }
{
    match kind.shape() {
        Shape::Nego => extension_vector(m),
        Shape::Exchange | Shape::Verify => no_vector(),
        Shape::Alert => alert_vector(m),
    }
}

// What the type of an element is.
fn type_what(kind: Kind) -> u32
    ensures { result ≡ type_what (shape_of kind.0) }
{
    match kind.shape() {
        Shape::Nego => name::EXTENSION_TYPE,
        Shape::Exchange | Shape::Verify => 0,
        Shape::Alert => name::ALERT_TYPE,
    }
}

// What the vector of an element's value is.
fn value_what(kind: Kind) -> u32
    ensures { result ≡ value_what (shape_of kind.0) }
{
    match kind.shape() {
        Shape::Nego => name::EXTENSION_VALUE_VECTOR,
        Shape::Exchange | Shape::Verify => 0,
        Shape::Alert => name::ALERT_VALUE_VECTOR,
    }
}

// Entry k of those of a message's extensions or alerts.
fn element_entry(kind: Kind, place: TokenPlace, message: u32, m: &[u8], k: usize) -> Entry
    requires { Holds place.0 m.now kind.0 × (k < length (elements_in place.0 message m.now (shape_of kind.0))) }
    ensures { result ≡ get_or (elements_in place.0 message m.now (shape_of kind.0)) k no_entry }
{
    let array = array_vector(kind, m);
    let count = array.count as usize;
    if k < count {
        let at = MessageOffset(array.offset.0 + 12 * k as u32);
        return field_entry(place, message, m, type_what(kind), k as u32, at, 4);
    }
    let element = (k - count) as u32;
    let at = MessageOffset(array.offset.0 + 12 * element + 4);
    field_entry(place, message, m, value_what(kind), element, at, 8)
}

// Entry k of those of a message's schemes, and of what follows them.
fn list_entry(kind: Kind, place: TokenPlace, message: u32, m: &[u8], k: usize) -> Entry
    requires { Holds place.0 m.now kind.0 × (k < length (lists_in place.0 message m.now (shape_of kind.0))) }
    ensures { result ≡ get_or (lists_in place.0 message m.now (shape_of kind.0)) k no_entry }
{
    let ids = ids_vector(kind, m);
    let count = ids.count as usize;
    if k < count {
        let at = MessageOffset(ids.offset.0 + 16 * k as u32);
        return field_entry(place, message, m, name::SCHEME, k as u32, at, 16);
    }
    element_entry(kind, place, message, m, k - count)
}

// Entry k of those of a message's vectors, which are `count`, and of what follows them.
fn body_entry(
    kind: Kind,
    count: usize,
    place: TokenPlace,
    message: u32,
    m: &[u8],
    k: usize,
) -> Entry
    requires { Holds place.0 m.now kind.0 × (count ≡ length (vectors_in m.now))
        × (k < length (body_in place.0 message m.now (shape_of kind.0))) }
    ensures { result ≡ get_or (body_in place.0 message m.now (shape_of kind.0)) k no_entry }
{
    if k < count {
        return vector_entry(kind, place, message, m, k);
    }
    list_entry(kind, place, message, m, k - count)
}

// What each entry of a message is found by: its kind, and how many fields and vectors it has.
#[derive(Clone, Copy)]
pub struct Counts {
    pub kind: Kind,
    pub fields: usize,
    pub vectors: usize,
}

// Those of a message: they are counted once, and not for each of its entries.
pub(crate) fn counts_of(m: &[u8]) -> Counts
    requires { Held 0 m.now }
    ensures { Counted result m.now }
{
    let kind = Kind(le_u32(m, field::TYPE));
    Counts {
        kind,
        fields: field_count(kind),
        vectors: vector_count(m),
    }
}

// Entry k of a message.
pub(crate) fn entry_of(counts: Counts, place: TokenPlace, message: u32, m: &[u8], k: usize) -> Entry
    requires { Held place.0 m.now × (k < length (entries_in place.0 message m.now)) × Counted counts m.now }
    ensures { result ≡ get_or (entries_in place.0 message m.now) k no_entry }
{
    let kind = counts.kind;
    if k == 0 {
        return Entry {
            what: name::MESSAGE,
            message,
            number: 0,
            value: kind.0,
            place: place.0 as u32,
            length: m.len() as u32,
        };
    }
    let count = counts.fields;
    if k - 1 < count {
        return header_entry(kind, place, message, m, k - 1);
    }
    body_entry(kind, counts.vectors, place, message, m, k - 1 - count)
}

// How many entries a message has, once its fields and vectors are counted.
pub(crate) fn sum_of(counts: Counts, m: &[u8]) -> usize
    requires { Held 0 m.now × Counted counts m.now }
    ensures { result ≡ count_in m.now }
{
    let ids = ids_vector(counts.kind, m);
    let array = array_vector(counts.kind, m);
    1 + counts.fields + counts.vectors + ids.count as usize + 2 * array.count as usize
}

// How many entries a message has.
pub(crate) fn entry_count(m: &[u8]) -> usize
    requires { Held 0 m.now }
    ensures { result ≡ count_in m.now }
{
    sum_of(counts_of(m), m)
}
