// What a viewer shows of a message in numbers, and the table of all messages of a token.
#![tactic(auto)]

ghost use Rattle.std.specs.Prelude.{◌≡◌, ◌+◌, ◌*◌, ◌≤◌, ◌<◌, ◌^◌, ◌∷◌, [], ◌++◌, length};
ghost use Rattle.vector.specs.Vector.{extent};
ghost use Rattle.token.specs.Token.{token_of};
ghost use Rattle.token.specs.Walk.{messages_of, Accepts};
ghost use Rattle.coverage.specs.Coverage.{vectors_in};
ghost use Rattle.put.specs.Put.{Written};
ghost use Rattle.table.specs.Table.{placed_at, fields_in, vector_place, spans_in, entry_of, numbers, table_of, Held};

use coverage::vectors::{vector_count, vector_of};
use message::field;
use messages::Messages;
use octets::le_u32;
use put::put_u32;
use vector::{TokenPlace, Vector, in_token};

// The header's fields of the message m at a place.
pub fn fields(place: TokenPlace, m: &[u8]) -> [u32; 5]
    requires { (place.0 < 2 ^ 32) × (40 ≤ length m.now) }
    ensures { result ≡ fields_in (placed_at place.0 m.now) }
{
    [
        place.0 as u32,
        le_u32(m, field::TYPE),
        le_u32(m, field::SEQUENCE),
        le_u32(m, field::HEADER_LENGTH),
        le_u32(m, field::MESSAGE_LENGTH),
    ]
}

// A vector's length in octets.
pub fn vector_length(v: Vector) -> u64
    ensures { result ≡ extent v }
{
    v.count as u64 * v.size as u64
}

// The token place of a vector of a message at a place; an empty one's is its message's.
pub fn vector_place(place: TokenPlace, v: Vector) -> TokenPlace
    requires { place.0 < 2 ^ 32 }
    ensures { result.0 ≡ vector_place place.0 v }
{
    if vector_length(v) == 0 {
        return place;
    }
    in_token(place, v.offset)
}

// A vector's place and length.
fn put_span(d: &mut [u8], at: usize, place: TokenPlace, v: Vector) -> usize
    requires { (at + 8 ≤ length d.old) × (place.0 < 2 ^ 32) × (vector_place place.0 v < 2 ^ 32) × (extent v < 2 ^ 32) }
    ensures { Written d.old at 8 (numbers (vector_place place.0 v ∷ extent v ∷ [])) d.new result }
{
    let from = vector_place(place, v);
    let length_at = put_u32(d, at, from.0 as u32);
    put_u32(d, length_at, vector_length(v) as u32)
}

// Place and length of each vector of the message m at a place.
fn put_spans(d: &mut [u8], at: usize, place: TokenPlace, m: &[u8]) -> usize
    requires held { Held place.0 m.now }
    requires m_in_bounds { at + 8 * length (vectors_in m.now) ≤ length d.old }
    ensures { Written d.old at (8 * length (vectors_in m.now)) (numbers (spans_in place.0 (vectors_in m.now)))
        d.new result }
{
    let mut next = at;
    for k in 0..vector_count(m) {
        next = put_span(d, next, place, vector_of(m, k));
    }
    next
}

// The fields of the message m at a place, and the number n of its vectors.
fn put_fields(d: &mut [u8], at: usize, place: TokenPlace, m: &[u8], n: u32) -> usize
    requires { (at + 24 ≤ length d.old) × (place.0 < 2 ^ 32) × (40 ≤ length m.now) }
    ensures { Written d.old at 24 (numbers (fields_in (placed_at place.0 m.now) ++ (n ∷ []))) d.new result }
{
    let type_at = put_u32(d, at, place.0 as u32);
    let sequence_at = put_u32(d, type_at, le_u32(m, field::TYPE));
    let header_at = put_u32(d, sequence_at, le_u32(m, field::SEQUENCE));
    let length_at = put_u32(d, header_at, le_u32(m, field::HEADER_LENGTH));
    let vectors_at = put_u32(d, length_at, le_u32(m, field::MESSAGE_LENGTH));
    put_u32(d, vectors_at, n)
}

// All that the table has of the message m at a place.
fn put_entry(d: &mut [u8], at: usize, place: TokenPlace, m: &[u8]) -> usize
    requires held { Held place.0 m.now }
    requires m_in_bounds { at + (24 + 8 * length (vectors_in m.now)) ≤ length d.old }
    ensures { Written d.old at (24 + 8 * length (vectors_in m.now))
        (numbers (entry_of (placed_at place.0 m.now))) d.new result }
{
    let spans_at = put_fields(d, at, place, m, vector_count(m) as u32);
    put_spans(d, spans_at, place, m)
}

// How many octets the table of an accepted token has.
pub fn table_size(token: &[u8]) -> usize
    requires { Accepts token.now }
    ensures { result ≡ length (table_of (messages_of (token_of token.now))) }
{
    let mut size: usize = 0;
    for (_, m) in Messages::of(token) {
        size += 24 + 8 * vector_count(m);
    }
    size
}

// The table of an accepted token, at the buffer's front.
pub fn put_table(d: &mut [u8], token: &[u8]) -> usize
    requires accepts { Accepts token.now }
    requires token_in_bounds { length (table_of (messages_of (token_of token.now))) ≤ length d.old }
    ensures { Written d.old 0 (length (table_of (messages_of (token_of token.now))))
        (table_of (messages_of (token_of token.now))) d.new result }
{
    let mut next: usize = 0;
    for (place, m) in Messages::of(token) {
        next = put_entry(d, next, place, m);
    }
    next
}
