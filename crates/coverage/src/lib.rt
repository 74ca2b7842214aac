// The octets of a message that its vectors cover, and its vectors one by one.
#![tactic(auto, using(crate::proofs::Marks::sweeps, crate::proofs::Marks::layouts))]

ghost use Rattle.std.specs.Prelude.{◌≡◌, ◌≤◌, ◌<◌, max, ◌^◌, length, MatchOption};
ghost use Rattle.vector.specs.Vector.{part as Vector·part};
ghost use Rattle.message.specs.Layout.{nego, alert, head_of, shape_of, header_of, values_of, elements_of, vectors_of, content_of};
ghost use Rattle.coverage.specs.Coverage.{header_in, octets_in};
ghost use Rattle.coverage.specs.Sweep.{Clear, marked, marked_all, sweep};

use message::field::{
    alert_vector, checksum_vector, exchange_vector, extension_vector, octet_vector, scheme_vector,
};
use message::{Kind, Shape, field};
use octets::le_u32;
use vector::Vector;

pub mod vectors;

// How many octets of a message lie in its header, in a vector, and in neither.
#[derive(Clone, Copy)]
pub struct Octets {
    pub headers: u32,
    pub vectors: u32,
    pub bare: u32,
}

// The greater of two numbers.
pub fn greatest(a: u32, b: u32) -> u32
    ensures { result ≡ max a b }
{
    a.max(b)
}

// What a message has of a vector, also where it ends before the vector does.
fn part(m: &[u8], v: Vector) -> &[u8]
    ensures { result.now ≡ Vector·part m.now v }
{
    let from = m.len().min(v.offset.0 as usize);
    let left = m.len() - from;
    let to = from + v.extent().min(left as u64) as usize;
    &m[from..to]
}

// Marks a vector: the map holds, at its start, the farthest end of the vectors that start there.
fn mark(map: &mut [u32], v: Vector)
    requires { length map.old < 2 ^ 32 }
    ensures { map.new ≡ marked map.old v }
{
    let from = v.offset.0 as usize;
    if map.len() <= from {
        return;
    }
    let end = (from as u64 + v.extent()).min(map.len() as u64) as u32;
    map[from] = greatest(map[from], end);
}

// Marks the values of the elements of an array.
fn mark_values(map: &mut [u32], array: &[u8])
    requires { length map.old < 2 ^ 32 }
    ensures { map.new ≡ marked_all map.old (values_of (elements_of array.now)) }
{
    for k in 0..array.len() / field::ELEMENT {
        mark(
            map,
            octet_vector(array, field::ELEMENT * k + field::ELEMENT_VALUE),
        );
    }
}

// Marks the vectors of a NEGO.
fn mark_nego(map: &mut [u32], m: &[u8])
    requires { (length map.old < 2 ^ 32) × (96 ≤ length m.now) }
    ensures { map.new ≡ marked_all map.old (vectors_of (content_of nego m.now)) }
{
    mark(map, scheme_vector(m));
    let array = extension_vector(m);
    mark(map, array);
    mark_values(map, part(m, array));
}

// Marks the vectors of an ALERT.
fn mark_alert(map: &mut [u32], m: &[u8])
    requires { (length map.old < 2 ^ 32) × (72 ≤ length m.now) }
    ensures { map.new ≡ marked_all map.old (vectors_of (content_of alert m.now)) }
{
    let array = alert_vector(m);
    mark(map, array);
    mark_values(map, part(m, array));
}

// Marks the vectors of a message of a kind.
pub fn mark_kind(map: &mut [u32], kind: Kind, m: &[u8])
    requires { (length map.old < 2 ^ 32) × (header_of (shape_of kind.0) ≤ length m.now) }
    ensures { map.new ≡ marked_all map.old (vectors_of (content_of (shape_of kind.0) m.now)) }
{
    match kind.shape() {
        Shape::Nego => mark_nego(map, m),
        Shape::Exchange => mark(map, exchange_vector(m)),
        Shape::Verify => mark(map, checksum_vector(m)),
        Shape::Alert => mark_alert(map, m),
    }
}

// The kind of a message that has its whole header.
fn whole_kind(m: &[u8]) -> Option<Kind>
    ensures { MatchOption result (length m.now < header_in m.now) (λ kind. (kind.0 ≡ (head_of m.now).kind) × (header_in m.now ≤ length m.now)) }
{
    // No header is shorter than 64 octets.
    if m.len() < 64 {
        return None;
    }
    let kind = Kind(le_u32(m, field::TYPE));
    if m.len() < kind.header() as usize {
        return None;
    }
    Some(kind)
}

// How many places lie before the farthest end met so far, which is `start` at first.
fn swept(map: &[u32], start: u32) -> u32
    requires { length map.now < 2 ^ 32 }
    ensures { result ≡ sweep map.now start (length map.now) 0 }
{
    let mut far = start;
    let mut count = 0;
    for at in 0..map.len() {
        far = greatest(far, map[at]);
        count += u32::from(at < far as usize);
    }
    count
}

// Empties the map.
pub fn clear(map: &mut [u32])
    ensures { Clear map.new }
{
    map.fill(0);
}

// The octets of a message of a kind, in a map with a cell for each.
fn count_kind(map: &mut [u32], kind: Kind, m: &[u8]) -> Octets
    requires { (length map.old < 2 ^ 32) × (length map.old ≡ length m.now) × (header_of (shape_of kind.0) ≤ length m.now)
        × (kind.0 ≡ (head_of m.now).kind) }
    ensures { result ≡ octets_in m.now }
{
    clear(map);
    mark_kind(map, kind, m);
    let header = kind.header();
    let held = swept(map, header);
    let vectors = swept(map, 0);
    Octets {
        headers: header,
        vectors,
        bare: (m.len() - held as usize) as u32,
    }
}

// How many octets of a message lie in its header, in a vector, and in neither. The map is room to work in: a cell for each octet, and more.
pub fn count_octets(map: &mut [u32], m: &[u8]) -> Octets
    requires { (length m.now < 2 ^ 32) × (length m.now ≤ length map.old) }
    ensures { result ≡ octets_in m.now }
{
    let Some(kind) = whole_kind(m) else {
        return Octets {
            headers: m.len() as u32,
            vectors: 0,
            bare: 0,
        };
    };
    count_kind(&mut map[..m.len()], kind, m)
}
