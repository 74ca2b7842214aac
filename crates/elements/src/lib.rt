// Extensions and alerts, as a caller hands them over and as they are written: an array of elements, and their values behind it.
#![tactic(auto)]

ghost use Rattle.std.specs.Prelude.{◌≡◌, true, ◌+◌, ◌*◌, ◌≤◌, ◌<◌, length};
ghost use Rattle.octets.specs.Octets.{signed32, negative};
ghost use Rattle.put.specs.Put.{Written, joined};
ghost use Rattle.elements.specs.Elements.{offset_of, element_fields, array_from, sum_from, item_octets, items_of, elements_fit, handed_size, types_ordinary, no_elements, pulse_elements, pulse_value};

use message::field;
use octets::to_i32;
use put::{put_octets, put_u32};
use vector::MessageOffset;

// How many there are, their types as 32-bit numbers, and the sizes of their values. The values come joined, in a slice of their own. Hosts build it: the shape
// of the library's interface, two arrays with one count in fixed memory.
#[derive(Clone, Copy)]
pub struct Elements {
    pub count: usize,
    pub types: [u32; 8],
    pub sizes: [u32; 8],
}

impl Elements {
    // The most that a message is written with, and the most octets of one's value.
    pub const MOST: usize = 8;

    pub const VALUE_MOST: u32 = 4096;

    // A pulse's type, and its value's length and reason.
    pub const PULSE_TYPE: u32 = 1;

    pub const PULSE_LENGTH: u32 = 8;

    pub const PULSE_REASON: u32 = 1;

    // None.
    pub fn none() -> Elements
        ensures { result ≡ no_elements }
    {
        Elements {
            count: 0,
            types: [0u32; 8],
            sizes: [0u32; 8],
        }
    }

    // The pulse, one alert. Its value is lent beside it: `pulse_value`.
    pub fn pulse() -> Elements
        ensures { result ≡ pulse_elements }
    {
        let types = [Elements::PULSE_TYPE, 0, 0, 0, 0, 0, 0, 0];
        let sizes = [Elements::PULSE_LENGTH, 0, 0, 0, 0, 0, 0, 0];
        Elements {
            count: 1,
            types,
            sizes,
        }
    }

    // A pulse's value.
    pub fn pulse_value() -> [u8; 8]
        ensures { result ≡ pulse_value }
    {
        [
            Elements::PULSE_LENGTH as u8,
            0,
            0,
            0,
            Elements::PULSE_REASON as u8,
            0,
            0,
            0,
        ]
    }
}

// Whether elements keep their limits, and their sizes sum to the lent octets. No size is added before it is found small, so that no sum wraps.
pub fn fits(e: Elements, values: &[u8]) -> bool
    ensures { result ≡ elements_fit e values.now }
{
    if Elements::MOST < e.count {
        return false;
    }
    let mut total = 0;
    for size in &e.sizes[..e.count] {
        if Elements::VALUE_MOST < *size {
            return false;
        }
        total += *size as usize;
    }
    total == values.len()
}

// How many octets elements are written as, array and values. Those that break their limits are not written: 0, by the definition `handed_size`.
pub fn size_of(e: Elements, values: &[u8]) -> usize
    ensures { result ≡ handed_size e values.now }
{
    if !fits(e, values) {
        return 0;
    }
    field::ELEMENT * e.count + values.len()
}

// Whether a type is critical: its sign, as a signed number of 32 bits.
fn is_critical(kind: u32) -> bool
    ensures { result ≡ negative (signed32 kind) }
{
    to_i32(kind) < 0
}

// Whether no type is critical.
pub fn are_ordinary(e: Elements) -> bool
    requires { e.count ≤ 8 }
    ensures { result ≡ types_ordinary e }
{
    e.types[..e.count].iter().all(|kind| !is_critical(*kind))
}

// The stored offset of what stands at an offset: 0 where it is empty.
pub fn offset_of(size: usize, offset: MessageOffset) -> MessageOffset
    ensures { result.0 ≡ offset_of size offset.0 }
{
    if size == 0 { MessageOffset(0) } else { offset }
}

// One element, whose value stands at an offset.
fn put_element(d: &mut [u8], at: usize, kind: u32, offset: MessageOffset, size: u32) -> usize
    requires { at + 12 ≤ length d.old }
    ensures { Written d.old at 12 (joined (element_fields kind offset.0 size)) d.new result }
{
    let stored = offset_of(size as usize, offset);
    let offset_at = put_u32(d, at, kind);
    let size_at = put_u32(d, offset_at, stored.0);
    put_u32(d, size_at, size)
}

// The array, whose first value stands at an offset, and each further one where the one before it ends.
fn put_array(d: &mut [u8], at: usize, e: Elements, first: MessageOffset) -> usize
    requires { (e.count ≤ 8) × ((at + 12 * e.count ≤ length d.old) × (first.0 + sum_from e.count 0 e.sizes < 4294967296)) }
    ensures { Written d.old at (12 * e.count) (array_from e.count 0 first.0 e.types e.sizes) d.new result }
{
    let mut place = at;
    let mut offset = first.0;
    for (kind, size) in e.types[..e.count].iter().zip(&e.sizes[..e.count]) {
        place = put_element(d, place, *kind, MessageOffset(offset), *size);
        offset += *size;
    }
    place
}

// The array, which stands at an offset of its message, and the values behind it: they are put as they are lent, joined.
pub fn put_elements(
    d: &mut [u8],
    at: usize,
    e: Elements,
    values: &[u8],
    offset: MessageOffset,
) -> usize
    requires { (elements_fit e values.now ≡ true) × ((at + (12 * e.count + length values.now) ≤ length d.old) × (offset.0 ≤ 4294900000)) }
    ensures { Written d.old at (12 * e.count + length values.now)
        (item_octets offset.0 (items_of e values.now)) d.new result }
{
    let size = field::ELEMENT as u32 * e.count as u32;
    let first = MessageOffset(offset.0 + size);
    let values_at = put_array(d, at, e, first);
    put_octets(d, values_at, values)
}
