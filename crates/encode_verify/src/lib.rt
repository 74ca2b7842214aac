// VERIFY.
#![tactic(auto)]

ghost use Rattle.std.specs.Prelude.{◌≡◌, ◌+◌, ◌≤◌, length};
ghost use Rattle.put.specs.Put.{Written};
ghost use Rattle.encode.specs.Encode.{encoded, verify_of, told, storing};

use encode::{Heading, has_room, put_head, put_octet_vector};
use message::{Kind, verify};
use put::{put_i32, put_octets, put_u32};
use vector::MessageOffset;

// The most octets that a checksum value can have, so that the message's length is a number of 32 bits.
const MOST: usize = 4294967295 - Kind::VERIFY_HEADER_LEN;

// The message, where it has room.
fn put_verify(
    d: &mut [u8],
    at: usize,
    heading: Heading,
    scheme: [u8; 16],
    checksum: i32,
    value: &[u8],
) -> usize
    requires { (at + (80 + length value.now) ≤ length d.old) × (length value.now ≤ 4294967215) }
    ensures { Written d.old at (80 + length value.now) (encoded heading (verify_of scheme checksum value.now))
        d.new result }
{
    let length = value.len();
    let scheme_at = put_head(d, at, heading, (Kind::VERIFY_HEADER_LEN + length) as u32);
    let header_length_at = put_octets(d, scheme_at, &scheme);
    let checksum_scheme_at = put_u32(d, header_length_at, verify::CHECKSUM_HEADER);
    let type_at = put_u32(d, checksum_scheme_at, verify::RFC_3961);
    let vector_at = put_i32(d, type_at, checksum);
    let pad_at = put_octet_vector(
        d,
        vector_at,
        MessageOffset(Kind::VERIFY_HEADER),
        length as u32,
    );
    let value_at = put_u32(d, pad_at, 0);
    put_octets(d, value_at, value)
}

// Writes a VERIFY at a place: the checksum's type and its value.
pub fn write(
    d: &mut [u8],
    at: usize,
    heading: Heading,
    scheme: [u8; 16],
    checksum: i32,
    value: &[u8],
) -> Option<usize>
    ensures { told result d.new ≡ storing d.old at heading (verify_of scheme checksum value.now) }
{
    if heading.kind.0 != Kind::VERIFY || MOST < value.len() {
        return None;
    }
    if !has_room(d.len(), at, Kind::VERIFY_HEADER_LEN + value.len()) {
        return None;
    }
    Some(put_verify(d, at, heading, scheme, checksum, value))
}
