// INITIATOR_META_DATA, ACCEPTOR_META_DATA, CHALLENGE and AP_REQUEST.
#![tactic(auto)]

ghost use Rattle.std.specs.Prelude.{◌≡◌, ◌+◌, ◌≤◌, length};
ghost use Rattle.put.specs.Put.{Written};
ghost use Rattle.encode.specs.Encode.{encoded, exchange_of, told, storing};

use encode::{Heading, has_room, put_head, put_octet_vector};
use message::Kind;
use put::put_octets;
use vector::MessageOffset;

// The most octets that an exchange can have, so that the message's length is a number of 32 bits.
const MOST: usize = 4294967295 - Kind::EXCHANGE_HEADER_LEN;

// The message, where it has room.
fn put_exchange(d: &mut [u8], at: usize, heading: Heading, scheme: [u8; 16], value: &[u8]) -> usize
    requires { (at + (64 + length value.now) ≤ length d.old) × (length value.now ≤ 4294967231) }
    ensures { Written d.old at (64 + length value.now) (encoded heading (exchange_of scheme value.now))
        d.new result }
{
    let length = value.len();
    let scheme_at = put_head(d, at, heading, (Kind::EXCHANGE_HEADER_LEN + length) as u32);
    let vector_at = put_octets(d, scheme_at, &scheme);
    let value_at = put_octet_vector(
        d,
        vector_at,
        MessageOffset(Kind::EXCHANGE_HEADER),
        length as u32,
    );
    put_octets(d, value_at, value)
}

// Writes a message that carries an exchange or metadata at a place.
pub fn write(
    d: &mut [u8],
    at: usize,
    heading: Heading,
    scheme: [u8; 16],
    value: &[u8],
) -> Option<usize>
    ensures { told result d.new ≡ storing d.old at heading (exchange_of scheme value.now) }
{
    let kind = heading.kind.0;
    if kind < Kind::INITIATOR_META_DATA || Kind::AP_REQUEST < kind || MOST < value.len() {
        return None;
    }
    if !has_room(d.len(), at, Kind::EXCHANGE_HEADER_LEN + value.len()) {
        return None;
    }
    Some(put_exchange(d, at, heading, scheme, value))
}
