// INITIATOR_NEGO and ACCEPTOR_NEGO.
#![tactic(auto)]

ghost use Rattle.std.specs.Prelude.{◌≡◌, true, ◌++◌, ◌+◌, ◌*◌, ◌≤◌, length};
ghost use Rattle.put.specs.Put.{Written, joined};
ghost use Rattle.elements.specs.Elements.{items_of, elements_fit};
ghost use Rattle.encode.specs.Encode.{head_fields, nego_fields, encoded, nego_of, told, storing_handed};

use elements::{Elements, fits, offset_of, put_elements};
use encode::{Heading, has_room, put_head, put_vector};
use message::{Kind, field};
use put::put_octets;
use vector::MessageOffset;

// The most octets that a scheme list can have, so that its count is a number of 16 bits.
const MOST: usize = 65535 * field::ID;

// The header of a message of `size` octets: so many schemes behind it, and so many extensions from an offset on.
fn put_header(
    d: &mut [u8],
    at: usize,
    heading: Heading,
    random: [u8; 32],
    size: u32,
    schemes: u16,
    offset: MessageOffset,
    extensions: u16,
) -> usize
    requires { at + 96 ≤ length d.old }
    ensures { Written d.old at 96 (joined (head_fields heading size ++ nego_fields random schemes offset.0 extensions))
        d.new result }
{
    let random_at = put_head(d, at, heading, size);
    let version_at = put_octets(d, random_at, &random);
    let schemes_at = put_octets(d, version_at, &[0u8; 8]);
    let extensions_at = put_vector(d, schemes_at, MessageOffset(Kind::NEGO_HEADER), schemes);
    put_vector(d, extensions_at, offset, extensions)
}

// The message, where it has room.
fn put_nego(
    d: &mut [u8],
    at: usize,
    heading: Heading,
    random: [u8; 32],
    schemes: &[u8],
    extensions: Elements,
    values: &[u8],
) -> usize
    requires { (elements_fit extensions values.now ≡ true)
        × ((at + (96 + length schemes.now + (12 * extensions.count + length values.now)) ≤ length d.old)
        × ((length schemes.now ≤ 1048560) × ((extensions.count ≤ 8) × (length values.now ≤ 32768)))) }
    ensures { Written d.old at (96 + length schemes.now + (12 * extensions.count + length values.now))
        (encoded heading (nego_of random schemes.now (items_of extensions values.now))) d.new result }
{
    let length = schemes.len();
    let count = extensions.count;
    let array = MessageOffset((Kind::NEGO_HEADER_LEN + length) as u32);
    let size = (Kind::NEGO_HEADER_LEN + length + (field::ELEMENT * count + values.len())) as u32;
    let offset = offset_of(count, array);
    let schemes_at = put_header(
        d,
        at,
        heading,
        random,
        size,
        (length / field::ID) as u16,
        offset,
        count as u16,
    );
    let array_at = put_octets(d, schemes_at, schemes);
    put_elements(d, array_at, extensions, values, array)
}

// Writes a NEGO at a place. `schemes` are ids, 16 octets each; nothing is written where they are not whole, or more than the count can say, or where
// the extensions break their limits.
pub fn write(
    d: &mut [u8],
    at: usize,
    heading: Heading,
    random: [u8; 32],
    schemes: &[u8],
    extensions: Elements,
    values: &[u8],
) -> Option<usize>
    ensures { told result d.new ≡ storing_handed (elements_fit extensions values.now) d.old at heading
        (nego_of random schemes.now (items_of extensions values.now)) }
{
    if Kind::ACCEPTOR_NEGO < heading.kind.0 {
        return None;
    }
    let length = schemes.len();
    if length % field::ID != 0 || MOST < length {
        return None;
    }
    if !fits(extensions, values) {
        return None;
    }
    let size = Kind::NEGO_HEADER_LEN + length + (field::ELEMENT * extensions.count + values.len());
    if !has_room(d.len(), at, size) {
        return None;
    }
    Some(put_nego(d, at, heading, random, schemes, extensions, values))
}
