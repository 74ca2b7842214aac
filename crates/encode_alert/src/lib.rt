// ALERT, with its alerts.
#![tactic(auto)]

ghost use Rattle.std.specs.Prelude.{◌≡◌, true, ◌++◌, ◌+◌, ◌*◌, ◌≤◌, length};
ghost use Rattle.put.specs.Put.{Written, joined};
ghost use Rattle.elements.specs.Elements.{items_of, elements_fit};
ghost use Rattle.encode.specs.Encode.{head_fields, alert_fields, encoded, alert_of, told, storing_handed};

use elements::{Elements, fits, offset_of, put_elements};
use encode::{Heading, has_room, put_head, put_vector};
use message::{Kind, field};
use put::{put_i32, put_octets, put_u32};
use vector::MessageOffset;

// The header of a message of `size` octets: so many alerts from an offset on.
fn put_header(
    d: &mut [u8],
    at: usize,
    heading: Heading,
    scheme: [u8; 16],
    code: i32,
    size: u32,
    offset: MessageOffset,
    alerts: u16,
) -> usize
    requires { at + 72 ≤ length d.old }
    ensures { Written d.old at 72 (joined (head_fields heading size ++ alert_fields scheme code offset.0 alerts))
        d.new result }
{
    let scheme_at = put_head(d, at, heading, size);
    let code_at = put_octets(d, scheme_at, &scheme);
    let vector_at = put_i32(d, code_at, code);
    let pad_at = put_vector(d, vector_at, offset, alerts);
    put_u32(d, pad_at, 0)
}

// The message, where it has room.
fn put_alert(
    d: &mut [u8],
    at: usize,
    heading: Heading,
    scheme: [u8; 16],
    code: i32,
    alerts: Elements,
    values: &[u8],
) -> usize
    requires { (elements_fit alerts values.now ≡ true)
        × ((at + (72 + (12 * alerts.count + length values.now)) ≤ length d.old) × ((alerts.count ≤ 8) × (length values.now ≤ 32768))) }
    ensures { Written d.old at (72 + (12 * alerts.count + length values.now))
        (encoded heading (alert_of scheme code (items_of alerts values.now))) d.new result }
{
    let count = alerts.count;
    let size = (Kind::ALERT_HEADER_LEN + (field::ELEMENT * count + values.len())) as u32;
    let offset = offset_of(count, MessageOffset(Kind::ALERT_HEADER));
    let array_at = put_header(d, at, heading, scheme, code, size, offset, count as u16);
    put_elements(
        d,
        array_at,
        alerts,
        values,
        MessageOffset(Kind::ALERT_HEADER),
    )
}

// Writes an ALERT at a place: an error code, and alerts; nothing is written where they break their limits.
pub fn write(
    d: &mut [u8],
    at: usize,
    heading: Heading,
    scheme: [u8; 16],
    code: i32,
    alerts: Elements,
    values: &[u8],
) -> Option<usize>
    ensures { told result d.new ≡ storing_handed (elements_fit alerts values.now) d.old at heading
        (alert_of scheme code (items_of alerts values.now)) }
{
    if heading.kind.0 != Kind::ALERT {
        return None;
    }
    if !fits(alerts, values) {
        return None;
    }
    let size = Kind::ALERT_HEADER_LEN + (field::ELEMENT * alerts.count + values.len());
    if !has_room(d.len(), at, size) {
        return None;
    }
    Some(put_alert(d, at, heading, scheme, code, alerts, values))
}
