// One function for each form of line: its text, from the front of a lent slice on.
ghost use Rattle.std.specs.Prelude.{◌≡◌, ◌+◌, ◌≤◌, length};
ghost use Rattle.octets.specs.Octets.{le};
ghost use Rattle.message.specs.Layout.{head_of, element_at, exchange_vector, checksum_vector};
ghost use Rattle.text.specs.Text.{text, written};
ghost use Rattle.lines.specs.Lines.{lengths as Lines·lengths, message_line, scheme_line, span as Lines·span, extension_line, exchange_line, checksum_line, error_line, alert_line};
ghost use Rattle.lines.specs.Lines.{end_line, refused_line};

use message::field::{
    ELEMENT_VALUE, HEADER_LENGTH, MESSAGE_LENGTH, SEQUENCE, TYPE, checksum_vector, exchange_vector,
    octet_vector,
};
use octets::{le_i32, le_u32};
use parts::{checksum_type, error_code};
use text::{append, field, id, signed, wide_field};
use vector::{TokenPlace, Vector};

// The two lengths of a message's line, and the line's end.
fn lengths(d: &mut [u8], at: usize, m: &[u8]) -> usize
    requires { 40 ≤ length m.now }
    ensures { text d.new result ≡ written (Lines·lengths (head_of m.now)) (text d.old at) }
{
    let header_end = field(d, at, b" header=", le_u32(m, HEADER_LENGTH));
    let length_end = field(d, header_end, b" length=", le_u32(m, MESSAGE_LENGTH));
    append(d, length_end, b"\n")
}

// A message's own line.
pub(crate) fn message(d: &mut [u8], place: TokenPlace, m: &[u8]) -> usize
    requires { 40 ≤ length m.now }
    ensures { text d.new result ≡ written (message_line place.0 (head_of m.now)) (text d.old 0) }
{
    let place_end = wide_field(d, 0, b"message at=", place.0);
    let sequence_end = field(d, place_end, b" seq=", le_u32(m, SEQUENCE));
    let type_end = field(d, sequence_end, b" type=", le_u32(m, TYPE));
    lengths(d, type_end, m)
}

// The scheme i, at place k of its list.
pub(crate) fn scheme(d: &mut [u8], k: usize, i: &[u8]) -> usize
    ensures { text d.new result ≡ written (scheme_line k i.now) (text d.old 0) }
{
    let index_end = wide_field(d, 0, b"scheme ", k);
    let id_start = append(d, index_end, b" ");
    let id_end = id(d, id_start, i);
    append(d, id_end, b"\n")
}

// Where a vector of octets lies, and the line's end.
fn span(d: &mut [u8], at: usize, v: Vector) -> usize
    ensures { text d.new result ≡ written (Lines·span v) (text d.old at) }
{
    let offset_end = field(d, at, b" at=", v.offset.0);
    let length_end = field(d, offset_end, b" length=", v.count);
    append(d, length_end, b"\n")
}

// The extension that stands at `at` of its array.
pub(crate) fn extension(d: &mut [u8], k: usize, array: &[u8], at: usize) -> usize
    requires { at + 12 ≤ length array.now }
    ensures { text d.new result ≡ written (extension_line k (element_at array.now at)) (text d.old 0) }
{
    let index_end = wide_field(d, 0, b"extension ", k);
    let type_start = append(d, index_end, b" type=");
    let type_end = signed(d, type_start, le_i32(array, at));
    span(d, type_end, octet_vector(array, at + ELEMENT_VALUE))
}

// The exchange of a message.
pub(crate) fn exchange(d: &mut [u8], m: &[u8]) -> usize
    requires { 64 ≤ length m.now }
    ensures { text d.new result ≡ written (exchange_line (exchange_vector m.now)) (text d.old 0) }
{
    let word_end = append(d, 0, b"exchange");
    span(d, word_end, exchange_vector(m))
}

// A VERIFY's checksum.
pub(crate) fn checksum(d: &mut [u8], m: &[u8]) -> usize
    requires { 80 ≤ length m.now }
    ensures { text d.new result ≡ written (checksum_line (le 4 m.now 64) (checksum_vector m.now))
        (text d.old 0) }
{
    let type_start = append(d, 0, b"checksum type=");
    let type_end = signed(d, type_start, checksum_type(m));
    span(d, type_end, checksum_vector(m))
}

// An ALERT's error code.
pub(crate) fn error(d: &mut [u8], m: &[u8]) -> usize
    requires { 72 ≤ length m.now }
    ensures { text d.new result ≡ written (error_line (le 4 m.now 56)) (text d.old 0) }
{
    let code_start = append(d, 0, b"error code=");
    let code_end = signed(d, code_start, error_code(m));
    append(d, code_end, b"\n")
}

// The alert that stands at `at` of its array. Its type is unsigned.
pub(crate) fn alert(d: &mut [u8], k: usize, array: &[u8], at: usize) -> usize
    requires { at + 12 ≤ length array.now }
    ensures { text d.new result ≡ written (alert_line k (element_at array.now at)) (text d.old 0) }
{
    let index_end = wide_field(d, 0, b"alert ", k);
    let type_end = field(d, index_end, b" type=", le_u32(array, at));
    span(d, type_end, octet_vector(array, at + ELEMENT_VALUE))
}

// The last line of an accepted token.
pub(crate) fn end(d: &mut [u8], n: u32, octets: usize) -> usize
    ensures { text d.new result ≡ written (end_line n octets) (text d.old 0) }
{
    let count_end = field(d, 0, b"end messages=", n);
    let octets_end = wide_field(d, count_end, b" octets=", octets);
    append(d, octets_end, b"\n")
}

// The only line of a refused token.
pub(crate) fn refused(d: &mut [u8], n: u32, place: TokenPlace) -> usize
    ensures { text d.new result ≡ written (refused_line n place.0) (text d.old 0) }
{
    let number_end = field(d, 0, b"refused ", n);
    let place_end = wide_field(d, number_end, b" at=", place.0);
    append(d, place_end, b"\n")
}
