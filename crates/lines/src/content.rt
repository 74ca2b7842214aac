// The lines of a message that passed its checks, by their index.
ghost use Rattle.std.specs.Prelude.{◌≡◌, [], get_or};
ghost use Rattle.message.specs.Layout.{nego, exchange, verify, alert};
ghost use Rattle.text.specs.Text.{text, written};
ghost use Rattle.lines.specs.Lines.{message_lines};
ghost use Rattle.lines.specs.Fit.{Fit, shape_in, lines_in};

use super::line;
use message::{Kind, field};
use octets::le_u32;
use parts::{alerts, extensions, scheme, schemes};
use vector::TokenPlace;

// A NEGO's schemes, then its extensions.
fn nego_line(d: &mut [u8], m: &[u8], index: usize) -> usize
    requires { Fit nego m.now }
    ensures { text d.new result ≡ written (get_or (lines_in nego m.now) index []) (text d.old 0) }
{
    let ids = schemes(m);
    let count = ids.len() / field::ID;
    if index < count {
        let at = field::ID * index;
        return line::scheme(d, index, &ids[at..at + field::ID]);
    }
    let array = extensions(m);
    let k = index - count;
    if k < array.len() / field::ELEMENT {
        return line::extension(d, k, array, field::ELEMENT * k);
    }
    0
}

// The scheme of a message with one scheme, then its exchange. This and `verify_line` are no one function: with a closure for the second line, and a layout for
// the contract, it would be longer than both.
fn exchange_line(d: &mut [u8], m: &[u8], index: usize) -> usize
    requires { Fit exchange m.now }
    ensures { text d.new result ≡ written (get_or (lines_in exchange m.now) index []) (text d.old 0) }
{
    match index {
        0 => line::scheme(d, 0, scheme(m)),
        1 => line::exchange(d, m),
        _ => 0,
    }
}

// The scheme of a VERIFY, then its checksum.
fn verify_line(d: &mut [u8], m: &[u8], index: usize) -> usize
    requires { Fit verify m.now }
    ensures { text d.new result ≡ written (get_or (lines_in verify m.now) index []) (text d.old 0) }
{
    match index {
        0 => line::scheme(d, 0, scheme(m)),
        1 => line::checksum(d, m),
        _ => 0,
    }
}

// The scheme of an ALERT, its error code, then its alerts.
fn alert_line(d: &mut [u8], m: &[u8], index: usize) -> usize
    requires { Fit alert m.now }
    ensures { text d.new result ≡ written (get_or (lines_in alert m.now) index []) (text d.old 0) }
{
    if index == 0 {
        return line::scheme(d, 0, scheme(m));
    }
    if index == 1 {
        return line::error(d, m);
    }
    let array = alerts(m);
    let k = index - 2;
    if k < array.len() / field::ELEMENT {
        return line::alert(d, k, array, field::ELEMENT * k);
    }
    0
}

// The line of the message m with an index; nothing where it has none with that index.
pub(crate) fn line_at(d: &mut [u8], place: TokenPlace, m: &[u8], index: usize) -> usize
    requires { Fit (shape_in m.now) m.now }
    ensures { text d.new result ≡ written (get_or (message_lines place.0 m.now) index []) (text d.old 0) }
{
    if index == 0 {
        return line::message(d, place, m);
    }
    let kind = le_u32(m, field::TYPE);
    let behind = index - 1;
    if kind <= Kind::ACCEPTOR_NEGO {
        return nego_line(d, m, behind);
    }
    if kind <= Kind::AP_REQUEST {
        return exchange_line(d, m, behind);
    }
    if kind == Kind::VERIFY {
        return verify_line(d, m, behind);
    }
    alert_line(d, m, behind)
}
