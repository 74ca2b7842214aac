// ALERT.
#![tactic(auto)]

ghost use Rattle.std.specs.Prelude.{◌≡◌, true};
ghost use Rattle.elements.specs.Elements.{items_of, elements_fit};
ghost use Rattle.encode.specs.Encode.{alert_of};
ghost use Rattle.conversation.specs.Turns.{ALERT};
ghost use Rattle.conversation.specs.Outcomes.{leaving};
ghost use Rattle.conversation.specs.Writing.{alarm, speaking, alert_content};
ghost use Rattle.conversation.specs.Choosing.{choosing};
ghost use Rattle.calls.specs.Calls.{Ready, Appended};

use calls::next::{after_message, heading_of};
use calls::{accepted, refused};
use conversation::{Answer, Class, Record};
use elements::{Elements, fits, size_of};
use encode_alert::write;
use message::Kind;
use negotiating::choice::choose_and;
use sending::{check_named, scheme_id};

// The header of an ALERT.
const HEADER: usize = Kind::ALERT_HEADER_LEN;

// An ALERT at the transcript's end.
fn append_alert(
    r: Record,
    transcript: &mut [u8],
    id: [u8; 16],
    code: i32,
    alerts: Elements,
    values: &[u8],
) -> Record
    requires { (elements_fit alerts values.now ≡ true) × Ready r transcript.old ALERT (alert_of id code (items_of alerts values.now)) }
    ensures { Appended r transcript.old ALERT (alert_of id code (items_of alerts values.now))
        transcript.new result }
{
    let heading = heading_of(r, Class::ALERT);
    let size = size_of(alerts, values);
    write(transcript, r.used, heading, id, code, alerts, values);
    after_message(r, Class::ALERT, HEADER + size)
}

// Writes an ALERT of the chosen scheme: an error code, with alerts.
pub fn write_alert(
    r: Record,
    transcript: &mut [u8],
    code: i32,
    alerts: Elements,
    values: &[u8],
) -> Answer
    ensures { leaving result transcript.new ≡ speaking r transcript.old
        (alarm (alert_content code alerts values.now)) }
{
    let fit = fits(alerts, values);
    let size = size_of(alerts, values);
    if let Err(refusal) = check_named(r, Class::ALERT, fit, HEADER, size, transcript.len()) {
        return refused(refusal, r);
    }
    let id = scheme_id(r);
    accepted(append_alert(r, transcript, id, code, alerts, values))
}

// Chooses, and writes an ALERT of the chosen scheme. Where it is refused, nothing is chosen and nothing written.
pub fn choose_alert(
    r: Record,
    transcript: &mut [u8],
    marks: u16,
    code: i32,
    alerts: Elements,
    values: &[u8],
) -> Answer
    ensures { leaving result transcript.new ≡ choosing r transcript.old marks
        (alarm (alert_content code alerts values.now)) }
{
    let fit = fits(alerts, values);
    choose_and(
        r,
        transcript,
        Class::ALERT,
        marks,
        fit,
        |chosen, transcript| write_alert(chosen, transcript, code, alerts, values),
    )
}
