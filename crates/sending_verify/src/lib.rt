// VERIFY.
#![tactic(auto)]

ghost use Rattle.std.specs.Prelude.{◌≡◌};
ghost use Rattle.encode.specs.Encode.{of_verify};
ghost use Rattle.conversation.specs.Turns.{VERIFY};
ghost use Rattle.conversation.specs.Outcomes.{leaving};
ghost use Rattle.conversation.specs.Writing.{checksum as Speech·checksum, speaking};
ghost use Rattle.conversation.specs.Choosing.{choosing};
ghost use Rattle.calls.specs.Calls.{Ready, Appended};

use calls::next::{after_message, heading_of};
use calls::{accepted, refused};
use conversation::{Answer, Class, Record};
use encode_verify::write;
use message::Kind;
use negotiating::choice::choose_and;
use sending::{check_named, scheme_id};

// The header of a VERIFY.
const HEADER: usize = Kind::VERIFY_HEADER as usize;

// A VERIFY at the transcript's end.
fn append_verify(
    r: Record,
    transcript: &mut [u8],
    id: [u8; 16],
    checksum: i32,
    value: &[u8],
) -> Record
    requires { Ready r transcript.old VERIFY (of_verify (record { scheme = id; type = checksum; value = value.now })) }
    ensures { Appended r transcript.old VERIFY (of_verify (record { scheme = id; type = checksum; value = value.now }))
        transcript.new result }
{
    let heading = heading_of(r, Class::VERIFY);
    write(transcript, r.used, heading, id, checksum, value);
    after_message(r, Class::VERIFY, HEADER + value.len())
}

// Writes a VERIFY of the chosen scheme: the checksum's type and its value.
pub fn write_verify(r: Record, transcript: &mut [u8], checksum: i32, value: &[u8]) -> Answer
    ensures { leaving result transcript.new ≡ speaking r transcript.old (Speech·checksum checksum value.now) }
{
    if let Err(refusal) = check_named(
        r,
        Class::VERIFY,
        true,
        HEADER,
        value.len(),
        transcript.len(),
    ) {
        return refused(refusal, r);
    }
    let id = scheme_id(r);
    let next = append_verify(r, transcript, id, checksum, value);
    accepted(Record {
        attested: true,
        ..next
    })
}

// Chooses, and writes a VERIFY of the chosen scheme. Where it is refused, nothing is chosen and nothing written.
pub fn choose_verify(
    r: Record,
    transcript: &mut [u8],
    marks: u16,
    checksum: i32,
    value: &[u8],
) -> Answer
    ensures { leaving result transcript.new ≡ choosing r transcript.old marks
        (Speech·checksum checksum value.now) }
{
    choose_and(
        r,
        transcript,
        Class::VERIFY,
        marks,
        true,
        |chosen, transcript| write_verify(chosen, transcript, checksum, value),
    )
}
