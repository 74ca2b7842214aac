// What the two NEGOs share: their extensions, and the message at the transcript's end.
ghost use Rattle.std.specs.Prelude.{◌≡◌, ◌||◌, ◌≤◌};
ghost use Rattle.refusal.specs.Refusals.{refusal_number};
ghost use Rattle.elements.specs.Elements.{items_of, types_ordinary};
ghost use Rattle.encode.specs.Encode.{nego_of};
ghost use Rattle.message.specs.Check.{first_failing};
ghost use Rattle.conversation.specs.Turns.{NEGO};
ghost use Rattle.conversation.specs.Writing.{extension_rows};
ghost use Rattle.calls.specs.Calls.{Appended};
ghost use Rattle.sending_nego.specs.Ready.{tested, NegoReady};

use calls::next::{after_message, heading_of};
use conversation::{Class, Record};
use elements::{Elements, are_ordinary, fits, size_of};
use encode_nego::write;
use message::Kind;
use refusal::Refusal;

// The header of a NEGO.
pub(crate) const HEADER: usize = Kind::NEGO_HEADER_LEN;

// Whether a call may write these types: only a test call writes critical ones.
fn types_allowed(test: bool, extensions: Elements) -> bool
    requires { extensions.count ≤ 8 }
    ensures { result ≡ (test || types_ordinary extensions) }
{
    test || are_ordinary(extensions)
}

// 25 and 26 of extensions.
#[tactic(auto, using(crate::proofs::Extensions::extensions))]
pub(crate) fn check_extensions(
    test: bool,
    extensions: Elements,
    values: &[u8],
) -> Result<(), Refusal>
    ensures { refusal_number result ≡ first_failing (extension_rows (tested test extensions values.now)) }
{
    if !fits(extensions, values) {
        return Err(Refusal::ContentLimit);
    }
    if !types_allowed(test, extensions) {
        return Err(Refusal::CriticalWritten);
    }
    Ok(())
}

// A NEGO of either end at the transcript's end.
pub(crate) fn append_nego(
    r: Record,
    transcript: &mut [u8],
    random: [u8; 32],
    schemes: &[u8],
    extensions: Elements,
    values: &[u8],
) -> Record
    requires { NegoReady r transcript.old random schemes.now extensions values.now }
    ensures { Appended r transcript.old NEGO (nego_of random schemes.now (items_of extensions values.now))
        transcript.new result }
{
    let heading = heading_of(r, Class::NEGO);
    let size = size_of(extensions, values);
    write(
        transcript, r.used, heading, random, schemes, extensions, values,
    );
    after_message(r, Class::NEGO, HEADER + schemes.len() + size)
}
