// The initiator's choice, which is made with its first later message: what the three calls that choose share.
ghost use Rattle.std.specs.Prelude.{◌≡◌, ◌&&◌, eqb};
ghost use Rattle.refusal.specs.Refusals.{refusal_number};
ghost use Rattle.conversation.specs.Outcomes.{leaving};
ghost use Rattle.conversation.specs.Writing.{Speech, class_in, speech_fits};
ghost use Rattle.conversation.specs.Choosing.{choice_rows, chose, choosing};
ghost use Rattle.calls.specs.Calls.{call_refusal};
ghost use Rattle.negotiating.specs.Ready.{ChoiceReady, named_choice, Writes};

use calls::{answer, naming, refused};
use conversation::limits::check_limits;
use conversation::turns::place_after;
use conversation::{Answer, Record, Turn};
use refusal::Refusal;
use schemes::choosing::choose_kept;
use schemes::list::id_of;
use schemes::set::within;
use vector::TokenPlace;

// Whether an early VERIFY counts after a choice: it is for the AP_REQUEST's scheme.
fn counts_for(early: bool, place: usize, requested: usize) -> bool
    ensures { result ≡ (early && eqb place requested) }
{
    early && place == requested
}

// 18, 19, 25, 17 and 18 for a choice with a message of a class, whose content keeps its limits or doesn't.
pub fn check_choice(r: Record, class: u8, marks: u16, fit: bool) -> Result<(), Refusal>
    ensures { refusal_number result ≡ call_refusal r (choice_rows r marks fit class) }
{
    check_limits(r)?;
    if r.acceptor || r.stage != Record::CHOOSING {
        return Err(Refusal::Stage);
    }
    if !within(marks, r.count as u32) {
        return Err(Refusal::Argument);
    }
    if !fit {
        return Err(Refusal::ContentLimit);
    }
    let kept = r.kept;
    let left = choose_kept(kept, r.common, marks);
    if left.left == 0 {
        return Err(Refusal::NoCommonScheme);
    }
    let spent = counts_for(r.attested, left.place as usize, r.requested);
    if place_after(Turn::FURTHER, 0, spent, class).is_none() {
        return Err(Refusal::Stage);
    }
    Ok(())
}

// The record after the choice: the first kept place that is not marked. The message is written in it.
pub fn chosen_record(r: Record, marks: u16) -> Record
    requires { ChoiceReady r marks }
    ensures { result ≡ chose r marks }
{
    let kept = r.kept;
    let place = choose_kept(kept, r.common, marks).place as usize;
    Record {
        stage: Record::LATER,
        position: 0,
        marks,
        chosen: place,
        attested: counts_for(r.attested, place, r.requested),
        confirmed: counts_for(r.confirmed, place, r.requested),
        ..r
    }
}

// The answer after the message: it names the choice and how many were left. Where the message was refused, nothing is chosen.
pub fn name_choice(r: Record, marks: u16, a: Answer) -> Answer
    requires { ChoiceReady r marks }
    ensures { result ≡ named_choice r marks a }
{
    if a.refusal != 0 {
        return answer(a.refusal, TokenPlace(0), r);
    }
    let kept = r.kept;
    let list = r.list;
    let choice = choose_kept(kept, r.common, marks);
    naming(a.next, id_of(list, choice.place), choice.left)
}

// Chooses, and writes a message in the record after the choice. Where it is refused, nothing is chosen and nothing written.
pub fn choose_and<F: FnOnce(Record, &mut [u8]) -> Answer>(
    r: Record,
    transcript: &mut [u8],
    class: u8,
    marks: u16,
    fit: bool,
    write: F,
) -> Answer
    requires { F.IsAlwaysCallable write }
    ensures { (s : Speech) → class_in s ≡ class → speech_fits s ≡ fit → Writes F.FnOnce write s
        → leaving result transcript.new ≡ choosing r transcript.old marks s }
{
    if let Err(refusal) = check_choice(r, class, marks, fit) {
        return refused(refusal, r);
    }
    let chosen = chosen_record(r, marks);
    let written = write(chosen, transcript);
    name_choice(r, marks, written)
}
