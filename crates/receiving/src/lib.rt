// Reading a peer's token into a conversation record.
#![tactic(auto)]

ghost use Rattle.std.specs.Prelude.{◌≡◌, ◌+◌, ◌≤◌, length, Err};
ghost use Rattle.refusal.specs.Refusals.{refusal_number};
ghost use Rattle.conversation.specs.Outcomes.{leaving, closed_by};
ghost use Rattle.conversation.specs.Reading.{accepted, finish, token_rows, reading_token};
ghost use Rattle.calls.specs.Calls.{call_refusal};
ghost use Rattle.receiving.specs.Receiving.{Taking, Judging, judged_as, halted_as};

use calls::{answer, has_room, refused};
use conversation::limits::check_limits;
use conversation::turns::may_read;
use conversation::{Answer, Record, Scan};
use judge::judge_token;
use put::put_octets;
use refusal::Refusal;
use taken::taken_record;
use token::Refused;
use vector::TokenPlace;

mod judge;
mod taken;

// 18 and 1, before any message is looked at.
fn check_before(r: Record, size: usize) -> Result<(), Refusal>
    ensures { refusal_number result ≡ call_refusal r (token_rows r size) }
{
    check_limits(r)?;
    if !may_read(r) {
        return Err(Refusal::Stage);
    }
    if 65535 < size {
        return Err(Refusal::TooLong);
    }
    Ok(())
}

// The record after a token's refusal: 12 closes it.
fn closed_by(number: u32, r: Record) -> Record
    ensures { result ≡ closed_by number r }
{
    if number != 12 {
        return r;
    }
    Record {
        stage: Record::CLOSED,
        ..r
    }
}

// A token's refusal, at its place.
fn refuse_halted(r: Record, halted: Refused) -> Answer
    ensures { result ≡ halted_as r (judged_as (Err halted)) }
{
    let number = halted.refusal.number();
    answer(number, halted.place, closed_by(number, r))
}

// An accepted token: put at the transcript's end, and taken into the record.
fn accept(r: Record, transcript: &mut [u8], t: &[u8], messages: u32, scan: Scan) -> Answer
    requires { Taking r (length t.now) messages × (r.used + length t.now ≤ length transcript.old) }
    ensures { leaving result transcript.new ≡ accepted r transcript.old t.now messages scan }
{
    put_octets(transcript, r.used, t);
    let next = taken_record(r, t, messages, scan);
    Answer {
        refusal: 0,
        place: TokenPlace(0),
        messages,
        choice: [0u8; 16],
        left: 0,
        next,
    }
}

// 16, after all messages.
fn finish_token(
    r: Record,
    transcript: &mut [u8],
    t: &[u8],
    judgement: Result<(u32, Scan), Refused>,
) -> Answer
    requires { Judging r t.now judgement }
    ensures { leaving result transcript.new ≡ finish r transcript.old t.now (judged_as judgement) }
{
    match judgement {
        Err(halted) => refuse_halted(r, halted),
        Ok((messages, scan)) => {
            if !has_room(r.used, 0, t.len(), transcript.len()) {
                return refused(Refusal::Room, r);
            }
            accept(r, transcript, t, messages, scan)
        }
    }
}

// A peer's token, read into the record and put at the transcript's end.
pub fn read(r: Record, transcript: &mut [u8], token: &[u8]) -> Answer
    ensures { leaving result transcript.new ≡ reading_token r transcript.old token.now }
{
    if let Err(refusal) = check_before(r, token.len()) {
        return refused(refusal, r);
    }
    let judgement = judge_token(r, token);
    finish_token(r, transcript, token, judgement)
}
