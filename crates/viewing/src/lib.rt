// What is said of a token as entries, and of an envelope's token: a number, or what refuses it.
#![tactic(auto)]

ghost use Rattle.std.specs.Prelude.{◌≡◌, length};
ghost use Rattle.token.specs.Walk.{Accepts};
ghost use Rattle.blanking.specs.Masked.{coverage_of};
ghost use Rattle.replies.specs.Replies.{Tells, TellsLent};
ghost use Rattle.viewing.specs.Viewing.{entry_count_answer, entries_answer, fault_answer, coverage_answer, envelope_place_answer, envelope_length_answer};

use blanking::covering::cover;
use entries::{SIZE, count_entries, put_entries, put_entry};
use envelope_token::find_token;
use faults::fault;
use refusal::Refusal;
use replies::{accepted, number, refusal};

// The number of entries.
pub fn entry_count(token: &[u8]) -> Result<usize, Refusal>
    ensures { Tells result (entry_count_answer token.now) }
{
    accepted(token)?;
    Ok(count_entries(token))
}

// As many whole entries from number `first` on as fit, at the buffer's front.
pub fn write_entries(token: &[u8], first: usize, buffer: &mut [u8]) -> Result<usize, Refusal>
    ensures { TellsLent result buffer.new (entries_answer token.now first buffer.old) }
{
    accepted(token)?;
    if count_entries(token) <= first {
        return Err(Refusal::Argument);
    }
    if buffer.len() < SIZE {
        return Err(Refusal::Room);
    }
    Ok(put_entries(buffer, token, first))
}

// The octets at fault, as one entry at the buffer's front; nothing where the token is accepted.
pub fn write_fault(token: &[u8], buffer: &mut [u8]) -> Result<usize, Refusal>
    ensures { TellsLent result buffer.new (fault_answer token.now buffer.old) }
{
    if accepted(token).is_ok() {
        return Ok(0);
    }
    if buffer.len() < SIZE {
        return Err(Refusal::Room);
    }
    Ok(put_entry(buffer, 0, fault(token)))
}

// The coverage of an accepted token, in a mask as long as it.
fn mask_token(token: &[u8], mask: &mut [u8])
    requires { Accepts token.now × (length mask.old ≡ length token.now) }
    ensures { mask.new ≡ coverage_of token.now }
{
    mask.fill(1);
    let _ = cover(token, mask);
}

// An octet for each of the token's: 1 where it is covered, 0 where nothing covers it.
pub fn write_coverage(token: &[u8], buffer: &mut [u8]) -> Result<usize, Refusal>
    ensures { TellsLent result buffer.new (coverage_answer token.now buffer.old) }
{
    accepted(token)?;
    let length = token.len();
    if buffer.len() < length {
        return Err(Refusal::Room);
    }
    mask_token(token, &mut buffer[..length]);
    Ok(length)
}

// The place of the token in an envelope.
pub fn envelope_place(envelope: &[u8]) -> i64
    ensures { result ≡ envelope_place_answer envelope.now }
{
    match find_token(envelope) {
        Ok(carried) => number(carried.place),
        Err(e) => refusal(e.number()),
    }
}

// Its length in octets.
pub fn envelope_length(envelope: &[u8]) -> i64
    ensures { result ≡ envelope_length_answer envelope.now }
{
    match find_token(envelope) {
        Ok(carried) => number(carried.length),
        Err(e) => refusal(e.number()),
    }
}
