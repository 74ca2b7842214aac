// The library for C hosts, over numbers and byte slices: wrappers over the structural reading and the listing's windows. A refusal is its number negated.
// negoex.h, beside this file's folder, has the prototypes.
#![tactic(auto)]

ghost use Rattle.std.specs.Prelude.{◌≡◌, length};
ghost use Rattle.token.specs.Token.{token_of};
ghost use Rattle.token.specs.Walk.{messages_of, Accepts};
ghost use Rattle.listing.specs.Listing.{all_lines};
ghost use Rattle.replies.specs.Replies.{lent, Tells, TellsLent, messages_answer, place_answer, field_answer, conversation_answer, vectors_answer, vector_place_answer, vector_length_answer, table_answer};
ghost use Rattle.viewing.specs.Viewing.{entry_count_answer, entries_answer, fault_answer, coverage_answer, envelope_place_answer, envelope_length_answer};
ghost use Rattle.host.specs.Host.{lines_answer, window_answer};

use lines::count;
use listing::window;
use messages::Messages;
use refusal::Refusal;
use replies::{accepted, answer, wide_number};

// The number of messages.
#[unsafe(no_mangle)]
pub extern "C" fn negoex_messages(token: &[u8]) -> i64
    ensures { result ≡ messages_answer token.now }
{
    answer(replies::count_messages(token))
}

// The place of the message at fault; 0 where the token is accepted.
#[unsafe(no_mangle)]
pub extern "C" fn negoex_place(token: &[u8]) -> i64
    ensures { result ≡ place_answer token.now }
{
    wide_number(replies::fault_place(token))
}

// A field of a message's header.
#[unsafe(no_mangle)]
pub extern "C" fn negoex_field(token: &[u8], message: usize, field: usize) -> i64
    ensures { result ≡ field_answer token.now message field }
{
    answer(replies::message_field(token, message, field))
}

// A message's conversation, at the buffer's front.
#[unsafe(no_mangle)]
pub extern "C" fn negoex_conversation(token: &[u8], message: usize, buffer: &mut [u8]) -> i64
    ensures { lent result buffer.new ≡ conversation_answer token.now message buffer.old }
{
    answer(replies::put_conversation(token, message, buffer))
}

// The number of a message's vectors.
#[unsafe(no_mangle)]
pub extern "C" fn negoex_vectors(token: &[u8], message: usize) -> i64
    ensures { result ≡ vectors_answer token.now message }
{
    answer(replies::count_vectors(token, message))
}

// The token place of a message's vector; an empty one's is its message's.
#[unsafe(no_mangle)]
pub extern "C" fn negoex_vector_place(token: &[u8], message: usize, vector: usize) -> i64
    ensures { result ≡ vector_place_answer token.now message vector }
{
    answer(replies::place_of_vector(token, message, vector))
}

// The length of a message's vector in octets.
#[unsafe(no_mangle)]
pub extern "C" fn negoex_vector_length(token: &[u8], message: usize, vector: usize) -> i64
    ensures { result ≡ vector_length_answer token.now message vector }
{
    answer(replies::length_of_vector(token, message, vector))
}

// The fields of all messages, with places and lengths of their vectors, at the buffer's front.
#[unsafe(no_mangle)]
pub extern "C" fn negoex_table(token: &[u8], buffer: &mut [u8]) -> i64
    ensures { lent result buffer.new ≡ table_answer token.now buffer.old }
{
    answer(replies::write_table(token, buffer))
}

// The number of entries of a token.
#[unsafe(no_mangle)]
pub extern "C" fn negoex_entry_count(token: &[u8]) -> i64
    ensures { result ≡ entry_count_answer token.now }
{
    answer(viewing::entry_count(token))
}

// As many whole entries from number `first` on as fit, at the buffer's front.
#[unsafe(no_mangle)]
pub extern "C" fn negoex_entries(token: &[u8], first: usize, buffer: &mut [u8]) -> i64
    ensures { lent result buffer.new ≡ entries_answer token.now first buffer.old }
{
    answer(viewing::write_entries(token, first, buffer))
}

// The octets at fault of a refused token, as one entry at the buffer's front; nothing where it is accepted.
#[unsafe(no_mangle)]
pub extern "C" fn negoex_fault(token: &[u8], buffer: &mut [u8]) -> i64
    ensures { lent result buffer.new ≡ fault_answer token.now buffer.old }
{
    answer(viewing::write_fault(token, buffer))
}

// An octet for each of the token's, at the buffer's front: 1 where it is covered, 0 where nothing covers it.
#[unsafe(no_mangle)]
pub extern "C" fn negoex_coverage(token: &[u8], buffer: &mut [u8]) -> i64
    ensures { lent result buffer.new ≡ coverage_answer token.now buffer.old }
{
    answer(viewing::write_coverage(token, buffer))
}

// The place of the token in an envelope.
#[unsafe(no_mangle)]
pub extern "C" fn negoex_envelope_place(envelope: &[u8]) -> i64
    ensures { result ≡ envelope_place_answer envelope.now }
{
    viewing::envelope_place(envelope)
}

// The length of the token in an envelope.
#[unsafe(no_mangle)]
pub extern "C" fn negoex_envelope_length(envelope: &[u8]) -> i64
    ensures { result ≡ envelope_length_answer envelope.now }
{
    viewing::envelope_length(envelope)
}

// The number of lines of an accepted token's messages.
fn message_lines(token: &[u8]) -> usize
    requires { Accepts token.now }
    ensures { result ≡ length (all_lines (messages_of (token_of token.now))) }
{
    let mut lines: usize = 0;
    for (_, m) in Messages::of(token) {
        lines += count(m);
    }
    lines
}

// The number of lines of the listing of an accepted token: the last stands behind those of the messages.
fn count_lines(token: &[u8]) -> Result<usize, Refusal>
    ensures { Tells result (lines_answer token.now) }
{
    accepted(token)?;
    Ok(message_lines(token) + 1)
}

// A window of the listing of an accepted token.
fn show_window(token: &[u8], from: usize, end: usize, buffer: &mut [u8]) -> Result<usize, Refusal>
    ensures { TellsLent result buffer.new (window_answer token.now from end buffer.old) }
{
    accepted(token)?;
    // The last line stands behind those of the messages.
    if message_lines(token) < from {
        return Err(Refusal::Argument);
    }
    let shown = window(token, from, end, buffer);
    if shown.lines != 0 {
        return Ok(shown.octets);
    }
    if from < end {
        return Err(Refusal::Room);
    }
    Ok(0)
}

// The number of lines of the listing.
#[unsafe(no_mangle)]
pub extern "C" fn negoex_lines(token: &[u8]) -> i64
    ensures { result ≡ lines_answer token.now }
{
    answer(count_lines(token))
}

// A window of the listing: as many whole lines from `first` up to, not including, `end` as fit, at the buffer's front.
#[unsafe(no_mangle)]
pub extern "C" fn negoex_window(token: &[u8], first: usize, end: usize, buffer: &mut [u8]) -> i64
    ensures { lent result buffer.new ≡ window_answer token.now first end buffer.old }
{
    answer(show_window(token, first, end, buffer))
}
