// What is said of a token, its messages and their vectors: a number, or what refuses it; and either as a C host is answered.
#![tactic(auto)]

ghost use Rattle.std.specs.Prelude.{◌≡◌, ◌≢◌, ◌<◌, ◌^◌, pos, neg_ℤ, length, IfOk, MatchResult};
ghost use Rattle.refusal.specs.Refusals.{number_of};
ghost use Rattle.token.specs.Token.{token_of};
ghost use Rattle.token.specs.Walk.{messages_of, message_at, Accepts};
ghost use Rattle.replies.specs.Replies.{Reply, given, refused, messages_reply, message_in, told, lent, Tells, TellsLent, messages_answer, place_answer, field_answer, conversation_answer, vectors_answer, vector_place_answer, vector_length_answer, table_answer};

use coverage::vectors::{vector_count, vector_of};
use message::field::{COMMON_HEADER, CONVERSATION, ID};
use put::put_octets;
use refusal::Refusal;
use table::{fields, put_table, table_size, vector_length, vector_place};
use token::{message_at, place_at, read_token};

// A number, as an answer.
pub fn number(n: u32) -> i64
    ensures { result ≡ pos n }
{
    n as i64
}

// A place or a size, as an answer.
pub fn wide_number(n: usize) -> i64
    requires { n < 2 ^ 63 }
    ensures { result ≡ pos n }
{
    n as i64
}

// A refusal, as an answer.
pub fn refusal(n: u32) -> i64
    ensures { result ≡ neg_ℤ (pos n) }
{
    0 - n as i64
}

// What a C host is answered: the number, or the refusal's number negated.
pub fn answer(said: Result<usize, Refusal>) -> i64
    requires { IfOk said (λ n. n < 2 ^ 63) }
    ensures { result ≡ told said }
{
    match said {
        Ok(n) => wide_number(n),
        Err(reason) => refusal(reason.number()),
    }
}

// The number of messages of an accepted token, or what refuses it.
pub fn accepted(token: &[u8]) -> Result<u32, Refusal>
    ensures { MatchResult result (λ n. Accepts token.now × (n ≡ length (messages_of (token_of token.now))))
        (λ e. messages_reply token.now ≡ refused (number_of e)) }
{
    read_token(token).map_err(|reading| reading.refusal)
}

// The number of messages.
pub fn count_messages(token: &[u8]) -> Result<usize, Refusal>
    ensures { Tells result (messages_answer token.now) }
{
    let count = accepted(token)?;
    Ok(count as usize)
}

// The place of the message at fault; 0 where the token is accepted.
pub fn fault_place(token: &[u8]) -> usize
    ensures { (pos result ≡ place_answer token.now) × (result < 2 ^ 63) }
{
    match read_token(token) {
        Ok(_) => 0,
        Err(refused) => refused.place.0,
    }
}

// A message of the token.
fn message_in(token: &[u8], message: usize) -> Result<&[u8], Refusal>
    ensures { MatchResult result
        (λ m. (m.now ≡ (message_at token.now message).octets) × (length m.now ≢ 0))
        (λ e. message_in token.now message ≡ refused (number_of e)) }
{
    let m = message_at(token, message);
    if m.is_empty() {
        accepted(token)?;
        return Err(Refusal::Argument);
    }
    Ok(m)
}

// A field of a message's header.
pub fn message_field(token: &[u8], message: usize, field: usize) -> Result<usize, Refusal>
    ensures { Tells result (field_answer token.now message field) }
{
    let m = message_in(token, message)?;
    let list = fields(place_at(token, message), m);
    if field < 5 {
        return Ok(list[field] as usize);
    }
    Err(Refusal::Argument)
}

// A message's conversation, at the buffer's front.
pub fn put_conversation(token: &[u8], message: usize, buffer: &mut [u8]) -> Result<usize, Refusal>
    ensures { TellsLent result buffer.new (conversation_answer token.now message buffer.old) }
{
    let m = message_in(token, message)?;
    if buffer.len() < ID {
        return Err(Refusal::Room);
    }
    Ok(put_octets(buffer, 0, &m[CONVERSATION..COMMON_HEADER]))
}

// The number of a message's vectors.
pub fn count_vectors(token: &[u8], message: usize) -> Result<usize, Refusal>
    ensures { Tells result (vectors_answer token.now message) }
{
    let m = message_in(token, message)?;
    Ok(vector_count(m))
}

// The token place of a message's vector; an empty one's is its message's.
pub fn place_of_vector(token: &[u8], message: usize, vector: usize) -> Result<usize, Refusal>
    ensures { Tells result (vector_place_answer token.now message vector) }
{
    let m = message_in(token, message)?;
    if vector_count(m) <= vector {
        return Err(Refusal::Argument);
    }
    let place = vector_place(place_at(token, message), vector_of(m, vector));
    Ok(place.0)
}

// A vector's length in octets.
pub fn length_of_vector(token: &[u8], message: usize, vector: usize) -> Result<usize, Refusal>
    ensures { Tells result (vector_length_answer token.now message vector) }
{
    let m = message_in(token, message)?;
    if vector_count(m) <= vector {
        return Err(Refusal::Argument);
    }
    Ok(vector_length(vector_of(m, vector)) as usize)
}

// The fields of all messages, with places and lengths of their vectors, at the buffer's front.
pub fn write_table(token: &[u8], buffer: &mut [u8]) -> Result<usize, Refusal>
    ensures { TellsLent result buffer.new (table_answer token.now buffer.old) }
{
    accepted(token)?;
    if buffer.len() < table_size(token) {
        return Err(Refusal::Room);
    }
    Ok(put_table(buffer, token))
}
