// All that a viewer shows of a token, as entries of one size.
#![tactic(auto)]

ghost use Rattle.std.specs.Prelude.{◌≡◌, ◌+◌, ◌-◌, ◌≤◌, ◌∷◌, [], length, drop};
ghost use Rattle.token.specs.Token.{token_of};
ghost use Rattle.token.specs.Walk.{messages_of, Accepts};
ghost use Rattle.put.specs.Put.{Written};
ghost use Rattle.table.specs.Table.{Held};
ghost use Rattle.entries.specs.Entries.{entries_in, entries_of, entry_octets};
ghost use Rattle.entries.specs.Lookup.{count_in, Filled};

use lookup::{counts_of, entry_count, entry_of, sum_of};
use messages::Messages;
use put::put_u32;
use vector::TokenPlace;

pub mod lookup;
pub mod name;

// One entry: what it is (name.rt), its message, its number in its list, its value, its place in the token and its length in octets.
#[derive(Clone, Copy)]
pub struct Entry {
    pub what: u32,
    pub message: u32,
    pub number: u32,
    pub value: u32,
    pub place: u32,
    pub length: u32,
}

// The size of an entry in octets.
pub const SIZE: usize = 24;

// An entry, in octets.
pub fn put_entry(d: &mut [u8], at: usize, e: Entry) -> usize
    requires { at + 24 ≤ length d.old }
    ensures { Written d.old at 24 (entry_octets (e ∷ [])) d.new result }
{
    let message_at = put_u32(d, at, e.what);
    let number_at = put_u32(d, message_at, e.message);
    let value_at = put_u32(d, number_at, e.number);
    let place_at = put_u32(d, value_at, e.value);
    let length_at = put_u32(d, place_at, e.place);
    put_u32(d, length_at, e.length)
}

// The entries of the message m at a place, from number `from` on, as many as there is room for from `at` on.
fn put_message(
    d: &mut [u8],
    at: usize,
    place: TokenPlace,
    message: u32,
    m: &[u8],
    from: usize,
) -> usize
    requires { Held place.0 m.now × (at ≤ length d.old) }
    ensures { Filled d.old at (drop from (entries_in place.0 message m.now)) d.new result }
{
    let counts = counts_of(m);
    let all = sum_of(counts, m);
    let begin = from.min(all);
    let count = (all - begin).min((d.len() - at) / SIZE);
    let mut next = at;
    for k in 0..count {
        next = put_entry(d, next, entry_of(counts, place, message, m, begin + k));
    }
    next
}

// How many entries an accepted token has.
pub fn count_entries(token: &[u8]) -> usize
    requires { Accepts token.now }
    ensures { result ≡ length (entries_of (messages_of (token_of token.now))) }
{
    let mut count: usize = 0;
    for (_, m) in Messages::of(token) {
        count += entry_count(m);
    }
    count
}

// A number of entries, less those of a message: where there is nothing to pass over, they are not counted.
fn less_those_of(skip: usize, m: &[u8]) -> usize
    requires { Held 0 m.now }
    ensures { result ≡ skip - count_in m.now }
{
    if skip == 0 {
        return 0;
    }
    skip.saturating_sub(entry_count(m))
}

// The entries of an accepted token from number `from` on, as many as there is room for, at the buffer's front.
pub fn put_entries(d: &mut [u8], token: &[u8], from: usize) -> usize
    requires { Accepts token.now }
    ensures { Filled d.old 0 (drop from (entries_of (messages_of (token_of token.now)))) d.new result }
{
    let mut skip = from;
    let mut next: usize = 0;
    for (message, (place, m)) in Messages::of(token).enumerate() {
        next = put_message(d, next, place, message as u32, m, skip);
        skip = less_those_of(skip, m);
    }
    next
}
