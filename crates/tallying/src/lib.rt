// The tally record: what a week of captures holds, one file after the other.
#![tactic(auto)]

ghost use Rattle.std.specs.Prelude.{◌≡◌, leb, length};
ghost use Rattle.message.specs.Show.{schemes_in};
ghost use Rattle.token.specs.Token.{token_of};
ghost use Rattle.token.specs.Walk.{messages_of};
ghost use Rattle.offers.specs.Table.{pick_table, offered_in, Counting};
ghost use Rattle.tallying.specs.Files.{Opened, Missing, all_octets};
ghost use Rattle.tallying.specs.Tally.{empty_tally, one_more, with_message, with_messages, with_answer, all_within, totals_within, in_limits, counted_of};
ghost use Rattle.tallying.specs.Counting.{Small, Ready, Start};
ghost use Rattle.tallying.specs.declared.Counted.{Counted};

use coverage::count_octets;
use message::{Kind, field};
use messages::Messages;
use octets::le_u32;
use offers::{Table, add_offer};
use parts::schemes;
use refusal::Refusal;
use token::read_token;

// Counts by message type, answers by number (0 for accepted files), the table of schemes, and the octets in headers, in vectors and in neither.
#[derive(Clone, Copy)]
pub struct Tally {
    pub types: [u64; 8],
    pub answers: [u64; 32],
    pub table: Table,
    pub headers: u64,
    pub vectors: u64,
    pub bare: u64,
}

// A file's number, 0 where it is accepted, and the tally afterwards. No Result: the number is what is counted, and 0 is counted too.
#[derive(Clone, Copy)]
pub struct Counted {
    pub refusal: u32,
    pub tally: Tally,
}

const LIMIT: u64 = 4294967295;

// The tally of no files.
pub fn empty() -> Tally
    ensures { result ≡ empty_tally }
{
    let table = Table {
        ids: [0; 1024],
        counts: [0; 64],
        count: 0,
        others: 0,
    };
    Tally {
        types: [0; 8],
        answers: [0; 32],
        table,
        headers: 0,
        vectors: 0,
        bare: 0,
    }
}

// Whether no number is above the limit.
fn all_within(a: &[u64]) -> bool
    ensures { result ≡ all_within a.now }
{
    a.iter().all(|n| *n <= LIMIT)
}

// Whether none of the single numbers is above the limit.
#[tactic(auto, unfolding(crate::specs::Tally::totals_within))]
fn totals_within(t: Tally) -> bool
    ensures { result ≡ totals_within t }
{
    t.table.others <= LIMIT && t.headers <= LIMIT && t.vectors <= LIMIT && t.bare <= LIMIT
}

// Whether 18 finds nothing at fault.
#[tactic(auto, unfolding(crate::specs::Tally::in_limits))]
fn in_limits(t: Tally) -> bool
    ensures { result ≡ in_limits t }
{
    t.table.count <= 64
        && all_within(&t.types)
        && all_within(&t.answers)
        && all_within(&t.table.counts)
        && totals_within(t)
}

// One more at a place.
fn one_more(a: &mut [u64], k: usize)
    requires { Small a.old }
    ensures { a.new ≡ one_more a.old k }
{
    if a.len() <= k {
        return;
    }
    a[k] += 1;
}

// The table with a message more, where its type is a NEGO's.
fn with_offer(t: Table, kind: u32, m: &[u8]) -> Table
    requires { Counting t }
    ensures { result ≡ pick_table (leb kind 1) (offered_in t (schemes_in m.now)) t }
{
    if Kind::ACCEPTOR_NEGO < kind {
        return t;
    }
    add_offer(t, schemes(m))
}

// The tally with a message more.
fn with_message(t: Tally, map: &mut [u32], m: &[u8]) -> Tally
    requires { Ready t m.now (length map.old) }
    ensures { result ≡ with_message t m.now }
{
    let kind = le_u32(m, field::TYPE);
    let octets = count_octets(map, m);
    let mut types = t.types;
    one_more(&mut types, kind as usize);
    let answers = t.answers;
    let table = with_offer(t.table, kind, m);
    Tally {
        types,
        answers,
        table,
        headers: t.headers + octets.headers as u64,
        vectors: t.vectors + octets.vectors as u64,
        bare: t.bare + octets.bare as u64,
    }
}

// The tally with the messages of an accepted file.
fn with_messages(t: Tally, map: &mut [u32], file: &[u8]) -> Tally
    requires { Start t file.now (length map.old) }
    ensures { result ≡ with_messages t (all_octets (messages_of (token_of file.now))) }
{
    let mut counted = t;
    for (_, m) in Messages::of(file) {
        counted = with_message(counted, map, m);
    }
    counted
}

// The same, with a map as long as the file needs: most captures are short, and a map has to be cleared before its first use.
fn with_file(t: Tally, file: &[u8]) -> Tally
    requires { Start t file.now (length file.now) }
    ensures { result ≡ with_messages t (all_octets (messages_of (token_of file.now))) }
{
    if file.len() <= 2048 {
        let mut short = [0u32; 2048];
        return with_messages(t, &mut short, file);
    }
    let mut map = [0u32; 65536];
    with_messages(t, &mut map, file)
}

// The tally with a file more that was answered with a number.
fn with_answer(t: Tally, n: u32) -> Tally
    requires { Small t.answers }
    ensures { result ≡ with_answer t n }
{
    let mut answers = t.answers;
    one_more(&mut answers, n as usize);
    Tally { answers, ..t }
}

// The tally with a file that can't be opened.
pub fn count_missing(t: Tally) -> Counted
    ensures { result ≡ counted_of t Missing }
{
    if !in_limits(t) {
        return Counted {
            refusal: Refusal::Stage.number(),
            tally: t,
        };
    }
    let missing = Refusal::Unopened.number();
    Counted {
        refusal: missing,
        tally: with_answer(t, missing),
    }
}

// The tally with a file more, by value.
pub fn tallied(t: Tally, file: &[u8]) -> Counted
    ensures { result ≡ counted_of t (Opened file.now) }
{
    if !in_limits(t) {
        return Counted {
            refusal: Refusal::Stage.number(),
            tally: t,
        };
    }
    match read_token(file) {
        Ok(_) => {
            let counted = with_file(t, file);
            Counted {
                refusal: 0,
                tally: with_answer(counted, 0),
            }
        }
        Err(refused) => {
            let number = refused.refusal.number();
            Counted {
                refusal: number,
                tally: with_answer(t, number),
            }
        }
    }
}

// The tally is lent to the reading of a file and updated in it; the answer is the file's number, 0 where it is accepted.
pub fn count_file(t: &mut Tally, file: &[u8]) -> u32
    ensures { ◌≡◌ {A = Counted} (record { refusal = result; tally = t.new }) (counted_of t.old (Opened file.now)) }
{
    let done = tallied(*t, file);
    *t = done.tally;
    done.refusal
}

// The tally with a file more, lent to the reading from a local: what goes from file to file calls this.
pub fn count_next(t: Tally, file: &[u8]) -> Counted
    ensures { result ≡ counted_of t (Opened file.now) }
{
    let mut kept = t;
    let refusal = count_file(&mut kept, file);
    Counted {
        refusal,
        tally: kept,
    }
}
