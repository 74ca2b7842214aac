// The calls of the library that a script's commands stand for.
#![tactic(auto)]

ghost use Rattle.std.specs.Prelude.{◌≡◌, ◌%◌, drop};
ghost use Rattle.conversation.specs.Outcomes.{leaving};
ghost use Rattle.commands.specs.Commands.{random_in, call_of};

use calls::answer;
use conversation::{Answer, Record};
use negotiating::opening::open;
use octets::to_i32;
use receiving::read;
use script::{Command, Verb};
use sending_alert::{choose_alert, write_alert};
use sending_exchange::exchange::{choose_exchange, write_exchange};
use sending_exchange::metadata::write_metadata;
use sending_nego::offer::write_offer;
use sending_nego::reply::write_reply;
use sending_verify::{choose_verify, write_verify};
use vector::TokenPlace;

// MARKS as a set of 16 bits: four digits are no more.
fn bits(marks: u32) -> u16
    ensures { result ≡ marks % 65536 }
{
    (marks % 65536) as u16
}

// RANDOM, which is the first 32 octets, zeros where there are fewer; and the octets behind it: the values of the extensions.
#[tactic(auto, unfolding(crate::specs::Commands::random_in))]
fn random_and_values(octets: &[u8]) -> ([u8; 32], &[u8])
    ensures random { result.0 ≡ random_in octets.now }
    ensures values { result.1.now ≡ drop 32 octets.now }
{
    match octets.split_first_chunk::<32>() {
        Some((random, values)) => (*random, values),
        None => ([0u8; 32], &octets[..0]),
    }
}

// Makes the call of a command with its octets, at an end with the record r. `read` with nothing behind it is no call, nor is another number: 18.
#[tactic(auto, unfolding(crate::specs::Commands::call_of, crate::specs::Commands::chooser_of, crate::specs::Commands::writer_of, crate::specs::Commands::nego_of))]
pub fn make(c: Command, r: Record, transcript: &mut [u8], octets: &[u8]) -> Answer
    ensures { leaving result transcript.new ≡ call_of c r transcript.old octets.now }
{
    let (random, values) = random_and_values(octets);
    let marks = bits(c.marks);
    let number = to_i32(c.number);
    match c.verb {
        Verb::Open => open(c.acceptor, octets, c.id),
        Verb::Read => read(r, transcript, octets),
        Verb::Offer => write_offer(r, transcript, random, c.test, c.elements, values),
        Verb::Reply => write_reply(
            r,
            transcript,
            bits(c.number),
            random,
            c.test,
            c.elements,
            values,
        ),
        Verb::Metadata => write_metadata(r, transcript, c.id, octets),
        Verb::Exchange => write_exchange(r, transcript, octets),
        Verb::Verify => write_verify(r, transcript, number, octets),
        Verb::Alert => write_alert(r, transcript, number, c.elements, octets),
        Verb::ChooseExchange => choose_exchange(r, transcript, marks, octets),
        Verb::ChooseVerify => choose_verify(r, transcript, marks, number, octets),
        Verb::ChooseAlert => choose_alert(r, transcript, marks, number, c.elements, octets),
        Verb::Turn | Verb::Other => answer(18, TokenPlace(0), r),
    }
}
