// What a script's calls answer, as lines of text from the front of a lent slice on.
#![tactic(auto)]

ghost use Rattle.std.specs.Prelude.{◌≡◌};
ghost use Rattle.text.specs.Text.{text, written};
ghost use Rattle.script.specs.Grammar.{number_of_verb};
ghost use Rattle.reports.specs.Reports.{wrote_text, choice_text, names_choice, numbers_line, used_line, report_of};

use conversation::Answer;
use script::{Command, Verb};
use text::{append, field, hex_all, id, wide_field};

// Two numbers, each after its words, and the line's end.
fn numbers(d: &mut [u8], words: &[u8], first: u32, further: &[u8], second: usize) -> usize
    ensures { text d.new result ≡ written (numbers_line words.now first further.now second) (text d.old 0) }
{
    let first_end = field(d, 0, words, first);
    let second_end = wide_field(d, first_end, further, second);
    append(d, second_end, b"\n")
}

// The id chosen, how many were left, and the line's end.
fn choice(d: &mut [u8], at: usize, chosen: [u8; 16], left: u32) -> usize
    ensures { text d.new result ≡ written (choice_text chosen left) (text d.old at) }
{
    let id_start = append(d, at, b" choice=");
    let id_end = id(d, id_start, &chosen);
    let left_end = field(d, id_end, b" left=", left);
    append(d, left_end, b"\n")
}

// The length and the octets of a written message; its line is still open.
fn wrote(d: &mut [u8], message: &[u8]) -> usize
    ensures { text d.new result ≡ written (wrote_text message.now) (text d.old 0) }
{
    let length_end = wide_field(d, 0, b"wrote ", message.len());
    let octets_start = append(d, length_end, b" ");
    hex_all(d, octets_start, message)
}

// Whether a verb is that of a call that answers a choice: a reply, and those that choose.
fn names_choice(verb: Verb) -> bool
    ensures { result ≡ names_choice (number_of_verb verb) }
{
    matches!(
        verb,
        Verb::Reply | Verb::ChooseExchange | Verb::ChooseVerify | Verb::ChooseAlert
    )
}

// The line of a command: what its call answered, and the message that it wrote.
pub fn report(d: &mut [u8], c: Command, a: Answer, message: &[u8]) -> usize
    ensures { text d.new result ≡ written (report_of c a message.now) (text d.old 0) }
{
    if a.refusal != 0 {
        return numbers(d, b"refused ", a.refusal, b" at=", a.place.0);
    }
    if c.verb == Verb::Open {
        return append(d, 0, b"opened\n");
    }
    if c.verb == Verb::Read {
        return numbers(d, b"read messages=", a.messages, b" length=", c.length);
    }
    let at = wrote(d, message);
    if names_choice(c.verb) {
        let chosen = a.choice;
        return choice(d, at, chosen, a.left);
    }
    append(d, at, b"\n")
}

// The last line: the octets used at each end.
pub fn used(d: &mut [u8], initiator: usize, acceptor: usize) -> usize
    ensures { text d.new result ≡ written (used_line initiator acceptor) (text d.old 0) }
{
    let initiator_end = wide_field(d, 0, b"used i=", initiator);
    let acceptor_end = wide_field(d, initiator_end, b" a=", acceptor);
    append(d, acceptor_end, b"\n")
}
