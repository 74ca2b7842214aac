// The text of a script: a line read into one command.
#![tactic(auto)]

ghost use Rattle.std.specs.Prelude.{◌≡◌, ◌≤◌, length, take, Some};
ghost use Rattle.script.specs.Places.{fields_from};
ghost use Rattle.script.specs.Grammar.{verbs, ends, speeches, place_of, speech_verb, has_id, items_in, line_as, line as Grammar·line, items_then, from_random, from_rest, from_id, from_number, chosen, command_of, number_of_verb, number_of_end, kind_of, form_as, form_of, verb_named, call_verb, verb_of as Grammar·verb_of};

use elements::Elements;
use field::{behind, field as field_at, past};
use fields::hex::random;
use item::{added, is_test, item};
use value::{id_in, number_in, rest_in};

pub mod field;
mod item;
pub mod value;

// The calls.
#[derive(Clone, Copy, PartialEq, Eq)]
pub enum Verb {
    Offer,
    Reply,
    Metadata,
    Exchange,
    Verify,
    Alert,
    Read,
    // `read` with nothing behind it
    Turn,
    Open,
    ChooseExchange,
    ChooseVerify,
    ChooseAlert,
    // none of the calls, as each number but theirs was: no line of a script gives it
    Other,
}

// The fields behind a verb.
#[derive(Clone, Copy)]
pub enum Kind {
    Room,
    Marks,
    // TYPE is read so too
    Code,
    Id,
    Conversation,
    Octets,
    Ids,
}

// The rest of a call's line.
#[derive(Clone, Copy)]
enum Rest {
    // RANDOM and the EXT behind it
    Extensions,
    Alerts,
    // octets alone, or nothing
    Plain(Option<Kind>),
}

// Which number a call has, which id, and the rest of its line.
#[derive(Clone, Copy)]
struct Form {
    number: Option<Kind>,
    id: Option<Kind>,
    rest: Rest,
}

// What a line says: the call, its end, the MARKS of a choice, its number (ROOM, a reply's MARKS, TYPE or CODE), its id (CONVERSATION or ID), whether it is a
// test call, its extensions or alerts, and how many octets it is given (RANDOM and the values of the extensions, the values of the alerts, OCTETS, or the
// ids of a list). A field that a call does not have is zero.
#[derive(Clone, Copy)]
pub struct Command {
    pub verb: Verb,
    pub acceptor: bool,
    pub marks: u32,
    pub number: u32,
    pub id: [u8; 16],
    pub test: bool,
    pub elements: Elements,
    pub length: usize,
}

impl Verb {
    // The fields of a call.
    #[tactic(auto, unfolding(crate::specs::Grammar::form_of))]
    fn form(self) -> Form
        ensures { form_as result ≡ form_of (number_of_verb self) }
    {
        let (number, id, rest) = match self {
            Verb::Offer => (None, None, Rest::Extensions),
            Verb::Reply => (Some(Kind::Marks), None, Rest::Extensions),
            Verb::Metadata => (None, Some(Kind::Id), Rest::Plain(Some(Kind::Octets))),
            Verb::Exchange | Verb::Read | Verb::ChooseExchange => {
                (None, None, Rest::Plain(Some(Kind::Octets)))
            }
            Verb::Verify | Verb::ChooseVerify => {
                (Some(Kind::Code), None, Rest::Plain(Some(Kind::Octets)))
            }
            Verb::Alert | Verb::ChooseAlert => (Some(Kind::Code), None, Rest::Alerts),
            Verb::Turn | Verb::Other => (None, None, Rest::Plain(None)),
            Verb::Open => (
                Some(Kind::Room),
                Some(Kind::Conversation),
                Rest::Plain(Some(Kind::Ids)),
            ),
        };
        Form { number, id, rest }
    }
}

// A command with extensions or alerts, whose values are put one behind the other, from `start` on.
fn with_items(
    c: Command,
    line: &[u8],
    from: usize,
    start: usize,
    lent: &mut [u8],
) -> Option<Command>
    requires { start ≤ length lent.old }
    ensures { line_as result lent.new ≡ items_then (length lent.old) (take start lent.old)
        (items_in (fields_from line.now from)) (Grammar·line (number_of_verb c.verb) c.acceptor c.marks c.number c.id c.test) }
{
    let mut elements = Elements::none();
    let mut at = from;
    let mut length = start;
    // No range: the step of a turn is a field's length.
    while at <= line.len() {
        let next = item(field_at(line, at), &mut lent[length..])?;
        elements = added(elements, next.kind, next.size);
        length += next.size;
        at = behind(line, at);
    }
    Some(Command {
        elements,
        length,
        ..c
    })
}

// A command with RANDOM and extensions.
fn with_random(c: Command, line: &[u8], from: usize, lent: &mut [u8]) -> Option<Command>
    ensures { line_as result lent.new ≡ from_random (fields_from line.now from) (length lent.old)
        (Grammar·line (number_of_verb c.verb) c.acceptor c.marks c.number c.id) }
{
    let n = random(field_at(line, from), lent)?;
    let at = behind(line, from);
    let test = is_test(line, at);
    with_items(Command { test, ..c }, line, past(line, at, test), n, lent)
}

// A command with the rest of its line.
fn with_rest(c: Command, line: &[u8], from: usize, lent: &mut [u8]) -> Option<Command>
    ensures { line_as result lent.new ≡ from_rest (number_of_verb c.verb) c.acceptor c.marks c.number c.id
        (fields_from line.now from)
        (length lent.old) }
{
    let plain = Command {
        test: false,
        elements: Elements::none(),
        ..c
    };
    match c.verb.form().rest {
        Rest::Extensions => with_random(c, line, from, lent),
        Rest::Alerts => with_items(plain, line, from, 0, lent),
        Rest::Plain(kind) => {
            let length = rest_in(line, from, kind, lent)?;
            Some(Command { length, ..plain })
        }
    }
}

// Whether a call at an end has an id: an initiator alone has a CONVERSATION.
fn has_id(kind: Option<Kind>, acceptor: bool) -> bool
    ensures { result ≡ has_id (kind_of kind) acceptor }
{
    match kind {
        Some(Kind::Id) => true,
        Some(Kind::Conversation) => !acceptor,
        _ => false,
    }
}

// A command with its id, and what is behind it.
fn with_id(c: Command, line: &[u8], from: usize, lent: &mut [u8]) -> Option<Command>
    ensures { line_as result lent.new ≡ from_id (number_of_verb c.verb) c.acceptor c.marks c.number (fields_from line.now from)
        (length lent.old) }
{
    let some = has_id(c.verb.form().id, c.acceptor);
    let id = id_in(line, from, some)?;
    with_rest(Command { id, ..c }, line, past(line, from, some), lent)
}

// A command of a verb at an end with its number, and what is behind it.
fn with_number(
    verb: Verb,
    acceptor: bool,
    marks: u32,
    line: &[u8],
    from: usize,
    lent: &mut [u8],
) -> Option<Command>
    ensures { line_as result lent.new ≡ from_number (number_of_verb verb) acceptor marks (fields_from line.now from)
        (length lent.old) }
{
    let kind = verb.form().number;
    let number = number_in(line, from, kind)?;
    let command = Command {
        verb,
        acceptor,
        marks,
        number,
        id: [0u8; 16],
        test: false,
        elements: Elements::none(),
        length: 0,
    };
    with_id(command, line, past(line, from, kind.is_some()), lent)
}

// The verb of a word alone. `choose` is none: the verb stands behind its MARKS.
#[tactic(auto, using(crate::proofs::Lines::place_verbs))]
fn named(word: &[u8]) -> Option<Verb>
    ensures { verb_named result ≡ call_verb (place_of word.now verbs) }
{
    if word == b"offer".as_slice() {
        Some(Verb::Offer)
    } else if word == b"reply".as_slice() {
        Some(Verb::Reply)
    } else if word == b"metadata".as_slice() {
        Some(Verb::Metadata)
    } else if word == b"exchange".as_slice() {
        Some(Verb::Exchange)
    } else if word == b"verify".as_slice() {
        Some(Verb::Verify)
    } else if word == b"alert".as_slice() {
        Some(Verb::Alert)
    } else if word == b"read".as_slice() {
        Some(Verb::Read)
    } else {
        None
    }
}

// The verb of a word behind which the fields from `from` on stand.
#[tactic(auto, using(crate::proofs::Lines::verb_alone, crate::proofs::Lines::verb_more))]
fn verb_of(word: &[u8], line: &[u8], from: usize) -> Option<Verb>
    ensures { verb_named result ≡ call_verb (Grammar·verb_of (place_of word.now verbs) (fields_from line.now from)) }
{
    match named(word) {
        Some(Verb::Read) if line.len() < from => Some(Verb::Turn),
        verb => verb,
    }
}

// Whether the end of a letter is the acceptor.
#[tactic(auto, using(crate::proofs::Lines::place_ends))]
fn is_acceptor(letter: &[u8]) -> Option<bool>
    ensures { number_of_end result ≡ place_of letter.now ends }
{
    if letter == b"i".as_slice() {
        Some(false)
    } else if letter == b"a".as_slice() {
        Some(true)
    } else {
        None
    }
}

// The verb of a word behind `choose MARKS`.
#[tactic(auto, using(crate::proofs::Lines::place_speeches))]
fn speech(word: &[u8]) -> Option<Verb>
    ensures { verb_named result ≡ speech_verb (place_of word.now speeches) }
{
    if word == b"exchange".as_slice() {
        Some(Verb::ChooseExchange)
    } else if word == b"verify".as_slice() {
        Some(Verb::ChooseVerify)
    } else if word == b"alert".as_slice() {
        Some(Verb::ChooseAlert)
    } else {
        None
    }
}

// A command that chooses, at an end, from its MARKS on.
fn choice(acceptor: bool, line: &[u8], from: usize, lent: &mut [u8]) -> Option<Command>
    ensures { line_as result lent.new ≡ chosen (number_of_end (Some acceptor)) (fields_from line.now from) (length lent.old) }
{
    let marks = number_in(line, from, Some(Kind::Marks))?;
    let at = behind(line, from);
    let verb = speech(field_at(line, at))?;
    with_number(verb, acceptor, marks, line, behind(line, at), lent)
}

// The command of a line. Its octets are put at the front of the lent slice; what then stands behind them, or in the slice of a bad line, is left open.
pub fn read_command(line: &[u8], lent: &mut [u8]) -> Option<Command>
    ensures { line_as result lent.new ≡ command_of line.now (length lent.old) }
{
    let word = field_at(line, 0);
    let at = behind(line, 0);
    let next = field_at(line, at);
    let from = behind(line, at);
    if word == b"open".as_slice() {
        return with_number(Verb::Open, is_acceptor(next)?, 0, line, from, lent);
    }
    let acceptor = is_acceptor(word)?;
    if next == b"choose".as_slice() {
        return choice(acceptor, line, from, lent);
    }
    with_number(verb_of(next, line, from)?, acceptor, 0, line, from, lent)
}
