// Two files of a conversation, one a direction: cut into messages, and merged into turns by their numbers.
#![tactic(auto)]

ghost use Rattle.std.specs.Prelude.{◌≡◌, ◌+◌, ◌≤◌, length, eqb};
ghost use Rattle.sides.specs.Merging.{cut_of, messages_of, turns_of, together};
ghost use Rattle.merging.specs.Merged.{cutting, cut_by, file_cut, ran_in, next_in};

use message::read_header;
use refusal::Refusal;
use token::Refused;
use vector::{MessageOffset, TokenPlace, in_token};

// A file cut into messages: how many stand at its front, and what refuses the rest of it, where something does.
#[derive(Clone, Copy)]
pub struct Cut {
    pub messages: u32,
    pub refused: Option<Refused>,
}

// A run of messages that are numbered on, at the front of octets.
#[derive(Clone, Copy)]
pub struct Run {
    pub octets: usize,
    pub messages: u32,
}

// The next turn: whether it is the acceptor's, how many octets it has of the initiator's file and of the acceptor's, one of which is none, and how many
// messages.
#[derive(Clone, Copy)]
pub struct Next {
    pub acceptors: bool,
    pub initiator: usize,
    pub acceptor: usize,
    pub messages: u32,
}

// 2 to 6, message by message.
fn cut_messages(file: &[u8]) -> Cut
    requires { length file.now ≤ 65535 }
    ensures { cutting result ≡ cut_by (cut_of file.now) }
{
    let mut rest = file;
    let mut place = TokenPlace(0);
    let mut messages: u32 = 0;
    // no index is counted here: where the next message begins, each header says
    while !rest.is_empty() {
        let reading = read_header(rest);
        let Ok(h) = reading else {
            let refused = reading.err().map(|refusal| Refused { refusal, place });
            return Cut { messages, refused };
        };
        rest = &rest[h.length as usize..];
        place = in_token(place, MessageOffset(h.length));
        messages += 1;
    }
    Cut {
        messages,
        refused: None,
    }
}

// 1 to 6 of a file.
pub fn cut_file(file: &[u8]) -> Cut
    ensures { cutting result ≡ file_cut file.now }
{
    if 65535 < file.len() {
        return Cut {
            messages: 0,
            refused: Some(Refused {
                refusal: Refusal::TooLong,
                place: TokenPlace(0),
            }),
        };
    }
    cut_messages(file)
}

// The longest run at the front of what is left of a file, numbered from `first` on.
fn run_at(rest: &[u8], first: u32) -> Run
    requires { length rest.now ≤ 65535 }
    ensures { result ≡ ran_in first rest.now }
{
    let mut left = rest;
    let mut octets: usize = 0;
    let mut messages: u32 = 0;
    // no index is counted here: where the next message begins, each header says
    while !left.is_empty() {
        let Ok(h) = read_header(left) else {
            return Run { octets, messages };
        };
        if h.sequence as u64 != first as u64 + messages as u64 {
            return Run { octets, messages };
        }
        left = &left[h.length as usize..];
        octets += h.length as usize;
        messages += 1;
    }
    Run { octets, messages }
}

// The next turn of what is left of the initiator's file and the acceptor's, numbered from `first` on.
pub fn next_turn(i: &[u8], a: &[u8], first: u32) -> Option<Next>
    requires { (length i.now ≤ 65535) × (length a.now ≤ 65535) }
    ensures { result ≡ next_in first i.now a.now }
{
    let irun = run_at(i, first);
    if 0 < irun.messages {
        return Some(Next {
            acceptors: false,
            initiator: irun.octets,
            acceptor: 0,
            messages: irun.messages,
        });
    }
    let arun = run_at(a, first);
    if arun.messages == 0 {
        return None;
    }
    Some(Next {
        acceptors: true,
        initiator: 0,
        acceptor: arun.octets,
        messages: arun.messages,
    })
}

// 24: whether the turns of two files have all of their messages, `all` in number.
pub fn in_row(i: &[u8], a: &[u8], all: u32) -> bool
    requires { (length i.now ≤ 65535) × (length a.now ≤ 65535) }
    ensures { result ≡ eqb (together (turns_of (messages_of i.now) (messages_of a.now))) all }
{
    let mut i_left = i;
    let mut a_left = a;
    let mut number: u32 = 0;
    while let Some(turn) = next_turn(i_left, a_left, number) {
        i_left = &i_left[turn.initiator..];
        a_left = &a_left[turn.acceptor..];
        number += turn.messages;
    }
    number == all
}
