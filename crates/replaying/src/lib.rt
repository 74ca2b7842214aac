// Two files of a conversation, played to a record of each role.
#![tactic(auto)]

use conversation::Record;
use vector::TokenPlace;

pub mod before;
pub mod play;

// The marks of each side.
#[derive(Clone, Copy)]
pub struct Marks {
    pub initiator: u16,
    pub acceptor: u16,
}

// Whose a refusal is: a side's, or neither's.
#[derive(Clone, Copy, PartialEq, Eq)]
pub enum Whose {
    Initiator,
    Acceptor,
    Neither,
}

// What ends a replay before its last turn: a file that could not be opened, or a refusal with its place and whose it is. The refusal is a number, since a
// turn's is that of its reader's Answer.
#[derive(Clone, Copy)]
pub enum Fault {
    Unopened,
    Refused {
        number: u32,
        place: TokenPlace,
        whose: Whose,
    },
}

// A replay at work: the two records, the place in each file, the number of the next message, how many turns were played and whether the last was the
// acceptor's, and how it ended: not yet, or at the last turn, or with a fault.
#[derive(Clone, Copy)]
pub struct Replay {
    pub initiator: Record,
    pub acceptor: Record,
    pub iplace: usize,
    pub aplace: usize,
    pub number: u32,
    pub turns: u32,
    pub last: bool,
    pub end: Option<Result<(), Fault>>,
}
