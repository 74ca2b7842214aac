// The two ends of a script.
ghost use Rattle.std.specs.Prelude.{◌≤◌};

use conversation::{Answer, Record};
use fields::part;
use script::{Command, Verb};

// An open end: where its transcript's buffer stands among the octets for both, where its turn starts in it, and its record.
#[derive(Clone, Copy)]
pub(crate) struct End {
    pub(crate) from: usize,
    pub(crate) to: usize,
    pub(crate) start: usize,
    pub(crate) record: Record,
}

impl End {
    // An end opened afresh. Each transcript has at most 65,536 of the octets for both.
    fn opened(c: Command, record: Record) -> End {
        let from = place_of(c.acceptor);
        End {
            from,
            to: from + c.number as usize,
            start: 0,
            record,
        }
    }

    // What its transcript holds from a place on, up to `end`.
    pub(crate) fn held(self, both: &[u8], start: usize, end: usize) -> &[u8] {
        part(part(both, self.from, self.to), start, end)
    }
}

// The ends, where they are open.
#[derive(Clone, Copy)]
pub(crate) struct Ends {
    pub(crate) initiator: Option<End>,
    pub(crate) acceptor: Option<End>,
}

impl Ends {
    pub(crate) fn end(self, acceptor: bool) -> Option<End> {
        if acceptor {
            self.acceptor
        } else {
            self.initiator
        }
    }

    pub(crate) fn with_end(self, acceptor: bool, end: Option<End>) -> Ends {
        if acceptor {
            Ends {
                acceptor: end,
                ..self
            }
        } else {
            Ends {
                initiator: end,
                ..self
            }
        }
    }
}

// The octets of an end's record in use, 0 where it is not open.
pub(crate) fn used(end: Option<End>) -> usize {
    match end {
        Some(e) => e.record.used,
        None => 0,
    }
}

// Where an end's transcript starts among the octets for both.
fn place_of(acceptor: bool) -> usize
    ensures { result ≤ 65536 }
{
    if acceptor { 65536 } else { 0 }
}

// An end after a call: opening opens it afresh, or leaves it as it was where it refuses. Any other call goes on with the record that it returned, and an
// accepted reading ends the turn.
pub(crate) fn moved(c: Command, end: Option<End>, a: Answer) -> Option<End> {
    let accepted = a.refusal == 0;
    if c.verb == Verb::Open && accepted {
        return Some(End::opened(c, a.next));
    }
    let e = end?;
    if c.verb == Verb::Open {
        return Some(e);
    }
    let start = if c.verb == Verb::Read && accepted {
        a.next.used
    } else {
        e.start
    };
    Some(End {
        start,
        record: a.next,
        ..e
    })
}
