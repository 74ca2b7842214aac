// Playing a script: its lines in order, at two ends.
ghost use Rattle.console.specs.Console.{Holds};

use super::end::{End, Ends, moved, used};
use commands::make;
use console::{STDOUT, with_file};
use fields::part;
use negotiating::opening::open;
use reports::report;
use script::{Command, Verb, read_command};
use std::rt::Files;
use text::append;

// The octets of d from `from` on, up to `to`; all of them where it has no such part.
fn span(d: &mut [u8], from: usize, to: usize) -> &mut [u8] {
    if to < from || d.len() < to {
        return d;
    }
    &mut d[from..to]
}

// A command as the library is given it: `read` with nothing after it reads a copy of the other end's turn so far, which is put at the front of the
// lent slice. An end that is not open has written nothing.
fn given(c: Command, other: Option<End>, both: &[u8], lent: &mut [u8]) -> Command {
    if c.verb != Verb::Turn {
        return c;
    }
    let length = match other {
        Some(e) => append(lent, 0, e.held(both, e.start, e.record.used)),
        None => c.length,
    };
    Command {
        verb: Verb::Read,
        length,
        ..c
    }
}

// The end at which a call is made: an opening needs none that is open, and is made at one whose record is that of a refused opening.
fn called_at(c: Command, end: Option<End>) -> Option<End> {
    if c.verb == Verb::Open && end.is_none() {
        let refused = open(c.acceptor, b"", [0u8; 16]);
        return Some(End {
            from: 0,
            to: 0,
            start: 0,
            record: refused.next,
        });
    }
    end
}

// Writes the first n octets of d.
fn print(d: &[u8], n: usize) {
    io::write_all(STDOUT, part(d, 0, n));
}

// Plays a line, and answers the ends after it; a line that is none of the calls, or a call at an end that is not open, is none.
fn play_call(line: &[u8], ends: Ends, both: &mut [u8], lent: &mut [u8]) -> Option<Ends> {
    let command = read_command(line, lent)?;
    let acceptor = command.acceptor;
    let end = ends.end(acceptor);
    let e = called_at(command, end)?;
    let c = given(command, ends.end(!acceptor), both, lent);
    let octets = part(lent, 0, c.length);
    let answer = make(c, e.record, span(both, e.from, e.to), octets);
    let message = e.held(both, e.record.used, answer.next.used);
    let line_end = report(lent, c, answer, message);
    print(lent, line_end);
    Some(ends.with_end(acceptor, moved(c, end, answer)))
}

// Plays a line: an empty one and a comment are passed over.
fn play_line(line: &[u8], ends: Ends, both: &mut [u8], lent: &mut [u8]) -> Ends {
    if line.is_empty() || line[0] == b'#' {
        return ends;
    }
    match play_call(line, ends, both, lent) {
        Some(next) => next,
        None => {
            io::write_all(STDOUT, b"bad line\n");
            ends
        }
    }
}

// The lines of a script in order, and last the octets used at each end.
fn play_lines(script: &[u8], both: &mut [u8], lent: &mut [u8]) {
    let mut ends = Ends {
        initiator: None,
        acceptor: None,
    };
    for line in script.split(|octet| *octet == b'\n') {
        ends = play_line(line, ends, both, lent);
    }
    let line_end = reports::used(lent, used(ends.initiator), used(ends.acceptor));
    print(lent, line_end);
}

// Plays a script. The lent octets have room for half a script, which is all that its digits stand for, and for the digits of a whole transcript.
fn play(script: &[u8]) {
    let mut both = [0u8; 131072];
    let mut lent = [0u8; 131328];
    play_lines(script, &mut both, &mut lent);
}

// Plays a script that was read into so much room; one that fills it is too long.
fn play_front(script: &[u8], room: usize) {
    if script.len() == room {
        io::write_all(STDOUT, b"refused 1 at=0\n");
        return;
    }
    play(script);
}

// Plays the script in the file with a name, by way of a buffer that the caller lends, and writes what its calls answer to standard output.
pub fn play_file<R: Files>(rt: &R, name: &[u8], buf: &mut [u8]) -> Option<usize>
    ensures { Holds result buf.new }
{
    let room = buf.len();
    with_file(rt, STDOUT, name, buf, |script| play_front(script, room))
}
