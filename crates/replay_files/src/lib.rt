// Replaying a case: its text and its two files read, and what the replay says written to standard output.
#![tactic(auto)]

ghost use Rattle.console.specs.Console.{Holds};

use console::{STDOUT, load, with_file};
use fields::part;
use replay_case::{CaseText, read_case};
use replaying::Marks;
use std::rt::Files;
use turns::show_replay;

mod turns;

// What was read of a file, none where it could not be opened.
fn file_of(loaded: Option<usize>, buf: &[u8]) -> Option<&[u8]> {
    let octets = loaded?;
    Some(part(buf, 0, octets))
}

// The marks of a side: four digits say no more than 65,535.
fn marks_of(n: u32) -> u16 {
    (n % 65536) as u16
}

// Replays the files of a case, by the lists of its two sides. One octet more than a file may have is asked for, so that a longer one is seen.
fn replay_files<R: Files>(rt: &R, c: CaseText<'_>, ilist: &[u8], alist: &[u8]) {
    let mut ibuf = [0u8; 65536];
    let mut abuf = [0u8; 65536];
    let iloaded = load(rt, c.initiator, &mut ibuf);
    let aloaded = load(rt, c.acceptor, &mut abuf);
    let marks = Marks {
        initiator: marks_of(c.i.marks),
        acceptor: marks_of(c.a.marks),
    };
    show_replay(
        ilist,
        alist,
        marks,
        file_of(iloaded, &ibuf),
        file_of(aloaded, &abuf),
    );
}

// Replays a case. Each list has room for all ids that its text can have.
fn replay_text<R: Files>(rt: &R, text: &[u8]) {
    let mut ilist = [0u8; 65536];
    let mut alist = [0u8; 65536];
    let Some(case_text) = read_case(text, &mut ilist, &mut alist) else {
        io::write_all(STDOUT, b"bad case\n");
        return;
    };
    let ilength = case_text.i.length;
    let alength = case_text.a.length;
    replay_files(
        rt,
        case_text,
        part(&ilist, 0, ilength),
        part(&alist, 0, alength),
    );
}

// Replays the case in the file with a name, by way of a buffer that the caller lends, and writes what is to be seen of it to standard output. A case that
// fills the buffer is too long.
pub fn replay_file<R: Files>(rt: &R, name: &[u8], buf: &mut [u8]) -> Option<usize>
    ensures { Holds result buf.new }
{
    let room = buf.len();
    with_file(rt, STDOUT, name, buf, |text| {
        if text.len() == room {
            io::write_all(STDOUT, b"bad case\n");
        } else {
            replay_text(rt, text);
        }
    })
}
