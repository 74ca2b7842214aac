// Unwrapping a file: the lines of the envelope in it, and the listing of the NEGOEX token in that.
#![tactic(auto)]

ghost use Rattle.console.specs.Console.{Holds};

use console::{STDOUT, load, print};
use envelope_lines::{begun, envelope_text, token};
use fields::part;
use std::rt::Files;

// Writes what an envelope says. There is room for the whole text: `text-fits` (proofs/Room.antt).
fn show(s: &[u8]) {
    let mut text = [0u8; 262144];
    let end = envelope_text(&mut text, s);
    io::write_all(STDOUT, part(&text, 0, end));
    let t = token(s);
    if begun(t) {
        print(STDOUT, t);
    }
}

// Writes what the envelope in the file with a name says to standard output, by way of a buffer that the caller lends.
pub fn unwrap_file<R: Files>(rt: &R, name: &[u8], buf: &mut [u8]) -> Option<usize>
    ensures { Holds result buf.new }
{
    let loaded = load(rt, name, buf);
    match loaded {
        Some(n) => {
            show(part(buf, 0, n));
        }
        None => {
            io::write_all(STDOUT, b"no file\n");
        }
    }
    loaded
}
