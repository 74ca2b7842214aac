// Writes the token in the file whose name stands on standard input's first line with each octet zero that nothing points at.
#![tactic(auto)]

use blanking::blank;
use console::{STDERR, STDOUT, load, read_name};
use lines::refused_text;
use token::Refused;

// The only line of a refused token.
fn write_refusal(refused: Refused) {
    let mut text = [0u8; 128];
    let end = refused_text(&mut text, refused.refusal.number(), refused.place);
    io::write_all(STDERR, &text[..end]);
}

// A token, blanked; of a refused one only what it is refused with.
fn write_blanked(token: &mut [u8]) {
    match blank(token) {
        Ok(_) => {
            io::write_all(STDOUT, token);
        }
        Err(refused) => write_refusal(refused),
    }
}

fn main(rt: HostRuntime) {
    let mut input = io::buffer();
    let name = read_name(&mut input);
    // A file of 65,536 octets or more fills the array, which is one octet too many for a token.
    let mut token = [0u8; 65536];
    match load(&rt, name, &mut token) {
        Some(n) => write_blanked(&mut token[..n]),
        None => {
            io::write_all(STDERR, b"no file\n");
        }
    }
}
