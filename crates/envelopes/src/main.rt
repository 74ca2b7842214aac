// Shows the envelopes in the files whose names stand on standard input, one a line.
#![tactic(auto)]

use console::{STDOUT, each_name, print_name, with_file};
use envelope_lines::envelope_text;
use fields::part;

// What an envelope says, without the listing of a token in it.
fn say(s: &[u8]) {
    let mut text = [0u8; 262144];
    let end = envelope_text(&mut text, s);
    io::write_all(STDOUT, part(&text, 0, end));
}

fn main(rt: HostRuntime) {
    each_name(|name| {
        let mut buf = [0u8; 65536];
        with_file(&rt, STDOUT, print_name(b"file ", name), &mut buf, say);
    });
}
