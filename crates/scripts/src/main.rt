// Plays the scripts in the files whose names stand on standard input, one a line.
#![tactic(auto)]

use console::{each_name, print_name};
use playing::play::play_file;

fn main(rt: HostRuntime) {
    each_name(|name| {
        let mut buf = [0u8; 262144];
        play_file(&rt, print_name(b"script ", name), &mut buf);
    });
}
