// Writes the envelopes that the texts say in the files whose names stand on standard input, one a line.
#![tactic(auto)]

use console::{each_name, print_name};
use wrapping::wrap::wrap_file;

fn main(rt: HostRuntime) {
    each_name(|name| {
        let mut buf = [0u8; 262144];
        wrap_file(&rt, print_name(b"file ", name), &mut buf);
    });
}
