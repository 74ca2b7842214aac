// Replays the cases in the files whose names stand on standard input, one a line.
#![tactic(auto)]

use console::{each_name, print_name};
use replay_files::replay_file;

fn main(rt: HostRuntime) {
    each_name(|name| {
        let mut buf = [0u8; 65536];
        replay_file(&rt, print_name(b"case ", name), &mut buf);
    });
}
