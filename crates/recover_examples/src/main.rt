// Lists what can still be read of the damaged captures in the files whose names stand on standard input, one a line.
#![tactic(auto)]

use console::{STDOUT, each_name, print_name};
use recovering::recover_file;

fn main(rt: HostRuntime) {
    each_name(|name| {
        let mut file = [0u8; 65536];
        recover_file(&rt, STDOUT, print_name(b"file ", name), &mut file);
    });
}
