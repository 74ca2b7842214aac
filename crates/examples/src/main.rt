// Lists the tokens in the files whose names stand on standard input, one a line.
#![tactic(auto)]

use console::{STDOUT, each_name, list_file, print_name};

fn main(rt: HostRuntime) {
    each_name(|name| {
        let mut token = [0u8; 65536];
        list_file(&rt, STDOUT, print_name(b"file ", name), &mut token);
    });
}
