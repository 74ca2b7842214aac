// Lists the token in the file whose name stands on standard input's first line.
#![tactic(auto)]

use console::{STDOUT, list_file, read_name};

fn main(rt: HostRuntime) {
    let mut input = io::buffer();
    let name = read_name(&mut input);
    // A file of 65,536 octets or more fills the array, which is one octet too many for a token.
    let mut token = [0u8; 65536];
    list_file(&rt, STDOUT, name, &mut token);
}
