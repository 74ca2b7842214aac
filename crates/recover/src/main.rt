// Lists what can still be read of the damaged capture in the file whose name stands on standard input's first line.
#![tactic(auto)]

use console::{STDOUT, read_name};
use recovering::recover_file;

fn main(rt: HostRuntime) {
    let mut input = io::buffer();
    let name = read_name(&mut input);
    // A file of 65,536 octets or more fills the array, which is one octet too many.
    let mut file = [0u8; 65536];
    recover_file(&rt, STDOUT, name, &mut file);
}
