// Shows the envelope in the file whose name stands on standard input's first line, and the NEGOEX token in it.
#![tactic(auto)]

use console::read_name;
use unwrapping::unwrap_file;

fn main(rt: HostRuntime) {
    let mut input = io::buffer();
    let name = read_name(&mut input);
    // A file of 65,536 octets or more fills the array, which is one octet too many for an envelope.
    let mut buf = [0u8; 65536];
    unwrap_file(&rt, name, &mut buf);
}
