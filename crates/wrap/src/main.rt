// Writes the envelope that the text in the file says whose name stands on standard input's first line.
#![tactic(auto)]

use console::read_name;
use wrapping::wrap::wrap_file;

fn main(rt: HostRuntime) {
    let mut input = io::buffer();
    let name = read_name(&mut input);
    let mut buf = [0u8; 262144];
    wrap_file(&rt, name, &mut buf);
}
