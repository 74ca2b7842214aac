// Plays the script in the file whose name stands on standard input's first line.
#![tactic(auto)]

use console::read_name;
use playing::play::play_file;

fn main(rt: HostRuntime) {
    let mut input = io::buffer();
    let name = read_name(&mut input);
    let mut buf = [0u8; 262144];
    play_file(&rt, name, &mut buf);
}
