// Replays the case in the file whose name stands on standard input's first line.
#![tactic(auto)]

use console::read_name;
use replay_files::replay_file;

fn main(rt: HostRuntime) {
    let mut input = io::buffer();
    let name = read_name(&mut input);
    let mut buf = [0u8; 65536];
    replay_file(&rt, name, &mut buf);
}
