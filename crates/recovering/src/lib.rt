// The lines of a damaged capture on a file descriptor.
#![tactic(auto)]

ghost use Rattle.std.specs.Prelude.{◌≡◌, length};
ghost use Rattle.console.specs.Console.{Holds};
ghost use Rattle.recovery.specs.Recovery.{recovered_lines};
ghost use Rattle.recovery.proofs.Bounds.{short-recovered};

use console::{Windowed, print_all, with_file};
use std::rt::Files;
use windows::Shown;

// The lines of what can still be read of a file.
#[derive(Clone, Copy)]
struct Recovered<'a> {
    file: &'a [u8],
}

impl Windowed for Recovered<'_> {
    ghost lines = { λ x. recovered_lines x.file.now };

    fn window(&self, first: usize, end: usize, text: &mut [u8]) -> Shown {
        recovery::window(self.file, first, end, text)
    }

    ghost short = { λ x. short-recovered x.file.now };
}

// Writes the lines of a file, window by window, and answers the number of its lines.
pub fn print(fd: i32, file: &[u8]) -> usize
    ensures { result ≡ length (recovered_lines file.now) }
{
    print_all(fd, &Recovered { file })
}

// Lists what can still be read of the file with a name, by way of a buffer that the caller lends.
pub fn recover_file<R: Files>(rt: &R, fd: i32, name: &[u8], buf: &mut [u8]) -> Option<usize>
    ensures { Holds result buf.new }
{
    with_file(rt, fd, name, buf, |file| {
        print(fd, file);
    })
}
