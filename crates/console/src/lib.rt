// What the programs share: a file's octets in a lent buffer, and a token's listing on a file descriptor.
#![tactic(auto)]

ghost use Rattle.std.specs.Prelude.{◌≡◌, ◌<◌, ℕ, List, length, take, min, IfSome};
ghost use Rattle.std.specs.Fn.{FnOnceReturnsAt};
ghost use Rattle.listing.specs.Listing.{lines_of};
ghost use Rattle.text_lines.specs.Lines.{lines, first_line, CallsEach};
ghost use Rattle.windows.specs.Windows.{as_window, window_of};
ghost use Rattle.listing.proofs.Covers.{short-lines};
ghost use Rattle.console.specs.Console.{Holds, Short};

use std::fs;
use std::io::Read;
use std::rt::Files;
use std::str::from_utf8;
use text_lines::{each_line, first_line};
use windows::Shown;

// The descriptors that a program is started with.
pub const STDIN: i32 = 0;

pub const STDOUT: i32 = 1;

pub const STDERR: i32 = 2;

// Reads until the buffer is full or the input ends. A read that fails, as that of a folder, leaves nothing to list.
// No `for`: each read goes on by as many octets as the system says.
fn fill<F: Read>(file: &mut F, buf: &mut [u8]) -> Option<usize>
    ensures { Holds result buf.new }
{
    let mut count = 0;
    while count < buf.len() {
        let more = file.read(&mut buf[count..]).ok()?;
        if more == 0 {
            break;
        }
        count += more;
    }
    Some(count)
}

// The octets of the file with a name, from its first on, as many as the buffer has room for, and their number; `None` where there is no file to be
// read. What is read is the system's to say.
// A name that is not UTF-8 counts as that of no file: std opens files by text alone.
pub fn load<R: Files>(rt: &R, name: &[u8], buf: &mut [u8]) -> Option<usize>
    ensures { Holds result buf.new }
{
    let path = from_utf8(name).ok()?;
    let mut file = fs::open(rt, path).ok()?;
    fill(&mut file, buf)
}

// Lines of fewer than 128 octets, which are asked for window by window.
pub trait Windowed {
    ghost lines: { Self → List (List ℕ) };

    fn window(&self, first: usize, end: usize, text: &mut [u8]) -> Shown
        ensures { as_window result text.new ≡ window_of (lines self.now) first end text.old };

    ghost short: { (x : Self) → Short (lines x) };
}

// The lines of a token's listing.
#[derive(Clone, Copy)]
pub struct Listed<'a> {
    pub token: &'a [u8],
}

impl Windowed for Listed<'_> {
    ghost lines = { λ x. lines_of x.token.now };

    fn window(&self, first: usize, end: usize, text: &mut [u8]) -> Shown {
        listing::window(self.token, first, end, text)
    }

    ghost short = { λ x. short-lines x.token.now };
}

// Goes through the lines up to, not including, `end`, window by window, with `show` for the text of each window, and answers their number.
pub fn walk<W: Windowed, S: FnMut(&[u8])>(windowed: &W, end: usize, mut show: S) -> usize
    requires { S.IsAlwaysCallable show }
    ensures { result ≡ min end (length (W.lines windowed.now)) }
{
    let mut text = [0u8; 65536];
    let mut first: usize = 0;
    loop {
        let shown = windowed.window(first, end, &mut text);
        if shown.lines == 0 {
            return first;
        }
        show(&text[..shown.octets]);
        first += shown.lines;
    }
}

// Writes lines window by window, and answers their number.
pub fn print_all<W: Windowed>(fd: i32, windowed: &W) -> usize
    requires { length (W.lines windowed.now) < 18446744073709551616 }
    ensures { result ≡ length (W.lines windowed.now) }
{
    walk(windowed, usize::MAX, |text| {
        io::write_all(fd, text);
    })
}

// Writes the listing of a token, window by window, and answers the number of its lines.
pub fn print(fd: i32, token: &[u8]) -> usize
    ensures { result ≡ length (lines_of token.now) }
{
    print_all(fd, &Listed { token })
}

// Calls `show` with the octets of the file with a name, by way of a buffer that the caller lends; writes that there is no file, where there is none.
pub fn with_file<R: Files, F: FnOnce(&[u8])>(
    rt: &R,
    fd: i32,
    name: &[u8],
    buf: &mut [u8],
    show: F,
) -> Option<usize>
    requires { F.IsAlwaysCallable show }
    ensures holds { Holds result buf.new }
    ensures shown { IfSome result (λ n. FnOnceReturnsAt F.FnOnce show (take n buf.new) tt) }
{
    let loaded = load(rt, name, buf);
    match loaded {
        Some(n) => show(&buf[..n]),
        None => {
            io::write_all(fd, b"no file\n");
        }
    }
    loaded
}

// Lists the token in the file with a name, by way of a buffer that the caller lends.
pub fn list_file<R: Files>(rt: &R, fd: i32, name: &[u8], buf: &mut [u8]) -> Option<usize>
    ensures { Holds result buf.new }
{
    with_file(rt, fd, name, buf, |token| {
        print(fd, token);
    })
}

// Reads standard input into a buffer, and answers its first line, which is a name.
pub fn read_name(buf: &mut [u8]) -> &[u8]
    ensures { (text : List ℕ) × (result.now ≡ first_line text) }
{
    let length = io::read_full(STDIN, buf);
    first_line(&buf[..length])
}

// Calls `show` with each line of standard input, which is a name, in order. What has no room in the buffer is not read.
pub fn each_name<F: FnMut(&[u8])>(show: F)
    requires { F.IsAlwaysCallable show }
    ensures { (text : List ℕ) × CallsEach F.FnMut show (lines text) }
{
    let mut input = io::large_buffer();
    let length = io::read_full(STDIN, &mut input);
    each_line(&input[..length], show);
}

// Writes a name's line, a word and the name, and hands the name on.
pub fn print_name<'a>(word: &[u8], name: &'a [u8]) -> &'a [u8]
    ensures { result.now ≡ name.now }
{
    io::write_all(STDOUT, word);
    io::write_all(STDOUT, name);
    io::write_all(STDOUT, b"\n");
    name
}
