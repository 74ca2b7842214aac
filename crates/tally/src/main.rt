// Counts the files whose names stand on standard input, one a line, and prints the tally. Names beyond 1,000 aren't opened.
#![tactic(auto)]

use console::{STDERR, STDIN, STDOUT, load};
use std::io::IsTerminal;
use std::rt::Files;
use tally_lines::tally_text;
use tallying::{Tally, count_missing, count_next, empty};
use text::append;

const MOST: u64 = 1000;

// The tally, how many names were met, and how many octets of the next one are held.
#[derive(Clone, Copy)]
struct Week {
    tally: Tally,
    names: u64,
    held: usize,
}

// The tally with the file of a name. A file of 65,536 octets or more fills the array, which is one octet too many for a token.
fn count_name<R: Files>(rt: &R, t: Tally, name: &[u8]) -> Tally {
    let mut octets = [0u8; 65536];
    match load(rt, name, &mut octets) {
        Some(n) => count_next(t, &octets[..n]).tally,
        None => count_missing(t).tally,
    }
}

// On a terminal, a dot for each fifty names.
fn show_progress(rt: &HostRuntime, names: u64) {
    if names % 50 == 0 && rt.stderr().is_terminal() {
        io::write_all(STDERR, b".");
    }
}

// The end of the line with the dots.
fn end_progress(rt: &HostRuntime, names: u64) {
    if 50 <= names && rt.stderr().is_terminal() {
        io::write_all(STDERR, b"\n");
    }
}

// A name more.
fn next_name(rt: &HostRuntime, w: Week, name: &[u8]) -> Week {
    let mut tally = w.tally;
    if w.names < MOST {
        tally = count_name(rt, tally, name);
    }
    let names = w.names.saturating_add(1);
    show_progress(rt, names);
    Week {
        tally,
        names,
        held: 0,
    }
}

// The name that is held.
fn held_name(rt: &HostRuntime, w: Week, name: &[u8]) -> Week {
    next_name(rt, w, name.get(..w.held).unwrap_or(name))
}

// A part of a name behind what is held of it. A name that has no room is longer than any path, and stays so.
fn hold(w: Week, name: &mut [u8], part: &[u8]) -> Week {
    let next = append(name, w.held, part);
    let held = if next == w.held && !part.is_empty() {
        name.len()
    } else {
        next
    };
    Week { held, ..w }
}

// The names that end in a chunk of the input, and what it holds of the next one.
fn take_chunk(rt: &HostRuntime, w: Week, name: &mut [u8], chunk: &[u8]) -> Week {
    let mut week = w;
    for part in chunk.split_inclusive(|octet| *octet == b'\n') {
        week = match part.strip_suffix(b"\n") {
            Some(line) => held_name(rt, hold(week, name, line), name),
            None => hold(week, name, part),
        };
    }
    week
}

// All names on standard input; the last may lack its line end.
fn read_names(rt: &HostRuntime, w: Week, name: &mut [u8]) -> Week {
    let mut chunk = io::large_buffer();
    let mut week = w;
    for _ in 0..u64::MAX {
        let length = io::read_full(STDIN, &mut chunk);
        if length == 0 {
            break;
        }
        week = take_chunk(rt, week, name, &chunk[..length]);
    }
    week
}

fn main(rt: HostRuntime) {
    let mut name = io::buffer();
    let none = Week {
        tally: empty(),
        names: 0,
        held: 0,
    };
    let mut week = read_names(&rt, none, &mut name);
    if 0 < week.held {
        week = held_name(&rt, week, &name);
    }
    end_progress(&rt, week.names);
    let mut text = [0u8; 8192];
    let end = tally_text(&mut text, week.tally, week.names.saturating_sub(MOST));
    io::write_all(STDOUT, text.get(..end).unwrap_or(b""));
}
