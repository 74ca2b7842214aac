// Windows of any lines: a caller goes through its lines in order, and `put_line` passes over, shows or leaves out each.
#![tactic(auto)]

ghost use Rattle.std.specs.Prelude.{◌≡◌, length};
ghost use Rattle.windows.specs.Steps.{within, start_of, step, shown_so_far, Going};

use text::append;

// How many lines a window shows, and in how many octets.
#[derive(Clone, Copy)]
pub struct Shown {
    pub lines: usize,
    pub octets: usize,
}

// How far a window is: lines to pass over, lines still asked for, and what is shown.
#[derive(Clone, Copy)]
pub struct Progress {
    pub skip: usize,
    pub left: usize,
    pub lines: usize,
    pub octets: usize,
}

// Nothing shown yet of the lines from `first` up to, not including, `end`.
pub fn start(first: usize, end: usize) -> Progress
    ensures { result ≡ start_of first end }
{
    Progress {
        skip: first,
        left: end.saturating_sub(first),
        lines: 0,
        octets: 0,
    }
}

// One more line: passed over, shown, or the end of the window where it has no room.
pub fn put_line(p: Progress, d: &mut [u8], line: &[u8]) -> Progress
    requires { Going p (length d.old) }
    ensures { within result d.new ≡ step (within p d.old) line.now }
{
    if p.left == 0 {
        return p;
    }
    if p.skip != 0 {
        return Progress {
            skip: p.skip - 1,
            ..p
        };
    }
    if d.len() - p.octets < line.len() {
        return Progress { left: 0, ..p };
    }
    Progress {
        left: p.left - 1,
        lines: p.lines + 1,
        octets: append(d, p.octets, line),
        ..p
    }
}

// What a window shows at its end.
pub fn finish(p: Progress) -> Shown
    ensures { result ≡ shown_so_far p }
{
    Shown {
        lines: p.lines,
        octets: p.octets,
    }
}
