// Reading a damaged capture: every message that can still be read, and the stretches between them; and windows of their lines.
#![tactic(auto)]

ghost use Rattle.std.specs.Prelude.{◌≡◌, ◌≤◌, length};
ghost use Rattle.text.specs.Text.{text, written};
ghost use Rattle.windows.specs.Windows.{as_window, window_of};
ghost use Rattle.windows.specs.Steps.{within, steps, Going};
ghost use Rattle.recovery.specs.Recovery.{skipped_line, recovered_lines};
ghost use Rattle.recovery.specs.Scans.{scanned, stretch, advanced, InFile, ShowsPieces};

use listing::{show_end, show_message, show_refusal};
use message::read_message;
use refusal::Refusal;
use text::{append, wide_field};
use vector::{MessageOffset, TokenPlace, in_token};
use windows::{Progress, Shown, finish, put_line, start};

// How far a reading is: what its window shows, the next place, the end of the last message taken, and how many are taken.
#[derive(Clone, Copy)]
pub struct Scan {
    pub progress: Progress,
    pub place: TokenPlace,
    pub end: TokenPlace,
    pub taken: u32,
}

// The line of a skipped stretch, from the front of a lent slice on.
fn skipped_text(d: &mut [u8], place: TokenPlace, n: usize) -> usize
    ensures { text d.new result ≡ written (skipped_line place.0 n) (text d.old 0) }
{
    let placed = wide_field(d, 0, b"skipped at=", place.0);
    let counted = wide_field(d, placed, b" length=", n);
    append(d, counted, b"\n")
}

// The line of the stretch that is skipped between two places, where there is one.
fn show_stretch(p: Progress, d: &mut [u8], from: TokenPlace, to: TokenPlace) -> Progress
    requires { Going p (length d.old) }
    ensures { within result d.new ≡ steps (stretch from.0 to.0) (within p d.old) }
{
    if to.0 <= from.0 {
        return p;
    }
    let mut line = [0u8; 128];
    let end = skipped_text(&mut line, from, to.0 - from.0);
    put_line(p, d, &line[..end])
}

// One turn: the message at the front of `rest` is taken, or else one octet is skipped.
fn advance(s: Scan, d: &mut [u8], rest: &[u8]) -> Scan
    requires in_file { InFile s (length rest.now) }
    requires going { Going s.progress (length d.old) }
    ensures { scanned result d.new ≡ advanced rest.now s d.old }
{
    let Ok(h) = read_message(rest) else {
        return Scan {
            place: TokenPlace(s.place.0 + 1),
            ..s
        };
    };
    let before = show_stretch(s.progress, d, s.end, s.place);
    let progress = show_message(before, d, s.place, &rest[..h.length as usize]);
    let end = in_token(s.place, MessageOffset(h.length));
    Scan {
        progress,
        place: end,
        end,
        taken: s.taken + 1,
    }
}

// All pieces of a file that is not too long; and how many messages are among them.
fn show_pieces(p: Progress, d: &mut [u8], file: &[u8]) -> Scan
    requires file_len_bound { length file.now ≤ 65535 }
    requires going { Going p (length d.old) }
    ensures { ShowsPieces file.now (within p d.old) result d.new }
{
    let mut scan = Scan {
        progress: p,
        place: TokenPlace(0),
        end: TokenPlace(0),
        taken: 0,
    };
    // no range: a step is a message, or one octet where there is none
    while scan.place.0 < file.len() {
        let at = scan.place.0;
        scan = advance(scan, d, &file[at..]);
    }
    let progress = show_stretch(scan.progress, d, scan.end, scan.place);
    Scan {
        progress,
        end: scan.place,
        ..scan
    }
}

// A window of the lines: as many whole lines from `from` up to, not including, `end` as fit stand at the buffer's front.
pub fn window(file: &[u8], from: usize, end: usize, d: &mut [u8]) -> Shown
    ensures { as_window result d.new ≡ window_of (recovered_lines file.now) from end d.old }
{
    let progress = start(from, end);
    if 65535 < file.len() {
        return finish(show_refusal(progress, d, Refusal::TooLong.number(), TokenPlace(0)));
    }
    let scan = show_pieces(progress, d, file);
    finish(show_end(scan.progress, d, scan.taken, file.len()))
}
