// The lines of a token, and windows of them.
#![tactic(auto)]

ghost use Rattle.std.specs.Prelude.{◌≡◌, ◌-◌, [], length, drop, get_or};
ghost use Rattle.token.specs.Token.{token_of};
ghost use Rattle.token.specs.Walk.{messages_of, Accepts};
ghost use Rattle.put.specs.Put.{joined};
ghost use Rattle.lines.specs.Lines.{message_lines, end_line, refused_line};
ghost use Rattle.lines.specs.Fit.{Fit, shape_in};
ghost use Rattle.windows.specs.Windows.{texts, as_window, window_of};
ghost use Rattle.windows.specs.Steps.{within, step, steps, Going};
ghost use Rattle.listing.specs.Listing.{all_lines, lines_of};

use lines::{count, end_text, message_text, refused_text};
use messages::Messages;
use token::read_token;
use vector::TokenPlace;
use windows::{Progress, Shown, finish, put_line, start};

// The line of the message m with an index.
fn show_line(p: Progress, d: &mut [u8], place: TokenPlace, m: &[u8], index: usize) -> Progress
    requires fit { Fit (shape_in m.now) m.now }
    requires going { Going p (length d.old) }
    ensures { within result d.new ≡ step (within p d.old)
        (joined (get_or (message_lines place.0 m.now) index [])) }
{
    let mut text = [0u8; 128];
    let end = message_text(&mut text, place, m, index);
    put_line(p, d, &text[..end])
}

// The last line of an accepted token.
pub fn show_end(p: Progress, d: &mut [u8], n: u32, octets: usize) -> Progress
    requires { Going p (length d.old) }
    ensures { within result d.new ≡ step (within p d.old) (joined (end_line n octets)) }
{
    let mut text = [0u8; 128];
    let end = end_text(&mut text, n, octets);
    put_line(p, d, &text[..end])
}

// The only line of a refused token.
pub fn show_refusal(p: Progress, d: &mut [u8], n: u32, place: TokenPlace) -> Progress
    requires { Going p (length d.old) }
    ensures { within result d.new ≡ step (within p d.old) (joined (refused_line n place.0)) }
{
    let mut text = [0u8; 128];
    let end = refused_text(&mut text, n, place);
    put_line(p, d, &text[..end])
}

// The lines of the message m from an index on.
fn show_lines(p: Progress, d: &mut [u8], place: TokenPlace, m: &[u8], first: usize) -> Progress
    requires fit { Fit (shape_in m.now) m.now }
    requires going { Going p (length d.old) }
    ensures { within result d.new ≡ steps (drop first (texts (message_lines place.0 m.now))) (within p d.old) }
{
    let mut progress = p;
    for index in first..count(m) {
        if progress.left == 0 {
            return progress;
        }
        progress = show_line(progress, d, place, m, index);
    }
    progress
}

// All lines of the message m at a place. A message that lies before the window costs one count.
pub fn show_message(p: Progress, d: &mut [u8], place: TokenPlace, m: &[u8]) -> Progress
    requires fit { Fit (shape_in m.now) m.now }
    requires going { Going p (length d.old) }
    ensures { within result d.new ≡ steps (texts (message_lines place.0 m.now)) (within p d.old) }
{
    if p.left == 0 {
        return p;
    }
    let count = count(m);
    if count <= p.skip {
        return Progress {
            skip: p.skip - count,
            ..p
        };
    }
    let here = Progress { skip: 0, ..p };
    show_lines(here, d, place, m, p.skip)
}

// The lines of all messages of a token that the structural reading accepts.
fn show_messages(p: Progress, d: &mut [u8], token: &[u8]) -> Progress
    requires accepts { Accepts token.now }
    requires going { Going p (length d.old) }
    ensures { within result d.new ≡ steps (texts (all_lines (messages_of (token_of token.now)))) (within p d.old) }
{
    let mut progress = p;
    for (place, m) in Messages::of(token) {
        progress = show_message(progress, d, place, m);
    }
    progress
}

// A window of the listing: as many whole lines from `from` up to, not including, `end` as fit stand at the buffer's front.
pub fn window(token: &[u8], from: usize, end: usize, d: &mut [u8]) -> Shown
    ensures { as_window result d.new ≡ window_of (lines_of token.now) from end d.old }
{
    let progress = start(from, end);
    match read_token(token) {
        Ok(n) => {
            let listed = show_messages(progress, d, token);
            finish(show_end(listed, d, n, token.len()))
        }
        Err(refused) => finish(show_refusal(progress, d, refused.refusal.number(), refused.place)),
    }
}
