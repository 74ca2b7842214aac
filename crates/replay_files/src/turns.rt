// The turns of a replay, each played and then shown.
ghost use Rattle.std.specs.Prelude.{◌≡◌, true, is_none};
ghost use Rattle.replaying.specs.Playing.{summary, played_as, counted, rest_of, Fine};

use console::{Listed, STDOUT, walk};
use conversation::Record;
use fields::part;
use replay_lines::{choice_line, end_line, turn_line};
use replaying::before::octets_of;
use replaying::play::{play_turn, start};
use replaying::{Marks, Replay};
use schemes::list::id_of;

// Writes the first n octets of d.
fn print(d: &[u8], n: usize) {
    io::write_all(STDOUT, part(d, 0, n));
}

// Writes the listing of a turn without its last line.
fn show_listing(token: &[u8]) {
    let listed = Listed { token };
    let lines = walk(&listed, usize::MAX, |_| {});
    walk(&listed, lines.saturating_sub(1), |text| {
        io::write_all(STDOUT, text);
    });
}

// Writes the line of the initiator's choice so far.
fn show_choice(r: Record, text: &mut [u8]) {
    let chosen = if r.chosen < 16 {
        Some(id_of(r.list, r.chosen as u32))
    } else {
        None
    };
    let end = choice_line(text, chosen);
    print(text, end);
}

// Writes what is to be seen of a turn, where one was accepted between two states of a replay.
fn show_turn(before: Replay, next: Replay, ifile: &[u8], afile: &[u8], text: &mut [u8]) {
    if next.turns == before.turns {
        return;
    }
    let end = turn_line(text, before.turns, next.last);
    print(text, end);
    if next.last {
        show_listing(part(afile, before.aplace, next.aplace));
    } else {
        show_listing(part(ifile, before.iplace, next.iplace));
    }
    show_choice(next.initiator, text);
}

// Plays all turns that are left, and shows each.
fn show_turns(
    s: Replay,
    marks: Marks,
    ifile: &[u8],
    afile: &[u8],
    d: &mut [u8],
    text: &mut [u8],
) -> Replay
    requires { Fine ifile.now afile.now s × (is_none s.end ≡ true) }
    ensures { played_as result d.new ≡ counted s.turns
        (summary (rest_of marks ifile.now afile.now s d.old)) }
{
    let mut replay = s;
    // no range: how many turns there are shows as they are played
    while replay.end.is_none() {
        let next = play_turn(replay, marks, ifile, afile, d);
        show_turn(replay, next, ifile, afile, text);
        replay = next;
    }
    replay
}

// Writes how a replay ended.
fn show_end(r: Replay, text: &mut [u8]) {
    let end = end_line(text, r.end);
    print(text, end);
}

// Replays two files, and shows it. The transcript has all the room that a conversation has.
pub(crate) fn show_replay(
    ilist: &[u8],
    alist: &[u8],
    marks: Marks,
    ifile: Option<&[u8]>,
    afile: Option<&[u8]>,
) {
    let mut transcript = [0u8; 65535];
    let mut text = [0u8; 128];
    let replay = start(ilist, alist, marks, ifile, afile);
    if replay.end.is_some() {
        show_end(replay, &mut text);
        return;
    }
    let played = show_turns(
        replay,
        marks,
        octets_of(ifile),
        octets_of(afile),
        &mut transcript,
        &mut text,
    );
    show_end(played, &mut text);
}
