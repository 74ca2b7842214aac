// The turns of two files, played one after the other.
ghost use Rattle.std.specs.Prelude.{◌≡◌, true, ◌≤◌, length, Err, is_none, option_copied};
ghost use Rattle.sides.specs.Merging.{messages_of, turns_of};
ghost use Rattle.sides.specs.Replay.{conversation_in, replay_of};
ghost use Rattle.replaying.specs.Playing.{octets_of, case_with, summary, played_as, begun_with, Begun, counted, rest_of, Fine, stood, role_of, side_of, went_on, ended_with, refused_by, whose_in, after_turn, Ready, Goes};

use super::before::{check_before, octets_of};
use super::{Fault, Marks, Replay, Whose};
use conversation::{Answer, Record};
use merging::next_turn;
use message::field;
use negotiating::opening::open;
use refusal::Refusal;
use schemes::list::id_at;
use turning::hear::hear;
use turning::owed::owes;
use turning::spoke::speak;

// The conversation of the first message of two files, zeros where there is no message.
fn first_conversation(ifile: &[u8], afile: &[u8]) -> [u8; 16]
    requires { (length ifile.now ≤ 65535) × (length afile.now ≤ 65535) }
    ensures { result ≡ conversation_in (turns_of (messages_of ifile.now) (messages_of afile.now)) }
{
    let Some(turn) = next_turn(ifile, afile, 0) else {
        return [0u8; 16];
    };
    if turn.acceptors {
        return id_at(afile, field::CONVERSATION);
    }
    id_at(ifile, field::CONVERSATION)
}

// A replay before its first turn, or one that ended before it.
fn begin_with(
    ilist: &[u8],
    alist: &[u8],
    conversation: [u8; 16],
    end: Option<Result<(), Fault>>,
) -> Replay
    ensures { result ≡ begun_with ilist.now alist.now conversation end }
{
    Replay {
        initiator: open(false, ilist, conversation).next,
        acceptor: open(true, alist, [0u8; 16]).next,
        iplace: 0,
        aplace: 0,
        number: 0,
        turns: 0,
        last: false,
        end,
    }
}

// Two files before their first turn, each record opened with the list of its side, 16 octets a scheme; or what ends a replay before play.
pub fn start(
    ilist: &[u8],
    alist: &[u8],
    marks: Marks,
    ifile: Option<&[u8]>,
    afile: Option<&[u8]>,
) -> Replay
    ensures { Begun (case_with ilist.now alist.now marks (option_copied ifile.entry) (option_copied afile.entry)) marks
        (octets_of (option_copied ifile.entry)) (octets_of (option_copied afile.entry)) result }
{
    match check_before(ilist, alist, marks, ifile, afile) {
        Ok(()) => {
            let conversation = first_conversation(octets_of(ifile), octets_of(afile));
            begin_with(ilist, alist, conversation, None)
        }
        Err(fault) => begin_with(ilist, alist, [0u8; 16], Some(Err(fault))),
    }
}

// The side of a role.
fn side_of(acceptor: bool) -> Whose
    ensures { result ≡ side_of acceptor }
{
    if acceptor {
        Whose::Acceptor
    } else {
        Whose::Initiator
    }
}

// Whose a refusal of a turn is: the writer's for 28, else the reader's.
fn whose_in(acceptor: bool, number: u32) -> Whose
    ensures { result ≡ whose_in acceptor number }
{
    if number == Refusal::Choice.number() {
        return side_of(acceptor);
    }
    side_of(!acceptor)
}

// A replay that a turn's refusal ends.
fn end_with(s: Replay, acceptor: bool, answer: Answer) -> Replay
    ensures { result ≡ ended_with s (Err (refused_by acceptor answer)) }
{
    let fault = Fault::Refused {
        number: answer.refusal,
        place: answer.place,
        whose: whose_in(acceptor, answer.refusal),
    };
    Replay {
        end: Some(Err(fault)),
        ..s
    }
}

// The record of a role.
fn role_of(s: Replay, acceptor: bool) -> Record
    ensures { result ≡ role_of acceptor s }
{
    if acceptor {
        return s.acceptor;
    }
    s.initiator
}

// A replay after an accepted turn of a role, with the records that its writer and its reader have come to.
fn go_on(
    s: Replay,
    acceptor: bool,
    writer: Record,
    reader: Record,
    octets: usize,
    messages: u32,
) -> Replay
    requires { Ready s octets messages }
    ensures { result ≡ went_on acceptor s writer reader octets messages }
{
    let number = s.number + messages;
    let turns = s.turns + 1;
    if acceptor {
        return Replay {
            initiator: reader,
            acceptor: writer,
            aplace: s.aplace + octets,
            number,
            turns,
            last: true,
            ..s
        };
    }
    Replay {
        initiator: writer,
        acceptor: reader,
        iplace: s.iplace + octets,
        number,
        turns,
        last: false,
        ..s
    }
}

// A turn of a role.
fn play_side(s: Replay, acceptor: bool, marks: u16, t: &[u8], messages: u32, d: &mut [u8]) -> Replay
    requires { Ready s (length t.now) messages }
    ensures { stood result d.new ≡ after_turn acceptor marks s d.old t.now messages }
{
    let writer = role_of(s, acceptor);
    let reader = role_of(s, !acceptor);
    let answer = hear(owes(writer, marks, t), reader, d, t);
    if answer.refusal != 0 {
        return end_with(s, acceptor, answer);
    }
    let spoken = speak(writer, marks, t);
    go_on(s, acceptor, spoken, answer.next, t.len(), messages)
}

// The next turn.
pub fn play_turn(s: Replay, marks: Marks, ifile: &[u8], afile: &[u8], d: &mut [u8]) -> Replay
    requires { Fine ifile.now afile.now s × (is_none s.end ≡ true) }
    ensures { Goes marks ifile.now afile.now s d.old result d.new }
{
    let ileft = &ifile[s.iplace..];
    let aleft = &afile[s.aplace..];
    let Some(turn) = next_turn(ileft, aleft, s.number) else {
        return Replay {
            end: Some(Ok(())),
            ..s
        };
    };
    if turn.acceptors {
        return play_side(
            s,
            true,
            marks.acceptor,
            &aleft[..turn.acceptor],
            turn.messages,
            d,
        );
    }
    play_side(
        s,
        false,
        marks.initiator,
        &ileft[..turn.initiator],
        turn.messages,
        d,
    )
}

// All turns that are left.
fn play_all(s: Replay, marks: Marks, ifile: &[u8], afile: &[u8], d: &mut [u8]) -> Replay
    requires { Fine ifile.now afile.now s × (is_none s.end ≡ true) }
    ensures { played_as result d.new ≡ counted s.turns
        (summary (rest_of marks ifile.now afile.now s d.old)) }
{
    let mut replay = s;
    // no range: how many turns there are shows as they are played
    while replay.end.is_none() {
        replay = play_turn(replay, marks, ifile, afile, d);
    }
    replay
}

// Two files, played to a record of each role that is opened with a list, 16 octets a scheme. The transcript is one for both.
pub fn play(
    ilist: &[u8],
    alist: &[u8],
    marks: Marks,
    ifile: Option<&[u8]>,
    afile: Option<&[u8]>,
    transcript: &mut [u8],
) -> Replay
    ensures { played_as result transcript.new ≡ summary
        (replay_of (case_with ilist.now alist.now marks (option_copied ifile.entry) (option_copied afile.entry))
        transcript.old) }
{
    let replay = start(ilist, alist, marks, ifile, afile);
    if replay.end.is_some() {
        return replay;
    }
    play_all(
        replay,
        marks,
        octets_of(ifile),
        octets_of(afile),
        transcript,
    )
}
