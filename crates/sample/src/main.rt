// How a program calls the library: an initiator offers two schemes, an acceptor reads the offer and replies, and the initiator reads the reply and chooses.
// Then the offer is read as a token alone.
#![tactic(auto)]

ghost use Rattle.std.specs.Prelude.{◌≡◌, ◌/◌, length};
ghost use Rattle.vector.specs.Vector.{shown};
ghost use Rattle.message.specs.Layout.{scheme_vector};

use console::STDOUT;
use negoex::{
    Answer, Elements, Record, choose_alert, open, read, read_token, schemes, write_offer,
    write_reply,
};

// A line with a number.
fn say(what: &[u8], n: u64) {
    io::write_all(STDOUT, what);
    io::write_all(STDOUT, b" ");
    io::print_decimal(STDOUT, n);
    io::write_all(STDOUT, b"\n");
}

// What a call answered: its refusal's number, 0 for none, and what the record has used of the transcript.
fn say_answer(what: &[u8], a: Answer) {
    say(what, a.refusal as u64);
    say(b"  used", a.next.used as u64);
}

// A choice: the scheme in its usual text, which has 36 octets, and how many were left.
fn say_choice(a: Answer) {
    let mut text = [0u8; 36];
    let id = a.choice;
    text::id(&mut text, 0, &id);
    io::write_all(STDOUT, b"  choice ");
    io::write_all(STDOUT, &text);
    io::write_all(STDOUT, b"\n");
    say(b"  left", a.left as u64);
}

// How many schemes a NEGO lists; the contract is one over the library's definitions.
fn listed(m: &[u8]) -> usize
    ensures { result ≡ length (shown 96 m.now (scheme_vector m.now)) / 16 }
{
    schemes(m).len() / 16
}

// The structural reading of a token, and the schemes of its first message.
fn say_token(token: &[u8]) {
    match read_token(token) {
        Ok(n) => {
            say(b"token: messages", n as u64);
            say(b"  schemes", listed(token) as u64);
        }
        Err(refused) => {
            say(b"token: refused", refused.refusal.number() as u64);
            say(b"  at", refused.place.0 as u64);
        }
    }
}

// The initiator opens with its own list, 16 octets a scheme, and writes its NEGO into the transcript that it is lent, without extensions.
fn offer(transcript: &mut [u8]) -> Record {
    let list =
        b"\xB1\x65\xD0\x0C\x17\x2E\x93\x45\x8F\x60\x12\xFE\x01\x80\x7F\xC1\x5C\x33\x53\x0D\xEA\xF9\x0D\x4D\xB2\xEC\x4A\xE3\x78\x6E\xC3\x08";
    let opened = open(false, list, [7u8; 16]);
    let wrote = write_offer(
        opened.next,
        transcript,
        [17u8; 32],
        false,
        Elements::none(),
        b"",
    );
    say_answer(b"initiator offers: refusal", wrote);
    wrote.next
}

// The acceptor lists the same schemes in another order. Each answer holds the record that the end's next call gets.
fn reply(transcript: &mut [u8], token: &[u8]) -> Record {
    let list =
        b"\x5C\x33\x53\x0D\xEA\xF9\x0D\x4D\xB2\xEC\x4A\xE3\x78\x6E\xC3\x08\xB1\x65\xD0\x0C\x17\x2E\x93\x45\x8F\x60\x12\xFE\x01\x80\x7F\xC1";
    let opened = open(true, list, [0u8; 16]);
    let heard = read(opened.next, transcript, token);
    say_answer(b"acceptor reads: refusal", heard);
    let replied = write_reply(
        heard.next,
        transcript,
        0,
        [34u8; 32],
        false,
        Elements::none(),
        b"",
    );
    say_answer(b"acceptor replies: refusal", replied);
    say_choice(replied);
    replied.next
}

// The same token once more has another number than the one expected. That refusal leaves record and transcript as they were.
fn read_again(r: Record, transcript: &mut [u8], token: &[u8]) {
    let again = read(r, transcript, token);
    say_answer(b"acceptor reads again: refusal", again);
}

// The initiator reads the reply, and chooses with its first later message: an ALERT with a pulse, whose value is lent beside it.
fn choose(r: Record, transcript: &mut [u8], token: &[u8]) {
    let heard = read(r, transcript, token);
    say_answer(b"initiator reads: refusal", heard);
    let values = Elements::pulse_value();
    let chosen = choose_alert(heard.next, transcript, 0, -1, Elements::pulse(), &values);
    say_answer(b"initiator chooses: refusal", chosen);
    say_choice(chosen);
}

// The octets of s from `from` on, up to `to`; none where it has no such part.
fn part(s: &[u8], from: usize, to: usize) -> &[u8] {
    if to < from {
        return &s[..0];
    }
    if s.len() < to {
        return &s[..0];
    }
    &s[from..to]
}

fn main() {
    // A NEGO with two schemes has 128 octets. A transcript holds what its end has read and written.
    let mut initiator = [0u8; 512];
    let offered = offer(&mut initiator);
    let mut acceptor = [0u8; 512];
    let replied = reply(&mut acceptor, part(&initiator, 0, 128));
    read_again(replied, &mut acceptor, part(&initiator, 0, 128));
    choose(offered, &mut initiator, part(&acceptor, 128, 256));
    say_token(part(&initiator, 0, 128));
}
