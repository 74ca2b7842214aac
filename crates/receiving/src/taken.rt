// The record after an accepted token.
ghost use Rattle.std.specs.Prelude.{◌≡◌, length};
ghost use Rattle.conversation.specs.Reading.{counts_after, taken};
ghost use Rattle.receiving.specs.Receiving.{Taking, moved_by};

use super::judge::conversation_of;
use admitting::named::listed;
use conversation::turns::reading_token;
use conversation::{Record, Scan, Turn};
use schemes::reply::kept_places;
use schemes::set::{common_set, full_set};

// Whether the own one VERIFY is spent after a token: the acceptor's first later token fixes the choice, and with it whether an early one counts.
fn counts_after(r: Record, scan: Scan) -> bool
    ensures { result ≡ counts_after r scan }
{
    if r.stage != Record::REPLY {
        return r.attested;
    }
    if r.attested {} else {
        return false;
    }
    scan.chosen == r.requested
}

// What every accepted token changes: stage, turn, conversation, and what was carried out of it.
fn moved(r: Record, t: &[u8], messages: u32, scan: Scan) -> Record
    requires { Taking r (length t.now) messages }
    ensures { result ≡ moved_by r t.now messages scan }
{
    let token = reading_token(r.acceptor, r.stage);
    let conversation = conversation_of(r, t);
    let attested = counts_after(r, scan);
    let mut next = r;
    next.stage = token + 1;
    next.position = 0;
    next.conversation = conversation;
    next.metadata = 0;
    next.requested = scan.requested;
    next.chosen = scan.chosen;
    next.attested = attested;
    next.confirmed = scan.confirmed;
    next.sequence = r.sequence + messages;
    next.used = r.used + t.len();
    next
}

// The record after a token of so many messages: the first gives the common schemes, the reply the kept places too.
pub(crate) fn taken_record(r: Record, t: &[u8], messages: u32, scan: Scan) -> Record
    requires { Taking r (length t.now) messages }
    ensures { result ≡ taken r t.now messages scan }
{
    let token = reading_token(r.acceptor, r.stage);
    let mut next = moved(r, t, messages, scan);
    if token == Turn::FIRST {
        next.common = common_set(&r.list, r.count, listed(t));
        return next;
    }
    if token == Turn::ANSWER {
        let kept = kept_places(&r.list, r.count, listed(t));
        let places = kept.places;
        next.kept = places;
        next.common = full_set(kept.count);
        return next;
    }
    next
}
