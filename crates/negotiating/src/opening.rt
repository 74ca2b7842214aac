// Opening.
ghost use Rattle.std.specs.Prelude.{◌≡◌, cond, ◌≤◌, length};
ghost use Rattle.conversation.specs.State.{fresh};
ghost use Rattle.conversation.specs.Outcomes.{zero_id};
ghost use Rattle.conversation.specs.Writing.{opening};

use calls::{accepted, refused};
use conversation::{Answer, Record};
use message::field;
use refusal::Refusal;
use schemes::list::list_ok;

// The conversation that a fresh record has: an acceptor has none yet.
fn conversation_for(acceptor: bool, conversation: [u8; 16]) -> [u8; 16]
    ensures { result ≡ cond acceptor zero_id conversation }
{
    if acceptor { [0u8; 16] } else { conversation }
}

// A record with nothing used.
fn fresh_record(acceptor: bool, own: &[u8], conversation: [u8; 16]) -> Record
    requires { length own.now ≤ 256 }
    ensures { result ≡ fresh acceptor own.now conversation }
{
    let mut list = [0u8; 256];
    list[..own.len()].copy_from_slice(own);
    Record {
        acceptor,
        stage: Record::OPENING,
        position: 0,
        list,
        count: own.len() / field::ID,
        conversation,
        marks: 0,
        common: 0,
        kept: [0u8; 16],
        metadata: 0,
        requested: Record::NONE,
        chosen: Record::NONE,
        attested: false,
        confirmed: false,
        sequence: 0,
        used: 0,
    }
}

// Opens an end of a conversation with its own list, 16 octets a scheme. Where the list breaks 19, the record is one that every call refuses.
pub fn open(acceptor: bool, own: &[u8], conversation: [u8; 16]) -> Answer
    ensures { result ≡ opening acceptor own.now conversation }
{
    if !list_ok(own) {
        let none = fresh_record(acceptor, &own[..0], [0u8; 16]);
        return refused(Refusal::Argument, none);
    }
    let id = conversation_for(acceptor, conversation);
    accepted(fresh_record(acceptor, own, id))
}
