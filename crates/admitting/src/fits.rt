// 15: which scheme a message may name.
ghost use Rattle.std.specs.Prelude.{◌≡◌, ◌+◌, ◌*◌, ◌≤◌, length};
ghost use Rattle.octets.specs.Octets.{octets, same_id};
ghost use Rattle.conversation.specs.Admitting.{is_at, exchange_fits, further_fits, scheme_fits};
ghost use Rattle.calls.specs.Calls.{Inside};

use super::named::{listed, metadata_fits, starts_with};
use calls::in_reply;
use conversation::turns::reading_token;
use conversation::{Class, Record, Scan, Turn};
use message::field;
use octets::same_id;

// Whether the id at place k of a list is this one, both where they stand.
pub fn same_at(list: &[u8], k: usize, id: &[u8]) -> bool
    requires { 16 * k + 16 ≤ length list.now }
    ensures { result ≡ same_id id.now (octets 16 list.now (16 * k)) }
{
    let at = field::ID * k;
    let end = at + field::ID;
    same_id(id, &list[at..end])
}

// Whether the own scheme at place k is this one.
pub(crate) fn is_at(r: Record, k: usize, id: &[u8]) -> bool
    requires { Inside r }
    ensures { result ≡ is_at r k id.now }
{
    k < r.count && same_at(&r.list, k, id)
}

// 15 for an exchange of the first token or of the reply.
#[tactic(auto, using(crate::proofs::Allowed::exchange_is))]
fn exchange_fits(r: Record, t: &[u8], id: &[u8]) -> bool
    requires { Inside r }
    ensures { result ≡ exchange_fits r t.now id.now }
{
    let token = reading_token(r.acceptor, r.stage);
    starts_with(listed(t), id) && (token == Turn::FIRST || is_at(r, r.requested, id))
}

// 15 for a message of a later token, where `chosen` is the own place of the chosen scheme, or none.
fn further_fits(r: Record, chosen: usize, id: &[u8]) -> bool
    requires { Inside r }
    ensures { result ≡ further_fits r chosen id.now }
{
    if chosen == Record::NONE {
        return r.acceptor && in_reply(r, id);
    }
    is_at(r, chosen, id)
}

// 15 by the class.
#[tactic(auto, unfolding(conversation::specs::Admitting::scheme_fits))]
pub(crate) fn scheme_fits(r: Record, t: &[u8], c: Scan, class: u8, id: &[u8]) -> bool
    requires { Inside r × (length id.now ≡ 16) }
    ensures { result ≡ scheme_fits r t.now c class id.now }
{
    let token = reading_token(r.acceptor, r.stage);
    match class {
        Class::NEGO => true,
        Class::METADATA => metadata_fits(t, c.named, id),
        _ if token == Turn::FURTHER => further_fits(r, c.chosen, id),
        _ => exchange_fits(r, t, id),
    }
}
