// The schemes that the messages of a token name.
ghost use Rattle.std.specs.Prelude.{◌≡◌, map, ◌≤◌, length, take, drop};
ghost use Rattle.octets.specs.Octets.{same_octets};
ghost use Rattle.message.specs.Layout.{size};
ghost use Rattle.message.specs.Show.{ids_of};
ghost use Rattle.schemes.specs.Lists.{mem};
ghost use Rattle.conversation.specs.Writing.{starts_with};
ghost use Rattle.conversation.specs.Admitting.{scheme_in, messages_at, metadata_fits};
ghost use Rattle.admitting.specs.Admissions.{listed_in};

use message::walk::message_length;
use message::{Kind, field};
use octets::same_id;
use parts::schemes;
use schemes::list::has_id;

// The header of a NEGO.
const HEADER: usize = Kind::NEGO_HEADER as usize;

// Where the scheme of a message that is no NEGO ends.
const SCHEME_END: usize = field::SCHEME + field::ID;

// The octets of the schemes that the NEGO at the front of a token lists, 16 a scheme.
#[tactic(auto, using(crate::proofs::Lists::lists))]
pub fn listed(t: &[u8]) -> &[u8]
    ensures { result.now ≡ listed_in t.now }
{
    if t.len() < HEADER {
        return &t[..0];
    }
    let end = message_length(t).min(t.len());
    schemes(&t[..end])
}

// Whether the first id of a list is this one.
#[tactic(auto, using(crate::proofs::Lists::lists))]
pub(crate) fn starts_with(list: &[u8], id: &[u8]) -> bool
    ensures { result ≡ starts_with (ids_of list.now) id.now }
{
    field::ID <= list.len() && same_id(id, &list[..field::ID])
}

// What is behind the message at the front of s.
fn behind(s: &[u8]) -> &[u8]
    requires { 24 ≤ length s.now }
    ensures { result.now ≡ drop (size s.now) s.now }
{
    let from = message_length(s).min(s.len());
    &s[from..]
}

// Whether the first n octets of s, as a message, name the scheme.
fn names(s: &[u8], n: usize, id: &[u8]) -> bool
    requires { length id.now ≡ 16 }
    ensures { result ≡ same_octets id.now (scheme_in (take n s.now)) }
{
    SCHEME_END <= n.min(s.len()) && same_id(id, &s[field::SCHEME..SCHEME_END])
}

// Whether one of the `count` messages at the front of s names the scheme.
fn is_named(s: &[u8], count: u32, id: &[u8]) -> bool
    requires { length id.now ≡ 16 }
    ensures { result ≡ mem id.now (map scheme_in (messages_at count s.now)) }
{
    let mut rest = s;
    for _ in 0..count {
        if rest.len() < SCHEME_END {
            return false;
        }
        let length = message_length(rest);
        if names(rest, length, id) {
            return true;
        }
        if rest.len() < length {
            return false;
        }
        rest = &rest[length..];
    }
    false
}

// 15 for metadata: its scheme is listed by the token's NEGO, and none of the `named` messages behind it names it.
#[tactic(auto, using(crate::proofs::Lists::metadatas))]
pub(crate) fn metadata_fits(t: &[u8], named: u32, id: &[u8]) -> bool
    requires { length id.now ≡ 16 }
    ensures { result ≡ metadata_fits t.now named id.now }
{
    let list = listed(t);
    HEADER <= t.len() && has_id(list, list.len() / field::ID, id) && !is_named(behind(t), named, id)
}
