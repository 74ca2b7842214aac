// Lists of schemes in octets, 16 a scheme. A record's list has room for 16 schemes and a count beside it, in fixed memory: so list and count are two arguments.
ghost use Rattle.std.specs.Prelude.{◌≡◌, ◌+◌, ◌*◌, ◌≤◌, ◌<◌, length};
ghost use Rattle.octets.specs.Octets.{octets};
ghost use Rattle.message.specs.Show.{ids_at};
ghost use Rattle.schemes.specs.Lists.{mem, place, distinct, list_ok};

use super::MOST;
use message::field;
use octets::same_id;

// The place of the first of the n ids of a list that is `id`, or n where none is: a mark at the definition's `place` is not set for a scheme of another list.
pub fn find(list: &[u8], n: usize, id: &[u8]) -> usize
    requires { n * 16 ≤ length list.now }
    ensures { result ≡ place (ids_at n list.now) id.now }
{
    list[..n * field::ID]
        .chunks_exact(field::ID)
        .position(|listed| same_id(id, listed))
        .unwrap_or(n)
}

// Whether `id` is one of the n ids of a list.
pub fn has_id(list: &[u8], n: usize, id: &[u8]) -> bool
    requires { n * 16 ≤ length list.now }
    ensures { result ≡ mem id.now (ids_at n list.now) }
{
    find(list, n, id) < n
}

// Whether the n ids of a list are all different.
pub fn distinct_ids(list: &[u8], n: usize) -> bool
    requires { n * 16 ≤ length list.now }
    ensures { result ≡ distinct (ids_at n list.now) }
{
    for k in 0..n {
        let (id, behind) = list[k * field::ID..].split_at(field::ID);
        if has_id(behind, n - k - 1, id) {
            return false;
        }
    }
    true
}

// Whether octets are an own list: what 19 asks of them.
pub fn list_ok(own: &[u8]) -> bool
    ensures { result ≡ list_ok own.now }
{
    let count = own.len() / field::ID;
    if own.len() % field::ID != 0 || count < 1 || MOST < count {
        return false;
    }
    distinct_ids(own, count)
}

// The id at a place of octets.
pub fn id_at(s: &[u8], at: usize) -> [u8; 16]
    requires { at + 16 ≤ length s.now }
    ensures { result ≡ octets 16 s.now at }
{
    let mut id = [0u8; field::ID];
    id.copy_from_slice(&s[at..at + field::ID]);
    id
}

// The k-th id of a list of 16.
pub fn id_of(list: [u8; 256], k: u32) -> [u8; 16]
    requires { k < 16 }
    ensures { result ≡ octets 16 list (16 * k) }
{
    id_at(&list, field::ID * k as usize)
}
