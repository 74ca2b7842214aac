// The own places that the initiator keeps of a reply.
ghost use Rattle.std.specs.Prelude.{◌≡◌, ◌*◌, ◌≤◌, length};
ghost use Rattle.message.specs.Show.{ids_at, ids_of};
ghost use Rattle.schemes.specs.Sets.{noted, kept_places, kept_below};
ghost use Rattle.schemes.specs.Answers.{kept_of, places_in, Noting};

use super::Kept;
use super::list::find;
use super::set::bit_of;
use message::field;

// The kept places with p behind them, where p is one of n places and not there yet.
fn note(k: Kept, p: usize, n: usize) -> Kept
    requires { Noting k p n }
    ensures { result ≡ kept_of (noted n p (places_in k)) }
{
    if n <= p {
        return k;
    }
    let place = p as u8;
    let count = k.count as usize;
    if k.places[..count].contains(&place) {
        return k;
    }
    let mut next = k;
    next.places[count] = place;
    next.count = k.count + 1;
    next
}

// The own places of the peer's different own schemes, in the order of their first mention.
pub fn kept_places(own: &[u8], n: usize, peer: &[u8]) -> Kept
    requires { (n * 16 ≤ length own.now) × (n ≤ 16) }
    ensures { result ≡ kept_of (kept_places (ids_at n own.now) (ids_of peer.now)) }
{
    let mut kept = Kept {
        places: [0u8; 16],
        count: 0,
    };
    for id in peer.chunks_exact(field::ID) {
        kept = note(kept, find(own, n, id), n);
    }
    kept
}

// Whether every kept place at a bit of the set is one of n.
pub fn kept_within(kept: [u8; 16], common: u16, n: u32) -> bool
    ensures { result ≡ kept_below n kept common }
{
    kept.iter().enumerate().all(|(k, place)| !bit_of(common, k as u32) || (*place as u32) < n)
}
