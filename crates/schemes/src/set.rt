// Sets of 16 bits, bit k for place k.
ghost use Rattle.std.specs.Prelude.{◌≡◌, ℕ, Bool, ◌*◌, ◌≤◌, ◌<◌, length};
ghost use Rattle.message.specs.Show.{ids_at, ids_of};
ghost use Rattle.schemes.specs.Lists.{bit};
ghost use Rattle.schemes.specs.Sets.{set_of, common_set, ones, below};
ghost use Rattle.schemes.specs.Answers.{with_bit, places_from};

use super::list::has_id;
use message::field;

// Bit k of a set.
pub fn bit_of(set: u16, k: u32) -> bool
    ensures { result ≡ bit set k }
{
    k < 16 && (set >> k) % 2 == 1
}

// The lowest k bits.
pub fn full_set(k: u32) -> u16
    requires { k ≤ 16 }
    ensures { result ≡ ones k }
{
    ((1u32 << k) - 1) as u16
}

// Whether a set has no bit from n on.
pub fn within(set: u16, n: u32) -> bool
    ensures { result ≡ below n set }
{
    16 <= n || set >> n == 0
}

// A set with bit k set.
pub fn with_bit(set: u16, k: u32) -> u16
    requires { k < 16 }
    ensures { result ≡ with_bit set k }
{
    set | (1u16 << k)
}

// The set of the k below n that a test holds of.
pub(crate) fn set_where<F: Fn(u32) -> bool>(n: u32, holds: F) -> u16
    requires few { n ≤ 16 }
    requires asked { (k : ℕ) → k < n → F.pre holds k }
    ensures { (p : ℕ → Bool) → ((k : ℕ) (b : Bool) → k < n → F.post holds k b → b ≡ p k) → result ≡ set_of p (places_from 0 n) }
{
    let mut set: u16 = 0;
    for k in 0..n {
        if holds(k) {
            set = with_bit(set, k);
        }
    }
    set
}

// The set of the n own places whose scheme the peer lists.
pub fn common_set(own: &[u8], n: usize, peer: &[u8]) -> u16
    requires { (n * 16 ≤ length own.now) × (n ≤ 16) }
    ensures { result ≡ common_set (ids_at n own.now) (ids_of peer.now) }
{
    set_where(n as u32, |k| {
        let at = k as usize * field::ID;
        has_id(peer, peer.len() / field::ID, &own[at..at + field::ID])
    })
}
