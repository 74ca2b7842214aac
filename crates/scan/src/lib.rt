// Where an octet stands first in a part of a slice.
#![tactic(auto)]

ghost use Rattle.std.specs.Prelude.{◌≡◌, ◌+◌, ◌≤◌, length};
ghost use Rattle.scan.specs.Scan.{index_of, slice};

// The first place from `from` on and before `to` where `octet` stands; `to`, where it stands at none: no Option, since each caller takes what stands before
// the octet, or all that is left.
pub fn find(s: &[u8], from: usize, to: usize, octet: u8) -> usize
    requires in_order { from ≤ to }
    requires within { to ≤ length s.now }
    ensures place { result ≡ from + index_of octet (slice from to s.now) }
    ensures behind { from ≤ result }
    ensures before { result ≤ to }
{
    match s[from..to].iter().position(|x| *x == octet) {
        Some(n) => from + n,
        None => to,
    }
}
