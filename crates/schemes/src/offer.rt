// The schemes that a NEGO lists: those of the own list at the bits of a set.
ghost use Rattle.std.specs.Prelude.{◌≡◌, ◌+◌, ◌*◌, ◌≤◌, ◌<◌};
ghost use Rattle.std.proofs.Math.Seq.{paste};
ghost use Rattle.message.specs.Show.{ids_at};
ghost use Rattle.schemes.specs.Sets.{left};
ghost use Rattle.schemes.specs.Answers.{schemes_of};

use super::Schemes;
use super::list::id_of;
use super::set::bit_of;
use message::field;

// Schemes with one more behind them.
fn with_id(s: Schemes, id: [u8; 16]) -> Schemes
    requires { s.count < 16 }
    ensures { result ≡ record { octets = paste s.octets (16 * s.count) id 16; count = s.count + 1 } }
{
    let at = field::ID * s.count as usize;
    let mut octets = s.octets;
    octets[at..at + field::ID].copy_from_slice(&id);
    Schemes {
        octets,
        count: s.count + 1,
    }
}

// The own schemes at the bits of a set, in the own order.
pub fn gather(list: [u8; 256], n: usize, set: u16) -> Schemes
    requires { n ≤ 16 }
    ensures { result ≡ schemes_of (left (ids_at n list) set 0) }
{
    let mut schemes = Schemes {
        octets: [0u8; 256],
        count: 0,
    };
    for place in 0..n as u32 {
        if bit_of(set, place) {
            schemes = with_id(schemes, id_of(list, place));
        }
    }
    schemes
}
