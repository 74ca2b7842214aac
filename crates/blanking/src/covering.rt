// Which octets of a token are covered, in a mask beside it.
ghost use Rattle.std.specs.Prelude.{◌≡◌, ◌≤◌, length};
ghost use Rattle.token.specs.Token.{told};
ghost use Rattle.token.specs.Walk.{Accepts};
ghost use Rattle.blanking.specs.Covered.{covered};
ghost use Rattle.blanking.specs.Blanked.{kept, Blanking};
ghost use Rattle.blanking.specs.Masked.{masking_of};

use super::{mark_message, wipe};
use message::walk::first;
use token::{Refused, read_token};

// Zeroes the mask where nothing covers an accepted token. The map is room to work in.
fn cover_messages(map: &mut [u32], token: &[u8], mask: &mut [u8])
    requires { Accepts token.now × (65535 ≤ length map.old) × (length mask.old ≡ length token.now) }
    ensures { mask.new ≡ kept (covered token.now) mask.old 0 }
{
    let mut at: usize = 0;
    // no index is counted here: where the next message begins, each header says
    while at < token.len() {
        let end = at + first(&token[at..]).len();
        let kind = mark_message(map, &token[at..end]);
        wipe(&mut mask[at..end], &map[..end - at], kind);
        at = end;
    }
}

// Zeroes a mask as long as the token at each place where nothing covers the token; a mask of another length, and that of a refused token, is left as it is. The
// answer is the structural reading's.
pub fn cover(token: &[u8], mask: &mut [u8]) -> Result<u32, Refused>
    ensures { ◌≡◌ {A = Blanking} (record { outcome = told result; octets = mask.new })
        (masking_of token.now mask.old) }
{
    let n = read_token(token)?;
    if mask.len() != token.len() {
        return Ok(n);
    }
    let mut map = [0u32; 65536];
    cover_messages(&mut map, token, mask);
    Ok(n)
}
