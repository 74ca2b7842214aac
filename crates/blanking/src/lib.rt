// A token with each octet that nothing points at zero.
#![tactic(auto)]

ghost use Rattle.std.specs.Prelude.{◌≡◌, cond, ◌&&◌, ◌||◌, ◌≤◌, ◌<◌, ◌^◌, leb, ltb, length, take};
ghost use Rattle.message.specs.Layout.{shape_of, header_of, pads_of};
ghost use Rattle.token.specs.Token.{told};
ghost use Rattle.token.specs.Walk.{Accepts};
ghost use Rattle.coverage.specs.Coverage.{lies_in_pad};
ghost use Rattle.blanking.specs.Blanked.{blanked, Blanking, blanking_of};
ghost use Rattle.blanking.specs.Wiped.{headed, wiped, Marks, Room};

use coverage::{clear, greatest, mark_kind};
use message::walk::first;
use message::{Kind, Shape, field};
use octets::le_u32;
use token::{Refused, read_token};

pub mod covering;

// Whether a place lies in a stretch.
fn lies(at: usize, from: usize, end: usize) -> bool
    ensures { result ≡ (leb from at && ltb at end) }
{
    from <= at && at < end
}

// Whether a place of a header lies in a pad.
#[tactic(auto, using(crate::proofs::Wipes::pads))]
fn in_pad(kind: Kind, at: usize) -> bool
    ensures { result ≡ lies_in_pad (pads_of (shape_of kind.0)) at }
{
    match kind.shape() {
        Shape::Nego => {
            lies(at, field::SCHEMES_PAD, field::EXTENSIONS)
                || lies(at, field::EXTENSIONS_PAD, Kind::NEGO_HEADER_LEN)
        }
        Shape::Exchange => false,
        Shape::Verify => lies(at, field::VERIFY_PAD, Kind::VERIFY_HEADER_LEN),
        Shape::Alert => {
            lies(at, field::ALERTS_PAD, field::ALERT_PAD)
                || lies(at, field::ALERT_PAD, Kind::ALERT_HEADER_LEN)
        }
    }
}

// Whether a place is covered: it lies in the header and in no pad, or before the farthest end of the vectors that start at it or before it.
fn is_covered(kind: Kind, header: u32, far: u32, at: usize) -> bool
    requires { header ≡ header_of (shape_of kind.0) }
    ensures { result ≡ (headed kind.0 at || ltb at far) }
{
    at < far as usize || at < header as usize && !in_pad(kind, at)
}

// An octet where it is covered, else zero.
fn octet_kept(octet: u8, covered: bool) -> u8
    ensures { result ≡ cond covered octet 0 }
{
    if covered { octet } else { 0 }
}

// Zeroes what is not covered of a message of a kind whose vectors are marked in the map.
fn wipe(m: &mut [u8], map: &[u32], kind: Kind)
    requires { length map.now ≡ length m.old }
    ensures { m.new ≡ wiped (headed kind.0) map.now 0 m.old 0 }
{
    let header = kind.header();
    let mut far: u32 = 0;
    for at in 0..m.len() {
        far = greatest(far, map[at]);
        m[at] = octet_kept(m[at], is_covered(kind, header, far, at));
    }
}

// Marks a message's vectors at the front of a map, a cell for each of its octets. The answer is its kind.
fn mark_message(map: &mut [u32], m: &[u8]) -> Kind
    requires { Room (length map.old) m.now }
    ensures { Marks result.0 m.now (take (length m.now) map.new) }
{
    let kind = Kind(le_u32(m, field::TYPE));
    let cells = &mut map[..m.len()];
    clear(cells);
    mark_kind(cells, kind, m);
    kind
}

// Blanks the messages of an accepted token, one behind the other. The map is room to work in. No mask beside the token, since the token is its own: it can't be
// lent as both.
fn blank_messages(map: &mut [u32], token: &mut [u8])
    requires { Accepts token.old × (65535 ≤ length map.old) }
    ensures { token.new ≡ blanked token.old }
{
    let mut at: usize = 0;
    // no index is counted here: where the next message begins, each header says
    while at < token.len() {
        let end = at + first(&token[at..]).len();
        let kind = mark_message(map, &token[at..end]);
        wipe(&mut token[at..end], &map[..end - at], kind);
        at = end;
    }
}

// Zeroes each octet of a token that nothing points at; a refused token is left as it is. The answer is the structural reading's.
pub fn blank(token: &mut [u8]) -> Result<u32, Refused>
    ensures { ◌≡◌ {A = Blanking} (record { outcome = told result; octets = token.new }) (blanking_of token.old) }
{
    let n = read_token(&token[..])?;
    let mut map = [0u32; 65536];
    blank_messages(&mut map, token);
    Ok(n)
}
