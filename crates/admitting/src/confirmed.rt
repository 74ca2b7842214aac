// 14 for a second VERIFY: whether the peer's one is spent.
ghost use Rattle.std.specs.Prelude.{◌≡◌};
ghost use Rattle.conversation.specs.Admitting.{confirmed_for};
ghost use Rattle.calls.specs.Calls.{Inside};

use super::fits::is_at;
use calls::in_reply;
use conversation::{Record, Scan};

// Whether the peer's one VERIFY is spent, for a message that names this scheme. The acceptor's first later message makes the choice, and fixes whether an
// early VERIFY counts: it is for the AP_REQUEST's scheme.
#[tactic(auto, unfolding(conversation::specs::Admitting::confirmed_for))]
pub(crate) fn confirmed_for(r: Record, c: Scan, id: &[u8]) -> bool
    requires { Inside r }
    ensures { result ≡ confirmed_for r c id.now }
{
    if r.stage == Record::REPLY && c.chosen == Record::NONE {
        return c.confirmed && is_at(r, r.requested, id) && in_reply(r, id);
    }
    c.confirmed
}
