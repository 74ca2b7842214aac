// The schemes that NEGO messages list.
#![tactic(auto)]

ghost use Rattle.std.specs.Prelude.{◌≡◌, ℕ, ◌≤◌, ◌<◌, ◌*◌, not, length, get_or};
ghost use Rattle.message.specs.Show.{ids_at, ids_of};
ghost use Rattle.offers.specs.Table.{entered_in, entered_all_in, ticked_from, offered_in, Counting};
ghost use Rattle.offers.specs.Offers.{all_in};
ghost use Rattle.coverage.specs.Coverage.{one};
ghost use Rattle.schemes.specs.Lists.{mem};

use message::field;
use put::put_octets;
use schemes::list::has_id;

// The table of schemes: the ids in order of their first mention, how many NEGO messages list each, and how many list any other. Ids and
// counts stand in arrays of their own, with how many beside them: fixed memory, in a public record whose fields are promised.
#[derive(Clone, Copy)]
pub struct Table {
    pub ids: [u8; 1024],
    pub counts: [u64; 64],
    pub count: u32,
    pub others: u64,
}

// The table with an id behind it, where it has room and does not have it yet.
#[tactic(auto, using(crate::proofs::Entering::entries))]
fn enter(t: Table, id: &[u8]) -> Table
    requires { (t.count ≤ 64) × (length id.now ≡ 16) }
    ensures { result ≡ entered_in t id.now }
{
    let count = t.count as usize;
    let mut ids = t.ids;
    if has_id(&ids, count, id) || 64 <= count {
        return t;
    }
    let mut counts = t.counts;
    counts[count] = 0;
    put_octets(&mut ids, field::ID * count, id);
    Table {
        ids,
        counts,
        count: t.count + 1,
        others: t.others,
    }
}

// The table with each id of a list entered in order.
fn enter_all(t: Table, list: &[u8]) -> Table
    requires { t.count ≤ 64 }
    ensures { result ≡ entered_all_in t (ids_of list.now) }
{
    let mut entered = t;
    for id in list.chunks_exact(field::ID) {
        entered = enter(entered, id);
    }
    entered
}

// One where a list has the id.
fn one_listed(list: &[u8], id: &[u8]) -> u64
    ensures { result ≡ one (mem id.now (ids_of list.now)) }
{
    u64::from(has_id(list, list.len() / field::ID, id))
}

// Each count, with one more where the list has its id: a repeat inside the list counts once.
fn tick(ids: &[u8], n: usize, counts: [u64; 64], list: &[u8]) -> [u64; 64]
    requires { (n ≤ 64) × (n * 16 ≤ length ids.now) × ((j : ℕ) → get_or counts j 0 < 9223372036854775808) }
    ensures { result ≡ ticked_from ids.now (ids_of list.now) n 0 counts }
{
    let mut ticked = counts;
    for k in 0..n {
        let at = k * field::ID;
        ticked[k] += one_listed(list, &ids[at..at + field::ID]);
    }
    ticked
}

// One where a list has an id that is none of the n.
fn one_beyond(ids: &[u8], n: usize, list: &[u8]) -> u64
    requires { n * 16 ≤ length ids.now }
    ensures { result ≡ one (not (all_in (ids_of list.now) (ids_at n ids.now))) }
{
    let all = list.chunks_exact(field::ID).all(|id| has_id(ids, n, id));
    u64::from(!all)
}

// The table with a message more, whose schemes stand in a list.
pub fn add_offer(t: Table, list: &[u8]) -> Table
    requires { Counting t }
    ensures { result ≡ offered_in t (ids_of list.now) }
{
    let entered = enter_all(t, list);
    let count = entered.count as usize;
    let ids = entered.ids;
    let counts = tick(&ids, count, entered.counts, list);
    let beyond = one_beyond(&ids, count, list);
    Table {
        ids,
        counts,
        count: entered.count,
        others: entered.others + beyond,
    }
}
