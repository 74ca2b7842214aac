// The text of a tally, in a lent slice.
#![tactic(auto)]

ghost use Rattle.std.specs.Prelude.{◌≡◌, ◌≤◌, ◌*◌, length, take};
ghost use Rattle.message.specs.Show.{ids_at};
ghost use Rattle.text.specs.Text.{text, written};
ghost use Rattle.tallying.specs.Tally.{totals_in};
ghost use Rattle.tally_lines.specs.Lines.{total_line, number_line, type_lines, answer_line, answer_lines, scheme_line, scheme_lines, octet_lines, last_lines, shown_text};

use message::field;
use offers::Table;
use tallying::Tally;
use text::{append, id, wide_field};

// A word and a number.
fn total_line(d: &mut [u8], at: usize, word: &[u8], number: u64) -> usize
    ensures { text d.new result ≡ written (total_line word.now number) (text d.old at) }
{
    let number_end = wide_field(d, at, word, number as usize);
    append(d, number_end, b"\n")
}

// A word, the number that is counted, and its count.
fn number_line(d: &mut [u8], at: usize, word: &[u8], number: usize, count: u64) -> usize
    ensures { text d.new result ≡ written (number_line word.now number count) (text d.old at) }
{
    let number_end = wide_field(d, at, word, number);
    let count_end = wide_field(d, number_end, b" count=", count as usize);
    append(d, count_end, b"\n")
}

// The counts of the types.
fn type_lines(d: &mut [u8], at: usize, types: &[u64]) -> usize
    ensures { text d.new result ≡ written (type_lines 0 types.now) (text d.old at) }
{
    let mut next = at;
    for (k, count) in types.iter().enumerate() {
        next = number_line(d, next, b"type ", k, *count);
    }
    next
}

// The count of a refusal; nothing for 0, which is accepted, and nothing where it was not given.
fn refused_line(d: &mut [u8], at: usize, number: usize, count: u64) -> usize
    ensures { text d.new result ≡ written (answer_line number count) (text d.old at) }
{
    if number == 0 {
        return at;
    }
    if count == 0 {
        return at;
    }
    number_line(d, at, b"refused ", number, count)
}

// The counts of the refusals.
fn refused_lines(d: &mut [u8], at: usize, answers: &[u64]) -> usize
    ensures { text d.new result ≡ written (answer_lines 0 answers.now) (text d.old at) }
{
    let mut next = at;
    for (k, count) in answers.iter().enumerate() {
        next = refused_line(d, next, k, *count);
    }
    next
}

// A scheme and its count.
fn scheme_line(d: &mut [u8], at: usize, scheme: &[u8], count: u64) -> usize
    ensures { text d.new result ≡ written (scheme_line scheme.now count) (text d.old at) }
{
    let id_start = append(d, at, b"scheme ");
    let id_end = id(d, id_start, scheme);
    let count_end = wide_field(d, id_end, b" count=", count as usize);
    append(d, count_end, b"\n")
}

// The counts of the first schemes, `count` of them.
fn scheme_lines(d: &mut [u8], at: usize, ids: &[u8], counts: &[u64], count: usize) -> usize
    requires { (count * 16 ≤ length ids.now) × (count ≤ length counts.now) }
    ensures { text d.new result ≡ written (scheme_lines (ids_at count ids.now) (take count counts.now))
        (text d.old at) }
{
    let mut next = at;
    for k in 0..count {
        let from = k * field::ID;
        let end = from + field::ID;
        next = scheme_line(d, next, &ids[from..end], counts[k]);
    }
    next
}

// The counts of the schemes of a table.
fn table_lines(d: &mut [u8], at: usize, table: Table) -> usize
    requires { table.count ≤ 64 }
    ensures { text d.new result ≡ written (scheme_lines (ids_at table.count table.ids) (take table.count table.counts))
        (text d.old at) }
{
    scheme_lines(d, at, &table.ids, &table.counts, table.count as usize)
}

// The totals of octets.
fn octet_lines(d: &mut [u8], at: usize, t: Tally) -> usize
    ensures { text d.new result ≡ written (octet_lines (totals_in t)) (text d.old at) }
{
    let headers_end = total_line(d, at, b"headers=", t.headers);
    let vectors_end = total_line(d, headers_end, b"vectors=", t.vectors);
    total_line(d, vectors_end, b"bare=", t.bare)
}

// The count of the messages that list other schemes, and that of the names which aren't opened.
fn last_lines(d: &mut [u8], at: usize, t: Tally, unopened: u64) -> usize
    ensures { text d.new result ≡ written (last_lines (totals_in t) unopened) (text d.old at) }
{
    let others_end = total_line(d, at, b"others count=", t.table.others);
    total_line(d, others_end, b"unopened count=", unopened)
}

// The text of a tally from the front of the slice on; nothing of one with more than 64 schemes.
pub fn tally_text(d: &mut [u8], t: Tally, unopened: u64) -> usize
    ensures { text d.new result ≡ written (shown_text t unopened) (text d.old 0) }
{
    if 64 < t.table.count {
        return 0;
    }
    let types_end = type_lines(d, 0, &t.types);
    let octets_end = octet_lines(d, types_end, t);
    let refusals_end = refused_lines(d, octets_end, &t.answers);
    let schemes_end = table_lines(d, refusals_end, t.table);
    last_lines(d, schemes_end, t, unopened)
}
