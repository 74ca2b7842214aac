// The text of a case: four lines, in their order.
#![tactic(auto)]

ghost use Rattle.std.specs.Prelude.{◌≡◌, length};
ghost use Rattle.replay_case.specs.Case.{case_as, case_in, counts as Case·counts};
ghost use Rattle.replay_case.specs.Steps.{NextLine, FourLines};

use fields::part;
use given::{GivenText, read_given, read_name};
use scan::find;

pub mod given;

// What a case says: the names of the two files, and the marks and the number of the ids' octets of each side.
#[derive(Clone, Copy)]
pub struct CaseText<'a> {
    pub initiator: &'a [u8],
    pub acceptor: &'a [u8],
    pub i: GivenText,
    pub a: GivenText,
}

// Whether a line is neither empty nor a comment.
#[tactic(auto, using(crate::proofs::Lines::counts_none, crate::proofs::Lines::counts_first))]
fn counts(line: &[u8]) -> bool
    ensures { result ≡ Case·counts line.now }
{
    !line.is_empty() && line[0] != b'#'
}

// The first line of a text that counts, and the text behind it.
fn next_line(text: &[u8]) -> Option<(&[u8], &[u8])>
    ensures { NextLine text.now result }
{
    let mut rest = text;
    // No range: the step of a turn is a line's length.
    while !rest.is_empty() {
        let end = find(rest, 0, rest.len(), b'\n');
        let line = &rest[..end];
        rest = part(rest, end + 1, rest.len());
        if counts(line) {
            return Some((line, rest));
        }
    }
    None
}

// The four lines of a text that count, where there are four and no fifth.
fn four_lines(text: &[u8]) -> Option<(&[u8], &[u8], &[u8], &[u8])>
    ensures { FourLines text.now result }
{
    let (first, behind_first) = next_line(text)?;
    let (second, behind_second) = next_line(behind_first)?;
    let (third, behind_third) = next_line(behind_second)?;
    let (fourth, behind_fourth) = next_line(behind_third)?;
    let fifth = next_line(behind_fourth);
    if fifth.is_some() {
        return None;
    }
    Some((first, second, third, fourth))
}

// Reads the text of a case. The ids of each side are put at the front of its slice.
#[tactic(auto, using(crate::proofs::Cases::case_count))]
pub fn read_case<'a>(text: &'a [u8], ilist: &mut [u8], alist: &mut [u8]) -> Option<CaseText<'a>>
    ensures { case_as result ilist.new alist.new ≡ case_in text.now (length ilist.old)
        (length alist.old) }
{
    let (first, second, third, fourth) = four_lines(text)?;
    let initiator = read_name(first, b"initiator ")?;
    let acceptor = read_name(second, b"acceptor ")?;
    let i = read_given(third, b"i", ilist)?;
    let a = read_given(fourth, b"a", alist)?;
    Some(CaseText {
        initiator,
        acceptor,
        i,
        a,
    })
}
