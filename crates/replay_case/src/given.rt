// The lines of a case: a side's file, and its marks with its list.
ghost use Rattle.std.specs.Prelude.{◌≡◌, length};
ghost use Rattle.replay_case.specs.Given.{behind_word, given_as, given_of};
ghost use Rattle.replay_case.specs.Steps.{IsName};

use script::Kind;
use script::field::{behind, field};
use script::value::{number_in, rest_in};

// What a line `E MARKS ID ID ..` says: the marks, and how many octets of ids stand at the front of the lent slice.
#[derive(Clone, Copy)]
pub struct GivenText {
    pub marks: u32,
    pub length: usize,
}

// The name behind the word at the front of a line.
#[tactic(auto, using(octets::proofs::Same::compared), unfolding(crate::specs::Given::behind_word))]
pub(crate) fn read_name<'a>(line: &'a [u8], word: &[u8]) -> Option<&'a [u8]>
    ensures { IsName (behind_word word.now line.now) result }
{
    let name = line.strip_prefix(word)?;
    if name.is_empty() {
        return None;
    }
    Some(name)
}

// The marks and the ids of a line whose first field is a word.
#[tactic(auto, using(octets::proofs::Same::compared, script::proofs::Places::from_start), unfolding(crate::specs::Given::given_of))]
pub(crate) fn read_given(line: &[u8], word: &[u8], lent: &mut [u8]) -> Option<GivenText>
    ensures { given_as result lent.new ≡ given_of word.now line.now (length lent.old) }
{
    if field(line, 0) != word {
        return None;
    }
    let from = behind(line, 0);
    let marks = number_in(line, from, Some(Kind::Marks))?;
    let length = rest_in(line, behind(line, from), Some(Kind::Ids), lent)?;
    Some(GivenText { marks, length })
}
