// The lines of a text, one after the other.
#![tactic(auto)]

ghost use Rattle.std.specs.Prelude.{◌≡◌, ◌<◌, ◌∷◌, [], length, MatchOption};
ghost use Rattle.text_lines.specs.Lines.{lines, first_line, CallsEach};

use scan::find;

// A text's first line, without its line end, and what stands behind that; `None` of an empty text.
pub fn split_line(text: &[u8]) -> Option<(&[u8], &[u8])>
    ensures { MatchOption result (text.now ≡ []) (λ p. (lines text.now ≡ p.0.now ∷ lines p.1.now)
        × (length p.1.now < length text.now)) }
{
    if text.is_empty() {
        return None;
    }
    let end = find(text, 0, text.len(), b'\n');
    if end == text.len() {
        return Some((text, &text[end..]));
    }
    Some((&text[..end], &text[end + 1..]))
}

// A text's first line, without its line end; none of an empty text.
pub fn first_line(text: &[u8]) -> &[u8]
    ensures { result.now ≡ first_line text.now }
{
    match split_line(text) {
        Some((line, _)) => line,
        None => text,
    }
}

// Calls `visit` with each line of a text, in order; the last may lack its line end.
pub fn each_line<F: FnMut(&[u8])>(text: &[u8], mut visit: F)
    requires { F.IsAlwaysCallable visit }
    ensures { CallsEach F.FnMut visit (lines text.now) }
{
    let mut rest = text;
    while let Some((line, behind)) = split_line(rest) {
        visit(line);
        rest = behind;
    }
}
