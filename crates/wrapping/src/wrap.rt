// Wrapping a text: its lines in order, and the line that the writer answers with.
ghost use Rattle.console.specs.Console.{Holds};

use super::draft::{Draft, Kind, Span, bad, started, with_octets, with_state};
use console::{STDOUT, with_file};
use envelope_lines::{refused_line, wrote_line};
use envelope_script::{Line, read_line};
use envelope_write::{write_init, write_resp};
use fields::part;
use refusal::Refusal;
use std::rt::Files;
use text_lines::split_line;

// A line of the text: an empty one and a comment are passed over.
fn with_line(
    draft: Draft,
    line: &[u8],
    store: &mut [u8],
    sizes: &mut [usize],
    lent: &mut [u8],
) -> Draft {
    if line.is_empty() || line[0] == b'#' {
        return draft;
    }
    match read_line(line, lent) {
        None => bad(draft),
        Some(Line::Init) => started(draft, Kind::Init),
        Some(Line::Resp) => started(draft, Kind::Resp),
        Some(Line::State(n)) => with_state(draft, n),
        Some(Line::Octets(field, n)) => {
            with_octets(draft, field, part(lent, 0, n), store, sizes)
        }
    }
}

// The lines of the text in order.
fn with_lines(text: &[u8], store: &mut [u8], sizes: &mut [usize], lent: &mut [u8]) -> Draft {
    let mut draft = Draft::EMPTY;
    let mut rest = text;
    while let Some((line, behind)) = split_line(rest) {
        draft = with_line(draft, line, store, sizes, lent);
        rest = behind;
    }
    draft
}

// The octets of a field that is there.
fn octets_of(store: &[u8], span: Option<Span>) -> Option<&[u8]> {
    let span = span?;
    Some(part(store, span.from, span.to))
}

// Writes the envelope of a draft, where all its lines were good.
fn write_draft(
    out: &mut [u8],
    draft: Draft,
    store: &[u8],
    sizes: &[usize],
) -> Option<Result<usize, Refusal>> {
    let second = octets_of(store, draft.second);
    let token = octets_of(store, draft.token);
    let checksum = octets_of(store, draft.checksum);
    match draft.kind {
        Kind::Empty | Kind::Bad => None,
        Kind::Init => Some(write_init(
            out,
            sizes.get(..draft.count).unwrap_or(sizes),
            part(store, 0, draft.list),
            second.is_some(),
            second.unwrap_or(b""),
            token.is_some(),
            token.unwrap_or(b""),
            checksum.is_some(),
            checksum.unwrap_or(b""),
        )),
        Kind::Resp => Some(write_resp(
            out,
            draft.state.is_some(),
            draft.state.unwrap_or(0),
            second.is_some(),
            second.unwrap_or(b""),
            token.is_some(),
            token.unwrap_or(b""),
            checksum.is_some(),
            checksum.unwrap_or(b""),
        )),
    }
}

// Writes the answer of the writer.
fn report(stored: Result<usize, Refusal>, out: &[u8]) {
    let mut text = [0u8; 131328];
    let end = match stored {
        Ok(n) => wrote_line(&mut text, part(out, 0, n)),
        Err(e) => refused_line(&mut text, e.number()),
    };
    io::write_all(STDOUT, part(&text, 0, end));
}

// Writes the envelope of a draft, or that a line was bad.
fn finish(draft: Draft, store: &[u8], sizes: &[usize]) {
    let mut out = [0u8; 65536];
    match write_draft(&mut out, draft, store, sizes) {
        Some(stored) => report(stored, &out),
        None => {
            io::write_all(STDOUT, b"bad line\n");
        }
    }
}

// Wraps a text. The store and the lent octets have room for half of it, which is all that its digits stand for; the sizes for its mechanisms, whose
// lines have at least eleven octets.
fn wrap(text: &[u8]) {
    let mut store = [0u8; 131072];
    let mut lent = [0u8; 131072];
    let mut sizes = [0usize; 32768];
    let draft = with_lines(text, &mut store, &mut sizes, &mut lent);
    finish(draft, &store, &sizes);
}

// Wraps the text in the file with a name, by way of a buffer that the caller lends, and writes the answer to standard output. A text that fills the buffer is
// too long.
pub fn wrap_file<R: Files>(rt: &R, name: &[u8], buf: &mut [u8]) -> Option<usize>
    ensures { Holds result buf.new }
{
    let room = buf.len();
    with_file(rt, STDOUT, name, buf, |text| {
        if text.len() == room {
            io::write_all(STDOUT, b"refused 1 at=0\n");
        } else {
            wrap(text);
        }
    })
}
