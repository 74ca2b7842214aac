// Where the token stands in an envelope.
#![tactic(auto)]

ghost use Rattle.std.specs.Prelude.{◌≡◌};
ghost use Rattle.envelope.specs.Answers.{shown};
ghost use Rattle.envelope_token.specs.Tokens.{span_in, carried_of, said, TokenAt};

use der::Part;
use envelope::{Envelope, read_envelope};
use refusal::Refusal;

// The token's place and length.
#[derive(Clone, Copy)]
pub struct Carried {
    pub place: u32,
    pub length: u32,
}

// The span of a token, behind which the checksum alone stands.
fn span(s: &[u8], token: Option<Part>, checksum: Option<Part>) -> Result<Carried, Refusal>
    requires { TokenAt s.now token checksum }
    ensures { said result ≡ span_in s.now (shown s.now token) (shown s.now checksum) }
{
    let part = token.ok_or(Refusal::Argument)?;
    Ok(Carried {
        place: part.from as u32,
        length: (part.end - part.from) as u32,
    })
}

// Where the token stands in the envelope in a buffer.
pub fn find_token(s: &[u8]) -> Result<Carried, Refusal>
    ensures { said result ≡ carried_of s.now }
{
    match read_envelope(s)? {
        Envelope::Init(i) => span(s, i.token, i.checksum),
        Envelope::Resp(r) => span(s, r.token, r.checksum),
    }
}
