// The messages of a token, one after the other: each with its place, as a part of the token.
#![tactic(auto)]

ghost use Rattle.std.specs.Prelude.{◌≡◌, ◌+◌, ◌<◌, ◌^◌, length};
ghost use Rattle.std.specs.Iterator.{at_most};
ghost use Rattle.messages.specs.Messages.{Passes};

use message::walk::first;
use vector::TokenPlace;

// What is left of a token, and the place at which it begins.
#[derive(Drop)]
pub struct Messages<'a> {
    pub rest: &'a [u8],
    pub place: TokenPlace,
    ghost within: { place.0 + length rest.now < 2 ^ 64 },
}

impl<'a> Iterator for Messages<'a> {
    type Item = (TokenPlace, &'a [u8]);

    ghost next_gives = { Passes (λ s. s.rest.now) (λ s. s.place.0) (λ x. x.0.0) (λ x. x.1.now) };

    ghost remaining = { λ s. at_most (length s.rest.now) };

    fn next(&mut self) -> Option<(TokenPlace, &'a [u8])> {
        let m = first(self.rest);
        if m.is_empty() {
            return None;
        }
        let place = self.place;
        self.rest = &self.rest[m.len()..];
        self.place = TokenPlace(place.0 + m.len());
        Some((place, m))
    }
}

impl<'a> Messages<'a> {
    // The messages of a token, from its front on.
    pub fn of(token: &'a [u8]) -> Messages<'a>
        ensures rest { result.rest.now ≡ token.now }
        ensures place { result.place.0 ≡ 0 }
    {
        Messages {
            rest: token,
            place: TokenPlace(0),
        }
    }
}
