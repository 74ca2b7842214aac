// What refuses a token, an envelope, a file or a call.
#![tactic(auto)]

ghost use Rattle.std.specs.Prelude.{◌≡◌};
ghost use Rattle.refusal.specs.Refusals.{number_of};

// The refusals, each with its number. 9 is none of them: pads are passed over.
#[derive(Clone, Copy, PartialEq, Eq)]
pub enum Refusal {
    // a token, an envelope or a file longer than 65,535 octets
    TooLong = 1,
    // fewer than 40 octets for a message, or an empty token
    TooShort = 2,
    Signature = 3,
    Type = 4,
    HeaderLength = 5,
    MessageLength = 6,
    Sequence = 7,
    Conversation = 8,
    Version = 10,
    Vector = 11,
    CriticalExtension = 12,
    Checksum = 13,
    // a type that is not allowed at this place of the turn
    OutOfTurn = 14,
    Scheme = 15,
    Room = 16,
    NoCommonScheme = 17,
    // a call that is not of this stage, or a record outside its limits
    Stage = 18,
    // a list, marks, metadata or an index that may not be handed in
    Argument = 19,
    // an element of an envelope that is another than asked for, is missing, or goes past its holder's end
    Element = 20,
    // an element's length that is indefinite or not the shortest form
    ElementLength = 21,
    // octets of an envelope behind what holds them
    LeftOver = 22,
    // a seventeenth mechanism
    Mechanisms = 23,
    // two files whose messages are not numbered on
    Numbering = 24,
    // a count or a value to be written that is beyond its limit
    ContentLimit = 25,
    // a critical extension to be written by a call that is no test
    CriticalWritten = 26,
    Unopened = 27,
    // schemes or a choice that an end's list and marks don't give
    Choice = 28,
}

impl Refusal {
    // The number that a host and a listing are told.
    pub fn number(self) -> u32
        ensures { result ≡ number_of self }
    {
        self as u32
    }
}
