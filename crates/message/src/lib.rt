// One message: its kind, its header, and its checks by itself.
#![tactic(auto)]

ghost use Rattle.std.specs.Prelude.{◌≡◌, ◌≤◌, length};
ghost use Rattle.refusal.specs.Refusals.{refusal_number};
ghost use Rattle.message.specs.Layout.{shape_of, shape_as, header_of};
ghost use Rattle.message.specs.Check.{said, refusal_of, header_verdict, message_verdict, body_verdict, Passed};

use octets::{le_u32, le_u64};
use refusal::Refusal;

pub mod alert;
pub mod element;
pub mod exchange;
pub mod field;
pub mod nego;
pub mod verify;
pub mod walk;

// The four layouts of a header: what functions that differ by kind are taken apart by.
#[derive(Clone, Copy, PartialEq, Eq)]
pub enum Shape {
    Nego,
    Exchange,
    Verify,
    Alert,
}

// A message's kind, by its type number.
#[derive(Clone, Copy)]
pub struct Kind(pub u32);

impl Kind {
    pub const INITIATOR_NEGO: u32 = 0;

    pub const ACCEPTOR_NEGO: u32 = 1;

    pub const INITIATOR_META_DATA: u32 = 2;

    pub const ACCEPTOR_META_DATA: u32 = 3;

    pub const CHALLENGE: u32 = 4;

    pub const AP_REQUEST: u32 = 5;

    pub const VERIFY: u32 = 6;

    pub const ALERT: u32 = 7;

    pub const NEGO_HEADER: u32 = 96;

    pub const EXCHANGE_HEADER: u32 = 64;

    pub const VERIFY_HEADER: u32 = 80;

    pub const ALERT_HEADER: u32 = 72;

    // The header sizes, as lengths of a slice.
    pub const NEGO_HEADER_LEN: usize = Kind::NEGO_HEADER as usize;

    pub const EXCHANGE_HEADER_LEN: usize = Kind::EXCHANGE_HEADER as usize;

    pub const VERIFY_HEADER_LEN: usize = Kind::VERIFY_HEADER as usize;

    pub const ALERT_HEADER_LEN: usize = Kind::ALERT_HEADER as usize;

    pub fn initiator_nego() -> Kind
        ensures { result.0 ≡ 0 }
    {
        Kind(Kind::INITIATOR_NEGO)
    }

    pub fn acceptor_nego() -> Kind
        ensures { result.0 ≡ 1 }
    {
        Kind(Kind::ACCEPTOR_NEGO)
    }

    pub fn initiator_meta_data() -> Kind
        ensures { result.0 ≡ 2 }
    {
        Kind(Kind::INITIATOR_META_DATA)
    }

    pub fn acceptor_meta_data() -> Kind
        ensures { result.0 ≡ 3 }
    {
        Kind(Kind::ACCEPTOR_META_DATA)
    }

    pub fn challenge() -> Kind
        ensures { result.0 ≡ 4 }
    {
        Kind(Kind::CHALLENGE)
    }

    pub fn ap_request() -> Kind
        ensures { result.0 ≡ 5 }
    {
        Kind(Kind::AP_REQUEST)
    }

    pub fn verify() -> Kind
        ensures { result.0 ≡ 6 }
    {
        Kind(Kind::VERIFY)
    }

    pub fn alert() -> Kind
        ensures { result.0 ≡ 7 }
    {
        Kind(Kind::ALERT)
    }

    // The kind with a type number that passed check 4.
    pub fn of(number: u32) -> Kind
        requires { number ≤ 7 }
        ensures { result.0 ≡ number }
    {
        match number {
            Kind::INITIATOR_NEGO => Kind::initiator_nego(),
            Kind::ACCEPTOR_NEGO => Kind::acceptor_nego(),
            Kind::INITIATOR_META_DATA => Kind::initiator_meta_data(),
            Kind::ACCEPTOR_META_DATA => Kind::acceptor_meta_data(),
            Kind::CHALLENGE => Kind::challenge(),
            Kind::AP_REQUEST => Kind::ap_request(),
            Kind::VERIFY => Kind::verify(),
            _ => Kind::alert(),
        }
    }

    // The layout of the kind's header.
    #[tactic(auto, unfolding(crate::specs::Layout::shape_of))]
    pub fn shape(self) -> Shape
        ensures { shape_as result ≡ shape_of self.0 }
    {
        match self.0 {
            ..=Kind::ACCEPTOR_NEGO => Shape::Nego,
            ..=Kind::AP_REQUEST => Shape::Exchange,
            Kind::VERIFY => Shape::Verify,
            _ => Shape::Alert,
        }
    }

    // The kind's header length.
    pub fn header(self) -> u32
        ensures { result ≡ header_of (shape_of self.0) }
    {
        match self.shape() {
            Shape::Nego => Kind::NEGO_HEADER,
            Shape::Exchange => Kind::EXCHANGE_HEADER,
            Shape::Verify => Kind::VERIFY_HEADER,
            Shape::Alert => Kind::ALERT_HEADER,
        }
    }
}

// The fields of a common header that passed its checks.
#[derive(Clone, Copy)]
pub struct Header {
    pub kind: Kind,
    pub sequence: u32,
    pub header: u32,
    pub length: u32,
}

// "NEGOEXTS", the octets 4E 45 47 4F 45 58 54 53, as a little-endian number.
const SIGNATURE: u64 = 0x5354_5845_4F47_454E;

// Checks 2 to 6 of the message at the front of `rest`.
pub fn read_header(rest: &[u8]) -> Result<Header, Refusal>
    ensures { said result ≡ header_verdict rest.now }
{
    if rest.len() < field::COMMON_HEADER {
        return Err(Refusal::TooShort);
    }
    if le_u64(rest, field::SIGNATURE) != SIGNATURE {
        return Err(Refusal::Signature);
    }
    let number = le_u32(rest, field::TYPE);
    if Kind::ALERT < number {
        return Err(Refusal::Type);
    }
    let kind = Kind::of(number);
    let header = le_u32(rest, field::HEADER_LENGTH);
    if header != kind.header() {
        return Err(Refusal::HeaderLength);
    }
    let length = le_u32(rest, field::MESSAGE_LENGTH);
    if length < header {
        return Err(Refusal::MessageLength);
    }
    if rest.len() < length as usize {
        return Err(Refusal::MessageLength);
    }
    Ok(Header {
        kind,
        sequence: le_u32(rest, field::SEQUENCE),
        header,
        length,
    })
}

// Checks 10 to 13 of the message m: the first that refuses it.
pub fn check(kind: Kind, m: &[u8]) -> Result<(), Refusal>
    requires { header_of (shape_of kind.0) ≤ length m.now }
    ensures { refusal_number result ≡ refusal_of (shape_of kind.0) m.now }
{
    match kind.shape() {
        Shape::Nego => nego::check(m),
        Shape::Exchange => exchange::check(m),
        Shape::Verify => verify::check(m),
        Shape::Alert => alert::check(m),
    }
}

// Checks 10 to 13 of the message at the front of `rest`, whose header is h.
pub fn read_body(rest: &[u8], h: Header) -> Result<Header, Refusal>
    requires { Passed rest.now h }
    ensures { said result ≡ body_verdict rest.now h }
{
    let length = h.length as usize;
    check(h.kind, &rest[..length])?;
    Ok(h)
}

// Checks 2 to 6 and 10 to 13 of the message at the front of `rest`: all that can be asked of a message by itself.
pub fn read_message(rest: &[u8]) -> Result<Header, Refusal>
    ensures { said result ≡ message_verdict rest.now }
{
    let reading = read_header(rest);
    let Ok(h) = reading else {
        return reading;
    };
    read_body(rest, h)
}
