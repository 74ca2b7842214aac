// The step along a token: the message at its front. What follows begins after as many octets.
ghost use Rattle.std.specs.Prelude.{◌≡◌, ◌≤◌, length};
ghost use Rattle.message.specs.Layout.{size};
ghost use Rattle.message.specs.Show.{first_of};

use super::field;
use octets::le_u32;

// The length that the message at the front of `rest` says it has: the one place where a walk reads it.
pub fn message_length(rest: &[u8]) -> usize
    requires { 24 ≤ length rest.now }
    ensures { result ≡ size rest.now }
{
    le_u32(rest, field::MESSAGE_LENGTH) as usize
}

// The message at the front of `rest`, as a part of it; nothing where its header or the octets that it counts are not all there.
pub fn first(rest: &[u8]) -> &[u8]
    ensures { result.now ≡ first_of rest.now }
{
    if rest.len() < field::COMMON_HEADER {
        return &rest[..0];
    }
    let length = message_length(rest);
    if rest.len() < length {
        return &rest[..0];
    }
    &rest[..length]
}
