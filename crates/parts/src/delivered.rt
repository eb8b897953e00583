// What may be done with a message of any kind, as a part of the bytes in which it was delivered.
ghost use Rattle.std.specs.Prelude.{◌≡◌, ◌-◌, ℕ, List, Option, Some, length, take};
ghost use Rattle.std.specs.Option.{option_map};
ghost use Rattle.terms.specs.Numbers.{tag_bytes};
ghost use Rattle.counter.specs.Statements.{Stated, stated};
ghost use Rattle.xdr.specs.Laws.{Exact};
ghost use Rattle.xdr.specs.Reading.{value_and_rest, int_from};
ghost use Rattle.parts.specs.Reading.{type_from, of_type, whole};

use counter::Statement;
use terms::{GroupSize, TAG_BYTES};

/// A message of one kind. It is still a part of the bytes in which it was delivered.
pub trait Delivered<'a>: Sized + Drop {
    /// The number of its type.
    ghost number: { ℕ };

    /// The messages within the limits.
    ghost fits: { Self → Type 0 };

    /// The bytes of a message.
    ghost layout: { Self → List ℕ };

    /// The message that the bytes behind a type begin with, and what stands behind it.
    ghost rest_from: { List ℕ → Option (Self × List ℕ) };

    /// The statement for which it is tagged in a group of so many seats.
    ghost says: { ℕ → Self → Stated };

    /// The number of its type.
    fn type_number() -> u32
        ensures { result ≡ number };

    /// Reads the rest of a message whose type was read, or answers None where none of its kind stands there.
    /// The bytes are the only writing of the message that they read as.
    fn read_rest(bytes: &'a [u8], rest: &'a [u8]) -> Option<(Self, &'a [u8])>
        requires { type_from number bytes.now ≡ Some (number, rest.now) }
        ensures value { option_map value_and_rest result ≡ rest_from rest.now }
        ensures exact { Exact fits layout (of_type number rest_from) };

    /// The bytes of the whole message, which is within the limits.
    fn bytes(&self) -> &'a [u8]
        ensures value { result.now ≡ layout self.now }
        ensures fits { fits self.now };

    /// The statement for which the message is tagged in a group. Its message is a part of the delivered bytes, too.
    fn statement(&self, group: GroupSize) -> Statement<'a>
        ensures { stated result ≡ says group.seats self.now };
}

// Reads a message of one kind from the front of bytes: a message in another one.
pub(crate) fn read_nested<'a, M: Delivered<'a>>(bytes: &'a [u8]) -> Option<(M, &'a [u8])>
    ensures { option_map value_and_rest result ≡ of_type M.Delivered.number M.Delivered.rest_from bytes.now }
{
    let (found, rest) = split_type(bytes)?;
    if found != M::type_number() {
        return None;
    }
    M::read_rest(bytes, rest)
}

// Reads the rest of a message that is all of the bytes.
pub fn read_whole<'a, M: Delivered<'a>>(bytes: &'a [u8], rest: &'a [u8]) -> Option<M>
    requires { type_from M.Delivered.number bytes.now ≡ Some (M.Delivered.number, rest.now) }
    ensures { result ≡ whole (M.Delivered.rest_from rest.now) }
{
    let (message, rest) = M::read_rest(bytes, rest)?;
    if !rest.is_empty() {
        return None;
    }
    Some(message)
}

// The type that begins bytes, and the rest, which is read by that type.
pub fn split_type(bytes: &[u8]) -> Option<(u32, &[u8])>
    ensures { option_map value_and_rest result ≡ int_from bytes.now }
{
    let [a, b, c, d, rest @ ..] = bytes else {
        return None;
    };
    Some((u32::from_be_bytes([*a, *b, *c, *d]), rest))
}

// The bytes before a rest that was left of them.
pub fn before<'a>(bytes: &'a [u8], rest: &[u8]) -> &'a [u8]
    ensures { result.now ≡ take (length bytes.now - length rest.now) bytes.now }
{
    &bytes[..bytes.len().saturating_sub(rest.len())]
}

// A message's bytes without its tag.
pub fn untagged(bytes: &[u8]) -> &[u8]
    ensures { result.now ≡ take (length bytes.now - tag_bytes) bytes.now }
{
    &bytes[..bytes.len().saturating_sub(TAG_BYTES)]
}
