//! Why a tree is no message, and where.

use feed_values::Text;
use std::alloc::AllocError;

/// The first fault of a tree with its path, or want of memory.
///
/// A path is the keys from the root, joined by dots, with `[i]` behind the key of an array for its item number i from 0.
/// The root's path is empty. That of a missing or unknown key ends with the key, also where the key is the empty text.
#[derive(Debug, Drop)]
pub enum JsonFault {
    /// A value isn't an object, an array, a text, a truth value or a whole number, where it should be that. A number is
    /// whole where it is written without a point and an exponent, isn't `-0`, and lies from -2^63 to 2^64 - 1.
    WrongKind(Text),
    /// An object has a key that is no field of its message and isn't `unknown`: the first such key in byte order. Of an
    /// unknown field, a key beside `number`, `wire` and `value`.
    UnknownKey(Text),
    /// A number is outside the range of its type, no number of its enum, or DIFFERENTIAL at a header's incrementality. Of
    /// an unknown field: a number outside 1 to 2^29 - 1, a wire type other than 0, 1, 2, 3 and 5, digits that aren't an
    /// even number of hexadecimal ones, bytes that no group holds, or a field that is of a slot of its message, unless the
    /// slot came later and takes its value.
    OutOfRange(Text),
    /// A field that has to be there isn't.
    MissingKey(Text),
    /// No memory was left for the message, or for the path of its fault.
    Memory,
}

impl From<AllocError> for JsonFault {
    ghost use Rattle.std.specs.Prelude.{◌≡◌};
    ghost use Rattle.feed_json.specs.declared.json_fault.JsonFault.TheVariants as fault;

    ghost from_gives = { λ _ e. e ≡ fault.Memory };

    fn from(_error: AllocError) -> JsonFault {
        JsonFault::Memory
    }
}
