//! Short texts, which stand in themselves.

ghost use Rattle.std.specs.Prelude.{◌≡◌, ◌++◌, ◌+◌, ◌≤◌, length};

use std::marker::Model;
use std::str;

/// The greatest number of bytes of a short text.
pub(crate) const MAX_SHORT_BYTES: usize = 14;

/// A text of at most 14 bytes, which takes 15 bytes and no memory beside itself.
#[derive(Clone, Copy)]
pub(crate) struct Short {
    /// Its bytes, and after them those of the unused room.
    room: [u8; MAX_SHORT_BYTES],
    /// The number of its bytes.
    count: u8,
}

impl Model for Short {
    ghost use Rattle.std.specs.Prelude.{◌≡◌, ◌≤◌, ◌++◌, length, take, drop, IsUtf8};
    ghost use Rattle.std.proofs.Common.{arith, take-append-drop, length-take-le};
    ghost use Rattle.cm_names.specs.Short.{ShortText};

    ghost Value = { ShortText };

    ghost view = { λ s. record { bytes = take s.count s.room; spare = drop s.count s.room } };

    ghost invariant = { λ s. (s.count ≤ 14) × (length s.room ≡ 14) × ∥ IsUtf8 (take s.count s.room) ∥₁ };

    ghost inverse = { λ s. record { room = s.bytes ++ s.spare; count = length s.bytes } };

    ghost inverse_ok = { λ s h i. record {
      room = take-append-drop s.count s.room i;
      count = length-take-le s.count s.room (omega (arith, h.0, h.1)) i;
    } };
}

impl Short {
    /// The bytes of the text.
    pub(crate) fn of(text: &str) -> Short
        requires { length text.now ≤ 14 }
        ensures { result.bytes ≡ text.now }
    {
        let mut room = [0; MAX_SHORT_BYTES];
        let count = text.len();
        room[..count].copy_from_slice(text.as_bytes());
        Short {
            room,
            count: count as u8,
        }
    }

    /// The bytes of both, one after the other.
    pub(crate) fn join(prefix: &str, back: &str) -> Short
        requires { length prefix.now + length back.now ≤ 14 }
        ensures { result.bytes ≡ prefix.now ++ back.now }
    {
        let mut room = [0; MAX_SHORT_BYTES];
        let middle = prefix.len();
        let count = middle + back.len();
        room[..middle].copy_from_slice(prefix.as_bytes());
        room[middle..count].copy_from_slice(back.as_bytes());
        Short {
            room,
            count: count as u8,
        }
    }

    /// The text, borrowed.
    pub(crate) fn as_str(&self) -> &str
        ensures { result.now ≡ self.now.bytes }
    {
        // The bytes are UTF-8, which the type keeps.
        unsafe { str::from_utf8_unchecked(&self.room[..self.count as usize]) }
    }
}
