//! Why a text has no JSON.

use cm_names::Memory;
use std::alloc::{AllocError, AllocFailed};

/// Why a text in the relaxed spelling has no JSON. Places count bytes from the text's start; the
/// fault of a text is the first by its place.
#[derive(Debug, Clone, Copy, PartialEq, Eq)]
pub enum TextFault {
    /// Between tokens, at this place, stands a character that begins neither a token nor a
    /// comment.
    BadToken(u32),
    /// The string or the `/*` that begins at this place never ends.
    Unclosed(u32),
    /// Memory ran out.
    Memory,
}

impl From<Memory> for TextFault {
    ghost use Rattle.std.specs.Prelude.{◌≡◌};
    ghost use Rattle.cm_text.specs.declared.fault.TextFault.TheVariants.{Memory as OutOfMemory};

    ghost from_gives = { λ _ e. e ≡ OutOfMemory };

    /// For `?` after a call that lacked memory.
    fn from(_e: Memory) -> TextFault {
        TextFault::Memory
    }
}

impl From<AllocError> for TextFault {
    ghost use Rattle.std.specs.Prelude.{◌≡◌};
    ghost use Rattle.cm_text.specs.declared.fault.TextFault.TheVariants.{Memory as OutOfMemory};

    ghost from_gives = { λ _ e. e ≡ OutOfMemory };

    /// For `?` where an allocation fails: memory ran out.
    fn from(_e: AllocError) -> TextFault {
        TextFault::Memory
    }
}

impl<T: Drop> From<AllocFailed<T>> for TextFault {
    ghost use Rattle.std.specs.Prelude.{◌≡◌};
    ghost use Rattle.cm_text.specs.declared.fault.TextFault.TheVariants.{Memory as OutOfMemory};

    ghost from_gives = { λ _ e. e ≡ OutOfMemory };

    /// For `?` where an allocation fails: memory ran out.
    fn from(_e: AllocFailed<T>) -> TextFault {
        TextFault::Memory
    }
}
