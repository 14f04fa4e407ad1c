//! Lack of memory, the one fault that every call that allocates may answer.

use std::alloc::{AllocError, AllocFailed};
use std::fmt;

/// Memory ran out.
#[derive(Debug, Clone, Copy, PartialEq, Eq)]
pub struct Memory;

impl From<AllocError> for Memory {
    /// For `?` where an allocation fails: memory ran out.
    fn from(_: AllocError) -> Memory {
        Memory
    }
}

impl<T: Drop> From<AllocFailed<T>> for Memory {
    /// For `?` where an allocation fails: memory ran out.
    fn from(_: AllocFailed<T>) -> Memory {
        Memory
    }
}

impl fmt::Display for Memory {
    ghost use Rattle.std.specs.Prelude.{Some, codes};

    ghost output = { λ _. Some (codes "out of memory") };

    /// Writes `out of memory`.
    fn fmt<W: fmt::Write>(&self, f: &mut fmt::Formatter<W>) -> fmt::Result {
        f.write_str("out of memory")
    }
}
