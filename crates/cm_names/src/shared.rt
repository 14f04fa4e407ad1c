//! Values that several owners share.

ghost use Rattle.std.specs.Prelude.{◌≡◌, IfOk};

use crate::{Memory, Plain};
use std::alloc::{AllocError, Global};
use std::fmt;
use std::marker::Model;
use std::sync::Arc;

/// A value that several owners share, and that none of them changes. Contracts see it as the value
/// itself.
///
/// A copy takes no memory and doesn't copy the value, which goes with its last owner.
pub struct Shared<T> {
    value: Arc<T>,
}

impl<T> Model for Shared<T> {
    ghost use Rattle.std.specs.Arc.{arc_value};

    ghost Value = { T };

    ghost view = { λ a. arc_value a.value };
}

impl<T: Drop> Drop for Shared<T> {
    /// Called where the value goes: gives back the memory of its parts.
    fn drop(self) {
        let Shared { value: _ } = self;
    }
}

impl<T: Drop> Shared<T> {
    /// The value, to be shared. `Err(Memory)` comes where memory runs out.
    pub fn new(alloc: Global, value: T) -> Result<Shared<T>, Memory>
        ensures { IfOk result (λ shared. shared ≡ value) }
    {
        let value = Arc::new(alloc, value)?;
        Ok(Shared { value })
    }

    /// The value, borrowed; nobody changes it.
    pub fn get(&self) -> &T
        ensures { result.now ≡ self.now }
    {
        self.value.as_ref()
    }
}

/// `Err`, which callers take for lack of memory, comes where the value has more owners than can be
/// counted; no contract says so.
impl<T: Drop> Clone for Shared<T> {
    ghost use Rattle.std.specs.Prelude.{◌≡◌};

    ghost is_clone = { λ a b. b ≡ a };

    /// A copy that shares the contents; it takes no memory.
    fn clone(&self) -> Result<Shared<T>, AllocError> {
        let value = Arc::try_clone(&self.value)?;
        Ok(Shared { value })
    }
}

impl<T: Drop> Plain for Shared<T> {
    ghost exact = { λ a b same. same };
}

/// Two shared values are equal where the values are.
impl<T: PartialEq> PartialEq for Shared<T> {
    ghost eq = { T.eq };

    ghost laws = { T.laws };

    /// Compares the values, not where they stand.
    fn eq(&self, other: &Shared<T>) -> bool {
        self.value == other.value
    }
}

impl<T: Eq> Eq for Shared<T> {
    ghost laws = { T.Eq.laws };
}

/// It is written as the value.
impl<T: fmt::Debug> fmt::Debug for Shared<T> {
    ghost debug_output = { T.debug_output };

    /// Writes the value.
    fn fmt<W: fmt::Write>(&self, f: &mut fmt::Formatter<W>) -> fmt::Result {
        self.value.fmt(f)
    }
}
