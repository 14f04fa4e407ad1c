//! Values that stand in memory of their own.

ghost use Rattle.std.specs.Prelude.{◌≡◌, IfOk};

use crate::{Memory, Plain};
use std::alloc::{AllocError, Global};
use std::marker::Model;

/// A value that stands in memory of its own, so that what has it takes no more than a pointer.
/// Contracts see it as the value itself.
///
/// A copy takes memory, and copies the value.
pub struct Boxed<T> {
    value: Box<T>,
}

impl<T> Model for Boxed<T> {
    ghost Value = { T };

    ghost view = { λ a. a.value.value };
}

impl<T: Drop> Drop for Boxed<T> {
    /// Called where the value goes: gives back the memory of its parts.
    fn drop(self) {
        let Boxed { value: _ } = self;
    }
}

impl<T: Drop> Boxed<T> {
    /// The value, in memory of its own. `Err(Memory)` comes where memory runs out; then the value
    /// is dropped.
    pub fn new(alloc: Global, value: T) -> Result<Boxed<T>, Memory>
        ensures { IfOk result (λ boxed. boxed ≡ value) }
    {
        let value = Box::new(alloc, value)?;
        Ok(Boxed { value })
    }

    /// The value, borrowed.
    pub fn get(&self) -> &T
        ensures { result.now ≡ self.now }
    {
        self.value.as_ref()
    }

    /// The value, out of its memory, which is given back.
    pub fn into_value(self) -> T
        ensures { result ≡ self }
    {
        let Boxed { value } = self;
        Box::into_inner(value)
    }
}

impl<T: Plain> Clone for Boxed<T> {
    ghost use Rattle.std.specs.Prelude.{◌≡◌};

    ghost is_clone = { λ a b. b ≡ a };

    /// A copy, which contracts see as the same value. `Err` comes where memory runs out.
    fn clone(&self) -> Result<Boxed<T>, AllocError> {
        let value = self.value.clone()?;
        Ok(Boxed { value })
    }
}

impl<T: Plain> Plain for Boxed<T> {
    ghost exact = { λ a b same. same };
}
