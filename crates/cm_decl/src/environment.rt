//! Environments, in which runners and debug protocols are registered.

use crate::Origin;
use crate::copies::three;
use cm_names::{CapPath, List, Name, Plain};
use std::alloc::AllocError;

/// A runner or a debug protocol that an environment knows: an item of `runners` or of `debug`.
#[derive(Debug, PartialEq, Eq)]
pub struct Registration {
    /// The name that it has at its source.
    pub name: Name,
    /// Where it comes from. A valid declaration has `parent`, `self` and children in no collection
    /// alone; whether such a child is declared isn't judged.
    pub from: Origin,
    /// The name by which it is known in the environment.
    pub target: Name,
}

impl Drop for Registration {
    /// Called where the value goes: gives back the memory of its parts.
    fn drop(self) {
        let Registration {
            name: _,
            from: _,
            target: _,
        } = self;
    }
}

impl Clone for Registration {
    ghost use Rattle.std.specs.Prelude.{◌≡◌};

    ghost is_clone = { λ a b. b ≡ a };

    /// A copy, which contracts see as the same value. `Err` comes where memory runs out.
    fn clone(&self) -> Result<Registration, AllocError> {
        let (name, from, target) = three(&self.name, &self.from, &self.target)?;
        Ok(Registration { name, from, target })
    }
}

impl Plain for Registration {
    ghost exact = { λ a b same. same };
}

/// What children and the instances of collections find registered: a row of `environments`.
#[derive(Debug, PartialEq, Eq)]
pub struct Environment {
    /// Its name among the environments of this component.
    pub name: Name,
    /// Whether what isn't registered here is looked for in the component's own environment
    /// (`extends`: `realm`), or nowhere (`none`).
    pub extends: bool,
    /// The runners, in order.
    pub runners: List<Registration>,
    /// The debug protocols, in order, with one registration for each name.
    pub debug: List<Registration>,
}

impl Drop for Environment {
    /// Called where the value goes: gives back the memory of its parts.
    fn drop(self) {
        let Environment {
            name: _,
            extends: _,
            runners: _,
            debug: _,
        } = self;
    }
}

impl Clone for Environment {
    ghost use Rattle.std.specs.Prelude.{◌≡◌};

    ghost is_clone = { λ a b. b ≡ a };

    /// A copy, which contracts see as the same value. `Err` comes where memory runs out.
    fn clone(&self) -> Result<Environment, AllocError> {
        let (name, runners, debug) = three(&self.name, &self.runners, &self.debug)?;
        Ok(Environment {
            name,
            extends: self.extends,
            runners,
            debug,
        })
    }
}

impl Plain for Environment {
    ghost exact = { λ a b same. same };
}

/// A protocol that the component uses from the debug registrations of its environment: a row of
/// `use` from `debug`.
#[derive(Debug, Clone, PartialEq, Eq)]
pub struct DebugUse {
    /// The name by which it is known in the environment.
    pub name: Name,
    /// Where it stands in the namespace of the component.
    pub path: CapPath,
}

impl Drop for DebugUse {
    /// Called where the value goes: gives back the memory of its parts.
    fn drop(self) {
        let DebugUse { name: _, path: _ } = self;
    }
}

impl Plain for DebugUse {
    ghost use Rattle.std.proofs.Common.{rules};

    ghost exact = { Prim.search rules };
}
