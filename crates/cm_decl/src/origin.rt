//! Where a capability comes from.

use cm_names::{ChildName, Plain};

/// Where a row of a declaration says that its capability comes from.
///
/// This is `from` of Fuchsia's component manifest reference (fuchsia.dev).
#[derive(Debug, Clone, PartialEq, Eq)]
pub enum Origin {
    /// The parent, written `parent`.
    Parent,
    /// The component itself, written `self`.
    Own,
    /// The component manager itself, written `framework`.
    Framework,
    /// A child, written `#name` or, where it was created in a collection,
    /// `#collection:name`.
    Child(ChildName),
    /// Nowhere, written `void`: the capability is left out on purpose.
    Void,
}

impl Drop for Origin {
    /// Called where the value goes: gives back the memory of its parts.
    fn drop(self) {
        match self {
            Origin::Child(_) => {}
            Origin::Parent | Origin::Own | Origin::Framework | Origin::Void => {}
        }
    }
}

impl Plain for Origin {
    ghost use Rattle.std.proofs.Common.{rules};

    ghost exact = { Prim.search rules };
}
