//! Names of children.

use crate::{Name, Plain};
use std::fmt;

/// A child's name among its siblings: its name, and the collection that it is in, if it was
/// created in one. It is written `name` or `collection:name`.
///
/// This is the child moniker of Fuchsia's component framework documentation (fuchsia.dev).
#[derive(Debug, Drop, Clone, PartialEq, Eq, PartialOrd, Ord, Hash)]
pub struct ChildName {
    /// The collection, or `None` for a child that the manifest declares.
    pub coll: Option<Name>,
    /// The child's own name.
    pub name: Name,
}

impl Plain for ChildName {
    ghost use Rattle.std.proofs.Common.{rules};

    ghost exact = { Prim.search rules };
}

impl fmt::Display for ChildName {
    ghost use Rattle.std.specs.Prelude.{Some};
    ghost use Rattle.cm_names.specs.Child.{child_text};

    ghost output = { λ child. Some (child_text child) };

    /// Writes `name`, or `collection:name`.
    fn fmt<W: fmt::Write>(&self, f: &mut fmt::Formatter<W>) -> fmt::Result {
        let name = self.name.as_str();
        match &self.coll {
            None => f.write_str(name),
            Some(coll) => write!(f, "{coll}:{name}"),
        }
    }
}
