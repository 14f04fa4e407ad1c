//! Whether a capability binds the order of stops.

use crate::Plain;
use std::fmt;

/// Whether a use or an offer binds the order in which components stop.
///
/// This is `dependency` of Fuchsia's component manifest reference (fuchsia.dev).
#[derive(Debug, Clone, Copy, PartialEq, Eq)]
pub enum Dependency {
    /// The user stops before the provider, so strong dependencies may form no cycle.
    Strong,
    /// The order of stops is free.
    Weak,
}

impl Plain for Dependency {
    ghost use Rattle.std.proofs.Common.{rules};

    ghost exact = { Prim.search rules };
}

impl fmt::Display for Dependency {
    ghost use Rattle.std.specs.Prelude.{Some};
    ghost use Rattle.cm_names.specs.Availability.{dependency_word};

    ghost output = { λ dependency. Some (dependency_word dependency) };

    /// Writes the manifest's word.
    fn fmt<W: fmt::Write>(&self, f: &mut fmt::Formatter<W>) -> fmt::Result {
        match self {
            Dependency::Strong => f.write_str("strong"),
            Dependency::Weak => f.write_str("weak"),
        }
    }
}
