//! Kinds of capabilities.

use cm_names::Plain;
use std::fmt;

/// What a capability is: an interface that is spoken to, or a tree of files.
///
/// These are the `protocol` and `directory` capabilities of Fuchsia's component manifest
/// reference (fuchsia.dev). It is written `protocol` or `directory`.
#[derive(Debug, Clone, Copy, PartialEq, Eq, PartialOrd, Ord)]
pub enum Kind {
    /// A protocol, which is connected to by its path.
    Protocol,
    /// A directory, which is opened with rights.
    Directory,
}

impl Plain for Kind {
    ghost use Rattle.std.proofs.Common.{rules};

    ghost exact = { Prim.search rules };
}

impl fmt::Display for Kind {
    ghost use Rattle.std.specs.Prelude.{Some};
    ghost use Rattle.cm_decl.specs.Words.{kind_word};

    ghost output = { λ kind. Some (kind_word kind) };

    /// Writes the manifest's word for the kind.
    fn fmt<W: fmt::Write>(&self, f: &mut fmt::Formatter<W>) -> fmt::Result {
        match self {
            Kind::Protocol => f.write_str("protocol"),
            Kind::Directory => f.write_str("directory"),
        }
    }
}
