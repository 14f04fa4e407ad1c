//! Parts of a manifest.

use cm_names::Plain;
use std::fmt;

/// The part of a manifest that a fault stands in.
///
/// It is written as the manifest's own word, by Fuchsia's component manifest reference
/// (fuchsia.dev); `Manifest` and `Graph`, which are no sections of it, as `manifest` and
/// `graph`.
#[derive(Debug, Clone, Copy, PartialEq, Eq, PartialOrd, Ord)]
pub enum Section {
    /// The manifest as a whole.
    Manifest,
    /// `program`, which names the runner.
    Program,
    /// `children`.
    Children,
    /// `collections`.
    Collections,
    /// `capabilities`.
    Capabilities,
    /// `use`.
    Uses,
    /// `offer`.
    Offers,
    /// `expose`.
    Exposes,
    /// `environments`.
    Environments,
    /// The realm graph, which is made of several sections.
    Graph,
}

impl Plain for Section {
    ghost use Rattle.std.proofs.Common.{rules};

    ghost exact = { Prim.search rules };
}

impl fmt::Display for Section {
    ghost use Rattle.std.specs.Prelude.{Some};
    ghost use Rattle.cm_decl.specs.Words.{section_word};

    ghost output = { λ section. Some (section_word section) };

    /// Writes the word by which faults tell the section.
    fn fmt<W: fmt::Write>(&self, f: &mut fmt::Formatter<W>) -> fmt::Result {
        match self {
            Section::Manifest => f.write_str("manifest"),
            Section::Program => f.write_str("program"),
            Section::Children => f.write_str("children"),
            Section::Collections => f.write_str("collections"),
            Section::Capabilities => f.write_str("capabilities"),
            Section::Uses => f.write_str("use"),
            Section::Offers => f.write_str("offer"),
            Section::Exposes => f.write_str("expose"),
            Section::Environments => f.write_str("environments"),
            Section::Graph => f.write_str("graph"),
        }
    }
}
