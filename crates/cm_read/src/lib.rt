//! Reads component manifests, and writes declarations.
//!
//! [`read_decl`] takes the bytes of a manifest in the relaxed spelling of JSON, [`read_decl_text`]
//! plain JSON. Both answer with the declaration or with the first fault of the manifest.
//! [`write_decl`] gives the one text of a declaration, which reads as that declaration.
//!
//! `specs/` defines what a manifest declares, as functions from JSON values: `Fields` for single
//! fields, `Words` for listed words, `Items` and `Environments` for the items of each section (and
//! `Parts` for those that are read in steps), `Sections` for the rows of a section and `Manifest` for
//! the whole. `Writing` defines the text of a declaration, and `Readable` which declarations are read
//! back from their text.
#![tactic(auto)]

mod apart;
mod both;
mod environments;
mod fault;
mod fields;
mod gives;
mod items;
mod known;
pub mod laws;
mod manifest;
mod number;
mod rows;
mod sections;
mod storage;
mod words;
mod writing;

pub use fault::ReadFault;
pub use manifest::{read_decl, read_decl_text};
pub use writing::write_decl;
