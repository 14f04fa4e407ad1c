//! The one text of a declaration.

ghost use Rattle.std.specs.Prelude.{◌≡◌, IfOk, Ok};
ghost use Rattle.cm_read.specs.Manifest.{decl_of_json};
ghost use Rattle.cm_read.specs.Readable.{IsReadable};
ghost use Rattle.cm_write.specs.Writing as spec;

use cm_decl::Decl;
use cm_names::{Memory, Text};
use cm_write::value_of;
use std::alloc::Global;

/// The one text of a declaration: a manifest in compact JSON, with the keys of each object in byte
/// order. A journal tells by it what a resolve declared (`cm_reply`), and the manifests of a made workload
/// are such texts (`cm_call`).
///
/// All sections that list rows are there, but `environments` only where there are any, and `program`
/// where there is a runner. There is an item for each row, in which nothing is left to a default,
/// so that `as` and `path` always stand there; those of storages stand last in their sections, and
/// uses of debug protocols before them. `environment`, `rights` and `subdir` are there where the row
/// has them, rights as the names of the single rights in the order `connect`, `enumerate`, `execute`,
/// `get_attributes`, `modify_directory`, `read_bytes`, `traverse`, `update_attributes`, `write_bytes`.
/// `to` of an expose is left out, and so are `source_availability` and the availability of storages
/// and debug protocols, which aren't kept. An environment has `debug`, `extends`, `name` and
/// `runners`, a registration all its fields. The shape of the text is this project's own.
///
/// A readable declaration (`IsReadable`) is read back by [`read_decl_text`](crate::read_decl_text).
/// `Err(Memory)` where memory runs out.
#[tactic(auto, using(crate::proofs::lemmas::back::Pair::text_reads_back))]
pub fn write_decl(alloc: Global, decl: &Decl) -> Result<Text, Memory>
    ensures text { IfOk result (λ text. text ≡ spec.decl_text decl.now) }
    ensures reads_back { IfOk result
        (λ text. IsReadable decl.now → decl_of_json text ≡ Ok decl.now) }
{
    let value = value_of(alloc, decl)?;
    let text = Text::from_string(value.to_string(alloc)?)?;
    Ok(text)
}
