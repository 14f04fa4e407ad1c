//! Whole manifests.

ghost use Rattle.std.specs.Prelude.{◌≡◌, ◌<◌, ◌^◌, length, IfOk, IsTrue};
ghost use Rattle.serde_json.specs.Find.{get};
ghost use Rattle.serde_json.specs.View as json;
ghost use Rattle.cm_plain.specs.JsonTree.{view};
ghost use Rattle.cm_text.specs.Json.{json_of};
ghost use Rattle.cm_decl.specs.Valid.{is_well_formed};
ghost use Rattle.cm_read.specs.Manifest as spec;
ghost use Rattle.cm_read.specs.Readable.{IsReadable};
ghost use Rattle.cm_read.specs.ReadingInside.{GivesReading, GivesBy};
ghost use Rattle.cm_read.specs.Sections.{section_at};

use crate::apart::put_rows;
use crate::fault::{ReadFault, start, whole};
use crate::fields::{name_of, object_of};
use crate::known::{Object, check_keys};
use crate::number::{NOT_JSON, NOT_OBJECT, NOT_UTF8, TOO_LARGE};
use crate::rows::SectionRows;
use crate::sections::{SectionItem, section_of};
use cm_decl::{Child, Decl, Section};
use cm_names::{List, Memory, Name, Text};
use cm_plain::{JsonTree, read_plain, read_relaxed, tree_of};
use cm_text::TextFault;
use serde_json::Value;
use std::alloc::Global;

/// The most bytes of a manifest.
const MAX_BYTES: usize = 1_048_576;

/// The runner that `program` names; its other members aren't looked at.
#[tactic(auto, unfolding(crate::specs::Manifest::program_at))]
fn program_in(alloc: Global, value: &JsonTree<'_>) -> Result<Name, ReadFault>
    ensures { GivesReading result (spec.program_at (view value.now)) }
{
    object_of(alloc, start(Section::Program), value)?;
    name_of(alloc, start(Section::Program), value, "runner")
}

/// The runner, if there is a program.
#[tactic(auto, unfolding(crate::specs::Manifest::runner_at))]
fn runner_of(alloc: Global, value: &JsonTree<'_>) -> Result<Option<Name>, ReadFault>
    ensures { GivesReading result (spec.runner_at (view value.now)) }
{
    let Some(value) = value.get("program") else {
        return Ok(None);
    };
    let runner = program_in(alloc, value)?;
    Ok(Some(runner))
}

/// The manifest is an object with known sections alone.
#[tactic(auto, unfolding(crate::specs::Manifest::sections_at))]
fn check_sections(alloc: Global, value: &JsonTree<'_>) -> Result<(), ReadFault>
    ensures { GivesReading result (spec.sections_at (view value.now)) }
{
    match value {
        JsonTree::Object(_) => check_keys(alloc, start(Section::Manifest), Object::Manifest, value),
        _ => Err(whole(alloc, NOT_OBJECT)),
    }
}

/// The declared children, which are read before all other sections.
#[tactic(auto, unfolding(crate::specs::Manifest::children_at))]
fn children_of(alloc: Global, value: &JsonTree<'_>) -> Result<List<Child>, ReadFault>
    ensures { GivesReading result (spec.children_at (view value.now)) }
{
    let none = List::new(alloc);
    section_of::<Child>(
        alloc,
        Section::Children,
        none.as_slice(),
        value.get("children"),
    )
}

/// Reads the rows of all sections that list them, in the order of the sections.
#[tactic(auto, unfolding(crate::specs::Manifest::section_rows_at))]
fn read_sections(
    alloc: Global,
    value: &JsonTree<'_>,
    rows: &mut SectionRows,
) -> Result<(), ReadFault>
    ensures { GivesBy (λ _. rows.new) result (spec.section_rows_at (view value.now)) }
{
    rows.children = children_of(alloc, value)?;
    let children = rows.children.as_slice();
    rows.collections = section_of(
        alloc,
        Section::Collections,
        children,
        value.get("collections"),
    )?;
    rows.capabilities = section_of(
        alloc,
        Section::Capabilities,
        children,
        value.get("capabilities"),
    )?;
    rows.uses = section_of(alloc, Section::Uses, children, value.get("use"))?;
    rows.offers = section_of(alloc, Section::Offers, children, value.get("offer"))?;
    rows.exposes = section_of(alloc, Section::Exposes, children, value.get("expose"))?;
    rows.environments = section_of(
        alloc,
        Section::Environments,
        children,
        value.get("environments"),
    )?;
    Ok(())
}

/// The rows of all sections that list them.
fn section_rows_of(alloc: Global, value: &JsonTree<'_>) -> Result<SectionRows, ReadFault>
    ensures { GivesReading result (spec.section_rows_at (view value.now)) }
{
    let mut rows = SectionRows {
        children: List::new(alloc),
        collections: List::new(alloc),
        capabilities: List::new(alloc),
        uses: List::new(alloc),
        offers: List::new(alloc),
        exposes: List::new(alloc),
        environments: List::new(alloc),
    };
    match read_sections(alloc, value, &mut rows) {
        Ok(()) => Ok(rows),
        Err(fault) => {
            drop(rows);
            Err(fault)
        }
    }
}

/// The declaration of a runner and these rows. A list has room for the rows of its section.
fn declared_by(alloc: Global, runner: Option<Name>, rows: SectionRows) -> Result<Decl, Memory>
    ensures { IfOk result (λ decl. decl ≡ spec.declared_by runner rows) }
{
    let capabilities = List::with_capacity(alloc, rows.capabilities.len())?;
    let uses = List::with_capacity(alloc, rows.uses.len())?;
    let offers = List::with_capacity(alloc, rows.offers.len())?;
    let mut decl = Decl {
        runner,
        children: rows.children,
        collections: rows.collections,
        capabilities,
        uses,
        offers,
        exposes: rows.exposes,
        environments: rows.environments,
        debug_uses: List::new(alloc),
        storages: List::new(alloc),
        storage_uses: List::new(alloc),
        storage_offers: List::new(alloc),
    };
    match put_rows(&mut decl, rows.capabilities, rows.uses, rows.offers) {
        Ok(()) => Ok(decl),
        Err(memory) => {
            drop(decl);
            Err(memory)
        }
    }
}

/// The declaration that a value is.
#[tactic(auto, unfolding(crate::specs::Manifest::decl_at))]
fn decl_of(alloc: Global, value: &JsonTree<'_>) -> Result<Decl, ReadFault>
    ensures { GivesReading result (spec.decl_at (view value.now)) }
{
    check_sections(alloc, value)?;
    let runner = runner_of(alloc, value)?;
    let rows = section_rows_of(alloc, value)?;
    Ok(declared_by(alloc, runner, rows)?)
}

/// The declaration that a value with texts of its own is.
fn decl_of_value(alloc: Global, value: &Value) -> Result<Decl, ReadFault>
    ensures { GivesReading result (spec.decl_at (json.view value.now)) }
{
    let tree = tree_of(alloc, value)?;
    decl_of(alloc, &tree)
}

/// The declaration of a manifest in plain JSON, or its first fault. Faults 41 and 30 don't come.
///
/// The fields are those that [`read_decl`] lists. Of a repeated key the last value counts. What is
/// read is readable: it is read back from the text that [`write_decl`](crate::write_decl) gives of
/// it, has no use from `void`, no expose from the parent, and environments and storage come from
/// where they may.
///
/// # Errors
///
/// [`ReadFault`] says when each fault comes; `Err(Memory)` where memory runs out.
#[tactic(auto, using(crate::proofs::lemmas::reading::DeclRead::is_of_data))]
pub fn read_decl_text(alloc: Global, text: &str) -> Result<Decl, ReadFault>
    ensures decl { GivesReading result (spec.decl_of_json text.now) }
    ensures readable { IfOk result IsReadable }
    ensures formed { IfOk result (λ d. IsTrue (is_well_formed d)) }
{
    if let Some(tree) = read_plain(alloc, text) {
        return decl_of(alloc, &tree);
    }
    match Value::from_str(alloc, text) {
        Ok(value) => decl_of_value(alloc, &value),
        Err(error) => {
            if error.is_memory() {
                return Err(ReadFault::Memory);
            }
            Err(whole(alloc, NOT_JSON))
        }
    }
}

/// The text that the bytes of a manifest are, within the limit and in UTF-8.
#[tactic(auto, using(crate::proofs::lemmas::Text::utf8_test, crate::proofs::lemmas::Text::utf8_test_false,))]
fn text_of(alloc: Global, bytes: &[u8]) -> Result<&str, ReadFault>
    ensures text { GivesBy (λ s. s.now) result (spec.text_of bytes.now) }
    ensures short { IfOk result (λ s. length s.now < 2 ^ 32) }
{
    if bytes.len() > MAX_BYTES {
        return Err(whole(alloc, TOO_LARGE));
    }
    match std::str::from_utf8(bytes) {
        Ok(text) => Ok(text),
        Err(_) => Err(whole(alloc, NOT_UTF8)),
    }
}

/// The JSON text of a text in the relaxed spelling.
fn json_text(alloc: Global, text: &str) -> Result<Text, ReadFault>
    requires { length text.now < 2 ^ 32 }
    ensures { GivesReading result (spec.json_text (json_of text.now)) }
{
    match cm_text::to_json(alloc, text) {
        Ok(json) => Ok(json),
        Err(TextFault::Memory) => Err(ReadFault::Memory),
        Err(_) => Err(whole(alloc, NOT_JSON)),
    }
}

/// The declaration of a text in the relaxed spelling. Where the text has no escapes, numbers or words it is
/// read from the text itself, and its JSON isn't written.
fn decl_of_text(alloc: Global, text: &str) -> Result<Decl, ReadFault>
    requires { length text.now < 2 ^ 32 }
    ensures decl { GivesReading result (spec.decl_of_text text.now) }
    ensures readable { IfOk result IsReadable }
    ensures formed { IfOk result (λ d. IsTrue (is_well_formed d)) }
{
    if let Some(tree) = read_relaxed(alloc, text) {
        return decl_of(alloc, &tree);
    }
    let json = json_text(alloc, text)?;
    read_decl_text(alloc, json.as_str())
}

/// The declaration of a manifest in the relaxed spelling of JSON, or its first fault.
///
/// The fields, their defaults and the words are those of Fuchsia's component manifest reference
/// (fuchsia.dev), and the spelling is that of its manifest files: comments, trailing commas, single
/// quotes and keys without quotes. Of a repeated key the last value counts. What is read is
/// readable, as [`read_decl_text`] says.
///
/// # Fields
///
/// A field that has no default here has to be there, unless it is said that it may be missing.
/// Every other field or section is a fault.
///
/// - `program`: `runner` (a name). Its other members are read over.
/// - `children`: `name`; `url` (1 to 4,096 bytes of printing ASCII without spaces); `startup`
///   (`lazy` or `eager`, by default `lazy`); `environment` (`#name`, may be missing).
/// - `collections`: `name`; `durability` (`transient` or `single_run`); `allowed_offers`
///   (`static_only` or `static_and_dynamic`, by default `static_only`); `environment` (may be
///   missing).
/// - `capabilities`, a protocol: `protocol` (a name or a list of names); `path` (by default `/svc/`
///   and the name; not beside several names).
/// - `capabilities`, a directory: `directory` (a name); `path`; `rights` (a list of words).
/// - `capabilities`, a storage: `storage` (a name); `from` (`parent`, `self` or `#name`);
///   `backing_dir` (a name); `subdir` (may be missing); `storage_id` (`static_instance_id` or
///   `static_instance_id_or_moniker`).
/// - `use`, a protocol: `protocol` (a name or a list of names); `from` (`parent`, `self`,
///   `framework`, `debug` or `#name`, by default `parent`); `path` (as in `capabilities`);
///   `dependency` (`strong` or `weak`, by default `strong`); `availability` (`required`,
///   `optional` or `transitional`, by default `required`). From `debug` the last two aren't kept.
/// - `use`, a directory: `directory` (a name); `from` (as above without `debug`); `path`;
///   `rights`; `subdir` (may be missing); `dependency`; `availability`. The path and the rights
///   have no default.
/// - `use`, a storage: `storage` (a name); `from` (`parent`, which is the default); `path`;
///   `availability`, which isn't kept.
/// - `offer`: `protocol` or `directory` (a name or a list of names); `from` (`parent`, `self`,
///   `framework`, `void` or `#name`); `to` (`#name` or a list of these); `as` (a name, by default
///   the name itself; not beside several names); for a directory `rights` and `subdir` (each may be
///   missing); `dependency`; `availability` (also `same_as_target`); `source_availability`
///   (`required` or `unknown`, by default `required`).
/// - `offer`, a storage: `storage` (a name or a list of names); `from` (`parent`, `self` or
///   `void`); `to`; `as`; `availability`, which isn't kept.
/// - `expose`: `protocol` or `directory` (a name or a list of names); `from` (`self`, `framework`,
///   `void` or `#name`); `to` (`parent`, which is the default); `as`; for a directory `rights` and
///   `subdir`; `availability` (also `same_as_target`); `source_availability`.
/// - `facets`: anything.
/// - `environments`: `name`; `extends` (`none` or `realm`, by default `none`); `runners` and `debug`
///   (lists of registrations, by default empty). `resolvers` and `__stop_timeout_ms` are read over.
/// - A registration in `runners`: `runner` (a name); `from` (`parent`, `self` or `#name`); `as` (a
///   name, by default the runner's).
/// - A registration in `debug`: `protocol` (a name or a list of names); `from`; `as` (not beside
///   several names).
///
/// Where the `source_availability` of an offer or an expose is `unknown` and `from` names a child
/// that `children` doesn't list, its rows come from `void`. That field itself isn't kept.
///
/// # Errors
///
/// [`ReadFault`] says when each fault comes; `Err(Memory)` where memory runs out.
pub fn read_decl(alloc: Global, bytes: &[u8]) -> Result<Decl, ReadFault>
    ensures decl { GivesReading result (spec.decl_of_bytes bytes.now) }
    ensures readable { IfOk result IsReadable }
    ensures formed { IfOk result (λ d. IsTrue (is_well_formed d)) }
{
    let text = text_of(alloc, bytes)?;
    decl_of_text(alloc, text)
}
