//! One pass over the rows of a declaration.

ghost use Rattle.std.specs.Prelude.{◌≡◌, IfOk};
ghost use Rattle.cm_valid.specs.Parts as spec;
ghost use Rattle.cm_valid.specs.Parts.{ApartIn, Anywhere, FindsFault, In};

use crate::found::FoundFault;
use crate::index::NameIndex;
use crate::near::apart;
use crate::row::row_fault;
use cm_decl::{Decl, Section};
use cm_names::Memory;
use std::alloc::Global;

/// The first fault at a row, or `None` where no row has one. `Err` where memory runs out.
pub(crate) fn first_fault(alloc: Global, decl: &Decl) -> Result<Option<FoundFault>, Memory>
    ensures { IfOk result (FindsFault decl.now Anywhere) }
{
    let index = NameIndex::new(alloc, decl)?;
    first_in_sections(alloc, &index)
}

/// The first fault at a row. The sections are gone through in their order, each once.
fn first_in_sections(alloc: Global, index: &NameIndex) -> Result<Option<FoundFault>, Memory>
    ensures { IfOk result (FindsFault index.now Anywhere) }
{
    let sections = [
        Section::Children,
        Section::Collections,
        Section::Capabilities,
        Section::Uses,
        Section::Offers,
        Section::Exposes,
    ];
    for section in &sections {
        let found = section_fault(alloc, index, *section)?;
        if found.is_some() {
            return Ok(found);
        }
    }
    Ok(None)
}

/// The first fault in a section. Only the rows that a sort of the section leaves over are compared
/// with earlier ones.
fn section_fault(
    alloc: Global,
    index: &NameIndex,
    section: Section,
) -> Result<Option<FoundFault>, Memory>
    ensures { IfOk result (FindsFault index.now (In section)) }
{
    let apart = apart_in(alloc, index.decl(), section)?;
    for row in 0..rows_of(index.decl(), section) {
        let found = row_fault(index, section, row, apart);
        if found.is_some() {
            return Ok(found);
        }
    }
    Ok(None)
}

/// How many rows at the start of a section have no two that may clash.
fn apart_in(alloc: Global, decl: &Decl, section: Section) -> Result<usize, Memory>
    ensures { IfOk result (ApartIn decl.now section) }
{
    match section {
        Section::Children => apart(alloc, decl.children.as_slice()),
        Section::Collections => apart(alloc, decl.collections.as_slice()),
        Section::Capabilities => apart(alloc, decl.capabilities.as_slice()),
        Section::Uses => apart(alloc, decl.uses.as_slice()),
        Section::Offers => apart(alloc, decl.offers.as_slice()),
        Section::Exposes => apart(alloc, decl.exposes.as_slice()),
        Section::Manifest | Section::Program | Section::Environments | Section::Graph => Ok(0),
    }
}

/// How many rows a section has.
fn rows_of(decl: &Decl, section: Section) -> usize
    ensures { result ≡ spec.rows_of decl.now section }
{
    match section {
        Section::Children => decl.children.len(),
        Section::Collections => decl.collections.len(),
        Section::Capabilities => decl.capabilities.len(),
        Section::Uses => decl.uses.len(),
        Section::Offers => decl.offers.len(),
        Section::Exposes => decl.exposes.len(),
        Section::Manifest | Section::Program | Section::Environments | Section::Graph => 0,
    }
}
