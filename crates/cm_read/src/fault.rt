//! Why a manifest could not be read.

ghost use Rattle.std.specs.Prelude.{◌≡◌};
ghost use Rattle.cm_read.specs.Manifest as manifest;
ghost use Rattle.cm_read.specs.Reading as spec;
ghost use Rattle.cm_read.specs.Reading.{bad};
ghost use Rattle.cm_read.specs.ReadingInside.{IsReadFault};

use cm_decl::Section;
use cm_names::{Memory, Text};
use std::alloc::{AllocError, AllocFailed, Global};
use std::error::Error;
use std::fmt;

/// Where an item stands: its section, and its index there, counted from 0.
#[derive(Clone, Copy)]
pub struct ItemPlace {
    /// The section.
    pub section: Section,
    /// The index, which stands still at 4,294,967,295.
    pub index: u32,
}

/// Why bytes are no manifest: the first fault in the order below, or lack of memory.
///
/// It is written `invalid NUMBER SECTION INDEX`, followed by a space and the field where it isn't
/// empty, or `out of memory`.
///
/// The sections, the fields, their words and defaults are those of Fuchsia's component manifest
/// reference (fuchsia.dev). The numbers, the order in which faults are looked for, and the limits
/// on bytes, nesting and rows are this project's own.
///
/// The whole manifest is tried first. These faults have the section `manifest`, the index 0 and,
/// but for 33, an empty field.
///
/// - 41: it has more than 1,048,576 bytes.
/// - 30: the bytes are no UTF-8.
/// - 31: the text is not JSON in the relaxed spelling, or nests deeper than 127.
/// - 32: the JSON is no object.
/// - 33: a section is unknown. The field is the least unknown name in byte order.
///
/// Then the sections come in the order `program`, `children`, `collections`, `capabilities`, `use`,
/// `offer`, `expose`, `environments`. These faults have the index 0 and an empty field.
///
/// - 35: `program` is no object, or another section no list.
/// - 43, after the faults of its items: the section gives more than 16,384 rows.
///
/// The field `runner` of `program` may have 34, 35 and 36, with the index 0.
///
/// The items of a section come in their order. The index is that of the item. In an item:
///
/// - 35 with an empty field: the item is no object.
/// - 40 with an empty field, in `capabilities`, `use`, `offer` and `expose` alone: not exactly one
///   of `protocol`, `directory` and `storage` is there; in `expose` the first two count alone.
/// - 33: a field is unknown for the item's kind. The field is the least unknown name in byte order.
///
/// Then its fields come in the order in which [`read_decl`](crate::read_decl) lists them. In a
/// field:
///
/// - 34: it is missing and has no default.
/// - 35: it has the wrong type, or is an empty list of names or references.
/// - 36: a name, the name of a reference or a URL text is bad, or `environment` doesn't begin with
///   `#`.
/// - 37: a path or a subdirectory is bad.
/// - 38: words stand for no rights.
/// - 39: a word isn't listed, or in `from` and `to` a text is no reference and no listed word; `from`
///   of a use or an offer of a storage may be no reference either.
/// - 42: `path` or `as` stands beside several names.
///
/// A registration in an environment is looked at in the same way, without 40. Its fault has the
/// environment's index and the field `runners` or `debug`, also at 33 and where it is no object.
#[derive(Debug, Drop)]
pub enum ReadFault {
    /// The manifest has a fault.
    Bad {
        /// The number of the fault, from 30 to 43.
        number: u8,
        /// The section that it stands in.
        section: Section,
        /// The index of the item in the section, counted from 0, and 4,294,967,295 for all items
        /// that have a greater one.
        index: u32,
        /// The name of the field, or no text where the fault is of no single field.
        field: Text,
    },
    /// Memory ran out.
    Memory,
}

impl From<Memory> for ReadFault {
    ghost use Rattle.std.specs.Prelude.{◌≡◌};
    ghost use Rattle.cm_read.specs.declared.fault.ReadFault.TheVariants.{Memory as OutOfMemory};

    ghost from_gives = { λ _ e. e ≡ OutOfMemory };

    /// For `?` after a call that lacked memory.
    fn from(_: Memory) -> ReadFault {
        ReadFault::Memory
    }
}

impl From<AllocError> for ReadFault {
    ghost use Rattle.std.specs.Prelude.{◌≡◌};
    ghost use Rattle.cm_read.specs.declared.fault.ReadFault.TheVariants.{Memory as OutOfMemory};

    ghost from_gives = { λ _ e. e ≡ OutOfMemory };

    /// For `?` where an allocation fails: memory ran out.
    fn from(_: AllocError) -> ReadFault {
        ReadFault::Memory
    }
}

impl<T: Drop> From<AllocFailed<T>> for ReadFault {
    ghost use Rattle.std.specs.Prelude.{◌≡◌};
    ghost use Rattle.cm_read.specs.declared.fault.ReadFault.TheVariants.{Memory as OutOfMemory};

    ghost from_gives = { λ _ e. e ≡ OutOfMemory };

    /// For `?` where an allocation fails: memory ran out.
    fn from(_: AllocFailed<T>) -> ReadFault {
        ReadFault::Memory
    }
}

impl fmt::Display for ReadFault {
    ghost use Rattle.std.specs.Prelude.{Some};
    ghost use Rattle.cm_read.specs.Texts.{fault_text};

    ghost output = { λ fault. Some (fault_text fault) };

    /// Writes `invalid NUMBER SECTION INDEX`, and the field where there is one.
    fn fmt<W: fmt::Write>(&self, f: &mut fmt::Formatter<W>) -> fmt::Result {
        match self {
            ReadFault::Bad {
                number,
                section,
                index,
                field,
            } => {
                if field.is_empty() {
                    write!(f, "invalid {number} {section} {index}")
                } else {
                    write!(f, "invalid {number} {section} {index} {field}")
                }
            }
            ReadFault::Memory => f.write_str("out of memory"),
        }
    }
}

impl Error for ReadFault {}

/// The place of a section's first item, and of the section itself.
pub fn start(section: Section) -> ItemPlace
    ensures { result ≡ spec.start section }
{
    ItemPlace { section, index: 0 }
}

/// The fault of a field, unless memory runs out.
pub fn fault(alloc: Global, at: ItemPlace, number: u8, field: &str) -> ReadFault
    ensures { IsReadFault result (bad at number field.now) }
{
    match Text::from_str(alloc, field) {
        Ok(field) => ReadFault::Bad {
            number,
            section: at.section,
            index: at.index,
            field,
        },
        Err(_) => ReadFault::Memory,
    }
}

/// A fault of the whole manifest, unless memory runs out.
pub fn whole(alloc: Global, number: u8) -> ReadFault
    ensures { IsReadFault result (manifest.whole number) }
{
    fault(alloc, start(Section::Manifest), number, "")
}
