//! The fault of a row, before it is reported.

ghost use Rattle.std.specs.Prelude.{◌≡◌, Some, None, option_map};
ghost use Rattle.cm_names.specs.Rights as rights;
ghost use Rattle.cm_valid.specs.Parts.{fault_of};
ghost use Rattle.cm_valid.specs.Reports.{reported};

use crate::ValidFault;
use cm_decl::Section;
use cm_names::List;
use std::alloc::Global;

/// The first fault at a row: its number and place, and the place of the row that it clashes with.
#[derive(Debug, Clone, Copy)]
pub(crate) struct FoundFault {
    /// The number of the fault, from 50 to 57.
    pub(crate) number: u8,
    /// The section of the row.
    pub(crate) section: Section,
    /// The index of the row in its section.
    pub(crate) index: usize,
    /// The section and the index of the first row that it clashes with, if it clashes.
    pub(crate) against: Option<(Section, usize)>,
}

impl FoundFault {
    /// The fault of a row that clashes with no other.
    pub(crate) fn alone(number: u8, section: Section, index: usize) -> FoundFault
        ensures { result ≡ record {
          number = number;
          section = section;
          index = index;
          against = None;
        } }
    {
        FoundFault {
            number,
            section,
            index,
            against: None,
        }
    }

    /// The fault of a row that clashes with an earlier one.
    pub(crate) fn clash(
        number: u8,
        section: Section,
        index: usize,
        other: Section,
        first: usize,
    ) -> FoundFault
        ensures { result ≡ record {
          number = number;
          section = section;
          index = index;
          against = Some (other, first);
        } }
    {
        FoundFault {
            number,
            section,
            index,
            against: Some((other, first)),
        }
    }

    /// The fault of a row that clashes with an earlier one of its own section: the first such, if
    /// there is one.
    pub(crate) fn earlier(
        number: u8,
        section: Section,
        index: usize,
        first: Option<usize>,
    ) -> Option<FoundFault>
        ensures { result ≡ option_map (λ at. record {
          number = number;
          section = section;
          index = index;
          against = Some (section, at);
        }) first }
    {
        match first {
            Some(first) => Some(FoundFault::clash(number, section, index, section, first)),
            None => None,
        }
    }

    /// The fault as it is reported.
    pub(crate) fn report(self, alloc: Global) -> ValidFault
        ensures { result ≡ reported (fault_of self) }
    {
        let against = match self.against {
            Some((section, index)) => Some((section, index_of(index))),
            None => None,
        };
        ValidFault::Bad {
            number: self.number,
            section: self.section,
            index: index_of(self.index),
            against,
            cycle: List::new(alloc),
        }
    }
}

/// The index as a fault has it: 4,294,967,295 for all that are larger.
fn index_of(index: usize) -> u32
    ensures { result ≡ rights.index_of index }
{
    u32::try_from(index).unwrap_or(u32::MAX)
}
