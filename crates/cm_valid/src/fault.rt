//! Why a declaration isn't valid.

ghost use Rattle.std.specs.Prelude.{Some};
ghost use Rattle.std.specs.Fmt.{DisplaysOnOk};
ghost use Rattle.cm_valid.specs.Texts.{against_text, cycle_text};

use cm_decl::{Node, Section};
use cm_names::{List, Memory};
use std::error::Error;
use std::fmt;

/// Why a declaration isn't valid: its first fault, or lack of memory.
///
/// It is written `invalid NUMBER SECTION INDEX`, followed by the section and the index of the row
/// that it clashes with, where there is one, and by the nodes of the cycle, all parted by spaces.
/// The component itself is written `self`. Lack of memory is written `out of memory`.
///
/// The sections come in the order `children`, `collections`, `capabilities`, `use`, `offer`,
/// `expose`, the rows of a section in theirs, and the faults of a row by their numbers:
///
/// - 50: an earlier child or collection has the name of a child or collection, or an earlier
///   capability, of either kind, that of a capability.
/// - 51: the source is a child that isn't declared, or the target is neither a child nor a
///   collection.
/// - 52: from `self`, and no capability has that kind and source name; or a directory from
///   `framework`.
/// - 53: the source of an offer is the child that it is made to.
/// - 54: an earlier offer has this target and target name, or an earlier expose this target name.
/// - 55: an earlier use has this path.
/// - 56: the path of an earlier use lies inside this path, or the other way round.
/// - 57: an offer or an expose from `void` whose availability doesn't allow that.
///
/// Where no row has a fault comes the last one:
///
/// - 58: the realm graph has a cycle of strong edges.
///
/// The rules are those of Fuchsia's component manifest reference and of `ErrorList` of the library
/// that validates declarations there (fuchsia.dev); the numbers and their order are this project's.
#[derive(Debug, Drop, Clone, PartialEq, Eq)]
pub enum ValidFault {
    /// The first fault of the declaration.
    Bad {
        /// Its number, from 50 to 58.
        number: u8,
        /// The section of its row; `Graph` at 58.
        section: Section,
        /// The index of its row in the section, counted from 0, and 4,294,967,295 for all rows
        /// that have a greater one; 0 at 58.
        index: u32,
        /// At 50, 54, 55 and 56 the section and the index of the first earlier row that it clashes
        /// with.
        against: Option<(Section, u32)>,
        /// At 58 the picked cycle of the realm graph: each node depends on the next, and the last
        /// is the first. Else empty.
        cycle: List<Node>,
    },
    /// Memory ran out.
    Memory,
}

impl From<Memory> for ValidFault {
    ghost use Rattle.std.specs.Prelude.{◌≡◌};
    ghost use Rattle.cm_valid.specs.declared.fault.ValidFault.TheVariants.{Memory as OutOfMemory};

    ghost from_gives = { λ _ e. e ≡ OutOfMemory };

    /// For `?` after a call that lacked memory.
    fn from(_: Memory) -> ValidFault {
        ValidFault::Memory
    }
}

impl fmt::Display for ValidFault {
    ghost use Rattle.std.specs.Prelude.{Some};
    ghost use Rattle.cm_valid.specs.Texts.{fault_text};

    ghost output = { λ fault. Some (fault_text fault) };

    /// Writes `invalid NUMBER SECTION INDEX`, then the row that it clashes with and the nodes of a
    /// cycle, where there are some.
    fn fmt<W: fmt::Write>(&self, f: &mut fmt::Formatter<W>) -> fmt::Result {
        match self {
            ValidFault::Bad {
                number,
                section,
                index,
                against,
                cycle,
            } => {
                write!(f, "invalid {number} {section} {index}")?;
                write_against(against, f)?;
                write_cycle(cycle, f)
            }
            ValidFault::Memory => f.write_str("out of memory"),
        }
    }
}

/// Writes the place of the row that a fault clashes with, after a space.
fn write_against<W: fmt::Write>(
    against: &Option<(Section, u32)>,
    f: &mut fmt::Formatter<W>,
) -> fmt::Result
    ensures { DisplaysOnOk W.write_str_gives f.old result (Some (against_text against.now)) f.new }
{
    match against {
        Some((section, index)) => write!(f, " {section} {index}"),
        None => Ok(()),
    }
}

/// Writes the nodes of a cycle, each after a space.
fn write_cycle<W: fmt::Write>(cycle: &List<Node>, f: &mut fmt::Formatter<W>) -> fmt::Result
    ensures { DisplaysOnOk W.write_str_gives f.old result (Some (cycle_text cycle.now)) f.new }
{
    for node in cycle.as_slice() {
        write!(f, " {node}")?;
    }
    Ok(())
}

impl Error for ValidFault {}
