//! What ends the reading of a journal before its last line.

ghost use Rattle.std.specs.Prelude.{◌≡◌};
ghost use Rattle.cm_audit.specs.Reading as reading;

use crate::verdict::Audit;
use cm_names::{Memory, Text};

/// Why the reading ends before the last line.
#[derive(Drop)]
pub enum ReadingStop {
    /// There is a verdict already.
    Verdict(Audit),
    /// Memory ran out.
    Memory,
}

impl From<Memory> for ReadingStop {
    ghost use Rattle.std.specs.Prelude.{◌≡◌};
    ghost use Rattle.cm_audit.specs.declared.fault.ReadingStop.TheVariants.{Memory as OutOfMemory};

    ghost from_gives = { λ _ e. e ≡ OutOfMemory };

    /// For `?` after a call that lacked memory.
    fn from(_: Memory) -> ReadingStop {
        ReadingStop::Memory
    }
}

/// What is wrong with a line after that of the root.
#[derive(Drop)]
pub enum JournalLineFault {
    /// It is no entry.
    Bad,
    /// It is an entry that isn't legal there, as [`Audit::Illegal`] tells of it.
    Illegal {
        /// The number that stands there.
        number: u64,
        /// The reply that stands there.
        given: Text,
        /// What is expected in its place.
        expected: Text,
    },
    /// Memory ran out.
    Memory,
}

impl From<Memory> for JournalLineFault {
    ghost use Rattle.std.specs.Prelude.{◌≡◌};
    ghost use Rattle.cm_audit.specs.declared.fault.JournalLineFault.TheVariants.{Memory as OutOfMemory};

    ghost from_gives = { λ _ e. e ≡ OutOfMemory };

    /// For `?` after a call that lacked memory.
    fn from(_: Memory) -> JournalLineFault {
        JournalLineFault::Memory
    }
}

/// Why the reading ends at the line of that number.
pub fn stop_at(line: u32, fault: JournalLineFault) -> ReadingStop
    ensures { result ≡ reading.stop_at line fault }
{
    match fault {
        JournalLineFault::Bad => bad_text(line),
        JournalLineFault::Illegal {
            number,
            given,
            expected,
        } => ReadingStop::Verdict(Audit::Illegal {
            number,
            given,
            expected,
        }),
        JournalLineFault::Memory => ReadingStop::Memory,
    }
}

/// The line of that number isn't in the grammar, or passes the limit.
pub fn bad_text(line: u32) -> ReadingStop
    ensures { result ≡ ReadingStop.Verdict (Audit.BadText line) }
{
    ReadingStop::Verdict(Audit::BadText(line))
}
