//! Why a step isn't made.

use cm_book::BookFault;
use cm_names::Memory;
use std::alloc::AllocError;

/// Why a realm makes no step. Then it is as before.
#[derive(Debug, Clone, Copy, PartialEq, Eq)]
pub enum NoStep {
    /// The event has to wait for the action of this number, which hasn't ended.
    Busy(u64),
    /// The entries that the step needs are more than the history may still hold.
    HistoryFull,
    /// Memory ran out.
    Memory,
}

impl From<Memory> for NoStep {
    ghost use Rattle.std.specs.Prelude.{◌≡◌};
    ghost use Rattle.cm_steps.specs.declared.nostep.NoStep.TheVariants.{Memory as OutOfMemory};

    ghost from_gives = { λ _ e. e ≡ OutOfMemory };

    /// For `?` after a call that lacked memory.
    fn from(_: Memory) -> NoStep {
        NoStep::Memory
    }
}

impl From<AllocError> for NoStep {
    ghost use Rattle.std.specs.Prelude.{◌≡◌};
    ghost use Rattle.cm_steps.specs.declared.nostep.NoStep.TheVariants.{Memory as OutOfMemory};

    ghost from_gives = { λ _ e. e ≡ OutOfMemory };

    /// For `?` where an allocation fails: memory ran out.
    fn from(_: AllocError) -> NoStep {
        NoStep::Memory
    }
}

impl From<BookFault> for NoStep {
    ghost use Rattle.cm_steps.specs.Rooms.{IsRoom};

    ghost from_gives = { IsRoom };

    /// For `?` where the book takes no more entries: the same refusal, of a step.
    fn from(fault: BookFault) -> NoStep {
        match fault {
            BookFault::HistoryFull => NoStep::HistoryFull,
            BookFault::Memory => NoStep::Memory,
        }
    }
}
