//! The order in which a link in memory was read, written and hung up.

ghost use Rattle.cm_io.specs.Orders.{MovesCame};
ghost use Rattle.cm_io.specs.Steps.{move_of, order_of, wrote_of, gave_of};
ghost use Rattle.std.specs.Prelude.{◌≡◌, ◌∷◌, [], Some, IfOk};

use cm_names::{Bytes, List, Memory};
use std::alloc::Global;
use std::marker::Model;

/// One move.
#[derive(Debug, Drop)]
pub enum LoggedMove {
    /// A read gave these bytes.
    Gave(Bytes),
    /// A write took these bytes.
    Wrote(Bytes),
    /// The link was hung up.
    HungUp,
}

/// The moves of a link so far. They aren't told any more once memory ran out for one.
#[derive(Drop)]
pub struct StepLog {
    alloc: Global,
    steps: List<LoggedMove>,
    told: bool,
}

impl Model for StepLog {
    ghost use Rattle.std.specs.Prelude.{cond, Option, Some, None, List as Seq};
    ghost use Rattle.cm_io.specs.declared.steps.LoggedMove.{LoggedMove};

    ghost Value = { Option (Seq LoggedMove) };

    ghost view = { λ l. cond l.told (Some l.steps) None };
}

impl StepLog {
    /// The log of a link that has made no move yet.
    pub fn new(alloc: Global) -> StepLog
        ensures { result ≡ Some [] }
    {
        StepLog {
            alloc,
            steps: List::new(alloc),
            told: true,
        }
    }

    /// Notes one more move. Where memory runs out for it, the log isn't told any more.
    fn note(&mut self, step: LoggedMove)
        ensures { MovesCame (order_of self.old) (order_of self.new) (move_of step ∷ []) }
    {
        if self.steps.push(step).is_err() {
            self.told = false;
        }
    }

    /// A copy of the bytes of a move, for the log. `Err(Memory)` comes where memory runs out.
    fn copied(&self, bytes: &[u8]) -> Result<Bytes, Memory>
        ensures { IfOk result (λ copy. copy ≡ bytes.now) }
    {
        Ok(List::from_vec(bytes.to_vec(self.alloc)?))
    }

    /// A read that gave these bytes.
    pub fn note_gave(&mut self, bytes: &[u8])
        ensures { MovesCame (order_of self.old) (order_of self.new) (gave_of bytes.now ∷ []) }
    {
        match self.copied(bytes) {
            Ok(copy) => self.note(LoggedMove::Gave(copy)),
            Err(Memory) => self.told = false,
        }
    }

    /// A write that took these bytes.
    pub fn note_wrote(&mut self, bytes: &[u8])
        ensures { MovesCame (order_of self.old) (order_of self.new) (wrote_of bytes.now ∷ []) }
    {
        match self.copied(bytes) {
            Ok(copy) => self.note(LoggedMove::Wrote(copy)),
            Err(Memory) => self.told = false,
        }
    }

    /// Notes that the link was hung up.
    pub fn note_hung_up(&mut self)
        ensures { MovesCame (order_of self.old) (order_of self.new) (move_of LoggedMove.HungUp ∷ []) }
    {
        self.note(LoggedMove::HungUp);
    }
}
