//! The steps that end an action, and that take its outcome.
//!
//! What actions do is `ResolveInstance`, `StartInstance` and `StopInstance` of
//! `fuchsia.sys2.LifecycleController` (fuchsia.dev). That an action has one beginner, who ends
//! it, and that its outcome is kept for the callers that joined it, is this project's own choice.

ghost use Rattle.std.specs.Prelude.{◌≡◌, IsTrue, IfSome, IfNone, None};
ghost use Rattle.std.specs.List.{list_any};
ghost use Rattle.cm_world.specs.World.{outcome_of};
ghost use Rattle.cm_world.specs.Step.{MayEnd, is_join};
ghost use Rattle.cm_laws.specs.Story.{world_of, AddsEntry};
ghost use Rattle.cm_steps.specs.Ends.{finish_of};

use super::Realm;
use crate::ending::{Ending, end_at};
use crate::expiring::expire_by;
use crate::pending::{inc_at, outcome_at, settle, take_join};
use crate::rooms::resolves_left;
use cm_table::Settled;
use cm_world::{Event, Reply};

impl Realm {
    /// Ends an action that this caller began and that hasn't ended: `Ended` with what became of
    /// it. That is the outcome that was reported; for a declaration it is `Resolved`, or `Full`
    /// where the children don't fit in the limit of instances. It takes no memory and can't fail.
    ///
    /// Where the instance is stopped so and isn't being shut down, its children in collections are
    /// marked to be destroyed, or, where its collection runs each child once, it itself.
    pub fn end(&mut self, caller: u32, action: u64, ending: Ending) -> Reply
        requires may { MayEnd (world_of self.old).acts caller action (finish_of ending) }
        ensures step { AddsEntry self.old self.new caller (Event.End action (finish_of ending)) result }
    {
        let inc = inc_at(self.acts.as_slice(), action);
        let closing = self.records.plan.closes(&self.table, inc);
        let Settled { finish, outcome } = end_at(&mut self.table, inc, ending);
        let doomed = expire_by(&mut self.table, inc, outcome, closing);
        self.resolves = resolves_left(self.acts.as_slice(), self.resolves, action);
        settle(&mut self.acts, action, outcome);
        self.records.put_down(
            caller,
            Event::End(action, finish),
            Reply::Ended(outcome),
            doomed,
        );
        Reply::Ended(outcome)
    }

    /// Takes the outcome of an action that this caller joined: `Ended` with it. `None` exactly
    /// where the action hasn't ended; then nothing is changed. It takes no memory.
    pub fn await_end(&mut self, caller: u32, action: u64) -> Option<Reply>
        requires joined { IsTrue (list_any (is_join caller action) (world_of self.old).joins) }
        ensures some { let event = Event.Await action in
            IfSome result (λ reply. AddsEntry self.old self.new caller event reply) }
        ensures none { IfNone result (outcome_of (world_of self.old).acts action ≡ None) }
        ensures kept { IfNone result (self.new ≡ self.old) }
    {
        let outcome = outcome_at(self.acts.as_slice(), action)?;
        take_join(&mut self.joins, caller, action);
        self.records
            .put_down(caller, Event::Await(action), Reply::Ended(outcome), false);
        Some(Reply::Ended(outcome))
    }
}
