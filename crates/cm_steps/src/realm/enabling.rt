//! Which events a caller may make now.
//!
//! That an action is ended by the caller that began it, and awaited by those that joined it, is this
//! project's own choice; what an event needs of the tree is said by its step.

ghost use Rattle.std.specs.Prelude.{◌≡◌, ◌↔◌, IsTrue, IfOk};
ghost use Rattle.cm_world.specs.Step as step;
ghost use Rattle.cm_laws.specs.Story.{world_of};
ghost use Rattle.cm_steps.specs.Enabled.{IsEnabledBut};

use super::Realm;
use crate::enabling::{has_pick, may_await, may_begin, may_end, may_exit, may_purge};
use cm_laws::trees_stay_sound;
use cm_names::Memory;
use cm_order::may_close;
use cm_world::Event;
use std::alloc::Global;

impl Realm {
    /// Whether a pick for the target may be asked for: it doesn't live, or it or one above it is being
    /// shut down.
    pub fn may_close(&self, target: u64) -> bool
        ensures { result ≡ step.may_close (world_of self.now).rows target }
    {
        let _acts = &self.acts;
        may_close(&self.table, target)
    }

    /// Whether the caller may make the event now, so that its step gives a reply, or would where the
    /// history has room and memory doesn't run out. Whether a declaration that an end brings is valid
    /// isn't looked at.
    ///
    /// - A begin and an exit have to wait for a pending action, as `Busy` of their steps says.
    /// - An end needs an action that this caller began, that hasn't ended and that can end so.
    /// - An await needs an action that this caller joined, whose outcome it hasn't had since, and that
    ///   has ended.
    /// - A pick needs a target that doesn't live, or that is being shut down itself or below another,
    ///   and has to wait as `Busy` of its step says. It is looked for without what is known from the
    ///   picks before, which takes longer than the step.
    /// - A purge needs an instance that doesn't live, or that is being destroyed itself and is shut
    ///   with all below it.
    /// - All other events may always be made.
    ///
    /// `Err` where memory runs out.
    pub fn enabled(&self, alloc: Global, caller: u32, event: &Event) -> Result<bool, Memory>
        ensures { IfOk result (λ may. IsTrue may
            ↔ IsEnabledBut (world_of self.now) caller event.now) }
    {
        trees_stay_sound();
        match event {
            Event::Begin(kind, inc) => Ok(may_begin(&self.table, *kind, *inc)),
            Event::End(action, finish) => {
                Ok(may_end(self.acts.as_slice(), caller, *action, finish))
            }
            Event::Await(action) => {
                let joins = self.joins.as_slice();
                Ok(may_await(self.acts.as_slice(), joins, caller, *action))
            }
            Event::Pick(target) => has_pick(alloc, &self.table, *target),
            Event::Purge(inc) => may_purge(alloc, &self.table, *inc),
            Event::Exited(inc) => Ok(may_exit(&self.table, *inc)),
            _ => Ok(true),
        }
    }
}
