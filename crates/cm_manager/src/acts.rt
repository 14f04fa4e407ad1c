//! Actions: their begin, their work and their end.

ghost use Rattle.cm_manager.specs.Acting.{BeginRun};
ghost use Rattle.cm_manager.specs.Caller.{CallerRuns};
ghost use Rattle.cm_manager.specs.Runs.{RunsAction};

use crate::began::Began;
use crate::caller::Caller;
use cm_answers::ActionResult;
use cm_gate::Gates;
use cm_steps::{EventRef, Request};
use cm_world::{ActKind, Refusal, Reply};
use std::sync::Wait;
use std::thread::Threads;

impl<'a, R: Threads + Wait + Sync, G: Gates> Caller<'a, R, G> {
    /// Begins an action, and sees it ended where it began it or joined it.
    pub(crate) fn begin(&mut self, kind: ActKind, inc: u64) -> Result<Began, Refusal>
        ensures { CallerRuns (λ f c a b. BeginRun f c kind inc result a b) self.old self.new }
    {
        let reply = self.ask(EventRef::Ask(Request::Begin(kind), inc))?;
        match reply {
            Reply::Begun(boxed) => {
                let work = boxed.into_value();
                let action = work.action;
                let (ending, eager) = self.do_work(kind, work);
                let outcome = self.end_turn(action, ending);
                Ok(Began::Ended(action, outcome, eager))
            }
            Reply::Joined(action) => {
                let outcome = self.await_turn(action);
                Ok(Began::Joined(action, outcome))
            }
            Reply::Need(row) => Ok(Began::Needs(row)),
            other => Ok(Began::Quiet(other)),
        }
    }

    /// Resolves an instance, or finds that there is nothing to begin.
    pub(crate) fn resolve_row(&mut self, inc: u64) -> Result<ActionResult, Refusal>
        ensures { CallerRuns (λ f c a b. RunsAction f c ActKind.Resolve inc a b result) self.old self.new }
    {
        let kind = ActKind::Resolve;
        let began = self.begin(kind, inc)?;
        match began {
            Began::Ended(action, outcome, _eager) => Ok(ActionResult::Ended(kind, action, outcome)),
            Began::Joined(action, outcome) => Ok(ActionResult::Ended(kind, action, outcome)),
            Began::Quiet(reply) => Ok(ActionResult::Quiet(reply)),
            Began::Needs(_row) => unreachable!(),
        }
    }

    /// Acts on an instance: begins the action, or joins it, and sees it ended. A start has the
    /// eager children started behind it, and has the instance resolved before it where needed.
    /// Behind a stop that this call itself made, what went with the instance is removed.
    ///
    /// `Err` with `Memory` where memory runs out, and with `HistoryFull` where the history has no
    /// room for what is needed. Then what was begun is ended.
    pub(crate) fn act(&mut self, kind: ActKind, inc: u64) -> Result<ActionResult, Refusal>
        ensures { CallerRuns (λ f c a b. RunsAction f c kind inc a b result) self.old self.new }
    {
        match kind {
            ActKind::Start => self.start_row(inc),
            ActKind::Stop => self.stop_row(inc),
            ActKind::Resolve => self.resolve_row(inc),
        }
    }
}
