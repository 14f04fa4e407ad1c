//! Events that are made again until a reply decides them.

ghost use Rattle.std.specs.Prelude.{IsTrue};
ghost use Rattle.cm_manager.specs.Asking.{is_asked, is_plain};
ghost use Rattle.cm_manager.specs.Acting.{ReadsBy};
ghost use Rattle.cm_manager.specs.Caller.{CallerRuns};
ghost use Rattle.cm_steps.specs.Requests.{event_of};
ghost use Rattle.cm_manager.specs.Runs.{RetriesEvent};

use crate::began::Demand;
use crate::caller::Caller;
use cm_answers::ending;
use cm_gate::Gates;
use cm_steps::EventRef;
use cm_world::{ActKind, Refusal, Reply};
use std::sync::Wait;
use std::thread::Threads;

/// What a reply asks of its caller.
fn reading(reply: Reply) -> Demand
    ensures { ReadsBy reply result }
{
    match reply {
        Reply::Need(row) => Demand::Action(ActKind::Resolve, row),
        Reply::NeedStart(row) => Demand::Action(ActKind::Start, row),
        other => Demand::Decided(other),
    }
}

impl<'a, R: Threads + Wait + Sync, G: Gates> Caller<'a, R, G> {
    /// Makes an event, which begins no action itself, until a reply decides it: where one asks
    /// for an action first, that is done, and then the event is made again.
    ///
    /// `Err` is what ended the call: an action that was asked for failed, memory ran out, or the
    /// history has no room for what is needed.
    pub(crate) fn try_event(&mut self, wish: EventRef<'_>) -> Result<Reply, Refusal>
        requires asked { IsTrue (is_asked (event_of wish)) }
        requires plain { IsTrue (is_plain (event_of wish)) }
        ensures { let e = event_of wish.entry in
            CallerRuns (λ f c a b. RetriesEvent f c e a b result) self.old self.new }
    {
        let rt = self.rt;
        for _ in rt.forever() {
            let reply = self.ask(wish)?;
            let (kind, row) = match reading(reply) {
                Demand::Action(kind, row) => (kind, row),
                Demand::Decided(reply) => return Ok(reply),
            };
            if let Some(refusal) = ending(self.act(kind, row)) {
                return Err(refusal);
            }
        }
        unreachable!()
    }
}
