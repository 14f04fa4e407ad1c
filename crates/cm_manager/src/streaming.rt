//! What happened, read of the history in one turn.

ghost use Rattle.std.specs.Prelude.{◌≡◌};
ghost use Rattle.cm_laws.specs.Story.{IsLegal};
ghost use Rattle.cm_manager.specs.Contract.{IsSamePass};
ghost use Rattle.cm_manager.specs.Asking.{frame_of};
ghost use Rattle.cm_manager.specs.Streaming.{StreamsBy, StreamedBy};
ghost use Rattle.cm_manager.specs.Streaming as spec;

use crate::Manager;
use crate::manager::check_history;
use cm_answers::refusing;
use cm_events::follow;
use cm_laws::outcomes_are_one;
use cm_steps::{NoStep, Realm};
use cm_turn::Pass;
use cm_walk::hop::moniker;
use cm_world::{Answer, Entry, Frame, Refusal, Reply};
use std::alloc::Global;
use std::sync::Wait;

/// Reads at the realm what happened at and below an instance behind so many entries, and then tells
/// how long the history is. Where memory runs out, no entry is made.
fn stream_at(
    realm: &mut Realm,
    alloc: Global,
    caller: u32,
    inc: u64,
    from: u64,
) -> Result<Result<Answer, Refusal>, NoStep>
    ensures legal { IsLegal realm.old }
    ensures streams { StreamsBy realm.old realm.new caller inc from result }
{
    check_history(realm);
    outcomes_are_one();
    let scope = moniker(alloc, realm.tree(), inc)?;
    let told = follow(alloc, realm.entries(), from, &scope)?;
    match realm.tail(caller, inc, from)? {
        Reply::Tailed(next) => Ok(Ok(Answer::Streamed(next, told))),
        other => {
            drop(told);
            Ok(Err(refusing(other)))
        }
    }
}

/// What ended the turn, or its answer.
fn answer_in(went: Result<Result<Answer, Refusal>, NoStep>) -> Result<Answer, Refusal>
    ensures { result ≡ spec.answer_in went }
{
    match went {
        Ok(answer) => answer,
        Err(NoStep::HistoryFull) => Err(Refusal::HistoryFull),
        Err(_) => Err(Refusal::Memory),
    }
}

impl Manager {
    /// Answers what happened at and below the instance of this incarnation behind so many entries, in
    /// one turn: `Streamed`, with how many entries had been made. `Gone` where the instance doesn't live,
    /// or it or one above it is being destroyed.
    pub(crate) fn events_at<R: Wait>(
        &self,
        rt: &R,
        alloc: Global,
        pass: Pass<Entry, Frame>,
        inc: u64,
        from: u64,
    ) -> (Pass<Entry, Frame>, Result<Answer, Refusal>)
        requires lock { pass.lock ≡ self.now.turn.lock }
        ensures same { IsSamePass (frame_of pass) pass result.0 }
        ensures streamed { StreamedBy inc from pass result.0 result.1 }
    {
        let caller = pass.caller();
        self.permit.take(rt, caller);
        let mut held = self.turn.enter(rt, pass);
        let went = stream_at(held.state(), alloc, caller, inc, from);
        (self.turn.leave(held), answer_in(went))
    }
}
