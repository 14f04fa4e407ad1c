//! The parts of a call: the search for the row of its target, and its one event.

ghost use Rattle.std.specs.Prelude.{IsTrue};
ghost use Rattle.cm_world.specs.declared.event.Target.TheVariants as target;
ghost use Rattle.cm_manager.specs.Calls.{Finding};
ghost use Rattle.cm_steps.specs.Requests.{event_for};
ghost use Rattle.cm_manager.specs.Questions.{Requested, is_single};
ghost use Rattle.cm_manager.specs.Runs.{RetriesEvent};
ghost use Rattle.cm_manager.specs.Caller.{CallerFinds, CallerRuns};

use crate::caller::Caller;
use cm_answers::{Follow, behind, decided, following, found};
use cm_gate::Gates;
use cm_names::Moniker;
use cm_steps::{EventRef, Request};
use cm_world::{Answer, Refusal, Reply, Target};
use std::sync::Wait;
use std::thread::Threads;

impl<'a, R: Threads + Wait + Sync, G: Gates> Caller<'a, R, G> {
    /// Looks for the row at a moniker: its incarnation, or why there is none.
    fn find_named(&mut self, moniker: &Moniker) -> Result<u64, Refusal>
        ensures { CallerRuns (λ f c a b. Finding f c (target.Named moniker.now) a b result)
            self.old self.new }
    {
        found(self.try_event(EventRef::Find(moniker)))
    }

    /// The row that a target names: an incarnation is taken as it stands, a moniker is looked for.
    pub(crate) fn find_row(&mut self, target: &Target) -> Result<u64, Refusal>
        ensures { CallerFinds target.now self.old self.new result }
    {
        match target {
            Target::Named(moniker) => self.find_named(moniker),
            Target::Inc(inc) => Ok(*inc),
        }
    }

    /// Makes the event of a request until a reply decides it.
    pub(crate) fn try_request(&mut self, inc: u64, request: Request<'_>) -> Result<Reply, Refusal>
        requires { IsTrue (is_single request) }
        ensures { let e = event_for request.entry inc in
            CallerRuns (λ f c a b. RetriesEvent f c e a b result) self.old self.new }
    {
        self.try_event(EventRef::Ask(request, inc))
    }

    /// Makes a request of one event of the instance of this incarnation, and does what follows its reply: a
    /// child that was created is started where it runs once, and what went with an instance that
    /// has ended by itself is removed.
    pub(crate) fn request(&mut self, inc: u64, request: Request<'_>) -> Result<Answer, Refusal>
        requires { IsTrue (is_single request) }
        ensures { CallerRuns (λ f c a b. Requested f c request.entry inc a b result) self.old self.new }
    {
        let went = self.try_request(inc, request);
        let follow = following(request, inc, &went);
        let answer = decided(went);
        match follow {
            Follow::Nothing => answer,
            Follow::Start(child) => behind(self.start_once(child), answer),
            Follow::Sweep(left) => behind(self.sweep(left), answer),
        }
    }
}
