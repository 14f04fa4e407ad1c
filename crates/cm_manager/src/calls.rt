//! The calls of a manager.
//!
//! Each call takes the caller's pass and its gates. It finds the instance that its target names,
//! does what has to be done first, and answers; the pass comes back in every case. The entries
//! that it made are the caller's newest, and together with its answer they are a whole call, as
//! `IsWholeCall` has it: an instance is found by one event, an action that was begun is ended,
//! one that was joined is awaited, and what another event needed first was done.
//!
//! Each call is refused
//!
//! - with `NotFound` and the part of its moniker that was found, where nothing stands there;
//! - with `Gone` where its instance doesn't live, or it or one above it is being destroyed
//!   (`exited` only where it doesn't live), and with `Shut` where that, or one on the way to it, is
//!   being shut down and would have to be resolved, started or stopped;
//! - with `CannotResolve`, the action and its outcome, where a resolve failed that it needed;
//! - with `HistoryFull` where the history has no room for what is needed, and with `Memory` where
//!   memory runs out. These end the call at once: what was begun is ended before, and the entries
//!   that were made stay.
//!
//! What else refuses it stands at the call.

ghost use Rattle.std.specs.Prelude.{◌≡◌, IfOk};
ghost use Rattle.cm_command.specs.declared.command.Command.TheVariants as command;
ghost use Rattle.cm_laws.specs.ShutdownsInside.{IsShutBelow};
ghost use Rattle.cm_manager.specs.Asking.{frame_of};
ghost use Rattle.cm_manager.specs.Caller.{CallerPerforms, CallerRuns, TakesTurns};
ghost use Rattle.cm_manager.specs.Gated.{PerformsWith};
ghost use Rattle.cm_manager.specs.Laws.{IsRemoved, LeavesRow};
ghost use Rattle.cm_answers.specs.Questions.{asked_by};
ghost use Rattle.cm_manager.specs.Questions.{AnswersTo, CallsMark};
ghost use Rattle.cm_manager.specs.Streaming.{StreamedBy};

use crate::Manager;
use crate::caller::Caller;
use crate::laws::answers_hold;
use cm_answers::ended::acted;
use cm_answers::{request_of, unless_ended};
use cm_command::Command;
use cm_decl::Give;
use cm_gate::Gates;
use cm_names::{CapPath, List, Name, Text};
use cm_steps::Request;
use cm_turn::Pass;
use cm_world::{ActKind, Answer, Entry, Frame, Refusal, Target};
use std::alloc::Global;
use std::sync::Wait;
use std::thread::Threads;

impl<'a, R: Threads + Wait + Sync, G: Gates> Caller<'a, R, G> {
    /// Answers what happened at and below the instance of this incarnation behind so many entries.
    fn events_at(&mut self, inc: u64, from: u64) -> Result<Answer, Refusal>
        ensures turns { TakesTurns self.old self.new }
        ensures streamed { StreamedBy inc from self.old.pass self.new.pass result }
    {
        let Some(pass) = self.pass.take() else {
            unreachable!()
        };
        let (pass, answer) = self.manager.events_at(self.rt, self.alloc, pass, inc, from);
        self.pass = Some(pass);
        answer
    }

    /// Marks the instance of this incarnation, and shuts it down with all below it; where `doom` is true it
    /// is removed then.
    fn mark_row(&mut self, doom: bool, inc: u64) -> Result<Answer, Refusal>
        ensures { CallerRuns (λ f c a b. CallsMark f c doom inc a b result) self.old self.new }
    {
        if doom {
            unless_ended(Answer::Destroyed, self.destroy_row(inc))
        } else {
            unless_ended(Answer::Shut, self.shut_row(false, inc))
        }
    }

    /// Answers a request of the instance of this incarnation.
    fn answer(&mut self, inc: u64, request: Request<'_>) -> Result<Answer, Refusal>
        ensures { CallerRuns (λ f c a b. AnswersTo f c request.entry inc a b result) self.old self.new }
    {
        match request {
            Request::Begin(kind) => acted(kind, self.act(kind, inc)),
            Request::Mark(doom) => self.mark_row(doom, inc),
            Request::Tail(from) => self.events_at(inc, from),
            single => self.request(inc, single),
        }
    }

    /// Finds the instance that a target names, and answers a request of it.
    fn find_and_answer(&mut self, target: &Target, request: Request<'_>) -> Result<Answer, Refusal>
        ensures { CallerPerforms (asked_by target.now request.entry) self.old self.new result }
    {
        let inc = self.find_row(target)?;
        self.answer(inc, request)
    }

    /// Makes one call, and gives the permit back.
    fn call(&mut self, target: &Target, request: Request<'_>) -> Result<Answer, Refusal>
        ensures { CallerPerforms (asked_by target.now request.entry) self.old self.new result }
    {
        let answer = self.find_and_answer(target, request);
        self.give_back();
        answer
    }

    /// Makes the call that a command names, and answers so, as [`Manager::perform`] does. It may be called
    /// again and again, and what the caller has then is what the next call begins with.
    pub fn perform(&mut self, command: &Command) -> Result<Answer, Refusal>
        ensures performs { CallerPerforms command.now self.old self.new result }
    {
        match request_of(command) {
            Ok((target, request)) => self.call(target, request),
            Err(target) => self.doctor(target),
        }
    }
}

impl Manager {
    /// Makes one call with this pass and these gates.
    pub(crate) fn call<R: Threads + Wait + Sync, G: Gates>(
        &self,
        rt: &R,
        alloc: Global,
        pass: Pass<Entry, Frame>,
        gates: &mut G,
        target: &Target,
        request: Request<'_>,
    ) -> (Pass<Entry, Frame>, Result<Answer, Refusal>)
        requires lock { pass.lock ≡ self.now.turn.lock }
        ensures performs { PerformsWith G.log G.faults self.now.manifests
            (asked_by target.now request.entry)
            pass result.0 gates.old gates.new result.1 }
    {
        let mut caller = Caller::new(rt, alloc, self, pass, gates);
        let answer = caller.call(target, request);
        let (pass, _gates) = caller.into_parts();
        (pass, answer)
    }

    /// Resolves an instance, as `ResolveInstance` of `fuchsia.sys2.LifecycleController` does:
    /// `Resolved` with the number of the action, or none where it was resolved before.
    pub fn resolve<R: Threads + Wait + Sync, G: Gates>(
        &self,
        rt: &R,
        alloc: Global,
        pass: Pass<Entry, Frame>,
        gates: &mut G,
        target: &Target,
    ) -> (Pass<Entry, Frame>, Result<Answer, Refusal>)
        requires lock { pass.lock ≡ self.now.turn.lock }
        ensures performs { PerformsWith G.log G.faults self.now.manifests (command.Resolve target.now)
            pass result.0 gates.old gates.new result.1 }
    {
        let request = Request::Begin(ActKind::Resolve);
        self.call(rt, alloc, pass, gates, target, request)
    }

    /// Starts an instance, as `StartInstance` of `fuchsia.sys2.LifecycleController` does, with its
    /// eager children: `Started` with the number of the action, or none where it ran before.
    ///
    /// - `CannotStart` with the action and its outcome, where a start failed.
    pub fn start<R: Threads + Wait + Sync, G: Gates>(
        &self,
        rt: &R,
        alloc: Global,
        pass: Pass<Entry, Frame>,
        gates: &mut G,
        target: &Target,
    ) -> (Pass<Entry, Frame>, Result<Answer, Refusal>)
        requires lock { pass.lock ≡ self.now.turn.lock }
        ensures performs { PerformsWith G.log G.faults self.now.manifests (command.Start target.now)
            pass result.0 gates.old gates.new result.1 }
    {
        let request = Request::Begin(ActKind::Start);
        self.call(rt, alloc, pass, gates, target, request)
    }

    /// Stops an instance, as `StopInstance` of `fuchsia.sys2.LifecycleController` does: `Stopped`
    /// with the number of the action, or none where it was off before, and whether it had to be
    /// stopped by force. What goes with the instance is removed before the answer, where this call
    /// itself stopped it; a call that joined the stop of another caller doesn't wait for that.
    pub fn stop<R: Threads + Wait + Sync, G: Gates>(
        &self,
        rt: &R,
        alloc: Global,
        pass: Pass<Entry, Frame>,
        gates: &mut G,
        target: &Target,
    ) -> (Pass<Entry, Frame>, Result<Answer, Refusal>)
        requires lock { pass.lock ≡ self.now.turn.lock }
        ensures performs { PerformsWith G.log G.faults self.now.manifests (command.Stop target.now)
            pass result.0 gates.old gates.new result.1 }
    {
        let request = Request::Begin(ActKind::Stop);
        self.call(rt, alloc, pass, gates, target, request)
    }

    /// Shuts an instance down, with all below it: they are stopped one by one, each before what it
    /// strongly depends on, and won't start again. `Shut`, also where all was shut before: then all
    /// of them are shut in the tree that the pass has seen.
    ///
    /// A stop that has to be made by force counts as one. Where the call ends early, the instance
    /// stays marked, and a later call goes on from there.
    ///
    /// - `Gone` where the instance doesn't live, or it or one above it is being destroyed.
    pub fn shutdown<R: Threads + Wait + Sync, G: Gates>(
        &self,
        rt: &R,
        alloc: Global,
        pass: Pass<Entry, Frame>,
        gates: &mut G,
        target: &Target,
    ) -> (Pass<Entry, Frame>, Result<Answer, Refusal>)
        requires lock { pass.lock ≡ self.now.turn.lock }
        ensures performs { PerformsWith G.log G.faults self.now.manifests (command.Shutdown target.now)
            pass result.0 gates.old gates.new result.1 }
        ensures shut { let f = frame_of pass in
            IfOk result.1 (λ _. LeavesRow f pass.caller target.now IsShutBelow pass.seen result.0.seen) }
    {
        answers_hold();
        self.call(rt, alloc, pass, gates, target, Request::Mark(false))
    }

    /// Creates a child of an instance in one of its collections, as `CreateChild` of
    /// `fuchsia.component.Realm` does, and offers it alone what `gives` tells: `Created` with its
    /// incarnation, which no instance had before. A child of a collection that runs each child
    /// once is started before the answer; that its start fails doesn't change the answer.
    ///
    /// - `Gone` where the parent doesn't live, or it or one above it is being destroyed, and
    ///   `ParentClosing` where it is being shut down;
    /// - `CollectionNotFound` where the parent declares no such collection, and `AlreadyExists`
    ///   with the incarnation of the child that has the name there;
    /// - `DynamicOffersRefused` where the collection takes no such offers, `BadOffer` with the
    ///   first one that breaks a rule, and `OfferCycle` with a ring of siblings that they close;
    /// - `Full` where the realm has no room for one instance more.
    pub fn create_child<R: Threads + Wait + Sync, G: Gates>(
        &self,
        rt: &R,
        alloc: Global,
        pass: Pass<Entry, Frame>,
        gates: &mut G,
        parent: &Target,
        coll: &Name,
        name: &Name,
        url: &Text,
        gives: &List<Give>,
    ) -> (Pass<Entry, Frame>, Result<Answer, Refusal>)
        requires lock { pass.lock ≡ self.now.turn.lock }
        ensures performs { PerformsWith G.log G.faults self.now.manifests
            (command.Create parent.now coll.now name.now url.now gives.now)
            pass result.0 gates.old gates.new result.1 }
    {
        let request = Request::Create(coll, name, url, gives);
        self.call(rt, alloc, pass, gates, parent, request)
    }

    /// Destroys a child in a collection, as `DestroyChild` of `fuchsia.component.Realm` does: it
    /// is shut down with all below it, and then removed. `Destroyed`, by this call or by another:
    /// then it isn't in the tree any more that the pass has seen.
    ///
    /// Where the call ends early, the child stays marked to be destroyed; its name is free, and a
    /// later call that names its incarnation goes on from there.
    ///
    /// - `Gone` where the instance doesn't live, or one above it is being destroyed;
    /// - `NotDynamic` where it is the root, or a child that its parent declares.
    pub fn destroy_child<R: Threads + Wait + Sync, G: Gates>(
        &self,
        rt: &R,
        alloc: Global,
        pass: Pass<Entry, Frame>,
        gates: &mut G,
        target: &Target,
    ) -> (Pass<Entry, Frame>, Result<Answer, Refusal>)
        requires lock { pass.lock ≡ self.now.turn.lock }
        ensures performs { PerformsWith G.log G.faults self.now.manifests (command.Destroy target.now)
            pass result.0 gates.old gates.new result.1 }
        ensures removed { let f = frame_of pass in
            IfOk result.1 (λ _. LeavesRow f pass.caller target.now IsRemoved pass.seen result.0.seen) }
    {
        answers_hold();
        self.call(rt, alloc, pass, gates, target, Request::Mark(true))
    }

    /// Lists the children that an instance has in a collection and that aren't being destroyed,
    /// as `ListChildren` of `fuchsia.component.Realm` does: `Children`, by their incarnations.
    ///
    /// - `CollectionNotFound` where the instance declares no such collection.
    pub fn list_children<R: Threads + Wait + Sync, G: Gates>(
        &self,
        rt: &R,
        alloc: Global,
        pass: Pass<Entry, Frame>,
        gates: &mut G,
        target: &Target,
        coll: &Name,
    ) -> (Pass<Entry, Frame>, Result<Answer, Refusal>)
        requires lock { pass.lock ≡ self.now.turn.lock }
        ensures performs { PerformsWith G.log G.faults self.now.manifests
            (command.ListChildren target.now coll.now) pass result.0 gates.old gates.new result.1 }
    {
        self.call(rt, alloc, pass, gates, target, Request::List(coll))
    }

    /// Opens what an instance uses at a path, and starts the provider first where it is off:
    /// `Opened` with the route.
    ///
    /// - `ClientOff` where the instance doesn't run, `NoSuchUse` where it has no use of the path;
    /// - `NoRoute` with the hop that fails and why, `VoidSource` where it is left out on purpose;
    /// - `SourceShut` where the provider can't be started any more;
    /// - `CannotStart` with the action and its outcome, where a start failed.
    pub fn open_use<R: Threads + Wait + Sync, G: Gates>(
        &self,
        rt: &R,
        alloc: Global,
        pass: Pass<Entry, Frame>,
        gates: &mut G,
        target: &Target,
        path: &CapPath,
    ) -> (Pass<Entry, Frame>, Result<Answer, Refusal>)
        requires lock { pass.lock ≡ self.now.turn.lock }
        ensures performs { PerformsWith G.log G.faults self.now.manifests
            (command.OpenUse target.now path.now) pass result.0 gates.old gates.new result.1 }
    {
        self.call(rt, alloc, pass, gates, target, Request::OpenUse(path))
    }

    /// Opens what an instance exposes by a name, as `OpenExposedDir` of `fuchsia.component.Realm`
    /// does, and starts the provider first where it is off: `Opened` with the route.
    ///
    /// - `NoRoute` with the hop that fails and why, `VoidSource` where it is left out on purpose;
    /// - `SourceShut` where the provider can't be started any more;
    /// - `CannotStart` with the action and its outcome, where a start failed.
    pub fn open_exposed<R: Threads + Wait + Sync, G: Gates>(
        &self,
        rt: &R,
        alloc: Global,
        pass: Pass<Entry, Frame>,
        gates: &mut G,
        target: &Target,
        name: &Name,
    ) -> (Pass<Entry, Frame>, Result<Answer, Refusal>)
        requires lock { pass.lock ≡ self.now.turn.lock }
        ensures performs { PerformsWith G.log G.faults self.now.manifests
            (command.OpenExposed target.now name.now) pass result.0 gates.old gates.new result.1 }
    {
        self.call(rt, alloc, pass, gates, target, Request::OpenExposed(name))
    }

    /// Tells where what an instance uses at a path comes from: `Routed` with the route.
    ///
    /// - `NoSuchUse` where the instance has no use of the path;
    /// - `NoRoute` with the hop that fails and why, `VoidSource` where it is left out on purpose;
    /// - `SourceShut` where an instance on the way can't be resolved any more.
    pub fn route<R: Threads + Wait + Sync, G: Gates>(
        &self,
        rt: &R,
        alloc: Global,
        pass: Pass<Entry, Frame>,
        gates: &mut G,
        target: &Target,
        path: &CapPath,
    ) -> (Pass<Entry, Frame>, Result<Answer, Refusal>)
        requires lock { pass.lock ≡ self.now.turn.lock }
        ensures performs { PerformsWith G.log G.faults self.now.manifests
            (command.RouteOf target.now path.now) pass result.0 gates.old gates.new result.1 }
    {
        self.call(rt, alloc, pass, gates, target, Request::Route(path))
    }

    /// Tells how an instance is: `Shown`.
    pub fn show<R: Threads + Wait + Sync, G: Gates>(
        &self,
        rt: &R,
        alloc: Global,
        pass: Pass<Entry, Frame>,
        gates: &mut G,
        target: &Target,
    ) -> (Pass<Entry, Frame>, Result<Answer, Refusal>)
        requires lock { pass.lock ≡ self.now.turn.lock }
        ensures performs { PerformsWith G.log G.faults self.now.manifests (command.Show target.now)
            pass result.0 gates.old gates.new result.1 }
    {
        self.call(rt, alloc, pass, gates, target, Request::Show)
    }

    /// Tells how an instance and all below it are: `Surveyed` with those that aren't being
    /// destroyed, by their incarnations, each with where it stands and the paths that it uses.
    pub fn survey<R: Threads + Wait + Sync, G: Gates>(
        &self,
        rt: &R,
        alloc: Global,
        pass: Pass<Entry, Frame>,
        gates: &mut G,
        target: &Target,
    ) -> (Pass<Entry, Frame>, Result<Answer, Refusal>)
        requires lock { pass.lock ≡ self.now.turn.lock }
        ensures performs { PerformsWith G.log G.faults self.now.manifests (command.Survey target.now)
            pass result.0 gates.old gates.new result.1 }
    {
        self.call(rt, alloc, pass, gates, target, Request::Survey)
    }

    /// Tells that the program of an instance has ended by itself: `Left`, and whether it was on.
    /// It waits while an action is pending at the instance. What went with an instance that was on
    /// is removed before the answer.
    pub fn exited<R: Threads + Wait + Sync, G: Gates>(
        &self,
        rt: &R,
        alloc: Global,
        pass: Pass<Entry, Frame>,
        gates: &mut G,
        target: &Target,
    ) -> (Pass<Entry, Frame>, Result<Answer, Refusal>)
        requires lock { pass.lock ≡ self.now.turn.lock }
        ensures performs { PerformsWith G.log G.faults self.now.manifests (command.Exited target.now)
            pass result.0 gates.old gates.new result.1 }
    {
        self.call(rt, alloc, pass, gates, target, Request::Exited)
    }

    /// Tells what happened at and below an instance, as the entries behind the first `from` tell it:
    /// `Streamed`, with how many entries had been made. A later call from there goes on where this one
    /// ended. What is told is read of the history before the call's own last entry.
    pub fn events<R: Threads + Wait + Sync, G: Gates>(
        &self,
        rt: &R,
        alloc: Global,
        pass: Pass<Entry, Frame>,
        gates: &mut G,
        target: &Target,
        from: u64,
    ) -> (Pass<Entry, Frame>, Result<Answer, Refusal>)
        requires lock { pass.lock ≡ self.now.turn.lock }
        ensures performs { PerformsWith G.log G.faults self.now.manifests (command.Events target.now from)
            pass result.0 gates.old gates.new result.1 }
    {
        self.call(rt, alloc, pass, gates, target, Request::Tail(from))
    }

    /// Makes the call that a command names, and answers so.
    pub fn perform<R: Threads + Wait + Sync, G: Gates>(
        &self,
        rt: &R,
        alloc: Global,
        pass: Pass<Entry, Frame>,
        gates: &mut G,
        command: &Command,
    ) -> (Pass<Entry, Frame>, Result<Answer, Refusal>)
        requires lock { pass.lock ≡ self.now.turn.lock }
        ensures performs { PerformsWith G.log G.faults self.now.manifests command.now
            pass result.0 gates.old gates.new result.1 }
    {
        let mut caller = Caller::new(rt, alloc, self, pass, gates);
        let answer = caller.perform(command);
        let (pass, _gates) = caller.into_parts();
        (pass, answer)
    }
}
