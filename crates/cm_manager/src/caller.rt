//! A caller of the manager: its pass and its gates, in its turns and between them.
//!
//! Who has many commands makes one caller for them, performs each, and takes it apart at the end. The parts
//! of a call are methods of a caller too. The calls of [`Manager`] take a pass and gates, and give the pass
//! back: each makes a caller of these for itself.

ghost use Rattle.std.specs.Prelude.{◌≡◌};
ghost use Rattle.cm_world.specs.declared.event.Event.TheVariants as event;
ghost use Rattle.cm_world.specs.Step.{MayEnd};
ghost use Rattle.cm_laws.specs.Laws.{IsJoined};
ghost use Rattle.cm_steps.specs.Ends.{finish_of};
ghost use Rattle.cm_steps.specs.Requests.{event_of};
ghost use Rattle.cm_manager.specs.Asking.{RecordsEvent, IsDue, RecordsOutcome, frame_of};
ghost use Rattle.cm_manager.specs.Caller.{WorksOutsideTurn, TakesTurns};
ghost use Rattle.cm_manager.specs.Doing.{FitsAction};
ghost use Rattle.cm_manager.specs.Gated.{gates_view};
ghost use Rattle.cm_manager.specs.Turns.{world_after};

use crate::Manager;
use crate::judged::Judged;
use cm_gate::Gates;
use cm_names::List;
use cm_steps::{Ending, EventRef};
use cm_turn::Pass;
use cm_world::{ActKind, Entry, Frame, Outcome, Refusal, Reply, Work};
use std::alloc::Global;
use std::marker::Model;
use std::sync::Wait;
use std::thread::Threads;

/// A caller of a manager, which holds its pass and borrows its gates. Contracts see the manager, the pass,
/// which is one of its lock, and the gates by their log and their count of faults.
pub struct Caller<'a, R, G: Gates> {
    pub(crate) rt: &'a R,
    pub(crate) alloc: Global,
    pub(crate) manager: &'a Manager,
    /// `None` only within a turn.
    pub(crate) pass: Option<Pass<Entry, Frame>>,
    pub(crate) gates: &'a mut G,
    /// The manifest of the repository that was judged last for this caller, if it is a valid one.
    pub(crate) last: Option<Judged<'a>>,
}

impl<'a, R, G: Gates> Model for Caller<'a, R, G> {
    ghost use Rattle.std.specs.Prelude.{◌≡◌, IsSome};
    ghost use Rattle.cm_manager.specs.Gated.{gates_view};
    ghost use Rattle.cm_manager.specs.Caller.{CallerView, pass_in};

    ghost Value = { CallerView };

    ghost view = { λ c. record {
      manager = c.manager.now;
      pass = pass_in c.manager.now.turn c.pass;
      name = c.gates.ghost_name;
      gates = gates_view G.log G.faults c.gates.now;
    } };

    ghost invariant = { λ c. IsSome c.pass
        × ((pass_in c.manager.now.turn c.pass).lock ≡ c.manager.now.turn.lock) };
}

impl<'a, R: Threads + Wait + Sync, G: Gates> Caller<'a, R, G> {
    /// A caller with a pass of the manager's lock, at any time between two calls with this pass.
    pub fn new(
        rt: &'a R,
        alloc: Global,
        manager: &'a Manager,
        pass: Pass<Entry, Frame>,
        gates: &'a mut G,
    ) -> Caller<'a, R, G>
        requires lock { pass.lock ≡ manager.now.turn.lock }
        ensures manager { result.manager ≡ manager.now }
        ensures pass { result.pass ≡ pass }
        ensures name { result.name ≡ gates.entry.ghost_name }
        ensures gates { result.gates ≡ gates_view G.log G.faults gates.old }
    {
        Caller {
            rt,
            alloc,
            manager,
            pass: Some(pass),
            gates,
            last: None,
        }
    }

    /// The pass and the gates, which are those that it was made with. It may be taken apart at any time.
    pub fn into_parts(self) -> (Pass<Entry, Frame>, &'a mut G)
        ensures pass { result.0 ≡ self.entry.pass }
        ensures name { result.1.ghost_name ≡ self.entry.name }
        ensures gates { gates_view G.log G.faults result.1.now ≡ self.entry.gates }
    {
        let Caller {
            rt: _,
            alloc: _,
            manager: _,
            pass,
            gates,
            last: _,
        } = self;
        let Some(pass) = pass else { unreachable!() };
        (pass, gates)
    }

    /// The runtime, for what is done beside the calls. It may be asked for at any time.
    pub fn rt(&self) -> &'a R {
        self.rt
    }

    /// The allocator, for what is done beside the calls. It may be asked for at any time.
    pub fn alloc(&self) -> Global {
        self.alloc
    }

    /// Gives the permit back, at the end of a call.
    pub(crate) fn give_back(&self) {
        let Some(idle) = &self.pass else {
            unreachable!()
        };
        let manager = self.manager;
        manager.permit.give_back(idle.caller());
    }

    /// Makes the event, in a later turn again while it has to wait.
    pub(crate) fn ask(&mut self, wish: EventRef<'_>) -> Result<Reply, Refusal>
        requires due { let p = self.old.pass in IsDue (world_after (frame_of p) p.seen) (event_of wish) }
        ensures turns { TakesTurns self.old self.new }
        ensures asked { RecordsEvent (event_of wish.entry) self.old.pass self.new.pass result }
    {
        let Some(pass) = self.pass.take() else {
            unreachable!()
        };
        let (pass, went) = self.manager.ask(self.rt, self.alloc, pass, wish);
        self.pass = Some(pass);
        went
    }

    /// Ends an action that this caller has begun, and answers what became of it.
    pub(crate) fn end_turn(&mut self, action: u64, ending: Ending) -> Outcome
        requires may { let p = self.old.pass in
            MayEnd (world_after (frame_of p) p.seen).acts p.caller action (finish_of ending) }
        ensures turns { TakesTurns self.old self.new }
        ensures told { let e = event.End action (finish_of ending) in
            RecordsOutcome self.old.pass self.new.pass e result }
    {
        let Some(pass) = self.pass.take() else {
            unreachable!()
        };
        let (pass, outcome) = self.manager.end_turn(self.rt, pass, action, ending);
        self.pass = Some(pass);
        outcome
    }

    /// Waits for the end of an action that this caller has joined, and answers what became of it.
    pub(crate) fn await_turn(&mut self, action: u64) -> Outcome
        requires joined { let p = self.old.pass in
            IsJoined (world_after (frame_of p) p.seen) p.caller action }
        ensures turns { TakesTurns self.old self.new }
        ensures told { RecordsOutcome self.old.pass self.new.pass (event.Await action) result }
    {
        let Some(pass) = self.pass.take() else {
            unreachable!()
        };
        let (pass, outcome) = self.manager.await_turn(self.rt, pass, action);
        self.pass = Some(pass);
        outcome
    }

    /// Does the work of an action, with the pass idle. For a start it gives the instance's eager
    /// children back.
    pub(crate) fn do_work(&mut self, kind: ActKind, work: Work) -> (Ending, List<u64>)
        ensures does { WorksOutsideTurn kind work (finish_of result.0) self.old self.new }
        ensures fits { FitsAction kind (finish_of result.0) }
        ensures eager { kind ≡ ActKind.Start → result.1 ≡ work.eager }
    {
        let Some(idle) = &self.pass else {
            unreachable!()
        };
        let last = &mut self.last;
        self.manager
            .do_work(self.rt, self.alloc, self.gates, last, idle, kind, work)
    }
}
