//! The gates to the outside.

ghost use Rattle.std.specs.Prelude.{◌≡◌, ◌≢◌, ◌<◌, ◌≤◌, ◌^◌, [], ◌∷◌};
ghost use Rattle.cm_io.specs.Outside.{Rose};
ghost use Rattle.cm_gate.specs.Logs.{Grew};

use crate::{Fetch, Fetched, GateCall, Halted, Job, Launched};
use cm_turn::Pass;
use cm_world::{Entry, Frame};
use std::alloc::Global;
use std::sync::Wait;
use std::thread::Threads;

/// A resolver and a runner: the gates through which one caller asks the outside.
///
/// They count their faults, from 0 to 2^64 - 1, where the count stays. They may tell their log,
/// which is the list of the questions that were asked so far, each with its answer.
///
/// Each call borrows `idle`, the pass of the caller. A caller inside a turn has no pass in hand,
/// since the turn took it away (see [`cm_turn::Turn::enter`]). So no gate is called inside a turn,
/// and one that takes long holds no other caller up.
pub trait Gates: Drop {
    ghost use Rattle.std.specs.Prelude.{ℕ, List, Option};
    ghost use Rattle.cm_gate.specs.declared.asked.GateCall.{GateCall};

    /// The log, where it is told.
    ghost log: { Self → Option (List GateCall) };

    /// How often they failed.
    ghost faults: { Self → ℕ };

    /// They never fail.
    ghost quiet: { Self → Type 0 };

    /// Asks for the manifest of a component, as `fuchsia.component.resolution.Resolver` is asked.
    ///
    /// `Absent` is the resolver's own answer that there is none. `Failed` comes only where the
    /// resolver failed: then the count of faults rose in this call. `Memory` comes only where
    /// memory ran out.
    ///
    /// A log that is told afterwards was told before, and grew by this question with its answer.
    /// Quiet gates never answer `Failed`, and stay quiet.
    fn fetch<R: Threads + Wait + Sync>(
        &mut self,
        rt: &R,
        alloc: Global,
        idle: &Pass<Entry, Frame>,
        what: &Fetch,
    ) -> Fetched
        ensures log { Grew (log self.old) (log self.new) (GateCall.Fetch what.now result ∷ []) }
        ensures later { faults self.old ≤ faults self.new }
        ensures fault { result ≡ Fetched.Failed → Rose (faults self.old) (faults self.new) }
        ensures bound { faults self.new < 2 ^ 64 }
        ensures quiet { quiet self.old → quiet self.new × (faults self.new ≡ faults self.old) }
        ensures unfailing { quiet self.old → result ≢ Fetched.Failed };

    /// Has the program of an instance started, as `fuchsia.component.runner.ComponentRunner` does.
    ///
    /// `Declined` is the runner's own answer that it doesn't take the program. `Failed` comes only
    /// where the runner failed: then the count of faults rose in this call.
    ///
    /// A log that is told afterwards was told before, and grew by this question with its answer.
    /// Quiet gates never answer `Failed`, and stay quiet.
    fn launch<R: Threads + Wait + Sync>(
        &mut self,
        rt: &R,
        idle: &Pass<Entry, Frame>,
        job: &Job,
    ) -> Launched
        ensures log { Grew (log self.old) (log self.new) (GateCall.Launch job.now result ∷ []) }
        ensures later { faults self.old ≤ faults self.new }
        ensures fault { result ≡ Launched.Failed → Rose (faults self.old) (faults self.new) }
        ensures bound { faults self.new < 2 ^ 64 }
        ensures quiet { quiet self.old → quiet self.new × (faults self.new ≡ faults self.old) }
        ensures unfailing { quiet self.old → result ≢ Launched.Failed };

    /// Has the program of an instance stopped, as `fuchsia.component.runner.ComponentController`
    /// does.
    ///
    /// `Failed` comes only where the runner failed: then the count of faults rose in this call.
    ///
    /// A log that is told afterwards was told before, and grew by this question with its answer.
    /// Quiet gates never answer `Failed`, and stay quiet.
    fn halt<R: Threads + Wait + Sync>(
        &mut self,
        rt: &R,
        idle: &Pass<Entry, Frame>,
        job: &Job,
    ) -> Halted
        ensures log { Grew (log self.old) (log self.new) (GateCall.Halt job.now result ∷ []) }
        ensures later { faults self.old ≤ faults self.new }
        ensures fault { result ≡ Halted.Failed → Rose (faults self.old) (faults self.new) }
        ensures bound { faults self.new < 2 ^ 64 }
        ensures quiet { quiet self.old → quiet self.new × (faults self.new ≡ faults self.old) }
        ensures unfailing { quiet self.old → result ≢ Halted.Failed };
}
