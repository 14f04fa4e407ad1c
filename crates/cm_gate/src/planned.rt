//! Gates whose answers and failures are planned, and which note what they were asked.

ghost use Rattle.cm_gate.specs.Logs.{Grew};
ghost use Rattle.cm_gate.specs.Planned.{Causes, LeavesGates, Notes, StaysTold, counted, is_full, told_log};
ghost use Rattle.cm_gate.specs.Planned.{fails_next, is_among, not_yet_asked};
ghost use Rattle.cm_gate.specs.Planned.{planned_fetch, planned_halt, planned_launch};
ghost use Rattle.cm_io.specs.CountsInside.{count_after};
ghost use Rattle.cm_io.specs.Outside.{Rose};
ghost use Rattle.std.specs.Option.{option_map};
ghost use Rattle.std.specs.Prelude.{◌≡◌, ◌⊎◌, ◌<◌, ◌≤◌, ◌++◌, ◌^◌, [], ◌∷◌, true, false};
ghost use Rattle.std.specs.Prelude.{IfErr, IfOk, OnErr, OnOk};

use crate::count::FaultCount;
use crate::manifests::find_manifest;
use crate::{Fetch, Fetched, GateCall, Gates, Halted, Job, Launched, Manifest};
use cm_names::{List, Memory, Text};
use cm_turn::Pass;
use cm_world::{Entry, Frame};
use std::alloc::{AllocError, Global};
use std::marker::Model;
use std::sync::Wait;
use std::thread::Threads;

/// What planned gates answer, and which of their calls fail.
#[derive(Debug, Drop, Clone)]
pub struct GatePlan {
    /// The manifests that are found. Of several with one URL the first is.
    pub manifests: List<Manifest>,
    /// The URLs of the components whose programs the runner declines. All others run.
    pub declined: List<Text>,
    /// The numbers of the calls that fail. Fetches, launches and halts are counted together; the
    /// first call has the number 0.
    pub failing: List<u64>,
    /// How many questions the log has room for.
    pub room: u64,
}

/// Why a question was not noted.
#[derive(Clone, Copy)]
enum Unnoted {
    /// The log is full.
    NoRoom,
    /// Memory ran out.
    Memory,
}

impl From<AllocError> for Unnoted {
    ghost use Rattle.std.specs.Prelude.{◌≡◌};
    ghost use Rattle.cm_gate.specs.declared.planned.Unnoted.TheVariants.{Memory as OutOfMemory};

    ghost from_gives = { λ _ why. why ≡ OutOfMemory };

    /// For `?` where an allocation fails: memory ran out.
    fn from(_: AllocError) -> Unnoted {
        Unnoted::Memory
    }
}

impl From<Memory> for Unnoted {
    ghost use Rattle.std.specs.Prelude.{◌≡◌};
    ghost use Rattle.cm_gate.specs.declared.planned.Unnoted.TheVariants.{Memory as OutOfMemory};

    ghost from_gives = { λ _ why. why ≡ OutOfMemory };

    /// For `?` after a call that lacked memory.
    fn from(_: Memory) -> Unnoted {
        Unnoted::Memory
    }
}

/// Gates that answer by a plan, and note each question with its answer, for tests.
///
/// A call that finds no room in the log fails. So does a launch or a halt that finds no memory to
/// be noted; a fetch answers `Memory` then, as it does where it finds none for the bytes. After
/// each of these the log isn't told any more.
///
/// Contracts see the plan, the questions that were noted, whether these are all, and how many
/// calls were made and failed.
#[derive(Drop)]
pub struct PlannedGates {
    plan: GatePlan,
    noted: List<GateCall>,
    told: bool,
    calls: u64,
    faults: FaultCount,
    short: FaultCount,
}

impl Model for PlannedGates {
    ghost use Rattle.cm_gate.specs.Planned.{GatePlanAtWork};

    ghost Value = { GatePlanAtWork };

    ghost view = { λ g. record {
      plan = g.plan;
      noted = g.noted;
      told = g.told;
      calls = g.calls;
      faults = g.faults;
      short = g.short;
    } };
}

impl PlannedGates {
    /// Gates by this plan, which were not asked yet. They take memory as they note questions.
    pub fn new(alloc: Global, plan: GatePlan) -> PlannedGates
        ensures { result ≡ not_yet_asked plan }
    {
        PlannedGates {
            plan,
            noted: List::new(alloc),
            told: true,
            calls: 0,
            faults: FaultCount::new(),
            short: FaultCount::new(),
        }
    }

    /// The questions that were asked, with their answers. `None` where one could not be noted.
    pub fn log(&self) -> Option<&[GateCall]>
        ensures { option_map (λ log. log.now) result ≡ told_log self.now }
    {
        if self.told {
            Some(self.noted.as_slice())
        } else {
            None
        }
    }

    /// How often they failed, up to 2^64 - 1.
    pub fn faults(&self) -> u64
        ensures { result ≡ self.now.faults }
    {
        self.faults.get()
    }

    /// For how many calls memory was too short to note them, up to 2^64 - 1.
    pub fn short(&self) -> u64
        ensures { result ≡ self.now.short }
    {
        self.short.get()
    }

    /// Whether the call that comes next is planned to fail.
    fn fails_next(&self) -> bool
        ensures { result ≡ fails_next self.now }
    {
        let call = self.calls;
        self.plan
            .failing
            .as_slice()
            .iter()
            .any(|failing| *failing == call)
    }

    /// Whether the log has no room for one more call.
    fn is_full(&self) -> bool
        ensures { result ≡ is_full self.now }
    {
        self.plan.room <= self.noted.len() as u64
    }

    /// The answer that is planned for a fetch of this URL. `Err` comes where memory runs out for its
    /// bytes.
    fn planned_fetch(&self, url: &str) -> Result<Fetched, AllocError>
        ensures { IfOk result (λ answer. answer ≡ planned_fetch self.now url.now) }
    {
        if self.fails_next() {
            return Ok(Fetched::Failed);
        }
        find_manifest(self.plan.manifests.as_slice(), url)
    }

    /// The answer that is planned for a launch of the component with this URL.
    fn planned_launch(&self, url: &str) -> Launched
        ensures { result ≡ planned_launch self.now url.now }
    {
        if self.fails_next() {
            return Launched::Failed;
        }
        if is_among(self.plan.declined.as_slice(), url) {
            return Launched::Declined;
        }
        Launched::Running
    }

    /// The answer that is planned for a halt.
    fn planned_halt(&self) -> Halted
        ensures { result ≡ planned_halt self.now }
    {
        if self.fails_next() {
            return Halted::Failed;
        }
        Halted::Stopped
    }

    /// `NoRoom` where the log is full.
    fn check_room(&self) -> Result<(), Unnoted>
        ensures ok { OnOk result (is_full self.now ≡ false) }
        ensures err { IfErr result (λ why. Causes (is_full self.now) why) }
    {
        if self.is_full() {
            return Err(Unnoted::NoRoom);
        }
        Ok(())
    }

    /// Answers a fetch by the plan, and puts the question into the log.
    fn note_fetch(&mut self, what: &Fetch) -> Result<Fetched, Unnoted>
        ensures answer { IfOk result (λ answer. answer ≡ planned_fetch self.old what.now.url) }
        ensures noted { IfOk result (λ answer.
            Notes self.old self.new (GateCall.Fetch what.now answer)) }
        ensures cause { IfErr result (λ why. Causes (is_full self.old) why) }
        ensures err { OnErr result (self.new ≡ self.old) }
    {
        self.check_room()?;
        let answer = self.planned_fetch(what.url.as_str())?;
        let asked = GateCall::Fetch(what.clone()?, answer.clone()?);
        self.noted.push(asked)?;
        Ok(answer)
    }

    /// Answers a launch by the plan, and puts the question into the log.
    fn note_launch(&mut self, job: &Job) -> Result<Launched, Unnoted>
        ensures answer { IfOk result (λ answer. answer ≡ planned_launch self.old job.now.url) }
        ensures noted { IfOk result (λ answer.
            Notes self.old self.new (GateCall.Launch job.now answer)) }
        ensures cause { IfErr result (λ why. Causes (is_full self.old) why) }
        ensures err { OnErr result (self.new ≡ self.old) }
    {
        self.check_room()?;
        let answer = self.planned_launch(job.url.as_str());
        self.noted.push(GateCall::Launch(job.clone()?, answer))?;
        Ok(answer)
    }

    /// Answers a halt by the plan, and puts the question into the log.
    fn note_halt(&mut self, job: &Job) -> Result<Halted, Unnoted>
        ensures answer { IfOk result (λ answer. answer ≡ planned_halt self.old) }
        ensures noted { IfOk result (λ answer.
            Notes self.old self.new (GateCall.Halt job.now answer)) }
        ensures cause { IfErr result (λ why. Causes (is_full self.old) why) }
        ensures err { OnErr result (self.new ≡ self.old) }
    {
        self.check_room()?;
        let answer = self.planned_halt();
        self.noted.push(GateCall::Halt(job.clone()?, answer))?;
        Ok(answer)
    }

    /// Counts a call, and its failure.
    fn count(&mut self, failed: bool)
        ensures later { self.old.faults ≤ self.new.faults }
        ensures bound { self.new.faults < 2 ^ 64 }
        ensures call { self.new ≡ counted failed self.old }
    {
        self.calls = self.calls.saturating_add(1);
        self.faults.count(failed);
    }

    /// Counts a call that isn't in the log, its failure, and whether memory was too short.
    fn count_unnoted(&mut self, failed: bool, short: bool)
        ensures later { self.old.faults ≤ self.new.faults }
        ensures bound { self.new.faults < 2 ^ 64 }
        ensures call { self.new ≡ record (counted failed self.old) {
          told = false;
          short = count_after short self.old.short;
        } }
        ensures shorter { short ≡ true → Rose self.old.short self.new.short }
    {
        self.told = false;
        self.short.count(short);
        self.count(failed);
    }
}

impl Gates for PlannedGates {
    ghost use Rattle.cm_gate.specs.Planned.{told_log};

    ghost log = { told_log };

    ghost faults = { λ g. g.faults };

    ghost quiet = { λ _. ⊥ };

    /// Gives what is planned for the URL, and notes it in the log; where that has no room, it fails.
    fn fetch<R: Threads + Wait + Sync>(
        &mut self,
        _rt: &R,
        _alloc: Global,
        _idle: &Pass<Entry, Frame>,
        what: &Fetch,
    ) -> Fetched
        ensures log { Grew (told_log self.old) (told_log self.new)
            (GateCall.Fetch what.now result ∷ []) }
        ensures later { self.old.faults ≤ self.new.faults }
        ensures fault { result ≡ Fetched.Failed → Rose self.old.faults self.new.faults }
        ensures bound { self.new.faults < 2 ^ 64 }
        ensures full { is_full self.old ≡ true → result ≡ Fetched.Failed }
        ensures answer { is_full self.old ≡ false →
            (result ≡ planned_fetch self.old what.now.url) ⊎ (result ≡ Fetched.Memory) }
        ensures told { self.new.told ≡ true → result ≡ planned_fetch self.old what.now.url }
        ensures noted { StaysTold self.old self.new }
        ensures call { LeavesGates self.old self.new (GateCall.Fetch what.now result) }
    {
        match self.note_fetch(what) {
            Ok(answer) => {
                self.count(answer.is_failed());
                answer
            }
            Err(Unnoted::NoRoom) => {
                self.count_unnoted(true, false);
                Fetched::Failed
            }
            Err(Unnoted::Memory) => {
                self.count_unnoted(false, true);
                Fetched::Memory
            }
        }
    }

    /// Gives what is planned for the component, and notes it in the log; where that has no room, it
    /// fails.
    fn launch<R: Threads + Wait + Sync>(
        &mut self,
        _rt: &R,
        _idle: &Pass<Entry, Frame>,
        job: &Job,
    ) -> Launched
        ensures log { Grew (told_log self.old) (told_log self.new)
            (GateCall.Launch job.now result ∷ []) }
        ensures later { self.old.faults ≤ self.new.faults }
        ensures fault { result ≡ Launched.Failed → Rose self.old.faults self.new.faults }
        ensures bound { self.new.faults < 2 ^ 64 }
        ensures full { is_full self.old ≡ true → result ≡ Launched.Failed }
        ensures answer { is_full self.old ≡ false →
            (result ≡ planned_launch self.old job.now.url) ⊎ (result ≡ Launched.Failed) }
        ensures told { self.new.told ≡ true → result ≡ planned_launch self.old job.now.url }
        ensures noted { StaysTold self.old self.new }
        ensures call { LeavesGates self.old self.new (GateCall.Launch job.now result) }
    {
        match self.note_launch(job) {
            Ok(answer) => {
                self.count(answer.is_failed());
                answer
            }
            Err(Unnoted::NoRoom) => {
                self.count_unnoted(true, false);
                Launched::Failed
            }
            Err(Unnoted::Memory) => {
                self.count_unnoted(true, true);
                Launched::Failed
            }
        }
    }

    /// Gives what is planned, and notes it in the log; where that has no room, it fails.
    fn halt<R: Threads + Wait + Sync>(
        &mut self,
        _rt: &R,
        _idle: &Pass<Entry, Frame>,
        job: &Job,
    ) -> Halted
        ensures log { Grew (told_log self.old) (told_log self.new)
            (GateCall.Halt job.now result ∷ []) }
        ensures later { self.old.faults ≤ self.new.faults }
        ensures fault { result ≡ Halted.Failed → Rose self.old.faults self.new.faults }
        ensures bound { self.new.faults < 2 ^ 64 }
        ensures full { is_full self.old ≡ true → result ≡ Halted.Failed }
        ensures answer { is_full self.old ≡ false →
            (result ≡ planned_halt self.old) ⊎ (result ≡ Halted.Failed) }
        ensures told { self.new.told ≡ true → result ≡ planned_halt self.old }
        ensures noted { StaysTold self.old self.new }
        ensures call { LeavesGates self.old self.new (GateCall.Halt job.now result) }
    {
        match self.note_halt(job) {
            Ok(answer) => {
                self.count(answer.is_failed());
                answer
            }
            Err(Unnoted::NoRoom) => {
                self.count_unnoted(true, false);
                Halted::Failed
            }
            Err(Unnoted::Memory) => {
                self.count_unnoted(true, true);
                Halted::Failed
            }
        }
    }
}

/// Whether the URL is one of these.
fn is_among(urls: &[Text], url: &str) -> bool
    ensures { result ≡ is_among url.now urls.now }
{
    urls.iter().any(|other| other.as_str() == url)
}
