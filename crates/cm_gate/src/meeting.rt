//! Gates of two callers that have to meet.

ghost use Rattle.std.specs.Prelude.{◌≡◌, ◌⊎◌, ◌<◌, ◌≤◌, ◌^◌, IfOk, IsTrue};
ghost use Rattle.cm_io.specs.CountsInside.{count_after};
ghost use Rattle.cm_io.specs.Outside.{Rose};
ghost use Rattle.cm_gate.specs.Failures.{is_failed_fetch};
ghost use Rattle.cm_gate.specs.Manifests.{manifest_at};
ghost use Rattle.cm_gate.specs.Meeting.{FindsMet};
ghost use Rattle.std.specs.Arc.{arc_value};

use crate::count::FaultCount;
use crate::manifests::find_manifest;
use crate::{Fetch, Fetched, Gates, Halted, Job, Launched, Manifest};
use cm_names::{List, Memory};
use cm_turn::Pass;
use cm_world::{Entry, Frame};
use std::alloc::Global;
use std::marker::Model;
use std::sync::atomic::{AtomicBool, Ordering};
use std::sync::{Arc, Wait};
use std::thread;
use std::thread::Threads;

/// How many looks a fetch takes at the other's word at most.
const LOOKS: u32 = 100_000_000;

/// After so many looks a fetch lets other threads run.
const LOOKS_IN_A_ROW: u32 = 1_000;

/// A word that one caller raises and another looks at. It says nothing of when it is up.
pub trait Flag {
    /// It was raised.
    ghost raised: { Self → Type 0 };

    /// It was looked at, and was up.
    ghost seen: { Self → Type 0 };

    /// Raises it.
    fn raise(&self)
        ensures { raised self.now };

    /// Whether it is up. Nobody looks who hasn't raised its own before.
    fn is_up(&self, own: &Self) -> bool
        requires { raised own.now }
        ensures { IsTrue result → seen self.now };
}

impl Flag for AtomicBool {
    ghost use Rattle.std.specs.Prelude.{⊤};

    ghost raised = { λ _. ⊤ };

    ghost seen = { λ _. ⊤ };

    /// Stores `true` where all threads see it.
    fn raise(&self) {
        self.store(true, Ordering::SeqCst);
    }

    /// Whether some thread has stored `true`.
    fn is_up(&self, _own: &AtomicBool) -> bool {
        self.load(Ordering::SeqCst)
    }
}

/// The gates of one of two callers that have to meet, for tests.
///
/// The two share two words. A fetch of either raises its own word, and then looks at the other's
/// until that is raised, at most 100,000,000 times; it fails where it isn't raised by then. So
/// callers of which one waits for the other's fetch to end, as at a lock that is held meanwhile,
/// can't both fetch. Programs are taken to run and to stop as they are asked to. They tell no log.
///
/// Contracts see the two words, the manifests, and how often these gates failed.
#[derive(Drop)]
pub struct MeetingGates<W = AtomicBool> {
    manifests: List<Manifest>,
    own: Arc<W, Global>,
    other: Arc<W, Global>,
    faults: FaultCount,
}

impl<W> Model for MeetingGates<W> {
    ghost use Rattle.std.specs.Arc.{arc_value};
    ghost use Rattle.cm_gate.specs.Meeting.{MeetingView};

    ghost Value = { MeetingView W };

    ghost view = { λ g. record {
      own = arc_value g.own;
      other = arc_value g.other;
      manifests = g.manifests;
      faults = g.faults;
    } };
}

impl<W: Drop> MeetingGates<W> {
    /// The gates of two callers over these two words: each raises its own, and looks at the other's.
    fn crossed(
        first: Arc<W, Global>,
        second: Arc<W, Global>,
        manifests: List<Manifest>,
    ) -> Result<(MeetingGates<W>, MeetingGates<W>), Memory>
        ensures one { IfOk result (λ pair. (pair.0.manifests ≡ manifests) × (pair.0.faults ≡ 0)
            × (pair.0.own ≡ arc_value first) × (pair.0.other ≡ arc_value second)) }
        ensures two { IfOk result (λ pair. (pair.1.manifests ≡ manifests) × (pair.1.faults ≡ 0)
            × (pair.1.own ≡ arc_value second) × (pair.1.other ≡ arc_value first)) }
    {
        let other = MeetingGates {
            manifests: manifests.clone()?,
            own: Arc::try_clone(&second)?,
            other: Arc::try_clone(&first)?,
            faults: FaultCount::new(),
        };
        let one = MeetingGates {
            manifests,
            own: first,
            other: second,
            faults: FaultCount::new(),
        };
        Ok((one, other))
    }
}

impl MeetingGates<AtomicBool> {
    /// The gates of two callers, neither of which has fetched yet. Each knows the manifests.
    /// `Memory` where memory ran out.
    pub fn pair(
        alloc: Global,
        manifests: List<Manifest>,
    ) -> Result<(MeetingGates, MeetingGates), Memory>
        ensures first { IfOk result (λ pair. (pair.0.manifests ≡ manifests) × (pair.0.faults ≡ 0)) }
        ensures second { IfOk result (λ pair. (pair.1.manifests ≡ manifests) × (pair.1.faults ≡ 0)) }
    {
        let first = Arc::new(alloc, AtomicBool::new(false))?;
        let second = Arc::new(alloc, AtomicBool::new(false))?;
        MeetingGates::crossed(first, second, manifests)
    }
}

impl<W: Flag + Drop> MeetingGates<W> {
    /// How often they failed, up to 2^64 - 1.
    pub fn faults(&self) -> u64
        ensures { result ≡ self.now.faults }
    {
        self.faults.get()
    }

    /// Raises the own word, and waits for the other. Tells whether that was raised.
    fn meets(&self) -> bool
        ensures { IsTrue result → W.raised self.now.own × W.seen self.now.other }
    {
        self.own.raise();
        for look in 0..LOOKS {
            if self.other.is_up(self.own.as_ref()) {
                return true;
            }
            if look % LOOKS_IN_A_ROW == 0 {
                thread::yield_now();
            }
        }
        false
    }

    /// What a fetch finds, once the two have met.
    fn find(&self, what: &Fetch) -> Fetched
        ensures answer { (result ≡ manifest_at what.now.url self.now.manifests)
            ⊎ (result ≡ Fetched.Failed) ⊎ (result ≡ Fetched.Memory) }
        ensures met { FindsMet (W.raised self.now.own × W.seen self.now.other) result }
    {
        if !self.meets() {
            return Fetched::Failed;
        }
        match find_manifest(self.manifests.as_slice(), what.url.as_str()) {
            Ok(answer) => answer,
            Err(_) => Fetched::Memory,
        }
    }
}

impl<W: Flag + Drop> Gates for MeetingGates<W> {
    ghost use Rattle.std.specs.Prelude.{None};

    ghost log = { λ _. None };

    ghost faults = { λ g. g.faults };

    ghost quiet = { λ _. ⊥ };

    /// Meets the other gates of the pair, and then gives the manifest under the URL. It fails, which is
    /// counted, where the other never comes.
    fn fetch<R: Threads + Wait + Sync>(
        &mut self,
        _rt: &R,
        _alloc: Global,
        _idle: &Pass<Entry, Frame>,
        what: &Fetch,
    ) -> Fetched
        ensures later { self.old.faults ≤ self.new.faults }
        ensures fault { result ≡ Fetched.Failed → Rose self.old.faults self.new.faults }
        ensures bound { self.new.faults < 2 ^ 64 }
        ensures call { self.new ≡ record self.old {
          faults = count_after (is_failed_fetch result) self.old.faults;
        } }
        ensures answer { (result ≡ manifest_at what.now.url self.old.manifests)
            ⊎ (result ≡ Fetched.Failed) ⊎ (result ≡ Fetched.Memory) }
        ensures met { FindsMet (W.raised self.old.own × W.seen self.old.other) result }
    {
        let answer = self.find(what);
        self.faults.count(answer.is_failed());
        answer
    }

    /// Every program is said to run.
    fn launch<R: Threads + Wait + Sync>(
        &mut self,
        _rt: &R,
        _idle: &Pass<Entry, Frame>,
        _job: &Job,
    ) -> Launched
        ensures bound { self.new.faults < 2 ^ 64 }
        ensures call { self.new ≡ self.old }
        ensures answer { result ≡ Launched.Running }
    {
        self.faults.count(false);
        Launched::Running
    }

    /// Every program is said to have stopped.
    fn halt<R: Threads + Wait + Sync>(
        &mut self,
        _rt: &R,
        _idle: &Pass<Entry, Frame>,
        _job: &Job,
    ) -> Halted
        ensures bound { self.new.faults < 2 ^ 64 }
        ensures call { self.new ≡ self.old }
        ensures answer { result ≡ Halted.Stopped }
    {
        self.faults.count(false);
        Halted::Stopped
    }
}
