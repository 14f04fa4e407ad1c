//! Gates that never fail.

ghost use Rattle.std.specs.Prelude.{◌≡◌};

use crate::{Fetch, Fetched, Gates, Halted, Job, Launched};
use cm_turn::Pass;
use cm_world::{Entry, Frame};
use std::alloc::Global;
use std::sync::Wait;
use std::thread::Threads;

/// Gates that never fail: they know no manifest, and every program runs and stops as it is asked
/// to. They tell no log.
///
/// They serve where all manifests are in the caller's own hands. That a runner which starts
/// nothing stands in for a real one is this project's own choice.
#[derive(Debug, Clone, Copy)]
pub struct QuietGates;

impl Gates for QuietGates {
    ghost use Rattle.std.specs.Prelude.{None};

    ghost log = { λ _. None };

    ghost faults = { λ _. 0 };

    ghost quiet = { λ _. Unit {0} };

    /// There is no manifest for any URL.
    fn fetch<R: Threads + Wait + Sync>(
        &mut self,
        _rt: &R,
        _alloc: Global,
        _idle: &Pass<Entry, Frame>,
        _what: &Fetch,
    ) -> Fetched
        ensures answer { result ≡ Fetched.Absent }
    {
        Fetched::Absent
    }

    /// Every program is said to run.
    fn launch<R: Threads + Wait + Sync>(
        &mut self,
        _rt: &R,
        _idle: &Pass<Entry, Frame>,
        _job: &Job,
    ) -> Launched
        ensures answer { result ≡ Launched.Running }
    {
        Launched::Running
    }

    /// Every program is said to have stopped.
    fn halt<R: Threads + Wait + Sync>(
        &mut self,
        _rt: &R,
        _idle: &Pass<Entry, Frame>,
        _job: &Job,
    ) -> Halted
        ensures answer { result ≡ Halted.Stopped }
    {
        Halted::Stopped
    }
}
