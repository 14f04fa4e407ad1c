//! Gates to a folder of manifests.

ghost use Rattle.std.specs.Prelude.{◌≡◌, ◌≢◌, ◌⊎◌, ◌<◌, ◌≤◌, ◌^◌, IfSome, None};
ghost use Rattle.cm_io.specs.CountsInside.{count_after};
ghost use Rattle.cm_io.specs.Outside.{Rose};
ghost use Rattle.cm_gate.specs.Asks.{AsksHalt, AsksLaunch, DialsOnce, FailsHalt, FailsLaunch};
ghost use Rattle.cm_gate.specs.Failures.{is_failed_fetch, is_failed_halt, is_failed_launch};
ghost use Rattle.cm_gate.specs.Places.{HasAtMost, place_of_fetch};
ghost use Rattle.cm_gate.specs.Reads.{FindsFile};

use crate::count::FaultCount;
use crate::opening::find_at;
use crate::place::place_of;
use crate::{Fetch, Fetched, Folder, Gates, Halted, Job, Launched, Network, Runner};
use cm_turn::Pass;
use cm_world::{Entry, Frame};
use std::alloc::Global;
use std::marker::Model;
use std::rt::Files;
use std::sync::Wait;
use std::thread::Threads;

/// Gates to folders of manifests.
///
/// The manifest of a URL is the file `repo/host/path/fragment`, where `repo` is the folder that the
/// fetch names, and host, path and fragment are those of the URL. Programs are started and stopped
/// by a [`Runner`], which is asked over a connection of its own for each; where there is none, each
/// launch answers `Running` and each halt `Stopped`. They tell no log.
///
/// That manifests lie in a folder in this way is this project's own choice. Contracts see through
/// what the gates read and connect, where the runner listens that they ask, and how often they failed.
#[derive(Drop)]
pub struct FolderGates<F> {
    files: F,
    runner: Option<Runner>,
    faults: FaultCount,
}

impl<F> Model for FolderGates<F> {
    ghost use Rattle.cm_gate.specs.Runner.{FolderView};

    ghost Value = { FolderView F };

    ghost view = { λ g. record { files = g.files; runner = g.runner; faults = g.faults } };
}

impl<F: Files + Drop> FolderGates<F> {
    /// Gates that read through `files`, and have not failed yet.
    pub fn new(files: F, runner: Option<Runner>) -> FolderGates<F>
        ensures { result ≡ record { files = files; runner = runner; faults = 0 } }
    {
        FolderGates {
            files,
            runner,
            faults: FaultCount::new(),
        }
    }

    /// How often they failed, up to 2^64 - 1.
    pub fn faults(&self) -> u64
        ensures { result ≡ self.now.faults }
    {
        self.faults.get()
    }
}

/// What a fetch finds, as [`FolderGates`] says.
fn find_file<F: Folder>(files: &F, alloc: Global, what: &Fetch) -> Fetched
    ensures finds { FindsFile F.opened F.refused F.File.remaining F.broken files.now what.now result }
    ensures no_repo { what.now.repo ≡ None → result ≡ Fetched.Absent }
    ensures nowhere { place_of_fetch what.now ≡ None →
        (result ≡ Fetched.Absent) ⊎ (result ≡ Fetched.Memory) }
    ensures length { HasAtMost 1048577 result }
{
    let Some(repo) = &what.repo else {
        return Fetched::Absent;
    };
    match place_of(alloc, repo.as_str(), what.url.as_str()) {
        Ok(Some(place)) => find_at(files, alloc, place.as_str()),
        Ok(None) => Fetched::Absent,
        Err(_) => Fetched::Memory,
    }
}

/// What a launch comes to: the runner's answer, or that the program runs where there is no runner.
fn launch_by<N: Network>(runner: &Option<Runner>, net: &mut N, job: &Job) -> Launched
    ensures recorded { runner.now ≡ None → result ≡ Launched.Running }
    ensures asks { IfSome runner.now (λ place. result ≢ Launched.Failed → AsksLaunch
        N.connected N.Connection.wrote N.Connection.gave net.new place job.now result) }
    ensures failed { IfSome runner.now (λ place. result ≡ Launched.Failed → FailsLaunch N.connected
        N.unconnected N.Connection.wrote N.Connection.unsent N.Connection.gave N.Connection.unheard
        net.old place job.now net.new) }
    ensures once { IfSome runner.now (λ place. DialsOnce N.dialed net.old place net.new) }
    ensures never { runner.now ≡ None → net.new ≡ net.old }
{
    match runner {
        Some(runner) => runner.launch(net, job),
        None => Launched::Running,
    }
}

/// What a halt comes to: the runner's answer, or that the program has stopped where there is no runner.
fn halt_by<N: Network>(runner: &Option<Runner>, net: &mut N, job: &Job) -> Halted
    ensures recorded { runner.now ≡ None → result ≡ Halted.Stopped }
    ensures asks { IfSome runner.now (λ place. result ≢ Halted.Failed → AsksHalt
        N.connected N.Connection.wrote N.Connection.gave net.new place job.now result) }
    ensures failed { IfSome runner.now (λ place. result ≡ Halted.Failed → FailsHalt N.connected
        N.unconnected N.Connection.wrote N.Connection.unsent N.Connection.gave N.Connection.unheard
        net.old place job.now net.new) }
    ensures once { IfSome runner.now (λ place. DialsOnce N.dialed net.old place net.new) }
    ensures never { runner.now ≡ None → net.new ≡ net.old }
{
    match runner {
        Some(runner) => runner.halt(net, job),
        None => Halted::Stopped,
    }
}

impl<F: Folder + Network + Drop> Gates for FolderGates<F> {
    ghost use Rattle.std.specs.Prelude.{None};

    ghost log = { λ _. None };

    ghost faults = { λ g. g.faults };

    ghost quiet = { λ _. ⊥ };

    /// Reads the manifest of a component, or its first 1,048,577 bytes. It is found only where the
    /// file at its place was opened and read, and what is found is what was read.
    ///
    /// `Absent` comes where the fetch names no `repo`, where the URL isn't one by the URL Standard,
    /// where it has no host or no fragment, where a part of it between slashes is empty, `.` or
    /// `..`, and where the opening tells that there is no such file. `Failed` comes where what is
    /// there can't be read, as a folder in the place of the file can't be, and where the system
    /// refuses to look for it. `Memory` comes where memory ran out, here or in the system.
    fn fetch<R: Threads + Wait + Sync>(
        &mut self,
        _rt: &R,
        alloc: Global,
        _idle: &Pass<Entry, Frame>,
        what: &Fetch,
    ) -> Fetched
        ensures finds { let files = self.old.files in
            FindsFile F.opened F.refused F.File.remaining F.broken files what.now result }
        ensures call { self.new
            ≡ record self.old { faults = count_after (is_failed_fetch result) self.old.faults } }
        ensures later { self.old.faults ≤ self.new.faults }
        ensures fault { result ≡ Fetched.Failed → Rose self.old.faults self.new.faults }
        ensures bound { self.new.faults < 2 ^ 64 }
        ensures no_repo { what.now.repo ≡ None → result ≡ Fetched.Absent }
        ensures nowhere { place_of_fetch what.now ≡ None →
            (result ≡ Fetched.Absent) ⊎ (result ≡ Fetched.Memory) }
        ensures length { HasAtMost 1048577 result }
    {
        let answer = find_file(&self.files, alloc, what);
        self.faults.count(answer.is_failed());
        answer
    }

    /// Asks the runner, if there is one; else the program is taken to run. An answer but `Failed` is
    /// what the runner answered to this very question, over a connection that was made to its place,
    /// and it was told that this is taken. It is asked once. `Failed` comes only where nobody was asked,
    /// where no whole answer came, or none that is known, or where it couldn't be told that it is taken.
    fn launch<R: Threads + Wait + Sync>(
        &mut self,
        _rt: &R,
        _idle: &Pass<Entry, Frame>,
        job: &Job,
    ) -> Launched
        ensures call { self.new ≡ record self.old {
          files = self.new.files;
          faults = count_after (is_failed_launch result) self.old.faults;
        } }
        ensures later { self.old.faults ≤ self.new.faults }
        ensures fault { result ≡ Launched.Failed → Rose self.old.faults self.new.faults }
        ensures bound { self.new.faults < 2 ^ 64 }
        ensures recorded { self.old.runner ≡ None → result ≡ Launched.Running }
        ensures asks { IfSome self.old.runner (λ place. result ≢ Launched.Failed → AsksLaunch
            F.connected F.Connection.wrote F.Connection.gave self.new.files place job.now result) }
        ensures failed { IfSome self.old.runner (λ place. result ≡ Launched.Failed → FailsLaunch
            F.connected F.unconnected F.Connection.wrote F.Connection.unsent
            F.Connection.gave F.Connection.unheard self.old.files place job.now self.new.files) }
        ensures once { IfSome self.old.runner (λ place.
            DialsOnce F.dialed self.old.files place self.new.files) }
        ensures never { self.old.runner ≡ None → self.new.files ≡ self.old.files }
    {
        let answer = launch_by(&self.runner, &mut self.files, job);
        self.faults.count(answer.is_failed());
        answer
    }

    /// Asks the runner, if there is one, as a launch does; else the program is taken to have stopped.
    fn halt<R: Threads + Wait + Sync>(
        &mut self,
        _rt: &R,
        _idle: &Pass<Entry, Frame>,
        job: &Job,
    ) -> Halted
        ensures call { self.new ≡ record self.old {
          files = self.new.files;
          faults = count_after (is_failed_halt result) self.old.faults;
        } }
        ensures later { self.old.faults ≤ self.new.faults }
        ensures fault { result ≡ Halted.Failed → Rose self.old.faults self.new.faults }
        ensures bound { self.new.faults < 2 ^ 64 }
        ensures recorded { self.old.runner ≡ None → result ≡ Halted.Stopped }
        ensures asks { IfSome self.old.runner (λ place. result ≢ Halted.Failed → AsksHalt
            F.connected F.Connection.wrote F.Connection.gave self.new.files place job.now result) }
        ensures failed { IfSome self.old.runner (λ place. result ≡ Halted.Failed → FailsHalt
            F.connected F.unconnected F.Connection.wrote F.Connection.unsent
            F.Connection.gave F.Connection.unheard self.old.files place job.now self.new.files) }
        ensures once { IfSome self.old.runner (λ place.
            DialsOnce F.dialed self.old.files place self.new.files) }
        ensures never { self.old.runner ≡ None → self.new.files ≡ self.old.files }
    {
        let answer = halt_by(&self.runner, &mut self.files, job);
        self.faults.count(answer.is_failed());
        answer
    }
}
