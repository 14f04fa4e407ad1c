//! The run of a script in its lanes.

ghost use Rattle.std.specs.Prelude.{◌≡◌, All, [], length, IfOk, IfSome};
ghost use Rattle.cm_world.specs.declared.frame.Frame.{Frame as TheFrame};
ghost use Rattle.cm_cache.specs.Keeping.{IsKeptNumber};
ghost use Rattle.cm_turn.specs.Passes.{new_passes};
ghost use Rattle.cm_manager.specs.Work.{Manifests};
ghost use Rattle.cm_lanes.specs.ScriptInside.{IsFit};
ghost use Rattle.cm_program.specs.Performing.{RunsPhases};
ghost use Rattle.cm_program.specs.Reported.{IsReport, IsReportOn};

use cm_book::Book;
use cm_call::Wanted;
use cm_command::Line;
use cm_env::env_report;
use cm_gate::Gates;
use cm_lanes::{Lanes, Said, run_lanes};
use cm_manager::Manager;
use cm_names::{List, Memory, Text};
use cm_repo::Repository;
use cm_steps::Realm;
use cm_storage::storage_report;
use cm_turn::Pass;
use cm_world::{Entry, Frame, View};
use std::alloc::Global;
use std::sync::Wait;
use std::thread::Threads;

/// What the lanes made of a script.
#[derive(Drop)]
pub struct LanesResult<G> {
    /// The history of the realm, with the entries of all lanes.
    pub book: Book,
    /// How many routes and openings of the history asked for a use whose answer was still there.
    pub kept: u64,
    /// The report that is wanted of the tree at the end; `None` where memory ran out.
    pub report: Option<Text>,
    /// The gates, in the order of their lanes.
    pub gates: List<G>,
    /// What was answered to each line, in the order of the script; `None` where memory ran out.
    pub said: Option<List<Said>>,
}

/// The report that is wanted of a tree, or no text where none is. `Err` where memory runs out.
fn made_report<V: View>(alloc: Global, wanted: Wanted, view: &V) -> Result<Text, Memory>
    ensures { IfOk result (IsReportOn wanted (V.rows view.now) (V.builtins view.now)) }
{
    match wanted {
        Wanted::Answers { journal: _ } => Ok(Text::new(alloc)),
        Wanted::Summary { instances: _ } => Ok(Text::new(alloc)),
        Wanted::Environments => env_report(alloc, view),
        Wanted::Storage => storage_report(alloc, view),
    }
}

/// The report that is wanted of a realm's tree; `None` where memory runs out.
fn report_of(alloc: Global, wanted: Wanted, realm: &Realm) -> Option<Text>
    ensures { IfSome result (IsReport wanted realm.now.frame realm.now.entries) }
{
    match made_report(alloc, wanted, realm.tree()) {
        Ok(report) => Some(report),
        Err(Memory) => None,
    }
}

/// What the lanes made of a script, by the realm that they leave.
fn performed_in<G>(
    alloc: Global,
    wanted: Wanted,
    realm: Realm,
    gates: List<G>,
    said: Option<List<Said>>,
) -> LanesResult<G>
    ensures history { result.book.entries ≡ realm.entries }
    ensures kept { IsKeptNumber realm.frame realm.entries result.kept }
    ensures reported { IfSome result.report (IsReport wanted realm.frame realm.entries) }
    ensures gates { result.gates ≡ gates }
    ensures said { result.said ≡ said }
{
    let kept = realm.kept();
    let report = report_of(alloc, wanted, &realm);
    LanesResult {
        book: realm.into_book(),
        kept,
        report,
        gates,
        said,
    }
}

/// Runs the lines of all phases under a manager, and closes it.
fn perform_under<R: Threads + Wait + Sync, G: Gates + Send + Drop>(
    rt: &R,
    alloc: Global,
    wanted: Wanted,
    manager: Manager,
    passes: List<Pass<Entry, Frame>>,
    phases: &[List<Line>],
    gates: List<G>,
) -> LanesResult<G>
    requires count { manager.turn.passes ≡ 16 }
    requires new { (f : TheFrame) × (passes ≡ new_passes manager.turn.lock f 16) }
    requires gates { length gates ≡ 16 }
    requires fit { All (λ lines. All IsFit lines) phases.now }
    ensures gates { length result.gates ≡ 16 }
    ensures performs { (f : TheFrame) → passes ≡ new_passes manager.turn.lock f 16
        → RunsPhases G.log G.faults manager.manifests f phases.now gates result }
    ensures reported { (f : TheFrame) → passes ≡ new_passes manager.turn.lock f 16
        → IfSome result.report (IsReport wanted f result.book.entries) }
{
    let Lanes {
        passes,
        gates,
        said,
    } = run_lanes(rt, alloc, &manager, passes, gates, phases);
    performed_in(alloc, wanted, manager.close_realm(passes), gates, said)
}

/// Runs the lines of all phases over this realm, which is new, with these manifests and gates, and
/// makes the report that is wanted of the tree at the end.
pub fn perform<R: Threads + Wait + Sync, G: Gates + Send + Drop>(
    rt: &R,
    alloc: Global,
    wanted: Wanted,
    realm: Realm,
    repository: Repository,
    repo: Option<Text>,
    phases: &[List<Line>],
    gates: List<G>,
) -> LanesResult<G>
    requires empty { realm.entries ≡ [] }
    requires gates { length gates ≡ 16 }
    requires fit { All (λ lines. All IsFit lines) phases.now }
    ensures gates { length result.gates ≡ 16 }
    ensures performs { let manifests : Manifests = record { repo = repo; blocks = repository } in
        RunsPhases G.log G.faults manifests realm.frame phases.now gates result }
    ensures reported { IfSome result.report (IsReport wanted realm.frame result.book.entries) }
{
    match Manager::new(alloc, realm, repository, repo, 16) {
        Ok((manager, passes)) => perform_under(rt, alloc, wanted, manager, passes, phases, gates),
        Err(realm) => performed_in(alloc, wanted, realm, gates, None),
    }
}
