//! The work of an action: what its beginner does between its begin and its end.
//!
//! A resolve finds the manifest of the component, as `fuchsia.component.resolution.Resolver` does;
//! a start and a stop ask the runner, as `fuchsia.component.runner.ComponentRunner` is asked
//! (fuchsia.dev). An instance without a program starts and stops without a question. That a start
//! or a stop takes no memory is this project's own choice.
//!
//! What stands in each caller's way is inlined, so that a work and its ending move once.

ghost use Rattle.std.specs.Prelude.{◌≡◌, Ok, Err, None, IfOk};
ghost use Rattle.std.specs.Option.{option_copied};
ghost use Rattle.cm_decl.specs.Valid.{IsValid};
ghost use Rattle.cm_repo.specs.Blocks.{block_at};
ghost use Rattle.cm_repo.specs.Urls.{absolute_of};
ghost use Rattle.cm_world.specs.declared.action.Work.{Work as TheWork};
ghost use Rattle.cm_steps.specs.Ends.{finish_of};
ghost use Rattle.cm_manager.specs.Work.{Manifests};
ghost use Rattle.cm_manager.specs.Doing.{JudgesBy, EndsBy, FitsAction, HasJob};
ghost use Rattle.cm_manager.specs.Doing.{unread_outcome, invalid_outcome, launched_outcome, halted_outcome};
ghost use Rattle.cm_manager.specs.Gated.{DidWith};

use crate::Manager;
use crate::judged::{Judged, judge_unless_last};
use cm_decl::Decl;
use cm_gate::{Fetch, Fetched, Gates, Halted, Job, Launched};
use cm_names::{List, Memory, Text};
use cm_read::{ReadFault, read_decl};
use cm_repo::{ResolvedUrl, UrlFault};
use cm_steps::Ending;
use cm_table::Prepared;
use cm_turn::Pass;
use cm_valid::{ValidFault, validate};
use cm_world::{ActKind, Entry, FaultNote, Frame, Outcome, Work};
use std::alloc::Global;
use std::sync::Wait;
use std::thread::Threads;

/// How a resolve ends where its manifest isn't read.
fn unread(fault: ReadFault) -> Outcome
    ensures { result ≡ unread_outcome fault }
{
    match fault {
        ReadFault::Bad {
            number,
            section,
            index,
            field: _,
        } => Outcome::Invalid(FaultNote {
            number,
            section,
            index,
        }),
        ReadFault::Memory => Outcome::NoMemory,
    }
}

/// How a resolve ends where its declaration isn't valid.
fn invalid(fault: ValidFault) -> Outcome
    ensures { result ≡ invalid_outcome fault }
{
    match fault {
        ValidFault::Bad {
            number,
            section,
            index,
            against: _,
            cycle: _,
        } => Outcome::Invalid(FaultNote {
            number,
            section,
            index,
        }),
        ValidFault::Memory => Outcome::NoMemory,
    }
}

/// The valid declaration of a manifest, or how a resolve ends without one.
pub(crate) fn judge(alloc: Global, bytes: &[u8]) -> Result<Decl, Outcome>
    ensures judged { JudgesBy bytes.now result }
    ensures valid { IfOk result IsValid }
{
    match read_decl(alloc, bytes) {
        Ok(decl) => match validate(alloc, decl) {
            Ok(valid) => Ok(valid.into_decl()),
            Err(fault) => Err(invalid(fault)),
        },
        Err(fault) => Err(unread(fault)),
    }
}

/// The end of a resolve by the bytes of its manifest, which may be the one that was judged last.
#[inline(always)]
fn ending_by<'a>(alloc: Global, last: &mut Option<Judged<'a>>, url: Text, bytes: &'a [u8]) -> Ending
    ensures ends { EndsBy url bytes.now (finish_of result) }
    ensures fits { FitsAction ActKind.Resolve (finish_of result) }
{
    match judge_unless_last(alloc, last, bytes) {
        Ok(decl) => match Prepared::of(alloc, decl, url) {
            Ok(prepared) => Ending::Resolved(prepared),
            Err(_) => Ending::Other(Outcome::NoMemory),
        },
        Err(outcome) => Ending::Other(outcome),
    }
}

/// How a start ends by the answer of its runner.
fn launched(answer: Launched) -> Outcome
    ensures { result ≡ launched_outcome answer }
{
    match answer {
        Launched::Running => Outcome::Started,
        Launched::Declined => Outcome::Declined,
        Launched::Failed => Outcome::GateFailed,
    }
}

/// How a stop ends by the answer of its runner: by force where that failed.
fn halted(answer: Halted) -> Outcome
    ensures { result ≡ halted_outcome answer }
{
    match answer {
        Halted::Stopped => Outcome::Stopped,
        Halted::Failed => Outcome::Killed,
    }
}

/// What the gates are asked for a start or a stop, unless the instance has no program, and its eager
/// children.
#[inline(always)]
fn job_for(work: Work) -> (Option<Job>, List<u64>)
    ensures job { HasJob work result.0 }
    ensures eager { result.1 ≡ work.eager }
{
    let Work {
        action,
        inc,
        moniker,
        base,
        url,
        runner,
        eager,
    } = work;
    drop(base);
    match runner {
        Some(runner) => {
            let job = Job {
                action,
                inc,
                moniker,
                url,
                runner,
            };
            (Some(job), eager)
        }
        None => {
            drop(moniker);
            drop(url);
            (None, eager)
        }
    }
}

/// The work of a start. It gives the instance's eager children back.
#[inline(always)]
fn launch<R: Threads + Wait + Sync, G: Gates>(
    rt: &R,
    gates: &mut G,
    idle: &Pass<Entry, Frame>,
    work: Work,
) -> (Ending, List<u64>)
    ensures did { (manifests : Manifests) → DidWith G.log G.faults manifests work ActKind.Start
        (finish_of result.0) gates.old gates.new }
    ensures fits { FitsAction ActKind.Start (finish_of result.0) }
    ensures eager { result.1 ≡ work.eager }
{
    let (job, eager) = job_for(work);
    match job {
        Some(job) => {
            let answer = gates.launch(rt, idle, &job);
            drop(job);
            (Ending::Other(launched(answer)), eager)
        }
        None => (Ending::Other(Outcome::Started), eager),
    }
}

/// Does the work of a stop: has the gates halt the instance's program, and answers how that ended. An
/// instance without a program has stopped at once.
#[inline(always)]
fn halt<R: Threads + Wait + Sync, G: Gates>(
    rt: &R,
    gates: &mut G,
    idle: &Pass<Entry, Frame>,
    work: Work,
) -> Ending
    ensures did { (manifests : Manifests) → DidWith G.log G.faults manifests work ActKind.Stop
        (finish_of result) gates.old gates.new }
    ensures fits { FitsAction ActKind.Stop (finish_of result) }
{
    let (job, eager) = job_for(work);
    drop(eager);
    match job {
        Some(job) => {
            let answer = gates.halt(rt, idle, &job);
            drop(job);
            Ending::Other(halted(answer))
        }
        None => Ending::Other(Outcome::Stopped),
    }
}

impl Manager {
    /// The work of a resolve, of which the base and the URL of the component are used.
    #[inline(always)]
    fn do_resolve<'a, R: Threads + Wait + Sync, G: Gates>(
        &'a self,
        rt: &R,
        alloc: Global,
        gates: &mut G,
        last: &mut Option<Judged<'a>>,
        idle: &Pass<Entry, Frame>,
        work: &Work,
    ) -> Ending
        ensures did { DidWith G.log G.faults self.now.manifests work.now ActKind.Resolve (finish_of result)
            gates.old gates.new }
        ensures fits { FitsAction ActKind.Resolve (finish_of result) }
    {
        match self
            .repository
            .resolve(work.base.as_str(), work.url.as_str())
        {
            Ok(resolved) => self.find_manifest(rt, alloc, gates, last, idle, resolved),
            Err(fault) => match fault {
                UrlFault::Memory => Ending::Other(Outcome::NoMemory),
                _ => Ending::Other(Outcome::BadUrl),
            },
        }
    }

    /// The end of a resolve by the manifest of a URL, which the gates fetch where no block has it.
    #[inline(always)]
    fn find_manifest<'a, R: Threads + Wait + Sync, G: Gates>(
        &'a self,
        rt: &R,
        alloc: Global,
        gates: &mut G,
        last: &mut Option<Judged<'a>>,
        idle: &Pass<Entry, Frame>,
        resolved: ResolvedUrl<'a>,
    ) -> Ending
        requires { option_copied resolved.bytes ≡ block_at self.now.manifests.blocks resolved.url }
        ensures did { (w : TheWork) → absolute_of w.base w.url ≡ Ok resolved.entry.url
            → DidWith G.log G.faults self.now.manifests w ActKind.Resolve (finish_of result)
            gates.old gates.new }
        ensures fits { FitsAction ActKind.Resolve (finish_of result) }
    {
        let ResolvedUrl { url, bytes } = resolved;
        match bytes {
            Some(bytes) => ending_by(alloc, last, url, bytes.as_slice()),
            None => self.fetch_manifest(rt, alloc, gates, idle, url),
        }
    }

    /// What the gates are asked for the manifest of this URL. `Err` where memory runs out.
    fn question(&self, url: &Text) -> Result<Fetch, Memory>
        ensures { let repo = self.now.manifests.repo in
            IfOk result (λ what. what ≡ record { repo = repo; url = url.now }) }
    {
        let repo = self.repo.clone()?;
        let url = url.clone()?;
        Ok(Fetch { repo, url })
    }

    /// Resolves a URL that isn't kept, by what the gates fetch for it.
    fn fetch_manifest<R: Threads + Wait + Sync, G: Gates>(
        &self,
        rt: &R,
        alloc: Global,
        gates: &mut G,
        idle: &Pass<Entry, Frame>,
        url: Text,
    ) -> Ending
        requires { block_at self.now.manifests.blocks url ≡ None }
        ensures did { (w : TheWork) → absolute_of w.base w.url ≡ Ok url
            → DidWith G.log G.faults self.now.manifests w ActKind.Resolve (finish_of result)
            gates.old gates.new }
        ensures fits { FitsAction ActKind.Resolve (finish_of result) }
    {
        let Ok(what) = self.question(&url) else {
            return Ending::Other(Outcome::NoMemory);
        };
        let answer = gates.fetch(rt, alloc, idle, &what);
        drop(what);
        match answer {
            Fetched::Found(bytes) => ending_by(alloc, &mut None, url, bytes.as_slice()),
            Fetched::Absent => Ending::Other(Outcome::Absent),
            Fetched::Failed => Ending::Other(Outcome::GateFailed),
            Fetched::Memory => Ending::Other(Outcome::NoMemory),
        }
    }

    /// Does the work of an action, with the pass of its caller idle. For a start it gives the
    /// instance's eager children back.
    #[inline(always)]
    pub(crate) fn do_work<'a, R: Threads + Wait + Sync, G: Gates>(
        &'a self,
        rt: &R,
        alloc: Global,
        gates: &mut G,
        last: &mut Option<Judged<'a>>,
        idle: &Pass<Entry, Frame>,
        kind: ActKind,
        work: Work,
    ) -> (Ending, List<u64>)
        ensures did { DidWith G.log G.faults self.now.manifests work kind (finish_of result.0)
            gates.old gates.new }
        ensures fits { FitsAction kind (finish_of result.0) }
        ensures eager { kind ≡ ActKind.Start → result.1 ≡ work.eager }
    {
        self.permit.give_back(idle.caller());
        match kind {
            ActKind::Resolve => {
                let ending = self.do_resolve(rt, alloc, gates, last, idle, &work);
                drop(work);
                (ending, List::new(alloc))
            }
            ActKind::Start => launch(rt, gates, idle, work),
            ActKind::Stop => (halt(rt, gates, idle, work), List::new(alloc)),
        }
    }
}
