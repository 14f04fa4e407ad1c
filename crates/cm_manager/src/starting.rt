//! Starts, each with its eager children.

ghost use Rattle.std.specs.Prelude.{◌≡◌, ◌≢◌, ◌++◌, ℕ, List as Seq, [], IfOk, OnErr};
ghost use Rattle.cm_world.specs.declared.frame.Frame.{Frame as TheFrame};
ghost use Rattle.cm_world.specs.declared.reply.Entry.{Entry as TheEntry};
ghost use Rattle.cm_manager.specs.Asking.{frame_of};
ghost use Rattle.cm_manager.specs.Acting.{BeginRun, StartsBy, LaunchesBy};
ghost use Rattle.cm_manager.specs.Caller.{CallerRuns};
ghost use Rattle.cm_manager.specs.Contract.{IsSamePass};
ghost use Rattle.cm_manager.specs.Runs.{RunsAction, StartsEager};

use crate::began::{Began, Launch};
use crate::caller::Caller;
use cm_answers::{ActionResult, ending_of_eager, if_failed};
use cm_gate::Gates;
use cm_names::List;
use cm_world::{ActKind, Outcome, Refusal};
use std::alloc::AllocError;
use std::collections::VecDeque;
use std::sync::Wait;
use std::thread::Threads;

/// What a start came to by its begin; `Err` with the instance that has to be resolved first.
fn launch_of(began: Result<Began, Refusal>) -> Result<Launch, u64>
    ensures { (f : TheFrame) (c i : ℕ) (a b : Seq TheEntry)
        → BeginRun f c ActKind.Start i began a b → LaunchesBy f c i result a b }
{
    match began {
        Ok(Began::Ended(action, outcome, eager)) => match outcome {
            Outcome::Started => Ok(Launch::Children(action, eager)),
            other => Ok(Launch::Settled(Ok(ActionResult::Ended(ActKind::Start, action, other)))),
        },
        Ok(Began::Joined(action, outcome)) => {
            let went = Ok(ActionResult::Ended(ActKind::Start, action, outcome));
            Ok(Launch::Settled(went))
        }
        Ok(Began::Quiet(reply)) => Ok(Launch::Settled(Ok(ActionResult::Quiet(reply)))),
        Ok(Began::Needs(row)) => Err(row),
        Err(refusal) => Ok(Launch::Settled(Err(refusal))),
    }
}

/// The queue of rows that are left to start, with these eager children put before the others, in their
/// order. `Err` where memory runs out; no memory is taken where there are none.
fn in_prefix(rows: List<u64>, others: VecDeque<u64>) -> Result<VecDeque<u64>, AllocError>
    ensures all { IfOk result (λ all. all.items ≡ rows ++ others.items) }
    ensures wanting { OnErr result (rows ≢ []) }
{
    let mut rows = rows.into_vec();
    let mut all = others;
    while let Some(row) = rows.pop() {
        all.push_front(row)?;
    }
    Ok(all)
}

impl<'a, R: Threads + Wait + Sync, G: Gates> Caller<'a, R, G> {
    /// Starts an instance without its eager children, and resolves it first where it has to be.
    fn start_one(&mut self, inc: u64) -> Launch
        ensures { CallerRuns (λ f c a b. StartsBy f c inc result a b) self.old self.new }
    {
        let rt = self.rt;
        for _ in rt.forever() {
            let row = match launch_of(self.begin(ActKind::Start, inc)) {
                Ok(launch) => return launch,
                Err(row) => row,
            };
            if let Some(failed) = if_failed(self.resolve_row(row)) {
                return Launch::Settled(failed);
            }
        }
        unreachable!()
    }

    /// Starts these instances in order, each with its own eager children before the next. `Some`
    /// tells what ended the call among them: lack of memory, or of room in the history. However deep
    /// eager children stand below one another, they are in one queue.
    fn start_all(&mut self, rows: VecDeque<u64>) -> Option<Refusal>
        requires known { let p = self.old.pass in IsSamePass (frame_of p) p p }
        ensures { CallerRuns (λ f c a b. StartsEager f c rows.items a b result) self.old self.new }
    {
        let rt = self.rt;
        let mut left = rows;
        for _ in rt.forever() {
            let Some(row) = left.pop_front() else {
                return None;
            };
            match self.start_one(row) {
                Launch::Settled(went) => {
                    if let Some(refusal) = ending_of_eager(went) {
                        return Some(refusal);
                    }
                }
                Launch::Children(_action, eager) => match in_prefix(eager, left) {
                    Ok(all) => left = all,
                    Err(_) => return Some(Refusal::Memory),
                },
            }
        }
        unreachable!()
    }

    /// Starts an instance, and its eager children behind it where this call itself started it.
    pub(crate) fn start_row(&mut self, inc: u64) -> Result<ActionResult, Refusal>
        ensures { CallerRuns (λ f c a b. RunsAction f c ActKind.Start inc a b result) self.old self.new }
    {
        match self.start_one(inc) {
            Launch::Settled(went) => went,
            Launch::Children(action, eager) => {
                let Ok(rows) = in_prefix(eager, VecDeque::new(self.alloc)) else {
                    return Err(Refusal::Memory);
                };
                match self.start_all(rows) {
                    None => Ok(ActionResult::Ended(ActKind::Start, action, Outcome::Started)),
                    Some(refusal) => Err(refusal),
                }
            }
        }
    }
}
