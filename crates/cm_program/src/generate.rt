//! The command `generate`: a workload is made and run.

ghost use Rattle.std.specs.Prelude.{◌≡◌, ◌≢◌, All, IfOk, None, Ok, length};
ghost use Rattle.cm_io.specs.Outside.{Rose};
ghost use Rattle.cm_lanes.specs.ScriptInside.{IsFit};
ghost use Rattle.cm_call.specs.CallsInside.{IsWorkload};
ghost use Rattle.cm_call.specs.Generated.{script_of};
ghost use Rattle.cm_program.specs.Headline.{IsHistory, RunsNothing, RunsScript};
ghost use Rattle.cm_program.specs.Run.{IsScriptRun, RunsOwn};
ghost use Rattle.cm_program.specs.Stock.{served_script};
ghost use Rattle.cm_program.specs.Written.{SaysOnErr};
ghost use Rattle.cm_program.specs.declared.stock.LoadedScript.{LoadedScript as TheServed};

use crate::ran::{Finished, ended, out_of_memory};
use crate::running::run_served;
use crate::stock::{LoadedScript, serve_script};
use cm_call::{Wanted, Workload, generated};
use cm_gate::Gates;
use cm_io::Sink;
use cm_names::{List, Memory};
use std::alloc::Global;
use std::sync::Wait;
use std::thread::Threads;

/// What the script of a workload asks for. Its manifests are never refused, so that a refusal is
/// lack of memory.
fn serve_generated(alloc: Global, workload: Workload) -> Result<LoadedScript, Memory>
    requires { IsWorkload workload }
    ensures good { IfOk result (λ served.
        served_script (script_of workload.seed workload.size) ≡ Ok served) }
    ensures fit { IfOk result (λ served. All (λ lines. All IsFit lines) served.phases) }
{
    let script = generated(alloc, workload)?;
    match serve_script(alloc, script) {
        Ok(served) => Ok(served),
        Err(_) => Err(Memory),
    }
}

/// Runs the script of a workload, and writes the line that counts its answers and those that were
/// kept.
#[tactic(auto, using(crate::proofs::lemmas::whole::Saying::says, crate::proofs::lemmas::whole::Run::idle))]
pub fn run_generated<R: Threads + Wait + Sync, K: Sink, E: Sink, G: Gates + Send + Drop>(
    rt: &R,
    alloc: Global,
    workload: Workload,
    out: &mut K,
    err: &mut E,
    gates: List<G>,
) -> Finished<G>
    requires gates { length gates ≡ 16 }
    requires workload { IsWorkload workload }
    ensures gates { length result.gates ≡ 16 }
    ensures runs { RunsOwn (λ served. RunsScript G.log G.faults (Wanted.Summary workload.size) None
        served gates result.gates result.book.entries result.status (K.written out.old)
        (K.written out.new)) (script_of workload.seed workload.size) result.status }
    ensures history { IsHistory result.book.entries }
    ensures unmade { ((served : TheServed) →
        served_script (script_of workload.seed workload.size) ≡ Ok served → ⊥) →
        RunsNothing result.book.entries gates result.gates × (out.new ≡ out.old) }
    ensures cause { result.status ≡ 4 → Rose (K.faults out.old) (K.faults out.new) }
    ensures whole { result.status ≢ 4 → result.status ≢ 6 → K.faults out.new ≡ K.faults out.old }
    ensures err { SaysOnErr E.written E.faults err.old err.new result.status }
    ensures others { IsScriptRun result.status }
{
    let instances = workload.size;
    let Ok(served) = serve_generated(alloc, workload) else {
        return ended(alloc, out_of_memory(rt, err), gates);
    };
    let wanted = Wanted::Summary { instances };
    run_served(rt, alloc, wanted, None, served, out, err, gates)
}
