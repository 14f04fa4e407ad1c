//! The run of a script that a source gives.

ghost use Rattle.std.specs.Prelude.{◌≡◌, ◌≢◌, ◌⊎◌, All, IfOk, IfErr, length};
ghost use Rattle.std.specs.Io.KnownBytes.{IsAtEnd, Keeps};
ghost use Rattle.cm_io.specs.Outside.{Rose};
ghost use Rattle.cm_lanes.specs.ScriptInside.{IsFit};
ghost use Rattle.cm_program.specs.Audited.{IsLegibleServed};
ghost use Rattle.cm_program.specs.Headline.{IsHistory, RunsNothing, RunsScript};
ghost use Rattle.cm_program.specs.Run.{IsFaulty, IsRefusalStatus, IsRefused, IsScriptRun};
ghost use Rattle.cm_program.specs.Run.{IsScriptStatus, RunsAsServed, RunsSome, ScriptStops};
ghost use Rattle.cm_program.specs.Run as run;
ghost use Rattle.cm_program.specs.Stock.{LoadsScript};
ghost use Rattle.cm_program.specs.Texts as spec;
ghost use Rattle.cm_program.specs.Written.{IsSaid, OfKnown, OfSome, SaysOnErr};

use crate::fault::ScriptRefusal;
use crate::ran::{Finished, ended, out_of_memory, read_fault, tell};
use crate::running::run_served;
use crate::stock::{LoadedScript, serve};
use crate::verdict::line_of;
use cm_call::Wanted;
use cm_gate::Gates;
use cm_io::{Sink, Source, SourceFault, read_up_to};
use cm_names::{List, Memory, Text};
use std::alloc::Global;
use std::sync::Wait;
use std::thread::Threads;

/// So many bytes are read of a source at least, if it has them: those of the largest script, and
/// one more than the longest line with its line feed has, so that the fault of the line that
/// passes the script's limit is known.
const READ_LIMIT: usize = 67_108_864 + 65_537;

/// Why a script isn't served.
#[derive(Drop)]
pub enum Stop {
    ReadFault,
    Refused(ScriptRefusal),
    Memory,
}

/// How a fault stops a run.
fn stop_of(fault: ScriptRefusal) -> Stop
    ensures { result ≡ run.stop_of fault }
{
    match fault {
        ScriptRefusal::Memory => Stop::Memory,
        ScriptRefusal::Unread { line, number, at } => Stop::Refused(ScriptRefusal::Unread {
            line,
            number,
            at,
        }),
        ScriptRefusal::Unserved { line, problem } => Stop::Refused(ScriptRefusal::Unserved {
            line,
            problem,
        }),
    }
}

/// Reads the script that the source has left.
fn read_served<R: Threads + Wait + Sync, S: Source>(
    rt: &R,
    alloc: Global,
    source: &mut S,
) -> Result<LoadedScript, Stop>
    ensures good { IfOk result
        (λ served. OfSome (λ bytes. LoadsScript bytes served) (S.left source.old)) }
    ensures fit { IfOk result (λ served. All (λ lines. All IsFit lines) served.phases) }
    ensures tells { IfOk result IsLegibleServed }
    ensures bad { IfErr result (λ stop. ScriptStops stop (S.left source.old)) }
    ensures fault { IfErr result (λ stop. stop ≡ Stop.ReadFault →
        Rose (S.faults source.old) (S.faults source.new)) }
    ensures ended { IfOk result (λ served. IsAtEnd (S.left source.new)) }
    ensures heard { IfOk result (λ served. S.faults source.new ≡ S.faults source.old) }
    ensures quiet { S.quiet source.old → S.faults source.new ≡ S.faults source.old }
    ensures heard_refused { IfErr result (λ stop. stop ≢ Stop.ReadFault → stop ≢ Stop.Memory →
        S.faults source.new ≡ S.faults source.old) }
{
    let bytes = match read_up_to(rt, alloc, source, READ_LIMIT) {
        Ok(bytes) => bytes,
        Err(SourceFault::Failed) => return Err(Stop::ReadFault),
        Err(SourceFault::Memory) => return Err(Stop::Memory),
    };
    match serve(alloc, bytes) {
        Ok(served) => Ok(served),
        Err(fault) => Err(stop_of(fault)),
    }
}

/// Says why the script is refused. The result is the status.
#[tactic(auto, using(crate::proofs::lemmas::whole::Saying::says))]
fn refuse<R: Threads + Wait + Sync, E: Sink>(
    rt: &R,
    alloc: Global,
    err: &mut E,
    fault: ScriptRefusal,
) -> u8
    ensures refused { result ≡ 7 →
        IsSaid E.written E.faults err.old err.new (spec.fault_line fault) }
    ensures err { SaysOnErr E.written E.faults err.old err.new result }
    ensures others { (result ≡ 7) ⊎ (result ≡ 6) }
{
    match line_of(alloc, &fault) {
        Ok(text) => {
            tell(rt, err, text.as_str().as_bytes());
            7
        }
        Err(Memory) => out_of_memory(rt, err),
    }
}

/// Runs the script that the source has left, with the manifests of that folder besides its own, and
/// writes what is wanted of it.
#[tactic(auto, using(crate::proofs::lemmas::whole::Saying::says, crate::proofs::lemmas::whole::Run::idle))]
pub fn run_script<R: Threads + Wait + Sync, S: Source, K: Sink, E: Sink, G: Gates + Send + Drop>(
    rt: &R,
    alloc: Global,
    wanted: Wanted,
    repo: Option<Text>,
    script: &mut S,
    out: &mut K,
    err: &mut E,
    gates: List<G>,
) -> Finished<G>
    requires gates { length gates ≡ 16 }
    ensures gates { length result.gates ≡ 16 }
    ensures read { result.status ≡ 3 → Rose (S.faults script.old) (S.faults script.new) }
    ensures heard { result.status ≢ 3 → result.status ≢ 6 →
        S.faults script.new ≡ S.faults script.old }
    ensures quiet { S.quiet script.old → S.faults script.new ≡ S.faults script.old }
    ensures write { result.status ≡ 4 → Rose (K.faults out.old) (K.faults out.new) }
    ensures whole { result.status ≢ 4 → result.status ≢ 6 → K.faults out.new ≡ K.faults out.old }
    ensures ended { result.status ≡ 0 → IsAtEnd (S.left script.new) }
    ensures refused { result.status ≡ 7 →
        IsRefused E.written E.faults (S.left script.old) err.old err.new }
    ensures faulty { OfKnown (λ bytes. IsFaulty bytes →
        IsRefusalStatus result.status) (S.left script.old) }
    ensures headline { IsScriptRun result.status →
        OfKnown (RunsAsServed (λ served. RunsScript G.log G.faults wanted repo served gates
        result.gates result.book.entries result.status (K.written out.old)
        (K.written out.new))) (S.left script.old) }
    ensures some { IsScriptRun result.status →
        RunsSome (λ served. RunsScript G.log G.faults wanted repo served gates result.gates
        result.book.entries result.status (K.written out.old) (K.written out.new))
        (RunsNothing result.book.entries gates result.gates
        × Keeps (K.written out.old) (K.written out.new)) result.status (S.left script.old) }
    ensures history { IsHistory result.book.entries }
    ensures empty { (result.status ≡ 3) ⊎ (result.status ≡ 7) →
        RunsNothing result.book.entries gates result.gates }
    ensures unserved { OfKnown (λ bytes. IsFaulty bytes →
        RunsNothing result.book.entries gates result.gates) (S.left script.old) }
    ensures silent { (result.status ≡ 3) ⊎ (result.status ≡ 7) →
        Keeps (K.written out.old) (K.written out.new) }
    ensures err { SaysOnErr E.written E.faults err.old err.new result.status }
    ensures others { IsScriptStatus result.status }
{
    match read_served(rt, alloc, script) {
        Ok(served) => run_served(rt, alloc, wanted, repo, served, out, err, gates),
        Err(Stop::ReadFault) => ended(alloc, read_fault(rt, err), gates),
        Err(Stop::Refused(fault)) => ended(alloc, refuse(rt, alloc, err, fault), gates),
        Err(Stop::Memory) => ended(alloc, out_of_memory(rt, err), gates),
    }
}
