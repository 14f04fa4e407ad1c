//! The run of a script that is served, and what is written of it.

ghost use Rattle.std.specs.Prelude.{◌≡◌, ◌≢◌, ◌⊎◌, ℕ, [], All, Any, List as Seq, Err, IfOk, None, Some};
ghost use Rattle.std.specs.Prelude.{false, length, true};
ghost use Rattle.cm_io.specs.Outside.{Rose};
ghost use Rattle.cm_reply.specs.Journal as journal;
ghost use Rattle.cm_lanes.specs.declared.said.Said.{Said as TheSaid};
ghost use Rattle.cm_lanes.specs.ScriptInside.{IsFit};
ghost use Rattle.cm_typed.specs.Typed.{IsTypedEntry};
ghost use Rattle.cm_program.specs.Audited.{MayTell};
ghost use Rattle.cm_program.specs.Headline.{RunsScript};
ghost use Rattle.cm_program.specs.PrintedInside.{IsPrinted, printed_text};
ghost use Rattle.cm_program.specs.Run.{IsScriptRun};
ghost use Rattle.cm_program.specs.Written.{AppendsPrefix, SaysOnErr};

use crate::answers::{push_answers, push_entries};
use crate::performing::{LanesResult, perform};
use crate::ran::{Finished, ended, out_of_memory};
use crate::stock::LoadedScript;
use crate::wanted::summary_text;
use cm_call::Wanted;
use cm_command::Line;
use cm_gate::Gates;
use cm_io::{Put, Sink, put_all};
use cm_lanes::Said;
use cm_names::{List, Memory, Text};
use cm_reply::header_text;
use cm_steps::Realm;
use cm_typed::entries_fit;
use cm_world::{Entry, Frame, Refusal};
use std::alloc::Global;
use std::sync::Wait;
use std::thread::Threads;

/// What is printed, and of what besides the answers.
#[derive(Clone, Copy)]
struct Printout<'a> {
    /// What is wanted.
    wanted: Wanted,
    /// The first lines of the journal.
    head: &'a Text,
    /// The history.
    entries: &'a [Entry],
    /// How many of its routes and openings asked for a use whose answer was still there.
    kept: u64,
    /// The report on the tree at the end, where one is wanted.
    report: &'a Text,
}

/// The head of the journal of a realm, and the realm.
fn new_realm(alloc: Global, frame: Frame) -> Result<(Text, Realm), Memory>
    ensures { IfOk result (λ made. (made.0 ≡ journal.header_text frame)
        × (made.1 ≡ record { frame = frame; entries = [] })) }
{
    let head = header_text(alloc, &frame)?;
    let Frame {
        root,
        builtins,
        limits,
    } = frame;
    let realm = Realm::new(alloc, root, builtins, limits)?;
    Ok((head, realm))
}

/// Whether memory ran out for one of the answers.
fn is_out_of_memory(said: &[Said]) -> bool
    ensures told { result ≡ false → All (λ s. s.result ≢ Err Refusal.Memory) said.now }
    ensures wanting { result ≡ true → Any (λ s. s.result ≡ Err Refusal.Memory) said.now }
{
    said.iter()
        .any(|s| matches!(s.result, Err(Refusal::Memory)))
}

/// The answers, and after them the journal where it is wanted.
fn answers_text(
    alloc: Global,
    phases: &[List<Line>],
    said: &[Said],
    journal: bool,
    sheet: &Printout<'_>,
) -> Result<Text, Memory>
    ensures { IfOk result (λ text. text ≡ printed_text phases.now said.now
        (Wanted.Answers journal) sheet.now.head.now sheet.now.entries.now sheet.now.kept
        sheet.now.report.now) }
{
    let mut text = String::new(alloc);
    push_answers(&mut text, phases, said)?;
    if journal {
        text.push_str(sheet.head.as_str())?;
        push_entries(&mut text, sheet.entries)?;
    }
    Text::from_string(text)
}

/// All that is printed of a run, by what is wanted. `Err` where memory runs out.
fn text_of(
    alloc: Global,
    phases: &[List<Line>],
    said: &[Said],
    sheet: &Printout<'_>,
) -> Result<Text, Memory>
    ensures { IfOk result (λ text. text ≡ printed_text phases.now said.now
        sheet.now.wanted sheet.now.head.now sheet.now.entries.now sheet.now.kept
        sheet.now.report.now) }
{
    match sheet.wanted {
        Wanted::Answers { journal } => answers_text(alloc, phases, said, journal, sheet),
        Wanted::Summary { instances } => summary_text(alloc, instances, said, sheet.kept),
        Wanted::Environments | Wanted::Storage => Ok(sheet.report.clone()?),
    }
}

/// Writes all that is printed. The result is the status: 0; 4 where `out` failed; or 6 where memory
/// ran out, for the text or for an answer.
fn print<R: Threads + Wait + Sync, K: Sink>(
    rt: &R,
    alloc: Global,
    out: &mut K,
    phases: &[List<Line>],
    said: &[Said],
    sheet: &Printout<'_>,
) -> u8
    ensures printed { IsPrinted (printed_text phases.now said.now sheet.now.wanted
        sheet.now.head.now sheet.now.entries.now sheet.now.kept sheet.now.report.now) said.now result
        (K.written out.old) (K.written out.new) }
    ensures cause { result ≡ 4 → Rose (K.faults out.old) (K.faults out.new) }
    ensures whole { result ≢ 4 → result ≢ 6 → K.faults out.new ≡ K.faults out.old }
    ensures others { IsScriptRun result }
{
    let Ok(text) = text_of(alloc, phases, said, sheet) else {
        return 6;
    };
    let put = put_all(rt, out, text.as_str().as_bytes());
    if is_out_of_memory(said) {
        return 6;
    }
    match put {
        Put::Done => 0,
        Put::WriteFault(_) => 4,
    }
}

/// Says on the error stream what the status is for, where it is out of memory.
#[tactic(auto, using(crate::proofs::lemmas::whole::Saying::says))]
fn report<R: Threads + Wait + Sync, E: Sink>(rt: &R, err: &mut E, status: u8)
    ensures { IsScriptRun status → SaysOnErr E.written E.faults err.old err.new status }
{
    if status == 6 {
        out_of_memory(rt, err);
    }
}

/// Writes what was made of a script.
#[tactic(auto, using(crate::proofs::lemmas::whole::Saying::says))]
fn print_performed<R: Threads + Wait + Sync, K: Sink, E: Sink, G>(
    rt: &R,
    alloc: Global,
    out: &mut K,
    err: &mut E,
    phases: &[List<Line>],
    head: &Text,
    wanted: Wanted,
    done: LanesResult<G>,
) -> Finished<G>
    ensures said { (said : Seq TheSaid) (report : Seq ℕ) → done.said ≡ Some said
        → done.report ≡ Some report → IsPrinted (printed_text phases.now said wanted head.now
        done.book.entries done.kept report) said result.status (K.written out.old)
        (K.written out.new) }
    ensures unsaid { (done.said ≡ None) ⊎ (done.report ≡ None)
        → (result.status ≡ 6) × AppendsPrefix (K.written out.old) (K.written out.new) [] }
    ensures typed { All IsTypedEntry done.book.entries }
    ensures book { result.book ≡ done.book }
    ensures gates { result.gates ≡ done.gates }
    ensures cause { result.status ≡ 4 → Rose (K.faults out.old) (K.faults out.new) }
    ensures whole { result.status ≢ 4 → result.status ≢ 6 → K.faults out.new ≡ K.faults out.old }
    ensures err { SaysOnErr E.written E.faults err.old err.new result.status }
    ensures others { IsScriptRun result.status }
{
    let LanesResult {
        book,
        kept,
        report: made,
        gates,
        said,
    } = done;
    entries_fit(book.entries());
    let (Some(said), Some(made)) = (said, made) else {
        return Finished {
            status: out_of_memory(rt, err),
            book,
            gates,
        };
    };
    let sheet = Printout {
        wanted,
        head,
        entries: book.entries(),
        kept,
        report: &made,
    };
    let status = print(rt, alloc, out, phases, said.as_slice(), &sheet);
    report(rt, err, status);
    Finished {
        status,
        book,
        gates,
    }
}

/// Runs a script that is served, and writes what is wanted of it. Manifests that it doesn't bring
/// along are asked of the gates, by their URL and `repo`.
#[tactic(auto, using(crate::proofs::lemmas::whole::Saying::says))]
pub fn run_served<R: Threads + Wait + Sync, K: Sink, E: Sink, G: Gates + Send + Drop>(
    rt: &R,
    alloc: Global,
    wanted: Wanted,
    repo: Option<Text>,
    served: LoadedScript,
    out: &mut K,
    err: &mut E,
    gates: List<G>,
) -> Finished<G>
    requires gates { length gates ≡ 16 }
    requires fit { All (λ lines. All IsFit lines) served.phases }
    requires tells { MayTell wanted served }
    ensures gates { length result.gates ≡ 16 }
    ensures runs { RunsScript G.log G.faults wanted repo served gates result.gates
        result.book.entries result.status (K.written out.old) (K.written out.new) }
    ensures cause { result.status ≡ 4 → Rose (K.faults out.old) (K.faults out.new) }
    ensures whole { result.status ≢ 4 → result.status ≢ 6 → K.faults out.new ≡ K.faults out.old }
    ensures err { SaysOnErr E.written E.faults err.old err.new result.status }
    ensures others { IsScriptRun result.status }
{
    let Ok((head, realm)) = new_realm(alloc, served.frame) else {
        return ended(alloc, out_of_memory(rt, err), gates);
    };
    let phases = served.phases;
    let done = perform(
        rt,
        alloc,
        wanted,
        realm,
        served.repository,
        repo,
        phases.as_slice(),
        gates,
    );
    print_performed(rt, alloc, out, err, phases.as_slice(), &head, wanted, done)
}
