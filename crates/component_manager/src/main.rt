//! A component manager: it runs the commands of a script of component manifests, of a workload that
//! it generates or of links over a Unix socket, and says whether a manifest is valid.
//!
//! [`cm_program::run::run`] is the top call. `main` makes the standard streams, the door and the gates
//! for it, and ends by [`ended`], which asks for what that very call promises. What `main` gives is a
//! [`ProgramStatus`], which is made of that, or where something is missing beside the run. Where a place is
//! told for the journal of a service, [`cm_keep`] keeps it there, before and after that call.
#![tactic(auto)]

mod ending;

ghost use Rattle.std.specs.Prelude.{◌≡◌, ◌≢◌, ◌⊎◌, ℕ, List as Seq, Option, Some, None, codes, length};
ghost use Rattle.std.specs.Prelude.{All, IfErr, IfOk, IfSome, IsOk, OnErr, OnOk, slice_get};
ghost use Rattle.cm_keep.specs.Asked.{Asks, AsksOneOf, IsGoneOrSaysWhere, WasRefused, failing, faulting};
ghost use Rattle.cm_keep.specs.Asked.{keeping as keeping_calls, names_at, refusing, trying, unmade};
ghost use Rattle.cm_keep.specs.Files.{IsTried, MayNameFile, NeverBegan, SaysWhyUnkept, StandsAt};
ghost use Rattle.cm_keep.specs.Files.{beside_name};
ghost use Rattle.cm_keep.specs.Keeping.{kept_text};
ghost use Rattle.cm_keep.specs.Service.{Plans, SaysWhyUnready};
ghost use Rattle.cm_keep.specs.declared.service.Unkept.TheVariants as unkept;
ghost use Rattle.cm_program.specs.Written.{IsSaid, want_line};

use cm_book::Book;
use cm_gate::{FolderGates, Runner};
use cm_io::{Door, Reading, Sink, SocketDoor, Writing};
use cm_keep::{FilePlace, Keeping, Unkept, keep_service, keeping_of, try_keeping};
use cm_names::{List, Memory, Text};
use cm_program::run::run;
use ending::{ProgramStatus, ended};
use std::alloc::{AllocError, Global};
use std::io::ErrorKind;
use std::rt::Files;
use std::sync::Wait;
use std::thread::Threads;
use std::{env, io, process};

/// The words after the program's name. Words that can't be read are no words of a command.
fn words<R: env::Env + Alloc<A = Global>>(rt: &R) -> Result<List<Text>, Memory> {
    match read_words(rt) {
        Ok(words) => Ok(words),
        Err(fault) => match fault.kind() {
            ErrorKind::OutOfMemory => Err(Memory),
            _ => Ok(List::new(rt.alloc())),
        },
    }
}

/// The words of the command line without the program's name. It fails where one isn't UTF-8, or memory
/// runs out.
fn read_words<R: env::Env + Alloc<A = Global>>(rt: &R) -> io::Result<List<Text>> {
    let mut words = Vec::new(rt.alloc());
    for word in env::args(rt)?.skip(1) {
        match Text::from_string(word) {
            Ok(word) => words.push(word)?,
            Err(Memory) => return Err(AllocError.into()),
        }
    }
    Ok(List::from_vec(words))
}

/// The name of the environment variable that says where a runner listens.
const RUNNER: &str = "COMPONENT_RUNNER";

/// The name of the environment variable that says where the journal of a service is to be kept.
const JOURNAL: &str = "COMPONENT_JOURNAL";

/// The path that a variable of the environment tells. One that is no text is the empty path, at which
/// nobody listens and nothing can be kept.
fn path_in<R: env::Env + Alloc<A = Global>>(rt: &R, name: &str) -> Result<Option<Text>, Memory> {
    match env::var(rt, name) {
        Ok(at) => Ok(Some(Text::from_string(at)?)),
        Err(env::VarError::NotPresent) => Ok(None),
        Err(env::VarError::NotUnicode) => Ok(Some(Text::new(rt.alloc()))),
        Err(env::VarError::OutOfMemory) => Err(Memory),
    }
}

/// Where a runner listens, and where the journal of a service is to be kept, if the environment tells it.
fn places<R: env::Env + Alloc<A = Global>>(rt: &R) -> Result<(Option<Text>, Option<Text>), Memory> {
    let runner = path_in(rt, RUNNER)?;
    let journal = path_in(rt, JOURNAL)?;
    Ok((runner, journal))
}

/// Where the runner listens that these words ask: for a service where it is told, and for all others nowhere.
fn runner_of(words: &[Text], told: Option<Text>) -> Option<Text>
    ensures service { slice_get words.now 0 ≡ Some (codes "serve") → result ≡ told }
    ensures others { slice_get words.now 0 ≢ Some (codes "serve") → result ≡ None }
{
    let Some(word) = words.first() else {
        return None;
    };
    if word.as_str() == "serve" { told } else { None }
}

/// The runner, if one listens somewhere.
fn runner(alloc: Global, at: &Option<Text>) -> Result<Option<Runner>, Memory>
    ensures { IfOk result (λ runner. runner ≡ at.now) }
{
    match at {
        Some(at) => Ok(Some(Runner::new(alloc, at.clone()?))),
        None => Ok(None),
    }
}

/// Sixteen gates, one for each lane, that read through `files` and ask that runner.
fn folder_gates<F: Files + Copy + Drop>(
    alloc: Global,
    files: F,
    at: &Option<Text>,
) -> Result<List<FolderGates<F>>, Memory>
    ensures count { IfOk result (λ gates. length gates ≡ 16) }
    ensures alike { IfOk result (All (λ g. g ≡ record { files = files; runner = at.now; faults = 0 })) }
{
    let mut gates = List::new(alloc);
    for lane in 0..16_u32 {
        let _number = lane;
        gates.push(FolderGates::new(files, runner(alloc, at)?))?;
    }
    Ok(gates)
}

/// Tries whether the journal that is to be kept can be, before the door opens. `number` is that of the
/// process. Where none is to be kept, nothing is asked of `files`, which come back.
fn try_journal<F: FilePlace + Drop>(
    alloc: Global,
    files: F,
    number: u32,
    keeping: &Option<Keeping>,
) -> (F, Result<(), Unkept>)
    ensures none { keeping.now ≡ None → IsOk result.1 × (result.0 ≡ files) }
    ensures tried { IfSome keeping.now
        (λ k. OnOk result.1 (IsTried F.created F.unnamed (beside_name k.at number))) }
    ensures asked { IfSome keeping.now
        (λ k. OnOk result.1 (Asks (F.asked files) (F.asked result.0) (trying (names_at k.at number)))) }
    ensures unmade { IfSome keeping.now (λ k. OnErr result.1
        (AsksOneOf (F.asked files) (F.asked result.0) (unmade (names_at k.at number)))) }
    ensures fits { IfSome keeping.now (λ k. OnOk result.1 (F.fits k.at)) }
    ensures told { IfSome keeping.now (λ k. IfErr result.1 (SaysWhyUnkept k.at)) }
    ensures refused { IfSome keeping.now (λ k. IfErr result.1
        (WasRefused (F.asked files) (F.asked result.0) (refusing (names_at k.at number)))) }
{
    match keeping {
        Some(keeping) => try_keeping(alloc, files, number, keeping),
        None => (files, Ok(())),
    }
}

/// Keeps the journal that is to be kept. `number` is that of the process. Where none is, nothing is asked of
/// `files`, which come back.
fn keep_journal<F: FilePlace + Drop>(
    alloc: Global,
    files: F,
    number: u32,
    keeping: &Option<Keeping>,
    status: u8,
    book: &Book,
) -> (F, Result<(), Unkept>)
    ensures none { keeping.now ≡ None → IsOk result.1 × (result.0 ≡ files) }
    ensures unbegun { NeverBegan status book.now.entries → IsOk result.1 × (result.0 ≡ files) }
    ensures kept { IfSome keeping.now (λ k. OnOk result.1 (NeverBegan status book.now.entries
        ⊎ StandsAt F.Draft.contents F.created F.synced F.renamed (beside_name k.at number) k.at
        (kept_text k.root book.now.entries))) }
    ensures asked { IfSome keeping.now (λ k. OnOk result.1 (NeverBegan status book.now.entries
        ⊎ Asks (F.asked files) (F.asked result.0) (keeping_calls (names_at k.at number)))) }
    ensures failed { IfSome keeping.now (λ k. OnErr result.1
        (AsksOneOf (F.asked files) (F.asked result.0) (failing (names_at k.at number)))) }
    ensures told { IfSome keeping.now (λ k. IfErr result.1 (SaysWhyUnkept k.at)) }
    ensures refused { IfSome keeping.now (λ k. IfErr result.1
        (WasRefused (F.asked files) (F.asked result.0) (faulting (names_at k.at number)))) }
    ensures left { IfSome keeping.now (λ k. IfErr result.1
        (IsGoneOrSaysWhere (F.asked files) (F.asked result.0) (names_at k.at number))) }
{
    match keeping {
        Some(keeping) => keep_service(alloc, files, number, keeping, status, book),
        None => (files, Ok(())),
    }
}

/// Says on the error stream why a journal isn't kept. The program ends so, unless its run had a status of
/// its own.
fn say<R: Threads + Wait + Sync, E: Sink>(rt: &R, err: &mut E, why: &Unkept) -> ProgramStatus
    ensures status { (result ≡ 4) ⊎ (result ≡ 6) }
    ensures line { (line : Seq ℕ) → why.now ≡ unkept.Said line → (result ≡ 4)
        × IsSaid E.written E.faults err.old err.new line }
    ensures memory { why.now ≡ unkept.Memory → (result ≡ 6)
        × IsSaid E.written E.faults err.old err.new want_line }
{
    match why {
        Unkept::Said(line) => ProgramStatus::refused(rt, err, line.as_str().as_bytes()),
        Unkept::Memory => ProgramStatus::out_of_memory(rt, err),
    }
}

/// The gates that these words are run with, and the journal that is to be kept, which can be. For a service
/// all gates ask the runner that is told, and a journal is kept where a place is; for all others neither is.
fn outside_of(
    rt: HostRuntime,
    words: &[Text],
    runner: Option<Text>,
    journal: Option<Text>,
) -> Result<(List<FolderGates<HostRuntime>>, Option<Keeping>), Unkept>
    ensures count { IfOk result (λ given. length given.0 ≡ 16) }
    ensures service { slice_get words.now 0 ≡ Some (codes "serve") → IfOk result (λ given.
        All (λ g. g ≡ record { files = rt; runner = runner; faults = 0 }) given.0) }
    ensures others { slice_get words.now 0 ≢ Some (codes "serve") → IfOk result (λ given.
        All (λ g. g ≡ record { files = rt; runner = None; faults = 0 }) given.0) }
    ensures journal { IfOk result (λ given. Plans words.now journal given.1) }
    ensures fits { IfOk result (λ given. IfSome given.1 (λ k. MayNameFile k.at)) }
    ensures told { IfErr result (SaysWhyUnready words.now journal) }
{
    let at = runner_of(words, runner);
    let Ok(gates) = folder_gates(rt.alloc(), rt, &at) else {
        return Err(Unkept::Memory);
    };
    let Ok(keeping) = keeping_of(rt.alloc(), words, journal) else {
        return Err(Unkept::Memory);
    };
    let number = process::id(rt.process());
    let (_files, tried) = try_journal(rt.alloc(), rt, number, &keeping);
    match tried {
        Ok(()) => Ok((gates, keeping)),
        Err(why) => Err(why),
    }
}

/// Runs the program once over the standard streams and a socket door, and ends with its status.
fn main(rt: HostRuntime) -> ProgramStatus {
    let mut input = Reading::new(rt.stdin());
    let output = rt.stdout();
    let error = rt.stderr();
    let mut out = Writing::new(io::writer(&output));
    let mut err = Writing::new(io::writer(&error));
    let Ok(words) = words(&rt) else {
        return ProgramStatus::out_of_memory(&rt, &mut err);
    };
    let Ok((runner, journal)) = places(&rt) else {
        return ProgramStatus::out_of_memory(&rt, &mut err);
    };
    let asked = words.as_slice();
    let (gates, keeping) = match outside_of(rt, asked, runner, journal) {
        Ok(given) => given,
        Err(why) => return say(&rt, &mut err, &why),
    };
    let ran = run(
        &rt,
        rt.alloc(),
        asked,
        &mut input,
        &mut out,
        &mut err,
        SocketDoor::new(rt),
        gates,
    );
    let number = process::id(rt.process());
    let (_files, kept) = keep_journal(rt.alloc(), rt, number, &keeping, ran.status, &ran.book);
    let (status, mut door) = ended(asked, input, out, err, ran);
    // The socket file would outlive the program.
    door.close();
    let Err(why) = kept else {
        return status;
    };
    let mut err = Writing::new(io::writer(&error));
    status.or(say(&rt, &mut err, &why))
}
