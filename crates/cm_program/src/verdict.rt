//! The commands `check` and `audit`: the verdict on what the input is.

ghost use Rattle.std.specs.Prelude.{◌≡◌, ◌≢◌, ◌⊎◌, ◌++◌, ◌<◌, ◌^◌, codes, IfOk, IfErr, IfSome};
ghost use Rattle.std.specs.Io.KnownBytes.{Appends, IsAtEnd, Keeps};
ghost use Rattle.cm_io.specs.Outside.{Rose};
ghost use Rattle.cm_program.specs.Run.{IsCheckStatus};
ghost use Rattle.cm_program.specs.Verdicts.{IsSomeTold, IsToldOf, IsVerdictOn, most_bytes};
ghost use Rattle.cm_program.specs.Written.{AppendsPrefix, OfSome, SaysOnErr};

use crate::ran::{out_of_memory, read_fault};
use crate::{audit, check};
use cm_io::{Put, Sink, Source, SourceFault, put_all, read_up_to};
use cm_names::{Memory, Text};
use std::alloc::Global;
use std::fmt;
use std::sync::Wait;
use std::thread::Threads;

/// What the input is taken for.
#[derive(Clone, Copy)]
pub enum Subject {
    /// A manifest, by `check`.
    Manifest,
    /// A journal, by `audit`.
    Journal,
}

/// What `check` says of a manifest, or `audit` of a journal.
#[derive(Drop)]
pub struct Verdict {
    /// 0 for a valid manifest and a legal journal, and else 1.
    pub status: u8,
    /// The line that is written.
    pub line: Text,
}

/// Why there is no verdict.
#[derive(Drop)]
pub enum NoVerdict {
    /// The source failed.
    ReadFault,
    /// Memory ran out.
    Memory,
}

/// The line that is written of this: its text, with a line feed at its end. `Err` where memory runs out.
pub fn line_of<T: fmt::Display>(alloc: Global, told: &T) -> Result<Text, Memory>
    ensures { IfOk result (λ line.
        IfSome (T.output told.now) (λ text. line ≡ text ++ codes "\n")) }
{
    let mut line = Text::new(alloc);
    line.push(format_args!("{told}\n"))?;
    Ok(line)
}

/// The most bytes that such an input has; a journal with all that stands before it. The source is read
/// a piece further at most.
fn limit_of(subject: Subject) -> usize
    ensures limit { result ≡ most_bytes subject }
    ensures room { result < 2 ^ 63 }
{
    match subject {
        Subject::Manifest => 1_048_576,
        Subject::Journal => 268_435_456,
    }
}

/// The verdict on what the bytes are.
fn verdict_on(alloc: Global, subject: Subject, bytes: &[u8]) -> Result<Verdict, Memory>
    ensures verdict { IfOk result
        (λ verdict. IsVerdictOn subject bytes.now verdict.status verdict.line) }
    ensures status { IfOk result (λ verdict. (verdict.status ≡ 0) ⊎ (verdict.status ≡ 1)) }
{
    match subject {
        Subject::Manifest => check::verdict_of(alloc, bytes),
        Subject::Journal => audit::verdict_of(alloc, bytes),
    }
}

/// The verdict on what the source has left. Where it has more bytes than such an input may have, the
/// verdict on those that are read is that on all.
fn read_verdict<R: Threads + Wait + Sync, S: Source>(
    rt: &R,
    alloc: Global,
    subject: Subject,
    source: &mut S,
) -> Result<Verdict, NoVerdict>
    ensures verdict { IfOk result
        (λ verdict. OfSome (λ bytes. IsVerdictOn subject bytes verdict.status verdict.line)
        (S.left source.old)) }
    ensures status { IfOk result (λ verdict. (verdict.status ≡ 0) ⊎ (verdict.status ≡ 1)) }
    ensures ended { IfOk result (λ verdict. verdict.status ≡ 0 → IsAtEnd (S.left source.new)) }
    ensures fault { IfErr result (λ e. e ≡ NoVerdict.ReadFault →
        Rose (S.faults source.old) (S.faults source.new)) }
    ensures heard { IfOk result (λ verdict. S.faults source.new ≡ S.faults source.old) }
    ensures quiet { S.quiet source.old → S.faults source.new ≡ S.faults source.old }
{
    let limit = limit_of(subject);
    let bytes = match read_up_to(rt, alloc, source, limit) {
        Ok(bytes) => bytes,
        Err(SourceFault::Failed) => return Err(NoVerdict::ReadFault),
        Err(SourceFault::Memory) => return Err(NoVerdict::Memory),
    };
    match verdict_on(alloc, subject, bytes.as_slice()) {
        Ok(verdict) => Ok(verdict),
        Err(Memory) => Err(NoVerdict::Memory),
    }
}

/// Says whether the manifest that the source has left is valid, or the journal a legal history, or else
/// what comes first in it that isn't. The result is the status.
#[tactic(auto, using(crate::proofs::lemmas::whole::Saying::says))]
pub fn run_verdict<R: Threads + Wait + Sync, S: Source, K: Sink, E: Sink>(
    rt: &R,
    alloc: Global,
    subject: Subject,
    source: &mut S,
    out: &mut K,
    err: &mut E,
) -> u8
    ensures read { result ≡ 3 → Rose (S.faults source.old) (S.faults source.new) }
    ensures heard { result ≢ 3 → result ≢ 6 → S.faults source.new ≡ S.faults source.old }
    ensures quiet { S.quiet source.old → S.faults source.new ≡ S.faults source.old }
    ensures write { result ≡ 4 → Rose (K.faults out.old) (K.faults out.new) }
    ensures whole { result ≢ 4 → result ≢ 6 → K.faults out.new ≡ K.faults out.old }
    ensures ended { result ≡ 0 → IsAtEnd (S.left source.new) }
    ensures good { result ≡ 0 →
        OfSome (IsToldOf subject (Appends (K.written out.old) (K.written out.new)) 0)
        (S.left source.old) }
    ensures bad { result ≡ 1 →
        OfSome (IsToldOf subject (Appends (K.written out.old) (K.written out.new)) 1)
        (S.left source.old) }
    ensures prefix { result ≡ 4 →
        OfSome (IsSomeTold subject (AppendsPrefix (K.written out.old) (K.written out.new)))
        (S.left source.old) }
    ensures silent { (result ≡ 3) ⊎ (result ≡ 6) →
        Keeps (K.written out.old) (K.written out.new) }
    ensures err { SaysOnErr E.written E.faults err.old err.new result }
    ensures others { IsCheckStatus result }
{
    match read_verdict(rt, alloc, subject, source) {
        Ok(Verdict { status, line }) => match put_all(rt, out, line.as_str().as_bytes()) {
            Put::Done => status,
            Put::WriteFault(_) => 4,
        },
        Err(NoVerdict::ReadFault) => read_fault(rt, err),
        Err(NoVerdict::Memory) => out_of_memory(rt, err),
    }
}
