//! The journal of a service: where it is to be kept, and its keeping.

ghost use Rattle.std.specs.Prelude.{◌≡◌, ◌⊎◌, IfErr, IfOk, IsOk, MatchResult, OnErr, OnOk};
ghost use Rattle.cm_keep.specs.Asked.{Asks, AsksOneOf, IsGoneOrSaysWhere, WasRefused, failed_keeping};
ghost use Rattle.cm_keep.specs.Asked.{failing, faulting, keeping as keeping_calls, letting_go, making};
ghost use Rattle.cm_keep.specs.Asked.{names_at, placing, refusing, trying, unmade};
ghost use Rattle.cm_keep.specs.Files.{SaysWhyUnkept, IsTried, NeverBegan, StandsAt, beside_name};
ghost use Rattle.cm_keep.specs.Keeping.{Caused, IsKept, IsLeft, kept_text};
ghost use Rattle.cm_keep.specs.Service.{Plans};
ghost use Rattle.cm_keep.specs.declared.service.Unkept.TheVariants as unkept;

use crate::{FileKeeper, FilePlace, KeepFault, TextKeeper, fault_line, keep_journal};
use cm_book::Book;
use cm_call::{Call, WordsFault, read_words};
use cm_names::{Memory, Text};
use std::alloc::Global;
use std::io::ErrorKind;

/// The journal that is to be kept of a service.
#[derive(Drop)]
pub struct Keeping {
    /// The path that it is to stand at.
    pub at: Text,
    /// The URL of the root.
    pub root: Text,
}

/// Why there is no journal in its place.
#[derive(Drop)]
pub enum Unkept {
    /// Memory ran out.
    Memory,
    /// The line that tells why, with its line feed.
    Said(Text),
}

/// The journal that is to be kept at that path, where the words ask for a service; else none is.
pub fn keeping_of(
    alloc: Global,
    words: &[Text],
    at: Option<Text>,
) -> Result<Option<Keeping>, Memory>
    ensures { IfOk result (Plans words.now at) }
{
    let Some(at) = at else {
        return Ok(None);
    };
    match read_words(alloc, words) {
        Ok(Call::Serve(options)) => Ok(Some(Keeping {
            at,
            root: options.root,
        })),
        Err(WordsFault::Memory) => Err(Memory),
        _ => Ok(None),
    }
}

/// Why the journal can't be kept, as a line.
fn as_unkept(line: Result<Text, Memory>) -> Unkept
    ensures { MatchResult line (λ text. result ≡ unkept.Said text) (λ _. result ≡ unkept.Memory) }
{
    match line {
        Ok(line) => Unkept::Said(line),
        Err(Memory) => Unkept::Memory,
    }
}

/// A keeper for the journal. `number` is that of the process.
fn keeper_of<F: FilePlace + Drop>(
    alloc: Global,
    files: F,
    number: u32,
    keeping: &Keeping,
) -> Result<FileKeeper<F>, (F, Unkept)>
    ensures pending { IfOk result (λ keeper. ⟦<FileKeeper<F> as TextKeeper>⟧.pending keeper) }
    ensures created { IfOk result (λ keeper. F.created keeper.beside keeper.file) }
    ensures place { IfOk result (λ keeper. keeper.place ≡ keeping.now.at) }
    ensures beside { IfOk result (λ keeper. keeper.beside ≡ beside_name keeping.now.at number) }
    ensures asked { IfOk result (λ keeper. Asks (F.asked files) (F.asked keeper.files)
        (making (names_at keeping.now.at number))) }
    ensures fits { OnOk result (F.fits keeping.now.at) }
    ensures unmade { IfErr result (λ left.
        AsksOneOf (F.asked files) (F.asked left.0) (unmade (names_at keeping.now.at number))) }
    ensures told { IfErr result (λ left. SaysWhyUnkept keeping.now.at left.1) }
    ensures refused { IfErr result (λ left.
        WasRefused (F.asked files) (F.asked left.0) (refusing (names_at keeping.now.at number)) left.1) }
{
    match FileKeeper::new(alloc, files, number, &keeping.at) {
        Ok(keeper) => Ok(keeper),
        Err((files, why)) if why.kind() == ErrorKind::OutOfMemory => Err((files, Unkept::Memory)),
        Err((files, why)) => Err((files, as_unkept(fault_line(alloc, &keeping.at, &why)))),
    }
}

/// Tries whether the journal can be kept, before there is one: makes a file beside its place, and takes it
/// away again. Nothing else is asked of `files`, which come back.
pub fn try_keeping<F: FilePlace + Drop>(
    alloc: Global,
    files: F,
    number: u32,
    keeping: &Keeping,
) -> (F, Result<(), Unkept>)
    ensures tried { OnOk result.1 (IsTried F.created F.unnamed (beside_name keeping.now.at number)) }
    ensures asked { OnOk result.1
        (Asks (F.asked files) (F.asked result.0) (trying (names_at keeping.now.at number))) }
    ensures fits { OnOk result.1 (F.fits keeping.now.at) }
    ensures unmade { OnErr result.1
        (AsksOneOf (F.asked files) (F.asked result.0) (unmade (names_at keeping.now.at number))) }
    ensures told { IfErr result.1 (SaysWhyUnkept keeping.now.at) }
    ensures refused { IfErr result.1
        (WasRefused (F.asked files) (F.asked result.0) (refusing (names_at keeping.now.at number))) }
{
    let mut keeper = match keeper_of(alloc, files, number, keeping) {
        Ok(keeper) => keeper,
        Err((files, why)) => return (files, Err(why)),
    };
    keeper.give_up();
    (keeper.into_files(), Ok(()))
}

/// Keeps the journal of this history, of a realm of that root.
pub fn keep_book<P: TextKeeper>(
    alloc: Global,
    keeper: &mut P,
    keeping: &Keeping,
    book: &Book,
) -> Result<(), KeepFault>
    requires pending { P.pending keeper.old }
    ensures kept { OnOk result (IsKept (P.draft keeper.old) (P.shown keeper.old) (P.shown keeper.new)
        (P.placed keeper.new) (kept_text keeping.now.root book.now.entries)) }
    ensures names { P.names keeper.new ≡ P.names keeper.old }
    ensures asked { OnOk result
        (Asks (P.asked keeper.old) (P.asked keeper.new) (placing (P.names keeper.old))) }
    ensures unkept { OnErr result
        (AsksOneOf (P.asked keeper.old) (P.asked keeper.new) (failed_keeping (P.names keeper.old))) }
    ensures whole { OnErr result (P.whole keeper.new
        ⊎ AsksOneOf (P.asked keeper.old) (P.asked keeper.new) (letting_go (P.names keeper.old))) }
    ensures nothing { OnErr result (P.shown keeper.new ≡ P.shown keeper.old) }
    ensures left { IsLeft (P.cleared keeper.new) (P.draft keeper.old) (P.draft keeper.new)
        (kept_text keeping.now.root book.now.entries) result }
    ensures cause { Caused (P.faults keeper.old) (P.faults keeper.new) result }
{
    keep_journal(alloc, keeper, &keeping.root, book.entries())
}

/// Keeps the journal of this history in its file. A service that failed before anything happened in it,
/// by its status, leaves what stands there.
///
/// At `Ok` that is so, or the journal stands in the file whose name was asked for. Nothing is asked of
/// `files` but a new file beside its place, which reaches the disk and is renamed; where that fails, no more
/// than a first part of it, and that the new file is taken away. They come back.
///
/// `Err` says why there is no journal at the path. Where the whole of it stands in a file that couldn't be
/// renamed, it names that file, unless memory runs out for that.
pub fn keep_service<F: FilePlace + Drop>(
    alloc: Global,
    files: F,
    number: u32,
    keeping: &Keeping,
    status: u8,
    book: &Book,
) -> (F, Result<(), Unkept>)
    ensures unbegun { NeverBegan status book.now.entries → IsOk result.1 }
    ensures untouched { NeverBegan status book.now.entries → result.0 ≡ files }
    ensures kept { OnOk result.1 (NeverBegan status book.now.entries
        ⊎ StandsAt F.Draft.contents F.created F.synced F.renamed (beside_name keeping.now.at number)
        keeping.now.at (kept_text keeping.now.root book.now.entries)) }
    ensures asked { OnOk result.1 (NeverBegan status book.now.entries
        ⊎ Asks (F.asked files) (F.asked result.0) (keeping_calls (names_at keeping.now.at number))) }
    ensures fits { OnOk result.1 (NeverBegan status book.now.entries ⊎ F.fits keeping.now.at) }
    ensures failed { OnErr result.1
        (AsksOneOf (F.asked files) (F.asked result.0) (failing (names_at keeping.now.at number))) }
    ensures told { IfErr result.1 (SaysWhyUnkept keeping.now.at) }
    ensures refused { IfErr result.1
        (WasRefused (F.asked files) (F.asked result.0) (faulting (names_at keeping.now.at number))) }
    ensures left { IfErr result.1
        (IsGoneOrSaysWhere (F.asked files) (F.asked result.0) (names_at keeping.now.at number)) }
{
    if status != 0 && book.entries().is_empty() {
        return (files, Ok(()));
    }
    let mut keeper = match keeper_of(alloc, files, number, keeping) {
        Ok(keeper) => keeper,
        Err((files, why)) => return (files, Err(why)),
    };
    let kept = match keep_book(alloc, &mut keeper, keeping, book) {
        Ok(()) => Ok(()),
        Err(KeepFault::Memory) => Err(Unkept::Memory),
        Err(KeepFault::Failed) => Err(as_unkept(keeper.fault_line(alloc))),
    };
    (keeper.into_files(), kept)
}
