//! The words of a journal's line, read one by one.
//!
//! Each reader promises one direction alone: whatever legible text stands there is found, or memory ran
//! out. It may find something where none stands, as a number with a needless zero; so a line is written
//! again and compared.

ghost use Rattle.std.specs.Prelude.{◌≡◌, ◌<◌, ◌^◌, ◌++◌, ◌∷◌, ℕ, List as Seq, decimal, IfOk, IsTrue};
ghost use Rattle.std.specs.Prelude.{Bool, MatchResult};
ghost use Rattle.cm_names.specs.Name.{IsName};
ghost use Rattle.cm_names.specs.Path.{is_path};
ghost use Rattle.cm_names.specs.Moniker.{moniker_text};
ghost use Rattle.cm_names.specs.declared.moniker.Moniker.{Moniker as OneMoniker};
ghost use Rattle.cm_decl.specs.declared.decl.Decl.{Decl as OneDecl};
ghost use Rattle.cm_read.specs.Readable.{IsReadable};
ghost use Rattle.cm_read.specs.Writing.{decl_text};
ghost use Rattle.cm_world.specs.declared.action.ActKind.{ActKind as OneKind};
ghost use Rattle.cm_world.specs.declared.event.Target.TheVariants.{Named};
ghost use Rattle.cm_command.specs.Words.{IsUrlText};
ghost use Rattle.cm_command.specs.Written.{IsTarget};
ghost use Rattle.cm_reply.specs.States as states;
ghost use Rattle.cm_reply.specs.Events.{mark_word};
ghost use Rattle.cm_reply.specs.EventWords as events;
ghost use Rattle.cm_reply.specs.Reading as spec;
ghost use Rattle.cm_reply.specs.Reading.{IsOr};

use cm_command::tokens::{
    WordFault, read_moniker, read_name, read_number, read_path, read_url, text_of,
};
use cm_command::words::{cut, is_same};
use cm_decl::Decl;
use cm_names::{CapPath, Memory, Moniker, Name, Shared, Text};
use cm_read::{ReadFault, read_decl_text};
use cm_world::ActKind;
use std::alloc::Global;

/// Why a line of a journal isn't read as an entry.
#[derive(Clone, Copy, Debug)]
pub enum EntryFault {
    /// It is in the grammar of no entry.
    NotAnEntry,
    /// Memory ran out.
    Memory,
}

impl From<Memory> for EntryFault {
    ghost use Rattle.std.specs.Prelude.{◌≡◌};
    ghost use Rattle.cm_reply.specs.declared.entry_words.EntryFault.TheVariants.{Memory as OutOfMemory};

    ghost from_gives = { λ _ e. e ≡ OutOfMemory };

    /// For `?` after a call that lacked memory.
    fn from(_: Memory) -> EntryFault {
        EntryFault::Memory
    }
}

/// The fault of a line whose word has that fault.
fn fault_of(fault: WordFault) -> EntryFault
    ensures { result ≡ spec.fault_of fault }
{
    match fault {
        WordFault::Bad(_prefixes) => EntryFault::NotAnEntry,
        WordFault::Memory => EntryFault::Memory,
    }
}

/// The number that the word is.
pub fn number(word: &[u8]) -> Result<u64, EntryFault>
    ensures small { IfOk result (λ n. n < 2 ^ 64) }
    ensures finds { (n : ℕ) → n < 2 ^ 64 → word.now ≡ decimal n → IsOr result n }
{
    match read_number(word) {
        Ok(number) => Ok(number),
        Err(fault) => Err(fault_of(fault)),
    }
}

/// The number, if it has 32 bits.
pub fn short(number: u64) -> Result<u32, EntryFault>
    ensures { (n : ℕ) → n < 2 ^ 32 → number ≡ n → IsOr result n }
{
    match u32::try_from(number) {
        Ok(short) => Ok(short),
        Err(_) => Err(EntryFault::NotAnEntry),
    }
}

/// The number, if it has 8 bits.
pub fn byte(number: u64) -> Result<u8, EntryFault>
    ensures { (n : ℕ) → n < 2 ^ 8 → number ≡ n → IsOr result n }
{
    match u8::try_from(number) {
        Ok(byte) => Ok(byte),
        Err(_) => Err(EntryFault::NotAnEntry),
    }
}

/// The number of 32 bits that the word is.
pub fn short_number(word: &[u8]) -> Result<u32, EntryFault>
    ensures small { IfOk result (λ n. n < 2 ^ 32) }
    ensures finds { (n : ℕ) → n < 2 ^ 32 → word.now ≡ decimal n → IsOr result n }
{
    match number(word) {
        Ok(number) => short(number),
        Err(fault) => Err(fault),
    }
}

/// The number before the first space, and what stands after it.
pub fn numbered(rest: &[u8]) -> Result<(u64, &[u8]), EntryFault>
    ensures small { IfOk result (λ r. r.0 < 2 ^ 64) }
    ensures finds { (n : ℕ) (more : Seq ℕ) → n < 2 ^ 64 → rest.now ≡ decimal n ++ 32 ∷ more →
        MatchResult result (λ r. (r.0 ≡ n) × (r.1.now ≡ more)) (λ e. e ≡ EntryFault.Memory) }
{
    let (digits, more) = cut(rest, b' ');
    let Some(more) = more else {
        return Err(EntryFault::NotAnEntry);
    };
    match number(digits) {
        Ok(number) => Ok((number, more)),
        Err(fault) => Err(fault),
    }
}

/// The path that the word is.
fn path(alloc: Global, word: &[u8]) -> Result<CapPath, EntryFault>
    ensures path { IfOk result (λ path. IsTrue (is_path path)) }
    ensures finds { (t : Seq ℕ) → IsTrue (is_path t) → word.now ≡ t → IsOr result t }
{
    match read_path(alloc, word) {
        Ok(path) => Ok(path),
        Err(fault) => Err(fault_of(fault)),
    }
}

/// A number, and the path after it.
pub fn numbered_path(alloc: Global, rest: &[u8]) -> Result<(u64, CapPath), EntryFault>
    ensures small { IfOk result (λ r. r.0 < 2 ^ 64) }
    ensures path { IfOk result (λ r. IsTrue (is_path r.1)) }
    ensures finds { (n : ℕ) (t : Seq ℕ) → n < 2 ^ 64 → IsTrue (is_path t) →
        rest.now ≡ events.numbered n t → IsOr result (n, t) }
{
    let (number, more) = match numbered(rest) {
        Ok(both) => both,
        Err(fault) => return Err(fault),
    };
    match path(alloc, more) {
        Ok(path) => Ok((number, path)),
        Err(fault) => Err(fault),
    }
}

/// The name that the word is.
pub fn name(alloc: Global, word: &[u8]) -> Result<Name, EntryFault>
    ensures name { IfOk result IsName }
    ensures finds { (t : Seq ℕ) → IsName t → word.now ≡ t → IsOr result t }
{
    match read_name(alloc, word) {
        Ok(name) => Ok(name),
        Err(fault) => Err(fault_of(fault)),
    }
}

/// A number, and the name after it.
pub fn numbered_name(alloc: Global, rest: &[u8]) -> Result<(u64, Name), EntryFault>
    ensures small { IfOk result (λ r. r.0 < 2 ^ 64) }
    ensures name { IfOk result (λ r. IsName r.1) }
    ensures finds { (n : ℕ) (t : Seq ℕ) → n < 2 ^ 64 → IsName t →
        rest.now ≡ events.numbered n t → IsOr result (n, t) }
{
    let (number, more) = match numbered(rest) {
        Ok(both) => both,
        Err(fault) => return Err(fault),
    };
    match name(alloc, more) {
        Ok(name) => Ok((number, name)),
        Err(fault) => Err(fault),
    }
}

/// The moniker that the word is.
pub fn moniker(alloc: Global, word: &[u8]) -> Result<Moniker, EntryFault>
    ensures target { IfOk result (λ moniker. IsTarget (Named moniker)) }
    ensures finds { (m : OneMoniker) → IsTarget (Named m) → word.now ≡ moniker_text m →
        IsOr result m }
{
    match read_moniker(alloc, word) {
        Ok(moniker) => Ok(moniker),
        Err(fault) => Err(fault_of(fault)),
    }
}

/// The URL that the word is.
pub fn url(alloc: Global, word: &[u8]) -> Result<Text, EntryFault>
    ensures url { IfOk result IsUrlText }
    ensures finds { (t : Seq ℕ) → IsUrlText t → word.now ≡ t → IsOr result t }
{
    match read_url(alloc, word) {
        Ok(url) => Ok(url),
        Err(fault) => Err(fault_of(fault)),
    }
}

/// The fault of a line whose declaration has that fault.
fn decl_fault(fault: ReadFault) -> EntryFault
    ensures { result ≡ spec.decl_fault fault }
{
    match fault {
        ReadFault::Memory => EntryFault::Memory,
        other => {
            drop(other);
            EntryFault::NotAnEntry
        }
    }
}

/// The declaration that a text of a journal's line is read as, or the line's fault.
pub fn decl(alloc: Global, text: &[u8]) -> Result<Shared<Decl>, EntryFault>
    ensures readable { IfOk result IsReadable }
    ensures finds { (d : OneDecl) → IsReadable d → text.now ≡ decl_text d → IsOr result d }
{
    let Some(text) = text_of(text) else {
        return Err(EntryFault::NotAnEntry);
    };
    match read_decl_text(alloc, text) {
        Ok(decl) => Ok(Shared::new(alloc, decl)?),
        Err(fault) => Err(decl_fault(fault)),
    }
}

/// The action that the word names.
pub fn kind_of(word: &[u8]) -> Result<ActKind, EntryFault>
    ensures { (kind : OneKind) → word.now ≡ states.act_word kind → IsOr result kind }
{
    if is_same(word, "resolve") {
        return Ok(ActKind::Resolve);
    }
    if is_same(word, "start") {
        return Ok(ActKind::Start);
    }
    if is_same(word, "stop") {
        return Ok(ActKind::Stop);
    }
    Err(EntryFault::NotAnEntry)
}

/// What the word marks an instance for: whether to be destroyed.
pub fn mark_of(word: &[u8]) -> Result<bool, EntryFault>
    ensures { (doomed : Bool) → word.now ≡ mark_word doomed → IsOr result doomed }
{
    if is_same(word, "doomed") {
        return Ok(true);
    }
    if is_same(word, "closing") {
        return Ok(false);
    }
    Err(EntryFault::NotAnEntry)
}
