//! What the beginner of an action reports, as a journal has it.

ghost use Rattle.std.specs.Prelude.{◌≡◌, ◌<◌, ◌^◌, ◌++◌, ℕ, List as Seq, codes, decimal, Some, IfOk};
ghost use Rattle.std.specs.Prelude.{IfSome};
ghost use Rattle.cm_decl.specs.declared.decl.Decl.{Decl as OneDecl};
ghost use Rattle.cm_decl.specs.Words.{section_word};
ghost use Rattle.cm_decl.specs.declared.section.Section.{Section as OneSection};
ghost use Rattle.cm_world.specs.declared.action.FaultNote.{FaultNote as OneNote};
ghost use Rattle.cm_read.specs.Writing.{decl_text};
ghost use Rattle.cm_world.specs.declared.action.Finish.{Finish as OneFinish};
ghost use Rattle.cm_world.specs.declared.action.Finish.TheVariants as reported;
ghost use Rattle.cm_world.specs.declared.action.Outcome.{Outcome as OneOutcome};
ghost use Rattle.cm_reply.specs.States as states;
ghost use Rattle.cm_reply.specs.Events as events;
ghost use Rattle.cm_reply.specs.Legible.{IsLegibleFinish, IsLegibleNote, IsLegibleOutcome};
ghost use Rattle.cm_reply.specs.Reading as spec;
ghost use Rattle.cm_reply.specs.Reading.{IsOr};

use crate::entry_words::{EntryFault, byte, decl, numbered, short_number, url};
use cm_command::tokens::text_of;
use cm_command::words::{cut, strip};
use cm_decl::Section;
use cm_world::{FaultNote, Finish, Outcome};
use std::alloc::Global;

/// What the text after `end ACTION ` reports: an outcome, or `resolved URL DECLARATION`.
pub fn finish(alloc: Global, text: &[u8]) -> Result<Finish, EntryFault>
    ensures legible { IfOk result IsLegibleFinish }
    ensures finds { (f : OneFinish) → IsLegibleFinish f → text.now ≡ events.finish_text f →
        IsOr result f }
{
    match strip(text, "resolved ") {
        Some(found) => resolved(alloc, found),
        None => match outcome(text) {
            Ok(outcome) => Ok(Finish::Other(outcome)),
            Err(fault) => Err(fault),
        },
    }
}

/// A URL, and the declaration after it.
fn resolved(alloc: Global, text: &[u8]) -> Result<Finish, EntryFault>
    ensures legible { IfOk result IsLegibleFinish }
    ensures finds { (t : Seq ℕ) (d : OneDecl) → IsLegibleFinish (reported.Resolved t d) →
        text.now ≡ t ++ (codes " " ++ decl_text d) → IsOr result (reported.Resolved t d) }
{
    let (word, more) = cut(text, b' ');
    let Some(more) = more else {
        return Err(EntryFault::NotAnEntry);
    };
    let url = match url(alloc, word) {
        Ok(url) => url,
        Err(fault) => return Err(fault),
    };
    match decl(alloc, more) {
        Ok(decl) => Ok(Finish::Resolved(url, decl)),
        Err(fault) => Err(fault),
    }
}

/// What became of an action: a word, or `invalid NUMBER SECTION INDEX`.
fn outcome(text: &[u8]) -> Result<Outcome, EntryFault>
    ensures legible { IfOk result IsLegibleOutcome }
    ensures finds { (o : OneOutcome) → IsLegibleOutcome o → text.now ≡ states.outcome_text o →
        IsOr result o }
{
    match strip(text, "invalid ") {
        Some(fault) => match note(fault) {
            Ok(note) => Ok(Outcome::Invalid(note)),
            Err(fault) => Err(fault),
        },
        None => match plain_outcome(text) {
            Some(outcome) => Ok(outcome),
            None => Err(EntryFault::NotAnEntry),
        },
    }
}

/// The outcome that the word is, which has no fault with it.
fn plain_outcome(word: &[u8]) -> Option<Outcome>
    ensures legible { IfSome result IsLegibleOutcome }
    ensures finds { (o : OneOutcome) → spec.IsPlain o → word.now ≡ states.outcome_text o →
        result ≡ Some o }
{
    match text_of(word) {
        Some(text) => outcome_named(text),
        None => None,
    }
}

/// The outcome of an action that is written as this word, if there is one.
fn outcome_named(word: &str) -> Option<Outcome>
    ensures named { result ≡ spec.outcome_named word.now }
    ensures legible { IfSome result IsLegibleOutcome }
{
    match word {
        "resolved" => Some(Outcome::Resolved),
        "started" => Some(Outcome::Started),
        "stopped" => Some(Outcome::Stopped),
        "killed" => Some(Outcome::Killed),
        "absent" => Some(Outcome::Absent),
        "bad-url" => Some(Outcome::BadUrl),
        "declined" => Some(Outcome::Declined),
        "gate-failed" => Some(Outcome::GateFailed),
        "full" => Some(Outcome::Full),
        "no-memory" => Some(Outcome::NoMemory),
        _ => None,
    }
}

/// The fault of a manifest, after `invalid `: its number, its section and its index.
fn note(text: &[u8]) -> Result<FaultNote, EntryFault>
    ensures legible { IfOk result IsLegibleNote }
    ensures finds { (n : OneNote) → IsLegibleNote n → text.now ≡ spec.note_words n →
        IsOr result n }
{
    let (first, more) = match numbered(text) {
        Ok(both) => both,
        Err(fault) => return Err(fault),
    };
    let number = match byte(first) {
        Ok(number) => number,
        Err(fault) => return Err(fault),
    };
    match place(more) {
        Ok((section, index)) => Ok(FaultNote {
            number,
            section,
            index,
        }),
        Err(fault) => Err(fault),
    }
}

/// A section, and an index after it.
fn place(text: &[u8]) -> Result<(Section, u32), EntryFault>
    ensures small { IfOk result (λ place. place.1 < 2 ^ 32) }
    ensures finds { (s : OneSection) (n : ℕ) → n < 2 ^ 32 →
        text.now ≡ section_word s ++ (codes " " ++ decimal n) → IsOr result (s, n) }
{
    let (word, last) = cut(text, b' ');
    let Some(last) = last else {
        return Err(EntryFault::NotAnEntry);
    };
    let Some(section) = section_of(word) else {
        return Err(EntryFault::NotAnEntry);
    };
    match short_number(last) {
        Ok(index) => Ok((section, index)),
        Err(fault) => Err(fault),
    }
}

/// The section that the word is.
fn section_of(word: &[u8]) -> Option<Section>
    ensures { (s : OneSection) → word.now ≡ section_word s → result ≡ Some s }
{
    match text_of(word) {
        Some(text) => section_named(text),
        None => None,
    }
}

/// The section of a manifest that faults tell by this word, if there is one.
fn section_named(word: &str) -> Option<Section>
    ensures { result ≡ spec.section_named word.now }
{
    match word {
        "manifest" => Some(Section::Manifest),
        "program" => Some(Section::Program),
        "children" => Some(Section::Children),
        "collections" => Some(Section::Collections),
        "capabilities" => Some(Section::Capabilities),
        "use" => Some(Section::Uses),
        "offer" => Some(Section::Offers),
        "expose" => Some(Section::Exposes),
        "environments" => Some(Section::Environments),
        "graph" => Some(Section::Graph),
        _ => None,
    }
}
