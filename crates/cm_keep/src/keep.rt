//! The journal, piece by piece.

ghost use Rattle.std.specs.Prelude.{◌≡◌, ◌⊎◌, [], IfOk, OnErr, OnOk, string_bytes};
ghost use Rattle.std.specs.Io.KnownBytes.{Appends};
ghost use Rattle.cm_reply.specs.Journal as journal;
ghost use Rattle.cm_reply.specs.ListsInside.{GainsText};
ghost use Rattle.cm_keep.specs.Asked.{Asks, AsksOneOf, failed_keeping, letting_go, placing};
ghost use Rattle.cm_keep.specs.Keeping.{Caused, IsKept, IsLeft, Passes, kept_text, rooted};

use crate::TextKeeper;
use cm_names::{List, Memory, Text};
use cm_reply::{header_text, push_entry};
use cm_world::{Entry, Frame, Limits};
use std::alloc::Global;

/// Why a journal isn't kept.
#[derive(Debug, Clone, Copy, PartialEq, Eq)]
pub enum KeepFault {
    /// The keeper failed; its count of faults rose.
    Failed,
    /// Memory ran out.
    Memory,
}

/// How many bytes of lines are held back at most, but for the last line, before they are handed over.
const PIECE: usize = 65_536;

/// A journal tells no limits.
const UNTOLD: Limits = Limits {
    rows: 0,
    entries: 0,
};

/// The first lines of the journal of a realm of this root, above which nothing stands.
fn head_of(alloc: Global, root: &Text) -> Result<Text, Memory>
    ensures { IfOk result (λ text. text ≡ journal.header_text (rooted root.now)) }
{
    let frame = Frame {
        root: root.clone()?,
        builtins: List::new(alloc),
        limits: UNTOLD,
    };
    header_text(alloc, &frame)
}

/// Puts the line of an entry after the text.
fn push_line(text: &mut String, number: u64, entry: &Entry) -> Result<(), Memory>
    ensures { let line = journal.line (journal.entry_text number entry.now) in
        OnOk result (GainsText text.old text.new line) }
{
    push_entry(text, number, entry)?;
    text.push_str("\n")?;
    Ok(())
}

/// Hands over what is held back.
fn hand_over<P: TextKeeper>(keeper: &mut P, held: &mut String) -> Result<(), KeepFault>
    requires pending { P.pending keeper.old }
    ensures pending { P.pending keeper.new }
    ensures handed { OnOk result
        (Appends (P.draft keeper.old) (P.draft keeper.new) (string_bytes held.old)) }
    ensures empty { OnOk result (string_bytes held.new ≡ []) }
    ensures shown { P.shown keeper.new ≡ P.shown keeper.old }
    ensures names { P.names keeper.new ≡ P.names keeper.old }
    ensures asked { P.asked keeper.new ≡ P.asked keeper.old }
    ensures cause { Caused (P.faults keeper.old) (P.faults keeper.new) result }
{
    if !keeper.put(held.as_str().as_bytes()) {
        return Err(KeepFault::Failed);
    }
    held.clear();
    Ok(())
}

#[tactic(auto, using(crate::proofs::lemmas::Passing::leaves))]
/// Puts the line of an entry after what is held back, and hands that over where it is long enough.
fn keep_entry<P: TextKeeper>(
    keeper: &mut P,
    held: &mut String,
    number: u64,
    entry: &Entry,
) -> Result<(), KeepFault>
    requires pending { P.pending keeper.old }
    ensures pending { P.pending keeper.new }
    ensures passes { OnOk result (Passes (P.draft keeper.old) (P.draft keeper.new)
        (string_bytes held.old) (string_bytes held.new)
        (journal.line (journal.entry_text number entry.now))) }
    ensures shown { P.shown keeper.new ≡ P.shown keeper.old }
    ensures names { P.names keeper.new ≡ P.names keeper.old }
    ensures asked { P.asked keeper.new ≡ P.asked keeper.old }
    ensures cause { Caused (P.faults keeper.old) (P.faults keeper.new) result }
{
    let Ok(()) = push_line(held, number, entry) else {
        return Err(KeepFault::Memory);
    };
    if held.len() < PIECE {
        return Ok(());
    }
    hand_over(keeper, held)
}

/// Hands over the lines of all entries, after what is held back, but for what is still held back then.
fn keep_entries<P: TextKeeper>(
    keeper: &mut P,
    held: &mut String,
    entries: &[Entry],
) -> Result<(), KeepFault>
    requires pending { P.pending keeper.old }
    ensures pending { P.pending keeper.new }
    ensures passes { OnOk result (Passes (P.draft keeper.old) (P.draft keeper.new)
        (string_bytes held.old) (string_bytes held.new) (journal.entries_text 1 entries.now)) }
    ensures shown { P.shown keeper.new ≡ P.shown keeper.old }
    ensures names { P.names keeper.new ≡ P.names keeper.old }
    ensures asked { P.asked keeper.new ≡ P.asked keeper.old }
    ensures cause { Caused (P.faults keeper.old) (P.faults keeper.new) result }
{
    for index in 0..entries.len() {
        if let Err(fault) = keep_entry(keeper, held, index as u64 + 1, &entries[index]) {
            return Err(fault);
        }
    }
    Ok(())
}

/// Hands over the whole journal. Nothing of it stands in its place yet.
fn hand_journal<P: TextKeeper>(
    alloc: Global,
    keeper: &mut P,
    root: &Text,
    entries: &[Entry],
) -> Result<(), KeepFault>
    requires pending { P.pending keeper.old }
    ensures pending { P.pending keeper.new }
    ensures handed { OnOk result
        (Appends (P.draft keeper.old) (P.draft keeper.new) (kept_text root.now entries.now)) }
    ensures shown { P.shown keeper.new ≡ P.shown keeper.old }
    ensures names { P.names keeper.new ≡ P.names keeper.old }
    ensures asked { P.asked keeper.new ≡ P.asked keeper.old }
    ensures cause { Caused (P.faults keeper.old) (P.faults keeper.new) result }
{
    let Ok(head) = head_of(alloc, root) else {
        return Err(KeepFault::Memory);
    };
    let Ok(mut held) = head.into_string() else {
        return Err(KeepFault::Memory);
    };
    if let Err(fault) = keep_entries(keeper, &mut held, entries) {
        return Err(fault);
    }
    if let Err(fault) = hand_over(keeper, &mut held) {
        return Err(fault);
    }
    Ok(())
}

#[tactic(auto, using(crate::proofs::lemmas::Passing::held_whole))]
/// Keeps the journal of a realm of this root, above which nothing stood: hands it over in pieces, and has
/// it put into its place.
///
/// At `Ok` all of it stands there. At an `Err` what stood there before still does, and what was handed
/// over is let go, unless it is the whole text, which couldn't be put into its place. It takes memory for
/// one piece and one line.
pub fn keep_journal<P: TextKeeper>(
    alloc: Global,
    keeper: &mut P,
    root: &Text,
    entries: &[Entry],
) -> Result<(), KeepFault>
    requires pending { P.pending keeper.old }
    ensures kept { OnOk result (IsKept (P.draft keeper.old) (P.shown keeper.old) (P.shown keeper.new)
        (P.placed keeper.new) (kept_text root.now entries.now)) }
    ensures names { P.names keeper.new ≡ P.names keeper.old }
    ensures asked { OnOk result
        (Asks (P.asked keeper.old) (P.asked keeper.new) (placing (P.names keeper.old))) }
    ensures unkept { OnErr result
        (AsksOneOf (P.asked keeper.old) (P.asked keeper.new) (failed_keeping (P.names keeper.old))) }
    ensures whole { OnErr result (P.whole keeper.new
        ⊎ AsksOneOf (P.asked keeper.old) (P.asked keeper.new) (letting_go (P.names keeper.old))) }
    ensures nothing { OnErr result (P.shown keeper.new ≡ P.shown keeper.old) }
    ensures left { IsLeft (P.cleared keeper.new) (P.draft keeper.old) (P.draft keeper.new)
        (kept_text root.now entries.now) result }
    ensures cause { Caused (P.faults keeper.old) (P.faults keeper.new) result }
{
    if let Err(fault) = hand_journal(alloc, keeper, root, entries) {
        keeper.give_up();
        return Err(fault);
    }
    if keeper.show() {
        Ok(())
    } else {
        Err(KeepFault::Failed)
    }
}
