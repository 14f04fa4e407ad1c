//! The entries of a journal.

ghost use Rattle.std.specs.Prelude.{◌≡◌, ◌<◌, ◌≤◌, ◌^◌, ℕ, List as Seq, [], length};
ghost use Rattle.std.specs.Prelude.{IfOk, IfErr, MatchResult};
ghost use Rattle.cm_reply.specs.Lines.{IsEntryLine};
ghost use Rattle.cm_audit.specs.Expected as spec;
ghost use Rattle.cm_audit.specs.Journal.{Reads};
ghost use Rattle.cm_audit.specs.Reading.{IsAt, IsJournalLineFault, IsStop, stage_of};
ghost use Rattle.cm_audit.specs.Verdict.{IsVerdict, journal_limit};

use crate::fault::{JournalLineFault, ReadingStop, bad_text, stop_at};
use crate::judging::judge;
use crate::lines::cut_within;
use crate::verdict::Audit;
use cm_names::{Memory, Text};
use cm_reply::{EntryFault, JournalLine, read_entry};
use cm_steps::Realm;
use std::alloc::Global;

/// Takes the entries that are left of a journal, on a realm that has none yet. `Err` tells of the first
/// line that isn't in the grammar or isn't legal, or that memory ran out.
pub fn audit_entries(
    alloc: Global,
    text: &[u8],
    number: u32,
    rest: &[u8],
    realm: &mut Realm,
) -> Result<Audit, ReadingStop>
    requires begun { IsAt text.now number rest.now (stage_of realm.old) }
    requires none { realm.old.entries ≡ [] }
    ensures verdict { IfOk result (λ verdict. IsVerdict text.now verdict) }
    ensures stop { IfErr result (λ stop. IsStop text.now stop) }
{
    let mut at = number;
    let mut left = rest;
    'lines: while !left.is_empty() {
        let Some(cut) = cut_within(text.len(), left) else {
            return Err(bad_text(at));
        };
        match take_entry(alloc, realm, cut.line) {
            Ok(()) => {}
            Err(fault) => return Err(stop_at(at, fault)),
        }
        at += 1;
        left = cut.behind;
    }
    Ok(Audit::Legal(realm.entries().len() as u64))
}

/// Takes the entry of a line: the realm makes its step, if it is legal. What the realm comes to
/// otherwise is free.
fn take_entry(alloc: Global, realm: &mut Realm, line: &[u8]) -> Result<(), JournalLineFault>
    requires few { length realm.old.entries < 2 ^ 32 }
    requires short { length line.now ≤ journal_limit }
    ensures { MatchResult result
        (λ _. Reads (stage_of realm.old) line.now (stage_of realm.new))
        (λ fault. IsJournalLineFault realm.old line.now fault) }
{
    match read_entry(alloc, line) {
        Ok(entry) => judge_entry(alloc, realm, entry),
        Err(EntryFault::NotAnEntry) => Err(JournalLineFault::Bad),
        Err(EntryFault::Memory) => Err(JournalLineFault::Memory),
    }
}

/// Judges an entry that was read: the realm makes its step, if it is legal.
fn judge_entry(alloc: Global, realm: &mut Realm, entry: JournalLine) -> Result<(), JournalLineFault>
    requires { length realm.old.entries < 2 ^ 32 }
    ensures { (t : Seq ℕ) → IsEntryLine t entry.number entry.caller entry.event entry.reply →
        MatchResult result (λ _. Reads (stage_of realm.old) t (stage_of realm.new))
        (λ fault. IsJournalLineFault realm.old t fault) }
{
    let JournalLine {
        number,
        caller,
        event,
        reply,
    } = entry;
    let next = realm.entries().len() as u64 + 1;
    if number != next {
        let expected = number_text(alloc, next)?;
        return Err(illegal(number, reply, expected));
    }
    match judge(alloc, realm, caller, &event, reply.as_str())? {
        None => Ok(()),
        Some(expected) => Err(illegal(number, reply, expected)),
    }
}

/// The fault of a line that is an entry which isn't legal: its number, its reply's text, and what is
/// expected there.
fn illegal(number: u64, given: Text, expected: Text) -> JournalLineFault
    ensures { result ≡ JournalLineFault.Illegal number given expected }
{
    JournalLineFault::Illegal {
        number,
        given,
        expected,
    }
}

/// What is expected of an entry with another number than the next, which is this.
fn number_text(alloc: Global, next: u64) -> Result<Text, Memory>
    ensures { IfOk result (λ text. text ≡ spec.number_text next) }
{
    let mut text = Text::new(alloc);
    text.push(format_args!("number {next}"))?;
    Ok(text)
}
