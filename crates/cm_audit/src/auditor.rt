//! The audit of a journal as a whole.

ghost use Rattle.std.specs.Prelude.{◌≢◌, Err, IfOk, IfErr, IsOk};
ghost use Rattle.cm_audit.specs.Reading.{HasNoJournal, IsStop};
ghost use Rattle.cm_audit.specs.Verdict.{IsVerdict};

use crate::entries::audit_entries;
use crate::fault::{ReadingStop, bad_text};
use crate::head::{AfterRoot, find_journal, read_head};
use crate::verdict::Audit;
use cm_names::{List, Memory};
use cm_steps::Realm;
use cm_world::Limits;
use std::alloc::Global;

/// What the realm may hold on which the entries are made again: as many instances as that of every
/// run, and more entries than a journal has room for.
const LIMITS: Limits = Limits {
    rows: 65_536,
    entries: u64::MAX,
};

/// The verdict on a journal.
///
/// Lines are parted by 0x0A, which ends the last one too or doesn't. All lines before the first
/// line `journal` are skipped, so that what `run --journal` writes can be audited as it is. Then come
/// lines of builtin capabilities as [`cm_reply::header_text`] writes them, the line `root URL`, and
/// entries as [`cm_reply::entry_text`] writes them; the last ` => ` of a line parts its event from its
/// reply. An entry is legal where its number is the next, from 1 on, its event is one that its caller
/// may make then, and its reply is the text of one that the event may get. For an event `pick` this is
/// each instance that may stop, whichever the realm itself would take.
///
/// What comes first decides: an entry that isn't legal, or a line that isn't in the grammar, among
/// them the one that ends after 268,435,456 bytes. [`Audit`] says what is told of it. Which events a
/// caller may make, and what they come to, is this project's own model of Fuchsia's component manager
/// (`cm_world`).
///
/// `Err` where memory runs out, which takes a line `journal`. It reads the bytes once, and keeps the
/// entries until its end.
pub fn audit(alloc: Global, text: &[u8]) -> Result<Audit, Memory>
    ensures verdict { IfOk result (λ verdict. IsVerdict text.now verdict) }
    ensures free { HasNoJournal text.now → IsOk result }
{
    match audited(alloc, text) {
        Ok(verdict) => Ok(verdict),
        Err(ReadingStop::Verdict(verdict)) => Ok(verdict),
        Err(ReadingStop::Memory) => Err(Memory),
    }
}

/// The verdict where all lines were read, or why the reading ended before.
fn audited(alloc: Global, text: &[u8]) -> Result<Audit, ReadingStop>
    ensures verdict { IfOk result (λ verdict. IsVerdict text.now verdict) }
    ensures stop { IfErr result (λ stop. IsStop text.now stop) }
    ensures free { HasNoJournal text.now → result ≢ Err ReadingStop.Memory }
{
    let begun = match find_journal(text) {
        Ok(begun) => begun,
        Err(line) => return Err(bad_text(line)),
    };
    let mut builtins = List::new(alloc);
    let head = match read_head(alloc, text, begun.number, begun.rest, &mut builtins) {
        Ok(head) => head,
        Err(stop) => return Err(stop),
    };
    let AfterRoot { number, rest, root } = head;
    let mut realm = Realm::new(alloc, root, builtins, LIMITS)?;
    audit_entries(alloc, text, number, rest, &mut realm)
}
