//! Reading the lines of a journal.

ghost use Rattle.std.specs.Prelude.{◌≡◌, ◌≢◌, ◌++◌, ℕ, List as Seq, string_bytes, IfOk, IfErr, MatchOption};
ghost use Rattle.cm_reply.specs.Lines as lines;
ghost use Rattle.cm_reply.specs.Lines.{IsEntryLine};
ghost use Rattle.cm_reply.specs.LinesInside.{IsCutAtLast, IsSomeEntryLine};
ghost use Rattle.cm_reply.specs.Reading.{FindsEntry, IsAsked, text_of_asked};

use crate::entry_words::EntryFault;
use crate::events::push_event;
use crate::lists::{push_value, roomy};
use crate::reading::{Asked, read_prefix};
use cm_command::tokens::text_of;
use cm_command::words::is_same;
use cm_names::{Memory, Text};
use cm_world::Event;
use memchr::memmem;
use std::alloc::Global;

/// What the line of a journal says.
#[derive(Drop)]
pub struct JournalLine {
    /// The number of the entry.
    pub number: u64,
    /// The number of the caller.
    pub caller: u32,
    /// The event.
    pub event: Event,
    /// The text of the reply, which may be any text.
    pub reply: Text,
}

/// What stands before the last arrow of a line and after it; `None` where there is no arrow.
fn cut_at_arrow(line: &[u8]) -> Option<(&[u8], &[u8])>
    ensures { MatchOption result ((prefix rest : Seq ℕ) → line.now ≡ prefix ++ (lines.arrow ++ rest) → ⊥)
        (λ parts. IsCutAtLast line.now parts.0.now parts.1.now) }
{
    let Some(place) = memmem::rfind(line, " => ".as_bytes()) else {
        return None;
    };
    Some((&line[..place], &line[place + 4..]))
}

/// The text of what stands before an arrow.
fn asked_text(alloc: Global, asked: &Asked) -> Result<String, Memory>
    ensures { IfOk result (λ text. string_bytes text ≡ text_of_asked asked.now) }
{
    let number = asked.number;
    let caller = asked.caller;
    let mut text = roomy(alloc)?;
    push_value(&mut text, format_args!("{number} {caller} "))?;
    push_event(&mut text, &asked.event)?;
    Ok(text)
}

/// The number, the caller and the event that the text is of: what it may be of is written again and
/// compared.
fn read_asked(alloc: Global, text: &[u8]) -> Result<Asked, EntryFault>
    ensures { IsAsked text.now result }
{
    let found = match read_prefix(alloc, text) {
        Ok(found) => found,
        Err(fault) => return Err(fault),
    };
    let Ok(written) = asked_text(alloc, &found) else {
        drop(found);
        return Err(EntryFault::Memory);
    };
    if !is_same(text, written.as_str()) {
        drop(found);
        return Err(EntryFault::NotAnEntry);
    }
    Ok(found)
}

/// The entry that the line of a journal tells of, without its line feed: what
/// [`entry_text`](crate::entry_text) writes is read back, but for the reply, of which the text is
/// given.
///
/// The line is a number of 64 bits, a caller of 32, an event as [`entry_text`](crate::entry_text)
/// writes it, the last ` => ` of the line, and any text. Names, monikers, paths, URLs, offers and
/// the declaration have to be in their grammars. Nothing may be written in another way: no needless
/// zero, no slash before a moniker, no default of an offer, no space in a declaration.
///
/// - `NotAnEntry` exactly where the line isn't so;
/// - `Memory` where memory runs out, and for a creation whose line has more than 4,294,967,287 bytes
///   after the word `create`.
///
/// It takes time and memory in proportion to the line. The journal is this project's own.
pub fn read_entry(alloc: Global, line: &[u8]) -> Result<JournalLine, EntryFault>
    ensures ok { IfOk result (λ l. IsEntryLine line.now l.number l.caller l.event l.reply) }
    ensures finds { FindsEntry line.now result }
    ensures fault { IfErr result (λ e. e ≢ EntryFault.Memory → IsSomeEntryLine line.now → ⊥) }
{
    let Some((prefix, rest)) = cut_at_arrow(line) else {
        return Err(EntryFault::NotAnEntry);
    };
    let Some(reply) = text_of(rest) else {
        return Err(EntryFault::NotAnEntry);
    };
    let reply = Text::from_str(alloc, reply)?;
    match read_asked(alloc, prefix) {
        Ok(
            Asked {
                number,
                caller,
                event,
            },
        ) => Ok(JournalLine {
            number,
            caller,
            event,
            reply,
        }),
        Err(fault) => {
            drop(reply);
            Err(fault)
        }
    }
}
