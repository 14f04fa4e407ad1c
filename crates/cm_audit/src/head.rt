//! The lines of a journal before its entries.

ghost use Rattle.std.specs.Prelude.{◌≡◌, ◌≤◌, ◌<◌, ◌^◌, ◌++◌, [], length, codes};
ghost use Rattle.std.specs.Prelude.{IfOk, MatchOption, MatchResult};
ghost use Rattle.cm_world.specs.declared.frame.Builtin.{Builtin as TheBuiltin};
ghost use Rattle.cm_command.specs.Words.{IsUrlText};
ghost use Rattle.cm_reply.specs.Journal.{builtin_text as text_of};
ghost use Rattle.cm_reply.specs.Legible.{IsLegibleBuiltin};
ghost use Rattle.cm_audit.specs.Journal.{head, told, frame_of};
ghost use Rattle.cm_audit.specs.Reading.{IsAt, IsHeadLine, IsStop};
ghost use Rattle.cm_audit.specs.Verdict.{HasBadText, journal_limit};

use crate::fault::{ReadingStop, bad_text};
use crate::lines::cut_within;
use cm_command::reader::read_builtin;
use cm_command::tokens::read_url;
use cm_command::words::{is_same, strip};
use cm_command::{CommandFault, WordFault};
use cm_names::{List, Memory, Text};
use cm_reply::builtin_text;
use cm_world::Builtin;
use std::alloc::Global;

/// What a line before the entries says.
#[derive(Drop)]
pub enum HeadLine {
    /// There is this builtin capability.
    Builtin(Builtin),
    /// The root has this URL.
    Root(Text),
    /// Nothing that is in the grammar there.
    Other,
}

/// What is left of a journal, and the number of its first line.
#[derive(Clone, Copy)]
pub struct JournalPlace<'a> {
    /// The number of the first line that is left.
    pub number: u32,
    /// The bytes that are left.
    pub rest: &'a [u8],
}

/// What stands after the line of the root.
#[derive(Drop)]
pub struct AfterRoot<'a> {
    /// The number of the first line that is left.
    pub number: u32,
    /// The bytes that are left.
    pub rest: &'a [u8],
    /// The URL of the root.
    pub root: Text,
}

/// What stands after the first line `journal`. What stands before it is skipped.
///
/// `Err` with the number of the line that passes the limit, or of the one after the last, where none
/// comes. It takes no memory.
pub fn find_journal(text: &[u8]) -> Result<JournalPlace<'_>, u32>
    ensures { MatchResult result
        (λ place. IsAt text.now place.number place.rest.now (head []))
        (λ line. HasBadText text.now line) }
{
    let mut number: u32 = 1;
    let mut rest = text;
    'lines: while !rest.is_empty() {
        let Some(cut) = cut_within(text.len(), rest) else {
            return Err(number);
        };
        number += 1;
        rest = cut.behind;
        if is_same(cut.line, "journal") {
            return Ok(JournalPlace { number, rest });
        }
    }
    Err(number)
}

/// Takes the lines of the builtin capabilities and that of the root, which stand after the line
/// `journal`. The capabilities are put into a list that is empty before.
///
/// That a capability is there twice is no fault: the first one is found by its name then.
pub fn read_head<'a>(
    alloc: Global,
    text: &'a [u8],
    number: u32,
    rest: &'a [u8],
    builtins: &mut List<Builtin>,
) -> Result<AfterRoot<'a>, ReadingStop>
    requires begun { IsAt text.now number rest.now (head []) }
    requires none { builtins.old ≡ [] }
    ensures { MatchResult result
        (λ begun. IsAt text.now begun.number begun.rest.now
        (told (frame_of builtins.new begun.root) []))
        (λ stop. IsStop text.now stop) }
{
    let mut at = number;
    let mut left = rest;
    'lines: while !left.is_empty() {
        let Some(cut) = cut_within(text.len(), left) else {
            return Err(bad_text(at));
        };
        match read_head_line(alloc, cut.line)? {
            HeadLine::Builtin(builtin) => builtins.push(builtin)?,
            HeadLine::Root(root) => {
                return Ok(AfterRoot {
                    number: at + 1,
                    rest: cut.behind,
                    root,
                });
            }
            HeadLine::Other => return Err(bad_text(at)),
        }
        at += 1;
        left = cut.behind;
    }
    Err(bad_text(at))
}

/// What a line before the entries says. `Err` where memory runs out.
fn read_head_line(alloc: Global, line: &[u8]) -> Result<HeadLine, Memory>
    requires { length line.now ≤ journal_limit }
    ensures { IfOk result (λ said. IsHeadLine line.now said) }
{
    if let Some(words) = strip(line, "builtin ") {
        return match read_builtin_line(alloc, line, words)? {
            Some(builtin) => Ok(HeadLine::Builtin(builtin)),
            None => Ok(HeadLine::Other),
        };
    }
    if let Some(url) = strip(line, "root ") {
        return match read_root(alloc, url)? {
            Some(url) => Ok(HeadLine::Root(url)),
            None => Ok(HeadLine::Other),
        };
    }
    Ok(HeadLine::Other)
}

/// The URL that stands after the word `root`. `Err` where memory runs out.
fn read_root(alloc: Global, url: &[u8]) -> Result<Option<Text>, Memory>
    ensures { IfOk result (λ found. MatchOption found (IsUrlText url.now → ⊥)
        (λ text. (text ≡ url.now) × IsUrlText url.now)) }
{
    match read_url(alloc, url) {
        Ok(url) => Ok(Some(url)),
        Err(WordFault::Bad(_)) => Ok(None),
        Err(WordFault::Memory) => Err(Memory),
    }
}

/// The builtin capability of a line that begins with the word `builtin`, where it is written as a
/// journal has it: with the names of single rights, each once and in their order. `Err` where memory
/// runs out.
fn read_builtin_line(alloc: Global, line: &[u8], words: &[u8]) -> Result<Option<Builtin>, Memory>
    requires short { length words.now < 2 ^ 32 }
    requires words { line.now ≡ codes "builtin " ++ words.now }
    ensures { IfOk result (λ found. MatchOption found
        ((b : TheBuiltin) → IsLegibleBuiltin b → line.now ≡ text_of b → ⊥)
        (λ b. IsLegibleBuiltin b × (line.now ≡ text_of b))) }
{
    match read_builtin(alloc, words) {
        Ok(builtin) => {
            let text = builtin_text(alloc, &builtin)?;
            if line == text.as_str().as_bytes() {
                Ok(Some(builtin))
            } else {
                Ok(None)
            }
        }
        Err(CommandFault::BadCommand(_)) => Ok(None),
        Err(CommandFault::Memory) => Err(Memory),
    }
}
