//! Reading lines.

ghost use Rattle.std.specs.Prelude.{◌≡◌, ◌≢◌, ◌<◌, ◌^◌, length, IfOk, IfErr, MatchResult};
ghost use Rattle.cm_command.specs.Counts.{IsWordFault};
ghost use Rattle.cm_command.specs.Grammar.{BuiltinText, CommandText, IsBuiltinFault, IsCommandFault};
ghost use Rattle.cm_command.specs.Grammar.{LinesReadOneWay};
ghost use Rattle.cm_command.specs.Pieces.{PiecesLead, SaysText};
ghost use Rattle.cm_command.specs.Places.{EndsLine, IsShort, IsUnended, WordLeads, line_fault};
ghost use Rattle.cm_command.specs.Words.{words_of};

use crate::place::{LineState, ParsedLine};
use crate::quick::quick_command;
use crate::step::{end, step};
use crate::tokens::{WordFault, behind};
use crate::words::cut;
use crate::{Command, CommandFault};
use cm_world::Builtin;
use std::alloc::Global;

/// What the line says, read from that place on.
fn read_line(alloc: Global, start: LineState, line: &[u8]) -> Result<ParsedLine, WordFault>
    requires { length line.now < 2 ^ 32 }
    ensures { MatchResult result (λ s. PiecesLead WordLeads EndsLine start (words_of line.now) s)
        (λ e. IsWordFault (SaysText 32 WordLeads EndsLine start) line.now e) }
{
    let mut place = start;
    let mut rest = line;
    let mut prefix = 0;
    'words: loop {
        let (word, further) = cut(rest, b' ');
        let next = match step(alloc, place, word) {
            Ok(next) => next,
            Err(fault) => return Err(behind(prefix, fault)),
        };
        let Some(more) = further else {
            return last(next, line.len());
        };
        place = next;
        prefix = prefix + word.len() + 1;
        rest = more;
    }
}

/// What a line of that length says, whose words lead to that place.
fn last(place: LineState, len: usize) -> Result<ParsedLine, WordFault>
    requires { len < 2 ^ 32 }
    ensures { MatchResult result (λ s. EndsLine place s) (λ e. IsUnended place len e) }
{
    match end(place) {
        Ok(said) => match said {
            Some(sentence) => Ok(sentence),
            None => Err(WordFault::Bad(len + 1)),
        },
        Err(_) => Err(WordFault::Memory),
    }
}

/// The fault of a line whose words have that fault.
fn fault_of(fault: WordFault) -> CommandFault
    requires { IsShort fault }
    ensures { result ≡ line_fault fault }
{
    match fault {
        WordFault::Bad(prefixes) => CommandFault::BadCommand((prefixes - 1) as u32),
        WordFault::Memory => CommandFault::Memory,
    }
}

/// The command that the line asks for, or how it asks for none: it is judged word by word.
fn judge_line(alloc: Global, line: &[u8]) -> Result<Command, CommandFault>
    requires { length line.now < 2 ^ 32 }
    ensures ok { IfOk result (λ command. CommandText line.now command) }
    ensures fault { IfErr result (λ e. e ≢ CommandFault.Memory → IsCommandFault line.now e) }
{
    match read_line(alloc, LineState::Start, line) {
        Ok(sentence) => match sentence {
            ParsedLine::Command(command) => Ok(command),
            ParsedLine::Builtin(_builtin) => unreachable!(),
        },
        Err(fault) => Err(fault_of(fault)),
    }
}

/// The command that the line asks for.
///
/// The words of the line stand with one space between them. `Err(BadCommand(n))` comes where the
/// line is in the grammar of no command: its first n bytes are the longest prefix of it that some
/// command begins with. `Err(Memory)` comes where memory runs out. The grammar is this project's
/// own choice.
pub fn read_command(alloc: Global, line: &[u8]) -> Result<Command, CommandFault>
    requires { length line.now < 2 ^ 32 }
    ensures ok { IfOk result (λ command. CommandText line.now command) }
    ensures fault { IfErr result (λ e. e ≢ CommandFault.Memory → IsCommandFault line.now e) }
{
    if let Some(command) = quick_command(alloc, line)? {
        return Ok(command);
    }
    judge_line(alloc, line)
}

/// The builtin capability that stands after the word `builtin` and a space.
///
/// `Err(BadCommand(n))` comes where the words name none: their first n bytes are the longest prefix
/// of them that such words begin with. `Err(Memory)` comes where memory runs out. The grammar is
/// this project's own choice.
pub fn read_builtin(alloc: Global, words: &[u8]) -> Result<Builtin, CommandFault>
    requires { length words.now < 2 ^ 32 }
    ensures ok { IfOk result (λ builtin. BuiltinText words.now builtin) }
    ensures fault { IfErr result (λ e. e ≢ CommandFault.Memory → IsBuiltinFault words.now e) }
{
    match read_line(alloc, LineState::BuiltinKind, words) {
        Ok(sentence) => match sentence {
            ParsedLine::Builtin(builtin) => Ok(builtin),
            ParsedLine::Command(_command) => unreachable!(),
        },
        Err(fault) => Err(fault_of(fault)),
    }
}

/// Law: a line asks for one command at most.
pub fn reads_one_way()
    ensures { LinesReadOneWay }
{}
