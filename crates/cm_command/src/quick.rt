//! Lines of a verb, a target and one word more at most: they are read without the machine's loop,
//! which judges all others, and those that ask for nothing.

ghost use Rattle.std.specs.Prelude.{IfOk, IfSome};
ghost use Rattle.cm_command.specs.declared.place.LineState.TheVariants as place;
ghost use Rattle.cm_command.specs.declared.place.ParsedLine.TheVariants as sentence;
ghost use Rattle.cm_command.specs.Grammar.{CommandText};
ghost use Rattle.cm_command.specs.Places.{EndsLine, LeadsTo};

use crate::Command;
use crate::place::{LineState, ParsedLine, Verb};
use crate::step::{step, take_target, verb_of};
use crate::tokens::WordFault;
use crate::words::cut;
use cm_names::Memory;
use std::alloc::Global;

/// The command of a line that ends at the place, if the words before it are the whole of one.
fn said_at(at: LineState) -> Option<Command>
    ensures { IfSome result (λ command. EndsLine at (sentence.Command command)) }
{
    match at {
        LineState::Whole(ParsedLine::Command(command)) => Some(command),
        other => {
            drop(other);
            None
        }
    }
}

/// The command that one word says from the place on, if it is the last one and leads to a whole
/// command.
fn by_last_word(alloc: Global, at: LineState, rest: &[u8]) -> Result<Option<Command>, Memory>
    ensures { IfOk result (λ found. IfSome found (LeadsTo at rest.now)) }
{
    let (word, further) = cut(rest, b' ');
    match further {
        None => match step(alloc, at, word) {
            Ok(next) => Ok(said_at(next)),
            Err(WordFault::Bad(_)) => Ok(None),
            Err(WordFault::Memory) => Err(Memory),
        },
        Some(_more) => {
            drop(at);
            Ok(None)
        }
    }
}

/// The command of a verb and what stands after the space after it, if it is quickly read.
fn behind_verb(alloc: Global, verb: Verb, rest: &[u8]) -> Result<Option<Command>, Memory>
    ensures { IfOk result (λ found. IfSome found (LeadsTo (place.Verb verb) rest.now)) }
{
    let (word, further) = cut(rest, b' ');
    let next = match take_target(alloc, verb, word) {
        Ok(next) => next,
        Err(WordFault::Bad(_)) => return Ok(None),
        Err(WordFault::Memory) => return Err(Memory),
    };
    match further {
        None => Ok(said_at(next)),
        Some(more) => by_last_word(alloc, next, more),
    }
}

/// The command that the line asks for, where it is a verb, a target and one word more at most.
/// `None` says nothing of the line.
pub fn quick_command(alloc: Global, line: &[u8]) -> Result<Option<Command>, Memory>
    ensures { IfOk result (λ found. IfSome found (CommandText line.now)) }
{
    let (word, further) = cut(line, b' ');
    let Some(rest) = further else {
        return Ok(None);
    };
    match verb_of(word) {
        None | Some(Verb::Create) => Ok(None),
        Some(verb) => behind_verb(alloc, verb, rest),
    }
}
