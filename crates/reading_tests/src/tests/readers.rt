//! Readers of texts, each as a function from a text to what it makes of it, as a text. They give
//! nothing where a case can't be read, or where memory runs out.

use super::rights::rights;
use super::{repositories, values};
use cm_command::{Command, CommandFault, read_command, read_moniker, read_number, write_command};
use cm_names::{CapPath, Moniker, Name, SubDir, Text};
use cm_text::to_json;
use std::alloc::Global;
use std::fmt;

/// What the reader of that word tells of a text. A fault that has no text of its own is told as
/// `fault`, and its value after that.
pub fn told(alloc: Global, reader: &str, input: &str) -> Option<Text> {
    match reader {
        "subdir" => subdir(alloc, input),
        "rights" => rights(alloc, input),
        "blocks" => repositories::blocks(alloc, input),
        "number-word" => number_word(alloc, input.as_bytes()),
        "moniker-word" => moniker_word(alloc, input.as_bytes()),
        "many" => many(alloc, input),
        _ => told_of_values(alloc, reader, input),
    }
}

/// What the readers of several values tell.
fn told_of_values(alloc: Global, reader: &str, input: &str) -> Option<Text> {
    match reader {
        "below" => values::below(alloc, input),
        "child-of" => values::child_of(alloc, input),
        "is-root" => values::is_root(alloc, input),
        _ => told_of_large(alloc, reader, input),
    }
}

/// What the readers that know large texts tell.
fn told_of_large(alloc: Global, reader: &str, input: &str) -> Option<Text> {
    match reader {
        "name" => name(alloc, input),
        "path" => path(alloc, input),
        "moniker" => moniker(alloc, input),
        "json" => json(alloc, input),
        "url" => repositories::url(alloc, input),
        "block" => repositories::block(alloc, input),
        "command" => command(alloc, input.as_bytes()),
        _ => None,
    }
}

/// A fault, as its type writes it for debugging; `None` where memory runs out.
pub fn fault<D: fmt::Debug + Drop>(alloc: Global, fault: D) -> Option<Text> {
    let mut text = Text::new(alloc);
    text.push(format_args!("fault {fault:?}")).ok()?;
    Some(text)
}

/// A value, as it is written.
pub fn shown<D: fmt::Display + Drop>(alloc: Global, value: D) -> Option<Text> {
    let mut text = Text::new(alloc);
    text.push(value).ok()?;
    Some(text)
}

/// A name, as its copy is written.
fn name(alloc: Global, input: &str) -> Option<Text> {
    match Name::read(alloc, input) {
        Ok(name) => shown(alloc, name.clone().ok()?),
        Err(found) => fault(alloc, found),
    }
}

/// A path, as its copy is written.
fn path(alloc: Global, input: &str) -> Option<Text> {
    match CapPath::read(alloc, input) {
        Ok(path) => shown(alloc, path.clone().ok()?),
        Err(found) => fault(alloc, found),
    }
}

/// A subdirectory, as its copy is written.
fn subdir(alloc: Global, input: &str) -> Option<Text> {
    match SubDir::read(alloc, input) {
        Ok(subdir) => shown(alloc, subdir.clone().ok()?),
        Err(found) => fault(alloc, found),
    }
}

/// A moniker, as it is written.
fn moniker(alloc: Global, input: &str) -> Option<Text> {
    match Moniker::read(alloc, input) {
        Ok(moniker) => moniker.write(alloc).ok(),
        Err(found) => fault(alloc, found),
    }
}

/// The JSON of a relaxed text, or its fault.
fn json(alloc: Global, input: &str) -> Option<Text> {
    if input.len() > 1_048_576 {
        return None;
    }
    match to_json(alloc, input) {
        Ok(text) => Some(text),
        Err(found) => fault(alloc, found),
    }
}

/// The command of a line, which is as short as a line of a script.
fn command_of(alloc: Global, line: &[u8]) -> Result<Command, CommandFault> {
    if line.len() > 65_536 {
        return Err(CommandFault::Memory);
    }
    read_command(alloc, line)
}

/// A number in a line, as it is written.
fn number_word(alloc: Global, word: &[u8]) -> Option<Text> {
    match read_number(word) {
        Ok(number) => shown(alloc, number),
        Err(found) => fault(alloc, found),
    }
}

/// A moniker in a line, as it is written.
fn moniker_word(alloc: Global, word: &[u8]) -> Option<Text> {
    match read_moniker(alloc, word) {
        Ok(moniker) => moniker.write(alloc).ok(),
        Err(found) => fault(alloc, found),
    }
}

/// The line that the command of a line is written as.
fn written_again(alloc: Global, line: &[u8]) -> Option<Text> {
    match command_of(alloc, line) {
        Ok(command) => {
            let line = written(alloc, &command);
            drop(command);
            line
        }
        Err(_) => None,
    }
}

/// The line that a command is written as; `None` where memory runs out.
fn written(alloc: Global, command: &Command) -> Option<Text> {
    write_command(alloc, command).ok()
}

/// A command, as it is written, which is read back and written as the same.
fn command(alloc: Global, input: &[u8]) -> Option<Text> {
    let line = written_again(alloc, input)?;
    if is_settled(alloc, line.as_str()) {
        Some(line)
    } else {
        None
    }
}

/// Whether the line of a command is read and written as the same.
fn is_settled(alloc: Global, line: &str) -> bool {
    match written_again(alloc, line.as_bytes()) {
        Some(again) => again.as_str() == line,
        None => false,
    }
}

/// What a reader tells of a large text: first come the reader and how often one text stands in the middle,
/// then what stands in front, the text, and what stands after, with a bar after each of the first two.
fn many(alloc: Global, input: &str) -> Option<Text> {
    let (reader, rest) = input.split_once(' ')?;
    let (times, parts) = rest.split_once(' ')?;
    match repeated(alloc, times.parse().ok()?, parts) {
        Some(whole) => told_of_whole(alloc, reader, whole.as_str()),
        None => None,
    }
}

/// What a reader tells of a large text, shortened; `None` where it can't be told.
fn told_of_whole(alloc: Global, reader: &str, whole: &str) -> Option<Text> {
    match told_of_large(alloc, reader, whole) {
        Some(text) => shortened(alloc, text),
        None => None,
    }
}

/// So many times the text between two bars, between what stands in front of them and after them.
fn repeated(alloc: Global, times: usize, parts: &str) -> Option<Text> {
    let (prefix, rest) = parts.split_once('|')?;
    let (text, end) = rest.split_once('|')?;
    let mut whole = Text::from_str(alloc, prefix).ok()?;
    for _ in 0..times {
        whole.push_str(text).ok()?;
    }
    whole.push_str(end).ok()?;
    Some(whole)
}

/// A short text, or how many bytes a long one has.
fn shortened(alloc: Global, text: Text) -> Option<Text> {
    if text.len() < 100 {
        return Some(text);
    }
    let bytes = text.len();
    shown(alloc, format_args!("{bytes} bytes"))
}
