//! The ends that a run may come to.
//!
//! An end is the status, and then lines by their first word: `out`, `err`, `sent` and `told` tell a line
//! of the output, of the error stream, of what was written to the links, and of what the gates tell
//! afterwards; `out+`, `err+` and `sent+` a text that no line feed ends; `entries` the length of the
//! history. The gates and the history are only looked at where a line speaks of them.
//!
//! `read-faults`, `write-faults`, `say-faults` and `door-faults` tell how often the input, the output, the
//! error stream and the door failed. They are looked at in every end: a count of which no line speaks has to
//! be 0. Those of a link stand in the line of its worker, where they aren't 0.

use super::input::{number_of, push_line, push_text};
use super::texts::is_one_of;
use cm_gate::{Fetched, GateCall, Gates, PlannedGates};
use cm_names::{Memory, Text};
use std::alloc::Global;

/// What came of a run: its status, the length of its history, how often each side failed, and what was
/// written and told.
#[derive(Drop)]
pub struct RunSummary<'a> {
    pub status: u8,
    pub entries: usize,
    pub read_faults: u64,
    pub write_faults: u64,
    pub say_faults: u64,
    pub door_faults: u64,
    pub out: &'a [u8],
    pub err: &'a [u8],
    pub sent: &'a [u8],
    pub told: &'a str,
}

/// The words that a line of an end may begin with.
const WORDS: &str = "=> out out+ err err+ sent sent+ told entries \
    read-faults write-faults say-faults door-faults";

/// Whether each line of these ends begins with a word that is known, or is a status.
pub fn are_known_ends(ends: &str) -> bool {
    ends.split('\n').all(|line| is_known(line))
}

/// Whether a line of the ends is a status, is empty, or begins with a word that is known.
fn is_known(line: &str) -> bool {
    match line.split_once(' ') {
        Some((word, _)) => is_one_of(WORDS, word),
        None => line.is_empty() || line.parse::<u8>().is_ok(),
    }
}

/// Whether a run came to one of these ends.
pub fn is_an_end(alloc: Global, came: &RunSummary<'_>, ends: &str) -> Option<bool> {
    for end in ends.split("\n=> ") {
        if is_end(alloc, came, end)? {
            return Some(true);
        }
    }
    Some(false)
}

/// Whether a run came to this end.
fn is_end(alloc: Global, came: &RunSummary<'_>, end: &str) -> Option<bool> {
    let (status, lines) = end.split_once('\n').unwrap_or((end, ""));
    let status: u8 = status.parse().ok()?;
    let entries = number_of(lines, "entries", came.entries as u64)?;
    if came.status != status || came.entries as u64 != entries {
        return Some(false);
    }
    Some(
        has_faults(came, lines)?
            && is_written(alloc, came, lines)?
            && is_told(alloc, came.told, lines)?,
    )
}

/// Whether each side of a run failed as often as these lines say.
fn has_faults(came: &RunSummary<'_>, lines: &str) -> Option<bool> {
    let is_so = came.read_faults == number_of(lines, "read-faults", 0)?
        && came.write_faults == number_of(lines, "write-faults", 0)?
        && came.say_faults == number_of(lines, "say-faults", 0)?
        && came.door_faults == number_of(lines, "door-faults", 0)?;
    Some(is_so)
}

/// Whether a run wrote these lines.
fn is_written(alloc: Global, came: &RunSummary<'_>, lines: &str) -> Option<bool> {
    let is_so = is_said(alloc, came.out, lines, "out", "out+")?
        && is_said(alloc, came.err, lines, "err", "err+")?
        && is_said(alloc, came.sent, lines, "sent", "sent+")?;
    Some(is_so)
}

/// Whether these bytes are what the lines say that begin with one of two words.
fn is_said(alloc: Global, bytes: &[u8], lines: &str, line: &str, text: &str) -> Option<bool> {
    let wanted = lines_of(alloc, lines, line, text)?;
    Some(bytes == wanted.as_slice())
}

/// Whether gates told these lines, where there are any.
fn is_told(alloc: Global, told: &str, lines: &str) -> Option<bool> {
    let wanted = lines_of(alloc, lines, "told", "told+")?;
    Some(wanted.is_empty() || told.as_bytes() == wanted.as_slice())
}

/// What the lines say that begin with one of two words: the first tells a line, and the second a
/// text.
fn lines_of(alloc: Global, lines: &str, line: &str, text: &str) -> Option<Vec<u8>> {
    let mut bytes = Vec::new(alloc);
    for each in lines.split('\n') {
        push_said(&mut bytes, each, line, text)?;
    }
    Some(bytes)
}

/// Puts down what a line says, where it begins with one of the words.
fn push_said(bytes: &mut Vec<u8>, each: &str, line: &str, text: &str) -> Option<()> {
    match each.split_once(' ') {
        Some((word, rest)) if word == line => push_line(bytes, rest),
        Some((word, rest)) if word == text => push_text(bytes, rest),
        _ => Some(()),
    }
}

/// The word that is told for the answer to a fetch.
fn word_of(answer: &Fetched) -> &'static str {
    match answer {
        Fetched::Found(_) => "found",
        Fetched::Absent => "absent",
        Fetched::Failed => "failed",
        Fetched::Memory => "memory",
    }
}

/// Puts down a question that the gates of a lane noted, with its answer.
fn push_asked(told: &mut Text, lane: usize, asked: &GateCall) -> Result<(), Memory> {
    match asked {
        GateCall::Fetch(what, answer) => {
            let url = what.url.as_str();
            let word = word_of(answer);
            told.push(format_args!("{lane} fetch {url} {word}\n"))
        }
        GateCall::Launch(job, answer) => {
            let url = job.url.as_str();
            let action = job.action;
            told.push(format_args!("{lane} launch {url} action {action} {answer:?}\n"))
        }
        GateCall::Halt(job, answer) => {
            let url = job.url.as_str();
            let action = job.action;
            told.push(format_args!("{lane} halt {url} action {action} {answer:?}\n"))
        }
    }
}

/// Adds the log of a lane's gates to what is told, or that it isn't told.
fn push_log(told: &mut Text, lane: usize, log: Option<&[GateCall]>) -> Result<(), Memory> {
    let Some(log) = log else {
        return told.push(format_args!("{lane} untold\n"));
    };
    for asked in log {
        push_asked(told, lane, asked)?;
    }
    Ok(())
}

/// Puts down a count of a lane's gates, where it isn't 0.
fn push_count(told: &mut Text, lane: usize, word: &str, count: u64) -> Result<(), Memory> {
    if count == 0 {
        return Ok(());
    }
    told.push(format_args!("{lane} {word} {count}\n"))
}

/// What gates tell, lane by lane: each question that they noted, with the answer, how often they failed,
/// and for how many questions memory was too short to note them, if these aren't 0.
pub fn told_by(alloc: Global, gates: &[PlannedGates]) -> Option<Text> {
    let mut told = Text::new(alloc);
    for lane in 0..gates.len() {
        push_log(&mut told, lane, gates[lane].log()).ok()?;
        push_count(&mut told, lane, "faults", gates[lane].faults()).ok()?;
        push_count(&mut told, lane, "short", gates[lane].short()).ok()?;
    }
    Some(told)
}
