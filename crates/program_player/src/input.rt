//! What the lines of a case say of its run.
//!
//! The input is made of lines in their order: `| ` and a line, `+ ` and a text that no line feed
//! ends, `@` and the name of a text of `manifests`, `fill`, a byte and how often it stands there, or
//! `names`, a prefix and how many names in quotes begin with it, each with its number and a comma after it.
//! The other words, each of which may be left out:
//!
//! - `piece`: how many bytes one read or write moves at most;
//! - `read`, `write` and `say`: the read that fails, the write on the output, and the one on the
//!   error stream;
//! - `held`: the name of a block whose manifest the gates of each lane have, and how many spaces
//!   stand after it;
//! - `declined`: the URL of a component whose program is declined;
//! - `failing`: a lane, and a call of its gates that fails;
//! - `room`: how many questions the gates of a lane have room to note;
//! - `runs`: how often the case is run, each time over new gates;
//! - `again`: the word of a further run, whose input is what the run wrote, and of which the ends tell;
//! - `door`: the call of the door that fails, from 0 on, which is the listen;
//! - `link`: a link that the door gives begins, with any name. What it gives is said by the lines after
//!   it as the input is, and `piece`, `read` and `write` among them are its own.

use super::manifests::named;
use super::texts::is_one_of;
use cm_gate::Manifest;
use cm_io::{FaultPlan, MemorySource};
use cm_names::{Bytes, List, Text};
use std::alloc::Global;

/// The words that a line may begin with.
const WORDS: &str =
    "| + fill names piece read write say held declined failing room runs again door link";

/// Whether each line after the first begins with a word that is known.
pub fn are_known(case: &str) -> bool {
    match case.split_once('\n') {
        Some((_, lines)) => lines.split('\n').all(|line| is_known(line)),
        None => true,
    }
}

/// Whether a line of a case begins with a word that is known, or with `@`.
fn is_known(line: &str) -> bool {
    match line.split_once(' ') {
        Some((word, _)) => is_one_of(WORDS, word),
        None => line.starts_with('@'),
    }
}

/// What stands after the first line that begins with this word.
fn value_of<'a>(case: &'a str, word: &str) -> Option<&'a str> {
    for line in case.split('\n') {
        if let Some((first, value)) = line.split_once(' ') {
            if first == word {
                return Some(value);
            }
        }
    }
    None
}

/// The number after the first line that begins with this word, or else this one.
pub fn number_of(case: &str, word: &str, other: u64) -> Option<u64> {
    match value_of(case, word) {
        Some(value) => value.parse().ok(),
        None => Some(other),
    }
}

/// What stands after each line that begins with this word.
pub fn values_of(alloc: Global, case: &str, word: &str) -> Option<Vec<Text>> {
    let mut values = Vec::new(alloc);
    for line in case.split('\n') {
        if let Some((first, value)) = line.split_once(' ') {
            if first == word {
                push_value(alloc, &mut values, value)?;
            }
        }
    }
    Some(values)
}

/// The text, copied; `None` where memory runs out.
fn text_of(alloc: Global, text: &str) -> Option<Text> {
    Text::from_str(alloc, text).ok()
}

/// Adds a value to the list; `None` where memory runs out.
fn push_value(alloc: Global, values: &mut Vec<Text>, value: &str) -> Option<()> {
    match text_of(alloc, value) {
        Some(value) => values.push(value).ok(),
        None => None,
    }
}

/// The words of a run, which stand in the first line of its case.
pub fn words_of(alloc: Global, case: &str) -> Option<Vec<Text>> {
    let (head, _) = case.split_once('\n').unwrap_or((case, ""));
    let mut words = Vec::new(alloc);
    if head.is_empty() {
        return Some(words);
    }
    for word in head.split(' ') {
        push_value(alloc, &mut words, word)?;
    }
    Some(words)
}

/// Puts a byte after these, so many times.
fn fill(bytes: &mut Vec<u8>, byte: u8, count: u64) -> Option<()> {
    for _ in 0..count {
        bytes.push(byte).ok()?;
    }
    Some(())
}

/// Puts down what a line says of the input.
fn push_input(alloc: Global, bytes: &mut Vec<u8>, line: &str) -> Option<()> {
    match line.split_once(' ') {
        Some((word, text)) => push_by_word(alloc, bytes, word, text),
        None => push_text(bytes, named(line)?),
    }
}

/// Puts down what a line says by its word, if anything.
fn push_by_word(alloc: Global, bytes: &mut Vec<u8>, word: &str, text: &str) -> Option<()> {
    match word {
        "|" => push_line(bytes, text),
        "+" => push_text(bytes, text),
        "fill" => {
            let (byte, count) = counted(text)?;
            fill(bytes, byte.parse().ok()?, count)
        }
        "names" => {
            let (prefix, count) = counted(text)?;
            push_names(alloc, bytes, prefix, count)
        }
        _ => Some(()),
    }
}

/// A word, and how often it is meant.
fn counted(text: &str) -> Option<(&str, u64)> {
    let (word, count) = text.split_once(' ')?;
    Some((word, count.parse().ok()?))
}

/// Puts down so many names that begin with a prefix.
fn push_names(alloc: Global, bytes: &mut Vec<u8>, prefix: &str, count: u64) -> Option<()> {
    let mut names = Text::new(alloc);
    for number in 0..count {
        names.push(format_args!("'{prefix}{number}',")).ok()?;
    }
    push_text(bytes, names.as_str())
}

/// Adds a text to the bytes; `None` where memory runs out.
pub fn push_text(bytes: &mut Vec<u8>, text: &str) -> Option<()> {
    bytes.extend_from_slice(text.as_bytes()).ok()
}

/// Puts down a line, with its line feed.
pub fn push_line(bytes: &mut Vec<u8>, line: &str) -> Option<()> {
    bytes.extend_from_slice(line.as_bytes()).ok()?;
    bytes.push(b'\n').ok()
}

/// The input of a run, or what a link gives.
pub fn input_of(alloc: Global, case: &str) -> Option<Vec<u8>> {
    let mut bytes = Vec::new(alloc);
    if let Some((_, lines)) = case.split_once('\n') {
        for line in lines.split('\n') {
            push_input(alloc, &mut bytes, line)?;
        }
    }
    Some(bytes)
}

/// How much one read or write moves, and the one that fails: that after this word, if at all.
pub fn plan_of(alloc: Global, case: &str, word: &str) -> Option<FaultPlan> {
    let piece = usize::try_from(number_of(case, "piece", u64::MAX)?).ok()?;
    match failing_of(alloc, case, word) {
        Some(failing) => Some(FaultPlan {
            piece,
            failing: List::from_vec(failing),
        }),
        None => None,
    }
}

/// The call after this word, which fails, if there is one.
pub fn failing_of(alloc: Global, case: &str, word: &str) -> Option<Vec<u64>> {
    match value_of(case, word) {
        Some(call) => {
            let call = call.parse().ok()?;
            vec![in alloc; call].ok()
        }
        None => Some(Vec::new(alloc)),
    }
}

/// The input of a case, with the read of it that fails, if one does.
pub fn source_of(alloc: Global, case: &str) -> Option<MemorySource> {
    match input_of(alloc, case) {
        Some(bytes) => match plan_of(alloc, case, "read") {
            Some(plan) => Some(MemorySource::new(List::from_vec(bytes), plan)),
            None => None,
        },
        None => None,
    }
}

/// The calls of the gates of a lane that fail.
pub fn calls_of(alloc: Global, case: &str, lane: usize) -> Option<Vec<u64>> {
    let mut calls = Vec::new(alloc);
    for line in case.split('\n') {
        if let Some(call) = call_of(line, lane)? {
            calls.push(call).ok()?;
        }
    }
    Some(calls)
}

/// The call that a line lets fail, where it speaks of this lane.
fn call_of(line: &str, lane: usize) -> Option<Option<u64>> {
    let Some(rest) = line.strip_prefix("failing ") else {
        return Some(None);
    };
    let (of, call) = rest.split_once(' ')?;
    let of: usize = of.parse().ok()?;
    let call: u64 = call.parse().ok()?;
    Some(if of == lane { Some(call) } else { None })
}

/// The URL and the manifest of a block, each empty where there is none.
fn parts_of(block: &str) -> (&str, &str) {
    let Some((head, rest)) = block.split_once('\n') else {
        return ("", "");
    };
    let url = head.strip_prefix("manifest ").unwrap_or("");
    match rest.split_once('\n') {
        Some((text, _end)) => (url, text),
        None => (url, ""),
    }
}

/// The bytes of a text, with so many spaces after them.
fn spaced(alloc: Global, text: &str, spaces: u64) -> Option<Vec<u8>> {
    let mut bytes = text.as_bytes().to_vec(alloc).ok()?;
    fill(&mut bytes, b' ', spaces)?;
    Some(bytes)
}

/// The manifest of a named block, with so many spaces after it.
fn manifest_of(alloc: Global, held: &str) -> Option<Manifest> {
    let (name, spaces) = held.split_once(' ')?;
    let (url, text) = parts_of(named(name)?);
    let spaces = spaces.parse().ok()?;
    match spaced(alloc, text, spaces) {
        Some(bytes) => match text_of(alloc, url) {
            Some(url) => Some(Manifest {
                url,
                bytes: Bytes::from_vec(bytes),
            }),
            None => None,
        },
        None => None,
    }
}

/// The manifests that the gates of each lane have.
pub fn manifests_of(alloc: Global, case: &str) -> Option<List<Manifest>> {
    let mut manifests = Vec::new(alloc);
    for line in case.split('\n') {
        if let Some(held) = line.strip_prefix("held ") {
            manifests.push(manifest_of(alloc, held)?).ok()?;
        }
    }
    Some(List::from_vec(manifests))
}
