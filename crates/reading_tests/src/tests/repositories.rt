//! URLs are made absolute, and a repository keeps blocks under them.

use super::readers::{fault, shown};
use cm_names::{Bytes, Memory, Text};
use cm_repo::*;
use std::alloc::Global;

/// The URL of the first line as an absolute one, on the base of the second where there is one; or
/// the fault's message.
pub fn url(alloc: Global, input: &str) -> Option<Text> {
    let (url, base) = input.split_once('\n').unwrap_or((input, ""));
    match absolute_of(alloc, base, url) {
        Ok(text) => Some(text),
        Err(found) => shown(alloc, found),
    }
}

/// The absolute URL of a child, or the URL's fault.
fn absolute_of(alloc: Global, base: &str, url: &str) -> Result<Text, UrlFault> {
    absolute(alloc, base, url)
}

/// The URL of a block of a repository: whether it is added.
pub fn block(alloc: Global, input: &str) -> Option<Text> {
    added(alloc, &mut Repository::new(alloc), input, "")
}

/// Adds a block to a repository under a URL: what comes of it.
fn added(alloc: Global, repository: &mut Repository, url: &str, block: &str) -> Option<Text> {
    let bytes = block.as_bytes().to_vec(alloc).ok()?;
    told_of(alloc, repository.add(url, Bytes::from_vec(bytes)))
}

/// `added`, or the fault, in words.
fn told_of(alloc: Global, added: Result<(), RepoFault>) -> Option<Text> {
    match added {
        Ok(()) => shown(alloc, "added"),
        Err(found) => fault(alloc, found),
    }
}

/// Blocks that are added to a repository and looked for in it, line by line: what is told of each,
/// with a `;` after it. A line begins with `add` and a block, or with `find`; then comes a URL.
pub fn blocks(alloc: Global, input: &str) -> Option<Text> {
    let mut told = Text::new(alloc);
    push_steps(alloc, &mut Repository::new(alloc), input, &mut told)?;
    Some(told)
}

/// Takes the steps of all lines, and adds what comes of each to what is told.
fn push_steps(
    alloc: Global,
    repository: &mut Repository,
    lines: &str,
    told: &mut Text,
) -> Option<()> {
    for line in lines.split('\n') {
        push_step(alloc, repository, line, told)?;
    }
    Some(())
}

/// Takes the step of one line, `add BLOCK URL` or `find URL`, and adds what comes of it to what is
/// told.
fn push_step(
    alloc: Global,
    repository: &mut Repository,
    line: &str,
    told: &mut Text,
) -> Option<()> {
    let (verb, rest) = line.split_once(' ')?;
    match verb {
        "add" => push_added(alloc, repository, rest, told),
        "find" => push_found(repository.find(rest), told).ok(),
        _ => None,
    }
}

/// Adds a manifest to the repository, and tells what came of it.
fn push_added(
    alloc: Global,
    repository: &mut Repository,
    rest: &str,
    told: &mut Text,
) -> Option<()> {
    let (block, url) = rest.split_once(' ')?;
    let line = added(alloc, repository, url, block)?;
    told.push_str(line.as_str()).ok()?;
    told.push_str(";").ok()
}

/// Adds the bytes that were found, or `nothing`, to what is told.
fn push_found(found: Option<&Bytes>, told: &mut Text) -> Result<(), Memory> {
    let bytes = match found {
        Some(bytes) => bytes.as_slice(),
        None => b"nothing".as_slice(),
    };
    for byte in bytes {
        told.push(char::from(*byte))?;
    }
    told.push_str(";")
}
