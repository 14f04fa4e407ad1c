//! Words that are read, and entries that are written. Of these no caller has to read by which grammar.

use cm_names::{CapPath, Memory, Moniker, Name, Text};
use cm_reply::entry_text;
use cm_world::Entry;
use std::alloc::Global;

/// The moniker that the word is, if it is one.
pub fn moniker_of(alloc: Global, word: &str) -> Option<Moniker> {
    Moniker::read(alloc, word).ok()
}

/// The name that the word is, if it is one.
pub fn name_of(alloc: Global, word: &str) -> Option<Name> {
    Name::read(alloc, word).ok()
}

/// The path that the word is, if it is one.
pub fn path_of(alloc: Global, word: &str) -> Option<CapPath> {
    CapPath::read(alloc, word).ok()
}

/// The line of an entry, after its number.
pub fn line_of(alloc: Global, number: u64, entry: &Entry) -> Result<Text, Memory> {
    entry_text(alloc, number, entry)
}
