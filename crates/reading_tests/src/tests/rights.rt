//! Rights: words are read and written, or have their first fault.

use super::readers::fault;
use cm_names::{List, Rights, Text};
use std::alloc::Global;

/// The rights of words, or the first fault; a word ends at a space.
pub fn rights(alloc: Global, input: &str) -> Option<Text> {
    let words = words_of(alloc, input)?;
    match Rights::read_words(words.as_slice()) {
        Ok(rights) => written(alloc, words.as_slice(), rights),
        Err(found) => fault(alloc, found),
    }
}

/// The words of a line, as a list; `None` where memory runs out.
fn words_of(alloc: Global, input: &str) -> Option<List<Text>> {
    let mut words = List::new(alloc);
    if input.is_empty() {
        return Some(words);
    }
    for word in input.split(' ') {
        words.push(Text::from_str(alloc, word).ok()?).ok()?;
    }
    Some(words)
}

/// Rights as they are written, where they are those of the words and all operations know them.
fn written(alloc: Global, words: &[Text], rights: Rights) -> Option<Text> {
    if Rights::of_words(words) != Some(rights) || !is_known(rights) {
        return None;
    }
    rights.text(alloc).ok()
}

/// Whether some rights contain themselves, are more than none, and are kept by a union.
fn is_known(rights: Rights) -> bool {
    let none = Rights::none();
    let contained = rights.contains(rights) && !none.contains(rights);
    contained && !rights.is_empty() && rights == rights.union(none)
}
