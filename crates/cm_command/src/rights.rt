//! Rights as a list of words.
//!
//! The names of rights are those of Fuchsia's directory capabilities (fuchsia.dev). The commas
//! between them, and that none stands twice, are this project's own choice.

ghost use Rattle.std.specs.Prelude.{◌≡◌, map, Contains, MatchOption, MatchResult};
ghost use Rattle.std.specs.List.{list_any};
ghost use Rattle.std.specs.Str.{bytes_eq};
ghost use Rattle.cm_names.specs.Rights.{RightSet};
ghost use Rattle.cm_command.specs.Counts.{CountsPrefixes, IsWordFault};
ghost use Rattle.cm_command.specs.Words as spec;
ghost use Rattle.cm_command.specs.WordsInside as spec_inside;
ghost use Rattle.cm_command.specs.Words.{IsRightsText};
ghost use Rattle.cm_command.specs.WordsInside.{IsUnused};

use crate::tokens::{WordFault, behind, text_prefixes};
use crate::words::{cut, is_same};
use cm_names::{List, Rights, Text};
use std::alloc::Global;

/// The words that stand for rights.
fn right_words() -> [&'static str; 14]
    ensures { map (λ w. w.now) result ≡ spec_inside.right_words }
{
    [
        "connect",
        "enumerate",
        "execute",
        "get_attributes",
        "modify_directory",
        "r*",
        "read_bytes",
        "rw*",
        "rx*",
        "traverse",
        "update_attributes",
        "w*",
        "write_bytes",
        "x*",
    ]
}

/// Whether the word is one of the used ones.
fn is_used(used: &[Text], word: &str) -> bool
    ensures { result ≡ list_any (bytes_eq word.now) used.now }
{
    used.iter().any(|earlier| word == earlier.as_str())
}

/// How many prefixes of the piece an unused word begins with.
fn unused_prefixes(used: &[Text], piece: &[u8]) -> usize
    ensures { CountsPrefixes (IsUnused used.now) piece.now result }
{
    let mut prefixes = 0;
    for word in right_words() {
        if is_used(used, word) {
            continue;
        }
        prefixes = prefixes.max(text_prefixes(word, piece));
    }
    prefixes
}

/// The word that the piece is.
fn right_word(piece: &[u8]) -> Option<&'static str>
    ensures { MatchOption result (Contains spec_inside.right_words piece.now → ⊥)
        (λ word. (word.now ≡ piece.now) × Contains spec_inside.right_words piece.now) }
{
    for word in right_words() {
        if is_same(piece, word) {
            return Some(word);
        }
    }
    None
}

/// The unused word that the piece is.
fn read_right(alloc: Global, used: &[Text], piece: &[u8]) -> Result<Text, WordFault>
    ensures { MatchResult result (λ text. (text ≡ piece.now) × IsUnused used.now piece.now)
        (λ e. IsWordFault (IsUnused used.now) piece.now e) }
{
    let Some(word) = right_word(piece) else {
        return Err(WordFault::Bad(unused_prefixes(used, piece)));
    };
    if is_used(used, word) {
        return Err(WordFault::Bad(unused_prefixes(used, piece)));
    }
    Ok(Text::from_str(alloc, word)?)
}

/// The rights that the word stands for: words for rights, joined by commas, none of them twice.
///
/// `Err(Bad(n))` comes where the word is none of that kind, with the count of its prefixes that some
/// word of the kind begins with. `Err(Memory)` comes where memory runs out.
pub fn read_rights(alloc: Global, word: &[u8]) -> Result<Rights, WordFault>
    ensures { MatchResult result (λ rights. IsRightsText word.now rights)
        (λ e. IsWordFault (λ t. (rights : RightSet) × IsRightsText t rights) word.now e) }
{
    let mut used = List::new(alloc);
    let mut rest = word;
    let mut place = 0;
    'pieces: loop {
        let (piece, further) = cut(rest, b',');
        let right = match read_right(alloc, used.as_slice(), piece) {
            Ok(right) => right,
            Err(fault) => return Err(behind(place, fault)),
        };
        used.push(right)?;
        let Some(more) = further else {
            let Some(rights) = Rights::of_words(used.as_slice()) else {
                unreachable!();
            };
            return Ok(rights);
        };
        place = place + piece.len() + 1;
        rest = more;
    }
}
