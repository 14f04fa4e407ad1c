//! What a group may add after its origin.
//!
//! What can be added is what an offer can say in Fuchsia's component manifest reference
//! (fuchsia.dev). The words, and their order, are this project's own choice.

ghost use Rattle.std.specs.Prelude.{◌≡◌, ◌⊎◌, ℕ, codes, List as Seq, MatchResult};
ghost use Rattle.cm_names.specs.Rights.{RightSet};
ghost use Rattle.cm_command.specs.Additions.{IsAddition, IsRightsWord, IsSomeAddition, IsSubdirWord};
ghost use Rattle.cm_command.specs.Additions.{IsTargetWord};
ghost use Rattle.cm_command.specs.Counts.{IsWordFault};

use crate::rights::read_rights;
use crate::tokens::{WordFault, behind, fault_of_either, read_name, read_subdir, text_prefixes};
use crate::words::{is_same, strip};
use cm_decl::Kind;
use cm_names::{Name, Rights, SubDir};
use std::alloc::Global;

/// A word after the origin of a group.
#[derive(Drop)]
pub enum Addition {
    /// `as=NAME`
    Target(Name),
    /// `rights=RIGHTS`
    Rights(Rights),
    /// `subdir=SUBDIR`
    Subdir(SubDir),
    /// `weak`
    Weak,
    /// `optional`
    Optional,
    /// `transitional`
    Transitional,
    /// `same_as_target`
    SameAsTarget,
    /// `+`, which begins another group
    Group,
}

/// The word, where it is that literal.
fn read_literal(word: &[u8], literal: &str) -> Result<(), WordFault>
    ensures { MatchResult result (λ _. word.now ≡ literal.now)
        (λ e. IsWordFault (λ t. t ≡ literal.now) word.now e) }
{
    if is_same(word, literal) {
        Ok(())
    } else {
        Err(WordFault::Bad(text_prefixes(literal, word)))
    }
}

/// The name in a word `as=NAME`, or the fault of the name.
fn read_target(alloc: Global, word: &[u8]) -> Result<Name, WordFault>
    ensures { MatchResult result (λ name. IsTargetWord word.now name)
        (λ e. IsWordFault (λ t. (name : Seq ℕ) × IsTargetWord t name) word.now e) }
{
    let Some(name) = strip(word, "as=") else {
        return Err(WordFault::Bad(text_prefixes("as=", word)));
    };
    match read_name(alloc, name) {
        Ok(name) => Ok(name),
        Err(fault) => Err(behind(3, fault)),
    }
}

/// The rights in a word `rights=WORDS`, or their fault.
fn read_rights_word(alloc: Global, word: &[u8]) -> Result<Rights, WordFault>
    ensures { MatchResult result (λ rights. IsRightsWord word.now rights)
        (λ e. IsWordFault (λ t. (rights : RightSet) × IsRightsWord t rights) word.now e) }
{
    let Some(words) = strip(word, "rights=") else {
        return Err(WordFault::Bad(text_prefixes("rights=", word)));
    };
    match read_rights(alloc, words) {
        Ok(rights) => Ok(rights),
        Err(fault) => Err(behind(7, fault)),
    }
}

/// The subdirectory in a word `subdir=PATH`, or its fault.
fn read_subdir_word(alloc: Global, word: &[u8]) -> Result<SubDir, WordFault>
    ensures { MatchResult result (λ subdir. IsSubdirWord word.now subdir)
        (λ e. IsWordFault (λ t. (subdir : Seq ℕ) × IsSubdirWord t subdir) word.now e) }
{
    let Some(subdir) = strip(word, "subdir=") else {
        return Err(WordFault::Bad(text_prefixes("subdir=", word)));
    };
    match read_subdir(alloc, subdir) {
        Ok(subdir) => Ok(subdir),
        Err(fault) => Err(behind(7, fault)),
    }
}

/// The addition of a word that may still be `same_as_target` or `+`, or its fault.
fn from_same(kind: Kind, word: &[u8]) -> Result<Addition, WordFault>
    ensures { MatchResult result (λ addition. IsAddition 4 kind word.now addition)
        (λ e. IsWordFault (λ t. (t ≡ codes "same_as_target") ⊎ (t ≡ codes "+")) word.now e) }
{
    match read_literal(word, "same_as_target") {
        Ok(()) => Ok(Addition::SameAsTarget),
        Err(fault) => match read_literal(word, "+") {
            Ok(()) => Ok(Addition::Group),
            Err(other) => Err(fault_of_either(fault, other)),
        },
    }
}

/// The addition of a word that may still be `transitional`, `same_as_target` or `+`, or its fault.
fn from_transitional(kind: Kind, word: &[u8]) -> Result<Addition, WordFault>
    ensures { MatchResult result (λ addition. IsAddition 4 kind word.now addition)
        (λ e. IsWordFault (λ t. (t ≡ codes "transitional") ⊎ ((t ≡ codes "same_as_target")
        ⊎ (t ≡ codes "+"))) word.now e) }
{
    match read_literal(word, "transitional") {
        Ok(()) => Ok(Addition::Transitional),
        Err(fault) => match from_same(kind, word) {
            Ok(addition) => Ok(addition),
            Err(other) => Err(fault_of_either(fault, other)),
        },
    }
}

/// `optional`, `transitional` or `same_as_target`, or what may stand after it.
fn from_optional(kind: Kind, word: &[u8]) -> Result<Addition, WordFault>
    ensures { MatchResult result (λ addition. IsAddition 4 kind word.now addition)
        (λ e. IsWordFault (IsSomeAddition 4 kind) word.now e) }
{
    match read_literal(word, "optional") {
        Ok(()) => Ok(Addition::Optional),
        Err(fault) => match from_transitional(kind, word) {
            Ok(addition) => Ok(addition),
            Err(other) => Err(fault_of_either(fault, other)),
        },
    }
}

/// `weak`, or what may stand after it.
fn from_weak(kind: Kind, word: &[u8]) -> Result<Addition, WordFault>
    ensures { MatchResult result (λ addition. IsAddition 3 kind word.now addition)
        (λ e. IsWordFault (IsSomeAddition 3 kind) word.now e) }
{
    match read_literal(word, "weak") {
        Ok(()) => Ok(Addition::Weak),
        Err(fault) => match from_optional(kind, word) {
            Ok(addition) => Ok(addition),
            Err(other) => Err(fault_of_either(fault, other)),
        },
    }
}

/// The subdirectory of a directory, or what may stand after it.
fn from_subdir(alloc: Global, kind: Kind, word: &[u8]) -> Result<Addition, WordFault>
    ensures { MatchResult result (λ addition. IsAddition 2 kind word.now addition)
        (λ e. IsWordFault (IsSomeAddition 2 kind) word.now e) }
{
    match kind {
        Kind::Protocol => from_weak(kind, word),
        Kind::Directory => match read_subdir_word(alloc, word) {
            Ok(subdir) => Ok(Addition::Subdir(subdir)),
            Err(fault) => match from_weak(kind, word) {
                Ok(addition) => Ok(addition),
                Err(other) => Err(fault_of_either(fault, other)),
            },
        },
    }
}

/// The rights of a directory, or what may stand after them.
fn from_rights(alloc: Global, kind: Kind, word: &[u8]) -> Result<Addition, WordFault>
    ensures { MatchResult result (λ addition. IsAddition 1 kind word.now addition)
        (λ e. IsWordFault (IsSomeAddition 1 kind) word.now e) }
{
    match kind {
        Kind::Protocol => from_weak(kind, word),
        Kind::Directory => match read_rights_word(alloc, word) {
            Ok(rights) => Ok(Addition::Rights(rights)),
            Err(fault) => match from_subdir(alloc, kind, word) {
                Ok(addition) => Ok(addition),
                Err(other) => Err(fault_of_either(fault, other)),
            },
        },
    }
}

/// The target's name, or what may stand after it.
fn from_target(alloc: Global, kind: Kind, word: &[u8]) -> Result<Addition, WordFault>
    ensures { MatchResult result (λ addition. IsAddition 0 kind word.now addition)
        (λ e. IsWordFault (IsSomeAddition 0 kind) word.now e) }
{
    match read_target(alloc, word) {
        Ok(name) => Ok(Addition::Target(name)),
        Err(fault) => match from_rights(alloc, kind, word) {
            Ok(addition) => Ok(addition),
            Err(other) => Err(fault_of_either(fault, other)),
        },
    }
}

/// The addition that the word is to a group of that kind, of those from that number on: 0 is `as=`,
/// 1 `rights=`, 2 `subdir=`, 3 `weak`, and 4 `optional`, `transitional` and `same_as_target`;
/// rights and a subdirectory stand at directories alone. `+`, which begins another group, is read
/// whatever the number is.
///
/// `Err(Bad(n))` comes where the word is none of these, with the count of its prefixes that one of
/// them begins with. `Err(Memory)` comes where memory runs out.
pub fn read_addition(
    alloc: Global,
    from: u32,
    kind: Kind,
    word: &[u8],
) -> Result<Addition, WordFault>
    ensures { MatchResult result (λ addition. IsAddition from kind word.now addition)
        (λ e. IsWordFault (IsSomeAddition from kind) word.now e) }
{
    match from {
        0 => from_target(alloc, kind, word),
        1 => from_rights(alloc, kind, word),
        2 => from_subdir(alloc, kind, word),
        3 => from_weak(kind, word),
        4 => from_optional(kind, word),
        _ => match read_literal(word, "+") {
            Ok(()) => Ok(Addition::Group),
            Err(fault) => Err(fault),
        },
    }
}
