//! The rights of a directory.
//!
//! The nine rights and their names are those of Fuchsia's directory capabilities (fuchsia.dev,
//! "Directory capabilities"). Which of them a short word such as `r*` stands for is this project's
//! own choice:
//!
//! | word | rights |
//! |---|---|
//! | `r*` | connect, enumerate, traverse, read_bytes, get_attributes |
//! | `w*` | connect, enumerate, traverse, write_bytes, modify_directory, update_attributes |
//! | `x*` | connect, enumerate, traverse, execute |
//! | `rw*` | those of `r*` and of `w*` |
//! | `rx*` | those of `r*` and of `x*` |
//! | the name of one of the nine rights | that right |

ghost use Rattle.std.specs.Prelude.{◌≡◌, ◌<◌, ◌^◌, ◌↔◌, length, IsTrue, IfOk};
ghost use Rattle.std.specs.List.{list_any, join_with_byte};
ghost use Rattle.std.specs.Str.{bytes_eq};
ghost use Rattle.cm_names.specs.declared.rights.Right.{Right as OneRight};
ghost use Rattle.cm_names.specs.Rights as spec;
ghost use Rattle.cm_names.specs.RightsInside as spec_inside;

use crate::{List, Memory, Plain, Text};
use std::alloc::Global;
use std::marker::Model;
use thiserror::Error;

/// One of the nine rights.
#[derive(Clone, Copy, Debug, PartialEq, Eq)]
pub enum Right {
    /// `connect`: open the directory itself.
    Connect,
    /// `enumerate`: list what it holds.
    Enumerate,
    /// `execute`: map its files as code.
    Execute,
    /// `get_attributes`: read attributes of what it holds.
    GetAttributes,
    /// `modify_directory`: add, rename and remove what it holds.
    ModifyDirectory,
    /// `read_bytes`: read its files.
    ReadBytes,
    /// `traverse`: open what it holds.
    Traverse,
    /// `update_attributes`: change attributes of what it holds.
    UpdateAttributes,
    /// `write_bytes`: write its files.
    WriteBytes,
}

impl Right {
    /// The nine rights in their order, that of their names.
    pub fn all() -> [Right; 9]
        ensures { result ≡ spec.all_rights }
    {
        [
            Right::Connect,
            Right::Enumerate,
            Right::Execute,
            Right::GetAttributes,
            Right::ModifyDirectory,
            Right::ReadBytes,
            Right::Traverse,
            Right::UpdateAttributes,
            Right::WriteBytes,
        ]
    }

    /// The right's name, as `read_bytes`.
    pub fn word(self) -> &'static str
        ensures { result.now ≡ spec.word_of self }
    {
        match self {
            Right::Connect => "connect",
            Right::Enumerate => "enumerate",
            Right::Execute => "execute",
            Right::GetAttributes => "get_attributes",
            Right::ModifyDirectory => "modify_directory",
            Right::ReadBytes => "read_bytes",
            Right::Traverse => "traverse",
            Right::UpdateAttributes => "update_attributes",
            Right::WriteBytes => "write_bytes",
        }
    }

    /// The right of this name, as `read_bytes`, if there is one.
    fn named(word: &str) -> Option<Right>
        ensures { result ≡ spec.right_named word.now }
    {
        match word {
            "connect" => Some(Right::Connect),
            "enumerate" => Some(Right::Enumerate),
            "execute" => Some(Right::Execute),
            "get_attributes" => Some(Right::GetAttributes),
            "modify_directory" => Some(Right::ModifyDirectory),
            "read_bytes" => Some(Right::ReadBytes),
            "traverse" => Some(Right::Traverse),
            "update_attributes" => Some(Right::UpdateAttributes),
            "write_bytes" => Some(Right::WriteBytes),
            _ => None,
        }
    }
}

/// A set of the nine rights.
#[derive(Clone, Copy, Debug)]
pub struct Rights {
    bits: u16,
}

impl Model for Rights {
    ghost use Rattle.std.specs.Prelude.{◌<◌};
    ghost use Rattle.std.proofs.Common.{ap};
    ghost use Rattle.cm_names.specs.Rights.{RightSet};
    ghost use Rattle.cm_names.specs.RightBits.{set_of_bits, bits_of_set, bits_back};

    ghost Value = { RightSet };

    ghost view = { λ a. set_of_bits a.bits };

    ghost invariant = { λ a. a.bits < 512 };

    ghost inverse = { λ r. record { bits = bits_of_set r } };

    ghost inverse_ok = { λ a below. ap (λ n. record { bits = n }) (bits_back a.bits below) };
}

impl Plain for Rights {
    ghost use Rattle.std.proofs.Common.{rules};

    ghost exact = { Prim.search rules };
}

impl PartialEq for Rights {
    ghost use Rattle.std.specs.Prelude.{◌==◌};
    ghost use Rattle.std.specs.Cmp.{nat_eq_equiv, on_per, partial_equiv_from_equiv};
    ghost use Rattle.cm_names.specs.RightBits.{bits_of_set};

    ghost eq = { λ a b. bits_of_set a == bits_of_set b };

    ghost laws = { on_per bits_of_set (partial_equiv_from_equiv nat_eq_equiv) };

    /// Equal where the sets have the same rights.
    fn eq(&self, other: &Self) -> bool {
        self.bits == other.bits
    }
}

impl Eq for Rights {
    ghost use Rattle.std.specs.Cmp.{nat_eq_equiv, on_equiv};
    ghost use Rattle.cm_names.specs.RightBits.{bits_of_set};

    ghost laws = { on_equiv bits_of_set nat_eq_equiv };
}

/// Why words stand for no rights.
#[derive(Clone, Copy, Debug, Error, PartialEq, Eq)]
pub enum RightsFault {
    /// There is no word.
    #[error("no rights")]
    Empty,
    /// The word at that index, counted from 0, stands for no right.
    #[error("unknown right at {0}")]
    UnknownRight(u32),
    /// The word at that index, counted from 0, equals an earlier one.
    #[error("repeated right at {0}")]
    RepeatedRight(u32),
}

/// An index as the faults have it: at most `u32::MAX`.
fn index_of(index: usize) -> u32
    ensures { result ≡ spec.index_of index }
{
    u32::try_from(index).unwrap_or(u32::MAX)
}

/// Whether one of the words equals that word.
fn is_among(words: &[Text], word: &Text) -> bool
    ensures { result ≡ list_any (bytes_eq word.now) words.now }
{
    words
        .iter()
        .any(|earlier| word.as_str() == earlier.as_str())
}

impl Rights {
    /// The empty set.
    pub fn none() -> Rights
        ensures { result ≡ spec.no_rights }
    {
        Rights { bits: 0 }
    }

    /// The set of this right alone.
    pub fn only(right: Right) -> Rights
        ensures { result ≡ spec.only right }
    {
        match right {
            Right::Connect => Rights { bits: 1 },
            Right::Enumerate => Rights { bits: 2 },
            Right::Execute => Rights { bits: 4 },
            Right::GetAttributes => Rights { bits: 8 },
            Right::ModifyDirectory => Rights { bits: 16 },
            Right::ReadBytes => Rights { bits: 32 },
            Right::Traverse => Rights { bits: 64 },
            Right::UpdateAttributes => Rights { bits: 128 },
            Right::WriteBytes => Rights { bits: 256 },
        }
    }

    /// The rights that are in either set.
    pub fn union(self, other: Rights) -> Rights
        ensures { result ≡ spec.union self other }
    {
        Rights {
            bits: self.bits | other.bits,
        }
    }

    /// Whether each right of `other` is in `self`.
    pub fn contains(self, other: Rights) -> bool
        ensures { result ≡ spec.contains self other }
    {
        self.bits & other.bits == other.bits
    }

    /// Whether no right is in the set.
    pub fn is_empty(self) -> bool
        ensures { IsTrue result ↔ (self ≡ spec.no_rights) }
    {
        self.bits == 0
    }

    /// Whether the right is in the set.
    pub fn has(self, right: Right) -> bool
        ensures { result ≡ spec.has self right }
    {
        self.contains(Rights::only(right))
    }

    /// The rights that a word stands for.
    #[tactic(auto, unfolding(crate::specs::Rights::rights_of_word))]
    fn of_word(word: &str) -> Option<Rights>
        ensures { result ≡ spec.rights_of_word word.now }
    {
        match word {
            "r*" => Some(Rights::reading()),
            "w*" => Some(Rights::writing()),
            "x*" => Some(Rights::executing()),
            "rw*" => Some(Rights::reading().union(Rights::writing())),
            "rx*" => Some(Rights::reading().union(Rights::executing())),
            _ => match Right::named(word) {
                Some(right) => Some(Rights::only(right)),
                None => None,
            },
        }
    }

    /// The rights of `r*`.
    fn reading() -> Rights
        ensures { result ≡ spec.reading }
    {
        Rights::walking()
            .union(Rights::only(Right::ReadBytes))
            .union(Rights::only(Right::GetAttributes))
    }

    /// The rights of `w*`.
    fn writing() -> Rights
        ensures { result ≡ spec.writing }
    {
        Rights::walking()
            .union(Rights::only(Right::WriteBytes))
            .union(Rights::only(Right::ModifyDirectory))
            .union(Rights::only(Right::UpdateAttributes))
    }

    /// The rights of `x*`.
    fn executing() -> Rights
        ensures { result ≡ spec.executing }
    {
        Rights::walking().union(Rights::only(Right::Execute))
    }

    /// The rights that `r*`, `w*` and `x*` have in common.
    fn walking() -> Rights
        ensures { result ≡ spec.walking }
    {
        Rights::only(Right::Connect)
            .union(Rights::only(Right::Enumerate))
            .union(Rights::only(Right::Traverse))
    }

    /// The union of the words' rights: a right is in it exactly where one of the words stands for
    /// a set that has it. It takes no memory.
    ///
    /// `Err(Empty)` comes where there is no word. Else the first word that has a fault gives it:
    /// `UnknownRight` where it stands for no right, and `RepeatedRight` where it equals an earlier
    /// word. An index above `u32::MAX` is given as `u32::MAX`.
    #[tactic(auto, unfolding(crate::specs::Rights::rights_of))]
    pub fn read_words(words: &[Text]) -> Result<Rights, RightsFault>
        ensures read { result ≡ spec.rights_of words.now }
        ensures union { IfOk result (λ rights. (right : OneRight)
            → spec.has rights right ≡ list_any (spec_inside.word_has right) words.now) }
    {
        if words.is_empty() {
            return Err(RightsFault::Empty);
        }
        let mut rights = Rights::none();
        for (i, word) in words.iter().enumerate() {
            let Some(more) = Rights::of_word(word.as_str()) else {
                return Err(RightsFault::UnknownRight(index_of(i)));
            };
            if is_among(&words[..i], word) {
                return Err(RightsFault::RepeatedRight(index_of(i)));
            }
            rights = rights.union(more);
        }
        Ok(rights)
    }

    /// The union of the words' rights, or `None` where [`Rights::read_words`] finds a fault.
    pub fn of_words(words: &[Text]) -> Option<Rights>
        ensures { result ≡ spec_inside.rights_if_faultless (spec.rights_of words.now) }
    {
        match Rights::read_words(words) {
            Ok(rights) => Some(rights),
            Err(_) => None,
        }
    }

    /// The names of the rights that are in the set, in their order. `Err(Memory)` comes where
    /// memory runs out.
    pub fn words(self, alloc: Global) -> Result<List<Text>, Memory>
        ensures { IfOk result (λ words. words ≡ spec.words_of self) }
    {
        let mut words = List::new(alloc);
        for right in Right::all() {
            if self.has(right) {
                words.push(Text::from_str(alloc, right.word())?)?;
            }
        }
        Ok(words)
    }

    /// The names of the rights that are in the set, in their order and joined by `,`.
    /// `Err(Memory)` comes where memory runs out.
    pub fn text(self, alloc: Global) -> Result<Text, Memory>
        ensures { IfOk result (λ text. text ≡ spec.text_of self) }
    {
        let words = self.words(alloc)?;
        joined(alloc, words.as_slice())
    }
}

/// The words, joined by `,`, for [`Rights::text`].
fn joined(alloc: Global, words: &[Text]) -> Result<Text, Memory>
    ensures { IfOk result (λ text. text ≡ join_with_byte 44 words.now) }
{
    let mut text = Text::new(alloc);
    for (i, word) in words.iter().enumerate() {
        if i > 0 {
            text.push_str(",")?;
        }
        text.push_str(word.as_str())?;
    }
    Ok(text)
}

/// Law: the names of a set's rights are read as that set.
pub fn words_are_read_back()
    ensures { spec_inside.WordsAreReadBack }
{}
