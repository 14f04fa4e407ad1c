//! Names of components, collections and capabilities.

ghost use Rattle.std.specs.Prelude.{ℕ, List, ◌↔◌, ◌≡◌, ◌≢◌, ◌++◌, Some, None, ◌<◌, ◌≤◌, not, position};
ghost use Rattle.std.specs.Prelude.{IsTrue, IfOk, IfErr, IfSome, IfNone, All, length};
ghost use Rattle.std.specs.List.{take_while};
ghost use Rattle.cm_names.specs.Name.{begins_name, continues_name, first_bad, IsName, name_fault};

use crate::{MAX_NAME_BYTES, Memory, Plain, Text};
use std::alloc::{AllocError, Global};
use std::convert::AsStr;
use std::marker::Model;
use std::{fmt, str};
use thiserror::Error;

/// Why a text is no name. The first that holds, in this order.
#[derive(Debug, Clone, Copy, PartialEq, Eq, Error)]
pub enum NameFault {
    /// The text has no byte.
    #[error("empty name")]
    Empty,
    /// The text has more than 255 bytes.
    #[error("name too long")]
    TooLong,
    /// The byte at this position, counted from 0, may not stand there.
    #[error("bad byte at {0}")]
    BadByte(u32),
    /// Memory ran out.
    #[error("out of memory")]
    Memory,
}

impl From<Memory> for NameFault {
    ghost use Rattle.std.specs.Prelude.{◌≡◌};
    ghost use Rattle.cm_names.specs.declared.name.NameFault.TheVariants.{Memory as OutOfMemory};

    ghost from_gives = { λ _ e. e ≡ OutOfMemory };

    /// For `?` after a call that lacked memory.
    fn from(_: Memory) -> NameFault {
        NameFault::Memory
    }
}

/// A name: 1 to 255 bytes, each an ASCII letter, a digit, `_`, `-` or `.`, of which the first is
/// a letter, a digit or `_`. Contracts see it as its bytes.
///
/// This is the name of Fuchsia's component manifest reference (fuchsia.dev). The limit of 255 bytes
/// is that of its short names; that it holds for names of every kind is this project's own choice.
/// Names are ordered by their bytes.
#[derive(Debug, PartialEq, Eq, PartialOrd, Ord, Hash)]
pub struct Name {
    text: Text,
}

impl Drop for Name {
    /// Called where the value goes: gives back the memory of its parts.
    fn drop(self) {
        let Name { text: _ } = self;
    }
}

impl Model for Name {
    ghost use Rattle.std.specs.Prelude.{List as Seq, ℕ};
    ghost use Rattle.cm_names.specs.Name.{IsName};

    ghost Value = { Seq ℕ };

    ghost view = { λ a. a.text };

    ghost invariant = { λ a. IsName a.text };

    ghost inverse = { λ t. record { text = t } };
}

/// Whether a name may begin with the byte.
pub fn begins(byte: u8) -> bool
    ensures { result ≡ begins_name byte }
{
    matches!(byte, b'0'..=b'9' | b'A'..=b'Z' | b'a'..=b'z' | b'_')
}

/// Whether the byte may stand in a name after the first one.
pub fn continues(byte: u8) -> bool
    ensures { result ≡ continues_name byte }
{
    begins(byte) || byte == b'-' || byte == b'.'
}

/// The first place after a name's first byte of a byte that may not stand there.
fn bad_rest(rest: &[u8]) -> Option<usize>
    ensures place { result ≡ position (λ c. not (continues_name c)) rest.now }
    ensures none { IfNone result (All (λ c. IsTrue (continues_name c)) rest.now) }
    ensures bound { IfSome result (λ i. i < length rest.now) }
{
    rest.iter().position(|b| !continues(*b))
}

/// The first place of a byte that may not stand there in a name.
fn bad_place(text: &[u8]) -> Option<usize>
    ensures place { result ≡ first_bad text.now }
    ensures none { length text.now ≤ 255 → 0 < length text.now → IfNone result (IsName text.now) }
    ensures bound { IfSome result (λ i. i < length text.now) }
{
    match text {
        [] => None,
        [first, rest @ ..] => {
            if begins(*first) {
                match bad_rest(rest) {
                    Some(place) => Some(place + 1),
                    None => None,
                }
            } else {
                Some(0)
            }
        }
    }
}

/// How many bytes in front may stand in a name after the first one.
fn name_bytes(rest: &[u8]) -> usize
    ensures { result ≡ length (take_while continues_name rest.now) }
{
    rest.iter().take_while(|b| continues(**b)).count()
}

/// The text of these bytes, which are a name.
fn name_text(bytes: &[u8]) -> &str
    requires { IsName bytes.now }
    ensures { result.now ≡ bytes.now }
{
    // The bytes of a name are ASCII.
    unsafe { str::from_utf8_unchecked(bytes) }
}

/// The name that the bytes begin with, up to the first byte that may not stand in one, and what stands
/// behind it. `None` says nothing of them; it comes where they begin with no name, and where more than 255
/// bytes would be one.
fn cut_name(bytes: &[u8]) -> Option<(&str, &[u8])>
    ensures { IfSome result (λ cut. IsName cut.0.now × (bytes.now ≡ cut.0.now ++ cut.1.now)) }
{
    let [first, rest @ ..] = bytes else {
        return None;
    };
    if !begins(*first) {
        return None;
    }
    let count = name_bytes(rest) + 1;
    if count > MAX_NAME_BYTES {
        return None;
    }
    Some((name_text(&bytes[..count]), &bytes[count..]))
}

impl Name {
    /// The name that the bytes begin with, up to the first byte that may not stand in one, and what stands
    /// behind it. `None` says nothing of them; it comes where they begin with no name, and where more than
    /// 255 bytes would be one. `Err(Memory)` comes where memory runs out.
    pub fn take_prefix(alloc: Global, bytes: &[u8]) -> Result<Option<(Name, &[u8])>, Memory>
        ensures { IfOk result (λ found. IfSome found (λ cut.
            IsName cut.0 × (bytes.now ≡ cut.0 ++ cut.1.now))) }
    {
        let Some((prefix, behind)) = cut_name(bytes) else {
            return Ok(None);
        };
        let text = Text::from_str(alloc, prefix)?;
        Ok(Some((Name { text }, behind)))
    }

    /// The name with the bytes of `text`, or the first fault of the text, in this order:
    ///
    /// - `Empty` where it has no byte;
    /// - `TooLong` where it has more than 255 bytes;
    /// - `BadByte` with the place of the first byte that may not stand there, counted from 0;
    /// - `Memory` where memory runs out.
    pub fn read(alloc: Global, text: &str) -> Result<Name, NameFault>
        ensures same { IfOk result (λ name. name ≡ text.now) }
        ensures is_name { IfOk result (λ _. IsName text.now) }
        ensures ok { IfOk result (λ _. name_fault text.now ≡ None) }
        ensures fault { IfErr result (λ e. e ≢ NameFault.Memory → name_fault text.now ≡ Some e) }
    {
        if text.is_empty() {
            return Err(NameFault::Empty);
        }
        if text.len() > MAX_NAME_BYTES {
            return Err(NameFault::TooLong);
        }
        if let Some(place) = bad_place(text.as_bytes()) {
            return Err(NameFault::BadByte(place as u32));
        }
        let text = Text::from_str(alloc, text)?;
        Ok(Name { text })
    }

    /// The text of the name.
    pub fn as_str(&self) -> &str
        ensures text { result.now ≡ self.now }
        ensures is_name { IsName self.now }
    {
        self.text.as_str()
    }
}

impl Clone for Name {
    ghost use Rattle.std.specs.Prelude.{◌≡◌};

    ghost is_clone = { λ a b. b ≡ a };

    /// A copy, which contracts see as the same value. `Err` comes where memory runs out.
    fn clone(&self) -> Result<Name, AllocError> {
        let text = self.text.clone()?;
        Ok(Name { text })
    }
}

impl Plain for Name {
    ghost exact = { λ a b same. same };
}

impl fmt::Display for Name {
    ghost use Rattle.std.specs.Prelude.{Some};

    ghost output = { λ name. Some name };

    /// Writes the name's text.
    fn fmt<W: fmt::Write>(&self, f: &mut fmt::Formatter<W>) -> fmt::Result {
        f.write_str(self.as_str())
    }
}

impl AsStr for Name {
    ghost text = { λ name. name };

    /// The name's text, for code that takes any such value.
    fn as_str(&self) -> &str {
        Name::as_str(self)
    }
}

/// A text is a name exactly where it has no fault.
pub fn faultless_texts_are_names()
    ensures { (t : List ℕ) → (name_fault t ≡ None) ↔ IsName t }
{}
