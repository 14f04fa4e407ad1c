//! Paths of capabilities, and subdirectories.

ghost use Rattle.std.specs.Prelude.{ℕ, List, false, ◌≡◌, ◌≢◌, ◌<◌, ◌≤◌, ◌+◌, ◌^◌, ◌++◌, ◌↔◌, length, not};
ghost use Rattle.std.specs.Prelude.{position, option_map, All, IsTrue, IfOk, OnOk, IfErr, IfSome, IfNone};
ghost use Rattle.std.specs.Prelude.{None, Some};
ghost use Rattle.std.specs.List.{flat_map};
ghost use Rattle.std.specs.Str.{bytes_eq};
ghost use Rattle.cm_names.specs.Path as spec;
ghost use Rattle.cm_names.specs.PathInside as spec_inside;

use crate::{MAX_PATH_BYTES, Memory, Name, Plain, Text};
use std::alloc::{AllocError, Global};
use std::convert::AsStr;
use std::fmt;
use std::marker::Model;
use thiserror::Error;

/// Why a text is no path or no subdirectory. `Empty`, `TooLong` and `NotAbsolute` or
/// `NotRelative` come first, in this order, then the first by place of the other faults. Places
/// are of bytes, counted from 0.
///
/// No two faults have one place: an empty part has no byte of its own, so a slash or the text's
/// end stands at its place, and the bytes of `.` and `..` may all stand in a path.
#[derive(Debug, Clone, Copy, PartialEq, Eq, Error)]
pub enum PathFault {
    /// The text has no byte.
    #[error("empty path")]
    Empty,
    /// The text has more than 4,096 bytes.
    #[error("path too long")]
    TooLong,
    /// The byte at this place is neither `/` nor from 0x21 to 0x7E.
    #[error("bad byte at {0}")]
    BadByte(u32),
    /// A path that does not begin with `/`.
    #[error("not an absolute path")]
    NotAbsolute,
    /// A subdirectory that begins with `/`.
    #[error("not a relative path")]
    NotRelative,
    /// The part that begins at this place has no byte.
    #[error("empty part at {0}")]
    EmptyPart(u32),
    /// The part that begins at this place is `.` or `..`.
    #[error("dots at {0}")]
    DotPart(u32),
    /// Memory ran out.
    #[error("out of memory")]
    Memory,
}

impl From<Memory> for PathFault {
    ghost use Rattle.std.specs.Prelude.{◌≡◌};
    ghost use Rattle.cm_names.specs.declared.path.PathFault.TheVariants.{Memory as OutOfMemory};

    ghost from_gives = { λ _ e. e ≡ OutOfMemory };

    /// For `?` after a call that lacked memory.
    fn from(_: Memory) -> PathFault {
        PathFault::Memory
    }
}

/// Whether a part of a path may have the byte: printing ASCII, but no space and no slash.
fn is_part_byte(byte: u8) -> bool
    ensures { result ≡ spec.is_part_byte byte }
{
    byte >= 33 && byte <= 126 && byte != b'/'
}

/// Whether the bytes are the same.
fn is_same(a: &[u8], b: &[u8]) -> bool
    ensures { result ≡ bytes_eq a.now b.now }
{
    a == b
}

/// Whether the part is `.` or `..`.
fn is_dots(part: &[u8]) -> bool
    ensures { result ≡ spec.is_dots part.now }
{
    is_same(part, b".".as_slice()) || is_same(part, b"..".as_slice())
}

/// The first place of a byte that may not stand in a part.
fn bad_byte(part: &[u8]) -> Option<usize>
    ensures place { result ≡ position (λ b. not (spec.is_part_byte b)) part.now }
    ensures bound { IfSome result (λ i. i < length part.now) }
{
    part.iter().position(|b| !is_part_byte(*b))
}

/// The fault of a part that begins at `place`.
fn part_fault(place: usize, part: &[u8]) -> Option<PathFault>
    requires { place + length part.now < 2 ^ 32 }
    ensures { result ≡ spec.part_fault place part.now }
{
    if part.is_empty() {
        return Some(PathFault::EmptyPart(place as u32));
    }
    if is_dots(part) {
        return Some(PathFault::DotPart(place as u32));
    }
    match bad_byte(part) {
        Some(bad) => Some(PathFault::BadByte((place + bad) as u32)),
        None => None,
    }
}

/// The place of the first slash.
fn slash_in(rest: &[u8]) -> Option<usize>
    ensures place { result ≡ position spec.is_slash rest.now }
    ensures none { IfNone result (All (λ c. spec.is_slash c ≡ false) rest.now) }
    ensures bound { IfSome result (λ i. i < length rest.now) }
{
    rest.iter().position(|b| *b == b'/')
}

/// The first fault of the parts of a text that begins at `start`.
fn parts_fault(start: usize, text: &[u8]) -> Option<PathFault>
    requires { start + length text.now < 2 ^ 32 }
    ensures { result ≡ spec.parts_fault start text.now }
{
    let mut place = start;
    let mut rest = text;
    'parts: while let Some(i) = slash_in(rest) {
        if let Some(fault) = part_fault(place, &rest[..i]) {
            return Some(fault);
        }
        place = place + i + 1;
        rest = &rest[i + 1..];
    }
    part_fault(place, rest)
}

/// The first fault of a text that is to be a path, in the order of [`CapPath::read`].
fn path_fault(text: &[u8]) -> Option<PathFault>
    ensures { result ≡ spec.path_fault text.now }
{
    match text {
        [] => Some(PathFault::Empty),
        [first, rest @ ..] => {
            if text.len() > MAX_PATH_BYTES {
                Some(PathFault::TooLong)
            } else if *first == b'/' {
                parts_fault(1, rest)
            } else {
                Some(PathFault::NotAbsolute)
            }
        }
    }
}

/// The first fault of a text that is to be a subdirectory, in the order of [`SubDir::read`].
fn subdir_fault(text: &[u8]) -> Option<PathFault>
    ensures { result ≡ spec.subdir_fault text.now }
{
    match text {
        [] => Some(PathFault::Empty),
        [first, ..] => {
            if text.len() > MAX_PATH_BYTES {
                Some(PathFault::TooLong)
            } else if *first == b'/' {
                Some(PathFault::NotRelative)
            } else {
                parts_fault(0, text)
            }
        }
    }
}

/// An absolute path: `/`, and one or more parts that are joined by `/`, in at most 4,096 bytes. A
/// part has one or more bytes from 0x21 to 0x7E other than `/`, and is not `.` or `..`. Contracts
/// see it as its bytes.
///
/// This is the path of Fuchsia's component manifest reference (fuchsia.dev). The limit of 4,096
/// bytes and the range of bytes are this project's own. Paths are ordered by their bytes.
#[derive(Debug, PartialEq, Eq, PartialOrd, Ord)]
pub struct CapPath {
    text: Text,
}

impl Drop for CapPath {
    /// Called where the value goes: gives back the memory of its parts.
    fn drop(self) {
        let CapPath { text: _ } = self;
    }
}

impl Model for CapPath {
    ghost use Rattle.std.specs.Prelude.{List as Seq, ℕ, IsTrue};
    ghost use Rattle.cm_names.specs.Path.{is_path};

    ghost Value = { Seq ℕ };

    ghost view = { λ a. a.text };

    ghost invariant = { λ a. IsTrue (is_path a.text) };

    ghost inverse = { λ t. record { text = t } };
}

impl CapPath {
    /// The path with the bytes of `text`, or the first fault of the text, in this order:
    ///
    /// - `Empty` where it has no byte;
    /// - `TooLong` where it has more than 4,096 bytes;
    /// - `NotAbsolute` where it doesn't begin with `/`;
    /// - the one at the least place of `BadByte`, `EmptyPart` and `DotPart`; a bad byte stands at
    ///   itself, a part at its first byte;
    /// - `Memory` where memory runs out.
    #[tactic(auto, using(crate::proofs::lemmas::texts::Path::faultless_path))]
    pub fn read(alloc: Global, text: &str) -> Result<CapPath, PathFault>
        ensures same { IfOk result (λ path. path ≡ text.now) }
        ensures ok { IfOk result (λ _. spec.path_fault text.now ≡ None) }
        ensures fault { IfErr result (λ e. e ≢ PathFault.Memory
            → spec.path_fault text.now ≡ Some e) }
    {
        if let Some(fault) = path_fault(text.as_bytes()) {
            return Err(fault);
        }
        let text = Text::from_str(alloc, text)?;
        Ok(CapPath { text })
    }

    /// The path that a protocol of this name has by default: `/svc/` and the name. `Err(Memory)`
    /// comes where memory runs out.
    #[tactic(auto, using(crate::proofs::lemmas::texts::Path::service_is_path))]
    pub fn service(alloc: Global, name: &Name) -> Result<CapPath, Memory>
        ensures { IfOk result (λ path. path ≡ spec.service_path name.now) }
    {
        let mut text = Text::from_str(alloc, "/svc/")?;
        text.push_str(name.as_str())?;
        Ok(CapPath { text })
    }

    /// The text of the path.
    pub fn as_str(&self) -> &str
        ensures text { result.now ≡ self.now }
        ensures is_path { IsTrue (spec.is_path self.now) }
    {
        self.text.as_str()
    }

    /// The path's text, followed by `/` and each subdirectory in their order. The text may have
    /// more than 4,096 bytes. `Err(Memory)` comes where memory runs out.
    pub fn join(&self, alloc: Global, subdirs: &[SubDir]) -> Result<Text, Memory>
        ensures { IfOk result (λ text. text ≡ spec.joined_text self.now subdirs.now) }
    {
        let mut text = Text::from_str(alloc, self.as_str())?;
        push_slashed(&mut text, subdirs)?;
        Ok(text)
    }

    /// Whether the path names something inside of `folder`, which is where it begins with
    /// `folder` and a slash.
    pub fn is_inside(&self, folder: &CapPath) -> bool
        ensures { IsTrue result ↔ spec_inside.IsInside self.now folder.now }
    {
        match self.as_str().strip_prefix(folder.as_str()) {
            Some(rest) => rest.starts_with('/'),
            None => false,
        }
    }
}

/// Puts each subdirectory after a slash at the text's end.
fn push_slashed(text: &mut Text, subdirs: &[SubDir]) -> Result<(), Memory>
    ensures { OnOk result (text.new ≡ text.old ++ flat_map spec.slash_and_text subdirs.now) }
{
    for subdir in subdirs {
        text.push_str("/")?;
        text.push_str(subdir.as_str())?;
    }
    Ok(())
}

impl Clone for CapPath {
    ghost use Rattle.std.specs.Prelude.{◌≡◌};

    ghost is_clone = { λ a b. b ≡ a };

    /// A copy, which contracts see as the same value. `Err` comes where memory runs out.
    fn clone(&self) -> Result<CapPath, AllocError> {
        let text = self.text.clone()?;
        Ok(CapPath { text })
    }
}

impl Plain for CapPath {
    ghost exact = { λ a b same. same };
}

impl fmt::Display for CapPath {
    ghost use Rattle.std.specs.Prelude.{Some};

    ghost output = { λ path. Some path };

    /// Writes the path's text.
    fn fmt<W: fmt::Write>(&self, f: &mut fmt::Formatter<W>) -> fmt::Result {
        f.write_str(self.as_str())
    }
}

impl AsStr for CapPath {
    ghost text = { λ path. path };

    /// The path's text, for code that takes any such value.
    fn as_str(&self) -> &str {
        CapPath::as_str(self)
    }
}

/// A subdirectory: one or more parts of a path that are joined by `/`, in at most 4,096 bytes.
/// Contracts see it as its bytes.
///
/// This is `subdir` of Fuchsia's component manifest reference (fuchsia.dev). The limit of 4,096
/// bytes and the range of bytes are this project's own. Subdirectories are ordered by their bytes.
#[derive(Debug, PartialEq, Eq, PartialOrd, Ord)]
pub struct SubDir {
    text: Text,
}

impl Drop for SubDir {
    /// Called where the value goes: gives back the memory of its parts.
    fn drop(self) {
        let SubDir { text: _ } = self;
    }
}

impl Model for SubDir {
    ghost use Rattle.std.specs.Prelude.{List as Seq, ℕ, IsTrue};
    ghost use Rattle.cm_names.specs.Path.{is_subdir};

    ghost Value = { Seq ℕ };

    ghost view = { λ a. a.text };

    ghost invariant = { λ a. IsTrue (is_subdir a.text) };

    ghost inverse = { λ t. record { text = t } };
}

impl SubDir {
    /// The subdirectory with the bytes of `text`, or the first fault of the text, in this order:
    ///
    /// - `Empty` where it has no byte;
    /// - `TooLong` where it has more than 4,096 bytes;
    /// - `NotRelative` where it begins with `/`;
    /// - the one at the least place of `BadByte`, `EmptyPart` and `DotPart`; a bad byte stands at
    ///   itself, a part at its first byte;
    /// - `Memory` where memory runs out.
    #[tactic(auto, using(crate::proofs::lemmas::texts::Path::faultless_subdir))]
    pub fn read(alloc: Global, text: &str) -> Result<SubDir, PathFault>
        ensures same { IfOk result (λ subdir. subdir ≡ text.now) }
        ensures ok { IfOk result (λ _. spec.subdir_fault text.now ≡ None) }
        ensures fault { IfErr result (λ e. e ≢ PathFault.Memory
            → spec.subdir_fault text.now ≡ Some e) }
    {
        if let Some(fault) = subdir_fault(text.as_bytes()) {
            return Err(fault);
        }
        let text = Text::from_str(alloc, text)?;
        Ok(SubDir { text })
    }

    /// The text of the subdirectory.
    pub fn as_str(&self) -> &str
        ensures text { result.now ≡ self.now }
        ensures is_subdir { IsTrue (spec.is_subdir self.now) }
    {
        self.text.as_str()
    }
}

impl Clone for SubDir {
    ghost use Rattle.std.specs.Prelude.{◌≡◌};

    ghost is_clone = { λ a b. b ≡ a };

    /// A copy, which contracts see as the same value. `Err` comes where memory runs out.
    fn clone(&self) -> Result<SubDir, AllocError> {
        let text = self.text.clone()?;
        Ok(SubDir { text })
    }
}

impl Plain for SubDir {
    ghost exact = { λ a b same. same };
}

impl fmt::Display for SubDir {
    ghost use Rattle.std.specs.Prelude.{Some};

    ghost output = { λ subdir. Some subdir };

    /// Writes the subdirectory's text.
    fn fmt<W: fmt::Write>(&self, f: &mut fmt::Formatter<W>) -> fmt::Result {
        f.write_str(self.as_str())
    }
}

impl AsStr for SubDir {
    ghost text = { λ subdir. subdir };

    /// The subdirectory's text, for code that takes any such value.
    fn as_str(&self) -> &str {
        SubDir::as_str(self)
    }
}

/// A text is a path exactly where it has no fault as a path.
pub fn faultless_texts_are_paths()
    ensures { (t : List ℕ) → (spec.path_fault t ≡ None) ↔ IsTrue (spec.is_path t) }
{}

/// A text is a subdirectory exactly where it has no fault as a subdirectory.
pub fn faultless_texts_are_subdirs()
    ensures { (t : List ℕ) → (spec.subdir_fault t ≡ None) ↔ IsTrue (spec.is_subdir t) }
{}
