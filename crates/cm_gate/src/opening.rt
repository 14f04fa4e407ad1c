//! Folders, of which a file is opened and read from its beginning.

ghost use Rattle.std.specs.Prelude.{◌≡◌, ◌≢◌, ◌⊎◌, ◌≤◌, IfErr, IfOk, length};
ghost use Rattle.std.specs.IoError.{error_kind};
ghost use Rattle.cm_gate.specs.Places.{HasAtMost};
ghost use Rattle.cm_gate.specs.Reads.{FindsAt, FindsIn, IsPrefix, IsMissing};

use crate::Fetched;
use cm_names::List;
use std::alloc::Global;
use std::io::{ErrorKind, Read};
use std::rt::Files;
use std::{fs, io};

/// How many bytes of a file are read: one more than a manifest may have, so that one that is too
/// long can be told from one that isn't.
const LONGEST_READ: u64 = 1_048_577;

/// Where files are found by their places.
///
/// Each system of files is such a folder, which says nothing of what stands where, or what breaks.
pub trait Folder {
    ghost use Rattle.std.specs.Prelude.{ℕ, List};
    ghost use Rattle.std.specs.declared.io.ErrorKind.{ErrorKind};

    /// A file that was opened.
    type File: Read + Drop;

    /// A file was opened at a place of this folder.
    ghost opened: { Self → List ℕ → Self.File → Type 0 };

    /// No file was opened at a place of this folder, for this reason.
    ghost refused: { Self → List ℕ → ErrorKind → Type 0 };

    /// An open file was read, and broke for this reason.
    ghost broken: { Self.File → ErrorKind → Type 0 };

    /// Opens the file at a place.
    fn open_at(&self, place: &str) -> io::Result<Self::File>
        ensures opened { IfOk result (λ file. opened self.now place.now file) }
        ensures refused { IfErr result (λ error. refused self.now place.now (error_kind error)) };

    /// Reads the bytes that an open file has left, or the first 1,048,577 of them.
    fn read_prefix(&self, file: Self::File, alloc: Global) -> io::Result<Vec<u8>>
        ensures prefix { IfOk result (λ bytes. IsPrefix 1048577 (Self.File.remaining file) bytes.items) }
        ensures length { IfOk result (λ bytes. length bytes.items ≤ 1048577) }
        ensures broken { IfErr result (λ error. broken file (error_kind error)) };
}

impl<F: Files> Folder for F {
    ghost use Rattle.std.specs.Prelude.{⊤};

    /// A file of the file system.
    type File = F::File;

    ghost opened = { λ _ _ _. ⊤ };

    ghost refused = { λ _ _ _. ⊤ };

    ghost broken = { λ _ _. ⊤ };

    /// Opens the file at the path for reading.
    fn open_at(&self, place: &str) -> io::Result<F::File> {
        fs::open(self, place)
    }

    /// Reads on from where the file stands. The bound doesn't rest on how many bytes the file says that
    /// it gave.
    fn read_prefix(&self, file: F::File, alloc: Global) -> io::Result<Vec<u8>> {
        read_up_to_limit(file, alloc)
    }
}

/// The bytes that a file has left, or the first 1,048,577 of them.
fn read_up_to_limit<T: Read + Drop>(file: T, alloc: Global) -> io::Result<Vec<u8>>
    ensures prefix { IfOk result (λ bytes. IsPrefix 1048577 (T.remaining file) bytes.items) }
    ensures length { IfOk result (λ bytes. length bytes.items ≤ 1048577) }
{
    let mut bytes = Vec::new(alloc);
    file.take(LONGEST_READ).read_to_end(&mut bytes)?;
    bytes.truncate(LONGEST_READ as usize);
    Ok(bytes)
}

/// What it means that no file can be opened.
fn unopened(error: &io::Error) -> Fetched
    ensures missing { error_kind error.now ≡ ErrorKind.NotFound → result ≡ Fetched.Absent }
    ensures inside_file { error_kind error.now ≡ ErrorKind.NotADirectory →
        result ≡ Fetched.Absent }
    ensures memory { error_kind error.now ≡ ErrorKind.OutOfMemory → result ≡ Fetched.Memory }
    ensures failed { (result ≡ Fetched.Failed) ⊎ (IsMissing (error_kind error.now))
        ⊎ (error_kind error.now ≡ ErrorKind.OutOfMemory) }
    ensures there { result ≡ Fetched.Failed → IsMissing (error_kind error.now) → ⊥ }
    ensures other { result ≡ Fetched.Failed → error_kind error.now ≢ ErrorKind.OutOfMemory }
{
    match error.kind() {
        ErrorKind::NotFound | ErrorKind::NotADirectory => Fetched::Absent,
        ErrorKind::OutOfMemory => Fetched::Memory,
        _ => Fetched::Failed,
    }
}

/// What it means that a file that was opened can't be read.
fn unread(error: &io::Error) -> Fetched
    ensures memory { error_kind error.now ≡ ErrorKind.OutOfMemory → result ≡ Fetched.Memory }
    ensures failed { (result ≡ Fetched.Failed) ⊎ (error_kind error.now ≡ ErrorKind.OutOfMemory) }
    ensures other { result ≡ Fetched.Failed → error_kind error.now ≢ ErrorKind.OutOfMemory }
{
    match error.kind() {
        ErrorKind::OutOfMemory => Fetched::Memory,
        _ => Fetched::Failed,
    }
}

/// What is found in a file that was opened.
fn find_in<F: Folder>(folder: &F, file: F::File, alloc: Global) -> Fetched
    ensures finds { FindsIn F.File.remaining F.broken file result }
    ensures length { HasAtMost 1048577 result }
{
    match folder.read_prefix(file, alloc) {
        Ok(bytes) => Fetched::Found(List::from_vec(bytes)),
        Err(error) => unread(&error),
    }
}

/// What is found at a place of a folder.
pub(crate) fn find_at<F: Folder>(folder: &F, alloc: Global, place: &str) -> Fetched
    ensures finds { FindsAt F.opened F.refused F.File.remaining F.broken folder.now place.now result }
    ensures length { HasAtMost 1048577 result }
{
    match folder.open_at(place) {
        Ok(file) => find_in(folder, file, alloc),
        Err(error) => unopened(&error),
    }
}
