//! Where a file is written under one name and then gets another one.

ghost use Rattle.std.specs.Prelude.{[], ◌∷◌, IfOk, is_ok};
ghost use Rattle.cm_keep.specs.Asked.{Asks};

use cm_names::Text;
use std::fs::{OpenFile, OpenOptions};
use std::io::{Error, ErrorKind, Write};
use std::rt::Files;
use std::{fs, io};

/// What a place of files was asked, with the names that it was told, and whether that went well.
#[derive(Debug, Drop)]
pub enum PlaceCall {
    /// To look whether a file can get this name.
    Check(Text, bool),
    /// To make a new file of this name.
    Create(Text, bool),
    /// To have what was written into a file reach the disk.
    Sync(bool),
    /// To give what has the first name the second one.
    Rename(Text, Text, bool),
    /// To take away what has this name. How that went isn't told.
    Remove(Text),
}

/// Where files have names.
///
/// A place may tell all that it was asked. Each system of files is a place, which tells neither that nor
/// what its files are called.
pub trait FilePlace {
    ghost use Rattle.std.specs.Prelude.{ℕ, List, Option};
    ghost use Rattle.cm_keep.specs.declared.place.PlaceCall.{PlaceCall};

    /// A file that is written.
    type Draft: Write + Drop;

    /// What it was asked so far, one after the other, where that is told.
    ghost asked: { Self → Option (List PlaceCall) };

    /// A file may get this name, as far as the name tells.
    ghost fits: { List ℕ → Type 0 };

    /// A new file has this name, and nothing was written into it yet.
    ghost created: { List ℕ → Self.Draft → Type 0 };

    /// What was written into a file has reached the disk.
    ghost synced: { Self.Draft → Type 0 };

    /// What had the first of two names got the second one, in the place of what had that.
    ghost renamed: { List ℕ → List ℕ → Type 0 };

    /// It was asked for that nothing has this name.
    ghost unnamed: { List ℕ → Type 0 };

    /// Refuses a name that no file can get: an empty one, and that of a folder or of a thing that is no
    /// regular file.
    fn check(&mut self, name: &str) -> io::Result<()>
        ensures fits { IfOk result (λ _. fits name.now) }
        ensures asked { Asks (asked self.old) (asked self.new)
            (PlaceCall.Check name.now (is_ok result) ∷ []) };

    /// Makes a new file of this name. One that is left there is taken away before.
    fn create(&mut self, name: &str) -> io::Result<Self::Draft>
        ensures created { IfOk result (λ file. created name.now file) }
        ensures asked { Asks (asked self.old) (asked self.new)
            (PlaceCall.Create name.now (is_ok result) ∷ []) };

    /// Has what was written into a file reach the disk.
    fn sync(&mut self, file: &Self::Draft) -> io::Result<()>
        ensures synced { IfOk result (λ _. synced file.now) }
        ensures asked { Asks (asked self.old) (asked self.new) (PlaceCall.Sync (is_ok result) ∷ []) };

    /// Gives what has the first name the second one.
    fn rename(&mut self, from: &str, to: &str) -> io::Result<()>
        ensures renamed { IfOk result (λ _. renamed from.now to.now) }
        ensures asked { Asks (asked self.old) (asked self.new)
            (PlaceCall.Rename from.now to.now (is_ok result) ∷ []) };

    /// Takes away what has this name, where that is possible.
    fn remove(&mut self, name: &str)
        ensures unnamed { unnamed name.now }
        ensures asked { Asks (asked self.old) (asked self.new) (PlaceCall.Remove name.now ∷ []) };
}

impl<F: Files> FilePlace for F {
    ghost use Rattle.std.specs.Prelude.{None, ⊤};
    ghost use Rattle.cm_keep.specs.Files.{MayNameFile};

    /// A file of the file system.
    type Draft = F::File;

    ghost asked = { λ _. None };

    ghost fits = { MayNameFile };

    ghost created = { λ _ _. ⊤ };

    ghost synced = { λ _. ⊤ };

    ghost renamed = { λ _ _. ⊤ };

    ghost unnamed = { λ _. ⊤ };

    /// Looks at what stands at the path.
    fn check(&mut self, name: &str) -> io::Result<()> {
        if name.is_empty() {
            return Err(Error::new(ErrorKind::InvalidInput, "no file is named"));
        }
        if name.ends_with("/") {
            return Err(Error::from(ErrorKind::IsADirectory));
        }
        match fs::metadata(self, name) {
            Ok(found) if found.is_file() => Ok(()),
            Ok(found) if found.is_dir() => Err(Error::from(ErrorKind::IsADirectory)),
            Ok(_) => Err(Error::new(ErrorKind::InvalidInput, "not a regular file")),
            Err(error) if error.kind() == ErrorKind::NotFound => Ok(()),
            Err(error) => Err(error),
        }
    }

    /// Opens a new file at the path. A file that is left of a process which was killed is taken away
    /// before.
    fn create(&mut self, name: &str) -> io::Result<F::File> {
        match fs::remove_file(self, name) {
            Ok(()) => {}
            Err(error) if error.kind() == ErrorKind::NotFound => {}
            Err(error) => return Err(error),
        }
        OpenOptions::new()
            .write(true)
            .create_new(true)
            .open(self, name)
    }

    /// Syncs the file.
    fn sync(&mut self, file: &F::File) -> io::Result<()> {
        file.sync_all()
    }

    /// Renames a file of the file system.
    fn rename(&mut self, from: &str, to: &str) -> io::Result<()> {
        fs::rename(self, from, to)
    }

    /// Removes a file of the file system. What the system says to that isn't told.
    fn remove(&mut self, name: &str) {
        match fs::remove_file(self, name) {
            Ok(()) => {}
            Err(_) => {}
        }
    }
}
