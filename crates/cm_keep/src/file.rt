//! A keeper that writes a file.

ghost use Rattle.std.specs.Prelude.{◌≡◌, ◌⊎◌, ◌++◌, false, true, [], ◌∷◌, codes, IfErr, IfOk, OnOk, Some};
ghost use Rattle.std.specs.IoError.{error_kind};
ghost use Rattle.cm_io.specs.Counts.{one_more};
ghost use Rattle.cm_keep.specs.Asked.{Asks, AsksOneOf, making, names_at, refusing, unmade};
ghost use Rattle.cm_keep.specs.Files.{IsFaultLine, TellsWhere, beside_name};
ghost use Rattle.cm_keep.specs.declared.place.PlaceCall.TheVariants as call;

use crate::{FilePlace, TextKeeper};
use cm_names::{Memory, Text};
use std::alloc::Global;
use std::io;
use std::io::{Error, ErrorKind, Write};

/// A keeper of a file, for a path of the file system.
///
/// The bytes are written into a new file beside it, whose name has the number of the process and `.new` at
/// its end. That is written through to the disk and renamed when it is whole. So at any time, and after
/// any end of the process, a file that stands at the path is a whole one.
#[derive(Drop)]
pub struct FileKeeper<F: FilePlace> {
    files: F,
    place: Text,
    beside: Text,
    file: F::Draft,
    is_pending: bool,
    is_left: bool,
    faults: u64,
    why: Option<Error>,
}

impl<F: FilePlace + Drop> FileKeeper<F> {
    /// A keeper for this path, whose new file is there and empty. `number` is that of the process.
    ///
    /// `Err` where the path is empty or names a folder or a thing that is no regular file, and where no
    /// file can be made beside it, or memory runs out: then `files` come back.
    pub fn new(
        alloc: Global,
        mut files: F,
        number: u32,
        place: &Text,
    ) -> Result<FileKeeper<F>, (F, Error)>
        ensures pending { IfOk result (λ keeper. ⟦<FileKeeper<F> as TextKeeper>⟧.pending keeper) }
        ensures faults { IfOk result (λ keeper. ⟦<FileKeeper<F> as TextKeeper>⟧.faults keeper ≡ 0) }
        ensures created { IfOk result (λ keeper. F.created keeper.beside keeper.file) }
        ensures place { IfOk result (λ keeper. keeper.place ≡ place.now) }
        ensures beside { IfOk result (λ keeper. keeper.beside ≡ beside_name place.now number) }
        ensures asked { IfOk result (λ keeper. Asks (F.asked files) (F.asked keeper.files)
            (making (names_at place.now number))) }
        ensures fits { OnOk result (F.fits place.now) }
        ensures unmade { IfErr result (λ left.
            AsksOneOf (F.asked files) (F.asked left.0) (unmade (names_at place.now number))) }
        ensures refused { IfErr result (λ left. (error_kind left.1 ≡ ErrorKind.OutOfMemory)
            ⊎ AsksOneOf (F.asked files) (F.asked left.0) (refusing (names_at place.now number))) }
    {
        if let Err(why) = files.check(place.as_str()) {
            return Err((files, why));
        }
        let Ok((place, beside)) = names(alloc, number, place) else {
            return Err((files, Error::from(ErrorKind::OutOfMemory)));
        };
        let file = match files.create(beside.as_str()) {
            Ok(file) => file,
            Err(why) => return Err((files, why)),
        };
        Ok(FileKeeper {
            files,
            place,
            beside,
            file,
            is_pending: true,
            is_left: false,
            faults: 0,
            why: None,
        })
    }

    /// The line that says that the journal doesn't stand in its place, and why; and where it stands, if it
    /// is whole.
    pub fn fault_line(&self, alloc: Global) -> Result<Text, Memory>
        ensures line { IfOk result (IsFaultLine self.now.place) }
        ensures left { self.now.is_left ≡ true →
            IfOk result (TellsWhere self.now.place self.now.beside) }
    {
        let beside = &self.beside;
        let mut told = Text::new(alloc);
        if let Some(why) = &self.why {
            told.push(format_args!(": {why}"))?;
        }
        if self.is_left {
            told.push(format_args!("; it stands in {beside}"))?;
        }
        line_of(alloc, &self.place, &told)
    }

    /// What it was made with, through which it asked all that it did.
    pub fn into_files(self) -> F
        ensures { result ≡ self.files }
    {
        let FileKeeper {
            files,
            place: _,
            beside: _,
            file: _,
            is_pending: _,
            is_left: _,
            faults: _,
            why: _,
        } = self;
        files
    }

    /// Counts a fault, and keeps why there was one.
    fn fail(&mut self, why: Error)
        ensures { let faults = one_more self.old.faults in
            self.new ≡ record self.old { faults = faults; why = Some why } }
    {
        self.faults = self.faults.saturating_add(1);
        self.why = Some(why);
    }
}

/// The path, and that of the new file beside it.
fn names(alloc: Global, number: u32, place: &Text) -> Result<(Text, Text), Memory>
    ensures place { IfOk result (λ names. names.0 ≡ place.now) }
    ensures beside { IfOk result (λ names. names.1 ≡ beside_name place.now number) }
{
    let mut beside = Text::new(alloc);
    beside.push(format_args!("{place}.{number}.new"))?;
    Ok((place.clone()?, beside))
}

impl<F: FilePlace + Drop> TextKeeper for FileKeeper<F> {
    ghost use Rattle.std.specs.Prelude.{◌≡◌, None, false, true};

    ghost draft = { λ k. F.Draft.contents k.file };

    ghost shown = { λ _. None };

    ghost placed = { λ k text. (text ≡ F.Draft.contents k.file) × F.synced k.file
        × F.renamed k.beside k.place };

    ghost names = { λ k. record { beside = k.beside; place = k.place } };

    ghost asked = { λ k. F.asked k.files };

    ghost pending = { λ k. k.is_pending ≡ true };

    ghost cleared = { λ k. k.is_pending ≡ false };

    ghost whole = { λ k. k.is_left ≡ true };

    ghost faults = { λ k. k.faults };

    /// Writes the bytes to the file beside the place. Tells whether that went well.
    fn put(&mut self, bytes: &[u8]) -> bool {
        match self.file.write_all(bytes) {
            Ok(()) => true,
            Err(why) => {
                self.fail(why);
                false
            }
        }
    }

    /// Syncs the file beside the place and renames it to the place, so that a whole text always stands
    /// there. Tells whether that went well.
    fn show(&mut self) -> bool {
        if let Err(why) = self.files.sync(&self.file) {
            self.give_up();
            self.fail(why);
            return false;
        }
        match self.files.rename(self.beside.as_str(), self.place.as_str()) {
            Ok(()) => {
                self.is_pending = false;
                true
            }
            Err(why) => {
                self.is_left = true;
                self.fail(why);
                false
            }
        }
    }

    /// Has the system remove the file beside the place. Whether it does is the system's own.
    fn give_up(&mut self)
        ensures cleared { self.new ≡ record self.old { files = self.new.files; is_pending = false } }
        ensures asked { Asks (F.asked self.old.files) (F.asked self.new.files)
            (call.Remove self.old.beside ∷ []) }
        ensures unnamed { F.unnamed self.old.beside }
    {
        self.files.remove(self.beside.as_str());
        self.is_pending = false;
    }
}

/// The line that says that no file can be made for a journal there, and why. An empty path isn't named.
pub fn fault_line(alloc: Global, place: &Text, why: &Error) -> Result<Text, Memory>
    ensures { IfOk result (IsFaultLine place.now) }
{
    let mut told = Text::new(alloc);
    if place.is_empty() {
        told.push(format_args!("{why}"))?;
    } else {
        told.push(format_args!(": {why}"))?;
    }
    line_of(alloc, place, &told)
}

/// The line of a fault with the journal at that place, of which more is told.
fn line_of(alloc: Global, place: &Text, told: &Text) -> Result<Text, Memory>
    ensures { IfOk result (λ line. line
        ≡ codes "journal fault: " ++ (place.now ++ (told.now ++ codes "\n"))) }
{
    let mut line = Text::new(alloc);
    line.push(format_args!("journal fault: {place}{told}\n"))?;
    Ok(line)
}
