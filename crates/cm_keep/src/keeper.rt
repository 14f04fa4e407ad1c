//! A place for a text that is seen there as a whole or not at all.

ghost use Rattle.std.specs.Prelude.{◌≡◌, ◌⊎◌, false, true};
ghost use Rattle.std.specs.Io.KnownBytes.{Appends};
ghost use Rattle.cm_keep.specs.Asked.{Asks, AsksOneOf, failed_placing, failed_sync, giving_up, placing};
ghost use Rattle.cm_keep.specs.Keeping.{Counted, PutsUp};

/// A place for one text, which is handed over piece by piece and put there when it is whole. Nobody sees
/// a piece of it before. A keeper counts its faults, from 0 to 2^64 - 1, where the count stays.
pub trait TextKeeper: Drop {
    ghost use Rattle.std.specs.Prelude.{ℕ, List, Option};
    ghost use Rattle.cm_keep.specs.Asked.{FileNames};
    ghost use Rattle.cm_keep.specs.declared.place.PlaceCall.{PlaceCall};

    /// The bytes that were handed over, where they are known.
    ghost draft: { Self → Option (List ℕ) };

    /// The texts that were put into the place, one over the other, where they are known.
    ghost shown: { Self → Option (List (List ℕ)) };

    /// That this keeper has not put its text there yet: after that nothing more is handed over.
    ghost pending: { Self → Type 0 };

    /// These bytes were put into the place, and stand there now.
    ghost placed: { Self → Option (List ℕ) → Type 0 };

    /// The names that the text is written under, one after the other. They stay.
    ghost names: { Self → FileNames };

    /// What the files' own place was asked so far, where that is told.
    ghost asked: { Self → Option (List PlaceCall) };

    /// Nothing of what was handed over is held any more, but what stands in the place.
    ghost cleared: { Self → Type 0 };

    /// All of the text is held, though it couldn't be put into the place.
    ghost whole: { Self → Type 0 };

    /// How often it failed.
    ghost faults: { Self → ℕ };

    /// Hands over the next bytes of the text. Whether it has all of them; where it failed, some may be
    /// missing, and its count of faults rose.
    fn put(&mut self, bytes: &[u8]) -> bool
        requires pending { pending self.old }
        ensures pending { pending self.new }
        ensures bytes { result ≡ true → Appends (draft self.old) (draft self.new) bytes.now }
        ensures shown { shown self.new ≡ shown self.old }
        ensures names { names self.new ≡ names self.old }
        ensures asked { asked self.new ≡ asked self.old }
        ensures cause { Counted (faults self.old) (faults self.new) result };

    /// Puts the text into the place. Whether it stands there now; where it failed, what stood there before
    /// still does, and its count of faults rose. Then the text was let go, or all of it is held still.
    fn show(&mut self) -> bool
        requires pending { pending self.old }
        ensures shown { result ≡ true → PutsUp (draft self.old) (shown self.old) (shown self.new) }
        ensures placed { result ≡ true → placed self.new (draft self.old) }
        ensures failed { result ≡ false → shown self.new ≡ shown self.old }
        ensures names { names self.new ≡ names self.old }
        ensures asked { result ≡ true → Asks (asked self.old) (asked self.new) (placing (names self.old)) }
        ensures unplaced { result ≡ false →
            AsksOneOf (asked self.old) (asked self.new) (failed_placing (names self.old)) }
        ensures cleared { result ≡ true → cleared self.new }
        ensures held { result ≡ false → cleared self.new ⊎ (draft self.new ≡ draft self.old) }
        ensures whole { result ≡ false →
            whole self.new ⊎ Asks (asked self.old) (asked self.new) (failed_sync (names self.old)) }
        ensures cause { Counted (faults self.old) (faults self.new) result };

    /// Lets go of the bytes that were handed over and not put there. What stands in the place stays there.
    fn give_up(&mut self)
        requires pending { pending self.old }
        ensures cleared { cleared self.new }
        ensures shown { shown self.new ≡ shown self.old }
        ensures names { names self.new ≡ names self.old }
        ensures asked { Asks (asked self.old) (asked self.new) (giving_up (names self.old)) }
        ensures faults { faults self.new ≡ faults self.old };
}
