//! Marks that count for all instances below the one that has them.

ghost use Rattle.std.specs.Prelude.{◌≡◌};
ghost use Rattle.cm_table.specs.Flags as flags;

/// A mark that counts for all instances below the one that has it.
#[derive(Clone, Copy)]
pub enum MarkKind {
    /// It is being shut down.
    Closing,
    /// It is being destroyed.
    Doomed,
}

/// Which marks an instance or one above it has.
#[derive(Clone, Copy)]
pub struct MarksAbove {
    /// Whether one of them is being shut down.
    pub closing: bool,
    /// Whether one of them is being destroyed.
    pub doomed: bool,
}

impl MarksAbove {
    /// No mark.
    pub fn none() -> MarksAbove
        ensures { result ≡ flags.no_flags }
    {
        MarksAbove {
            closing: false,
            doomed: false,
        }
    }

    /// Whether the mark is there.
    pub fn has(self, kind: MarkKind) -> bool
        ensures { result ≡ flags.flag_in kind self }
    {
        match kind {
            MarkKind::Closing => self.closing,
            MarkKind::Doomed => self.doomed,
        }
    }

    /// Puts the mark there.
    pub fn put(&mut self, kind: MarkKind)
        ensures { self.new ≡ flags.with_flag kind self.old }
    {
        match kind {
            MarkKind::Closing => self.closing = true,
            MarkKind::Doomed => self.doomed = true,
        }
    }
}
