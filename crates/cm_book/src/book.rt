//! Books.

ghost use Rattle.std.specs.Prelude.{◌≡◌, ◌++◌, ◌∷◌, [], ◌≤◌, ◌<◌, ◌^◌, ◌+◌, ◌-◌, length, IsTrue, ◌↔◌, IfErr};
ghost use Rattle.std.specs.Prelude.{OnOk, OnErr};
ghost use Rattle.cm_book.specs.Refusal.{FitsLimit, BookRefuses};

use cm_world::Entry;
use std::alloc::Global;
use std::marker::Model;

/// Why a book keeps no room for more entries.
#[derive(Debug, Clone, Copy, PartialEq, Eq)]
pub enum BookFault {
    /// With them the history would be longer than its limit.
    HistoryFull,
    /// Memory ran out.
    Memory,
}

/// A history: its entries in their order, the number of entries that room is reserved for, and
/// the limit of both together.
pub struct Book {
    entries: Vec<Entry>,
    reserved: u64,
    limit: u64,
}

impl Drop for Book {
    /// Called where the value goes: gives back the memory of its parts.
    fn drop(self) {
        let Book {
            entries: _,
            reserved: _,
            limit: _,
        } = self;
    }
}

impl Model for Book {
    ghost use Rattle.cm_book.specs.History.{History};

    ghost Value = { History };

    ghost use Rattle.cm_book.specs.Room.{history_of, BookHasRoom};

    ghost view = { history_of };

    ghost invariant = { BookHasRoom };
}

impl Book {
    /// The book without an entry, which takes at most `limit` entries. It takes no memory.
    pub fn new(alloc: Global, limit: u64) -> Book
        ensures { result ≡ record { entries = []; reserved = 0; limit = limit } }
    {
        Book {
            entries: Vec::new(alloc),
            reserved: 0,
            limit,
        }
    }

    /// The entries, in the order in which they were pushed.
    pub fn entries(&self) -> &[Entry]
        ensures { result.now ≡ self.now.entries }
    {
        self.entries.as_slice()
    }

    /// The number of entries that room is reserved for.
    pub fn reserved(&self) -> u64
        ensures { result ≡ self.now.reserved }
    {
        self.reserved
    }

    /// Whether `need` entries more are within the limit, besides those that are there and those
    /// that room is reserved for.
    pub fn fits(&self, need: u32) -> bool
        ensures fits { IsTrue result ↔ FitsLimit self.now need }
        ensures bound { self.now.limit < 2 ^ 64 }
    {
        need as u64 <= self.limit - (self.entries.len() as u64 + self.reserved)
    }

    /// Reserves room for `need` entries more. At an `Err` the book is as before:
    ///
    /// - `HistoryFull` exactly where the entries, those that room is reserved for, and `need`
    ///   are together more than the limit;
    /// - `Memory` where memory runs out.
    pub fn reserve(&mut self, need: u32) -> Result<(), BookFault>
        ensures ok { let reserved = self.old.reserved + need in
            OnOk result (self.new ≡ record self.old { reserved = reserved }) }
        ensures fits { OnOk result (FitsLimit self.old need) }
        ensures err { OnErr result (self.new ≡ self.old) }
        ensures refused { IfErr result (BookRefuses self.old need) }
        ensures bound { self.old.limit < 2 ^ 64 }
    {
        let used = self.entries.len() as u64 + self.reserved;
        if need as u64 > self.limit - used {
            return Err(BookFault::HistoryFull);
        }
        let room = self.reserved + need as u64;
        match usize::try_from(room) {
            Err(_) => return Err(BookFault::Memory),
            Ok(count) => match self.entries.reserve(count) {
                Err(_) => return Err(BookFault::Memory),
                Ok(()) => {}
            },
        }
        self.reserved = room;
        Ok(())
    }

    /// Puts an entry at the end, in room that is reserved. It takes no memory and can't fail.
    pub fn push_reserved(&mut self, entry: Entry)
        requires { 0 < self.old.reserved }
        ensures { let entries = self.old.entries ++ entry ∷ [] in
            self.new ≡ record self.old { entries = entries; reserved = self.old.reserved - 1 } }
    {
        self.entries.push_reserved(entry);
        self.reserved -= 1;
    }

    /// Gives up room for `count` entries.
    pub fn release(&mut self, count: u32)
        requires { count ≤ self.old.reserved }
        ensures { self.new ≡ record self.old { reserved = self.old.reserved - count } }
    {
        self.reserved -= count as u64;
    }
}
