//! A keeper in memory, which fails where it is planned.

ghost use Rattle.std.specs.Prelude.{◌≡◌, ◌==◌, ℕ, List as Seq, Some, [], length};
ghost use Rattle.cm_io.specs.Counts.{one_more};
ghost use Rattle.cm_io.specs.CountsInside.{count_after};

use crate::TextKeeper;
use cm_names::{Bytes, List};
use std::alloc::Global;
use std::mem;

/// A keeper in memory, whose texts can be looked at.
#[derive(Drop)]
pub struct MemoryKeeper {
    alloc: Global,
    draft: Vec<u8>,
    shown: List<Bytes>,
    failing: u64,
    calls: u64,
    faults: u64,
    is_pending: bool,
}

impl MemoryKeeper {
    /// A keeper with nothing in its place, whose call of this number fails; the first has the number 0.
    pub fn new(alloc: Global, failing: u64) -> MemoryKeeper
        ensures draft { ⟦<MemoryKeeper as TextKeeper>⟧.draft result ≡ Some [] }
        ensures shown { ⟦<MemoryKeeper as TextKeeper>⟧.shown result ≡ Some [] }
        ensures pending { ⟦<MemoryKeeper as TextKeeper>⟧.pending result }
        ensures faults { ⟦<MemoryKeeper as TextKeeper>⟧.faults result ≡ 0 }
        ensures failing { result.failing ≡ failing }
        ensures calls { result.calls ≡ 0 }
    {
        MemoryKeeper {
            alloc,
            draft: Vec::new(alloc),
            shown: List::new(alloc),
            failing,
            calls: 0,
            faults: 0,
            is_pending: true,
        }
    }

    /// The texts that were put into the place.
    pub fn shown(&self) -> &[Bytes]
        ensures { ⟦<MemoryKeeper as TextKeeper>⟧.shown self.now ≡ Some result.now }
    {
        self.shown.as_slice()
    }

    /// How many calls there were that may fail.
    pub fn calls(&self) -> u64
        ensures { result ≡ self.now.calls }
    {
        self.calls
    }

    /// How many bytes were handed over that don't stand in the place.
    pub fn held(&self) -> usize
        ensures { (held : Seq ℕ) → ⟦<MemoryKeeper as TextKeeper>⟧.draft self.now ≡ Some held →
            result ≡ length held }
    {
        self.draft.len()
    }

    /// Counts the call that now begins. Whether it fails; if so, the fault is counted.
    fn fails(&mut self) -> bool
        ensures planned { result ≡ (self.old.calls == self.old.failing) }
        ensures call { self.new ≡ record self.old {
          calls = one_more self.old.calls;
          faults = count_after result self.old.faults;
        } }
    {
        let fails = self.calls == self.failing;
        self.calls = self.calls.saturating_add(1);
        if fails {
            self.faults = self.faults.saturating_add(1);
        }
        fails
    }
}

impl TextKeeper for MemoryKeeper {
    ghost use Rattle.std.specs.Prelude.{◌≡◌, [], None, Some, true, ⊤};

    ghost draft = { λ k. Some k.draft.items };

    ghost shown = { λ k. Some k.shown };

    ghost placed = { λ _ _. ⊤ };

    ghost names = { λ _. record { beside = []; place = [] } };

    ghost asked = { λ _. None };

    ghost pending = { λ k. k.is_pending ≡ true };

    ghost cleared = { λ k. k.draft.items ≡ [] };

    ghost whole = { λ _. ⊤ };

    ghost faults = { λ k. k.faults };

    /// Adds the bytes to the draft, unless this call is planned to fail. Tells whether that went well.
    fn put(&mut self, bytes: &[u8]) -> bool {
        if self.fails() {
            return false;
        }
        match self.draft.extend_from_slice(bytes) {
            Ok(()) => true,
            Err(_) => {
                self.faults = self.faults.saturating_add(1);
                false
            }
        }
    }

    /// Puts the draft among the texts that were shown, unless this call is planned to fail. Tells
    /// whether that went well.
    fn show(&mut self) -> bool {
        if self.fails() {
            return false;
        }
        let draft = mem::replace(&mut self.draft, Vec::new(self.alloc));
        match self.shown.push(List::from_vec(draft)) {
            Ok(()) => {
                self.is_pending = false;
                true
            }
            Err(_) => {
                self.faults = self.faults.saturating_add(1);
                false
            }
        }
    }

    /// Drops the draft.
    fn give_up(&mut self) {
        self.draft.clear();
    }
}
