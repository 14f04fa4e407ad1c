//! The wakeups at which callers park, each at that of its own ticket.
//!
//! A wakeup is a word: 1 while a caller parks there or is about to, and after one that found its turn at
//! its last look, until the next ring; else 0. A caller writes the 1 before that look at the ticket that
//! is served. Whoever serves a ticket looks at its wakeup afterwards, and where it finds a 1 it writes a 0,
//! which keeps the caller from parking, and wakes the caller if it is parked. So either the caller sees
//! that it is served, or its wakeup is rung.
ghost use Rattle.std.specs.Prelude.{◌≡◌, ◌<◌};

use atomic_table::{Play, Table, TableRule};
use std::alloc::{AllocError, Global};
use std::marker::Model;

/// How many wakeups a lock has: as many as the passes that it may have. Were they fewer, one of two callers
/// at one wakeup that was served could park for ever by the other's mark.
const WAKEUPS: usize = 64;

/// What a wakeup is while nobody parks there.
const CALM: u64 = 0;

/// What a wakeup is while a caller parks there, or is about to.
pub(crate) const AWAITED: u32 = 1;

/// The wakeups keep no rule: what is known of turns is known by the lock's own table.
pub(crate) struct NoRule;

impl TableRule<(), (), ()> for NoRule {
    ghost holds = { λ key s. Unit {0} };

    ghost first = { λ key. tt };
}

impl Play<(), ()> for NoRule {
    ghost then = { λ about before found after. Unit {0} };
}

/// The wakeups of one lock.
#[derive(Drop)]
pub(crate) struct Wakeups {
    pub(crate) table: Table<(), (), (), NoRule, Global>,
}

impl Model for Wakeups {
    ghost Value = { Unit {0} };

    ghost view = { λ b. tt };

    ghost invariant = { λ b. b.table.shared.table_id.words ≡ 64 };
}

/// The wakeup of a ticket, whose number is taken modulo 2^64.
pub(crate) fn wakeup_of(ticket: u64) -> usize
    ensures { result < 64 }
{
    (ticket % WAKEUPS as u64) as usize
}

impl Wakeups {
    /// The wakeups of a new lock, at which nobody waits.
    pub(crate) fn new(alloc: Global) -> Result<Wakeups, AllocError> {
        let (table, _) = Table::of_words(alloc, &[CALM; WAKEUPS], &())?;
        Ok(Wakeups { table })
    }

    /// Says that the caller of the ticket is about to park.
    pub(crate) fn announce(&self, ticket: u64) {
        self.table
            .shared
            .swap_new_seat::<NoRule>(wakeup_of(ticket), AWAITED as u64);
    }

    /// Wakes the caller of the ticket, if it is parked or about to park.
    pub(crate) fn ring(&self, ticket: u64) {
        let wakeup = wakeup_of(ticket);
        if self.table.shared.peek(wakeup) != CALM {
            self.table.shared.swap_new_seat::<NoRule>(wakeup, CALM);
            self.table.shared.wake_all(wakeup);
        }
    }
}
