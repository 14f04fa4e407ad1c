//! The permit in front of the turn lock.
//!
//! A call takes two turns or more. If each drew a ticket behind all callers that wait, then with more
//! callers than processors each turn would begin with waking a thread. So a call takes the permit before
//! its first turn, keeps it for the turns that follow, and gives it back before anything that may wait
//! for another caller, and at its end. Whoever runs may take a permit that is free before the thread that
//! was woken for it does. A caller that has had it for [`RUN`] turns in a row while others wait for it, or
//! that waits for another's action, passes it on: then any other caller may take it, and it itself may
//! not.
//!
//! No clause speaks of the permit: what a turn finds is decided by the lock alone. Nobody asks for it in
//! a turn, so whoever holds it and waits for a turn waits for callers that don't wait for it.
ghost use Rattle.std.specs.Prelude.{◌≡◌, ◌<◌, ◌≤◌, ◌^◌};

use atomic_table::{Play, Table, TableRule};
use std::alloc::{AllocError, Global};
use std::marker::Model;
use std::sync::Wait;

/// The word with the state of the permit: a phase, the caller that has it or had it last, and for how many
/// turns in a row.
const STATE: usize = 0;

/// The word with the number of callers that wait for it.
const WAITING: usize = 1;

/// The word at which they park: [`RUNG`] from the moment when one of them is to look until it does.
const BELL: usize = 2;

/// The phase in which any caller may take the permit.
const FREE: u64 = 0;

/// The phase in which a caller has it.
const HELD: u64 = 1;

/// The phase in which any caller may take it but the one that had it last.
const PASSED: u64 = 2;

/// What the bell is while nobody has to look.
const CALM: u64 = 0;

/// What the bell is while one of those that wait is to look.
const RUNG: u64 = 1;

/// For how many turns in a row one caller may have the permit before it has to pass it on: those of 32
/// commands of two turns.
const RUN: u64 = 64;

/// The words of the permit keep no rule: no clause speaks of what is in them.
pub(crate) struct Unruled;

impl TableRule<(), (), ()> for Unruled {
    ghost holds = { λ key s. Unit {0} };

    ghost first = { λ key. tt };
}

impl Play<(), ()> for Unruled {
    ghost then = { λ about before found after. Unit {0} };
}

/// The permit of one manager.
#[derive(Drop)]
pub(crate) struct Permit {
    table: Table<(), (), (), Unruled, Global>,
}

impl Model for Permit {
    ghost Value = { Unit {0} };

    ghost view = { λ b. tt };

    ghost invariant = { λ b. b.table.shared.table_id.words ≡ 3 };
}

/// The state in this phase, of this caller, which has had the permit for so many turns in a row.
fn state_of(phase: u64, caller: u64, run: u64) -> u64
    requires phase { phase < 4 }
    requires caller { caller < 64 }
    requires run { run ≤ 128 }
    ensures { result < 2 ^ 32 }
{
    phase + 4 * caller + 256 * run
}

/// The phase of a state.
fn phase_of(state: u64) -> u64 {
    state % 4
}

/// The caller of a state.
fn caller_of(state: u64) -> u64
    ensures { result < 64 }
{
    state / 4 % 64
}

/// For how many turns in a row the caller of a state has had the permit.
fn run_of(state: u64) -> u64
    ensures { result < 128 }
{
    state / 256 % 128
}

/// Whether this caller has the permit.
fn is_held_by(state: u64, caller: u64) -> bool {
    phase_of(state) == HELD && caller_of(state) == caller
}

/// What the state becomes where this caller takes the permit for a turn; `None` where it may not.
fn taken(found: u64, caller: u64) -> Option<u64>
    requires { caller < 64 }
{
    let phase = phase_of(found);
    let same = caller_of(found) == caller;
    if phase == FREE {
        let run = if same { run_of(found) } else { 0 };
        return Some(state_of(HELD, caller, run + 1));
    }
    if phase == PASSED && !same {
        return Some(state_of(HELD, caller, 1));
    }
    None
}

impl Permit {
    /// A permit that is free.
    pub(crate) fn new(alloc: Global) -> Result<Permit, AllocError> {
        let (table, _) = Table::of_words(alloc, &[0; 3], &())?;
        Ok(Permit { table })
    }

    /// Sees to it that the caller of this number has the permit for one more turn. It parks while another
    /// has it.
    pub(crate) fn take<R: Wait>(&self, rt: &R, caller: u32) {
        let caller = caller as u64 % 64;
        if !self.keeps(caller) && !self.took(caller) {
            self.wait_for_another(rt, caller);
            self.wait(rt, caller);
        }
    }

    /// Gives the permit back, where this caller has it: anybody may take it then, but where it had it for
    /// [`RUN`] turns in a row, this caller may not before another did.
    pub(crate) fn give_back(&self, caller: u32) {
        let caller = caller as u64 % 64;
        let found = self.table.shared.peek(STATE);
        if is_held_by(found, caller) {
            let run = run_of(found);
            if run < RUN {
                self.set(state_of(FREE, caller, run));
            } else {
                self.hand_on(caller);
            }
        }
    }

    /// Passes the permit on, where this caller has it and others wait for it: this one may not take it
    /// before another did.
    pub(crate) fn pass_on(&self, caller: u32) {
        let caller = caller as u64 % 64;
        if is_held_by(self.table.shared.peek(STATE), caller) {
            self.hand_on(caller);
        }
    }

    /// Whether this caller has the permit and keeps it for one more turn. Turns are counted while others
    /// wait, and who has had enough of them passes it on.
    fn keeps(&self, caller: u64) -> bool
        requires { caller < 64 }
    {
        let words = &self.table.shared;
        let found = words.peek(STATE);
        if !is_held_by(found, caller) {
            return false;
        }
        if words.peek(WAITING) == 0 {
            return true;
        }
        let run = run_of(found);
        if run < RUN {
            words.swap_new_seat::<Unruled>(STATE, state_of(HELD, caller, run + 1));
            return true;
        }
        self.hand_on(caller);
        false
    }

    /// Passes the permit on where others wait for it, and else gives it back.
    fn hand_on(&self, caller: u64)
        requires { caller < 64 }
    {
        if self.table.shared.peek(WAITING) == 0 {
            self.set(state_of(FREE, caller, 0));
        } else {
            self.set(state_of(PASSED, caller, 0));
        }
    }

    /// Sets the state, and wakes one that waits for it, unless one was told to look before and hasn't yet.
    fn set(&self, state: u64) {
        let words = &self.table.shared;
        words.swap_new_seat::<Unruled>(STATE, state);
        if words.peek(WAITING) != 0 && words.peek(BELL) == CALM {
            words.swap_new_seat::<Unruled>(BELL, RUNG);
            words.wake_one(BELL);
        }
    }

    /// Takes the permit where this caller may: whether it did.
    fn took(&self, caller: u64) -> bool
        requires { caller < 64 }
    {
        let words = &self.table.shared;
        let (found, mut seat) = words.load_new_seat::<Unruled>(STATE);
        let Some(state) = taken(found, caller) else {
            return false;
        };
        if words.compare_exchange::<Unruled>(&mut seat, STATE, found, state) != found {
            return false;
        }
        if phase_of(found) == PASSED {
            words.wake_all(STATE);
        }
        true
    }

    /// Parks while the permit is passed on by this caller itself.
    fn wait_for_another<R: Wait>(&self, rt: &R, caller: u64)
        requires { caller < 64 }
    {
        let passed = state_of(PASSED, caller, 0);
        for _ in rt.forever() {
            if self.table.shared.peek(STATE) != passed {
                break;
            }
            self.table.shared.park(rt, STATE, passed as u32);
        }
    }

    /// Waits until this caller has taken the permit. It clears the bell before each look, and parks only
    /// where the bell hasn't been rung since.
    fn wait<R: Wait>(&self, rt: &R, caller: u64)
        requires { caller < 64 }
    {
        let words = &self.table.shared;
        let (_, mut seat) = words.load_new_seat::<Unruled>(WAITING);
        words.fetch_add::<Unruled>(&mut seat, WAITING, 1);
        for _ in rt.forever() {
            words.swap_new_seat::<Unruled>(BELL, CALM);
            if self.took(caller) {
                break;
            }
            words.park(rt, BELL, CALM as u32);
        }
        words.fetch_sub::<Unruled>(&mut seat, WAITING, 1);
    }
}
