//! The lock, and a turn that is held.
ghost use Rattle.std.specs.Prelude.{◌≡◌, ◌<◌, ◌≤◌, ◌++◌, ◌⊎◌, ℕ, [], ◌∷◌, Some, None, IsSome, All};
ghost use Rattle.std.specs.Prelude.{List as Seq, IfOk, IfErr, true, false, length, map, vec_capacity};
ghost use Rattle.cm_turn.specs.History.{StartsWith, entries_by, longer};
ghost use Rattle.cm_turn.specs.Views.{with_longer, with_told, maker, gatherer, idle_maker};
ghost use Rattle.cm_turn.specs.Passes.{LockView, HeldView, pass_of, IsHolding, AreAll, new_passes};
ghost use Rattle.cm_turn.specs.Passes.{seen_up_to, BearsPassOut, IsLockTable, HasCaller, known_as, IsOwn};
ghost use Rattle.cm_turn.specs.Passes.{Enters, LeavesTurn};

use crate::boxed::BoxedState;
use crate::pass::Pass;
use crate::rule::InTurns;
use crate::steps::{
    LockSeat, LockTable, arrive, await_turn, draw_ticket, gather_pass, learn_told, make_pass,
    pass_turn_on, record_entries, take_empty_slot, tell_seen,
};
use crate::storied::Storied;
use crate::view::SeatView;
use crate::wakeups::Wakeups;
use atomic_table::{Badge, Seat, Table};
use cm_names::List;
use std::alloc::Global;
use std::marker::Model;
use std::mem;
use std::sync::Wait;

/// A lock round one state, in which each caller knows that what it finds extends what it had seen.
///
/// Contracts see which `lock` it is, and how many `passes` it has. It can be shared by threads.
/// Where it is dropped and not closed, the state is dropped with it.
#[derive(Drop)]
pub struct Turn<S: Storied> {
    table: Table<
        Option<BoxedState<S>>,
        SeatView<S::Entry, S::Frame>,
        (BoxedState<S>, u32),
        InTurns,
        Global,
    >,
    wakeups: Wakeups,
    passes: u32,
}

impl<S: Storied> Model for Turn<S> {
    ghost Value = { LockView };

    ghost view = { λ t. record { lock = t.table.shared.table_id; passes = t.passes } };

    ghost invariant = { λ t. (t.table.shared.table_id.words ≡ 2) × (t.table.shared.table_id.slots ≡ 1)
        × (t.table.shared.key.1 ≡ t.passes) };
}

/// A turn that is being held: nobody else has the state until it is given to [`Turn::leave`].
///
/// Contracts see the `state`, and the `pass` that entered, whose `seen` is the whole history that
/// was found. It can't be dropped, so no turn is forgotten.
pub struct Held<S: Storied> {
    pub(crate) state: BoxedState<S>,
    seat: Seat<Option<BoxedState<S>>, SeatView<S::Entry, S::Frame>>,
    number: u32,
}

impl<S: Storied> Model for Held<S> {
    ghost Value = { HeldView S S.Entry S.Frame };

    ghost view = { λ h. record { state = h.state; pass = pass_of h.seat.table_id h.number h.seat.me.0 } };

    ghost invariant = { λ h. (h.seat.me.1 ≡ (0, None) ∷ []) × IsHolding S.by h.number h.seat.me.0 };
}

impl<S: Storied> Turn<S> {
    /// A lock round the state, and its passes in order: those of the callers from 0 to
    /// `passes` - 1, of which there are 1 to 64. They have the state's frame, and have seen
    /// nothing, as the state stands for no entries.
    ///
    /// `Err` means that memory ran out, and gives the state back.
    pub fn new(
        alloc: Global,
        state: S,
        passes: u32,
    ) -> Result<(Turn<S>, List<Pass<S::Entry, S::Frame>>), S>
        requires passes { (0 < passes) × (passes ≤ 64) }
        requires empty { S.story state ≡ [] }
        ensures count { IfOk result (λ r. r.0.passes ≡ passes) }
        ensures new { IfOk result (λ r. r.1 ≡ new_passes r.0.lock (S.frame state) passes) }
        ensures err { IfErr result (λ s. s ≡ state) }
    {
        let Ok(list) = Vec::with_capacity(alloc, passes as usize) else {
            return Err(state);
        };
        let Ok(wakeups) = Wakeups::new(alloc) else {
            list.destroy_empty();
            return Err(state);
        };
        let state = match BoxedState::new(alloc, state) {
            Ok(state) => state,
            Err(state) => {
                list.destroy_empty();
                return Err(state);
            }
        };
        // The table's key keeps a ghost copy of the first state, from which the rule knows the frame.
        let about = (state, passes);
        let made = Table::vacant(alloc, &[1, 0], 1, &about);
        let (state, _) = about;
        let Ok((table, mut seat)) = made else {
            list.destroy_empty();
            return Err(state.into_state());
        };
        put_home(&table.shared, &wakeups, &mut seat, state);
        let list = make_passes(&table.shared, seat, passes, list);
        let turn = Turn {
            table,
            wakeups,
            passes,
        };
        Ok((turn, List::from_vec(list)))
    }

    /// Waits for the turn and takes it, for the caller of this pass, which is one of the lock's.
    ///
    /// The state that is found has the pass's frame. Its history begins with all that the pass had
    /// seen, and has those entries of the caller that the pass knows, and no others of it: all of
    /// these it had seen. The pass in the held turn has seen the whole history.
    ///
    /// Turns come in the order in which callers ask. A caller that waits looks a few hundred times
    /// whether its turn has come, and then parks: it uses no processor until its turn comes. Whoever
    /// leaves wakes the next caller alone, and calls the system only where that one has said that it
    /// parks.
    pub fn enter<R: Wait>(&self, rt: &R, pass: Pass<S::Entry, S::Frame>) -> Held<S>
        requires lock { pass.lock ≡ self.now.lock }
        ensures { Enters S.story S.frame S.by pass result }
    {
        let Pass { badge, number } = pass;
        let table = &self.table.shared;
        let mut seat = badge.into_seat();
        let ticket = draw_ticket(table, &mut seat);
        let mut seat = await_turn(rt, table, &self.wakeups, seat, ticket);
        let Some(state) = table.exchange(&mut seat, 0, None) else {
            unreachable!()
        };
        Held {
            state,
            seat,
            number,
        }
    }

    /// Gives the turn back, with a state of the same frame, whose history is the one that was found
    /// followed by entries of this caller alone, or by none.
    ///
    /// The pass has then seen the whole history, and these entries are added to its own.
    pub fn leave(&self, held: Held<S>) -> Pass<S::Entry, S::Frame>
        requires lock { held.pass.lock ≡ self.now.lock }
        requires frame { held.pass.frame ≡ Some (S.frame held.state) }
        requires entries { (es : Seq S.Entry)
            × (S.story held.state ≡ held.pass.seen ++ es)
            × All (λ e. S.by e ≡ held.pass.caller) es }
        ensures { LeavesTurn S.story S.by held result }
    {
        let Held {
            state,
            mut seat,
            number,
        } = held;
        let table = &self.table.shared;
        let out = table.exchange(&mut seat, 0, Some(state));
        let None = out else { unreachable!() };
        record_entries(table, &mut seat);
        pass_turn_on(table, &self.wakeups, &mut seat);
        Pass {
            badge: seat.into_badge(),
            number,
        }
    }

    /// Lets two passes of this lock know what either has seen.
    ///
    /// What one has seen begins what the other has. Afterwards both have seen the longer, and each
    /// knows the entries of its caller that it knew. It waits for no turn.
    pub fn meet(&self, a: &mut Pass<S::Entry, S::Frame>, b: &mut Pass<S::Entry, S::Frame>)
        requires lock { (a.old.lock ≡ self.now.lock) × (b.old.lock ≡ self.now.lock) }
        ensures first { a.new ≡ seen_up_to a.new.seen a.old }
        ensures second { b.new ≡ seen_up_to b.new.seen b.old }
        ensures one { a.new.seen ≡ b.new.seen }
        ensures own { IsOwn S.by a.new × IsOwn S.by b.new }
        ensures longer { (StartsWith b.old.seen a.old.seen × (a.new.seen ≡ b.old.seen))
            ⊎ (StartsWith a.old.seen b.old.seen × (a.new.seen ≡ a.old.seen)) }
    {
        let table = &self.table.shared;
        let mut one = mem::replace(&mut a.badge, Badge::blank()).into_seat();
        let mut other = mem::replace(&mut b.badge, Badge::blank()).into_seat();
        meet_seats(table, &mut one, &mut other);
        a.badge = one.into_badge();
        b.badge = other.into_badge();
    }

    /// Ends the lock and gives its state, once all passes of the lock are given back, each once, in
    /// any order.
    ///
    /// The state bears each pass out: it has its frame, its history begins with what the pass had
    /// seen, and its entries of the pass's caller are the pass's own. It has no entry of anybody
    /// else.
    pub fn close(self, passes: List<Pass<S::Entry, S::Frame>>) -> S
        requires { AreAll self passes }
        ensures known { All (BearsPassOut S.story S.frame S.by result) passes }
        ensures callers { All (λ e. HasCaller passes (S.by e)) (S.story result) }
    {
        let Turn {
            table,
            wakeups: _,
            passes: _,
        } = self;
        let seat = gather_passes(&table.shared, passes.into_vec());
        let mut closed = table.close_with(seat);
        let slot = closed.take(0);
        closed.free();
        let Some(state) = slot else { unreachable!() };
        state.into_state()
    }
}

/// Each has then seen the longer of what they had seen.
fn meet_seats<S: Storied>(table: &LockTable<S>, one: &mut LockSeat<S>, other: &mut LockSeat<S>)
    requires lock { IsLockTable table.now.table_id
        × (one.old.table_id ≡ table.now.table_id)
        × (other.old.table_id ≡ table.now.table_id) }
    requires bare { (one.old.me.1 ≡ []) × (other.old.me.1 ≡ []) }
    requires idle { (one.old.me.0.turn ≡ false) × (other.old.me.0.turn ≡ false) }
    ensures lock { (one.new.table_id ≡ one.old.table_id) × (other.new.table_id ≡ other.old.table_id) }
    ensures one { one.new.me ≡ (with_longer (with_told one.old.me.0 other.old.me.0), []) }
    ensures other { other.new.me ≡ (with_longer (with_told other.old.me.0 one.old.me.0), []) }
    ensures own { ((c : ℕ) → one.old.me.0.caller ≡ Some c
        → entries_by S.by c (longer one.old.me.0.seen other.old.me.0.seen) ≡ one.old.me.0.mine)
        × ((c : ℕ) → other.old.me.0.caller ≡ Some c
        → entries_by S.by c (longer other.old.me.0.seen one.old.me.0.seen) ≡ other.old.me.0.mine) }
    ensures same { longer one.old.me.0.seen other.old.me.0.seen
        ≡ longer other.old.me.0.seen one.old.me.0.seen }
    ensures seen { (let xs = one.old.me.0.seen in
        let ys = other.old.me.0.seen in
        StartsWith (longer xs ys) xs × StartsWith (longer xs ys) ys
        × StartsWith (longer ys xs) xs × StartsWith (longer ys xs) ys) }
{
    tell_seen(table, one, other);
    tell_seen(table, other, one);
    learn_told(table, one);
    learn_told(table, other);
}

/// A new seat that has taken in all these passes.
fn gather_passes<S: Storied>(
    table: &LockTable<S>,
    passes: Vec<Pass<S::Entry, S::Frame>>,
) -> LockSeat<S>
    requires table { IsLockTable table.now.table_id }
    requires lock { All (λ p. p.lock ≡ table.now.table_id) passes.items }
    ensures lock { result.table_id ≡ table.now.table_id }
    ensures view { result.me ≡ (gatherer (length passes.items) (map known_as passes.items), []) }
    ensures frames { All (λ p. IsSome p.frame) passes.items }
{
    let mut seat = arrive(table);
    for pass in passes {
        let Pass { badge, number: _ } = pass;
        gather_pass(table, &mut seat, badge.into_seat());
    }
    seat
}

/// The maker puts the state home and passes the turn on.
fn put_home<S: Storied>(
    table: &LockTable<S>,
    wakeups: &Wakeups,
    seat: &mut LockSeat<S>,
    state: BoxedState<S>,
)
    requires lock { IsLockTable table.now.table_id × (seat.old.table_id ≡ table.now.table_id) }
    requires maker { seat.old.me ≡ (maker (S.frame state) table.now.key.1, []) }
    requires empty { S.story state ≡ [] }
    ensures lock { seat.new.table_id ≡ seat.old.table_id }
    ensures view { seat.new.me ≡ (idle_maker (S.frame state) 0 table.now.key.1, []) }
{
    take_empty_slot(table, seat);
    let out = table.exchange(seat, 0, Some(state));
    let None = out else { unreachable!() };
    pass_turn_on(table, wakeups, seat);
}

/// Makes all passes, in order of their callers.
fn make_passes<S: Storied>(
    table: &LockTable<S>,
    mut seat: LockSeat<S>,
    passes: u32,
    mut list: Vec<Pass<S::Entry, S::Frame>>,
) -> Vec<Pass<S::Entry, S::Frame>>
    requires lock { IsLockTable table.now.table_id × (seat.table_id ≡ table.now.table_id) }
    requires maker { seat.me ≡ (idle_maker (S.frame table.now.key.0) 0 passes, []) }
    requires room { (list.items ≡ []) × (passes ≤ vec_capacity list) }
    ensures { result.items ≡ new_passes table.now.table_id (S.frame table.now.key.0) passes }
{
    for number in 0..passes {
        let one = make_pass(table, &mut seat);
        list.push_reserved(Pass {
            badge: one.into_badge(),
            number,
        });
    }
    list
}
