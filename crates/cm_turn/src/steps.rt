//! The single steps of a seat at the lock's table, which [`crate::Turn`] puts together. A seat is one
//! thread's place at the table. Word 0 is the next ticket and word 1 the one that is served, both
//! modulo 2^64. The one slot has the state.
ghost use Rattle.std.specs.Prelude.{◌≡◌, ◌<◌, ◌+◌, ◌%◌, ◌^◌, ◌++◌, ℕ, [], ◌∷◌, Some, None};
ghost use Rattle.std.specs.Prelude.{IsSome, All, List, true, false, MatchBool};
ghost use Rattle.cm_turn.specs.History.{StartsWith, entries_by, longer};
ghost use Rattle.cm_turn.specs.Views.{spent_view, with_ticket, with_turn, with_slot, with_entries};
ghost use Rattle.cm_turn.specs.Views.{without_turn, with_longer, with_one_made, next_pass, note_of};
ghost use Rattle.cm_turn.specs.Views.{with_told, with_pass};
ghost use Rattle.cm_turn.specs.Plays.{FindsState};
ghost use Rattle.cm_turn.specs.Passes.{IsLockTable};

use crate::boxed::BoxedState;
use crate::rule::{
    Arrive, Draw, Gather, InTurns, Learn, Make, Note, PassOn, PollTicket, Record, TakeEmpty,
};
use crate::storied::Storied;
use crate::view::SeatView;
use crate::wakeups::{AWAITED, Wakeups, wakeup_of};
use atomic_table::{Seat, Shared};
use std::hint;
use std::sync::Wait;

/// The lock's table: two words and one slot.
pub(crate) type LockTable<S> = Shared<
    Option<BoxedState<S>>,
    SeatView<<S as Storied>::Entry, <S as Storied>::Frame>,
    (BoxedState<S>, u32),
    InTurns,
>;

/// A seat at the lock's table.
pub(crate) type LockSeat<S> = Seat<
    Option<BoxedState<S>>,
    SeatView<<S as Storied>::Entry, <S as Storied>::Frame>,
>;

/// How many times a caller looks whether its turn has come before it parks.
const LOOKS: u32 = 200;

/// Draws a ticket, and gives its number modulo 2^64.
pub(crate) fn draw_ticket<S: Storied>(table: &LockTable<S>, seat: &mut LockSeat<S>) -> u64
    requires lock { IsLockTable table.now.table_id × (seat.old.table_id ≡ table.now.table_id) }
    requires bare { seat.old.me.1 ≡ [] }
    requires free { seat.old.me.0.ticket ≡ None }
    requires idle { seat.old.me.0.turn ≡ false }
    requires caller { IsSome seat.old.me.0.caller }
    requires part { 0 < seat.old.me.0.parts }
    ensures lock { seat.new.table_id ≡ seat.old.table_id }
    ensures view { (t : ℕ) × (result ≡ t % 2 ^ 64) × (seat.new.me ≡ (with_ticket t seat.old.me.0, [])) }
{
    table.fetch_add::<Draw>(seat, 0, 1)
}

/// Looks once whether this ticket is served. Where it is, the seat has the turn and the slot from then
/// on.
fn is_served<S: Storied>(table: &LockTable<S>, seat: &mut LockSeat<S>, ticket: u64) -> bool
    requires lock { IsLockTable table.now.table_id × (seat.old.table_id ≡ table.now.table_id) }
    requires bare { seat.old.me.1 ≡ [] }
    requires waits { (t : ℕ) × (ticket ≡ t % 2 ^ 64) × (seat.old.me.0.ticket ≡ Some t) }
    requires idle { (seat.old.me.0.turn ≡ false) × (seat.old.me.0.fresh ≡ false) }
    ensures lock { seat.new.table_id ≡ seat.old.table_id }
    ensures found { MatchBool result
        ((s : S)
        × FindsState S.story S.frame S.by seat.old.me.0 s
        × (seat.new.me ≡ (with_turn (S.story s) seat.old.me.0, (0, Some s) ∷ [])))
        (seat.new.me ≡ seat.old.me) }
{
    table.load::<PollTicket>(seat, 1) == ticket
}

/// Looks up to [`LOOKS`] times whether the ticket is served, and stops at the look that finds it.
fn is_served_soon<S: Storied>(table: &LockTable<S>, seat: &mut LockSeat<S>, ticket: u64) -> bool
    requires lock { IsLockTable table.now.table_id × (seat.old.table_id ≡ table.now.table_id) }
    requires bare { seat.old.me.1 ≡ [] }
    requires waits { (t : ℕ) × (ticket ≡ t % 2 ^ 64) × (seat.old.me.0.ticket ≡ Some t) }
    requires idle { (seat.old.me.0.turn ≡ false) × (seat.old.me.0.fresh ≡ false) }
    ensures lock { seat.new.table_id ≡ seat.old.table_id }
    ensures found { MatchBool result
        ((s : S)
        × FindsState S.story S.frame S.by seat.old.me.0 s
        × (seat.new.me ≡ (with_turn (S.story s) seat.old.me.0, (0, Some s) ∷ [])))
        (seat.new.me ≡ seat.old.me) }
{
    for _ in 0..LOOKS {
        if is_served(table, seat, ticket) {
            return true;
        }
        hint::spin_loop();
    }
    false
}

/// Waits until the ticket is served, and then has the turn and the slot.
///
/// It looks [`LOOKS`] times, and once more when it has said at its wakeup that it is about to park.
pub(crate) fn await_turn<S: Storied, R: Wait>(
    rt: &R,
    table: &LockTable<S>,
    wakeups: &Wakeups,
    mut seat: LockSeat<S>,
    ticket: u64,
) -> LockSeat<S>
    requires lock { IsLockTable table.now.table_id × (seat.table_id ≡ table.now.table_id) }
    requires bare { seat.me.1 ≡ [] }
    requires waits { (t : ℕ) × (ticket ≡ t % 2 ^ 64) × (seat.me.0.ticket ≡ Some t) }
    requires idle { (seat.me.0.turn ≡ false) × (seat.me.0.fresh ≡ false) }
    ensures lock { result.table_id ≡ seat.table_id }
    ensures found { (s : S)
        × FindsState S.story S.frame S.by seat.me.0 s
        × (result.me ≡ (with_turn (S.story s) seat.me.0, (0, Some s) ∷ [])) }
{
    for _ in rt.forever() {
        if is_served_soon(table, &mut seat, ticket) {
            return seat;
        }
        wakeups.announce(ticket);
        if is_served(table, &mut seat, ticket) {
            return seat;
        }
        wakeups.table.shared.park(rt, wakeup_of(ticket), AWAITED);
    }
    unreachable!()
}

/// The maker takes the slot, which has no state yet.
pub(crate) fn take_empty_slot<S: Storied>(table: &LockTable<S>, seat: &mut LockSeat<S>)
    requires lock { IsLockTable table.now.table_id × (seat.old.table_id ≡ table.now.table_id) }
    requires bare { seat.old.me.1 ≡ [] }
    requires turn { (seat.old.me.0.turn ≡ true) × (seat.old.me.0.fresh ≡ true) }
    ensures lock { seat.new.table_id ≡ seat.old.table_id }
    ensures view { seat.new.me ≡ (with_slot seat.old.me.0, (0, None) ∷ []) }
{
    table.load::<TakeEmpty>(seat, 1);
}

/// Records the entries of the turn, with the state in the slot that the seat holds.
pub(crate) fn record_entries<S: Storied>(table: &LockTable<S>, seat: &mut LockSeat<S>)
    requires lock { IsLockTable table.now.table_id × (seat.old.table_id ≡ table.now.table_id) }
    requires turn { (seat.old.me.0.turn ≡ true)
        × (seat.old.me.0.fresh ≡ false)
        × (seat.old.me.0.gathered ≡ []) }
    requires entries { (s : S) × (c : ℕ) × (es : List S.Entry)
        × (seat.old.me.1 ≡ (0, Some s) ∷ [])
        × (seat.old.me.0.caller ≡ Some c)
        × (S.story s ≡ seat.old.me.0.seen ++ es)
        × All (λ e. S.by e ≡ c) es }
    ensures lock { seat.new.table_id ≡ seat.old.table_id }
    ensures view { (s : S) × (c : ℕ)
        × (seat.old.me.1 ≡ (0, Some s) ∷ [])
        × (seat.old.me.0.caller ≡ Some c)
        × (seat.new.me
        ≡ (with_entries (S.story s) (entries_by S.by c (S.story s)) seat.old.me.0, seat.old.me.1)) }
{
    table.load::<Record>(seat, 1);
}

/// Puts the slot home with the state in it, and serves the next ticket. The result is the number of
/// that one modulo 2^64.
fn serve_next<S: Storied>(table: &LockTable<S>, seat: &mut LockSeat<S>) -> u64
    requires lock { IsLockTable table.now.table_id × (seat.old.table_id ≡ table.now.table_id) }
    requires turn { seat.old.me.0.turn ≡ true }
    requires slot { (s : S)
        × (seat.old.me.1 ≡ (0, Some s) ∷ [])
        × (S.story s ≡ seat.old.me.0.seen)
        × (seat.old.me.0.frame ≡ Some (S.frame s)) }
    ensures lock { seat.new.table_id ≡ seat.old.table_id }
    ensures view { seat.new.me ≡ (without_turn seat.old.me.0, []) }
    ensures next { (t : ℕ) → seat.old.me.0.ticket ≡ Some t → result ≡ (t + 1) % 2 ^ 64 }
{
    let served = table.fetch_add::<PassOn>(seat, 1, 1);
    served.wrapping_add(1)
}

/// Puts the slot home with the state in it, serves the next ticket, and wakes its caller if that one
/// is parked.
pub(crate) fn pass_turn_on<S: Storied>(
    table: &LockTable<S>,
    wakeups: &Wakeups,
    seat: &mut LockSeat<S>,
)
    requires lock { IsLockTable table.now.table_id × (seat.old.table_id ≡ table.now.table_id) }
    requires turn { seat.old.me.0.turn ≡ true }
    requires slot { (s : S)
        × (seat.old.me.1 ≡ (0, Some s) ∷ [])
        × (S.story s ≡ seat.old.me.0.seen)
        × (seat.old.me.0.frame ≡ Some (S.frame s)) }
    ensures lock { seat.new.table_id ≡ seat.old.table_id }
    ensures view { seat.new.me ≡ (without_turn seat.old.me.0, []) }
{
    let next = serve_next(table, seat);
    wakeups.ring(next);
}

/// Looks up what another seat has told: the longer of that and of what this one has seen is a
/// beginning of the history.
pub(crate) fn learn_told<S: Storied>(table: &LockTable<S>, seat: &mut LockSeat<S>)
    requires lock { IsLockTable table.now.table_id × (seat.old.table_id ≡ table.now.table_id) }
    requires bare { seat.old.me.1 ≡ [] }
    requires idle { seat.old.me.0.turn ≡ false }
    ensures lock { seat.new.table_id ≡ seat.old.table_id }
    ensures view { seat.new.me ≡ (with_longer seat.old.me.0, []) }
    ensures seen { StartsWith (longer seat.old.me.0.seen seat.old.me.0.told) seat.old.me.0.seen }
    ensures told { StartsWith (longer seat.old.me.0.seen seat.old.me.0.told) seat.old.me.0.told }
    ensures own { (c : ℕ) → seat.old.me.0.caller ≡ Some c
        → entries_by S.by c (longer seat.old.me.0.seen seat.old.me.0.told) ≡ seat.old.me.0.mine }
{
    table.load::<Learn>(seat, 1);
}

/// The maker makes the next pass.
pub(crate) fn make_pass<S: Storied>(table: &LockTable<S>, seat: &mut LockSeat<S>) -> LockSeat<S>
    requires lock { IsLockTable table.now.table_id × (seat.old.table_id ≡ table.now.table_id) }
    requires bare { seat.old.me.1 ≡ [] }
    requires makes { (seat.old.me.0.makes ≡ true)
        × (seat.old.me.0.ticket ≡ None)
        × (seat.old.me.0.turn ≡ false)
        × (0 < seat.old.me.0.parts) }
    ensures lock { (seat.new.table_id ≡ seat.old.table_id) × (result.table_id ≡ seat.old.table_id) }
    ensures view { (seat.new.me ≡ (with_one_made seat.old.me.0, []))
        × (result.me ≡ (next_pass seat.old.me.0, [])) }
{
    table.split_seat::<Make>(seat)
}

/// Tells one seat what the other has seen.
pub(crate) fn tell_seen<S: Storied>(
    table: &LockTable<S>,
    from: &mut LockSeat<S>,
    to: &mut LockSeat<S>,
)
    requires lock { IsLockTable table.now.table_id
        × (from.old.table_id ≡ table.now.table_id)
        × (to.old.table_id ≡ table.now.table_id) }
    requires bare { (from.old.me.1 ≡ []) × (to.old.me.1 ≡ []) }
    requires idle { to.old.me.0.turn ≡ false }
    ensures lock { (from.new.table_id ≡ from.old.table_id) × (to.new.table_id ≡ to.old.table_id) }
    ensures view { (from.new.me ≡ from.old.me)
        × (to.new.me ≡ (with_told to.old.me.0 from.old.me.0, [])) }
{
    let note = table.split_seat::<Note>(from);
    table.join_seat::<Note>(to, note);
}

/// Takes in a pass, whose seat is spent.
pub(crate) fn gather_pass<S: Storied>(
    table: &LockTable<S>,
    seat: &mut LockSeat<S>,
    pass: LockSeat<S>,
)
    requires lock { IsLockTable table.now.table_id
        × (seat.old.table_id ≡ table.now.table_id)
        × (pass.table_id ≡ table.now.table_id) }
    requires bare { (seat.old.me.1 ≡ []) × (pass.me.1 ≡ []) }
    requires idle { (seat.old.me.0.turn ≡ false) × (seat.old.me.0.makes ≡ false) }
    requires pass { (pass.me.0.turn ≡ false)
        × (pass.me.0.ticket ≡ None)
        × ((c : ℕ) × (pass.me.0.caller ≡ Some c)) }
    ensures lock { seat.new.table_id ≡ seat.old.table_id }
    ensures view { seat.new.me ≡ (with_pass seat.old.me.0 pass.me.0, []) }
{
    table.join_seat::<Gather>(seat, pass);
}

/// A new seat, which knows nothing.
pub(crate) fn arrive<S: Storied>(table: &LockTable<S>) -> LockSeat<S>
    requires { IsLockTable table.now.table_id }
    ensures lock { result.table_id ≡ table.now.table_id }
    ensures view { result.me ≡ (spent_view, []) }
{
    table.load_new_seat::<Arrive>(1).1
}
