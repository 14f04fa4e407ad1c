//! What holds between any two steps of any callers, as laws. These functions do nothing, and no code calls
//! them: what each promises is a fact about the lock's table, which its proof shows. In each, `f` is the
//! lock's frame, `log` is the history at one moment, and `s` is what the lock's table has at that moment:
//! its two words, what is at home in its slot, and the views of all seats. A seat is one thread's place at
//! the table; the maker is the seat that makes the passes.
ghost use Rattle.cm_turn.specs.Laws.{Always, OneTurn, OneCaller, CallersAreMade, OnlyCallersWait, OneTicket};
ghost use Rattle.cm_turn.specs.Laws.{CountsTickets, TicketsFollow, AllAreHeld, OneFrame, HomeFrame};
ghost use Rattle.cm_turn.specs.Laws.{SeenBegins, OutOnlyInTurn, OutInTurn, HomeIsHistory, TurnHasSeenAll};
ghost use Rattle.cm_turn.specs.Laws.{EntriesAreMine, NoOtherEntries};
ghost use Rattle.cm_turn.specs.MovesSlots.{ArrivalsMove, OnlyTurnMoves, StepsMove};
ghost use Rattle.cm_turn.specs.declared.view.SeatView.{SeatView};
ghost use Rattle.atomic_table.specs.Table.{State};
ghost use Rattle.std.specs.Prelude.{Option};

use crate::storied::Storied;

/// At most one seat has the turn.
pub fn one_has_the_turn<S: Storied>()
    ensures { Always S.story S.frame S.by (λ f log s. OneTurn s) }
{}

/// No two seats have one caller, and every caller is below the maker's count.
pub fn callers_differ<S: Storied>()
    ensures one { Always S.story S.frame S.by (λ f log s. OneCaller s) }
    ensures made { Always S.story S.frame S.by (λ f log s. CallersAreMade s) }
{}

/// A seat without a caller has neither ticket nor turn, the maker's excepted.
pub fn only_callers_wait<S: Storied>()
    ensures { Always S.story S.frame S.by (λ f log s. OnlyCallersWait s) }
{}

/// The tickets held are the numbers from the served one on, one each, modulo 2^64.
pub fn tickets_queue<S: Storied>()
    ensures one { Always S.story S.frame S.by (λ f log s. OneTicket s) }
    ensures count { Always S.story S.frame S.by (λ f log s. CountsTickets s) }
    ensures follow { Always S.story S.frame S.by (λ f log s. TicketsFollow s) }
    ensures all { Always S.story S.frame S.by (λ f log s. AllAreHeld s) }
{}

/// All seats know one frame, and the state at home has it. It is the first state's.
pub fn one_frame<S: Storied>()
    ensures seats { Always S.story S.frame S.by (λ f log s. OneFrame f s) }
    ensures home { Always S.story S.frame S.by (λ f log s. HomeFrame S.frame f s) }
{}

/// What seats have seen, and what they were told, are all beginnings of one history.
pub fn seen_lists_begin_the_history<S: Storied>()
    ensures { Always S.story S.frame S.by (λ f log s. SeenBegins log s) }
{}

/// The state is out while a seat has the turn, and only then.
pub fn state_is_out_in_a_turn<S: Storied>()
    ensures only { Always S.story S.frame S.by (λ f log s. OutOnlyInTurn s) }
    ensures out { Always S.story S.frame S.by (λ f log s. OutInTurn s) }
{}

/// Only the seat that has the turn moves the slot: a move of one seat that has the turn neither before
/// nor after it leaves at home what was there. Each step of a seat on a word is such a move, and so is
/// the coming of a seat; what cuts a seat in two or joins two of them has nothing at home to change.
pub fn only_the_turn_moves_the_slot<S: Storied>()
    ensures only { OnlyTurnMoves S.story S.frame S.by }
    ensures steps { (s : State (Option S) (SeatView S.Entry S.Frame)) → StepsMove s }
    ensures arrivals { (s : State (Option S) (SeatView S.Entry S.Frame)) → ArrivalsMove s }
{}

/// The state at home stands for the history, and a seat with the turn has seen the whole of it.
pub fn state_stands_for_the_history<S: Storied>()
    ensures home { Always S.story S.frame S.by (λ f log s. HomeIsHistory S.story log s) }
    ensures turn { Always S.story S.frame S.by (λ f log s. TurnHasSeenAll log s) }
{}

/// Each caller's entries in the history are those that its view has, and no entry has a caller
/// whose pass isn't made.
pub fn entries_have_callers<S: Storied>()
    ensures mine { Always S.story S.frame S.by (λ f log s. EntriesAreMine S.by log s) }
    ensures others { Always S.story S.frame S.by (λ f log s. NoOtherEntries S.by log s) }
{}
