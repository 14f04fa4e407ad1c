//! The rule of the lock's table, and the kinds of its steps, as types that only proofs use. A seat is
//! one thread's place at the table; the maker is the seat that makes the passes.
ghost use Rattle.std.specs.Prelude.{ℕ};

use crate::boxed::BoxedState;
use crate::storied::Storied;
use crate::view::SeatView;
use atomic_table::{Join, Play, Split, TableRule};

/// The rule. The key has the first state, whose frame is the lock's, and the number of passes.
pub struct InTurns;

impl<S: Storied> TableRule<
    Option<BoxedState<S>>,
    SeatView<S::Entry, S::Frame>,
    (BoxedState<S>, u32),
> for InTurns {
    ghost use Rattle.cm_turn.specs.Views.{maker};
    ghost use Rattle.cm_turn.specs.Rule.{KeepsRule};

    ghost holds = { λ key. KeepsRule S.story S.frame S.by key };

    ghost first = { λ key. maker (S.frame key.0) key.1 };
}

/// A ticket is drawn.
pub struct Draw;

impl<S: Storied> Play<Option<BoxedState<S>>, SeatView<S::Entry, S::Frame>> for Draw {
    ghost use Rattle.cm_turn.specs.Plays.{Draws};

    ghost then = { Draws };
}

/// A look at the ticket that is served. Where it is the seat's own, the seat has the turn and the slot.
pub struct PollTicket;

impl<S: Storied> Play<Option<BoxedState<S>>, SeatView<S::Entry, S::Frame>> for PollTicket {
    ghost use Rattle.cm_turn.specs.Plays.{Looks};

    ghost then = { Looks S.story S.frame S.by };
}

/// The maker, which has the turn from the beginning, takes the empty slot.
pub struct TakeEmpty;

impl<S: Storied> Play<Option<BoxedState<S>>, SeatView<S::Entry, S::Frame>> for TakeEmpty {
    ghost use Rattle.cm_turn.specs.Plays.{TakesEmpty};

    ghost then = { TakesEmpty };
}

/// The entries of the turn join the history.
pub struct Record;

impl<S: Storied> Play<Option<BoxedState<S>>, SeatView<S::Entry, S::Frame>> for Record {
    ghost use Rattle.cm_turn.specs.Plays.{RecordsState};

    ghost then = { RecordsState S.story S.frame S.by };
}

/// The slot goes home and the next ticket is served.
pub struct PassOn;

impl<S: Storied> Play<Option<BoxedState<S>>, SeatView<S::Entry, S::Frame>> for PassOn {
    ghost use Rattle.cm_turn.specs.Plays.{PassesOn};

    ghost then = { PassesOn };
}

/// What another seat has told is looked up.
pub struct Learn;

impl<S: Storied> Play<Option<BoxedState<S>>, SeatView<S::Entry, S::Frame>> for Learn {
    ghost use Rattle.cm_turn.specs.Plays.{Learns};

    ghost then = { Learns S.story S.frame S.by };
}

/// A new seat comes, which knows nothing.
pub struct Arrive;

impl<S: Storied> Play<Option<BoxedState<S>>, SeatView<S::Entry, S::Frame>> for Arrive {
    ghost use Rattle.cm_turn.specs.Plays.{Arrives};

    ghost then = { Arrives };
}

/// The maker makes a pass.
pub struct Make;

impl<E, F> Split<SeatView<E, F>> for Make {
    ghost use Rattle.cm_turn.specs.Views.{with_one_made, next_pass};

    ghost left = { with_one_made };

    ghost right = { next_pass };
}

/// A seat that tells what another has seen: it is split off that one, and joined to the one that is told.
pub struct Note;

impl<E, F> Split<SeatView<E, F>> for Note {
    ghost use Rattle.cm_turn.specs.Views.{note_of};

    ghost left = { λ v. v };

    ghost right = { note_of };
}

impl<E, F> Join<SeatView<E, F>> for Note {
    ghost use Rattle.cm_turn.specs.Views.{with_told, spent_view};

    ghost both = { with_told };

    ghost spent = { spent_view };
}

/// A pass is taken in.
pub struct Gather;

impl<E, F> Join<SeatView<E, F>> for Gather {
    ghost use Rattle.cm_turn.specs.Views.{with_pass, spent_view};

    ghost both = { with_pass };

    ghost spent = { spent_view };
}
