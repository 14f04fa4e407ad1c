//! The passes that callers carry.
ghost use Rattle.std.specs.Prelude.{◌≡◌};
ghost use Rattle.cm_turn.specs.Passes.{PassView, pass_of, view_in, IsPass};

use crate::view::SeatView;
use atomic_table::Badge;
use std::marker::Model;

/// What one caller carries from turn to turn.
///
/// Contracts see its `lock`, its `frame`, its `caller`, the beginning of the history that it has
/// `seen`, and `mine`, the caller's entries in that. The frame is `Some` of the lock's frame. A
/// pass can't be copied, and `enter` takes it away, so each caller has one turn at most, and a pass
/// in hand is idle.
#[derive(Drop)]
pub struct Pass<E, F> {
    pub(crate) badge: Badge<SeatView<E, F>>,
    pub(crate) number: u32,
}

impl<E, F> Model for Pass<E, F> {
    ghost Value = { PassView E F };

    ghost view = { λ p. pass_of p.badge.table_id p.number (view_in p.badge.views) };

    ghost invariant = { λ p. IsPass p.number p.badge.views };
}

impl<E, F> Pass<E, F> {
    /// The number of the caller, from 0 on.
    pub fn caller(&self) -> u32
        ensures { result ≡ self.now.caller }
    {
        self.number
    }
}
