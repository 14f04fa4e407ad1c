//! The state of a held turn, lent. This stands in a file of its own, since its clause names the row
//! of `Held`.
ghost use Rattle.std.specs.Prelude.{◌≡◌};
ghost use Rattle.std.specs.Borrow.{Lends, sem};
ghost use Rattle.cm_turn.specs.contracts.turn.Held.{the_row};
ghost use Rattle.cm_turn.specs.Passes.{with_state};

use crate::storied::Storied;
use crate::turn::Held;

impl<S: Storied> Held<S> {
    /// The state. When the borrow ends, the turn has the state that was written, and its pass is as before.
    pub fn state(&mut self) -> &mut S
        ensures* writes_back { sem 𝓛
            (Lends (the_row S.row S.Entry.row S.Frame.row S.Storied) S.row self.entry result
            (with_state self.old)) }
        ensures value { result.now ≡ self.old.state }
    {
        self.state.state.as_mut()
    }
}
