//! A state that stands in memory of its own.
ghost use Rattle.std.specs.Prelude.{◌≡◌, IfOk, IfErr};

use std::alloc::Global;
use std::marker::Model;

/// A state in memory of its own: who moves it moves a pointer, however large the state is. Contracts see
/// it as the state itself.
pub(crate) struct BoxedState<S> {
    pub(crate) state: Box<S>,
}

impl<S> Model for BoxedState<S> {
    ghost Value = { S };

    ghost view = { λ b. b.state.value };
}

impl<S: Drop> Drop for BoxedState<S> {
    /// Called where the state goes: gives back its memory.
    fn drop(self) {
        let BoxedState { state: _ } = self;
    }
}

impl<S> BoxedState<S> {
    /// The state, in memory of its own. `Err` where memory runs out, with the state.
    pub(crate) fn new(alloc: Global, state: S) -> Result<BoxedState<S>, S>
        ensures ok { IfOk result (λ boxed. boxed ≡ state) }
        ensures err { IfErr result (λ back. back ≡ state) }
    {
        match Box::new(alloc, state) {
            Ok(state) => Ok(BoxedState { state }),
            Err(failed) => Err(failed.value),
        }
    }

    /// The state, out of its memory, which is given back.
    pub(crate) fn into_state(self) -> S
        ensures { result ≡ self }
    {
        let BoxedState { state } = self;
        Box::into_inner(state)
    }
}
