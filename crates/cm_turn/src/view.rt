//! What seats at the lock's table know. No value of these types is ever made: they stand in proofs alone.
use std::collections::LinkedList;

/// What one seat knows.
pub struct SeatView<E, F> {
    /// The lock's frame, and `None` at a seat that knows nothing.
    pub frame: Option<F>,
    /// The caller that the seat speaks for, and `None` where it is no pass.
    pub caller: Option<u64>,
    /// A beginning of the history.
    pub seen: LinkedList<E>,
    /// What another seat had seen, until this one has looked it up.
    pub told: LinkedList<E>,
    /// The caller's entries.
    pub mine: LinkedList<E>,
    /// The ticket, counted without end. The words have it modulo 2^64.
    pub ticket: Option<u64>,
    /// Whether the seat has the turn.
    pub turn: bool,
    /// Whether the slot has never had a state, and is still at home though the seat has the turn.
    pub fresh: bool,
    /// How many passes the seat is, or may yet make.
    pub parts: u64,
    /// Whether the seat is the maker of the passes.
    pub makes: bool,
    /// How many passes the maker has made.
    pub made: u64,
    /// The passes that the seat has taken in.
    pub gathered: LinkedList<Known<E, F>>,
}

/// What a pass knew when it was taken in.
pub struct Known<E, F> {
    /// The lock's frame.
    pub frame: Option<F>,
    /// The pass's caller.
    pub caller: u64,
    /// The beginning of the history that it had seen.
    pub seen: LinkedList<E>,
    /// Its caller's entries.
    pub mine: LinkedList<E>,
}
