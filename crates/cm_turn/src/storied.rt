//! What a state means to its lock.
ghost use Rattle.std.specs.Prelude.{List, ℕ};

/// A state that stands for a history.
///
/// - `story` is the list of entries that the state stands for.
/// - `frame` is what no turn may change, and what the history is understood from, such as the state
///   before the first entry.
/// - `by` is the number of the caller that has made an entry.
///
/// These are meanings alone: nothing of them is computed.
pub trait Storied {
    /// One entry of the history.
    type Entry;

    /// What all turns leave as it is.
    type Frame;

    ghost story: { Self → List Self.Entry };

    ghost frame: { Self → Self.Frame };

    ghost by: { Self.Entry → ℕ };
}
