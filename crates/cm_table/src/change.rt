//! Changes of one row.

ghost use Rattle.std.specs.Prelude.{◌≡◌, Some};

use crate::ordered::OrderedDecl;
use cm_names::Text;
use cm_world::{ActKind, Outcome};

/// What an event changes of the row of one instance.
#[derive(Drop)]
pub enum Change {
    /// Whether its program runs.
    On(bool),
    /// The action that is begun there.
    Pending(Option<(ActKind, u64)>),
    /// It is being shut down.
    Closing,
    /// It is being destroyed.
    Doomed,
    /// It is shut down.
    Shut,
    /// An action ended so, and brought no declaration.
    End(Outcome),
    /// A resolve ended with this absolute URL and this declaration.
    Resolve(Text, OrderedDecl),
}

/// Puts a value where another may be.
pub fn put<T: Drop>(place: &mut Option<T>, value: T)
    ensures { place.new ≡ Some value }
{
    *place = Some(value);
}
