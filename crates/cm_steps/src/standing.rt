//! How an instance stands: what it is itself, and what it takes from those above it.

ghost use Rattle.std.specs.Prelude.{◌≡◌, ◌||◌, option_map};
ghost use Rattle.cm_world.specs.Rows.{row_of, is_gone, is_closed};
ghost use Rattle.cm_world.specs.RowsInside.{facts_of};

use cm_world::{Facts, View};

/// How an instance stands.
#[derive(Clone, Copy)]
pub(crate) struct Standing {
    /// What it is itself; `None` where it doesn't live.
    pub facts: Option<Facts>,
    /// Whether it doesn't live, or it or one above it is being destroyed.
    pub gone: bool,
    /// Whether it is shut, or it or one above it is being shut down.
    pub closed: bool,
}

/// Whether one of the two is so.
fn is_either(one: bool, other: bool) -> bool
    ensures { result ≡ (one || other) }
{
    one || other
}

/// How an instance stands, by what is kept of those above it.
pub(crate) fn standing_of<V: View>(view: &V, inc: u64) -> Standing
    ensures facts { result.facts ≡ option_map facts_of (row_of (V.rows view.now) inc) }
    ensures gone { result.gone ≡ is_gone (V.rows view.now) inc }
    ensures closed { result.closed ≡ is_closed (V.rows view.now) inc }
{
    match view.facts(inc) {
        None => Standing {
            facts: None,
            gone: true,
            closed: false,
        },
        Some(own) => Standing {
            facts: Some(own),
            gone: view.doomed_above(inc),
            closed: is_either(view.closing_above(inc), own.shut),
        },
    }
}
