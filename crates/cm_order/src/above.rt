//! What the facts of an instance say, and of those above it.

ghost use Rattle.std.specs.Prelude.{◌≡◌, not, false, Some, IsTrue, if◌then◌else◌};
ghost use Rattle.std.specs.Prelude.{option_and_then, option_map};
ghost use Rattle.std.specs.Option.{option_map_or};
ghost use Rattle.cm_world.specs.Rows.{row_of, has_closing, is_closing as closes_at};
ghost use Rattle.cm_world.specs.RowsInside.{facts_of};
ghost use Rattle.cm_world.specs.Sound.{IsOrderly};
ghost use Rattle.cm_world.specs.Stopping as spec;

use cm_world::{Facts, View};

/// A place on a way up.
#[derive(Debug, Clone, Copy)]
struct Upward {
    /// The instance that is looked at next; `None` above the root.
    at: Option<u64>,
    /// The last one so far that is being shut down itself.
    found: Option<u64>,
}

/// One further up from the instance: to its parent, if it has one. The instance is found, if it itself
/// is being shut down, else the one that was found before.
fn climb<V: View>(view: &V, inc: u64, found: Option<u64>) -> Upward
    ensures parent { result.at ≡ option_and_then (λ r. r.parent) (row_of (V.rows view.now) inc) }
    ensures closing { result.found ≡ (if has_closing (V.rows view.now) inc then Some inc else found) }
    ensures orderly { IsOrderly (V.rows view.now) (V.next_inc view.now) }
{
    match view.facts(inc) {
        None => Upward { at: None, found },
        Some(facts) => climb_by(inc, facts, found),
    }
}

/// The same of an instance that has these facts.
fn climb_by(inc: u64, facts: Facts, found: Option<u64>) -> Upward
    ensures parent { result.at ≡ facts.parent }
    ensures closing { result.found ≡ (if facts.closing then Some inc else found) }
{
    Upward {
        at: facts.parent,
        found: if facts.closing { Some(inc) } else { found },
    }
}

/// Whether neither an instance nor one above it is being shut down. Of one that is itself the marks aren't
/// asked.
fn stays_open<V: View>(view: &V, inc: u64, closes: bool) -> bool
    ensures { IsTrue result → closes_at (V.rows view.now) inc ≡ false }
{
    if closes {
        return false;
    }
    !view.closing_above(inc)
}

/// Among the instance and those above it the one nearest the root that is being shut down itself,
/// or `None` where none is, or where it doesn't live. It goes up only while one of those above is.
pub(crate) fn outermost<V: View>(view: &V, inc: u64) -> Option<u64>
    ensures { result ≡ spec.outermost (V.rows view.now) inc }
{
    let facts = view.facts(inc)?;
    outermost_by(view, inc, facts)
}

/// The same of an instance that has these facts.
pub(crate) fn outermost_by<V: View>(view: &V, inc: u64, facts: Facts) -> Option<u64>
    requires orderly { IsOrderly (V.rows view.now) (V.next_inc view.now) }
    requires facts { Some facts ≡ option_map facts_of (row_of (V.rows view.now) inc) }
    ensures { result ≡ spec.outermost (V.rows view.now) inc }
{
    if stays_open(view, inc, facts.closing) {
        return None;
    }
    let first = climb_by(inc, facts, None);
    let mut found = first.found;
    let mut at = first.at;
    'up: while let Some(here) = at {
        if !view.closing_above(here) {
            return found;
        }
        let further = climb(view, here, found);
        found = further.found;
        at = further.at;
    }
    found
}

/// Whether the instance lives and isn't shut itself.
pub(crate) fn is_unshut<V: View>(view: &V, inc: u64) -> bool
    ensures unshut { result
        ≡ option_map_or (λ r. not r.shut) (row_of (V.rows view.now) inc) false }
    ensures orderly { IsOrderly (V.rows view.now) (V.next_inc view.now) }
{
    match view.facts(inc) {
        None => false,
        Some(facts) => !facts.shut,
    }
}

/// Whether the instance lives and is being shut down itself.
pub(crate) fn is_closing<V: View>(view: &V, inc: u64) -> bool
    ensures closing { result ≡ has_closing (V.rows view.now) inc }
    ensures orderly { IsOrderly (V.rows view.now) (V.next_inc view.now) }
{
    match view.facts(inc) {
        None => false,
        Some(facts) => facts.closing,
    }
}
