//! What an instance takes from those above it, and how it is itself. Deciders and reports ask this of any
//! number, whether an instance that lives has it or not.

ghost use Rattle.std.specs.Prelude.{◌≡◌};
ghost use Rattle.cm_world.specs.Rows.{is_below, is_gone, is_closed, is_resolved, is_shut, is_on};

use cm_world::View;

/// Whether the second instance is the first or below it. The choice of the next stop (`cm_order`) asks it.
#[tactic(auto, using(crate::proofs::lemmas::ways::Up::no_mark))]
pub fn is_below<V: View>(view: &V, top: u64, inc: u64) -> bool
    ensures { result ≡ is_below (V.rows view.now) top inc }
{
    let mut at = Some(inc);
    'up: while let Some(here) = at {
        let Some(facts) = view.facts(here) else {
            return false;
        };
        if here == top {
            return true;
        }
        at = facts.parent;
    }
    false
}

/// Whether an instance doesn't live, or it or one above it is being destroyed.
pub fn is_gone<V: View>(view: &V, inc: u64) -> bool
    ensures { result ≡ is_gone (V.rows view.now) inc }
{
    let Some(_facts) = view.facts(inc) else {
        return true;
    };
    view.doomed_above(inc)
}

/// Whether an instance is shut, or it or one above it is being shut down.
pub fn is_closed<V: View>(view: &V, inc: u64) -> bool
    ensures { result ≡ is_closed (V.rows view.now) inc }
{
    view.closing_above(inc) || is_shut(view, inc)
}

/// Whether an instance is shut; `false` where it doesn't live.
pub fn is_shut<V: View>(view: &V, inc: u64) -> bool
    ensures { result ≡ is_shut (V.rows view.now) inc }
{
    match view.facts(inc) {
        None => false,
        Some(facts) => facts.shut,
    }
}

/// Whether the program of an instance runs; `false` where the instance doesn't live. Asked before an opening
/// and before a stop, and for a survey.
pub fn is_on<V: View>(view: &V, inc: u64) -> bool
    ensures { result ≡ is_on (V.rows view.now) inc }
{
    match view.facts(inc) {
        None => false,
        Some(facts) => facts.on,
    }
}

/// Whether an instance lives and is resolved.
pub fn is_resolved<V: View>(view: &V, inc: u64) -> bool
    ensures { result ≡ is_resolved (V.rows view.now) inc }
{
    view.decl(inc).is_some()
}
