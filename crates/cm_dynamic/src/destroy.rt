//! Whether an instance may be destroyed.

ghost use Rattle.std.specs.Prelude.{◌≡◌, false};
ghost use Rattle.std.specs.Option.{option_map_or};
ghost use Rattle.cm_world.specs.Rows.{row_of};
ghost use Rattle.cm_world.specs.Marks as spec;
ghost use Rattle.cm_dynamic.specs.Replies.{destroy_reply};

use cm_walk::above::is_gone;
use cm_world::View;

/// Whether an instance may be destroyed, and else the first thing that refuses it. A number is the
/// incarnation of the instance. [`may_destroy`] says in which order they come, and which rules are
/// Fuchsia's.
#[derive(Debug, Clone, Copy, PartialEq, Eq)]
pub enum MayDestroy {
    /// It may be marked now.
    Yes,
    /// The instance doesn't live, or one above it is being destroyed and it isn't marked itself.
    Gone(u64),
    /// The instance itself has been marked before.
    Already,
    /// The root, and a child that its parent declares, can't be destroyed.
    NotDynamic,
}

/// Whether an instance may be marked to be destroyed, and else the first thing that refuses it: it
/// doesn't live (`Gone`); it has been marked before (`Already`); one above it is being destroyed
/// (`Gone`); it is in no collection (`NotDynamic`). It takes no memory.
///
/// That children of collections alone are destroyed is the rule of `DestroyChild` of
/// `fuchsia.component.Realm` (fuchsia.dev). The order of the refusals is this project's own.
pub fn may_destroy<V: View>(view: &V, inc: u64) -> MayDestroy
    ensures { destroy_reply result ≡ spec.doom_reply (V.rows view.now) inc }
{
    let Some(facts) = view.facts(inc) else {
        return MayDestroy::Gone(inc);
    };
    if facts.doomed {
        return MayDestroy::Already;
    }
    if is_gone(view, inc) {
        return MayDestroy::Gone(inc);
    }
    if is_dynamic(view, inc) {
        MayDestroy::Yes
    } else {
        MayDestroy::NotDynamic
    }
}

/// Whether an instance lives and is in a collection.
fn is_dynamic<V: View>(view: &V, inc: u64) -> bool
    ensures { result ≡ option_map_or spec.is_dynamic (row_of (V.rows view.now) inc) false }
{
    match view.name(inc) {
        None => false,
        Some(name) => name.coll.is_some(),
    }
}
