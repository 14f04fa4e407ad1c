//! That two instances of a tree have places apart.

ghost use Rattle.cm_names.specs.Moniker.{IsChildName};
ghost use Rattle.cm_world.specs.Sound.{IsOrderly};
ghost use Rattle.cm_storage.specs.Laws as laws;

use cm_names::ChildName;
use cm_world::View;

/// Two instances of a tree have the same place in a storage only where they stand at one moniker, and
/// else neither place lies inside the other.
///
/// It changes nothing, and reads the names on both ways up to the root: that they are names is what
/// their types say.
pub fn stand_apart<V: View>(view: &V, inc: u64, other: u64)
    ensures { laws.StandApart (V.rows view.now) (V.builtins view.now) inc other }
{
    read_names(view, inc);
    read_names(view, other);
}

/// The names from the root down to an instance are names.
fn read_names<V: View>(view: &V, inc: u64)
    ensures named { laws.AreNamed (V.rows view.now) inc }
    ensures orderly { IsOrderly (V.rows view.now) (V.next_inc view.now) }
{
    let mut at = inc;
    'up: loop {
        let Some(place) = view.place(at) else {
            return;
        };
        read_name(place.name.get());
        at = place.parent;
    }
}

/// The name of a child is one.
fn read_name(child: &ChildName)
    ensures { IsChildName child.now }
{
    let _name = child.name.as_str();
    if let Some(coll) = &child.coll {
        let _coll = coll.as_str();
    }
}
