//! The instances above the one that a report tells of.

ghost use Rattle.std.specs.Prelude.{◌≡◌, ◌<◌, true, length, OnOk};
ghost use Rattle.cm_storage.specs.ParentAtHand.{AreStanding};

use crate::standing::{ParentAtHand, standing_at};
use cm_names::Memory;
use cm_walk::hop::parent;
use cm_world::View;
use std::alloc::Global;

/// Makes an instance, the parent of the next one told of, the last of those at hand, if it lives and is
/// resolved; those that it doesn't stand below are dropped. `report.rt` calls it before it tells of a child.
pub(crate) fn come_to<'a, V: View>(
    alloc: Global,
    view: &'a V,
    above: &mut Vec<ParentAtHand<'a>>,
    inc: u64,
) -> Result<(), Memory>
    requires { AreStanding (V.rows view.now) (V.builtins view.now) above.old.items }
    ensures { OnOk result (AreStanding (V.rows view.now) (V.builtins view.now) above.new.items) }
{
    if is_last(above.as_slice(), inc) {
        return Ok(());
    }
    leave(view, above, inc);
    if is_last(above.as_slice(), inc) {
        return Ok(());
    }
    let Some(decl) = view.decl(inc) else {
        return Ok(());
    };
    let standing = standing_at(alloc, view, inc, decl, above.as_slice().last())?;
    above.push(standing)?;
    Ok(())
}

/// Whether the last of these is that instance.
fn is_last(above: &[ParentAtHand<'_>], inc: u64) -> bool {
    match above.last() {
        Some(last) => last.inc == inc,
        None => false,
    }
}

/// Leaves the last ones, up to that instance or its parent.
fn leave<'a, V: View>(view: &V, above: &mut Vec<ParentAtHand<'a>>, inc: u64)
    requires { AreStanding (V.rows view.now) (V.builtins view.now) above.old.items }
    ensures { AreStanding (V.rows view.now) (V.builtins view.now) above.new.items }
{
    let higher = parent(view, inc);
    'up: while is_elsewhere(above.as_slice(), inc, higher) {
        above.pop();
    }
}

/// Whether there is a last one, and it is neither of these.
fn is_elsewhere(above: &[ParentAtHand<'_>], inc: u64, higher: Option<u64>) -> bool
    ensures { result ≡ true → 0 < length above.now }
{
    match above.last() {
        Some(last) => last.inc != inc && higher != Some(last.inc),
        None => false,
    }
}
