//! What stands below an instance.

ghost use Rattle.std.specs.Prelude.{◌≡◌, ◌++◌, not, false, IfOk, OnOk, option_and_then};
ghost use Rattle.std.specs.Option.{option_map_or};
ghost use Rattle.cm_world.specs.Rows.{row_of, is_subtree_shut};
ghost use Rattle.cm_order.specs.Spots.{further};

use crate::above::is_unshut;
use cm_names::Memory;
use cm_world::View;
use std::alloc::Global;

/// A place in a search down the tree: the children of an instance that were made after one of
/// them, or all of them.
#[derive(Debug, Clone, Copy)]
pub(crate) struct Spot {
    /// The instance whose children they are.
    pub inc: u64,
    /// The child after which they were made; `None` for all children.
    pub behind: Option<u64>,
}

/// Puts what is left of a spot, once a child was found there, into the list: the children behind
/// it, and those below it.
pub(crate) fn go_on(left: &mut Vec<Spot>, inc: u64, child: Option<u64>) -> Result<(), Memory>
    ensures { OnOk result (left.new.items ≡ left.old.items ++ further inc child) }
{
    if let Some(child) = child {
        left.push(Spot {
            inc,
            behind: Some(child),
        })?;
        left.push(Spot {
            inc: child,
            behind: None,
        })?;
    }
    Ok(())
}

/// Whether there is an instance that isn't shut itself.
fn is_some_unshut<V: View>(view: &V, inc: Option<u64>) -> bool
    ensures { result ≡ option_map_or (λ r. not r.shut)
        (option_and_then (row_of (V.rows view.now)) inc) false }
{
    match inc {
        None => false,
        Some(inc) => is_unshut(view, inc),
    }
}

/// Whether all instances at and below this one are shut. `Err` where memory runs out.
pub fn all_shut<V: View>(alloc: Global, view: &V, top: u64) -> Result<bool, Memory>
    ensures { IfOk result (λ shut. shut ≡ is_subtree_shut (V.rows view.now) top) }
{
    if is_unshut(view, top) {
        return Ok(false);
    }
    if view.next_child(top, None).is_none() {
        return Ok(true);
    }
    let mut left = Vec::new(alloc);
    left.push(Spot {
        inc: top,
        behind: None,
    })?;
    while let Some(spot) = left.pop() {
        let child = view.next_child(spot.inc, spot.behind);
        if is_some_unshut(view, child) {
            return Ok(false);
        }
        go_on(&mut left, spot.inc, child)?;
    }
    Ok(true)
}
