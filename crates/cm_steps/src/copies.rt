//! Copies of plain values.

ghost use Rattle.std.specs.Prelude.{◌≡◌, ◌++◌, ◌∷◌, [], IfOk, OnOk};

use cm_names::{List, Memory, Plain};

/// A copy of the value. `Err` where memory runs out.
pub fn copied<T: Plain>(value: &T) -> Result<T, Memory>
    ensures { IfOk result (λ copy. copy ≡ value.now) }
{
    Ok(value.clone()?)
}

/// Puts a copy of the item at the end. `Err` where memory runs out.
pub fn push_copy<T: Plain>(list: &mut List<T>, item: &T) -> Result<(), Memory>
    ensures { OnOk result (list.new ≡ list.old ++ item.now ∷ []) }
{
    let copy = copied(item)?;
    list.push(copy)
}
