//! What is told of an instance and all below it.

ghost use Rattle.std.specs.Prelude.{◌≡◌, IfOk};
ghost use Rattle.std.specs.List.{filter_map};
ghost use Rattle.cm_world.specs.Rows.{subtree};

use crate::replies::beginning::push_found;
use cm_names::{List, Memory};
use cm_table::Table;
use cm_walk::rows_below;
use std::alloc::Global;

/// What is told of one instance.
pub trait Reportable: Drop {
    ghost use Rattle.std.specs.Prelude.{◌≡◌, IfOk, List as Seq, Option as Maybe, Some as Just};
    ghost use Rattle.cm_world.specs.declared.row.Row.{Row};
    ghost use Rattle.cm_world.specs.Rows.{row_of};

    // What is told of a row of these, if anything is.
    ghost told_of: { Seq Row → Row → Maybe Self };

    /// What is told of the instance, if anything is. `Err` where memory runs out.
    fn told(alloc: Global, table: &Table, inc: u64) -> Result<Option<Self>, Memory>
        ensures { let rows = table.now.rows in
            IfOk result (λ found. (r : Row) → row_of rows inc ≡ Just r → found ≡ told_of rows r) };
}

/// What is told of the instances at and below the given one, by their incarnations. `Err` where
/// memory runs out.
pub fn told_below<T: Reportable>(alloc: Global, table: &Table, top: u64) -> Result<List<T>, Memory>
    ensures { let rows = table.now.rows in
        IfOk result (λ told. told ≡ filter_map (T.told_of rows) (subtree rows top)) }
{
    let below = rows_below(alloc, table, top)?;
    let mut told = List::new(alloc);
    for inc in below.as_slice() {
        let found = T::told(alloc, table, *inc)?;
        push_found(&mut told, found)?;
    }
    Ok(told)
}
