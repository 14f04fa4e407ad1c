//! The rows of a section.

ghost use Rattle.std.specs.Prelude.{option_map};
ghost use Rattle.cm_plain.specs.JsonTree.{view, items_view};
ghost use Rattle.cm_read.specs.ReadingInside.{GivesReading};
ghost use Rattle.cm_read.specs.Sections.{section_at, rows_at};

use crate::fault::{ItemPlace, ReadFault, fault, start};
use crate::number::{TOO_MANY_ROWS, WRONG_TYPE};
use cm_decl::{Child, Section};
use cm_names::List;
use cm_plain::JsonTree;
use std::alloc::Global;

/// The most rows of a section.
const MAX_ROWS: usize = 16_384;

/// The rows of a section, which are read item by item.
pub trait SectionItem: Drop {
    ghost use Rattle.std.specs.Prelude.{List};
    ghost use Rattle.serde_json.specs.Data.{Data};
    ghost use Rattle.cm_read.specs.Reading.{ReadResult};
    ghost use Rattle.cm_read.specs.declared.fault.ItemPlace.{ItemPlace};
    ghost use Rattle.cm_decl.specs.declared.rows.Child.{Child as DeclaredChild};

    ghost reads: { List DeclaredChild → ItemPlace → Data → ReadResult (List Self) };

    /// The rows that the item at that place gives beside these declared children.
    fn read(
        alloc: Global,
        at: ItemPlace,
        children: &[Child],
        item: &JsonTree<'_>,
    ) -> Result<List<Self>, ReadFault>
        ensures { GivesReading result (reads children.now at (view item.now)) };
}

/// The rows of the items, one item after another.
fn rows_of<T: SectionItem>(
    alloc: Global,
    start: ItemPlace,
    children: &[Child],
    items: &[JsonTree<'_>],
) -> Result<List<T>, ReadFault>
    ensures { GivesReading result (rows_at (T.reads children.now) start (items_view items.now)) }
{
    let mut rows = List::with_capacity(alloc, items.len().min(MAX_ROWS))?;
    let mut at = start;
    for item in items {
        rows.append(T::read(alloc, at, children, item)?)?;
        at.index = at.index.saturating_add(1);
    }
    Ok(rows)
}

/// The rows of a section beside these declared children: none where it is missing.
pub fn section_of<T: SectionItem>(
    alloc: Global,
    section: Section,
    children: &[Child],
    value: Option<&JsonTree<'_>>,
) -> Result<List<T>, ReadFault>
    ensures { GivesReading result
        (section_at (T.reads children.now) section
        (option_map (λ v. view v.now) value.entry)) }
{
    let Some(value) = value else {
        return Ok(List::new(alloc));
    };
    let Some(items) = value.as_array() else {
        return Err(fault(alloc, start(section), WRONG_TYPE, ""));
    };
    let rows = rows_of::<T>(alloc, start(section), children, items.as_slice())?;
    if rows.len() > MAX_ROWS {
        return Err(fault(alloc, start(section), TOO_MANY_ROWS, ""));
    }
    Ok(rows)
}
