//! The rows of a table, as they change.

ghost use Rattle.std.specs.Prelude.{◌≡◌, ◌<◌, None, IsTrue, IfSome};
ghost use Rattle.cm_world.specs.Rows.{is_live, decl_of};

use crate::words::name_of;
use cm_decl::Kind;
use cm_names::{List, Text};
use cm_table::Table;
use cm_world::{ActKind, Outcome, View};
use std::alloc::Global;

/// A table of a root that isn't resolved, with room for two resolves and for three rows more.
pub fn fresh(alloc: Global) -> Option<Table>
    ensures lives { IfSome result (λ made. IsTrue (is_live made.rows 0)) }
    ensures unresolved { IfSome result (λ made. decl_of made.rows 0 ≡ None) }
    ensures spare { IfSome result (λ made. 0 < made.spare) }
{
    let root = Text::from_str(alloc, "r").ok()?;
    match Table::new(alloc, root, List::new(alloc), 4) {
        Ok(mut table) => match table.reserve(2) {
            Ok(()) => Some(table),
            Err(_) => {
                drop(table);
                None
            }
        },
        Err(_) => None,
    }
}

/// Whether there is room for what a fresh table has room for, and for no more.
fn has_room(table: &Table) -> bool {
    table.spare() == 2 && table.free() == 3 && table.fits(3)
}

/// Starts the root, and marks it to be shut down.
fn start_and_close(table: &mut Table) {
    table.set_pending(0, Some((ActKind::Start, 7)));
    table.end(0, Outcome::Started);
    table.set_on(1, false);
    table.set_closing(0);
}

/// Marks the root to be destroyed, and shuts it.
fn destroy(table: &mut Table) {
    table.set_doomed(0);
    table.set_shut(0);
}

/// Removes the root and all below it.
fn remove(table: &mut Table) {
    table.remove_below(0);
}

/// Whether the root is on, being shut down, being destroyed, shut, waiting for an action, and
/// below another.
fn marks(table: &Table) -> Option<[bool; 6]> {
    let facts = table.facts(0)?;
    Some([
        facts.on,
        facts.closing,
        facts.doomed,
        facts.shut,
        facts.pending.is_some(),
        facts.parent.is_some(),
    ])
}

/// Whether the root has a name, a declaration, offers of its own, and an absolute URL.
fn parts(table: &Table) -> [bool; 4] {
    [
        table.name(0).is_some(),
        table.decl(0).is_some(),
        table.gives(0).is_some(),
        table.absolute(0).is_some(),
    ]
}

/// Whether the root has its URL, and no child.
fn is_alone(table: &Table) -> bool {
    table.url(0).is_some_and(|url| url.as_str() == "r") && table.next_child(0, None).is_none()
}

/// Whether the table finds the builtin; `None` where memory runs out.
fn has_builtin(alloc: Global, table: &Table) -> Option<bool> {
    let name = name_of(alloc, "b")?;
    Some(table.builtin(Kind::Protocol, &name).is_some())
}

/// Whether no row is left, and there is room for all again.
fn is_bare(table: &Table) -> bool {
    table.facts(0).is_none() && table.free() == 4
}

/// Whether the table of a root tells its places, its marks and its parts as they change.
fn changes_rows(alloc: Global, table: &mut Table) -> [bool; 7] {
    let has_places = has_room(table);
    start_and_close(table);
    let is_closing = marks(table) == Some([true, true, false, false, false, false]);
    destroy(table);
    let is_shut = marks(table) == Some([true, true, true, true, false, false]);
    let has_parts = parts(table) == [false, false, true, false];
    let is_alone = is_alone(table);
    let has_none = has_builtin(alloc, table) == Some(false);
    remove(table);
    [
        has_places,
        is_closing,
        is_shut,
        has_parts,
        is_alone,
        has_none,
        is_bare(table),
    ]
}

/// Whether each of seven changes of a new table's rows did what it should.
fn changes_fresh_rows(alloc: Global) -> [bool; 7] {
    match fresh(alloc) {
        Some(mut table) => {
            let told = changes_rows(alloc, &mut table);
            drop(table);
            told
        }
        None => [false; 7],
    }
}

/// A new table's rows change as they are told to.
#[test]
fn rows_change(rt: HostRuntime) {
    let told = changes_fresh_rows(rt.alloc());
    assert!(rt; told == [true; 7], "{told:?}");
}
