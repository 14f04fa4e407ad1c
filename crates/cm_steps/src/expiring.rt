//! What goes with an instance that stops: its children in collections, or, where its collection
//! runs each child once, it itself.
//!
//! That a stopped parent loses these children, and that a child of a collection with the
//! durability `single_run` is destroyed when it has run, is the rule of Fuchsia's component
//! manifest reference (fuchsia.dev, "Collection durability"). What goes is marked to be destroyed;
//! callers shut it down and remove it.

ghost use Rattle.std.specs.Prelude.{◌≡◌, ◌&&◌, not, false, Some, IsTrue};
ghost use Rattle.std.specs.List.{list_any};
ghost use Rattle.std.specs.Option.{option_map_or};
ghost use Rattle.cm_world.specs.Rows.{row_of, has_parent, is_closed};
ghost use Rattle.cm_world.specs.Marks.{is_dynamic};
ghost use Rattle.cm_world.specs.Expiring as spec;
ghost use Rattle.cm_world.specs.Sound.{IsOrderly};
ghost use Rattle.cm_table.specs.Change.{with_changed};
ghost use Rattle.cm_cache.specs.Beside as beside;
ghost use Rattle.cm_steps.specs.Expiring.{doomed_if_dynamic, doomed_below};

use crate::replies::listing::collection;
use cm_decl::{Decl, Durability};
use cm_names::ChildName;
use cm_table::Table;
use cm_walk::above::is_closed;
use cm_walk::hop::parent;
use cm_world::{Outcome, View};

/// Whether an instance lives in a collection that runs each child once.
pub(crate) fn runs_once<V: View>(view: &V, inc: u64) -> bool
    ensures once { result ≡ spec.runs_once (V.rows view.now) inc }
    ensures orderly { IsOrderly (V.rows view.now) (V.next_inc view.now) }
{
    let Some(parent) = parent(view, inc) else {
        return false;
    };
    let Some(decl) = view.decl(parent) else {
        return false;
    };
    match view.name(inc) {
        None => false,
        Some(name) => names_once(decl, name),
    }
}

/// Whether the name is one in a collection that runs each child once.
fn names_once(decl: &Decl, name: &ChildName) -> bool
    ensures { result ≡ spec.is_once_by (Some decl.now) name.now.coll }
{
    match &name.coll {
        None => false,
        Some(coll) => match collection(decl, coll) {
            None => false,
            Some(collection) => is_single_run(collection.durability),
        },
    }
}

/// Whether a collection of that durability runs each child once.
fn is_single_run(durability: Durability) -> bool
    ensures { result ≡ spec.is_single_run durability }
{
    match durability {
        Durability::SingleRun => true,
        Durability::Transient => false,
    }
}

/// Whether something that isn't being destroyed yet goes with an instance that is off: a child in a
/// collection, or it itself.
fn goes_some<V: View>(view: &V, inc: u64) -> bool
    ensures { result ≡ beside.goes_some (V.rows view.now) inc }
{
    if is_closed(view, inc) {
        return false;
    }
    if runs_once(view, inc) {
        return may_go(view, inc);
    }
    child_goes(view, inc)
}

/// Whether an instance has a child in a collection that isn't being destroyed itself.
fn child_goes<V: View>(view: &V, inc: u64) -> bool
    requires orderly { IsOrderly (V.rows view.now) (V.next_inc view.now) }
    ensures { result
        ≡ list_any (λ r. has_parent inc r && is_dynamic r && not r.doomed) (V.rows view.now) }
{
    let mut after = None;
    'next: while let Some(child) = view.next_child(inc, after) {
        if may_go(view, child) {
            return true;
        }
        after = Some(child);
    }
    false
}

/// Lets others go with an instance at which an action has ended so, and answers whether something goes
/// that wasn't being destroyed yet. With `closing` a stopped instance is known to be shut, or it or one
/// above it to be being shut down; then nothing goes. It takes no memory.
pub(crate) fn expire_by(table: &mut Table, inc: u64, outcome: Outcome, closing: bool) -> bool
    requires { IsTrue closing → IsTrue (spec.is_stopped outcome)
        → IsTrue (is_closed table.old.rows inc) }
    ensures goes { result ≡ beside.goes_some_by outcome table.old.rows inc }
    ensures rows { table.new ≡ record table.old { rows = spec.expired_by outcome inc table.old.rows } }
{
    if closing {
        return false;
    }
    match outcome {
        Outcome::Stopped | Outcome::Killed => expire(table, inc),
        _ => false,
    }
}

/// Lets others go with an instance that is off, and answers whether something goes that wasn't being
/// destroyed yet. It takes no memory.
pub(crate) fn expire(table: &mut Table, inc: u64) -> bool
    ensures goes { result ≡ beside.goes_some table.old.rows inc }
    ensures rows { table.new ≡ record table.old { rows = spec.expired inc table.old.rows } }
{
    let goes = goes_some(table, inc);
    if goes {
        doom_goers(table, inc);
    }
    goes
}

/// Marks what goes with an instance that is off to be destroyed: its children in collections, or,
/// where its collection runs each child once, it itself. Where it is shut, or it or one above it is
/// being shut down, nothing goes.
fn doom_goers(table: &mut Table, inc: u64)
    ensures { table.new ≡ record table.old { rows = spec.expired inc table.old.rows } }
{
    if is_closed(table, inc) {
        return;
    }
    if runs_once(table, inc) {
        doom_dynamic(table, inc);
        return;
    }
    doom_children(table, inc);
}

/// Marks the children of an instance that are in collections to be destroyed.
fn doom_children(table: &mut Table, inc: u64)
    requires orderly { IsOrderly table.old.rows table.old.next_inc }
    ensures { table.new ≡ record table.old { rows = doomed_below inc table.old.rows } }
{
    let mut after = None;
    'next: while let Some(child) = table.next_child(inc, after) {
        doom_dynamic(table, child);
        after = Some(child);
    }
}

/// Marks an instance to be destroyed, if it lives in a collection and isn't marked so.
fn doom_dynamic(table: &mut Table, inc: u64)
    ensures { table.new ≡ with_changed inc doomed_if_dynamic table.old }
{
    if may_go(table, inc) {
        table.set_doomed(inc);
    }
}

/// Whether an instance lives in a collection and isn't being destroyed itself.
fn may_go<V: View>(view: &V, inc: u64) -> bool
    ensures { result ≡ option_map_or (λ r. is_dynamic r && not r.doomed)
        (row_of (V.rows view.now) inc) false }
{
    match view.facts(inc) {
        None => false,
        Some(facts) => is_in_collection(view, inc) && !facts.doomed,
    }
}

/// Whether an instance lives in a collection.
fn is_in_collection<V: View>(view: &V, inc: u64) -> bool
    ensures { result ≡ option_map_or is_dynamic (row_of (V.rows view.now) inc) false }
{
    match view.name(inc) {
        None => false,
        Some(name) => name.coll.is_some(),
    }
}
