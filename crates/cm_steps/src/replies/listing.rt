//! The reply to who asks for the children of an instance in a collection.

ghost use Rattle.std.specs.Prelude.{◌≡◌, IfOk, Some};
ghost use Rattle.std.specs.List.{filter_map};
ghost use Rattle.std.specs.Str.{bytes_eq};
ghost use Rattle.std.specs.Option.{option_copied, option_eq};
ghost use Rattle.cm_world.specs.declared.row.Row.{Row};
ghost use Rattle.cm_world.specs.Rows.{row_of};
ghost use Rattle.cm_world.specs.Create.{collection_of};
ghost use Rattle.cm_world.specs.Reports as reports;
ghost use Rattle.cm_world.specs.Sound.{IsOrderly};
ghost use Rattle.cm_steps.specs.Reporting as spec;

use crate::replies::beginning::push_found;
use crate::replies::opening::unready;
use cm_decl::{Collection, Decl};
use cm_names::{ChildName, List, Memory, Name, Shared};
use cm_world::{Kid, Reply, View};
use std::alloc::Global;

/// What is replied to who asks for the children of an instance in a collection.
pub fn listed<V: View>(alloc: Global, view: &V, inc: u64, coll: &Name) -> Result<Reply, Memory>
    ensures { IfOk result (λ reply. reply ≡ reports.list_reply (V.rows view.now) inc coll.now) }
{
    match unready(view, inc) {
        Some(refusal) => Ok(refusal),
        None => listed_by(alloc, view, inc, coll),
    }
}

/// What is replied where the instance is resolved.
fn listed_by<V: View>(alloc: Global, view: &V, inc: u64, coll: &Name) -> Result<Reply, Memory>
    ensures { IfOk result (λ reply. reply ≡ reports.list_by (V.rows view.now) inc coll.now) }
{
    if has_collection(view, inc, coll) {
        let kids = kids(alloc, view, inc, coll)?;
        Ok(Reply::Listed(Shared::new(alloc, kids)?))
    } else {
        Ok(Reply::NoCollection)
    }
}

/// Whether an instance is resolved and declares the collection.
fn has_collection<V: View>(view: &V, inc: u64, coll: &Name) -> bool
    ensures { result ≡ reports.has_collection (V.rows view.now) inc coll.now }
{
    match view.decl(inc) {
        None => false,
        Some(decl) => collection(decl, coll).is_some(),
    }
}

/// The collection of this name in a declaration, if it has one.
pub fn collection<'a>(decl: &'a Decl, coll: &Name) -> Option<&'a Collection>
    ensures { option_copied result ≡ collection_of decl.now coll.now }
{
    decl.collections
        .as_slice()
        .iter()
        .find(|collection| collection.name.as_str() == coll.as_str())
}

/// The children of an instance in a collection that aren't being destroyed, by their
/// incarnations.
fn kids<V: View>(alloc: Global, view: &V, inc: u64, coll: &Name) -> Result<List<Kid>, Memory>
    ensures { let rows = V.rows view.now in
        IfOk result (λ kids. kids ≡ filter_map (reports.kid_of inc coll.now) rows) }
{
    let mut kids = List::new(alloc);
    let mut after = None;
    'next: while let Some(child) = view.next_child(inc, after) {
        let found = kid(view, child, coll)?;
        push_found(&mut kids, found)?;
        after = Some(child);
    }
    Ok(kids)
}

/// An instance as a child in a collection, if it is in it and isn't being destroyed.
fn kid<V: View>(view: &V, inc: u64, coll: &Name) -> Result<Option<Kid>, Memory>
    ensures kid { IfOk result (λ found. (r : Row) → row_of (V.rows view.now) inc ≡ Some r
        → found ≡ spec.kid_in coll.now r) }
    ensures orderly { IsOrderly (V.rows view.now) (V.next_inc view.now) }
{
    let Some(facts) = view.facts(inc) else {
        return Ok(None);
    };
    match view.name(inc) {
        None => Ok(None),
        Some(name) => kid_as(name, inc, facts.doomed, coll),
    }
}

/// A child of that name in a collection, if it is in it and isn't being destroyed.
fn kid_as(name: &ChildName, inc: u64, doomed: bool, coll: &Name) -> Result<Option<Kid>, Memory>
    ensures { IfOk result (λ found. found ≡ spec.kid_as coll.now inc doomed name.now) }
{
    if !is_in(name, coll) {
        return Ok(None);
    }
    if doomed {
        return Ok(None);
    }
    let name = name.name.clone()?;
    Ok(Some(Kid { name, inc }))
}

/// Whether the name is one in the collection.
fn is_in(name: &ChildName, coll: &Name) -> bool
    ensures { result ≡ option_eq bytes_eq name.now.coll (Some coll.now) }
{
    match &name.coll {
        None => false,
        Some(own) => own.as_str() == coll.as_str(),
    }
}
