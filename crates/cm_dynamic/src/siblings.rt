//! The children of an instance that were created in its collections.

ghost use Rattle.std.specs.Prelude.{◌≡◌, ◌++◌, IfOk, OnOk, option_and_then, option_to_list};
ghost use Rattle.cm_world.specs.Create as spec;
ghost use Rattle.cm_world.specs.Rows.{row_of};
ghost use Rattle.cm_world.specs.Sound.{IsOrderly};
ghost use Rattle.cm_dynamic.specs.Siblings.{sibling_of};

use cm_decl::{DynChild, Give};
use cm_names::{ChildName, List, Memory};
use cm_world::View;
use std::alloc::Global;

/// The children of an instance in its collections that aren't being destroyed, and a further one
/// with these offers of its own.
pub(crate) fn siblings_with<V: View>(
    alloc: Global,
    view: &V,
    parent: u64,
    name: ChildName,
    gives: &[Give],
) -> Result<Vec<DynChild>, Memory>
    ensures { IfOk result (λ children. children.items
        ≡ spec.dynamic_with (V.rows view.now) parent name gives.now) }
{
    let mut children = siblings(alloc, view, parent)?;
    let gives = List::from_vec(gives.to_vec(alloc)?);
    children.push(DynChild { name, gives })?;
    Ok(children)
}

/// The children of an instance in its collections that aren't being destroyed, by their
/// incarnations.
fn siblings<V: View>(alloc: Global, view: &V, parent: u64) -> Result<Vec<DynChild>, Memory>
    ensures { IfOk result (λ children. children.items
        ≡ spec.dynamic_children (V.rows view.now) parent) }
{
    let mut children = Vec::new(alloc);
    let mut after = None;
    'children: while let Some(inc) = view.next_child(parent, after) {
        let found = sibling(view, inc)?;
        push_found(&mut children, found)?;
        after = Some(inc);
    }
    Ok(children)
}

/// An instance as a child in a collection of its parent, if it is one that isn't being destroyed.
fn sibling<V: View>(view: &V, inc: u64) -> Result<Option<DynChild>, Memory>
    ensures child { IfOk result (λ child.
        child ≡ option_and_then sibling_of (row_of (V.rows view.now) inc)) }
    ensures orderly { IsOrderly (V.rows view.now) (V.next_inc view.now) }
{
    let Some(facts) = view.facts(inc) else {
        return Ok(None);
    };
    if facts.doomed {
        return Ok(None);
    }
    let Some(name) = view.name(inc) else {
        return Ok(None);
    };
    if name.coll.is_none() {
        return Ok(None);
    }
    let Some(gives) = view.gives(inc) else {
        return Ok(None);
    };
    let name = name.clone()?;
    let gives = gives.clone()?;
    Ok(Some(DynChild { name, gives }))
}

/// Puts the child at the end, if there is one.
fn push_found(children: &mut Vec<DynChild>, found: Option<DynChild>) -> Result<(), Memory>
    ensures { OnOk result (children.new.items ≡ children.old.items ++ option_to_list found) }
{
    match found {
        None => Ok(()),
        Some(child) => {
            children.push(child)?;
            Ok(())
        }
    }
}
