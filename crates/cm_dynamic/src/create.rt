//! Whether a child may be created.

ghost use Rattle.std.specs.Prelude.{◌≡◌, IfOk, Some, List as Seq};
ghost use Rattle.std.specs.Option.{option_copied};
ghost use Rattle.cm_decl.specs.declared.decl.Decl.{Decl as Declaration};
ghost use Rattle.cm_decl.specs.declared.node.DynChild.{DynChild as Dynamic};
ghost use Rattle.cm_decl.specs.Graph.{StrongOn};
ghost use Rattle.cm_decl.specs.Reach.{NoCycle};
ghost use Rattle.cm_world.specs.Create as spec;
ghost use Rattle.cm_world.specs.Rows.{decl_of};
ghost use Rattle.cm_dynamic.specs.Replies.{AnswersCreate, AnswersGraph, RefusesChange};

use crate::apart::is_apart;
use crate::offers::bad_give;
use crate::onward::is_onward;
use crate::siblings::siblings_with;
use cm_decl::{Collection, Decl, DynChild, Give, Node};
use cm_deps::{Order, order_of};
use cm_names::{ChildName, List, Memory, Name};
use cm_walk::above::{is_closed, is_gone};
use cm_world::View;
use std::alloc::Global;

/// Whether a child may be created, and else the first thing that refuses it. The refusals stand in
/// the order in which they are tried. A number is the incarnation of an instance, unless the
/// variant says otherwise. [`may_create_acyclic`] says which rules are Fuchsia's.
#[derive(Debug, Drop, PartialEq, Eq)]
pub enum MayCreate {
    /// It may be created now.
    Yes,
    /// The parent doesn't live, or it or one above it is being destroyed.
    Gone(u64),
    /// The parent is shut down, or it or one above it is being shut down.
    Closing(u64),
    /// The parent has to be resolved first.
    Need(u64),
    /// The parent declares no collection of that name.
    NoCollection,
    /// This child of that name is in the collection and isn't being destroyed.
    Exists(u64),
    /// The child is to have offers of its own, and the collection takes none
    /// (`allowed_offers`: `static_only`).
    OffersRefused,
    /// The first offer that breaks a rule: its index, counted from 0, and the number of the first
    /// rule that it breaks, which is 51, 52, 54 or 57 as in a manifest.
    ///
    /// - 51: the source is a child that isn't declared, or one in a collection that isn't there or
    ///   is being destroyed.
    /// - 52: from `self`, and the parent declares no capability of that kind and source name; or a
    ///   directory from `framework`.
    /// - 54: the parent offers something of that target name to the collection, or an earlier offer
    ///   has that target name, of whatever kind.
    /// - 57: from `void`, although the availability doesn't allow that.
    BadOffer(u32, u8),
    /// With this child the siblings would depend on each other in a ring, which is this one: each
    /// node depends on the next, and the last is the first. Where there are several, it is the one
    /// that [`order_of`] picks.
    Cycle(List<Node>),
    /// One instance more doesn't fit in the tree.
    Full,
}

/// Whether a child of that name, with these offers of its own, may be created in a collection of
/// an instance, and else the first thing that refuses it, in the order of [`MayCreate`].
///
/// `free` is the number of instances that the tree still has room for: `Full` comes where it is 0
/// and nothing else refuses the child. `Err` comes where memory runs out, and where the first bad
/// offer has an index that doesn't fit into 32 bits.
///
/// The children of the parent in its collections have to make no ring as they are, as in every
/// sound tree. Then only a child that is itself offered something of a child of a collection
/// strongly can close one, and only where a child that it so comes from, directly or through
/// others, was offered something of one of its name before. Those are looked at alone, each once.
/// For any other the children of the parent aren't gone through, and no realm graph is made.
///
/// This is what `CreateChild` of `fuchsia.component.Realm` (fuchsia.dev) is refused for:
/// `NoCollection` stands for `COLLECTION_NOT_FOUND` and `Exists` for `INSTANCE_ALREADY_EXISTS`
/// there, and dynamic offers are allowed or not by "Collections" of the component manifest
/// reference. The order of the refusals, the numbers of the rules, the ring that is picked and the
/// limit of instances are this project's own.
pub fn may_create_acyclic<V: View>(
    alloc: Global,
    view: &V,
    free: u32,
    parent: u64,
    coll: &Name,
    child: &Name,
    gives: &[Give],
) -> Result<MayCreate, Memory>
    requires { (d : Declaration) → Some d ≡ decl_of (V.rows view.now) parent →
        NoCycle (StrongOn d (spec.dynamic_children (V.rows view.now) parent)) }
    ensures { IfOk result (AnswersCreate (V.rows view.now) free parent coll.now child.now
        gives.now) }
{
    if let Some(refusal) = refusal(view, parent, coll, child, gives)? {
        return Ok(refusal);
    }
    let Some(decl) = view.decl(parent) else {
        return Ok(MayCreate::Need(parent));
    };
    if is_apart(decl, gives) {
        return Ok(by_room(free));
    }
    let name = name_in(coll, child)?;
    if is_onward(alloc, view, parent, decl, &name, gives)? {
        return Ok(by_room(free));
    }
    let children = siblings_with(alloc, view, parent, name, gives)?;
    by_graph(alloc, decl, children.as_slice(), free)
}

/// The name of a child in a collection.
fn name_in(coll: &Name, child: &Name) -> Result<ChildName, Memory>
    ensures { IfOk result (λ name. name ≡ spec.dynamic_name coll.now child.now) }
{
    let coll = coll.clone()?;
    let name = child.clone()?;
    Ok(ChildName {
        coll: Some(coll),
        name,
    })
}

/// What refuses a child before its realm graph is looked at.
fn refusal<V: View>(
    view: &V,
    parent: u64,
    coll: &Name,
    child: &Name,
    gives: &[Give],
) -> Result<Option<MayCreate>, Memory>
    ensures { let refused = spec.refused_create (V.rows view.now) parent coll.now child.now in
        IfOk result (λ refusal. RefusesChange refusal (refused gives.now)) }
{
    if is_gone(view, parent) {
        return Ok(Some(MayCreate::Gone(parent)));
    }
    if is_closed(view, parent) {
        return Ok(Some(MayCreate::Closing(parent)));
    }
    match view.decl(parent) {
        None => Ok(Some(MayCreate::Need(parent))),
        Some(decl) => refusal_by(view, decl, parent, coll, child, gives),
    }
}

/// What refuses a child by the declaration of its parent.
fn refusal_by<V: View>(
    view: &V,
    decl: &Decl,
    parent: u64,
    coll: &Name,
    child: &Name,
    gives: &[Give],
) -> Result<Option<MayCreate>, Memory>
    ensures { let refused = spec.refused_by (V.rows view.now) parent decl.now coll.now child.now in
        IfOk result (λ refusal. RefusesChange refusal (refused gives.now)) }
{
    match collection(decl, coll) {
        None => Ok(Some(MayCreate::NoCollection)),
        Some(collection) => {
            let name = name_in(coll, child)?;
            refusal_in(view, decl, parent, collection, &name, gives)
        }
    }
}

/// The collection of that name.
fn collection<'a>(decl: &'a Decl, coll: &Name) -> Option<&'a Collection>
    ensures { option_copied result ≡ spec.collection_of decl.now coll.now }
{
    decl.collections
        .as_slice()
        .iter()
        .find(|collection| collection.name.as_str() == coll.as_str())
}

/// What refuses a child in a collection that is there.
fn refusal_in<V: View>(
    view: &V,
    decl: &Decl,
    parent: u64,
    collection: &Collection,
    name: &ChildName,
    gives: &[Give],
) -> Result<Option<MayCreate>, Memory>
    ensures { let refused = spec.refused_name (V.rows view.now) parent decl.now collection.now in
        IfOk result (λ refusal. RefusesChange refusal (refused name.now gives.now)) }
{
    match view.child(parent, name) {
        None => refused_gives(view, decl, parent, collection, gives),
        Some(inc) => Ok(Some(MayCreate::Exists(inc))),
    }
}

/// What refuses the offers to a child alone.
fn refused_gives<V: View>(
    view: &V,
    decl: &Decl,
    parent: u64,
    collection: &Collection,
    gives: &[Give],
) -> Result<Option<MayCreate>, Memory>
    ensures { let refused = spec.refused_gives (V.rows view.now) parent decl.now collection.now in
        IfOk result (λ refusal. RefusesChange refusal (refused gives.now)) }
{
    if gives.is_empty() {
        return Ok(None);
    }
    if !collection.dynamic_offers {
        return Ok(Some(MayCreate::OffersRefused));
    }
    let Some((index, number)) = bad_give(view, decl, parent, &collection.name, gives) else {
        return Ok(None);
    };
    match u32::try_from(index) {
        Ok(index) => Ok(Some(MayCreate::BadOffer(index, number))),
        Err(_) => Err(Memory),
    }
}

/// Whether a child may be created by the room alone, where the realm graph that has it has no
/// cycle.
fn by_room(free: u32) -> MayCreate
    ensures { (d : Declaration) (dynamic : Seq Dynamic) → NoCycle (StrongOn d dynamic) →
        AnswersGraph d dynamic free result }
{
    if free == 0 {
        return MayCreate::Full;
    }
    MayCreate::Yes
}

/// Whether a child may be created by the realm graph that has it, and by the room.
fn by_graph(
    alloc: Global,
    decl: &Decl,
    children: &[DynChild],
    free: u32,
) -> Result<MayCreate, Memory>
    ensures { IfOk result (AnswersGraph decl.now children.now free) }
{
    match order_of(alloc, decl, children)? {
        Order::Cycle(nodes) => Ok(MayCreate::Cycle(nodes)),
        Order::Ordered(_) => {
            if free == 0 {
                return Ok(MayCreate::Full);
            }
            Ok(MayCreate::Yes)
        }
    }
}
