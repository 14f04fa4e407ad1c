//! Which nodes of a level depend on each child there.
//!
//! They are gathered by strong edges alone, once for a level: what the instance uses strongly, and
//! what is strongly offered or given to its children.

ghost use Rattle.std.specs.Prelude.{◌≡◌, ◌≢◌, ◌&&◌, ◌⊎◌, ℕ, List as Seq, false, Some, None, IsTrue};
ghost use Rattle.std.specs.Prelude.{IfOk, OnOk};
ghost use Rattle.std.specs.List.{list_any};
ghost use Rattle.std.specs.Ordering.{nat_cmp};
ghost use Rattle.std.specs.Cmp.Lexicographic.{slice_cmp};
ghost use Rattle.std.specs.BTreeMap.{get};
ghost use Rattle.cm_decl.specs.Graph as graph;
ghost use Rattle.cm_decl.specs.Graph.{is_from_child};
ghost use Rattle.cm_world.specs.declared.row.Row.{Row};
ghost use Rattle.cm_world.specs.Level.{is_from_row, LevelStrong};
ghost use Rattle.cm_world.specs.Rows.{row_of, decl_of};
ghost use Rattle.cm_world.specs.RowsInside.{name_of};
ghost use Rattle.cm_names.specs.declared.child.ChildName.{ChildName as OneName};
ghost use Rattle.cm_world.specs.Sound.{IsSound};
ghost use Rattle.cm_trees.specs.Kids.{IsKid};
ghost use Rattle.cm_order.specs.Glances.{is_in_list, is_client, ClientsGrow, is_offered, OfferedGrow};
ghost use Rattle.cm_order.specs.Glances.{AreStrong, AreClients, AreOffered};
ghost use Rattle.cm_order.specs.Glances.{HasSources, HasOffered, HasNext, IsPut, KnowsDependents};
ghost use Rattle.cm_order.specs.Glances.{is_strong_from, is_given_from, is_offered_from, is_used_from};
ghost use Rattle.cm_order.specs.Glances.{is_used_of};

use cm_decl::{Decl, Give, Offer, Origin, Usage};
use cm_names::{ChildName, Dependency, List, Memory, Name};
use cm_world::View;
use std::alloc::Global;
use std::collections::{BTreeMap, BTreeSet, VecDeque};

/// The strong edges of a level to the children there.
#[derive(Drop)]
pub(crate) struct LevelEdges {
    /// For each child the nodes that strongly depend on it, but for some that are cleared. A child
    /// without a list, or with an empty one, is free.
    pub clients: BTreeMap<u64, List<u64>>,
    /// The same by who depends, in the order in which the nodes were looked at.
    pub sources: Vec<Edge>,
}

/// A node, and a child in whose list it was put.
#[derive(Debug, Clone, Copy)]
pub(crate) struct Edge {
    /// Which node depends.
    pub client: u64,
    /// On which child.
    pub source: u64,
}

/// What is known of a level: what depends on each child there, as far as it isn't cleared. A node is
/// cleared once it is shut, a child with all below it, as is all that depends on it.
#[derive(Drop)]
pub(crate) struct Dependents {
    /// The edges, but for some from nodes that are cleared.
    pub edges: LevelEdges,
    /// The nodes that are known to be cleared.
    pub cleared: BTreeSet<u64>,
    /// Children that were found to be free, and that weren't shut then.
    pub open: VecDeque<u64>,
    /// The children up to this one were looked at; `None` where none was.
    pub passed: Option<u64>,
    /// Whether none was found behind that one.
    pub all_passed: bool,
}

impl Dependents {
    /// What depends on each child of an instance, where nothing is known to be cleared.
    pub(crate) fn of<V: View>(alloc: Global, view: &V, parent: u64) -> Result<Dependents, Memory>
        requires { IsSound (V.rows view.now) (V.next_inc view.now) }
        ensures { IfOk result (KnowsDependents (V.rows view.now) parent) }
    {
        let mut edges = LevelEdges {
            clients: BTreeMap::new(alloc),
            sources: Vec::new(alloc),
        };
        put_level(alloc, view, parent, &mut edges)?;
        Ok(Dependents {
            edges,
            cleared: BTreeSet::new(alloc),
            open: VecDeque::new(alloc),
            passed: None,
            all_passed: false,
        })
    }

    /// Whether no list of the child has a node.
    pub(crate) fn is_free(&self, child: u64) -> bool
        ensures { (z : ℕ) → IsTrue result → is_client self.now.edges.clients child z ≡ false }
    {
        match self.edges.clients.get(&child) {
            None => true,
            Some(clients) => clients.is_empty(),
        }
    }

    /// Where the edges of a node begin among those by who depends. A node's stand together, and nodes were
    /// looked at by increasing incarnations. No clause says so: who reads there tests whose edge it is.
    pub(crate) fn first_edge(&self, node: u64) -> usize {
        let near = self.near_edge(node);
        if self.begins_at(near, node) {
            return near;
        }
        self.edges
            .sources
            .partition_point(|edge| edge.client < node)
    }

    /// Where the edges of a node begin, if each incarnation from the first edge's up to it has one edge.
    fn near_edge(&self, node: u64) -> usize {
        match self.edges.sources.first() {
            None => 0,
            Some(edge) => node.saturating_sub(edge.client) as usize,
        }
    }

    /// Whether the edge at a place is one of that node, and the one before isn't.
    fn begins_at(&self, place: usize, node: u64) -> bool {
        if self.source_at(place, node).is_none() {
            return false;
        }
        if place == 0 {
            return true;
        }
        self.source_at(place - 1, node).is_none()
    }

    /// The child in whose list a node was put by the edge at a place, if it is an edge of that node.
    pub(crate) fn source_at(&self, place: usize, node: u64) -> Option<u64> {
        let edge = self.edges.sources.get(place)?;
        if edge.client == node {
            return Some(edge.source);
        }
        None
    }

    /// Whether a node was put into the list of a child, and isn't known to be cleared; no clause says so.
    pub(crate) fn waits(&self, node: u64) -> bool {
        if self.source_at(self.first_edge(node), node).is_none() {
            return false;
        }
        !self.cleared.contains(&node)
    }

    /// Takes a child out of those that were found to be free, if it is the last of them.
    pub(crate) fn leave(&mut self, child: u64)
        ensures edges { self.new.edges ≡ self.old.edges }
        ensures cleared { self.new.cleared ≡ self.old.cleared }
    {
        if self.is_last(child) {
            self.open.pop_back();
        }
    }

    /// Whether a child is the last of those that were found to be free.
    fn is_last(&self, child: u64) -> bool {
        match self.open.back() {
            None => false,
            Some(last) => *last == child,
        }
    }
}

/// Puts each node of a level into the lists of the children that it strongly depends on.
fn put_level<V: View>(
    alloc: Global,
    view: &V,
    parent: u64,
    edges: &mut LevelEdges,
) -> Result<(), Memory>
    requires { IsSound (V.rows view.now) (V.next_inc view.now) }
    ensures all { OnOk result ((w : ℕ) → HasNext (V.rows view.now) parent edges.new.clients w) }
    ensures real { OnOk result (AreClients (V.rows view.now) parent edges.old.clients →
        AreClients (V.rows view.now) parent edges.new.clients) }
{
    match view.decl(parent) {
        None => Ok(()),
        Some(decl) => put_declared(alloc, view, parent, decl, edges),
    }
}

/// Puts each node of the level of an instance that has this declaration into the lists of the children
/// that it strongly depends on.
fn put_declared<V: View>(
    alloc: Global,
    view: &V,
    parent: u64,
    decl: &Decl,
    edges: &mut LevelEdges,
) -> Result<(), Memory>
    requires sound { IsSound (V.rows view.now) (V.next_inc view.now) }
    requires decl { Some decl.now ≡ decl_of (V.rows view.now) parent }
    ensures all { OnOk result ((w : ℕ) → HasNext (V.rows view.now) parent edges.new.clients w) }
    ensures real { OnOk result (AreClients (V.rows view.now) parent edges.old.clients →
        AreClients (V.rows view.now) parent edges.new.clients) }
{
    let mut offered = BTreeMap::new(alloc);
    put_offers(alloc, view, parent, decl.offers.as_slice(), &mut offered)?;
    put_uses(alloc, view, parent, decl.uses.as_slice(), edges)?;
    put_children(alloc, view, parent, &offered, edges)?;
    Ok(())
}

/// Puts the children that these offers strongly come from into the lists of the names that they are
/// to.
fn put_offers<V: View>(
    alloc: Global,
    view: &V,
    parent: u64,
    offers: &[Offer],
    offered: &mut BTreeMap<Name, List<u64>>,
) -> Result<(), Memory>
    ensures all { OnOk result (HasOffered (V.rows view.now) parent offers.now offered.new) }
    ensures real { OnOk result ((name : Seq ℕ) (x : ℕ) → IsTrue (is_offered offered.new name x) →
        IsTrue (is_offered offered.old name x) ⊎
        IsTrue (list_any (is_offered_from (V.rows view.now) parent name x) offers.now)) }
{
    for offer in offers {
        put_offer(alloc, view, parent, offer, offered)?;
    }
    Ok(())
}

/// Puts the child that an offer strongly comes from into the list of the name that it is to.
fn put_offer<V: View>(
    alloc: Global,
    view: &V,
    parent: u64,
    offer: &Offer,
    offered: &mut BTreeMap<Name, List<u64>>,
) -> Result<(), Memory>
    ensures here { OnOk result ((name : Seq ℕ) (x : ℕ) → x ≢ parent →
        IsTrue (is_offered_from (V.rows view.now) parent name x offer.now) →
        IsTrue (is_offered offered.new name x)) }
    ensures kept { OnOk result (OfferedGrow offered.old offered.new) }
    ensures real { OnOk result ((name : Seq ℕ) (x : ℕ) → IsTrue (is_offered offered.new name x) →
        IsTrue (is_offered offered.old name x) ⊎
        IsTrue (is_offered_from (V.rows view.now) parent name x offer.now)) }
{
    let Some(source) = strong_child(view, parent, offer.give.dependency, &offer.give.from) else {
        return Ok(());
    };
    put_name(alloc, &offer.to, source, offered)?;
    Ok(())
}

/// Puts an instance into the list of a name.
fn put_name(
    alloc: Global,
    name: &Name,
    source: u64,
    offered: &mut BTreeMap<Name, List<u64>>,
) -> Result<(), Memory>
    ensures here { OnOk result (IsTrue (is_offered offered.new name.now source)) }
    ensures kept { OnOk result (OfferedGrow offered.old offered.new) }
    ensures real { OnOk result ((other : Seq ℕ) (x : ℕ) → IsTrue (is_offered offered.new other x) →
        IsTrue (is_offered offered.old other x) ⊎ ((name.now ≡ other) × (source ≡ x))) }
{
    match offered.get_mut(name) {
        None => begin_name(alloc, name, source, offered),
        Some(list) => list.push(source),
    }
}

/// Begins the list of a name that has none with an instance.
fn begin_name(
    alloc: Global,
    name: &Name,
    source: u64,
    offered: &mut BTreeMap<Name, List<u64>>,
) -> Result<(), Memory>
    requires { get (slice_cmp nat_cmp) offered.old name.now ≡ None }
    ensures here { OnOk result (IsTrue (is_offered offered.new name.now source)) }
    ensures kept { OnOk result (OfferedGrow offered.old offered.new) }
    ensures real { OnOk result ((other : Seq ℕ) (x : ℕ) → IsTrue (is_offered offered.new other x) →
        IsTrue (is_offered offered.old other x) ⊎ ((name.now ≡ other) × (source ≡ x))) }
{
    let mut list = List::new(alloc);
    list.push(source)?;
    offered.insert(name.clone()?, list)?;
    Ok(())
}

/// The child that something strongly comes from, if it does from one.
fn strong_child<V: View>(
    view: &V,
    parent: u64,
    dependency: Dependency,
    source: &Origin,
) -> Option<u64>
    ensures found { (x : ℕ) → x ≢ parent →
        IsTrue (is_strong_from (V.rows view.now) parent x dependency source.now) → result ≡ Some x }
    ensures real { (x : ℕ) → result ≡ Some x → IsTrue (is_from_child source.now &&
        is_strong_from (V.rows view.now) parent x dependency source.now) }
{
    match dependency {
        Dependency::Weak => None,
        Dependency::Strong => child_at(view, parent, source),
    }
}

/// The child that a source is, if it is one.
fn child_at<V: View>(view: &V, parent: u64, source: &Origin) -> Option<u64>
    ensures found { (x : ℕ) → x ≢ parent →
        IsTrue (is_from_row (V.rows view.now) parent x source.now) → result ≡ Some x }
    ensures real { (x : ℕ) → result ≡ Some x →
        IsTrue (is_from_child source.now && is_from_row (V.rows view.now) parent x source.now) }
{
    match source {
        Origin::Child(name) => view.child(parent, name),
        Origin::Parent | Origin::Own | Origin::Framework | Origin::Void => None,
    }
}

/// Puts the instance into the lists of the children that these uses of it strongly come from.
fn put_uses<V: View>(
    alloc: Global,
    view: &V,
    parent: u64,
    uses: &[Usage],
    edges: &mut LevelEdges,
) -> Result<(), Memory>
    ensures all { OnOk result (HasSources parent (is_used_from (V.rows view.now) parent) uses.now
        (λ x. is_client edges.new.clients x parent)) }
    ensures real { OnOk result (
        AreStrong (V.rows view.now) parent (is_used_of (V.rows view.now) parent) uses.now parent →
        AreClients (V.rows view.now) parent edges.old.clients →
        AreClients (V.rows view.now) parent edges.new.clients) }
{
    for usage in uses {
        let source = strong_child(view, parent, usage.dependency, &usage.from);
        put_found(alloc, parent, source, edges)?;
    }
    Ok(())
}

/// Puts each child into the lists of the children that it strongly depends on.
fn put_children<V: View>(
    alloc: Global,
    view: &V,
    parent: u64,
    offered: &BTreeMap<Name, List<u64>>,
    edges: &mut LevelEdges,
) -> Result<(), Memory>
    requires { IsSound (V.rows view.now) (V.next_inc view.now) }
    ensures all { OnOk result ((c : ℕ) → (kid : IsKid (V.rows view.now) parent c) →
        IsPut (V.rows view.now) parent offered.now edges.new.clients c kid.row) }
    ensures kept { OnOk result (ClientsGrow edges.old.clients edges.new.clients) }
    ensures real { OnOk result (AreOffered (V.rows view.now) parent offered.now →
        AreClients (V.rows view.now) parent edges.old.clients →
        AreClients (V.rows view.now) parent edges.new.clients) }
{
    let mut behind = None;
    while let Some(child) = view.next_child(parent, behind) {
        put_child(alloc, view, parent, child, offered, edges)?;
        behind = Some(child);
    }
    Ok(())
}

/// Puts one child into the lists of the children that it strongly depends on.
fn put_child<V: View>(
    alloc: Global,
    view: &V,
    parent: u64,
    child: u64,
    offered: &BTreeMap<Name, List<u64>>,
    edges: &mut LevelEdges,
) -> Result<(), Memory>
    ensures put { OnOk result ((r : Row) → row_of (V.rows view.now) child ≡ Some r →
        IsPut (V.rows view.now) parent offered.now edges.new.clients child r) }
    ensures kept { OnOk result (ClientsGrow edges.old.clients edges.new.clients) }
    ensures real { OnOk result (IsSound (V.rows view.now) (V.next_inc view.now) →
        IsKid (V.rows view.now) parent child → AreOffered (V.rows view.now) parent offered.now →
        AreClients (V.rows view.now) parent edges.old.clients →
        AreClients (V.rows view.now) parent edges.new.clients) }
{
    let Some(gives) = view.gives(child) else {
        return Ok(());
    };
    put_gives(alloc, view, parent, child, gives.as_slice(), edges)?;
    put_named(alloc, view, child, offered, edges)?;
    Ok(())
}

/// Puts a child into the lists of the children that what is offered to it strongly comes from.
fn put_named<V: View>(
    alloc: Global,
    view: &V,
    child: u64,
    offered: &BTreeMap<Name, List<u64>>,
    edges: &mut LevelEdges,
) -> Result<(), Memory>
    ensures put { OnOk result ((c : OneName) (x : ℕ) → name_of (V.rows view.now) child ≡ Some c →
        IsTrue (is_offered offered.now (graph.target_of c) x) →
        IsTrue (is_client edges.new.clients x child)) }
    ensures kept { OnOk result (ClientsGrow edges.old.clients edges.new.clients) }
    ensures real { OnOk result ((p : ℕ) →
        ((c : OneName) (x : ℕ) → name_of (V.rows view.now) child ≡ Some c →
        IsTrue (is_offered offered.now (graph.target_of c) x) → LevelStrong (V.rows view.now) p child x) →
        AreClients (V.rows view.now) p edges.old.clients →
        AreClients (V.rows view.now) p edges.new.clients) }
{
    let Some(name) = view.name(child) else {
        return Ok(());
    };
    let Some(list) = offered.get(target_of(name)) else {
        return Ok(());
    };
    put_sources(alloc, child, list.as_slice(), edges)?;
    Ok(())
}

/// Puts a child into the lists of the children that what it was given alone strongly comes from.
fn put_gives<V: View>(
    alloc: Global,
    view: &V,
    parent: u64,
    child: u64,
    gives: &[Give],
    edges: &mut LevelEdges,
) -> Result<(), Memory>
    ensures all { OnOk result (HasSources parent (is_given_from (V.rows view.now) parent) gives.now
        (λ x. is_client edges.new.clients x child)) }
    ensures kept { OnOk result (ClientsGrow edges.old.clients edges.new.clients) }
    ensures real { OnOk result (
        AreStrong (V.rows view.now) parent (is_given_from (V.rows view.now) parent) gives.now child →
        AreClients (V.rows view.now) parent edges.old.clients →
        AreClients (V.rows view.now) parent edges.new.clients) }
{
    for give in gives {
        let source = strong_child(view, parent, give.dependency, &give.from);
        put_found(alloc, child, source, edges)?;
    }
    Ok(())
}

/// Puts a node into the lists of these children.
fn put_sources(
    alloc: Global,
    client: u64,
    list: &[u64],
    edges: &mut LevelEdges,
) -> Result<(), Memory>
    ensures all { OnOk result ((x : ℕ) → IsTrue (is_in_list list.now x) →
        IsTrue (is_client edges.new.clients x client)) }
    ensures kept { OnOk result (ClientsGrow edges.old.clients edges.new.clients) }
    ensures real { OnOk result ((rows : Seq Row) (p : ℕ) →
        ((x : ℕ) → IsTrue (is_in_list list.now x) → LevelStrong rows p client x) →
        AreClients rows p edges.old.clients → AreClients rows p edges.new.clients) }
{
    for source in list {
        put_client(alloc, client, *source, edges)?;
    }
    Ok(())
}

/// Puts a node into the list of a child that it depends on, if there is one.
fn put_found(
    alloc: Global,
    client: u64,
    source: Option<u64>,
    edges: &mut LevelEdges,
) -> Result<(), Memory>
    ensures here { OnOk result ((x : ℕ) → source ≡ Some x →
        IsTrue (is_client edges.new.clients x client)) }
    ensures kept { OnOk result (ClientsGrow edges.old.clients edges.new.clients) }
    ensures real { OnOk result ((rows : Seq Row) (p : ℕ) →
        ((x : ℕ) → source ≡ Some x → LevelStrong rows p client x) →
        AreClients rows p edges.old.clients → AreClients rows p edges.new.clients) }
{
    match source {
        None => Ok(()),
        Some(source) => put_client(alloc, client, source, edges),
    }
}

/// Puts a node into the list of a child that it depends on.
fn put_client(alloc: Global, client: u64, source: u64, edges: &mut LevelEdges) -> Result<(), Memory>
    ensures here { OnOk result (IsTrue (is_client edges.new.clients source client)) }
    ensures kept { OnOk result (ClientsGrow edges.old.clients edges.new.clients) }
    ensures real { OnOk result ((rows : Seq Row) (p : ℕ) → LevelStrong rows p client source →
        AreClients rows p edges.old.clients → AreClients rows p edges.new.clients) }
{
    put_in(alloc, source, client, &mut edges.clients)?;
    edges.sources.push(Edge { client, source })?;
    Ok(())
}

/// Puts an instance into the list of another one.
fn put_in(
    alloc: Global,
    key: u64,
    item: u64,
    lists: &mut BTreeMap<u64, List<u64>>,
) -> Result<(), Memory>
    ensures here { OnOk result (IsTrue (is_client lists.new key item)) }
    ensures kept { OnOk result (ClientsGrow lists.old lists.new) }
    ensures real { OnOk result ((rows : Seq Row) (p : ℕ) → LevelStrong rows p item key →
        AreClients rows p lists.old → AreClients rows p lists.new) }
{
    match lists.get_mut(&key) {
        None => begin_list(alloc, key, item, lists),
        Some(list) => list.push(item),
    }
}

/// Begins the list of an instance that has none with another one.
fn begin_list(
    alloc: Global,
    key: u64,
    item: u64,
    lists: &mut BTreeMap<u64, List<u64>>,
) -> Result<(), Memory>
    requires { get nat_cmp lists.old key ≡ None }
    ensures here { OnOk result (IsTrue (is_client lists.new key item)) }
    ensures kept { OnOk result (ClientsGrow lists.old lists.new) }
    ensures real { OnOk result ((rows : Seq Row) (p : ℕ) → LevelStrong rows p item key →
        AreClients rows p lists.old → AreClients rows p lists.new) }
{
    let mut list = List::new(alloc);
    list.push(item)?;
    lists.insert(key, list)?;
    Ok(())
}

/// The name that an offer to a child is to: that of its collection, if it is in one, else its own.
fn target_of(child: &ChildName) -> &Name
    ensures { result.now ≡ graph.target_of child.now }
{
    match &child.coll {
        None => &child.name,
        Some(coll) => coll,
    }
}
