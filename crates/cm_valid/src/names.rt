//! Sets of names.

ghost use Rattle.std.specs.Prelude.{◌≡◌, ◌||◌, ◌&&◌, ℕ, List, [], IfOk, OnOk};
ghost use Rattle.std.specs.List.{list_any};
ghost use Rattle.std.specs.Str.{bytes_eq};
ghost use Rattle.cm_decl.specs.Same as spec;
ghost use Rattle.cm_valid.specs.Lookup.{has};

use cm_decl::{Capability, Child, Collection, Kind};
use cm_names::Memory;
use std::alloc::Global;
use std::cmp::Reverse;
use std::collections::BTreeSet;
use std::marker::Model;

/// A set of names, which contracts see as the list of them.
///
/// The greatest stands first: names mostly come in their order, and where the set is gone through for a
/// place, one that comes first is found at once.
#[derive(Drop)]
pub struct Names<'a> {
    set: BTreeSet<Reverse<&'a str>>,
}

impl<'a> Model for Names<'a> {
    ghost use Rattle.std.specs.Prelude.{ℕ, List, map};

    ghost Value = { List (List ℕ) };

    ghost view = { λ a. map (λ k. k.0.now) a.set.keys };
}

impl<'a> Names<'a> {
    /// The empty set of names.
    pub fn new(alloc: Global) -> Names<'a>
        ensures { result ≡ [] }
    {
        Names {
            set: BTreeSet::new(alloc),
        }
    }

    /// Puts a name into the set. `Err` where memory runs out.
    pub fn insert(&mut self, name: &'a str) -> Result<(), Memory>
        ensures { OnOk result ((other : List ℕ) →
            has self.new other ≡ (bytes_eq other name.now || has self.old other)) }
    {
        self.set.insert(Reverse(name))?;
        Ok(())
    }

    /// Whether the name is in the set.
    pub fn contains(&self, name: &'a str) -> bool
        ensures { result ≡ has self.now name.now }
    {
        self.set.contains(&Reverse(name))
    }
}

/// The set of the children's names. `Err` comes where memory runs out.
pub(crate) fn child_names(alloc: Global, children: &[Child]) -> Result<Names<'_>, Memory>
    ensures { IfOk result (λ names. (name : List ℕ) →
        has names name ≡ list_any (λ k. bytes_eq k.name name) children.now) }
{
    let mut names = Names::new(alloc);
    for child in children {
        names.insert(child.name.as_str())?;
    }
    Ok(names)
}

/// The set of the collections' names. `Err` comes where memory runs out.
pub(crate) fn collection_names(
    alloc: Global,
    collections: &[Collection],
) -> Result<Names<'_>, Memory>
    ensures { IfOk result (λ names. (name : List ℕ) →
        has names name ≡ list_any (λ k. bytes_eq k.name name) collections.now) }
{
    let mut names = Names::new(alloc);
    for collection in collections {
        names.insert(collection.name.as_str())?;
    }
    Ok(names)
}

/// The names of the capabilities of one kind.
pub(crate) fn capability_names(
    alloc: Global,
    kind: Kind,
    capabilities: &[Capability],
) -> Result<Names<'_>, Memory>
    ensures { IfOk result (λ names. (name : List ℕ) → has names name ≡
        list_any (λ c. spec.same_kind c.kind kind && bytes_eq c.name name) capabilities.now) }
{
    let mut names = Names::new(alloc);
    for capability in capabilities {
        if same_kind(capability.kind, kind) {
            names.insert(capability.name.as_str())?;
        }
    }
    Ok(names)
}

/// Whether the kinds are the same.
pub(crate) fn same_kind(a: Kind, b: Kind) -> bool
    ensures { result ≡ spec.same_kind a b }
{
    a == b
}
