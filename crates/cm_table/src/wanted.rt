//! The names of the children that others were given something from, strongly, when they were created. They
//! are kept as words, which other names may have, too.

ghost use Rattle.std.specs.Prelude.{◌≡◌, false, OnOk};
ghost use Rattle.std.specs.Option.{option_copied, option_map_or};
ghost use Rattle.cm_names.specs.declared.child.ChildName.{ChildName as Name};
ghost use Rattle.cm_decl.specs.Graph as graph;
ghost use Rattle.cm_decl.specs.Same.{same_child};
ghost use Rattle.cm_world.specs.RowsInside.{comes_from};
ghost use Rattle.cm_table.specs.Wanted.{has_name, HasNamesOf, HasSourcesOf};

use crate::by_name::word_of;
use cm_decl::{Give, Origin};
use cm_names::{ChildName, Dependency, Memory};
use std::collections::BTreeSet;

/// Puts the words of the children that these strongly come from into the set. `Err` where memory
/// runs out: then some of them may be in it.
pub fn want_all(wanted: &mut BTreeSet<u64>, gives: &[Give]) -> Result<(), Memory>
    ensures keeps { HasNamesOf wanted.old wanted.new }
    ensures sources { OnOk result (HasSourcesOf gives.now wanted.new) }
{
    for give in gives {
        want(wanted, give)?;
    }
    Ok(())
}

/// Puts the word of the child that this strongly comes from into the set, if it comes from one.
/// `Err` where memory runs out: then nothing is changed.
fn want(wanted: &mut BTreeSet<u64>, give: &Give) -> Result<(), Memory>
    ensures keeps { HasNamesOf wanted.old wanted.new }
    ensures source { OnOk result ((c : Name) → has_name wanted.new c ≡ false
        → comes_from c give.now ≡ false) }
{
    match strong_child(give) {
        None => Ok(()),
        Some(child) => put_name(wanted, child),
    }
}

/// The name of the child that this strongly comes from, if it comes from one.
fn strong_child(give: &Give) -> Option<&ChildName>
    ensures { (c : Name) → comes_from c give.now
        ≡ option_map_or (λ d. same_child d c) (option_copied result) false }
{
    if !is_strong(give.dependency) {
        return None;
    }
    match &give.from {
        Origin::Child(child) => Some(child),
        _ => None,
    }
}

/// Whether the dependency is strong.
fn is_strong(dependency: Dependency) -> bool
    ensures { result ≡ graph.is_strong dependency }
{
    dependency == Dependency::Strong
}

/// Puts the word of a name into the set. `Err` where memory runs out: then nothing is changed.
fn put_name(wanted: &mut BTreeSet<u64>, name: &ChildName) -> Result<(), Memory>
    ensures keeps { HasNamesOf wanted.old wanted.new }
    ensures own { OnOk result ((c : Name) → has_name wanted.new c ≡ false
        → same_child name.now c ≡ false) }
{
    wanted.insert(word_of(name))?;
    Ok(())
}
