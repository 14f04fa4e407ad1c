//! What deciders read of a table.

ghost use Rattle.std.specs.Prelude.{◌≡◌, is_some, option_map};
ghost use Rattle.std.specs.Option.{option_copied};
ghost use Rattle.cm_table.specs.Tree.{Tree};
ghost use Rattle.cm_world.specs.Rows as told;
ghost use Rattle.cm_world.specs.RowsInside as told_inside;
ghost use Rattle.cm_world.specs.Offering.{offer_for};

use crate::by_name::word_of;
use crate::reading::{is_that, told_index};
use crate::slot::{child_in, next_in};
use crate::table::Table;
use cm_decl::{Decl, Give, Kind};
use cm_names::{CapPath, ChildName, List, Moniker, Name};
use cm_world::{Builtin, Facts, ParentPlace, Row, View};

impl View for Table {
    ghost rows = { λ (t : Tree). t.rows };

    ghost next_inc = { λ (t : Tree). t.next_inc };

    ghost builtins = { λ (t : Tree). t.builtins };

    /// What the deciders ask of the row besides its rows of declarations; `None` where the instance
    /// doesn't live.
    #[inline(always)]
    fn facts(&self, inc: u64) -> Option<Facts> {
        match self.slot(inc) {
            None => None,
            Some(slot) => Some(facts_of(slot.row.get())),
        }
    }

    /// Whether the instance or one above it is being shut down, read from the marks kept with its row.
    fn closing_above(&self, inc: u64) -> bool {
        self.marks_above(inc).closing
    }

    /// Whether the instance or one above it is being destroyed, read from the marks kept with its row.
    fn doomed_above(&self, inc: u64) -> bool {
        self.marks_above(inc).doomed
    }

    /// The moniker that is kept with the row, if one is.
    fn moniker_at(&self, inc: u64) -> Option<&Moniker> {
        self.kept_moniker(inc)
    }

    /// The name of the instance under its parent; the root has none.
    fn name(&self, inc: u64) -> Option<&ChildName> {
        match self.slot(inc) {
            None => None,
            Some(slot) => name_of(slot.row.get()),
        }
    }

    /// The parent of the instance and the name there; `None` for the root.
    fn place(&self, inc: u64) -> Option<ParentPlace<'_>> {
        let _builtins = &self.builtins;
        if inc == 0 {
            return None;
        }
        match self.slot(inc) {
            None => None,
            Some(slot) => place_of(slot.row.get()),
        }
    }

    /// The declaration that the instance was resolved to, if it was.
    fn decl(&self, inc: u64) -> Option<&Decl> {
        match self.slot(inc) {
            None => None,
            Some(slot) => match &slot.row.get().decl {
                None => None,
                Some(decl) => Some(decl.get()),
            },
        }
    }

    /// What was given to the instance when it was created.
    fn gives(&self, inc: u64) -> Option<&List<Give>> {
        match self.slot(inc) {
            None => None,
            Some(slot) => Some(&slot.row.get().gives),
        }
    }

    /// The child of that name, found in the index of the parent's children.
    fn child(&self, parent: u64, name: &ChildName) -> Option<u64> {
        match self.slot(parent) {
            None => None,
            Some(slot) => child_in(&slot.index, name),
        }
    }

    /// The first child after the given incarnation, or the first of all.
    fn next_child(&self, parent: u64, after: Option<u64>) -> Option<u64> {
        match self.slot(parent) {
            None => None,
            Some(slot) => next_in(&slot.index, after),
        }
    }

    /// The place, in the parent's declaration, of the offer to the instance of that kind and name.
    fn offer_at(&self, inc: u64, kind: Kind, name: &Name) -> Option<u32> {
        let Some(slot) = self.slot(inc) else {
            return None;
        };
        match self.parent_offer(slot.row.get(), kind, name) {
            None => None,
            Some(place) => Some(told_index(place)),
        }
    }

    /// The place of the use of that path in the instance's declaration.
    fn use_at(&self, inc: u64, path: &CapPath) -> Option<u32> {
        let Some(slot) = self.slot(inc) else {
            return None;
        };
        match slot.row.usage(path) {
            None => None,
            Some(place) => Some(told_index(place)),
        }
    }

    /// The place of the expose of that kind and target name in the instance's declaration.
    fn expose_at(&self, inc: u64, kind: Kind, name: &Name) -> Option<u32> {
        let Some(slot) = self.slot(inc) else {
            return None;
        };
        match slot.row.expose(kind, name) {
            None => None,
            Some(place) => Some(told_index(place)),
        }
    }

    /// The place of the capability of that kind and name in the instance's declaration.
    fn capability_at(&self, inc: u64, kind: Kind, name: &Name) -> Option<u32> {
        let Some(slot) = self.slot(inc) else {
            return None;
        };
        match slot.row.capability(kind, name) {
            None => None,
            Some(place) => Some(told_index(place)),
        }
    }

    /// Whether the name is among those from which something given at a creation may come strongly.
    fn is_wanted(&self, name: &ChildName) -> bool {
        self.wanted.contains(&word_of(name))
    }

    /// The first of the realm's built-in capabilities that has that kind and name.
    fn builtin(&self, kind: Kind, name: &Name) -> Option<&Builtin> {
        self.builtins
            .as_slice()
            .iter()
            .find(|builtin| is_that(builtin, kind, name))
    }
}

impl Table {
    /// The place of the first offer of that kind and name to the row, in the declaration of its
    /// parent.
    fn parent_offer(&self, row: &Row, kind: Kind, name: &Name) -> Option<usize>
        ensures { result ≡ offer_for self.now.rows kind name.now row.now }
    {
        let Some(parent) = row.parent else {
            return None;
        };
        match (self.slot(parent), name_of(row)) {
            (Some(slot), Some(child)) => slot.row.offer(child, kind, name),
            _ => None,
        }
    }
}

/// Where a row stands that isn't the root.
fn place_of(row: &Row) -> Option<ParentPlace<'_>>
    requires { is_some row.now.parent ≡ is_some row.now.name }
    ensures parent { option_map (λ p. p.parent) result ≡ row.now.parent }
    ensures name { option_map (λ p. p.name.now) result ≡ row.now.name }
{
    match (row.parent, &row.name) {
        (Some(parent), Some(name)) => Some(ParentPlace { parent, name }),
        _ => None,
    }
}

/// The name of a row among its siblings.
pub(crate) fn name_of(row: &Row) -> Option<&ChildName>
    ensures { option_copied result ≡ row.now.name }
{
    match &row.name {
        None => None,
        Some(name) => Some(name.get()),
    }
}

/// What a decider is told of a row.
fn facts_of(row: &Row) -> Facts
    ensures { result ≡ told_inside.facts_of row.now }
{
    Facts {
        parent: row.parent,
        on: row.on,
        pending: row.pending,
        closing: row.closing,
        doomed: row.doomed,
        shut: row.shut,
    }
}
