//! What deciders read of a realm tree.

use crate::{ActKind, Builtin};
use cm_decl::{Decl, Give, Kind};
use cm_names::{CapPath, ChildName, List, Moniker, Name, Shared};

/// What an instance is, but for its name, its declaration and what it was given.
#[derive(Clone, Copy)]
pub struct Facts {
    /// The incarnation of its parent; `None` for the root.
    pub parent: Option<u64>,
    /// Whether its program runs.
    pub on: bool,
    /// The action that was begun here and hasn't ended, with its number.
    pub pending: Option<(ActKind, u64)>,
    /// Whether it itself was marked to be shut down or destroyed.
    pub closing: bool,
    /// Whether it itself was marked to be destroyed.
    pub doomed: bool,
    /// Whether it is shut down.
    pub shut: bool,
}

/// Where an instance stands that isn't the root.
#[derive(Clone, Copy)]
pub struct ParentPlace<'a> {
    /// The incarnation of its parent.
    pub parent: u64,
    /// Its name among the children of its parent.
    pub name: &'a Shared<ChildName>,
}

/// A realm tree that can be read: the rows and the builtins of an orderly world.
pub trait View: Drop {
    ghost use Rattle.std.specs.Prelude.{◌≡◌, ℕ, List as Seq, false, IfSome, option_map, option_and_then};
    ghost use Rattle.std.specs.Option.{option_copied};
    ghost use Rattle.cm_world.specs.declared.frame.Builtin.{Builtin as Given};
    ghost use Rattle.cm_world.specs.declared.row.Row.{Row};
    ghost use Rattle.cm_world.specs.Rows.{row_of, decl_of, child_of, is_closing, some_above, moniker_of};
    ghost use Rattle.cm_world.specs.RowsInside.{name_of, child_behind, facts_of, use_at as told_use};
    ghost use Rattle.cm_world.specs.RowsInside.{expose_at as told_expose, capability_at as told_capability};
    ghost use Rattle.cm_world.specs.RowsInside.{IsUnwanted};
    ghost use Rattle.cm_world.specs.NextStation.{builtin_of};
    ghost use Rattle.cm_world.specs.Offering as offering;
    ghost use Rattle.cm_world.specs.Sound.{IsOrderly};

    // The rows of the tree.
    ghost rows: { Self → Seq Row };

    // The incarnation that the next new row gets.
    ghost next_inc: { Self → ℕ };

    // What stands above the root.
    ghost builtins: { Self → Seq Given };

    /// How the instance is, or `None` where it doesn't live.
    fn facts(&self, inc: u64) -> Option<Facts>
        ensures facts { result ≡ option_map facts_of (row_of (rows self.now) inc) }
        ensures orderly { IsOrderly (rows self.now) (next_inc self.now) };

    /// Whether the instance or one above it is marked to be shut down or destroyed; `false` where it
    /// doesn't live.
    fn closing_above(&self, inc: u64) -> bool
        ensures { result ≡ is_closing (rows self.now) inc };

    /// Whether the instance or one above it is marked to be destroyed; `false` where it doesn't live.
    fn doomed_above(&self, inc: u64) -> bool
        ensures { result ≡ some_above (λ r. r.doomed) (rows self.now) inc };

    /// Where the instance stands: the names from the root down to it, if that is kept. `None` says nothing.
    fn moniker_at(&self, inc: u64) -> Option<&Moniker>
        ensures { IfSome result (λ m. m.now ≡ moniker_of (rows self.now) inc) };

    /// The name of the instance among the children of its parent, or `None` where it doesn't
    /// live or is the root.
    fn name(&self, inc: u64) -> Option<&ChildName>
        ensures { option_copied result ≡ name_of (rows self.now) inc };

    /// The parent of the instance, and its name there, or `None` where it doesn't live or is the
    /// root.
    fn place(&self, inc: u64) -> Option<ParentPlace<'_>>
        ensures parent { option_map (λ p. p.parent) result
            ≡ option_and_then (λ r. r.parent) (row_of (rows self.now) inc) }
        ensures name { option_map (λ p. p.name.now) result ≡ name_of (rows self.now) inc }
        ensures orderly { IsOrderly (rows self.now) (next_inc self.now) };

    /// The declaration of the instance, or `None` where it doesn't live or isn't resolved.
    fn decl(&self, inc: u64) -> Option<&Decl>
        ensures decl { option_copied result ≡ decl_of (rows self.now) inc }
        ensures orderly { IsOrderly (rows self.now) (next_inc self.now) };

    /// What the instance alone was offered when it was created, or `None` where it doesn't live.
    fn gives(&self, inc: u64) -> Option<&List<Give>>
        ensures { option_copied result ≡ option_map (λ r. r.gives) (row_of (rows self.now) inc) };

    /// The child of that name, or `None` where there is none that isn't being destroyed.
    fn child(&self, parent: u64, name: &ChildName) -> Option<u64>
        ensures { result ≡ child_of (rows self.now) parent name.now };

    /// The first child, or the one that was made next after the given one, or `None` where there
    /// is no other. Children that are being destroyed are among them.
    fn next_child(&self, parent: u64, after: Option<u64>) -> Option<u64>
        ensures { result ≡ child_behind (rows self.now) parent after };

    /// Where the first offer of that kind and target name to the instance, or to its collection,
    /// stands in the declaration of its parent, counted from 0. An index above 2^32 - 1 is told as
    /// that. `None` exactly where there is none, where the instance is the root or doesn't live,
    /// and where its parent isn't resolved.
    fn offer_at(&self, inc: u64, kind: Kind, name: &Name) -> Option<u32>
        ensures { result ≡ offering.offer_at (rows self.now) inc kind name.now };

    /// Where the first use with that path stands in the declaration of the instance, counted from
    /// 0. An index above 2^32 - 1 is told as that. `None` exactly where there is none, and where the
    /// instance doesn't live or isn't resolved.
    fn use_at(&self, inc: u64, path: &CapPath) -> Option<u32>
        ensures { result ≡ told_use (rows self.now) inc path.now };

    /// Where the first expose of that kind and target name stands in the declaration of the
    /// instance, told as the index of a use is. `None` exactly where there is none, and where the
    /// instance doesn't live or isn't resolved.
    fn expose_at(&self, inc: u64, kind: Kind, name: &Name) -> Option<u32>
        ensures { result ≡ told_expose (rows self.now) inc kind name.now };

    /// Where the first capability of that kind and name stands in the declaration of the instance,
    /// told as the index of a use is. `None` exactly where there is none, and where the instance
    /// doesn't live or isn't resolved.
    fn capability_at(&self, inc: u64, kind: Kind, name: &Name) -> Option<u32>
        ensures { result ≡ told_capability (rows self.now) inc kind name.now };

    /// Whether something that an instance was given when it was created may come strongly from a
    /// child of that name, whatever its parent. `false` says that nothing does.
    fn is_wanted(&self, name: &ChildName) -> bool
        ensures { result ≡ false → IsUnwanted (rows self.now) name.now };

    /// The first capability of that kind and name above the root, or `None` where there is none.
    fn builtin(&self, kind: Kind, name: &Name) -> Option<&Builtin>
        ensures { option_copied result ≡ builtin_of (builtins self.now) kind name.now };
}
