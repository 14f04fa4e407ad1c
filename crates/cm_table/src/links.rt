//! Indexes that follow the rows.

ghost use Rattle.std.specs.Prelude.{◌≡◌, ◌≤◌, ◌==◌, ◌++◌, ◌∷◌, [], IsSome, length, true, Some};
ghost use Rattle.std.specs.Prelude.{OnOk, OnErr, if◌then◌else◌, option_and_then};
ghost use Rattle.std.specs.Option.{option_copied, option_eq};
ghost use Rattle.std.specs.Vec.{vec_capacity};
ghost use Rattle.cm_names.specs.declared.child.ChildName.{ChildName as Name};
ghost use Rattle.cm_decl.specs.Same.{same_child};
ghost use Rattle.cm_world.specs.Edits.{drop_first};
ghost use Rattle.cm_table.specs.Keys.{EachItem, EachOf, Filled, Increasing};
ghost use Rattle.cm_table.specs.Slots.{inc_of, slot_of, flat, slots_in, kids_at, named_at};
ghost use Rattle.cm_table.specs.Slots.{kids_of, named_in, base_of, AreOrderly};
ghost use Rattle.cm_table.specs.Links.{unless, Rises, IsSame, IsLinked, IsUnlinked};

use crate::block::{RowBlock, slot_in, swap_in};
use crate::change::put;
use crate::slot::ChildIndex;
use crate::view::name_of;
use cm_names::{ChildName, Memory};
use std::alloc::Global;

// ---- single indexes

/// The index, or one of no children.
fn or_new(alloc: Global, index: Option<ChildIndex>) -> ChildIndex
    ensures base { result.base ≡ base_of index }
    ensures kids { kids_at result ≡ kids_of index }
    ensures names { (c : Name) → named_at result c ≡ named_in index c }
{
    match index {
        None => ChildIndex::new(alloc),
        Some(index) => index,
    }
}

/// Puts a child after the others. `Err` where memory runs out: then it says what it said.
fn put_child(
    alloc: Global,
    index: &mut Option<ChildIndex>,
    name: ChildName,
    inc: u64,
) -> Result<(), Memory>
    requires { base_of index.old ≤ inc }
    ensures base { base_of index.new ≡ base_of index.old }
    ensures kids { OnOk result (kids_of index.new ≡ kids_of index.old ++ inc ∷ []) }
    ensures names { OnOk result ((c : Name) →
        named_in index.new c ≡ (if same_child name c then Some inc else named_in index.old c)) }
    ensures kids_err { OnErr result (kids_of index.new ≡ kids_of index.old) }
    ensures names_err { OnErr result ((c : Name) → named_in index.new c ≡ named_in index.old c) }
{
    let mut own = or_new(alloc, index.take());
    let above = inc - own.base;
    let done = own.put(name, above);
    put(index, own);
    done
}

/// Forgets the name of a child, which is the one that leads to it, if one does.
fn forget_child(index: &mut Option<ChildIndex>, name: Option<&ChildName>, inc: u64)
    requires { (c : Name) → named_in index.old c ≡ Some inc →
        option_eq same_child (option_copied name) (Some c) ≡ true }
    ensures base { base_of index.new ≡ base_of index.old }
    ensures kids { kids_of index.new ≡ kids_of index.old }
    ensures rises { Rises index.old → Rises index.new }
    ensures names { (c : Name) → named_in index.new c ≡ unless inc (named_in index.old c) }
{
    let Some(own) = index else {
        return;
    };
    let Some(name) = name else {
        return;
    };
    if inc < own.base {
        return;
    }
    let above = inc - own.base;
    own.forget(name, above);
}

/// Takes a child out of the index of its parent's children, if it is there.
fn remove_child(index: &mut Option<ChildIndex>, inc: u64)
    requires { Rises index.old }
    ensures base { base_of index.new ≡ base_of index.old }
    ensures kids { kids_of index.new ≡ drop_first (λ k. k == inc) (kids_of index.old) }
    ensures names { (c : Name) → named_in index.new c ≡ named_in index.old c }
{
    let Some(own) = index else {
        return;
    };
    if inc < own.base {
        return;
    }
    let above = inc - own.base;
    own.remove(above);
}

/// Forgets the name of a child, and where it is gone, removes it.
fn take_out(index: &mut Option<ChildIndex>, name: Option<&ChildName>, inc: u64, gone: bool)
    requires name { (c : Name) → named_in index.old c ≡ Some inc →
        option_eq same_child (option_copied name) (Some c) ≡ true }
    requires rises { Rises index.old }
    ensures base { base_of index.new ≡ base_of index.old }
    ensures kids { kids_of index.new
        ≡ (if gone then drop_first (λ k. k == inc) (kids_of index.old) else kids_of index.old) }
    ensures names { (c : Name) → named_in index.new c ≡ unless inc (named_in index.old c) }
{
    forget_child(index, name, inc);
    if gone {
        remove_child(index, inc);
    }
}

// ---- among all slots

/// The parent of the instance.
pub fn parent_in(blocks: &[RowBlock], inc: u64) -> Option<u64>
    requires filled { Filled slots_in blocks.now }
    requires increasing { Increasing inc_of (flat blocks.now) }
    ensures { result ≡ option_and_then (λ s. s.row.parent) (slot_of (flat blocks.now) inc) }
{
    match slot_in(blocks, inc) {
        None => None,
        Some(slot) => slot.row.get().parent,
    }
}

/// The name of the instance.
fn name_in(blocks: &[RowBlock], inc: u64) -> Option<&ChildName>
    requires filled { Filled slots_in blocks.now }
    requires increasing { Increasing inc_of (flat blocks.now) }
    ensures { option_copied result ≡ option_and_then (λ s. s.row.name) (slot_of (flat blocks.now) inc) }
{
    match slot_in(blocks, inc) {
        None => None,
        Some(slot) => name_of(slot.row.get()),
    }
}

/// Puts a child into the index of its parent. `Err` where memory runs out: then the indexes say
/// what they said.
pub fn link(
    alloc: Global,
    blocks: &mut Vec<RowBlock>,
    parent: u64,
    name: ChildName,
    inc: u64,
) -> Result<(), Memory>
    requires filled { Filled slots_in blocks.old.items }
    requires increasing { Increasing inc_of (flat blocks.old.items) }
    requires lives { IsSome (slot_of (flat blocks.old.items) parent) }
    requires low { EachItem (λ s. base_of s.index ≤ inc) (flat blocks.old.items) }
    ensures ok { OnOk result
        (EachOf (IsLinked parent name inc) (flat blocks.old.items) (flat blocks.new.items)) }
    ensures err { OnErr result (EachOf IsSame (flat blocks.old.items) (flat blocks.new.items)) }
    ensures filled { Filled slots_in blocks.new.items }
    ensures len { length blocks.new.items ≡ length blocks.old.items }
    ensures capacity { vec_capacity blocks.new ≡ vec_capacity blocks.old }
{
    let mut index = None;
    swap_in(blocks, parent, &mut index);
    let put = put_child(alloc, &mut index, name, inc);
    swap_in(blocks, parent, &mut index);
    drop(index);
    put
}

/// Forgets the name of an instance at its parent, which then no longer finds it by that. Where it
/// is gone, it is no longer one of its parent's children either.
pub fn unlink(blocks: &mut Vec<RowBlock>, inc: u64, gone: bool)
    requires filled { Filled slots_in blocks.old.items }
    requires orderly { AreOrderly (flat blocks.old.items) }
    ensures links { EachOf (IsUnlinked inc gone) (flat blocks.old.items) (flat blocks.new.items) }
    ensures filled { Filled slots_in blocks.new.items }
    ensures len { length blocks.new.items ≡ length blocks.old.items }
    ensures capacity { vec_capacity blocks.new ≡ vec_capacity blocks.old }
{
    let Some(parent) = parent_in(blocks.as_slice(), inc) else {
        return;
    };
    let mut index = None;
    swap_in(blocks, parent, &mut index);
    take_out(&mut index, name_in(blocks.as_slice(), inc), inc, gone);
    swap_in(blocks, parent, &mut index);
    drop(index);
}
