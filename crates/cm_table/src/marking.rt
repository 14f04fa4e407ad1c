//! Marks that go down the tree once.

ghost use Rattle.std.specs.Prelude.{◌≡◌, IfSome, IfNone, None, length};
ghost use Rattle.std.specs.Vec.{vec_capacity};
ghost use Rattle.cm_world.specs.RowsInside.{child_behind};
ghost use Rattle.cm_table.specs.Flags as flags;
ghost use Rattle.cm_table.specs.Keys.{Filled};
ghost use Rattle.cm_table.specs.Marking.{AreIndexed, AreAllFlagged, IsDown, IsOpenWithin, IsOpenChild};
ghost use Rattle.cm_table.specs.Marking.{IsBottom, Marks, Turns, BeginsAt};
ghost use Rattle.cm_table.specs.Slots.{flat, slots_in, rows_in};

use crate::block::{RowBlock, mark_in, slot_in};
use crate::change::put;
use crate::links::parent_in;
use crate::marks::MarkKind;
use crate::slot::next_in;

/// Whether the instance or one above it is told to have the mark; `false` where it doesn't live.
pub fn is_flagged(blocks: &[RowBlock], kind: MarkKind, next: u64, inc: u64) -> bool
    requires filled { Filled slots_in blocks.now }
    requires indexed { AreIndexed next (flat blocks.now) }
    ensures { result ≡ flags.flag_of kind (flat blocks.now) inc }
{
    match slot_in(blocks, inc) {
        None => false,
        Some(slot) => slot.marks.has(kind),
    }
}

/// The first child that was made after the given one.
fn next_child(blocks: &[RowBlock], next: u64, parent: u64, after: Option<u64>) -> Option<u64>
    requires filled { Filled slots_in blocks.now }
    requires indexed { AreIndexed next (flat blocks.now) }
    ensures { result ≡ child_behind (rows_in (flat blocks.now)) parent after }
{
    match slot_in(blocks, parent) {
        None => None,
        Some(slot) => next_in(&slot.index, after),
    }
}

/// The first child after the given one that isn't flagged.
fn open_behind(
    blocks: &[RowBlock],
    kind: MarkKind,
    next: u64,
    parent: u64,
    after: Option<u64>,
) -> Option<u64>
    requires filled { Filled slots_in blocks.now }
    requires indexed { AreIndexed next (flat blocks.now) }
    ensures some { IfSome result (IsOpenChild kind (flat blocks.now) parent) }
    ensures none { IfNone result (AreAllFlagged kind (flat blocks.now) parent after) }
{
    let mut last = after;
    'seek: while let Some(child) = next_child(blocks, next, parent, last) {
        let flagged = is_flagged(blocks, kind, next, child);
        if !flagged {
            return Some(child);
        }
        last = Some(child);
    }
    None
}

/// A child that isn't flagged, if there is one. Those after the given one are looked at first.
fn open_child(
    blocks: &[RowBlock],
    kind: MarkKind,
    next: u64,
    parent: u64,
    after: Option<u64>,
) -> Option<u64>
    requires filled { Filled slots_in blocks.now }
    requires indexed { AreIndexed next (flat blocks.now) }
    ensures some { IfSome result (IsOpenChild kind (flat blocks.now) parent) }
    ensures none { IfNone result (AreAllFlagged kind (flat blocks.now) parent None) }
{
    if let Some(child) = open_behind(blocks, kind, next, parent, after) {
        return Some(child);
    }
    if after.is_none() {
        return None;
    }
    open_behind(blocks, kind, next, parent, None)
}

/// Goes down from an instance that isn't flagged to one whose children all are. At first the children
/// after the given one are looked at.
fn walk_down(
    blocks: &[RowBlock],
    kind: MarkKind,
    next: u64,
    top: u64,
    from: u64,
    after: Option<u64>,
) -> u64
    requires filled { Filled slots_in blocks.now }
    requires indexed { AreIndexed next (flat blocks.now) }
    requires within { IsOpenWithin kind (flat blocks.now) top from }
    ensures { IsBottom kind (flat blocks.now) top result }
{
    let mut here = from;
    let mut last = after;
    'down: while let Some(child) = open_child(blocks, kind, next, here, last) {
        here = child;
        last = None;
    }
    here
}

/// Flags one instance at or below `from`, which is at or below `top`, and tells where to go on: at
/// its parent, or nowhere where it was `top`. The one that was flagged last is kept in `last`.
fn mark_one(
    blocks: &mut Vec<RowBlock>,
    kind: MarkKind,
    next: u64,
    top: u64,
    from: u64,
    last: &mut Option<u64>,
) -> Option<u64>
    requires filled { Filled slots_in blocks.old.items }
    requires indexed { AreIndexed next (flat blocks.old.items) }
    requires down { IsDown kind (flat blocks.old.items) }
    requires within { IsOpenWithin kind (flat blocks.old.items) top from }
    ensures turns { Turns kind top (flat blocks.old.items) (flat blocks.new.items) result }
    ensures filled { Filled slots_in blocks.new.items }
    ensures len { length blocks.new.items ≡ length blocks.old.items }
    ensures capacity { vec_capacity blocks.new ≡ vec_capacity blocks.old }
{
    let bottom = walk_down(blocks.as_slice(), kind, next, top, from, *last);
    put(last, bottom);
    mark_in(blocks, bottom, kind);
    if bottom == top {
        return None;
    }
    parent_in(blocks.as_slice(), bottom)
}

/// The instance, if it lives and isn't flagged.
fn open_top(blocks: &[RowBlock], kind: MarkKind, next: u64, top: u64) -> Option<u64>
    requires filled { Filled slots_in blocks.now }
    requires indexed { AreIndexed next (flat blocks.now) }
    ensures { BeginsAt kind (flat blocks.now) top result }
{
    match slot_in(blocks, top) {
        None => None,
        Some(slot) => {
            if slot.marks.has(kind) {
                return None;
            }
            Some(top)
        }
    }
}

/// Flags all at and below an instance, each once. What is flagged already isn't gone through, for
/// all below it is flagged, too. It takes no memory.
pub fn mark_below(blocks: &mut Vec<RowBlock>, kind: MarkKind, next: u64, top: u64)
    requires filled { Filled slots_in blocks.old.items }
    requires indexed { AreIndexed next (flat blocks.old.items) }
    requires down { IsDown kind (flat blocks.old.items) }
    ensures marks { Marks kind top (flat blocks.old.items) (flat blocks.new.items) }
    ensures filled { Filled slots_in blocks.new.items }
    ensures len { length blocks.new.items ≡ length blocks.old.items }
    ensures capacity { vec_capacity blocks.new ≡ vec_capacity blocks.old }
{
    let mut at = open_top(blocks.as_slice(), kind, next, top);
    let mut last = None;
    'mark: while let Some(from) = at {
        at = mark_one(blocks, kind, next, top, from, &mut last);
    }
}
