//! Slots that came together.

ghost use Rattle.std.specs.Prelude.{◌≡◌, ◌≤◌, ◌<◌, ◌+◌, ◌==◌, ◌++◌, [], suc, length, None, Some, MatchOption};
ghost use Rattle.std.specs.Prelude.{IfSome, if◌then◌else◌, slice_get};
ghost use Rattle.std.specs.Option.{option_copied};
ghost use Rattle.std.specs.Vec.{vec_capacity};
ghost use Rattle.cm_world.specs.Edits.{edit_first, drop_first};
ghost use Rattle.cm_table.specs.Change.{change_row};
ghost use Rattle.cm_table.specs.Keys.{IsItemAt, IsPlace, Filled, Increasing, alone, first_key};
ghost use Rattle.cm_table.specs.Keys.{reaches, AreFilledBut};
ghost use Rattle.cm_table.specs.Marking.{flagged};
ghost use Rattle.cm_table.specs.Slots.{inc_of, slot_of, flat, slots_in, indexed_by, with_row_by};
ghost use Rattle.cm_table.specs.declared.slot.Slot.{Slot as OneSlot};

use crate::change::Change;
use crate::marks::MarkKind;
use crate::slot::{ChildIndex, Slot};
use std::mem::swap;

/// The most slots that a block is made with room for, where a row is added.
const MOST_JOINED: usize = 16;

/// The root, the children that one resolve brought, or rows that were added one after the other: a block has
/// room for sixteen of these, so that few blocks stand behind one that goes.
#[derive(Drop)]
pub struct RowBlock {
    /// The slots, by increasing incarnations.
    pub slots: Vec<Slot>,
}

// ---- places

/// The incarnation of the first slot, or 0.
#[inline(always)]
fn first_in(slots: &[Slot]) -> u64
    ensures { result ≡ first_key inc_of slots.now }
{
    match slots {
        [] => 0,
        [slot, ..] => slot.inc(),
    }
}

/// The incarnation of the first slot of the block, or 0.
#[inline(always)]
fn first_of(block: &RowBlock) -> u64
    ensures { result ≡ first_key inc_of block.now.slots.items }
{
    first_in(block.slots.as_slice())
}

/// Whether a block stands at the place, and begins at that incarnation or below.
fn begins_upto(blocks: &[RowBlock], place: usize, inc: u64) -> bool
    ensures { result ≡ reaches inc_of slots_in inc (slice_get blocks.now place) }
{
    match blocks.get(place) {
        None => false,
        Some(block) => first_of(block) <= inc,
    }
}

/// Which of the first two blocks begins at that incarnation or below: the second one, or else the first.
#[inline(always)]
fn among_two(blocks: &[RowBlock], inc: u64) -> usize
    requires { 2 ≤ length blocks.now }
    ensures { result ≤ 1 }
{
    if inc < first_of(&blocks[1]) { 0 } else { 1 }
}

/// About where the block of that incarnation stands: exactly there where all blocks after the second
/// one have as many slots, and none was removed but before them or at the end. The second one may have
/// lost its first slots, so its own beginning says nothing of where the others stand.
#[inline(always)]
fn interpolated(blocks: &[RowBlock], inc: u64) -> usize
    ensures { result ≤ length blocks.now }
{
    let count = blocks.len();
    if count < 2 {
        return 0;
    }
    let last = count - 1;
    let top = first_of(&blocks[last]);
    if inc >= top {
        return last;
    }
    if count < 4 {
        return among_two(blocks, inc);
    }
    let low = first_of(&blocks[2]);
    if inc < low {
        return among_two(blocks, inc);
    }
    let share = (inc - low).saturating_mul(last as u64 - 2) / (top - low);
    (last - 2).min(share as usize) + 2
}

/// About where the block of that incarnation stands, by how far it lies from the first slot of the block at
/// this place: exactly there where each incarnation between the two has a slot, and the blocks between have
/// as many slots as that one.
fn corrected(blocks: &[RowBlock], place: usize, inc: u64) -> usize
    ensures { result ≤ length blocks.now }
{
    let Some(block) = blocks.get(place) else {
        return 0;
    };
    let size = (block.slots.len() as u64).max(1);
    let first = first_of(block);
    if inc < first {
        return place
            .saturating_sub((first - inc).div_ceil(size) as usize)
            .min(blocks.len());
    }
    let further = (inc - first) / size;
    place.saturating_add(further as usize).min(blocks.len())
}

/// The place of the block that the slot of that incarnation stands in, where that is this place or
/// the next one.
fn near(blocks: &[RowBlock], place: usize, inc: u64) -> Option<usize>
    requires filled { Filled slots_in blocks.now }
    requires increasing { Increasing inc_of (flat blocks.now) }
    requires place { place ≤ length blocks.now }
    ensures { IfSome result (λ found. IsPlace inc_of slots_in blocks.now inc (suc found)) }
{
    let here = begins_upto(blocks, place, inc);
    if !here {
        return None;
    }
    let next = place + 1;
    let there = begins_upto(blocks, next, inc);
    if !there {
        return Some(place);
    }
    let behind = begins_upto(blocks, next + 1, inc);
    if behind {
        return None;
    }
    Some(next)
}

/// How many blocks begin at that incarnation or below.
fn blocks_upto(blocks: &[RowBlock], inc: u64) -> usize
    requires filled { Filled slots_in blocks.now }
    requires increasing { Increasing inc_of (flat blocks.now) }
    ensures { IsPlace inc_of slots_in blocks.now inc result }
{
    blocks.partition_point(|block| first_of(block) <= inc)
}

/// How many slots have that incarnation or a lower one.
fn slots_upto(slots: &[Slot], inc: u64) -> usize
    requires { Increasing inc_of slots.now }
    ensures { IsPlace inc_of alone slots.now inc result }
{
    slots.partition_point(|slot| slot.inc() <= inc)
}

/// The place of the slot of that incarnation, among slots by increasing ones, where each incarnation
/// from the first slot's up to that one has a slot.
#[inline(always)]
fn dense_at(slots: &[Slot], inc: u64) -> Option<usize>
    requires { Increasing inc_of slots.now }
    ensures { IfSome result (λ place. IsItemAt inc_of slots.now inc place) }
{
    let first = first_in(slots);
    if inc < first {
        return None;
    }
    let place = (inc - first) as usize;
    if place >= slots.len() {
        return None;
    }
    if slots[place].inc() == inc {
        return Some(place);
    }
    None
}

/// The place of the slot of that incarnation, among slots by increasing ones.
fn place_at(slots: &[Slot], inc: u64) -> Option<usize>
    requires { Increasing inc_of slots.now }
    ensures { MatchOption result (slot_of slots.now inc ≡ None)
        (λ place. IsItemAt inc_of slots.now inc place) }
{
    if let Some(place) = dense_at(slots, inc) {
        return Some(place);
    }
    let count = slots_upto(slots, inc);
    if count == 0 {
        return None;
    }
    let slot = &slots[count - 1];
    if slot.inc() == inc {
        return Some(count - 1);
    }
    None
}

/// The place of the block that the slot of that incarnation stands in, if there is one.
fn place_in(blocks: &[RowBlock], inc: u64) -> Option<usize>
    requires filled { Filled slots_in blocks.now }
    requires increasing { Increasing inc_of (flat blocks.now) }
    ensures { MatchOption result (slot_of (flat blocks.now) inc ≡ None)
        (λ place. IsPlace inc_of slots_in blocks.now inc (suc place)) }
{
    let first = interpolated(blocks, inc);
    if let Some(place) = near(blocks, first, inc) {
        return Some(place);
    }
    if let Some(place) = near(blocks, corrected(blocks, first, inc), inc) {
        return Some(place);
    }
    let count = blocks_upto(blocks, inc);
    if count == 0 {
        return None;
    }
    Some(count - 1)
}

// ---- look-ups

/// The slot of that incarnation, among slots by increasing ones.
fn slot_at(slots: &[Slot], inc: u64) -> Option<&Slot>
    requires { Increasing inc_of slots.now }
    ensures { option_copied result ≡ slot_of slots.now inc }
{
    match place_at(slots, inc) {
        None => None,
        Some(place) => Some(&slots[place]),
    }
}

/// The slot of that incarnation, where it stands in the block at this place, and each incarnation
/// from the first slot's there up to that one has a slot. `None` says nothing.
#[inline(always)]
fn dense_in(blocks: &[RowBlock], place: usize, inc: u64) -> Option<&Slot>
    requires { Increasing inc_of (flat blocks.now) }
    ensures { IfSome result (λ slot. slot_of (flat blocks.now) inc ≡ Some slot.now) }
{
    if place >= blocks.len() {
        return None;
    }
    let slots = blocks[place].slots.as_slice();
    match dense_at(slots, inc) {
        None => None,
        Some(near) => Some(&slots[near]),
    }
}

/// The slot of that incarnation, wherever it stands. The block is looked for from this place on.
#[cold]
#[inline(never)]
fn slot_anywhere(blocks: &[RowBlock], place: usize, inc: u64) -> Option<&Slot>
    requires filled { Filled slots_in blocks.now }
    requires increasing { Increasing inc_of (flat blocks.now) }
    ensures { option_copied result ≡ slot_of (flat blocks.now) inc }
{
    if let Some(slot) = dense_in(blocks, corrected(blocks, place, inc), inc) {
        return Some(slot);
    }
    match place_in(blocks, inc) {
        None => None,
        Some(place) => slot_at(blocks[place].slots.as_slice(), inc),
    }
}

/// The slot of that incarnation.
#[inline(always)]
pub fn slot_in(blocks: &[RowBlock], inc: u64) -> Option<&Slot>
    requires filled { Filled slots_in blocks.now }
    requires increasing { Increasing inc_of (flat blocks.now) }
    ensures { option_copied result ≡ slot_of (flat blocks.now) inc }
{
    let place = interpolated(blocks, inc);
    if let Some(slot) = dense_in(blocks, place, inc) {
        return Some(slot);
    }
    slot_anywhere(blocks, place, inc)
}

// ---- changes of rows

/// Changes the row of a slot.
#[inline(always)]
fn change(slot: &mut Slot, change: Change)
    ensures { slot.new ≡ with_row_by (change_row change) slot.old }
{
    slot.row.apply(change);
}

/// Changes the row of that incarnation, among slots by increasing ones.
#[inline(always)]
fn change_at(block: &mut RowBlock, inc: u64, new: Change)
    requires { Increasing inc_of block.old.slots.items }
    ensures { block.new.slots.items
        ≡ edit_first (λ (s : OneSlot). s.row.inc == inc) (with_row_by (change_row new))
        block.old.slots.items }
{
    match place_at(block.slots.as_slice(), inc) {
        None => drop(new),
        Some(place) => change(&mut block.slots[place], new),
    }
}

/// Changes the row of that incarnation.
#[inline(always)]
pub fn change_in(blocks: &mut Vec<RowBlock>, inc: u64, new: Change)
    requires filled { Filled slots_in blocks.old.items }
    requires increasing { Increasing inc_of (flat blocks.old.items) }
    ensures slots { flat blocks.new.items
        ≡ edit_first (λ (s : OneSlot). s.row.inc == inc) (with_row_by (change_row new))
        (flat blocks.old.items) }
    ensures filled { Filled slots_in blocks.new.items }
    ensures len { length blocks.new.items ≡ length blocks.old.items }
    ensures capacity { vec_capacity blocks.new ≡ vec_capacity blocks.old }
{
    match place_in(blocks.as_slice(), inc) {
        None => drop(new),
        Some(place) => change_at(&mut blocks[place], inc, new),
    }
}

// ---- marks

/// Sets the flag of that kind in the marks of the slot.
fn mark(slot: &mut Slot, kind: MarkKind)
    ensures { slot.new ≡ flagged kind slot.old }
{
    slot.marks.put(kind);
}

/// Flags the slot of that incarnation, among slots by increasing ones.
fn mark_at(block: &mut RowBlock, inc: u64, kind: MarkKind)
    requires { Increasing inc_of block.old.slots.items }
    ensures { block.new.slots.items
        ≡ edit_first (λ (s : OneSlot). s.row.inc == inc) (flagged kind) block.old.slots.items }
{
    if let Some(place) = place_at(block.slots.as_slice(), inc) {
        mark(&mut block.slots[place], kind);
    }
}

/// Flags the slot of that incarnation.
pub fn mark_in(blocks: &mut Vec<RowBlock>, inc: u64, kind: MarkKind)
    requires filled { Filled slots_in blocks.old.items }
    requires increasing { Increasing inc_of (flat blocks.old.items) }
    ensures slots { flat blocks.new.items
        ≡ edit_first (λ (s : OneSlot). s.row.inc == inc) (flagged kind) (flat blocks.old.items) }
    ensures filled { Filled slots_in blocks.new.items }
    ensures len { length blocks.new.items ≡ length blocks.old.items }
    ensures capacity { vec_capacity blocks.new ≡ vec_capacity blocks.old }
{
    if let Some(place) = place_in(blocks.as_slice(), inc) {
        mark_at(&mut blocks[place], inc, kind);
    }
}

// ---- changes of indexes

/// Swaps the index of the slot of that incarnation, if there is one, among slots by increasing ones.
fn swap_at(block: &mut RowBlock, inc: u64, index: &mut Option<ChildIndex>)
    requires { Increasing inc_of block.old.slots.items }
    ensures slots { block.new.slots.items
        ≡ edit_first (λ (s : OneSlot). s.row.inc == inc) (indexed_by index.old) block.old.slots.items }
    ensures index { (s : OneSlot) → slot_of block.old.slots.items inc ≡ Some s → index.new ≡ s.index }
    ensures none { slot_of block.old.slots.items inc ≡ None → index.new ≡ index.old }
{
    if let Some(place) = place_at(block.slots.as_slice(), inc) {
        swap(&mut block.slots[place].index, index);
    }
}

/// Swaps the index of the slot of that incarnation, if there is one.
pub fn swap_in(blocks: &mut Vec<RowBlock>, inc: u64, index: &mut Option<ChildIndex>)
    requires filled { Filled slots_in blocks.old.items }
    requires increasing { Increasing inc_of (flat blocks.old.items) }
    ensures slots { flat blocks.new.items
        ≡ edit_first (λ (s : OneSlot). s.row.inc == inc) (indexed_by index.old) (flat blocks.old.items) }
    ensures index { (s : OneSlot) → slot_of (flat blocks.old.items) inc ≡ Some s → index.new ≡ s.index }
    ensures none { slot_of (flat blocks.old.items) inc ≡ None → index.new ≡ index.old }
    ensures filled { Filled slots_in blocks.new.items }
    ensures len { length blocks.new.items ≡ length blocks.old.items }
    ensures capacity { vec_capacity blocks.new ≡ vec_capacity blocks.old }
{
    if let Some(place) = place_in(blocks.as_slice(), inc) {
        swap_at(&mut blocks[place], inc, index);
    }
}

// ---- slots that come and go

/// How many slots a block is made with room for, where a row is added behind these blocks: one where the last
/// of them has room for it, and else twice as many as that has, but sixteen at most.
pub fn block_room(blocks: &[RowBlock]) -> usize {
    let count = blocks.len();
    if count == 0 {
        return 1;
    }
    let slots = &blocks[count - 1].slots;
    let held = slots.len();
    if held < slots.capacity() {
        return 1;
    }
    held.clamp(1, MOST_JOINED / 2) * 2
}

/// Moves the slots behind those of the block, where that takes no memory, and tells whether.
fn join(block: &mut RowBlock, slots: &mut Vec<Slot>) -> bool
    ensures block { block.new.slots.items
        ≡ (if result then block.old.slots.items ++ slots.old.items else block.old.slots.items) }
    ensures left { slots.new.items ≡ (if result then [] else slots.old.items) }
{
    let room = block.slots.capacity() - block.slots.len();
    if room < slots.len() {
        return false;
    }
    block.slots.append(slots).is_ok()
}

/// Moves the slots behind those of the last block, where that takes no memory, and tells whether.
fn join_last(blocks: &mut Vec<RowBlock>, slots: &mut Vec<Slot>) -> bool
    requires filled { Filled slots_in blocks.old.items }
    ensures slots { flat blocks.new.items
        ≡ (if result then flat blocks.old.items ++ slots.old.items else flat blocks.old.items) }
    ensures left { slots.new.items ≡ (if result then [] else slots.old.items) }
    ensures filled { Filled slots_in blocks.new.items }
    ensures len { length blocks.new.items ≡ length blocks.old.items }
    ensures capacity { vec_capacity blocks.new ≡ vec_capacity blocks.old }
{
    let count = blocks.len();
    if count == 0 {
        return false;
    }
    join(&mut blocks[count - 1], slots)
}

/// Puts slots after the others: into the last block where that has room for them, and else as a block of
/// their own, unless there is none.
pub fn push_block(blocks: &mut Vec<RowBlock>, slots: Vec<Slot>)
    requires room { length blocks.old.items < vec_capacity blocks.old }
    requires filled { Filled slots_in blocks.old.items }
    ensures slots { flat blocks.new.items ≡ flat blocks.old.items ++ slots.items }
    ensures filled { Filled slots_in blocks.new.items }
    ensures len { length blocks.new.items ≤ length blocks.old.items + 1 }
    ensures capacity { vec_capacity blocks.new ≡ vec_capacity blocks.old }
{
    let mut slots = slots;
    let joined = join_last(blocks, &mut slots);
    if joined {
        return;
    }
    let count = slots.len();
    if count == 0 {
        return;
    }
    blocks.push_reserved(RowBlock { slots });
}

/// Removes the slot of that incarnation, among slots by increasing ones.
fn remove_at(block: &mut RowBlock, inc: u64)
    requires { Increasing inc_of block.old.slots.items }
    ensures { block.new.slots.items ≡ drop_first (λ (s : OneSlot). s.row.inc == inc) block.old.slots.items }
{
    if let Some(place) = place_at(block.slots.as_slice(), inc) {
        drop(block.slots.remove(place));
    }
}

/// Removes the slot of that incarnation.
pub fn remove_in(blocks: &mut Vec<RowBlock>, inc: u64)
    requires filled { Filled slots_in blocks.old.items }
    requires increasing { Increasing inc_of (flat blocks.old.items) }
    ensures slots { flat blocks.new.items
        ≡ drop_first (λ (s : OneSlot). s.row.inc == inc) (flat blocks.old.items) }
    ensures filled { Filled slots_in blocks.new.items }
    ensures len { length blocks.new.items ≤ length blocks.old.items }
    ensures capacity { vec_capacity blocks.new ≡ vec_capacity blocks.old }
{
    if let Some(place) = place_in(blocks.as_slice(), inc) {
        remove_at(&mut blocks[place], inc);
        drop_empty(blocks, place);
    }
}

/// Removes the block at that place, if it has no slot.
fn drop_empty(blocks: &mut Vec<RowBlock>, place: usize)
    requires place { place < length blocks.old.items }
    requires others { AreFilledBut slots_in place blocks.old.items }
    ensures slots { flat blocks.new.items ≡ flat blocks.old.items }
    ensures filled { Filled slots_in blocks.new.items }
    ensures len { length blocks.new.items ≤ length blocks.old.items }
    ensures capacity { vec_capacity blocks.new ≡ vec_capacity blocks.old }
{
    if blocks[place].slots.as_slice().is_empty() {
        blocks.remove(place);
    }
}
