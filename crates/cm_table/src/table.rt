//! Tables.

ghost use Rattle.std.specs.Prelude.{◌≡◌, ◌+◌, ◌-◌, ◌≤◌, ◌<◌, ◌^◌, ◌==◌, ◌∷◌, ◌++◌, ◌↔◌, [], ℕ};
ghost use Rattle.std.specs.Prelude.{length, true, false, None};
ghost use Rattle.std.specs.Prelude.{IfOk, IfErr, IfSome, IfNone, OnOk, OnErr, IsTrue, option_map};
ghost use Rattle.std.specs.Prelude.{option_and_then};
ghost use Rattle.std.specs.Option.{option_copied};
ghost use Rattle.std.specs.Vec.{vec_capacity};
ghost use Rattle.cm_world.specs.Edits.{drop_first};
ghost use Rattle.cm_world.specs.Rows.{row_of, is_live, is_resolved, decl_of, child_of, some_above};
ghost use Rattle.cm_world.specs.Rows.{moniker_of};
ghost use Rattle.cm_world.specs.RowsInside.{child_behind};
ghost use Rattle.cm_world.specs.Sound.{IsOrderly};
ghost use Rattle.cm_world.specs.World.{root_row, new_row};
ghost use Rattle.cm_world.specs.End.{set_on, set_pending, set_closing, set_doomed, set_shut, end_row};
ghost use Rattle.cm_world.specs.End.{rows_by, outcome_by};
ghost use Rattle.cm_world.specs.After.{others_than};
ghost use Rattle.cm_table.specs.Tree.{fit, first_tree};
ghost use Rattle.cm_table.specs.Change.{change_row, IsSafe, IsSparing, resolved, next_by, with_changed};
ghost use Rattle.cm_table.specs.Change.{with_row};
ghost use Rattle.cm_table.specs.Flags.{flag_in, has_mark};
ghost use Rattle.cm_table.specs.Monikers.{IsChildMoniker};
ghost use Rattle.cm_table.specs.Slots.{IsIndexed};
ghost use Rattle.cm_table.specs.Numbering.{bare_slot};
ghost use Rattle.cm_table.specs.Leaf.{IsWithin, IsLeaf, IsChildOf, Continues, HaveSameOthers};
ghost use Rattle.cm_table.specs.Refusal.{RefusesRow};

use crate::block::{RowBlock, block_room, change_in, push_block, remove_in, slot_in, swap_in};
use crate::change::Change;
use crate::links::{link, parent_in, unlink};
use crate::marking::mark_below;
use crate::marks::{MarkKind, MarksAbove};
use crate::ordered::OrderedRow;
use crate::prepared::{Prepared, PreparedParts};
use crate::slot::{Slot, last_in};
use crate::wanted::want_all;
use cm_decl::Give;
use cm_names::{ChildName, List, Memory, Moniker, Shared, Text};
use cm_world::{ActKind, Builtin, Finish, Outcome, Row};
use std::alloc::Global;
use std::collections::BTreeSet;
use std::marker::Model;

/// Why a row isn't added.
#[derive(Clone, Copy)]
pub enum TableFault {
    /// One row more is above the limit, or would need an incarnation above 2^64 - 2.
    Full,
    /// Memory ran out.
    Memory,
}

/// What became of a resolve, for its entry in the history.
#[derive(Drop)]
pub struct Settled {
    /// The end as it was brought.
    pub finish: Finish,
    /// `Resolved`, or `Full` where the children don't fit.
    pub outcome: Outcome,
}

/// The rows of a realm tree, with what stands above the root.
///
/// Contracts see it as the list of its rows by increasing incarnations, the incarnation that the
/// next new row gets, the builtins, the limit of rows, and the number of resolves that memory
/// is kept for. The rows are always those of an orderly world: each but the root has a parent
/// that lives and is resolved, no two children of one parent that aren't being destroyed have
/// one name, and each declaration is valid.
#[derive(Drop)]
pub struct Table {
    blocks: Vec<RowBlock>,
    pub(crate) builtins: List<Builtin>,
    count: u32,
    next_inc: u64,
    limit: u32,
    spare: u32,
    pub(crate) wanted: BTreeSet<u64>,
}

impl Model for Table {
    ghost use Rattle.cm_table.specs.Tree.{Tree};

    ghost Value = { Tree };

    ghost use Rattle.cm_table.specs.Kept.{tree_of, IsTableInvariant};

    ghost view = { tree_of };

    ghost invariant = { IsTableInvariant };
}

impl Table {
    /// The table of one row, the root, which has incarnation 0 and isn't resolved. At most
    /// `limit` instances may live at once. `Err` where memory runs out.
    pub fn new(
        alloc: Global,
        url: Text,
        builtins: List<Builtin>,
        limit: u32,
    ) -> Result<Table, Memory>
        ensures { IfOk result (λ made. made ≡ first_tree url builtins limit) }
    {
        let mut blocks = Vec::new(alloc);
        let moniker = Some(Moniker::root(alloc));
        let slots = slots_of(alloc, 1, root(alloc, url), MarksAbove::none(), moniker)?;
        blocks.push(RowBlock { slots })?;
        Ok(Table {
            blocks,
            builtins,
            count: 1,
            next_inc: 1,
            limit,
            spare: 0,
            wanted: BTreeSet::new(alloc),
        })
    }

    /// The URL of the instance as it was declared, or as it was created with; `None` where the
    /// instance doesn't live.
    pub fn url(&self, inc: u64) -> Option<&Text>
        ensures { option_copied result ≡ option_map (λ r. r.url) (row_of self.now.rows inc) }
    {
        match self.slot(inc) {
            None => None,
            Some(slot) => Some(&slot.row.get().url),
        }
    }

    /// The absolute URL of the instance; `None` where the instance doesn't live or isn't resolved.
    pub fn absolute(&self, inc: u64) -> Option<&Text>
        ensures { let row = row_of self.now.rows inc in
            option_copied result ≡ option_and_then (λ r. r.absolute) row }
    {
        match self.slot(inc) {
            None => None,
            Some(slot) => slot.row.get().absolute.as_ref(),
        }
    }

    /// The instance that came last; `None` where it doesn't live any more.
    pub fn newest(&self) -> Option<u64>
        ensures { let row = row_of self.now.rows (self.now.next_inc - 1) in
            result ≡ option_map (λ r. r.inc) row }
    {
        match self.slot(self.next_inc.saturating_sub(1)) {
            None => None,
            Some(slot) => Some(slot.inc()),
        }
    }

    /// How many more rows fit: together with those that live they are at most the limit, and
    /// none of them needs an incarnation above 2^64 - 2.
    pub fn free(&self) -> u32
        ensures { (n : ℕ) → 0 < n → IsTrue (fit self.now n) ↔ (n ≤ result) }
    {
        let below_limit = self.limit.saturating_sub(self.count);
        let numbers = u64::MAX - self.next_inc;
        match u32::try_from(numbers) {
            Err(_) => below_limit,
            Ok(few) => below_limit.min(few),
        }
    }

    /// Whether `more` rows fit.
    pub fn fits(&self, more: usize) -> bool
        ensures { result ≡ fit self.now more }
    {
        self.count <= self.limit
            && more as u64 <= (self.limit - self.count) as u64
            && more as u64 <= u64::MAX - self.next_inc
    }

    /// The number of resolves that memory is kept for.
    pub fn spare(&self) -> u32
        ensures { result ≡ self.now.spare }
    {
        self.spare
    }

    /// Keeps memory for at least `resolves` resolves. `Err` where memory runs out: then nothing
    /// is changed.
    pub fn reserve(&mut self, resolves: u32) -> Result<(), Memory>
        ensures ok { OnOk result (resolves ≤ self.new.spare) }
        ensures later { self.old.spare ≤ self.new.spare }
        ensures same { self.new ≡ record self.old { spare = self.new.spare } }
        ensures err { OnErr result (self.new ≡ self.old) }
    {
        if resolves > self.spare {
            self.blocks.reserve(resolves as usize)?;
            self.spare = resolves;
        }
        Ok(())
    }

    /// Ends the resolve of an instance by a declaration: the instance gets its absolute URL and
    /// its declaration, its action is no longer pending, and its children get the next
    /// incarnations, in the order of the declaration. `Ok` is the end for the history. It takes
    /// no memory.
    ///
    /// `Err` hands the declaration back, exactly where the children don't fit. Then nothing is
    /// changed.
    pub fn resolve(&mut self, inc: u64, prepared: Prepared) -> Result<Finish, Prepared>
        requires lives { IsTrue (is_live self.old.rows inc) }
        requires unresolved { decl_of self.old.rows inc ≡ None }
        requires spare { 0 < self.old.spare }
        ensures ok { OnOk result (self.new ≡ resolved inc prepared self.old) }
        ensures finish { IfOk result (λ e. e ≡ Finish.Resolved prepared.absolute prepared.decl) }
        ensures fits { OnOk result (fit self.old (length prepared.decl.children) ≡ true) }
        ensures err { OnErr result (self.new ≡ self.old) }
        ensures back { IfErr result (λ given. given ≡ prepared) }
        ensures full { OnErr result (fit self.old (length prepared.decl.children) ≡ false) }
    {
        if !self.fits(prepared.count()) {
            return Err(prepared);
        }
        Ok(self.take(inc, prepared))
    }

    /// Takes a declaration over whose children fit.
    fn take(&mut self, inc: u64, prepared: Prepared) -> Finish
        requires lives { IsTrue (is_live self.old.rows inc) }
        requires unresolved { decl_of self.old.rows inc ≡ None }
        requires spare { 0 < self.old.spare }
        requires fits { fit self.old (length prepared.decl.children) ≡ true }
        ensures rows { self.new ≡ resolved inc prepared self.old }
        ensures finish { result ≡ Finish.Resolved prepared.absolute prepared.decl }
    {
        let marks = self.marks_above(inc);
        let count = prepared.count();
        let above = self.kept_moniker(inc);
        let parts = prepared.into_parts(inc, self.next_inc, marks, above);
        let PreparedParts {
            finish,
            absolute,
            decl,
            index,
            children,
        } = parts;
        let mut own = Some(index);
        change_in(&mut self.blocks, inc, Change::Resolve(absolute, decl));
        swap_in(&mut self.blocks, inc, &mut own);
        drop(own);
        push_block(&mut self.blocks, children);
        self.count += count as u32;
        self.next_inc += count as u64;
        self.spare -= 1;
        finish
    }

    /// Ends the resolve of an instance by a declaration: as `resolve` does where the children
    /// fit, and else with the outcome `Full`, by which the action is no longer pending and
    /// nothing else is changed. It takes no memory.
    pub fn settle(&mut self, inc: u64, prepared: Prepared) -> Settled
        requires lives { IsTrue (is_live self.old.rows inc) }
        requires unresolved { decl_of self.old.rows inc ≡ None }
        requires spare { 0 < self.old.spare }
        ensures finish { result.finish ≡ Finish.Resolved prepared.absolute prepared.decl }
        ensures outcome { let old = self.old in
            result.outcome ≡ outcome_by old.limit old.rows old.next_inc result.finish }
        ensures rows { let old = self.old in
            self.new.rows ≡ rows_by inc old.next_inc result.finish result.outcome old.rows }
        ensures next { self.new.next_inc ≡ next_by self.old.next_inc result.finish result.outcome }
        ensures spare { self.old.spare ≤ self.new.spare + 1 }
        ensures full { result.outcome ≡ Outcome.Full → self.new.spare ≡ self.old.spare }
        ensures builtins { self.new.builtins ≡ self.old.builtins }
        ensures limit { self.new.limit ≡ self.old.limit }
    {
        match self.resolve(inc, prepared) {
            Ok(finish) => Settled {
                finish,
                outcome: Outcome::Resolved,
            },
            Err(prepared) => {
                self.end(inc, Outcome::Full);
                Settled {
                    finish: prepared.into_finish(),
                    outcome: Outcome::Full,
                }
            }
        }
    }

    /// Ends the action of an instance, if it lives, without a declaration: it is no longer
    /// pending, and the program runs after `Started` and doesn't after `Stopped` and `Killed`.
    pub fn end(&mut self, inc: u64, outcome: Outcome)
        ensures { self.new ≡ with_changed inc (end_row outcome) self.old }
    {
        self.change(inc, Change::End(outcome));
    }

    /// Puts down whether the program of an instance runs, if it lives.
    pub fn set_on(&mut self, inc: u64, on: bool)
        ensures { self.new ≡ with_changed inc (set_on on) self.old }
    {
        self.change(inc, Change::On(on));
    }

    /// Puts down which action is pending at an instance, if it lives.
    pub fn set_pending(&mut self, inc: u64, pending: Option<(ActKind, u64)>)
        ensures { self.new ≡ with_changed inc (set_pending pending) self.old }
    {
        self.change(inc, Change::Pending(pending));
    }

    /// Marks an instance to be shut down, if it lives.
    pub fn set_closing(&mut self, inc: u64)
        ensures { self.new ≡ with_changed inc set_closing self.old }
    {
        mark_below(&mut self.blocks, MarkKind::Closing, self.next_inc, inc);
        change_in(&mut self.blocks, inc, Change::Closing);
    }

    /// Marks an instance to be destroyed, if it lives. It is marked to be shut down with that.
    pub fn set_doomed(&mut self, inc: u64)
        ensures { self.new ≡ with_changed inc set_doomed self.old }
    {
        mark_below(&mut self.blocks, MarkKind::Closing, self.next_inc, inc);
        mark_below(&mut self.blocks, MarkKind::Doomed, self.next_inc, inc);
        unlink(&mut self.blocks, inc, false);
        change_in(&mut self.blocks, inc, Change::Doomed);
    }

    /// Puts down that an instance is shut down, if it lives.
    pub fn set_shut(&mut self, inc: u64)
        ensures { self.new ≡ with_changed inc set_shut self.old }
    {
        self.change(inc, Change::Shut);
    }

    /// Changes one row, which is found by its name as it was.
    #[inline(always)]
    fn change(&mut self, inc: u64, change: Change)
        requires safe { IsSafe change }
        requires sparing { IsSparing change }
        ensures { self.new ≡ with_changed inc (change_row change) self.old }
    {
        change_in(&mut self.blocks, inc, change);
    }

    /// Adds a child with the next incarnation, and answers that. At an `Err` nothing is changed:
    ///
    /// - `Full` exactly where one row more doesn't fit;
    /// - `Memory` where memory runs out.
    pub fn add(
        &mut self,
        alloc: Global,
        parent: u64,
        name: ChildName,
        url: Text,
        gives: List<Give>,
    ) -> Result<u64, TableFault>
        requires resolved { IsTrue (is_resolved self.old.rows parent) }
        requires unused { child_of self.old.rows parent name ≡ None }
        ensures inc { IfOk result (λ inc. inc ≡ self.old.next_inc) }
        ensures ok { let row = new_row self.old.next_inc (Some parent) (Some name) url gives in
            OnOk result (self.new ≡ with_row row self.old) }
        ensures fits { OnOk result (fit self.old 1 ≡ true) }
        ensures err { OnErr result (self.new ≡ self.old) }
        ensures refused { IfErr result (RefusesRow self.old) }
    {
        if !self.fits(1) {
            return Err(TableFault::Full);
        }
        let marks = self.marks_above(parent);
        let key = match name.clone() {
            Ok(key) => key,
            Err(_) => return Err(TableFault::Memory),
        };
        let name = match Shared::new(alloc, name) {
            Ok(name) => name,
            Err(_) => return Err(TableFault::Memory),
        };
        let moniker = match self.moniker_below(alloc, parent, &name) {
            Ok(moniker) => moniker,
            Err(Memory) => return Err(TableFault::Memory),
        };
        match want_all(&mut self.wanted, gives.as_slice()) {
            Ok(()) => {}
            Err(Memory) => return Err(TableFault::Memory),
        }
        let inc = self.next_inc;
        let row = child_row(inc, parent, name, url, gives);
        let slots = match room_for(alloc, &mut self.blocks, self.spare, row, marks, moniker) {
            Ok(slots) => slots,
            Err(Memory) => return Err(TableFault::Memory),
        };
        match link(alloc, &mut self.blocks, parent, key, inc) {
            Ok(()) => {}
            Err(Memory) => return Err(TableFault::Memory),
        }
        push_block(&mut self.blocks, slots);
        self.count += 1;
        self.next_inc += 1;
        Ok(inc)
    }

    /// Removes an instance and all instances below it; nothing where it doesn't live.
    pub fn remove_below(&mut self, inc: u64)
        ensures { self.new ≡ record self.old { rows = others_than self.old.rows inc } }
    {
        let mut at = self.live(inc);
        while let Some(from) = at {
            at = self.prune(inc, from);
        }
    }

    /// The incarnation itself where its instance lives, else `None`.
    fn live(&self, inc: u64) -> Option<u64>
        ensures { Continues self.now inc result }
    {
        match self.slot(inc) {
            None => None,
            Some(_) => Some(inc),
        }
    }

    /// Removes an instance without children at or below `from`, which is at or below `top`, and
    /// answers where to go on: at its parent, or nowhere where it was `top`.
    fn prune(&mut self, top: u64, from: u64) -> Option<u64>
        requires { IsWithin self.old.rows top from }
        ensures next { Continues self.new top result }
        ensures others { HaveSameOthers top self.new.rows self.old.rows }
        ensures fewer { length self.new.rows < length self.old.rows }
        ensures same { self.new ≡ record self.old { rows = self.new.rows } }
    {
        let leaf = self.walk_down(top, from);
        let parent = self.remove_leaf(top, leaf);
        if leaf == top {
            return None;
        }
        parent
    }

    /// Removes an instance without children, and answers its parent.
    fn remove_leaf(&mut self, top: u64, leaf: u64) -> Option<u64>
        requires { IsLeaf self.old.rows top leaf }
        ensures parent { result ≡ option_and_then (λ r. r.parent) (row_of self.old.rows leaf) }
        ensures rows { self.new.rows ≡ drop_first (λ r. r.inc == leaf) self.old.rows }
        ensures orderly { IsOrderly self.old.rows self.old.next_inc }
        ensures same { self.new ≡ record self.old { rows = self.new.rows } }
    {
        let parent = parent_in(self.blocks.as_slice(), leaf);
        unlink(&mut self.blocks, leaf, true);
        remove_in(&mut self.blocks, leaf);
        self.count -= 1;
        parent
    }

    /// The instance without children that last children lead to from the given one.
    fn walk_down(&self, top: u64, from: u64) -> u64
        requires { IsWithin self.now.rows top from }
        ensures { IsLeaf self.now.rows top result }
    {
        let mut leaf = from;
        while let Some(child) = self.last_child(leaf) {
            leaf = child;
        }
        leaf
    }

    /// The last child of a living instance.
    fn last_child(&self, parent: u64) -> Option<u64>
        ensures none { IfNone result (child_behind self.now.rows parent None ≡ None) }
        ensures some { IfSome result (IsChildOf self.now.rows parent) }
        ensures orderly { IsOrderly self.now.rows self.now.next_inc }
    {
        match self.slot(parent) {
            None => None,
            Some(slot) => last_in(&slot.index),
        }
    }

    /// Which marks the instance or one above it has; none where it doesn't live.
    pub(crate) fn marks_above(&self, inc: u64) -> MarksAbove
        ensures { (k : MarkKind) → flag_in k result ≡ some_above (has_mark k) self.now.rows inc }
    {
        match slot_in(self.blocks.as_slice(), inc) {
            None => MarksAbove::none(),
            Some(slot) => slot.marks,
        }
    }

    /// The names from the root down to the instance, if they are kept. `None` says nothing.
    pub(crate) fn kept_moniker(&self, inc: u64) -> Option<&Moniker>
        ensures { IfSome result (λ m. m.now ≡ moniker_of self.now.rows inc) }
    {
        match slot_in(self.blocks.as_slice(), inc) {
            None => None,
            Some(slot) => slot.moniker.as_ref(),
        }
    }

    /// The names from the root down to a child of that name, if those down to its parent are kept. `Err`
    /// where memory runs out.
    fn moniker_below(
        &self,
        alloc: Global,
        parent: u64,
        name: &Shared<ChildName>,
    ) -> Result<Option<Moniker>, Memory>
        ensures { IfOk result (IsChildMoniker self.now.rows parent name.now) }
    {
        let Some(above) = self.kept_moniker(parent) else {
            return Ok(None);
        };
        let parts = above.parts.with(alloc, name.clone()?)?;
        Ok(Some(Moniker { parts }))
    }

    /// The slot of that incarnation.
    #[inline(always)]
    pub(crate) fn slot(&self, inc: u64) -> Option<&Slot>
        ensures row { option_map (λ s. s.row) (option_copied result) ≡ row_of self.now.rows inc }
        ensures index { IfSome result (λ s. IsIndexed self.now.rows self.now.next_inc s.now) }
        ensures orderly { IsOrderly self.now.rows self.now.next_inc }
        ensures fits { self.now.next_inc < 2 ^ 64 }
    {
        slot_in(self.blocks.as_slice(), inc)
    }
}

/// The slots of one row, which has no index, with these marks and this moniker. There is room for so many
/// slots.
fn slots_of(
    alloc: Global,
    room: usize,
    row: Row,
    marks: MarksAbove,
    moniker: Option<Moniker>,
) -> Result<Vec<Slot>, Memory>
    requires { row.decl ≡ None }
    ensures { IfOk result (λ made. made.items ≡ bare_slot row marks moniker ∷ []) }
{
    let mut slots = Vec::with_capacity(alloc, room)?;
    let row = OrderedRow::new(row);
    slots.push(Slot {
        row,
        index: None,
        marks,
        moniker,
    })?;
    Ok(slots)
}

/// The slots of one row with these marks and this moniker, with room for one block more than the spare ones.
/// They have room for others that are added behind the row, where the last block has none.
fn room_for(
    alloc: Global,
    blocks: &mut Vec<RowBlock>,
    spare: u32,
    row: Row,
    marks: MarksAbove,
    moniker: Option<Moniker>,
) -> Result<Vec<Slot>, Memory>
    requires { row.decl ≡ None }
    ensures made { IfOk result (λ made. made.items ≡ bare_slot row marks moniker ∷ []) }
    ensures same { blocks.new.items ≡ blocks.old.items }
    ensures room { OnOk result (length blocks.new.items + spare + 1 ≤ vec_capacity blocks.new) }
    ensures later { vec_capacity blocks.old ≤ vec_capacity blocks.new }
{
    let slots = slots_of(alloc, block_room(blocks.as_slice()), row, marks, moniker)?;
    blocks.reserve(spare as usize + 1)?;
    Ok(slots)
}

/// The row of a new child, which isn't resolved.
fn child_row(inc: u64, parent: u64, name: Shared<ChildName>, url: Text, gives: List<Give>) -> Row
    ensures { result ≡ new_row inc (Some parent) (Some name) url gives }
{
    Row {
        inc,
        parent: Some(parent),
        name: Some(name),
        url,
        absolute: None,
        decl: None,
        on: false,
        pending: None,
        closing: false,
        doomed: false,
        shut: false,
        gives,
    }
}

/// The row of a root that isn't resolved.
fn root(alloc: Global, url: Text) -> Row
    ensures { result ≡ root_row url }
{
    Row {
        inc: 0,
        parent: None,
        name: None,
        url,
        absolute: None,
        decl: None,
        on: false,
        pending: None,
        closing: false,
        doomed: false,
        shut: false,
        gives: List::new(alloc),
    }
}
