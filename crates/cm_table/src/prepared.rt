//! Declarations that are ready to be taken over.

ghost use Rattle.std.specs.Prelude.{◌≡◌, ◌+◌, ◌<◌, ◌^◌, length, IfOk, IfSome, Some, map, None};
ghost use Rattle.std.specs.Prelude.{option_to_list};
ghost use Rattle.cm_names.specs.declared.child.ChildName.{ChildName as Name};
ghost use Rattle.cm_decl.specs.Graph.{static_name};
ghost use Rattle.cm_decl.specs.Valid.{IsValid};
ghost use Rattle.cm_world.specs.Rows.{child_of};
ghost use Rattle.cm_world.specs.End.{child_row, child_rows};
ghost use Rattle.cm_table.specs.ByName.{led_to};
ghost use Rattle.cm_table.specs.Keys.{EachItem};
ghost use Rattle.cm_table.specs.Slots.{rows_in, kids_at, named_at};
ghost use Rattle.cm_table.specs.Monikers.{HasOwnName, IsMonikerBelow, IsHung, unhung};
ghost use Rattle.cm_table.specs.Numbering.{placed_slot, numbered, IsBare, HasMarks};
ghost use Rattle.std.specs.Option.{option_copied};
ghost use Rattle.cm_names.specs.declared.moniker.Moniker.{Moniker as Names};

use crate::marks::MarksAbove;
use crate::ordered::{OrderedDecl, OrderedRow};
use crate::slot::{ChildIndex, Slot};
use cm_decl::{Child, Decl};
use cm_names::{Chain, ChildName, List, Memory, Moniker, Shared, Text};
use cm_world::{Finish, Row};
use std::alloc::Global;
use std::marker::Model;

/// A valid declaration and its absolute URL, with all the memory that a resolve needs to take
/// them over: the orders of its rows, the rows of its children with their index, and for the
/// history a copy of the URL and a share in the declaration.
#[derive(Drop)]
pub struct Prepared {
    absolute: Text,
    decl: OrderedDecl,
    kept_absolute: Text,
    kept_decl: Shared<Decl>,
    index: ChildIndex,
    children: Vec<Slot>,
}

impl Model for Prepared {
    ghost use Rattle.cm_table.specs.Ready.{Ready};

    ghost Value = { Ready };

    ghost use Rattle.cm_table.specs.Preparing.{ready_of, IsPrepared};

    ghost view = { ready_of };

    ghost invariant = { IsPrepared };
}

/// What a resolve takes over.
#[derive(Drop)]
pub(crate) struct PreparedParts {
    /// The end of the resolve, as the history keeps it.
    pub finish: Finish,
    /// The absolute URL, for the row.
    pub absolute: Text,
    /// The declaration with the orders of its rows, for the row.
    pub decl: OrderedDecl,
    /// The index of the children, for the slot.
    pub index: ChildIndex,
    /// The slots of the children.
    pub children: Vec<Slot>,
}

impl Prepared {
    /// Gets a valid declaration ready. `Err` where memory runs out.
    pub fn make(alloc: Global, decl: Decl, absolute: Text) -> Result<Prepared, Memory>
        requires { IsValid decl }
        ensures { IfOk result (λ made. made ≡ record { absolute = absolute; decl = decl }) }
    {
        let decl = OrderedDecl::make(alloc, decl)?;
        Prepared::ordered(alloc, decl, absolute)
    }

    /// Makes a declaration that is shared ready for a resolve. `Err` where memory runs out.
    pub fn of(alloc: Global, decl: Shared<Decl>, absolute: Text) -> Result<Prepared, Memory>
        requires { IsValid decl }
        ensures { IfOk result (λ made. made ≡ record { absolute = absolute; decl = decl }) }
    {
        let decl = OrderedDecl::of(alloc, decl)?;
        Prepared::ordered(alloc, decl, absolute)
    }

    /// Makes a declaration with the orders of its rows ready for a resolve. `Err` where memory runs
    /// out.
    fn ordered(alloc: Global, decl: OrderedDecl, absolute: Text) -> Result<Prepared, Memory>
        requires { IsValid decl }
        ensures { IfOk result (λ made. made ≡ record { absolute = absolute; decl = decl }) }
    {
        let made = made_for(alloc, &absolute, &decl)?;
        let Made {
            kept_absolute,
            kept_decl,
            index,
            children,
        } = made;
        Ok(Prepared {
            absolute,
            decl,
            kept_absolute,
            kept_decl,
            index,
            children,
        })
    }

    /// The absolute URL.
    pub fn absolute(&self) -> &Text
        ensures { result.now ≡ self.now.absolute }
    {
        &self.absolute
    }

    /// The declaration, which is valid.
    pub fn decl(&self) -> &Decl
        ensures decl { result.now ≡ self.now.decl }
        ensures valid { IsValid self.now.decl }
    {
        self.decl.get()
    }

    /// The end of a resolve by this declaration, as the history keeps it.
    pub fn into_finish(self) -> Finish
        ensures { result ≡ Finish.Resolved self.absolute self.decl }
    {
        let Prepared {
            kept_absolute,
            kept_decl,
            ..
        } = self;
        Finish::Resolved(kept_absolute, kept_decl)
    }

    /// How many children the declaration has, and so how many incarnations are needed for them.
    pub(crate) fn count(&self) -> usize
        ensures { result ≡ length self.now.decl.children }
    {
        self.decl.get().children.len()
    }

    /// The parts, with the rows of the children under `parent`, by increasing incarnations, with its
    /// marks and below its moniker.
    pub(crate) fn into_parts(
        self,
        parent: u64,
        first: u64,
        marks: MarksAbove,
        above: Option<&Moniker>,
    ) -> PreparedParts
        requires { first + length self.decl.children < 2 ^ 64 }
        ensures finish { result.finish ≡ Finish.Resolved self.absolute self.decl }
        ensures absolute { result.absolute ≡ self.absolute }
        ensures decl { result.decl ≡ self.decl }
        ensures valid { IsValid self.decl }
        ensures rows { rows_in result.children.items ≡ child_rows parent first self.decl.children }
        ensures bare { EachItem IsBare result.children.items }
        ensures marks { EachItem (HasMarks marks) result.children.items }
        ensures below { EachItem (IsMonikerBelow (option_copied above.entry)) result.children.items }
        ensures base { result.index.base ≡ first }
        ensures kids { kids_at result.index
            ≡ map (λ r. r.inc) (child_rows parent first self.decl.children) }
        ensures names { (c : Name) → named_at result.index c
            ≡ child_of (child_rows parent first self.decl.children) parent c }
    {
        let Prepared {
            absolute,
            decl,
            kept_absolute,
            kept_decl,
            mut index,
            mut children,
        } = self;
        number_all(&mut children, parent, first, marks);
        hang_all(&mut children, above);
        index.base = first;
        PreparedParts {
            finish: Finish::Resolved(kept_absolute, kept_decl),
            absolute,
            decl,
            index,
            children,
        }
    }
}

/// What a declaration gets beside it.
#[derive(Drop)]
struct Made {
    kept_absolute: Text,
    kept_decl: Shared<Decl>,
    index: ChildIndex,
    children: Vec<Slot>,
}

/// What a valid declaration gets beside it: the copies for the history, and the rows of its
/// children with their index.
fn made_for(alloc: Global, absolute: &Text, decl: &OrderedDecl) -> Result<Made, Memory>
    requires { IsValid decl.now }
    ensures absolute { IfOk result (λ made. made.kept_absolute ≡ absolute.now) }
    ensures decl { IfOk result (λ made. made.kept_decl ≡ decl.now) }
    ensures kids { IfOk result (λ made. made.index.kids.items
        ≡ map (λ r. r.inc) (child_rows 0 0 decl.now.children)) }
    ensures names { IfOk result (λ made. (c : Name) → led_to made.index.names c
        ≡ child_of (child_rows 0 0 decl.now.children) 0 c) }
    ensures rows { IfOk result (λ made. rows_in made.children.items
        ≡ map (child_row 0 0) decl.now.children) }
    ensures bare { IfOk result (λ made. EachItem IsBare made.children.items) }
    ensures own { IfOk result (λ made. EachItem HasOwnName made.children.items) }
{
    let children = slots_of(alloc, decl.get().children.as_slice())?;
    let index = index_of(alloc, decl.get())?;
    let kept_absolute = absolute.clone()?;
    let kept_decl = decl.share()?;
    Ok(Made {
        kept_absolute,
        kept_decl,
        index,
        children,
    })
}

/// The row of a declared child, but for its number and its parent's.
fn row_for(alloc: Global, child: &Child) -> Result<Row, Memory>
    ensures { IfOk result (λ row. row ≡ child_row 0 0 child.now) }
{
    let name = Shared::new(alloc, name_of(child)?)?;
    let url = child.url.clone()?;
    Ok(Row {
        inc: 0,
        parent: Some(0),
        name: Some(name),
        url,
        absolute: None,
        decl: None,
        on: false,
        pending: None,
        closing: false,
        doomed: false,
        shut: false,
        gives: List::new(alloc),
    })
}

/// The name of the row alone, so that others can be put before it without memory.
fn moniker_alone(alloc: Global, row: &Row) -> Result<Option<Moniker>, Memory>
    ensures { IfOk result (λ made. (m : Names) → made ≡ Some m → m.parts ≡ option_to_list row.now.name) }
{
    match &row.name {
        None => Ok(None),
        Some(name) => {
            let root = Chain::new();
            let parts = root.with(alloc, name.clone()?)?;
            Ok(Some(Moniker { parts }))
        }
    }
}

/// The slots of declared children.
fn slots_of(alloc: Global, children: &[Child]) -> Result<Vec<Slot>, Memory>
    ensures rows { IfOk result (λ slots. rows_in slots.items ≡ map (child_row 0 0) children.now) }
    ensures bare { IfOk result (λ slots. EachItem IsBare slots.items) }
    ensures own { IfOk result (λ slots. EachItem HasOwnName slots.items) }
{
    let mut slots = Vec::new(alloc);
    for child in children {
        let row = row_for(alloc, child)?;
        let moniker = moniker_alone(alloc, &row)?;
        let row = OrderedRow::new(row);
        slots.push(Slot {
            row,
            index: None,
            marks: MarksAbove::none(),
            moniker,
        })?;
    }
    Ok(slots)
}

/// The name of a declared child among its siblings.
fn name_of(child: &Child) -> Result<ChildName, Memory>
    ensures { IfOk result (λ name. name ≡ static_name child.now.name) }
{
    let name = child.name.clone()?;
    Ok(ChildName { coll: None, name })
}

/// The index of declared children, numbered from 0 on.
fn index_of(alloc: Global, decl: &Decl) -> Result<ChildIndex, Memory>
    requires { IsValid decl.now }
    ensures kids { IfOk result (λ made. made.kids.items
        ≡ map (λ r. r.inc) (child_rows 0 0 decl.now.children)) }
    ensures names { IfOk result (λ made. (c : Name) → led_to made.names c
        ≡ child_of (child_rows 0 0 decl.now.children) 0 c) }
{
    let children = decl.children.as_slice();
    let mut index = ChildIndex::new(alloc);
    let mut next = 0;
    for child in children {
        index.put(name_of(child)?, next)?;
        next += 1;
    }
    Ok(index)
}

/// Puts a row under its parent, which has these marks.
fn place_row(slot: &mut Slot, parent: u64, inc: u64, marks: MarksAbove)
    ensures { slot.new ≡ placed_slot parent inc marks slot.old }
{
    slot.row.place(parent, inc);
    slot.marks = marks;
}

/// Puts rows under their parent, which has these marks, by increasing incarnations.
fn number_all(slots: &mut Vec<Slot>, parent: u64, first: u64, marks: MarksAbove)
    requires { first + length slots.old.items < 2 ^ 64 }
    ensures { slots.new.items ≡ numbered parent first marks slots.old.items }
{
    let mut next = first;
    for slot in slots.iter_mut() {
        place_row(slot, parent, next, marks);
        next += 1;
    }
}

/// These names with those above before them, where both are there and the names are linked.
fn hung(own: Option<Moniker>, above: Option<&Moniker>) -> Option<Moniker>
    ensures { IfSome result (IsHung (option_copied above.entry) own) }
{
    let Some(above) = above else {
        return None;
    };
    let Some(own) = own else {
        return None;
    };
    let mut parts = own.parts;
    if parts.hang(&above.parts) {
        return Some(Moniker { parts });
    }
    None
}

/// Puts the names above before the name of a slot's row. Where that can't be, none are kept there.
fn hang_slot(slot: &mut Slot, above: Option<&Moniker>)
    requires { HasOwnName slot.old }
    ensures same { unhung slot.new ≡ unhung slot.old }
    ensures below { IsMonikerBelow (option_copied above.entry) slot.new }
{
    let own = slot.moniker.take();
    slot.moniker = hung(own, above);
}

/// Puts the names above before the names of all rows.
fn hang_all(slots: &mut Vec<Slot>, above: Option<&Moniker>)
    requires { EachItem HasOwnName slots.old.items }
    ensures same { map unhung slots.new.items ≡ map unhung slots.old.items }
    ensures below { EachItem (IsMonikerBelow (option_copied above.entry)) slots.new.items }
{
    for slot in slots.iter_mut() {
        hang_slot(slot, above);
    }
}
