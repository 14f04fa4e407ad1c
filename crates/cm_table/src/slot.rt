//! Rows with the index of their children.

ghost use Rattle.std.specs.Prelude.{◌≡◌, ◌-◌, ◌<◌, ◌^◌, ◌++◌, ◌∷◌, ◌==◌, [], true, None, Some};
ghost use Rattle.std.specs.Prelude.{ℕ, find, length, if◌then◌else◌, OnOk, OnErr, IfSome};
ghost use Rattle.cm_names.specs.declared.child.ChildName.{ChildName as Name};
ghost use Rattle.cm_decl.specs.Same.{same_child};
ghost use Rattle.cm_world.specs.Edits.{drop_first};
ghost use Rattle.cm_world.specs.RowsInside.{is_behind};
ghost use Rattle.cm_table.specs.ByName.{led_to};
ghost use Rattle.cm_table.specs.Keys.{EachItem, IsPlace, Increasing, alone, nth};
ghost use Rattle.cm_table.specs.Slots.{kids_at, named_at, kids_of, named_in};
ghost use Rattle.cm_table.specs.Links.{unless, Rises};

use crate::by_name::ChildrenByName;
use crate::marks::MarksAbove;
use crate::ordered::OrderedRow;
use cm_names::{ChildName, Memory, Moniker};
use std::alloc::Global;
use std::collections::VecDeque;

/// The index of the children of a row. Their incarnations are told by how far they are above a
/// base.
#[derive(Drop)]
pub struct ChildIndex {
    /// No child has a lower incarnation.
    pub base: u64,
    /// The children, by increasing incarnations, those that are being destroyed too. Where one goes, the
    /// shorter side moves: so children that go in the order in which they came, or last first, move none.
    pub kids: VecDeque<u64>,
    /// Those that aren't being destroyed, by their names.
    pub names: ChildrenByName,
}

/// A row with the index of its children, if it ever had one, the marks that it and those above it have,
/// and where it stands.
#[derive(Drop)]
pub struct Slot {
    /// The row.
    pub row: OrderedRow,
    /// The index of its children.
    pub index: Option<ChildIndex>,
    /// Which marks it or one above it has.
    pub marks: MarksAbove,
    /// The names from the root down to it, if they are kept. They share those of the row above.
    pub moniker: Option<Moniker>,
}

impl Slot {
    /// The incarnation of the row.
    pub fn inc(&self) -> u64
        ensures { result ≡ self.now.row.inc }
    {
        self.row.get().inc
    }
}

impl ChildIndex {
    /// The index of no children.
    pub fn new(alloc: Global) -> ChildIndex
        ensures base { result.base ≡ 0 }
        ensures kids { kids_at result ≡ [] }
        ensures names { (c : Name) → named_at result c ≡ None }
    {
        let names = ChildrenByName::new(alloc);
        ChildIndex {
            base: 0,
            kids: VecDeque::new(alloc),
            names,
        }
    }

    /// The child of that name that isn't being destroyed.
    pub fn child(&self, name: &ChildName) -> Option<u64>
        requires { (n : ℕ) → named_at self.now name.now ≡ Some n → n < 2 ^ 64 }
        ensures { result ≡ named_at self.now name.now }
    {
        match self.names.get(name) {
            None => None,
            Some(above) => Some(self.base + above),
        }
    }

    /// The first child that was made after the given one.
    pub fn next(&self, after: Option<u64>) -> Option<u64>
        requires increasing { Increasing (λ k. k) self.now.kids.items }
        requires fits { EachItem (λ k. k < 2 ^ 64) (kids_at self.now) }
        ensures { result ≡ find (is_behind after) (kids_at self.now) }
    {
        match after {
            None => self.kid_at(0),
            Some(inc) => self.kid_behind(inc),
        }
    }

    /// The first child with a higher incarnation.
    fn kid_behind(&self, inc: u64) -> Option<u64>
        requires increasing { Increasing (λ k. k) self.now.kids.items }
        requires fits { EachItem (λ k. k < 2 ^ 64) (kids_at self.now) }
        ensures { result ≡ find (is_behind (Some inc)) (kids_at self.now) }
    {
        if inc < self.base {
            return self.kid_at(0);
        }
        let above = inc - self.base;
        self.kid_at(kids_upto(&self.kids, above))
    }

    /// The last child.
    pub fn last(&self) -> Option<u64>
        requires { EachItem (λ k. k < 2 ^ 64) (kids_at self.now) }
        ensures { result ≡ nth (kids_at self.now) (length (kids_at self.now) - 1) }
    {
        let count = self.kids.len();
        if count == 0 {
            return None;
        }
        self.kid_at(count - 1)
    }

    /// The child at a place.
    fn kid_at(&self, place: usize) -> Option<u64>
        requires { EachItem (λ k. k < 2 ^ 64) (kids_at self.now) }
        ensures { result ≡ nth (kids_at self.now) place }
    {
        if place >= self.kids.len() {
            return None;
        }
        let above = self.kids[place];
        Some(self.base + above)
    }

    /// Puts a child after the others, which is so far above the base. `Err` where memory runs
    /// out: then nothing is changed.
    pub fn put(&mut self, name: ChildName, above: u64) -> Result<(), Memory>
        ensures base { self.new.base ≡ self.old.base }
        ensures kids { OnOk result (self.new.kids.items ≡ self.old.kids.items ++ above ∷ []) }
        ensures names { OnOk result ((c : Name) → led_to self.new.names c
            ≡ (if same_child name c then Some above else led_to self.old.names c)) }
        ensures kids_err { OnErr result (self.new.kids.items ≡ self.old.kids.items) }
        ensures names_err { OnErr result ((c : Name) → led_to self.new.names c
            ≡ led_to self.old.names c) }
    {
        self.kids.reserve(1)?;
        self.names.put(name, above)?;
        self.kids.push_back_reserved(above);
        Ok(())
    }

    /// Forgets a name, if it leads so far above the base.
    pub fn forget(&mut self, name: &ChildName, above: u64)
        requires { (c : Name) → led_to self.old.names c ≡ Some above → same_child name.now c ≡ true }
        ensures base { self.new.base ≡ self.old.base }
        ensures kids { self.new.kids.items ≡ self.old.kids.items }
        ensures names { (c : Name) → led_to self.new.names c
            ≡ unless above (led_to self.old.names c) }
    {
        match self.names.get(name) {
            None => {}
            Some(found) => {
                if found == above {
                    self.names.remove(name);
                }
            }
        }
    }

    /// Removes the child that is so far above the base.
    pub fn remove(&mut self, above: u64)
        requires { Increasing (λ k. k) self.old.kids.items }
        ensures base { self.new.base ≡ self.old.base }
        ensures kids { self.new.kids.items ≡ drop_first (λ k. k == above) self.old.kids.items }
        ensures names { self.new.names ≡ self.old.names }
    {
        let count = kids_upto(&self.kids, above);
        if count == 0 {
            return;
        }
        if self.kids[count - 1] == above {
            self.kids.remove(count - 1);
        }
    }
}

/// The child of that name that isn't being destroyed, in a slot's index, which is missing where there were
/// never children. The table, as a view, finds a child by this.
pub fn child_in(index: &Option<ChildIndex>, name: &ChildName) -> Option<u64>
    requires { (n : ℕ) → named_in index.now name.now ≡ Some n → n < 2 ^ 64 }
    ensures { result ≡ named_in index.now name.now }
{
    match index {
        None => None,
        Some(own) => own.child(name),
    }
}

/// The first child that was made after the given one, or of all for `None`, in a slot's index that may be
/// missing. Views and marks go from child to child by this.
pub fn next_in(index: &Option<ChildIndex>, after: Option<u64>) -> Option<u64>
    requires rises { Rises index.now }
    requires fits { EachItem (λ k. k < 2 ^ 64) (kids_of index.now) }
    ensures { result ≡ find (is_behind after) (kids_of index.now) }
{
    match index {
        None => None,
        Some(own) => own.next(after),
    }
}

/// The last child in a slot's index that may be missing. The table's walk down to an instance without
/// children asks for it.
pub fn last_in(index: &Option<ChildIndex>) -> Option<u64>
    requires { EachItem (λ k. k < 2 ^ 64) (kids_of index.now) }
    ensures { result ≡ nth (kids_of index.now) (length (kids_of index.now) - 1) }
{
    match index {
        None => None,
        Some(own) => own.last(),
    }
}

/// How many of these increasing numbers are at most the given one, where it is one of them, and each number
/// from the first one up to it is there. `None` says nothing.
fn dense_upto(kids: &VecDeque<u64>, above: u64) -> Option<usize>
    requires { Increasing (λ k. k) kids.now.items }
    ensures { IfSome result (λ count. IsPlace (λ k. k) alone kids.now.items above count) }
{
    if kids.is_empty() {
        return None;
    }
    let first = kids[0];
    if above < first {
        return None;
    }
    let place = (above - first) as usize;
    if place >= kids.len() {
        return None;
    }
    let kid = kids[place];
    if kid == above {
        return Some(place + 1);
    }
    None
}

/// How many of these increasing numbers are at most the given one.
fn kids_upto(kids: &VecDeque<u64>, above: u64) -> usize
    requires { Increasing (λ k. k) kids.now.items }
    ensures { IsPlace (λ k. k) alone kids.now.items above result }
{
    if let Some(count) = dense_upto(kids, above) {
        return count;
    }
    kids.partition_point(|kid| *kid <= above)
}
