//! What is known of ways down, between one pick and the next.

ghost use Rattle.std.specs.Prelude.{◌≡◌, List as Seq, OnOk, IfSome, IsTrue};
ghost use Rattle.cm_world.specs.declared.row.Row.{Row};
ghost use Rattle.cm_world.specs.Rows.{is_closing};
ghost use Rattle.cm_order.specs.Glances.{AreKidsShut};
ghost use Rattle.cm_order.specs.Plans.{IsPlan, IsLowest, KnowsNone};

use crate::above::is_closing;
use crate::dependents::Dependents;
use crate::stand::Stand;
use cm_names::Memory;
use cm_world::View;
use std::alloc::Global;
use std::collections::BTreeMap;
use std::mem;

/// The ways down that picks took, and what is known of levels: what depends on each child there that
/// isn't known to be cleared.
///
/// It is handed from one pick to the next, so that a pick goes on where the last one stood, and a
/// level isn't looked at once more for each of its children. It holds for a tree that it was made
/// in, and goes on to hold while no instance is resolved, created, doomed or removed.
#[derive(Drop)]
pub struct DescentPlan {
    /// The outermost instance that is being shut down of the last pick. Its way begins there.
    pub(crate) top: u64,
    /// The way of the last pick, from the top down: at the level of each child on it nothing depends
    /// on that child that isn't all shut. Empty where there was no pick.
    pub(crate) way: Vec<Stand>,
    /// The ways of picks before that began at other tops, by those.
    pub(crate) others: BTreeMap<u64, Vec<Stand>>,
    /// What is known of levels, by their instances.
    pub(crate) levels: BTreeMap<u64, Dependents>,
}

impl DescentPlan {
    /// The plan that knows of no level. It takes no memory.
    pub fn new(alloc: Global) -> DescentPlan
        ensures { KnowsNone result }
    {
        DescentPlan {
            top: 0,
            way: Vec::new(alloc),
            others: BTreeMap::new(alloc),
            levels: BTreeMap::new(alloc),
        }
    }

    /// Forgets all ways and levels, after which the next pick starts anew.
    pub fn forget(&mut self)
        ensures { KnowsNone self.new }
    {
        self.way.clear();
        self.others.clear();
        self.levels.clear();
    }

    /// Whether the way of the last pick ends at this instance, and its top is being shut down, so that
    /// the instance is, too. `false` says nothing.
    pub fn closes<V: View>(&self, view: &V, inc: u64) -> bool
        requires { IsPlan (V.rows view.now) self.now }
        ensures { IsTrue result → IsTrue (is_closing (V.rows view.now) inc) }
    {
        let count = self.way.len();
        if count == 0 {
            return false;
        }
        let stand = &self.way[count - 1];
        if stand.inc == inc {
            return is_closing(view, self.top);
        }
        false
    }

    /// Whether the way of the last pick ends at this instance, and all below it is known to be shut.
    pub(crate) fn knows_below(&self, inc: u64) -> bool
        ensures { (rows : Seq Row) → IsPlan rows self.now → IsTrue result → AreKidsShut rows inc }
    {
        let count = self.way.len();
        if count == 0 {
            return false;
        }
        let stand = &self.way[count - 1];
        if stand.inc == inc {
            return stand.below_shut;
        }
        false
    }

    /// The instance at which the way of the last pick ends, if it began at this top and all below the
    /// instance is known to be shut. `None` says nothing.
    pub(crate) fn lowest(&self, top: u64) -> Option<u64>
        ensures { (rows : Seq Row) → IsPlan rows self.now → IfSome result (IsLowest rows top) }
    {
        if self.top != top {
            return None;
        }
        let count = self.way.len();
        if count == 0 {
            return None;
        }
        let stand = &self.way[count - 1];
        if stand.below_shut {
            return Some(stand.inc);
        }
        None
    }

    /// Takes up the way from this top, or an empty one, and keeps the one that it had. `Err` where
    /// memory runs out; then that is lost.
    pub(crate) fn begin(&mut self, alloc: Global, top: u64) -> Result<(), Memory>
        ensures top { OnOk result (self.new.top ≡ top) }
        ensures plan { (rows : Seq Row) → IsPlan rows self.old → IsPlan rows self.new }
    {
        if self.top == top {
            return Ok(());
        }
        let other = self.others.remove(&top).unwrap_or(Vec::new(alloc));
        let way = mem::replace(&mut self.way, other);
        let left = mem::replace(&mut self.top, top);
        if !way.is_empty() {
            self.others.insert(left, way)?;
        }
        Ok(())
    }

    /// Forgets the way from this top, if it is that of the last pick.
    pub(crate) fn finish(&mut self, top: u64)
        ensures { (rows : Seq Row) → IsPlan rows self.old → IsPlan rows self.new }
    {
        if self.top != top {
            return;
        }
        self.way.clear();
    }
}
