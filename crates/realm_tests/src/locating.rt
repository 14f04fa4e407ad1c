//! Where monikers lead in trees by hand, by a table that counts when it runs what is read of it.

ghost use Rattle.std.specs.Prelude.{◌≡◌, IsTrue};
ghost use Rattle.cm_world.specs.Rows.{is_live};
ghost use Rattle.cm_world.specs.Sound.{IsOrderly};

use crate::declarations::prepared;
use crate::words::moniker_of;
use cm_names::{ChildName, List, Memory, Moniker, Text};
use cm_table::{Prepared, Table};
use cm_walk::locate;
use cm_world::{Located, StepCount, Store, View};
use std::alloc::Global;
use std::cell::Cell;
use std::marker::Brand;
use std::sync::ledger::{Blank, Ledger};

/// A table that counts the looks that are taken at it.
#[derive(Drop)]
struct Counted {
    table: Table,
    looks: Cell<u32>,
}

impl Counted {
    /// Counts one look at the table.
    fn count(&self) {
        self.looks.set(self.looks.get().wrapping_add(1));
    }
}

impl<L: Ledger> Store<L> for Counted {
    ghost rows = { λ c. c.table.rows };

    ghost next_inc = { λ c. c.table.next_inc };

    /// Counts one look, and asks the table.
    fn is_resolved(&self, inc: u64, steps: &mut StepCount<L>) -> bool {
        self.count();
        self.table.is_resolved(inc, steps)
    }

    /// Counts one look, and asks the table.
    fn child(&self, parent: u64, name: &ChildName, steps: &mut StepCount<L>) -> Option<u64> {
        self.count();
        Store::child(&self.table, parent, name, steps)
    }
}

/// Where a moniker leads, and in how many looks. The moniker is the first line; each line after it
/// resolves an instance by a manifest.
pub fn told(alloc: Global, input: &str) -> Option<Text> {
    let (moniker, steps) = input.split_once('\n').unwrap_or((input, ""));
    match moniker_of(alloc, moniker) {
        Some(moniker) => {
            let told = told_in(alloc, tree_of(alloc, steps), &moniker);
            drop(moniker);
            told
        }
        None => None,
    }
}

/// What looking a moniker up in this table comes to, in words, with the number of looks.
fn told_in(alloc: Global, table: Option<Table>, moniker: &Moniker) -> Option<Text> {
    match table {
        Some(table) => told_of(alloc, table, moniker),
        None => None,
    }
}

/// A tree of a root, of which these lines resolve instances.
fn tree_of(alloc: Global, lines: &str) -> Option<Table> {
    match new_tree(alloc) {
        Some(mut table) => {
            if resolves_all(alloc, &mut table, lines) {
                return Some(table);
            }
            drop(table);
            None
        }
        None => None,
    }
}

/// A tree of a root that isn't resolved.
fn new_tree(alloc: Global) -> Option<Table> {
    let root = Text::from_str(alloc, "r").ok()?;
    Table::new(alloc, root, List::new(alloc), 9).ok()
}

/// Resolves the instances of lines, and tells whether all could be.
fn resolves_all(alloc: Global, table: &mut Table, lines: &str) -> bool {
    if lines.is_empty() {
        return true;
    }
    for line in lines.split('\n') {
        if resolve(alloc, table, line).is_none() {
            return false;
        }
    }
    true
}

/// Resolves the instance of a line by the manifest after its number.
fn resolve(alloc: Global, table: &mut Table, line: &str) -> Option<()> {
    let (inc, manifest) = line.split_once(' ')?;
    let inc = inc.parse().ok()?;
    table.reserve(1).ok()?;
    match prepared(alloc, manifest) {
        Some(prepared) => settle(table, inc, prepared),
        None => None,
    }
}

/// Resolves an instance, if it lives and isn't resolved.
fn settle(table: &mut Table, inc: u64, prepared: Prepared) -> Option<()> {
    if lives(table, inc) && table.decl(inc).is_none() && table.spare() > 0 {
        drop(table.settle(inc, prepared));
        return Some(());
    }
    drop(prepared);
    None
}

/// Whether the table has an instance with this incarnation.
pub fn lives(table: &Table, inc: u64) -> bool
    ensures lives { result ≡ is_live table.now.rows inc }
    ensures orderly { IsOrderly table.now.rows table.now.next_inc }
{
    table.facts(inc).is_some()
}

/// Where the moniker leads in this tree, and in how many looks.
fn told_of(alloc: Global, table: Table, moniker: &Moniker) -> Option<Text> {
    if !lives(&table, 0) {
        drop(table);
        return None;
    }
    let counted = Counted {
        table,
        looks: Cell::new(0),
    };
    let led = led_to::<Brand>(&counted, moniker, Blank::new(1));
    let looks = counted.looks.get();
    drop(counted);
    line_of(alloc, led, looks).ok()
}

/// Where the moniker leads, by looks that are counted.
fn led_to<L: Ledger>(counted: &Counted, moniker: &Moniker, blank: Blank) -> Located
    requires name { blank.name ≡ L.name }
    requires parts { blank.parts ≡ L.parts }
    requires some { blank.parts ≡ 1 }
    requires orderly { IsOrderly counted.now.table.rows counted.now.table.next_inc }
    requires root { IsTrue (is_live counted.now.table.rows 0) }
{
    let mut steps = StepCount::<L>::new(blank);
    locate(counted, moniker, &mut steps)
}

/// A line that tells where a moniker led, and in how many looks.
fn line_of(alloc: Global, led: Located, looks: u32) -> Result<Text, Memory> {
    let mut line = Text::new(alloc);
    match led {
        Located::Found(inc) => line.push(format_args!("found {inc} in {looks}\n"))?,
        Located::Unresolved(inc) => line.push(format_args!("unresolved {inc} in {looks}\n"))?,
        Located::Missing(count) => line.push(format_args!("missing {count} in {looks}\n"))?,
    }
    Ok(line)
}
