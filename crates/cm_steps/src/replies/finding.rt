//! The reply to a find.

ghost use Rattle.std.specs.Prelude.{◌≡◌, ◌≤◌, [], IfOk, IsTrue, if◌then◌else◌, length, take};
ghost use Rattle.cm_world.specs.Rows.{is_closed, is_live};
ghost use Rattle.cm_world.specs.Sound.{IsOrderly};
ghost use Rattle.cm_world.specs.declared.reply.Reply.TheVariants as reply;
ghost use Rattle.cm_world.specs.Find.{found_from};
ghost use Rattle.cm_world.specs.Located.{located_from};

use cm_names::{Chain, Memory, Moniker};
use cm_table::Table;
use cm_walk::above::is_closed;
use cm_walk::hop::parent;
use cm_walk::{locate, locate_below, names_leading_to};
use cm_world::{Located, Reply, StepCount, View};
use std::alloc::Global;
use std::marker::Brand;
use std::sync::ledger::{Blank, Ledger};

/// A moniker of so many names isn't gone down from the root where another way is known.
const LONG_WAY: usize = 16;

/// Which instance stands where the moniker leads from the root.
#[tactic(auto, using(crate::proofs::lemmas::read::Leading::found_reply))]
pub fn found(alloc: Global, table: &Table, moniker: &Moniker) -> Result<Reply, Memory>
    requires orderly { IsOrderly table.now.rows table.now.next_inc }
    requires root { IsTrue (is_live table.now.rows 0) }
    ensures { IfOk result (λ reply. reply ≡ found_from table.now.rows 0 [] moniker.now.parts) }
{
    match located::<Brand>(table, moniker, Blank::new(1)) {
        Located::Found(inc) => Ok(Reply::Found(inc)),
        Located::Unresolved(inc) => Ok(unresolved(table, inc)),
        Located::Missing(count) => missing(alloc, table, &moniker.parts, count),
    }
}

/// Where the moniker leads, with a step counter that nobody reads. Whoever has the instances of a long
/// moniker resolved, one after the other, finds each at the parent of the instance that came last.
fn located<L: Ledger>(table: &Table, moniker: &Moniker, blank: Blank) -> Located
    requires name { blank.name ≡ L.name }
    requires parts { blank.parts ≡ L.parts }
    requires some { blank.parts ≡ 1 }
    requires orderly { IsOrderly table.now.rows table.now.next_inc }
    requires root { IsTrue (is_live table.now.rows 0) }
    ensures { result ≡ located_from table.now.rows 0 0 moniker.now.parts }
{
    let mut steps = StepCount::<L>::new(blank);
    let Some(at) = last_parent(table, moniker) else {
        return locate(table, moniker, &mut steps);
    };
    let Some(count) = names_leading_to(table, moniker, at) else {
        return locate(table, moniker, &mut steps);
    };
    locate_below(table, moniker, at, count, &mut steps)
}

/// The parent of the instance that came last, where the moniker is long enough for a look whether it leads by
/// there.
fn last_parent(table: &Table, moniker: &Moniker) -> Option<u64> {
    if moniker.parts.len() < LONG_WAY {
        return None;
    }
    match table.newest() {
        None => None,
        Some(newest) => parent(table, newest),
    }
}

/// What is said where so many of these names are found, and the next one isn't. No tree has 2^32 - 1
/// of them one below the other, since it has at most so many rows; that would be out of memory.
#[tactic(auto, using(crate::proofs::lemmas::read::Leading::missing_reply))]
fn missing(alloc: Global, table: &Table, parts: &Chain, count: u32) -> Result<Reply, Memory>
    requires { located_from table.now.rows 0 0 parts.now ≡ Located.Missing count }
    ensures { IfOk result (λ reply. reply ≡ found_from table.now.rows 0 [] parts.now) }
{
    if count < u32::MAX {
        return not_found(alloc, parts, count as usize);
    }
    Err(Memory)
}

/// What is said where nothing stands after the first `count` names.
fn not_found(alloc: Global, parts: &Chain, count: usize) -> Result<Reply, Memory>
    requires { count ≤ length parts.now }
    ensures { IfOk result (λ told. told ≡ reply.NotFound (record { parts = take count parts.now })) }
{
    let parts = parts.upto(alloc, count)?;
    Ok(Reply::NotFound(Moniker { parts }))
}

/// The reply where an instance isn't resolved and has to be: `Need`, or `Shut` where it won't be any
/// more.
pub fn unresolved<V: View>(view: &V, inc: u64) -> Reply
    ensures { result ≡
        (if is_closed (V.rows view.now) inc then Reply.Shut inc else Reply.Need inc) }
{
    if is_closed(view, inc) {
        Reply::Shut(inc)
    } else {
        Reply::Need(inc)
    }
}
