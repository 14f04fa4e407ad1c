//! Room for what a step needs and leaves to come: entries, also those of ends and awaits, and rows.

ghost use Rattle.std.specs.Prelude.{◌≡◌, ◌+◌, ◌-◌, ◌≤◌, ◌<◌, ◌^◌, length, cond};
ghost use Rattle.std.specs.Prelude.{IsTrue, IfOk, OnOk, OnErr, IfErr, false, count_by};
ghost use Rattle.std.specs.Option.{option_map_or};
ghost use Rattle.std.specs.List.{list_any};
ghost use Rattle.std.specs.Vec.{vec_len, vec_capacity};
ghost use Rattle.cm_world.specs.World.{act_of};
ghost use Rattle.cm_world.specs.Create.{created_row};
ghost use Rattle.cm_world.specs.End.{ended};
ghost use Rattle.cm_world.specs.declared.action.Outcome.{Outcome};
ghost use Rattle.cm_laws.specs.Tasks.{IsNumbered};
ghost use Rattle.cm_world.specs.Begin.{same_act};
ghost use Rattle.cm_world.specs.Step as step;
ghost use Rattle.cm_world.specs.After.{joined};
ghost use Rattle.cm_book.specs.Refusal.{FitsLimit};
ghost use Rattle.cm_table.specs.Change.{with_row};
ghost use Rattle.cm_table.specs.Tree.{fit};
ghost use Rattle.cm_dynamic.specs.Laws.{CanTakeChild};
ghost use Rattle.cm_steps.specs.Tasks as tasks;
ghost use Rattle.cm_steps.specs.Rooms.{Lacks};

use crate::copies::copied;
use crate::nostep::NoStep;
use crate::pending::{act_at, join_place};
use crate::replies::creating::child_name;
use cm_book::Book;
use cm_decl::Give;
use cm_names::{List, Memory, Name, Plain, Text};
use cm_table::{Table, TableFault};
use cm_world::{Act, ActKind, Join};
use std::alloc::Global;

/// The number of the next action.
pub fn next_action(acts: &[Act]) -> u64
    ensures { result ≡ length acts.now + 1 }
{
    acts.len() as u64 + 1
}

/// A copy of the value, with room for one entry more.
pub fn copy_in_room<T: Plain>(book: &mut Book, value: &T) -> Result<T, NoStep>
    ensures copy { IfOk result (λ copy. copy ≡ value.now) }
    ensures book { let reserved = book.old.reserved + 1 in
        OnOk result (book.new ≡ record book.old { reserved = reserved }) }
    ensures fits { OnOk result (FitsLimit book.old 1) }
    ensures bound { OnOk result (book.old.limit < 2 ^ 64) }
    ensures err { OnErr result (book.new ≡ book.old) }
    ensures refused { IfErr result (Lacks book.old 1) }
{
    let copy = copied(value)?;
    book.reserve(1)?;
    Ok(copy)
}

/// Makes room for an action more: for itself, for the entries of its begin and its end, and,
/// where it is a resolve, for the rows that it may add. `Ok` is how many resolves haven't ended,
/// with it.
pub fn make_room(
    acts: &mut Vec<Act>,
    resolves: u32,
    table: &mut Table,
    book: &mut Book,
    kind: ActKind,
) -> Result<u32, NoStep>
    requires { resolves ≤ table.old.spare }
    ensures acts { acts.new.items ≡ acts.old.items }
    ensures room { OnOk result (vec_len acts.new < vec_capacity acts.new) }
    ensures table { table.new ≡ record table.old { spare = table.new.spare } }
    ensures later { table.old.spare ≤ table.new.spare }
    ensures count { let more = cond (same_act kind ActKind.Resolve) 1 0 in
        IfOk result (λ begun. begun ≡ resolves + more) }
    ensures spare { IfOk result (λ begun. begun ≤ table.new.spare) }
    ensures book { let reserved = book.old.reserved + 2 in
        OnOk result (book.new ≡ record book.old { reserved = reserved }) }
    ensures err { OnErr result (book.new ≡ book.old) }
    ensures refused { IfErr result (Lacks book.old 2) }
{
    acts.reserve(1)?;
    let begun = room_for_rows(resolves, table, kind)?;
    book.reserve(2)?;
    Ok(begun)
}

/// Makes room for the rows of a resolve more, if it is one. `Ok` is how many there are then.
fn room_for_rows(resolves: u32, table: &mut Table, kind: ActKind) -> Result<u32, NoStep>
    requires { resolves ≤ table.old.spare }
    ensures table { table.new ≡ record table.old { spare = table.new.spare } }
    ensures later { table.old.spare ≤ table.new.spare }
    ensures count { let more = cond (same_act kind ActKind.Resolve) 1 0 in
        IfOk result (λ begun. begun ≡ resolves + more) }
    ensures spare { IfOk result (λ begun. begun ≤ table.new.spare) }
    ensures refused { IfErr result (λ e. e ≡ NoStep.Memory) }
{
    if !is_resolve(kind) {
        return Ok(resolves);
    }
    let Some(begun) = resolves.checked_add(1) else {
        return Err(NoStep::Memory);
    };
    table.reserve(begun)?;
    Ok(begun)
}

/// Whether an action of this kind resolves, and so needs memory kept for its declaration.
fn is_resolve(kind: ActKind) -> bool
    ensures { result ≡ same_act kind ActKind.Resolve }
{
    kind == ActKind::Resolve
}

/// Whether it is a resolve that hasn't ended.
fn is_open_resolve(act: &Act) -> bool
    ensures { result ≡ tasks.is_open_resolve act.now }
{
    is_resolve(act.kind) && act.outcome.is_none()
}

/// Whether the action of that number is a resolve that hasn't ended.
fn resolves_at(acts: &[Act], action: u64) -> bool
    requires { IsNumbered 1 acts.now }
    ensures { result ≡ option_map_or tasks.is_open_resolve (act_of acts.now action) false }
{
    match act_at(acts, action) {
        None => false,
        Some(act) => is_open_resolve(act),
    }
}

/// How many resolves haven't ended once that action has, whatever becomes of it.
pub fn resolves_left(acts: &[Act], resolves: u32, action: u64) -> u32
    requires numbers { IsNumbered 1 acts.now }
    requires count { resolves ≡ count_by tasks.is_open_resolve acts.now }
    ensures { (o : Outcome) →
        result ≡ count_by tasks.is_open_resolve (ended action o acts.now) }
{
    if !resolves_at(acts, action) {
        return resolves;
    }
    resolves - 1
}

/// Puts down that a caller waits for an action, with room for the entry that says so, and for
/// that of its await where it didn't wait before.
pub fn add_join(
    joins: &mut Vec<Join>,
    book: &mut Book,
    caller: u32,
    action: u64,
) -> Result<(), NoStep>
    ensures joins { OnOk result (joins.new.items ≡ joined caller action joins.old.items) }
    ensures same { OnErr result (joins.new.items ≡ joins.old.items) }
    ensures book { let more = length joins.new.items - length joins.old.items in
        OnOk result (book.new ≡ record book.old { reserved = book.old.reserved + 1 + more }) }
    ensures err { OnErr result (book.new ≡ book.old) }
    ensures refused { IfErr result (Lacks book.old 2) }
{
    if waits(joins.as_slice(), caller, action) {
        book.reserve(1)?;
        return Ok(());
    }
    joins.reserve(1)?;
    book.reserve(2)?;
    joins.push_reserved(Join { caller, action });
    Ok(())
}

/// Whether the caller waits for the action.
pub fn waits(joins: &[Join], caller: u32, action: u64) -> bool
    ensures { result ≡ list_any (step.is_join caller action) joins.now }
{
    match join_place(joins, caller, action) {
        None => false,
        Some(_place) => true,
    }
}

/// Puts a new child into the tree, with room for the entry that says so, and answers its
/// incarnation. There is room for its row.
pub fn add_row(
    alloc: Global,
    table: &mut Table,
    book: &mut Book,
    parent: u64,
    coll: &Name,
    name: &Name,
    url: &Text,
    gives: &List<Give>,
) -> Result<u64, NoStep>
    requires takes { CanTakeChild table.old.rows parent coll.now name.now }
    requires room { IsTrue (fit table.old 1) }
    ensures inc { IfOk result (λ inc. inc ≡ table.old.next_inc) }
    ensures table { let t = table.old in
        let row = created_row t.next_inc parent coll.now name.now url.now gives.now in
        OnOk result (table.new ≡ with_row row t) }
    ensures book { let reserved = book.old.reserved + 1 in
        OnOk result (book.new ≡ record book.old { reserved = reserved }) }
    ensures fits { OnOk result (FitsLimit book.old 1) }
    ensures same { OnErr result (table.new ≡ table.old) }
    ensures err { OnErr result (book.new ≡ book.old) }
    ensures refused { IfErr result (Lacks book.old 1) }
{
    book.reserve(1)?;
    match put_row(alloc, table, parent, coll, name, url, gives) {
        Ok(inc) => Ok(inc),
        Err(Memory) => {
            book.release(1);
            Err(NoStep::Memory)
        }
    }
}

/// Puts a new child into the tree, made of copies, and answers its incarnation. There is room for
/// its row.
fn put_row(
    alloc: Global,
    table: &mut Table,
    parent: u64,
    coll: &Name,
    name: &Name,
    url: &Text,
    gives: &List<Give>,
) -> Result<u64, Memory>
    requires takes { CanTakeChild table.old.rows parent coll.now name.now }
    requires room { IsTrue (fit table.old 1) }
    ensures inc { IfOk result (λ inc. inc ≡ table.old.next_inc) }
    ensures table { let t = table.old in
        let row = created_row t.next_inc parent coll.now name.now url.now gives.now in
        OnOk result (table.new ≡ with_row row t) }
    ensures same { OnErr result (table.new ≡ table.old) }
{
    let child = child_name(coll, name)?;
    let url = copied(url)?;
    let gives = copied(gives)?;
    match table.add(alloc, parent, child, url, gives) {
        Ok(inc) => Ok(inc),
        Err(TableFault::Full) => unreachable!(),
        Err(TableFault::Memory) => Err(Memory),
    }
}
