//! What a begin comes to, and what its beginner has to do.

ghost use Rattle.std.specs.Prelude.{◌≡◌, ◌++◌, [], IfOk, OnOk, Some, is_some};
ghost use Rattle.std.specs.Prelude.{option_map, option_and_then, option_to_list, unwrap_or};
ghost use Rattle.std.specs.Option.{option_copied};
ghost use Rattle.cm_world.specs.declared.row.Row.{Row};
ghost use Rattle.cm_world.specs.Rows.{row_of, decl_of, is_closed};
ghost use Rattle.cm_world.specs.RowsInside.{facts_of};
ghost use Rattle.cm_world.specs.Begin as begin;
ghost use Rattle.cm_world.specs.Begin.{same_act};
ghost use Rattle.cm_world.specs.Work as works;
ghost use Rattle.cm_world.specs.Work.{work_of};
ghost use Rattle.cm_steps.specs.Answers.{AnswersBegin, AnswersIdle};
ghost use Rattle.cm_steps.specs.Eager.{eager_by, eager_child, eager_kids, above_url};

use crate::standing::{Standing, standing_of};
use cm_decl::Child;
use cm_names::{Boxed, ChildName, List, Memory, Name, Text};
use cm_table::Table;
use cm_walk::above::is_resolved;
use cm_walk::hop::moniker;
use cm_world::{ActKind, Facts, Reply, View, Work};
use std::alloc::Global;

/// What a begin comes to.
#[derive(Drop)]
pub enum BeginAnswer {
    /// It has to wait for the action of this number.
    Busy(u64),
    /// It begins nothing, and this is the reply.
    Quiet(Reply),
    /// The caller joins the action of this number.
    Joins(u64),
    /// The action begins, and this is to be done.
    Begins(Boxed<Work>),
}

/// What a begin comes to, read of a tree that stays as it is: [`crate::Realm::begin`] takes the step.
/// `Err` where memory runs out.
pub fn begin_answer(
    alloc: Global,
    table: &Table,
    next_action: u64,
    kind: ActKind,
    inc: u64,
) -> Result<BeginAnswer, Memory>
    ensures { IfOk result (AnswersBegin table.now.rows next_action kind inc) }
{
    let Standing {
        facts,
        gone,
        closed,
    } = standing_of(table, inc);
    if gone {
        return Ok(BeginAnswer::Quiet(Reply::Gone(inc)));
    }
    let facts = match facts {
        None => return Ok(BeginAnswer::Quiet(Reply::Gone(inc))),
        Some(facts) => facts,
    };
    match facts.pending {
        Some((pending, action)) => Ok(if is_same(kind, pending) {
            BeginAnswer::Joins(action)
        } else {
            BeginAnswer::Busy(action)
        }),
        None => idle_answer(alloc, table, next_action, kind, inc, facts, closed),
    }
}

/// Whether both are the same action.
pub fn is_same(one: ActKind, other: ActKind) -> bool
    ensures { result ≡ same_act one other }
{
    one == other
}

/// What a begin comes to at an instance where no action is pending.
fn idle_answer(
    alloc: Global,
    table: &Table,
    next_action: u64,
    kind: ActKind,
    inc: u64,
    facts: Facts,
    closed: bool,
) -> Result<BeginAnswer, Memory>
    requires facts { Some facts ≡ option_map facts_of (row_of table.now.rows inc) }
    requires closed { closed ≡ is_closed table.now.rows inc }
    ensures { IfOk result (λ answer. (r : Row) → row_of table.now.rows inc ≡ Some r
        → AnswersIdle table.now.rows next_action kind r answer) }
{
    let resolved = is_resolved(table, inc);
    if is_so(kind, facts.on, resolved) {
        return Ok(BeginAnswer::Quiet(Reply::Already));
    }
    if closed {
        return Ok(BeginAnswer::Quiet(Reply::Shut(inc)));
    }
    if needs_decl(kind, resolved) {
        return Ok(BeginAnswer::Quiet(Reply::Need(inc)));
    }
    let work = work_at(alloc, table, next_action, kind, inc, facts.parent)?;
    let boxed = Boxed::new(alloc, work)?;
    Ok(BeginAnswer::Begins(boxed))
}

/// Whether an instance is already as the action would make it.
fn is_so(kind: ActKind, on: bool, resolved: bool) -> bool
    ensures { (r : Row) → on ≡ r.on → resolved ≡ is_some r.decl → result ≡ begin.is_so kind r }
{
    match kind {
        ActKind::Resolve => resolved,
        ActKind::Start => on,
        ActKind::Stop => !on,
    }
}

/// Whether the action needs the declaration, and there is none.
fn needs_decl(kind: ActKind, resolved: bool) -> bool
    ensures { (r : Row) → resolved ≡ is_some r.decl → result ≡ begin.needs_decl kind r }
{
    match kind {
        ActKind::Resolve => false,
        ActKind::Start => !resolved,
        ActKind::Stop => false,
    }
}

/// What the beginner of an action has to do, at an instance that lives. `Err` where memory runs out.
fn work_at(
    alloc: Global,
    table: &Table,
    action: u64,
    kind: ActKind,
    inc: u64,
    parent: Option<u64>,
) -> Result<Work, Memory>
    ensures { IfOk result (λ work. (r : Row) → row_of table.now.rows inc ≡ Some r
        → parent ≡ r.parent → work ≡ work_of table.now.rows action kind r) }
{
    match kind {
        ActKind::Resolve => resolve_work(alloc, table, action, inc, parent),
        ActKind::Start => {
            let eager = eager_at(alloc, table, inc)?;
            program_work(alloc, table, action, inc, eager)
        }
        ActKind::Stop => program_work(alloc, table, action, inc, List::new(alloc)),
    }
}

/// The work of a resolve at a row with this parent, whose URL is relative to the parent's.
/// `Err(Memory)` comes where memory runs out.
fn resolve_work(
    alloc: Global,
    table: &Table,
    action: u64,
    inc: u64,
    parent: Option<u64>,
) -> Result<Work, Memory>
    ensures { IfOk result (λ work. (r : Row) → row_of table.now.rows inc ≡ Some r
        → parent ≡ r.parent → work ≡ work_of table.now.rows action ActKind.Resolve r) }
{
    let base = text_or_empty(alloc, absolute_of(table, parent))?;
    let url = text_or_empty(alloc, table.url(inc))?;
    let moniker = moniker(alloc, table, inc)?;
    Ok(Work {
        action,
        inc,
        moniker,
        base,
        url,
        runner: None,
        eager: List::new(alloc),
    })
}

/// The work on the program of an instance that lives.
pub fn program_work(
    alloc: Global,
    table: &Table,
    action: u64,
    inc: u64,
    eager: List<u64>,
) -> Result<Work, Memory>
    ensures { IfOk result (λ work. (r : Row) → row_of table.now.rows inc ≡ Some r
        → work ≡ works.program_work table.now.rows action r eager) }
{
    let url = text_or_empty(alloc, table.absolute(inc))?;
    let runner = runner_at(table, inc)?;
    let moniker = moniker(alloc, table, inc)?;
    Ok(Work {
        action,
        inc,
        moniker,
        base: Text::new(alloc),
        url,
        runner,
        eager,
    })
}

/// A copy of the text, or the empty one.
pub fn text_or_empty(alloc: Global, text: Option<&Text>) -> Result<Text, Memory>
    ensures { IfOk result (λ copy. copy ≡ unwrap_or (option_copied text.entry) []) }
{
    match text {
        None => Ok(Text::new(alloc)),
        Some(text) => Ok(text.clone()?),
    }
}

/// The absolute URL of a parent; `None` for the root, which has none.
fn absolute_of(table: &Table, parent: Option<u64>) -> Option<&Text>
    ensures { option_copied result ≡ above_url table.now.rows parent }
{
    match parent {
        None => None,
        Some(parent) => table.absolute(parent),
    }
}

/// The runner that an instance's declaration names. `Err` where memory runs out.
fn runner_at<V: View>(view: &V, inc: u64) -> Result<Option<Name>, Memory>
    ensures { let decl = decl_of (V.rows view.now) inc in
        IfOk result (λ runner. runner ≡ option_and_then (λ d. d.runner) decl) }
{
    match view.decl(inc) {
        None => Ok(None),
        Some(decl) => Ok(decl.runner.clone()?),
    }
}

/// The children that start together with an instance, in the order of its declaration. `Err` where
/// memory runs out.
fn eager_at<V: View>(alloc: Global, view: &V, inc: u64) -> Result<List<u64>, Memory>
    ensures { let decl = decl_of (V.rows view.now) inc in
        IfOk result (λ eager. eager ≡ eager_by (V.rows view.now) inc decl) }
{
    match view.decl(inc) {
        None => Ok(List::new(alloc)),
        Some(decl) => eager_among(alloc, view, inc, decl.children.as_slice()),
    }
}

/// Of these children of an instance those that start together with it.
fn eager_among<V: View>(
    alloc: Global,
    view: &V,
    inc: u64,
    children: &[Child],
) -> Result<List<u64>, Memory>
    ensures { IfOk result (λ eager. eager ≡ eager_kids (V.rows view.now) inc children.now) }
{
    let mut eager = List::new(alloc);
    for child in children {
        let found = eager_kid(view, inc, child)?;
        push_found(&mut eager, found)?;
    }
    Ok(eager)
}

/// The instance of a declared child, if it starts together with its parent.
fn eager_kid<V: View>(view: &V, inc: u64, child: &Child) -> Result<Option<u64>, Memory>
    ensures { IfOk result (λ found. found ≡ eager_child (V.rows view.now) inc child.now) }
{
    if !child.eager {
        return Ok(None);
    }
    let name = ChildName {
        coll: None,
        name: child.name.clone()?,
    };
    Ok(view.child(inc, &name))
}

/// Puts the item at the end, if there is one.
pub fn push_found<T: Drop>(list: &mut List<T>, found: Option<T>) -> Result<(), Memory>
    ensures { OnOk result (list.new ≡ list.old ++ option_to_list found) }
{
    match found {
        None => Ok(()),
        Some(item) => list.push(item),
    }
}
