//! What a pick comes to.

ghost use Rattle.std.specs.Prelude.{◌≡◌, if◌then◌else◌, IsTrue, IfOk, IfSome, IfNone};
ghost use Rattle.std.specs.Prelude.{MatchOption};
ghost use Rattle.cm_world.specs.Sound.{IsSound};
ghost use Rattle.cm_world.specs.Step.{may_close};
ghost use Rattle.cm_order.specs.Plans.{IsPlan};
ghost use Rattle.cm_order.specs.Picking.{MayBePicked, PicksNow};
ghost use Rattle.cm_steps.specs.Answers.{AnswersPick};
ghost use Rattle.cm_steps.specs.Chosen.{AnswersThis};

use crate::replies::beginning::program_work;
use cm_names::{Boxed, List, Memory};
use cm_order::{DescentPlan, Picked, may_pick_with, pick_with};
use cm_table::Table;
use cm_walk::above::is_on;
use cm_world::Work;
use std::alloc::Global;

/// What a pick comes to.
#[derive(Drop)]
pub enum PickAnswer {
    /// It has to wait for the action of this number.
    Busy(u64),
    /// All at and below the target is shut.
    Done,
    /// This instance is shut, since its program doesn't run.
    Shuts(u64),
    /// An instance is to be stopped, and this is to be done.
    Stops(Boxed<Work>),
}

/// What a pick comes to, with what is known of ways down from picks before.
pub fn pick_answer(
    alloc: Global,
    table: &Table,
    plan: &mut DescentPlan,
    next_action: u64,
    target: u64,
) -> Result<PickAnswer, Memory>
    requires sound { IsSound table.now.rows table.now.next_inc }
    requires closing { IsTrue (may_close table.now.rows target) }
    requires plan { IsPlan table.now.rows plan.old }
    ensures answer { IfOk result (AnswersPick table.now.rows next_action target) }
    ensures plan { IsPlan table.now.rows plan.new }
{
    match pick_with(alloc, table, plan, target)? {
        Picked::Waits(action) => Ok(PickAnswer::Busy(action)),
        Picked::Done => Ok(PickAnswer::Done),
        Picked::ShutNow(inc) => Ok(PickAnswer::Shuts(inc)),
        Picked::StopNow(inc) => {
            let work = program_work(alloc, table, next_action, inc, List::new(alloc))?;
            let boxed = Boxed::new(alloc, work)?;
            Ok(PickAnswer::Stops(boxed))
        }
    }
}

/// What a pick of this instance comes to, with what is known of ways down from picks before; `None`
/// where a pick for the target may not choose it.
pub fn this_answer(
    alloc: Global,
    table: &Table,
    plan: &mut DescentPlan,
    next_action: u64,
    target: u64,
    inc: u64,
) -> Result<Option<PickAnswer>, Memory>
    requires sound { IsSound table.now.rows table.now.next_inc }
    requires closing { IsTrue (may_close table.now.rows target) }
    requires plan { IsPlan table.now.rows plan.old }
    ensures some { IfOk result (λ found.
        IfSome found (AnswersThis table.now.rows next_action target inc)) }
    ensures none { IfOk result (λ found.
        IfNone found (MayBePicked table.now.rows target inc → ⊥)) }
    ensures plan { IsPlan table.now.rows plan.new }
{
    let Some(on) = choice(alloc, table, plan, target, inc)? else {
        return Ok(None);
    };
    if !on {
        return Ok(Some(PickAnswer::Shuts(inc)));
    }
    let work = program_work(alloc, table, next_action, inc, List::new(alloc))?;
    let boxed = Boxed::new(alloc, work)?;
    Ok(Some(PickAnswer::Stops(boxed)))
}

/// Whether the program of this instance runs, if a pick for the target may choose it.
fn choice(
    alloc: Global,
    table: &Table,
    plan: &mut DescentPlan,
    target: u64,
    inc: u64,
) -> Result<Option<bool>, Memory>
    requires sound { IsSound table.now.rows table.now.next_inc }
    requires closing { IsTrue (may_close table.now.rows target) }
    requires plan { IsPlan table.now.rows plan.old }
    ensures chosen { let rows = table.now.rows in
        IfOk result (λ found. MatchOption found (MayBePicked rows target inc → ⊥)
        (PicksNow rows target inc)) }
    ensures plan { IsPlan table.now.rows plan.new }
{
    let picked = pick_with(alloc, table, plan, target)?;
    if let Some(on) = of_this(picked, inc) {
        return Ok(Some(on));
    }
    if !may_pick_with(alloc, table, plan, target, inc)? {
        return Ok(None);
    }
    Ok(Some(is_on(table, inc)))
}

/// Whether the program of this instance runs, if it is the one that is picked.
fn of_this(picked: Picked, inc: u64) -> Option<bool>
    ensures { IfSome result (λ on.
        picked ≡ (if on then Picked.StopNow inc else Picked.ShutNow inc)) }
{
    match picked {
        Picked::StopNow(one) => { if one == inc { Some(true) } else { None } }
        Picked::ShutNow(one) => { if one == inc { Some(false) } else { None } }
        Picked::Waits(_action) => None,
        Picked::Done => None,
    }
}
