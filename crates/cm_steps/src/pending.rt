//! Actions that were begun, and the callers that wait for one.

ghost use Rattle.std.specs.Prelude.{◌≡◌, ◌==◌, false, All, IfNone, position};
ghost use Rattle.std.specs.Option.{option_copied};
ghost use Rattle.cm_world.specs.World.{act_of, outcome_of};
ghost use Rattle.cm_world.specs.End.{ended};
ghost use Rattle.cm_world.specs.Step.{is_join};
ghost use Rattle.cm_world.specs.After.{unjoined};
ghost use Rattle.cm_laws.specs.Tasks.{IsNumbered};
ghost use Rattle.cm_steps.specs.Ends.{inc_of};

use cm_world::{Act, Join, Outcome};

/// The action of that number, among actions that are numbered from 1 on.
pub fn act_at(acts: &[Act], action: u64) -> Option<&Act>
    requires { IsNumbered 1 acts.now }
    ensures { option_copied result ≡ act_of acts.now action }
{
    match act_place(acts, action) {
        None => None,
        Some(place) => Some(&acts[place]),
    }
}

/// The instance of the action of that number; 0 where there is no such action.
pub fn inc_at(acts: &[Act], action: u64) -> u64
    requires { IsNumbered 1 acts.now }
    ensures { result ≡ inc_of acts.now action }
{
    match act_at(acts, action) {
        Some(act) => act.inc,
        None => 0,
    }
}

/// What became of the action of that number, if it has ended.
pub fn outcome_at(acts: &[Act], action: u64) -> Option<Outcome>
    requires { IsNumbered 1 acts.now }
    ensures { result ≡ outcome_of acts.now action }
{
    match act_at(acts, action) {
        Some(act) => act.outcome,
        None => None,
    }
}

/// The place of the action of that number, which is one below it.
fn act_place(acts: &[Act], action: u64) -> Option<usize>
    requires { IsNumbered 1 acts.now }
    ensures place { result ≡ position (λ x. x.action == action) acts.now }
    ensures none { IfNone result (All (λ x. (x.action == action) ≡ false) acts.now) }
{
    if action == 0 {
        return None;
    }
    if action > acts.len() as u64 {
        return None;
    }
    Some((action - 1) as usize)
}

/// Records what became of an action, among actions that are numbered from 1 on.
pub fn settle(acts: &mut Vec<Act>, action: u64, outcome: Outcome)
    requires { IsNumbered 1 acts.old.items }
    ensures { acts.new.items ≡ ended action outcome acts.old.items }
{
    match act_place(acts.as_slice(), action) {
        None => {}
        Some(place) => acts[place].outcome = Some(outcome),
    }
}

/// The place of the caller's join of the action.
pub fn join_place(joins: &[Join], caller: u32, action: u64) -> Option<usize>
    ensures place { result ≡ position (is_join caller action) joins.now }
    ensures none { IfNone result (All (λ j. is_join caller action j ≡ false) joins.now) }
{
    joins
        .iter()
        .position(|join| join.caller == caller && join.action == action)
}

/// Removes the caller's join of the action, which it awaited.
pub fn take_join(joins: &mut Vec<Join>, caller: u32, action: u64)
    ensures { joins.new.items ≡ unjoined caller action joins.old.items }
{
    match join_place(joins.as_slice(), caller, action) {
        None => {}
        Some(place) => {
            let _join = joins.remove(place);
        }
    }
}
