//! What the end of an action means for the call that asked for it.

ghost use Rattle.std.specs.Prelude.{◌≡◌};
ghost use Rattle.cm_answers.specs.Answers.{ends_eager, is_killed};
ghost use Rattle.cm_answers.specs.AnswersInside.{EndsIn, FailsBy, answer_by};
ghost use Rattle.cm_answers.specs.AnswersInside.{is_well, made_by};

use crate::ActionResult;
use crate::answers::{ending, refusing};
use cm_world::{ActKind, Answer, Outcome, Refusal, Reply};

/// The number of the action and its outcome; no number where the instance was so already.
///
/// `Err` with what ends the call: the action failed or was refused, or the call ended in it.
fn outcome_of(went: Result<ActionResult, Refusal>) -> Result<(Option<u64>, Outcome), Refusal>
    ensures { EndsIn went result }
{
    match went {
        Ok(ActionResult::Ended(kind, action, outcome)) => {
            match ending(Ok(ActionResult::Ended(kind, action, outcome))) {
                None => Ok((Some(action), outcome)),
                Some(refusal) => Err(refusal),
            }
        }
        Ok(ActionResult::Quiet(Reply::Already)) => Ok((None, Outcome::Resolved)),
        Ok(ActionResult::Quiet(reply)) => Err(refusing(reply)),
        Err(refusal) => Err(refusal),
    }
}

/// Whether a stop had to be made by force.
fn was_killed(outcome: Outcome) -> bool
    ensures { result ≡ is_killed outcome }
{
    matches!(outcome, Outcome::Killed)
}

/// The answer of a call with an action of this kind and number that ended so.
fn answer_for(kind: ActKind, action: Option<u64>, outcome: Outcome) -> Answer
    ensures { result ≡ made_by kind action outcome }
{
    match kind {
        ActKind::Resolve => Answer::Resolved(action),
        ActKind::Start => Answer::Started(action),
        ActKind::Stop => Answer::Stopped(action, was_killed(outcome)),
    }
}

/// The answer of a call that acts on an instance.
pub fn acted(kind: ActKind, went: Result<ActionResult, Refusal>) -> Result<Answer, Refusal>
    ensures { result ≡ answer_by kind went }
{
    match outcome_of(went) {
        Ok((action, outcome)) => Ok(answer_for(kind, action, outcome)),
        Err(refusal) => Err(refusal),
    }
}

/// Whether an action went well, so that the call that wanted it goes on.
fn went_well(outcome: Outcome) -> bool
    ensures { result ≡ is_well outcome }
{
    matches!(
        outcome,
        Outcome::Resolved | Outcome::Started | Outcome::Stopped | Outcome::Killed
    )
}

/// What came of an action, handed back where it ends a call that needed it; `None` where the call goes
/// on.
pub fn if_failed(went: Result<ActionResult, Refusal>) -> Option<Result<ActionResult, Refusal>>
    ensures { FailsBy went result }
{
    match went {
        Ok(ActionResult::Ended(kind, action, outcome)) => {
            if went_well(outcome) {
                None
            } else {
                Some(Ok(ActionResult::Ended(kind, action, outcome)))
            }
        }
        Ok(ActionResult::Quiet(reply)) => {
            drop(reply);
            None
        }
        Err(refusal) => Some(Err(refusal)),
    }
}

/// What ends the call where the start of an eager child came to this.
pub fn ending_of_eager(went: Result<ActionResult, Refusal>) -> Option<Refusal>
    ensures { result ≡ ends_eager went }
{
    match went {
        Ok(ActionResult::Ended(_, _, Outcome::NoMemory)) => Some(Refusal::Memory),
        Ok(acted) => {
            drop(acted);
            None
        }
        Err(refusal) => Some(refusal),
    }
}
