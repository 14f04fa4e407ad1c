//! What a reply, and the end of an action, mean for a call.

ghost use Rattle.std.specs.Prelude.{◌≡◌};
ghost use Rattle.cm_answers.specs.Answers.{ends_call, failure};
ghost use Rattle.cm_answers.specs.Answers.{answer_unless, found_by, decided_by, decision, refusal_of};
ghost use Rattle.cm_answers.specs.Answers as spec;
ghost use Rattle.cm_answers.specs.AnswersInside as spec_inside;

use crate::ActionResult;
use cm_world::{ActKind, Answer, Outcome, Refusal, Reply};

/// The refusal that a reply stands for.
pub fn refusing(reply: Reply) -> Refusal
    ensures { result ≡ refusal_of reply }
{
    match reply {
        Reply::NoCollection => Refusal::CollectionNotFound,
        Reply::Exists(row) => Refusal::AlreadyExists(row),
        Reply::OffersRefused => Refusal::DynamicOffersRefused,
        Reply::BadOffer(index, number) => Refusal::BadOffer(index, number),
        Reply::Cycle(nodes) => Refusal::OfferCycle(nodes),
        Reply::Closing(row) => Refusal::ParentClosing(row),
        Reply::Full => Refusal::Full,
        Reply::NotDynamic => Refusal::NotDynamic,
        Reply::NotFound(prefix) => Refusal::NotFound(prefix),
        Reply::Gone(row) => Refusal::Gone(row),
        Reply::Shut(row) => Refusal::Shut(row),
        Reply::ClientOff => Refusal::ClientOff,
        Reply::NoSuchUse => Refusal::NoSuchUse,
        Reply::Failed(hop, why) => Refusal::NoRoute(hop, why),
        Reply::Void(hop) => Refusal::VoidSource(hop),
        Reply::SourceShut(row) => Refusal::SourceShut(row),
        other => {
            drop(other);
            Refusal::Memory
        }
    }
}

/// The row that was found, or why none was.
pub fn found(went: Result<Reply, Refusal>) -> Result<u64, Refusal>
    ensures { result ≡ found_by went }
{
    match went {
        Err(refusal) => Err(refusal),
        Ok(Reply::Found(row)) => Ok(row),
        Ok(other) => Err(refusing(other)),
    }
}

/// The answer of a call with one event.
pub(crate) fn deciding(reply: Reply) -> Result<Answer, Refusal>
    ensures { result ≡ decision reply }
{
    match reply {
        Reply::Created(row) => Ok(Answer::Created(row)),
        Reply::Listed(kids) => Ok(Answer::Children(kids)),
        Reply::Opened(route) => Ok(Answer::Opened(route)),
        Reply::Given(route) => Ok(Answer::Routed(route)),
        Reply::Shown(look) => Ok(Answer::Shown(look)),
        Reply::Surveyed(rows) => Ok(Answer::Surveyed(rows)),
        Reply::Left(_) => Ok(Answer::Left(true)),
        Reply::Already => Ok(Answer::Left(false)),
        other => Err(refusing(other)),
    }
}

/// The answer of a call with one event, which was decided or ended before.
pub fn decided(went: Result<Reply, Refusal>) -> Result<Answer, Refusal>
    ensures { result ≡ decided_by went }
{
    match went {
        Err(refusal) => Err(refusal),
        Ok(reply) => deciding(reply),
    }
}

/// The answer of a call that comes to this one unless something ended it before.
pub fn unless_ended(answer: Answer, end: Option<Refusal>) -> Result<Answer, Refusal>
    ensures { result ≡ answer_unless answer end }
{
    match end {
        None => Ok(answer),
        Some(refusal) => {
            drop(answer);
            Err(refusal)
        }
    }
}

/// The answer of a call, or what ended the call after it.
pub fn behind(end: Option<Refusal>, answer: Result<Answer, Refusal>) -> Result<Answer, Refusal>
    ensures { result ≡ spec.unless_ended end answer }
{
    match end {
        None => answer,
        Some(refusal) => {
            drop(answer);
            Err(refusal)
        }
    }
}

/// The child that a create made, if it made one.
pub(crate) fn created_in(went: &Result<Reply, Refusal>) -> Option<u64>
    ensures { result ≡ spec_inside.created_in went.now }
{
    match went {
        Ok(Reply::Created(inc)) => Some(*inc),
        _ => None,
    }
}

/// Whether an exit found its program on.
pub(crate) fn has_left(went: &Result<Reply, Refusal>) -> bool
    ensures { result ≡ spec_inside.has_left went.now }
{
    matches!(went, Ok(Reply::Left(_)))
}

/// What ends a call that needed this.
pub fn ending(went: Result<ActionResult, Refusal>) -> Option<Refusal>
    ensures { result ≡ ends_call went }
{
    match went {
        Err(refusal) => Some(refusal),
        Ok(ActionResult::Quiet(reply)) => {
            drop(reply);
            None
        }
        Ok(ActionResult::Ended(kind, action, outcome)) => failing(kind, action, outcome),
    }
}

/// The refusal that a failed action makes.
fn failing(kind: ActKind, action: u64, outcome: Outcome) -> Option<Refusal>
    ensures { result ≡ failure kind action outcome }
{
    match outcome {
        Outcome::Resolved => None,
        Outcome::Started => None,
        Outcome::Stopped => None,
        Outcome::Killed => None,
        Outcome::NoMemory => Some(Refusal::Memory),
        other => match kind {
            ActKind::Resolve => Some(Refusal::CannotResolve(action, other)),
            _ => Some(Refusal::CannotStart(action, other)),
        },
    }
}

/// What ends a call that marks an instance: the mark was refused, or wasn't made.
pub fn unmarked(asked: Result<Reply, Refusal>) -> Option<Refusal>
    ensures { result ≡ spec_inside.unmarked_by asked }
{
    match asked {
        Ok(Reply::Marked) => None,
        Ok(Reply::Already) => None,
        Ok(other) => Some(refusing(other)),
        Err(refusal) => Some(refusal),
    }
}
