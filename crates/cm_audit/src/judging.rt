//! Whether an event with its reply may stand where a history ends.

ghost use Rattle.std.specs.Prelude.{◌≡◌, ◌≢◌, ◌↔◌, IfOk, IsTrue, MatchOption};
ghost use Rattle.cm_world.specs.World.{start};
ghost use Rattle.cm_world.specs.Legal.{Legal};
ghost use Rattle.cm_world.specs.Step.{IsEnabled};
ghost use Rattle.cm_world.specs.Laws.{IsPick};
ghost use Rattle.cm_laws.specs.Story.{world_of};
ghost use Rattle.cm_reply.specs.Replies as spec;
ghost use Rattle.cm_audit.specs.Expected.{no_step_text};
ghost use Rattle.cm_audit.specs.Reading.{IsEntryJudged};

use crate::picks::judge_pick;
use crate::steps::make_step;
use crate::valid::brings_valid;
use cm_names::{Memory, Text};
use cm_reply::replied_text;
use cm_steps::Realm;
use cm_world::{Event, Reply};
use std::alloc::Global;

/// What is expected in the place of the reply that an event is given; nothing where the event with that
/// reply is legal, and then the realm has made its step. `Err` where memory runs out.
pub fn judge(
    alloc: Global,
    realm: &mut Realm,
    caller: u32,
    event: &Event,
    given: &str,
) -> Result<Option<Text>, Memory>
    requires { Legal (start realm.old.frame) realm.old.entries }
    ensures { IfOk result
        (λ found. IsEntryJudged realm.old realm.new caller event.now given.now found) }
{
    match event {
        Event::Pick(target) => judge_pick(alloc, realm, caller, *target, given),
        _ => judge_other(alloc, realm, caller, event, given),
    }
}

/// Judges an event that isn't a pick, and so gets one reply; makes its step where the reply is the
/// given one.
fn judge_other(
    alloc: Global,
    realm: &mut Realm,
    caller: u32,
    event: &Event,
    given: &str,
) -> Result<Option<Text>, Memory>
    requires { IsPick event.now → ⊥ }
    ensures { IfOk result
        (λ found. IsEntryJudged realm.old realm.new caller event.now given.now found) }
{
    if !is_enabled(alloc, realm, caller, event)? {
        return Ok(Some(no_such_step(alloc)?));
    }
    let Ok(reply) = make_step(alloc, realm, caller, event) else {
        return Err(Memory);
    };
    other_text(alloc, reply, given)
}

/// Whether a caller may make an event now. `Err` where memory runs out.
fn is_enabled(alloc: Global, realm: &Realm, caller: u32, event: &Event) -> Result<bool, Memory>
    ensures { IfOk result
        (λ is. IsTrue is ↔ IsEnabled (world_of realm.now) caller event.now) }
{
    if !brings_valid(alloc, event)? {
        return Ok(false);
    }
    realm.enabled(alloc, caller, event)
}

/// What is expected of an event that isn't enabled.
pub fn no_such_step(alloc: Global) -> Result<Text, Memory>
    ensures { IfOk result (λ text. text ≡ no_step_text) }
{
    Text::from_str(alloc, "no-such-step")
}

/// The text of the reply, which is dropped. `Err` where memory runs out.
pub fn text_of(alloc: Global, reply: Reply) -> Result<Text, Memory>
    ensures { IfOk result (λ text. text ≡ spec.replied_text reply) }
{
    let text = replied_text(alloc, &reply);
    drop(reply);
    text
}

/// The text of the reply, where another one is given.
fn other_text(alloc: Global, reply: Reply, given: &str) -> Result<Option<Text>, Memory>
    ensures { IfOk result (λ other. MatchOption other (given.now ≡ spec.replied_text reply)
        (λ text. (text ≡ spec.replied_text reply) × (given.now ≢ text))) }
{
    let text = text_of(alloc, reply)?;
    if text.as_str() == given {
        Ok(None)
    } else {
        Ok(Some(text))
    }
}
