//! Whether an event `pick` with its reply may stand where a history ends.
//!
//! A pick may take each instance that may stop, so its reply is one of several. The instance that the
//! reply tells of is the one that is tried.

ghost use Rattle.std.specs.Prelude.{◌≡◌, ◌≢◌, Some, IfOk, MatchOption};
ghost use Rattle.cm_command.specs.Numbers.{IsNumberText};
ghost use Rattle.cm_command.specs.NumbersInside.{IsU64Text};
ghost use Rattle.cm_world.specs.World.{start};
ghost use Rattle.cm_world.specs.Legal.{Legal};
ghost use Rattle.cm_laws.specs.Story.{world_of};
ghost use Rattle.cm_reply.specs.Replies as spec;
ghost use Rattle.cm_audit.specs.Expected.{other_pick_text};
ghost use Rattle.cm_audit.specs.Reading.{IsEntryJudged, TellsNoPick, TellsRow};

use crate::judging::{no_such_step, text_of};
use cm_command::read_number;
use cm_command::words::{cut, strip};
use cm_names::{Memory, Text};
use cm_steps::Realm;
use cm_world::{Event, Reply};
use std::alloc::Global;

/// What is expected in the place of the reply that a pick is given; nothing where the pick with that
/// reply is legal, and then the realm has made its step. `Err` where memory runs out.
///
/// The instance that the reply tells of is picked, if it may be. Otherwise nothing but `done` can be
/// legal, and the realm's own pick shows whether that is so. Where the given reply isn't the text of
/// the pick that is made, the verdict is found, and the realm isn't looked at any more.
pub fn judge_pick(
    alloc: Global,
    realm: &mut Realm,
    caller: u32,
    target: u64,
    given: &str,
) -> Result<Option<Text>, Memory>
    requires { Legal (start realm.old.frame) realm.old.entries }
    ensures { IfOk result
        (λ found. IsEntryJudged realm.old realm.new caller (Event.Pick target) given.now found) }
{
    match row_told(given) {
        Some(row) => judge_told_pick(alloc, realm, caller, target, row, given),
        None => judge_own_pick(alloc, realm, caller, target, given),
    }
}

/// Judges a pick whose given reply tells that it picks this instance, if it tells one.
fn judge_told_pick(
    alloc: Global,
    realm: &mut Realm,
    caller: u32,
    target: u64,
    row: u64,
    given: &str,
) -> Result<Option<Text>, Memory>
    requires legal { Legal (start realm.old.frame) realm.old.entries }
    requires told { TellsRow given.now (Some row) }
    ensures { IfOk result
        (λ found. IsEntryJudged realm.old realm.new caller (Event.Pick target) given.now found) }
{
    if !realm.may_close(target) {
        return Ok(Some(no_such_step(alloc)?));
    }
    let Ok(picked) = realm.pick_this(alloc, caller, target, row) else {
        return Err(Memory);
    };
    match picked {
        Some(reply) => other_pick(alloc, reply, given),
        None => judge_own_pick(alloc, realm, caller, target, given),
    }
}

/// Judges a pick by the one that the realm itself would make.
fn judge_own_pick(
    alloc: Global,
    realm: &mut Realm,
    caller: u32,
    target: u64,
    given: &str,
) -> Result<Option<Text>, Memory>
    requires { TellsNoPick (world_of realm.old) target given.now }
    ensures { IfOk result
        (λ found. IsEntryJudged realm.old realm.new caller (Event.Pick target) given.now found) }
{
    if !realm.enabled(alloc, caller, &Event::Pick(target))? {
        return Ok(Some(no_such_step(alloc)?));
    }
    let Ok(reply) = realm.pick(alloc, caller, target) else {
        return Err(Memory);
    };
    other_pick(alloc, reply, given)
}

/// `another-pick`, where the reply's text isn't the given one; `None` where it is. `Err` where memory
/// runs out.
fn other_pick(alloc: Global, reply: Reply, given: &str) -> Result<Option<Text>, Memory>
    ensures { IfOk result (λ other. MatchOption other (given.now ≡ spec.replied_text reply)
        (λ text. (text ≡ other_pick_text) × (given.now ≢ spec.replied_text reply))) }
{
    let text = text_of(alloc, reply)?;
    if text.as_str() == given {
        return Ok(None);
    }
    Ok(Some(Text::from_str(alloc, "another-pick")?))
}

/// The instance that a reply `stopping N ACTION` or `shutdown N` tells of. Of other texts it may be
/// none or any.
fn row_told(given: &str) -> Option<u64>
    ensures { TellsRow given.now result }
{
    let bytes = given.as_bytes();
    if let Some(digits) = strip(bytes, "shutdown ") {
        return number_in(digits);
    }
    let Some(rest) = strip(bytes, "stopping ") else {
        return None;
    };
    let (digits, _action) = cut(rest, b' ');
    number_in(digits)
}

/// The number of 64 bits that the digits are.
fn number_in(digits: &[u8]) -> Option<u64>
    ensures { MatchOption result (IsU64Text digits.now → ⊥) (λ n. IsNumberText digits.now n) }
{
    match read_number(digits) {
        Ok(number) => Some(number),
        Err(_) => None,
    }
}
