//! Actions that caller 0 begins and ends.

ghost use Rattle.std.specs.Prelude.{IsTrue, IfOk};
ghost use Rattle.cm_world.specs.End.{fits_kind};
ghost use Rattle.cm_world.specs.declared.action.Finish.TheVariants as finish;
ghost use Rattle.cm_laws.specs.Story.{world_of};
ghost use Rattle.realm_tests.specs.Ends.{CanEnd};

use crate::declarations::prepared;
use cm_steps::{Ending, NoStep, Realm};
use cm_world::{ActKind, Outcome, Reply};
use std::alloc::Global;

/// Begins an action for caller 0: its number, or else why no step was made, if none was.
pub fn begun(
    realm: &mut Realm,
    alloc: Global,
    kind: ActKind,
    inc: u64,
) -> Result<u64, Option<NoStep>>
    ensures { IfOk result (CanEnd (world_of realm.new) kind) }
{
    match realm.begin(alloc, 0, kind, inc) {
        Ok(Reply::Begun(work)) => {
            let action = work.get().action;
            drop(work);
            Ok(action)
        }
        Ok(other) => {
            drop(other);
            Err(None)
        }
        Err(no_step) => Err(Some(no_step)),
    }
}

/// Begins an action, and ends it in this where it begins.
fn act(
    realm: &mut Realm,
    alloc: Global,
    kind: ActKind,
    inc: u64,
    outcome: Outcome,
) -> Option<NoStep>
    requires { IsTrue (fits_kind kind (finish.Other outcome)) }
{
    match begun(realm, alloc, kind, inc) {
        Ok(action) => {
            drop(realm.end(0, action, Ending::Other(outcome)));
            None
        }
        Err(refused) => refused,
    }
}

/// Begins a start, and ends it well where it begins.
pub fn started(realm: &mut Realm, alloc: Global, inc: u64) -> Option<NoStep> {
    act(realm, alloc, ActKind::Start, inc, Outcome::Started)
}

/// Begins a stop, and ends it by force where it begins.
pub fn killed(realm: &mut Realm, alloc: Global, inc: u64) -> Option<NoStep> {
    act(realm, alloc, ActKind::Stop, inc, Outcome::Killed)
}

/// Begins a resolve, and ends it by a manifest where it begins. The declaration is made in the arm
/// that hands it on, so that no other end of the function drops it: that would be dear to prove.
pub fn resolve(
    realm: &mut Realm,
    alloc: Global,
    inc: u64,
    manifest: &str,
) -> Option<Option<NoStep>> {
    match begun(realm, alloc, ActKind::Resolve, inc) {
        Ok(action) => match prepared(alloc, manifest) {
            Some(prepared) => {
                drop(realm.end(0, action, Ending::Resolved(prepared)));
                Some(None)
            }
            None => None,
        },
        Err(refused) => Some(refused),
    }
}
