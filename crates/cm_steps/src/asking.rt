//! Entries that ask for a use of an instance: they are answered by what is kept, and else by a
//! walk, whose answer is kept then, if it lasts.

ghost use Rattle.std.specs.Prelude.{◌≡◌, ◌≤◌, ◌++◌, ◌∷◌, [], length, IfOk, IfErr, OnOk, OnErr};
ghost use Rattle.cm_book.specs.Refusal.{FitsLimit};
ghost use Rattle.cm_cache.specs.Beside.{asked_for, finding, found_by};
ghost use Rattle.cm_laws.specs.Story.{entry_of};
ghost use Rattle.cm_world.specs.Openings.{WalksUnless};
ghost use Rattle.cm_world.specs.Route.{IsWalked};
ghost use Rattle.cm_steps.specs.Asking as spec;
ghost use Rattle.cm_steps.specs.Rooms.{Lacks};

use crate::nostep::NoStep;
use crate::replies::opening::{opened, routed, unopened, unready, walk_use};
use crate::rooms::copy_in_room;
use cm_book::Book;
use cm_cache::{CacheLookup, Keeper, found_by_walk};
use cm_names::{CapPath, Memory};
use cm_walk::above::{is_gone, is_on, is_resolved};
use cm_world::{Entry, Event, Reply, Start, View, Walked};
use std::alloc::Global;

/// What one wants of a use.
#[derive(Clone, Copy)]
pub(crate) enum Asking {
    /// To be told its route.
    Route,
    /// To open what it leads to.
    Opening,
}

/// What the walk from a use comes to, and what becomes of the answers that are kept.
#[derive(Drop)]
pub(crate) struct RouteAnswer {
    pub walked: Walked,
    pub found: CacheLookup,
}

/// Whether one who asks is answered by what the walk comes to: the instance lives, neither it nor
/// one above it is being destroyed, it is resolved, and, for an opening, it is on.
pub(crate) fn asks<V: View>(view: &V, asking: Asking, inc: u64) -> bool
    ensures { result ≡ spec.may_ask asking (V.rows view.now) inc }
{
    let ready = !is_gone(view, inc) && is_resolved(view, inc);
    match asking {
        Asking::Route => ready,
        Asking::Opening => ready && is_on(view, inc),
    }
}

/// The event by which the history records what was asked.
pub(crate) fn event_of(asking: Asking, inc: u64, path: CapPath) -> Event
    ensures { result ≡ spec.event_of asking inc path }
{
    match asking {
        Asking::Route => Event::Route(inc, path),
        Asking::Opening => Event::OpenUse(inc, path),
    }
}

/// The reply to one who asks, by what the walk came to.
pub(crate) fn reply_of<V: View>(view: &V, asking: Asking, walked: Walked) -> Reply
    ensures { result ≡ spec.reply_of asking (V.rows view.now) walked }
{
    match asking {
        Asking::Route => routed(view, walked),
        Asking::Opening => opened(view, walked),
    }
}

/// What refuses one who asks, whatever the use comes to.
fn refusal_of<V: View>(view: &V, asking: Asking, inc: u64) -> Option<Reply>
    ensures { result ≡ spec.refusal_of asking (V.rows view.now) inc }
{
    match asking {
        Asking::Route => unready(view, inc),
        Asking::Opening => unopened(view, inc),
    }
}

/// The reply to one who asks, by a walk, whatever is kept.
pub(crate) fn use_reply<V: View>(
    alloc: Global,
    view: &V,
    asking: Asking,
    inc: u64,
    path: &CapPath,
) -> Result<Reply, Memory>
    ensures { let rows = V.rows view.now in
        IfOk result (WalksUnless rows (V.builtins view.now) (Start.UseAt inc path.now)
        (spec.reply_of asking rows) (spec.refusal_of asking rows inc)) }
{
    match refusal_of(view, asking, inc) {
        Some(refusal) => Ok(refusal),
        None => {
            let walked = walk_use(alloc, view, inc, path)?;
            Ok(reply_of(view, asking, walked))
        }
    }
}

/// What the walk from a use comes to: the answer that is kept for it, where there is one, else that of
/// a new walk.
pub(crate) fn answer<V: View>(
    alloc: Global,
    view: &V,
    keeper: &Keeper,
    inc: u64,
    path: &CapPath,
) -> Result<RouteAnswer, Memory>
    requires { let rows = V.rows view.now in
        spec.IsRightAt rows (V.builtins view.now) keeper.now.answers inc path.now }
    ensures walked { let rows = V.rows view.now in
        IfOk result (λ a. IsWalked rows (V.builtins view.now) (Start.UseAt inc path.now) a.walked) }
    ensures found { let held = keeper.now in
        IfOk result (λ a. found_by a.found held ≡ asked_for inc path.now a.walked held) }
{
    match keeper.recall(inc, path)? {
        Some(walked) => Ok(RouteAnswer {
            walked,
            found: CacheLookup::Again,
        }),
        None => answer_anew(alloc, view, inc, path),
    }
}

/// What a walk from the use comes to, with a copy that is kept if it lasts.
fn answer_anew<V: View>(
    alloc: Global,
    view: &V,
    inc: u64,
    path: &CapPath,
) -> Result<RouteAnswer, Memory>
    ensures walked { let rows = V.rows view.now in
        IfOk result (λ a. IsWalked rows (V.builtins view.now) (Start.UseAt inc path.now) a.walked) }
    ensures found { IfOk result (λ a. a.found ≡ finding inc path.now a.walked) }
{
    let walked = walk_use(alloc, view, inc, path)?;
    match found_by_walk(inc, path, &walked) {
        Ok(found) => Ok(RouteAnswer { walked, found }),
        Err(Memory) => {
            drop(walked);
            Err(Memory)
        }
    }
}

/// Puts down what was asked with its reply, and hands the reply back. An answer is kept after all
/// else that may want memory.
pub(crate) fn tell_found(
    book: &mut Book,
    keeper: &mut Keeper,
    caller: u32,
    event: Event,
    reply: Reply,
    found: CacheLookup,
) -> Result<Reply, NoStep>
    requires { keeper.old.number ≤ length book.old.entries }
    ensures told { IfOk result (λ told. told ≡ reply) }
    ensures book { let entries = book.old.entries ++ entry_of caller event reply ∷ [] in
        OnOk result (book.new ≡ record book.old { entries = entries }) }
    ensures keeper { OnOk result (keeper.new ≡ found_by found keeper.old) }
    ensures fits { OnOk result (FitsLimit book.old 1) }
    ensures err { OnErr result (book.new ≡ book.old) }
    ensures same { OnErr result (keeper.new ≡ keeper.old) }
    ensures refused { IfErr result (Lacks book.old 1) }
{
    match copy_in_room(book, &reply) {
        Ok(told) => match keeper.ask(found) {
            Ok(()) => {
                book.push_reserved(Entry {
                    caller,
                    event,
                    reply,
                });
                Ok(told)
            }
            Err(Memory) => {
                book.release(1);
                drop(told);
                drop(event);
                drop(reply);
                Err(NoStep::Memory)
            }
        },
        Err(fault) => {
            drop(event);
            drop(reply);
            drop(found);
            Err(fault)
        }
    }
}
