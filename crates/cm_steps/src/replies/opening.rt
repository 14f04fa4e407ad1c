//! The replies to who asks for a route, and to who opens something.

ghost use Rattle.std.specs.Prelude.{◌≡◌, IfOk};
ghost use Rattle.cm_world.specs.Openings as openings;
ghost use Rattle.cm_world.specs.Route.{IsWalked};

use crate::replies::finding::unresolved;
use cm_names::{CapPath, Memory, Name, Shared};
use cm_walk::above::{is_closed, is_gone, is_on, is_resolved, is_shut};
use cm_walk::walk;
use cm_world::{Provider, Reply, Route, Start, View, Walked};
use std::alloc::Global;

/// What refuses every look at the declaration of an instance.
pub fn unready<V: View>(view: &V, inc: u64) -> Option<Reply>
    ensures { result ≡ openings.unready (V.rows view.now) inc }
{
    if is_gone(view, inc) {
        return Some(Reply::Gone(inc));
    }
    if is_resolved(view, inc) {
        return None;
    }
    Some(unresolved(view, inc))
}

/// What refuses an opening by a use of an instance.
pub fn unopened<V: View>(view: &V, inc: u64) -> Option<Reply>
    ensures { result ≡ openings.unopened (V.rows view.now) inc }
{
    if is_gone(view, inc) {
        return Some(Reply::Gone(inc));
    }
    if is_on(view, inc) {
        None
    } else {
        Some(Reply::ClientOff)
    }
}

/// What is made of a walk for one who asks for the route.
pub fn routed<V: View>(view: &V, walked: Walked) -> Reply
    ensures { result ≡ openings.routed (V.rows view.now) walked }
{
    match walked {
        Walked::Given(route) => Reply::Given(route),
        Walked::Failed(hop, why) => Reply::Failed(hop, why),
        Walked::Need(inc) => {
            if is_closed(view, inc) {
                Reply::SourceShut(inc)
            } else {
                Reply::Need(inc)
            }
        }
        Walked::Void(hop) => Reply::Void(hop),
        Walked::NoSuchUse => Reply::NoSuchUse,
    }
}

/// What is made of a whole route for one who opens: an instance that provides something has to
/// be on.
fn opened_route<V: View>(view: &V, route: Shared<Route>) -> Reply
    ensures { result ≡ openings.opened_at (V.rows view.now) route route.provider }
{
    let source = match &route.get().provider {
        Provider::Instance(inc, _) => *inc,
        Provider::Framework => return Reply::Opened(route),
        Provider::Builtin => return Reply::Opened(route),
    };
    if is_shut(view, source) {
        return Reply::SourceShut(source);
    }
    if is_on(view, source) {
        return Reply::Opened(route);
    }
    if is_closed(view, source) {
        Reply::SourceShut(source)
    } else {
        Reply::NeedStart(source)
    }
}

/// What is made of a walk for one who opens.
pub fn opened<V: View>(view: &V, walked: Walked) -> Reply
    ensures { result ≡ openings.opened (V.rows view.now) walked }
{
    match walked {
        Walked::Given(route) => opened_route(view, route),
        other => routed(view, other),
    }
}

/// Where what an instance uses at the path comes from.
pub fn walk_use<V: View>(
    alloc: Global,
    view: &V,
    inc: u64,
    path: &CapPath,
) -> Result<Walked, Memory>
    ensures { let rows = V.rows view.now in
        IfOk result (IsWalked rows (V.builtins view.now) (Start.UseAt inc path.now)) }
{
    let path = path.clone()?;
    walk(alloc, view, Start::UseAt(inc, path))
}

/// The reply to who opens what an instance exposes.
pub fn open_exposed_reply<V: View>(
    alloc: Global,
    view: &V,
    inc: u64,
    name: &Name,
) -> Result<Reply, Memory>
    ensures { let rows = V.rows view.now in
        IfOk result (openings.WalksUnless rows (V.builtins view.now) (Start.ExposeAt inc name.now)
        (openings.opened rows) (openings.unready rows inc)) }
{
    match unready(view, inc) {
        Some(refusal) => Ok(refusal),
        None => {
            let name = name.clone()?;
            let walked = walk(alloc, view, Start::ExposeAt(inc, name))?;
            Ok(opened(view, walked))
        }
    }
}
