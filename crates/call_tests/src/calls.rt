//! The calls of a manager, with gates that never fail. Each hands its pass on; no caller has to read what the
//! call promises besides.

ghost use Rattle.std.specs.Prelude.{◌≡◌};

use cm_decl::Give;
use cm_gate::QuietGates;
use cm_manager::Manager;
use cm_names::{CapPath, List, Name, Text};
use cm_turn::Pass;
use cm_world::{Answer, Entry, Frame, Refusal, Target};
use std::alloc::Global;
use std::sync::Wait;
use std::thread::Threads;

/// What the calls are made with besides their targets.
#[derive(Drop)]
pub struct Words {
    pub path: CapPath,
    pub protocol: Name,
    pub coll: Name,
    pub child: Name,
    pub url: Text,
    pub gives: List<Give>,
}

/// A pass, and what a call is answered.
pub type Answered = (Pass<Entry, Frame>, Result<Answer, Refusal>);

/// Makes the call `resolve`.
fn resolve<R: Threads + Wait + Sync>(
    rt: &R,
    alloc: Global,
    manager: &Manager,
    pass: Pass<Entry, Frame>,
    target: &Target,
) -> Answered
    requires { pass.lock ≡ manager.now.turn.lock }
    ensures { result.0.lock ≡ pass.lock }
{
    manager.resolve(rt, alloc, pass, &mut QuietGates, target)
}

/// Makes the call `start`.
fn start<R: Threads + Wait + Sync>(
    rt: &R,
    alloc: Global,
    manager: &Manager,
    pass: Pass<Entry, Frame>,
    target: &Target,
) -> Answered
    requires { pass.lock ≡ manager.now.turn.lock }
    ensures { result.0.lock ≡ pass.lock }
{
    manager.start(rt, alloc, pass, &mut QuietGates, target)
}

/// Makes the call `stop`.
fn stop<R: Threads + Wait + Sync>(
    rt: &R,
    alloc: Global,
    manager: &Manager,
    pass: Pass<Entry, Frame>,
    target: &Target,
) -> Answered
    requires { pass.lock ≡ manager.now.turn.lock }
    ensures { result.0.lock ≡ pass.lock }
{
    manager.stop(rt, alloc, pass, &mut QuietGates, target)
}

/// Makes the call `shutdown`.
fn shutdown<R: Threads + Wait + Sync>(
    rt: &R,
    alloc: Global,
    manager: &Manager,
    pass: Pass<Entry, Frame>,
    target: &Target,
) -> Answered
    requires { pass.lock ≡ manager.now.turn.lock }
    ensures { result.0.lock ≡ pass.lock }
{
    manager.shutdown(rt, alloc, pass, &mut QuietGates, target)
}

/// Makes the call `create_child`, by the words that the line has for it.
fn create_child<R: Threads + Wait + Sync>(
    rt: &R,
    alloc: Global,
    manager: &Manager,
    pass: Pass<Entry, Frame>,
    target: &Target,
    words: &Words,
) -> Answered
    requires { pass.lock ≡ manager.now.turn.lock }
    ensures { result.0.lock ≡ pass.lock }
{
    manager.create_child(
        rt,
        alloc,
        pass,
        &mut QuietGates,
        target,
        &words.coll,
        &words.child,
        &words.url,
        &words.gives,
    )
}

/// Makes the call `destroy_child`.
fn destroy_child<R: Threads + Wait + Sync>(
    rt: &R,
    alloc: Global,
    manager: &Manager,
    pass: Pass<Entry, Frame>,
    target: &Target,
) -> Answered
    requires { pass.lock ≡ manager.now.turn.lock }
    ensures { result.0.lock ≡ pass.lock }
{
    manager.destroy_child(rt, alloc, pass, &mut QuietGates, target)
}

/// Makes the call `list_children`, of the words' collection.
fn list_children<R: Threads + Wait + Sync>(
    rt: &R,
    alloc: Global,
    manager: &Manager,
    pass: Pass<Entry, Frame>,
    target: &Target,
    words: &Words,
) -> Answered
    requires { pass.lock ≡ manager.now.turn.lock }
    ensures { result.0.lock ≡ pass.lock }
{
    manager.list_children(rt, alloc, pass, &mut QuietGates, target, &words.coll)
}

/// Makes the call `open_use`, of the words' path.
fn open_use<R: Threads + Wait + Sync>(
    rt: &R,
    alloc: Global,
    manager: &Manager,
    pass: Pass<Entry, Frame>,
    target: &Target,
    words: &Words,
) -> Answered
    requires { pass.lock ≡ manager.now.turn.lock }
    ensures { result.0.lock ≡ pass.lock }
{
    manager.open_use(rt, alloc, pass, &mut QuietGates, target, &words.path)
}

/// Makes the call `open_exposed`, of the words' name.
fn open_exposed<R: Threads + Wait + Sync>(
    rt: &R,
    alloc: Global,
    manager: &Manager,
    pass: Pass<Entry, Frame>,
    target: &Target,
    words: &Words,
) -> Answered
    requires { pass.lock ≡ manager.now.turn.lock }
    ensures { result.0.lock ≡ pass.lock }
{
    manager.open_exposed(rt, alloc, pass, &mut QuietGates, target, &words.protocol)
}

/// Makes the call `route`, of the words' path.
fn route<R: Threads + Wait + Sync>(
    rt: &R,
    alloc: Global,
    manager: &Manager,
    pass: Pass<Entry, Frame>,
    target: &Target,
    words: &Words,
) -> Answered
    requires { pass.lock ≡ manager.now.turn.lock }
    ensures { result.0.lock ≡ pass.lock }
{
    manager.route(rt, alloc, pass, &mut QuietGates, target, &words.path)
}

/// Makes the call `show`.
fn show<R: Threads + Wait + Sync>(
    rt: &R,
    alloc: Global,
    manager: &Manager,
    pass: Pass<Entry, Frame>,
    target: &Target,
) -> Answered
    requires { pass.lock ≡ manager.now.turn.lock }
    ensures { result.0.lock ≡ pass.lock }
{
    manager.show(rt, alloc, pass, &mut QuietGates, target)
}

/// Makes the call `survey`.
fn survey<R: Threads + Wait + Sync>(
    rt: &R,
    alloc: Global,
    manager: &Manager,
    pass: Pass<Entry, Frame>,
    target: &Target,
) -> Answered
    requires { pass.lock ≡ manager.now.turn.lock }
    ensures { result.0.lock ≡ pass.lock }
{
    manager.survey(rt, alloc, pass, &mut QuietGates, target)
}

/// Makes the call `doctor`.
fn doctor<R: Threads + Wait + Sync>(
    rt: &R,
    alloc: Global,
    manager: &Manager,
    pass: Pass<Entry, Frame>,
    target: &Target,
) -> Answered
    requires { pass.lock ≡ manager.now.turn.lock }
    ensures { result.0.lock ≡ pass.lock }
{
    manager.doctor(rt, alloc, pass, &mut QuietGates, target)
}

/// Makes the call `exited`.
fn exited<R: Threads + Wait + Sync>(
    rt: &R,
    alloc: Global,
    manager: &Manager,
    pass: Pass<Entry, Frame>,
    target: &Target,
) -> Answered
    requires { pass.lock ≡ manager.now.turn.lock }
    ensures { result.0.lock ≡ pass.lock }
{
    manager.exited(rt, alloc, pass, &mut QuietGates, target)
}

/// Makes the call `events`, from the first entry on.
fn events<R: Threads + Wait + Sync>(
    rt: &R,
    alloc: Global,
    manager: &Manager,
    pass: Pass<Entry, Frame>,
    target: &Target,
) -> Answered
    requires { pass.lock ≡ manager.now.turn.lock }
    ensures { result.0.lock ≡ pass.lock }
{
    manager.events(rt, alloc, pass, &mut QuietGates, target, 0)
}

/// Makes the call of a name. A name that no call has is answered as out of memory.
pub fn call<R: Threads + Wait + Sync>(
    rt: &R,
    alloc: Global,
    manager: &Manager,
    pass: Pass<Entry, Frame>,
    name: &str,
    target: &Target,
    words: &Words,
) -> Answered
    requires { pass.lock ≡ manager.now.turn.lock }
    ensures { result.0.lock ≡ pass.lock }
{
    match name {
        "resolve" => resolve(rt, alloc, manager, pass, target),
        "start" => start(rt, alloc, manager, pass, target),
        "stop" => stop(rt, alloc, manager, pass, target),
        "shutdown" => shutdown(rt, alloc, manager, pass, target),
        "create_child" => create_child(rt, alloc, manager, pass, target, words),
        "destroy_child" => destroy_child(rt, alloc, manager, pass, target),
        "list_children" => list_children(rt, alloc, manager, pass, target, words),
        "open_use" => open_use(rt, alloc, manager, pass, target, words),
        "open_exposed" => open_exposed(rt, alloc, manager, pass, target, words),
        "route" => route(rt, alloc, manager, pass, target, words),
        "show" => show(rt, alloc, manager, pass, target),
        "survey" => survey(rt, alloc, manager, pass, target),
        "doctor" => doctor(rt, alloc, manager, pass, target),
        "exited" => exited(rt, alloc, manager, pass, target),
        "events" => events(rt, alloc, manager, pass, target),
        _ => (pass, Err(Refusal::Memory)),
    }
}
