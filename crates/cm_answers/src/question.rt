//! What a command asks of the instance that its target names.

ghost use Rattle.std.specs.Prelude.{◌≡◌, IfOk, IfErr};
ghost use Rattle.cm_command.specs.declared.command.Command.TheVariants.{Doctor};
ghost use Rattle.cm_answers.specs.Questions.{asked_by, follow_of};

use crate::answers::{created_in, has_left};
use cm_command::Command;
use cm_steps::Request;
use cm_world::{ActKind, Refusal, Reply, Target};

/// What follows a reply.
#[derive(Clone, Copy)]
pub enum Follow {
    /// Nothing.
    Nothing,
    /// The start of this child, where it runs once.
    Start(u64),
    /// The removal of what went with this instance.
    Sweep(u64),
}

/// The target of a command, and the request that it makes of it. `Err` with the target of a check of all
/// routes, which is no request of one instance.
pub fn request_of(command: &Command) -> Result<(&Target, Request<'_>), &Target>
    ensures asks { IfOk result (λ asked. asked_by asked.0.now asked.1 ≡ command.now) }
    ensures checks { IfErr result (λ target. Doctor target.now ≡ command.now) }
{
    match command {
        Command::Resolve(target) => Ok((target, Request::Begin(ActKind::Resolve))),
        Command::Start(target) => Ok((target, Request::Begin(ActKind::Start))),
        Command::Stop(target) => Ok((target, Request::Begin(ActKind::Stop))),
        Command::Shutdown(target) => Ok((target, Request::Mark(false))),
        Command::Create {
            parent,
            coll,
            name,
            url,
            gives,
        } => Ok((parent, Request::Create(coll, name, url, gives))),
        Command::Destroy(target) => Ok((target, Request::Mark(true))),
        Command::ListChildren { target, coll } => Ok((target, Request::List(coll))),
        Command::OpenUse { target, path } => Ok((target, Request::OpenUse(path))),
        Command::OpenExposed { target, name } => Ok((target, Request::OpenExposed(name))),
        Command::RouteOf { target, path } => Ok((target, Request::Route(path))),
        Command::Doctor(target) => Err(target),
        Command::Show(target) => Ok((target, Request::Show)),
        Command::Survey(target) => Ok((target, Request::Survey)),
        Command::Exited(target) => Ok((target, Request::Exited)),
        Command::Events { target, from } => Ok((target, Request::Tail(*from))),
    }
}

/// What follows the reply to such a request.
pub fn following(request: Request<'_>, inc: u64, went: &Result<Reply, Refusal>) -> Follow
    ensures { result ≡ follow_of request.entry inc went.now }
{
    match request {
        Request::Create(_, _, _, _) => match created_in(went) {
            Some(child) => Follow::Start(child),
            None => Follow::Nothing,
        },
        Request::Exited => {
            if has_left(went) {
                Follow::Sweep(inc)
            } else {
                Follow::Nothing
            }
        }
        _ => Follow::Nothing,
    }
}
