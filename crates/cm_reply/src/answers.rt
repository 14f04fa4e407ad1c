//! The texts of answers to commands.

ghost use Rattle.std.specs.Prelude.{◌≡◌, ◌++◌, codes, IfOk, OnOk};
ghost use Rattle.cm_world.specs.declared.answer.Answer.TheVariants as answer;
ghost use Rattle.cm_command.specs.Written as written;
ghost use Rattle.cm_reply.specs.ListsInside.{GainsText};
ghost use Rattle.cm_reply.specs.States.{incarnation_text, look_text};
ghost use Rattle.cm_reply.specs.Answers as spec;

use crate::lists::{ListItem, push, push_each, push_moniker, push_value, roomy};
use crate::refusals::push_refusal;
use crate::routes::{push_place, push_route};
use crate::states::{push_look, when};
use crate::words::{push_incarnation, push_number};
use cm_command::Command;
use cm_names::{CapPath, Memory, Shared, Text};
use cm_world::{Answer, Checked, Happening, Kid, Look, Refusal, Route, Target};
use std::alloc::Global;

/// The text of the answer to the command, or of why it was refused.
///
/// T stands for the instance as the command names it: its moniker, or `@` and its incarnation.
///
/// | answer | text |
/// |---|---|
/// | `Resolved`, `Started` | `resolved T action A`, or `resolved T already`; `started` likewise |
/// | `Stopped` | `stopped T action A`, `stopped T by-force action A`, `stopped T already` |
/// | `Shut`, `Destroyed` | `shut T`, `destroyed T` |
/// | `Created` | `created T COLLECTION:NAME incarnation N` |
/// | `Children` | `children T COLLECTION COUNT`, then `NAME incarnation N` each |
/// | `Opened` | `opened PATH at SOURCE`, with ` rights RIGHTS` for a directory |
/// | `Routed` | `route PATH at SOURCE`, the rights likewise, then ` through HOP, HOP` |
/// | `Shown` | `shown T incarnation N url URL STATE` |
/// | `Surveyed` | `survey T COUNT`, then `MONIKER incarnation N STATE` each |
/// | `Doctored` | `doctor T COUNT`, then `MONIKER PATH ROUTE` or `MONIKER unresolved` each |
/// | `Left` | `exited T`, or `exited T already` where it was off before |
/// | `Streamed` | `events T COUNT next N`, then `NUMBER KIND MONIKER incarnation N` each |
///
/// SOURCE is `MONIKER incarnation N`, `framework` or `builtin`. HOP is `use`, `offer`, `expose`,
/// `capability`, `framework` or `builtin`, and the moniker of its instance. STATE is `resolved` or
/// `unresolved`, `on` or `off`, then `closing`, `shut` and `pending KIND` where that is so; a
/// survey leaves out `closing` and what is pending. KIND is `resolved`, `started`, `stopped` or
/// `destroyed`, and the N after `next` is the number of entries so far. ROUTE is the text of the
/// use's route, or of why it has none.
///
/// A refusal is `refused` and these words:
///
/// | refusal | words |
/// |---|---|
/// | `CollectionNotFound` | `60 collection-not-found` |
/// | `AlreadyExists` | `61 already-exists incarnation N` |
/// | `DynamicOffersRefused` | `62 dynamic-offers-refused` |
/// | `BadOffer` | `63 bad-offer INDEX NUMBER` |
/// | `OfferCycle` | `64 offer-cycle NODE NODE` with all nodes |
/// | `ParentClosing`, `Full` | `65 parent-closing incarnation N`, `67 full` |
/// | `NotDynamic`, `HistoryFull` | `68 not-dynamic`, `69 history-full` |
/// | `NotFound`, `Gone` | `80 not-found in MONIKER`, `81 gone incarnation N` |
/// | `Shut` | `82 shut incarnation N` |
/// | `CannotResolve` | `83 cannot-resolve action A OUTCOME` |
/// | `CannotStart` | `84 cannot-start action A OUTCOME` |
/// | `ClientOff`, `NoSuchUse` | `85 client-off`, `86 no-such-use` |
/// | `NoRoute`, `VoidSource` | `87 WHY at HOP`, `88 void at HOP` |
/// | `SourceShut`, `Memory` | `89 source-shut incarnation N`, `want-of-memory` |
///
/// WHY and OUTCOME are those of a journal ([`crate::entry_text`]). An answer that the command
/// can't have is written by its own words too: a child or a collection that the command doesn't
/// name is then left out.
///
/// What comes one each stands on a line of its own that begins with two spaces. No line feed
/// stands after the last line. `Err` where memory runs out. It takes time and memory in
/// proportion to the text.
pub fn reply_text(
    alloc: Global,
    command: &Command,
    reply: &Result<Answer, Refusal>,
) -> Result<Text, Memory>
    ensures { IfOk result (λ text. text ≡ spec.reply_text command.now reply.now) }
{
    let mut text = roomy(alloc)?;
    push_reply(&mut text, command, reply)?;
    Text::from_string(text)
}

/// Puts the answer to the command, or why it was refused, at the end, as [`reply_text`] writes it.
/// `Err` where memory runs out; how much of it stands there then isn't told.
pub fn push_reply(
    text: &mut String,
    command: &Command,
    reply: &Result<Answer, Refusal>,
) -> Result<(), Memory>
    ensures { OnOk result (GainsText text.old text.new (spec.reply_text command.now reply.now)) }
{
    match reply {
        Ok(answer) => push_answer(text, command, answer),
        Err(refusal) => push_refusal(text, refusal),
    }
}

/// Puts the answer to the command at the end.
fn push_answer(text: &mut String, command: &Command, answer: &Answer) -> Result<(), Memory>
    ensures { OnOk result (GainsText text.old text.new (spec.answer_text command.now answer.now)) }
{
    match answer {
        Answer::Resolved(action) => push_done(text, "resolved", command, *action),
        Answer::Started(action) => push_done(text, "started", command, *action),
        Answer::Stopped(action, forced) => push_stopped(text, command, *action, *forced),
        Answer::Shut => push_of_target(text, "shut", command),
        Answer::Created(inc) => push_created(text, command, *inc),
        Answer::Destroyed => push_of_target(text, "destroyed", command),
        Answer::Children(kids) => push_children(text, command, kids.get().as_slice()),
        Answer::Opened(route) => {
            push(text, "opened ")?;
            push_place(text, route.get())
        }
        Answer::Routed(route) => {
            push(text, "route ")?;
            push_route(text, route.get())
        }
        Answer::Shown(look) => push_shown(text, command, look),
        Answer::Surveyed(rows) => push_listing(text, "survey", command, rows.get().as_slice()),
        Answer::Doctored(lines) => push_listing(text, "doctor", command, lines.as_slice()),
        Answer::Left(was_on) => {
            push_of_target(text, "exited", command)?;
            push(text, when(!*was_on, " already"))
        }
        Answer::Streamed(next, told) => push_streamed(text, command, *next, told.as_slice()),
    }
}

/// The instance that the command names.
fn target_of(command: &Command) -> &Target
    ensures { result.now ≡ spec.target_of command.now }
{
    match command {
        Command::Resolve(target) => target,
        Command::Start(target) => target,
        Command::Stop(target) => target,
        Command::Shutdown(target) => target,
        Command::Create { parent, .. } => parent,
        Command::Destroy(target) => target,
        Command::ListChildren { target, .. } => target,
        Command::OpenUse { target, .. } => target,
        Command::OpenExposed { target, .. } => target,
        Command::RouteOf { target, .. } => target,
        Command::Doctor(target) => target,
        Command::Show(target) => target,
        Command::Survey(target) => target,
        Command::Exited(target) => target,
        Command::Events { target, .. } => target,
    }
}

/// Puts the instance that a target names at the end, as a command writes it.
fn push_target(text: &mut String, target: &Target) -> Result<(), Memory>
    ensures { OnOk result (GainsText text.old text.new (written.target_text target.now)) }
{
    match target {
        Target::Named(moniker) => push_moniker(text, moniker),
        Target::Inc(inc) => push_value(text, format_args!("@{inc}")),
    }
}

/// Puts the word at the end, and the instance as the command names it.
fn push_of_target(text: &mut String, word: &str, command: &Command) -> Result<(), Memory>
    ensures { OnOk result (GainsText text.old text.new (spec.of_target word.now command.now)) }
{
    push(text, word)?;
    push(text, " ")?;
    push_target(text, target_of(command))
}

/// Puts the action that did it at the end, or that it was so before.
fn push_done_by(text: &mut String, action: Option<u64>) -> Result<(), Memory>
    ensures { OnOk result (GainsText text.old text.new (spec.done_by action)) }
{
    match action {
        None => push(text, " already"),
        Some(action) => push_number(text, " action", action),
    }
}

/// Puts the word, the instance, and what did it at the end.
fn push_done(
    text: &mut String,
    word: &str,
    command: &Command,
    action: Option<u64>,
) -> Result<(), Memory>
    ensures { OnOk result (GainsText text.old text.new
        (spec.of_target word.now command.now ++ spec.done_by action)) }
{
    push_of_target(text, word, command)?;
    push_done_by(text, action)
}

/// Puts at the end that the instance is stopped.
fn push_stopped(
    text: &mut String,
    command: &Command,
    action: Option<u64>,
    forced: bool,
) -> Result<(), Memory>
    ensures { OnOk result (GainsText text.old text.new
        (spec.answer_text command.now (answer.Stopped action forced))) }
{
    push_of_target(text, "stopped", command)?;
    push(text, when(forced, " by-force"))?;
    push_done_by(text, action)
}

/// Puts the child that the command creates at the end, with its collection; nothing for any other
/// command.
fn push_child_of(text: &mut String, command: &Command) -> Result<(), Memory>
    ensures { OnOk result (GainsText text.old text.new (spec.child_of command.now)) }
{
    match command {
        Command::Create { coll, name, .. } => push_value(text, format_args!("{coll}:{name}")),
        _ => Ok(()),
    }
}

/// Puts the collection whose children the command lists at the end; nothing for any other command.
fn push_collection(text: &mut String, command: &Command) -> Result<(), Memory>
    ensures { OnOk result (GainsText text.old text.new (spec.collection_of command.now)) }
{
    match command {
        Command::ListChildren { coll, .. } => push(text, coll.as_str()),
        _ => Ok(()),
    }
}

/// Puts at the end that the child was created which the command names.
fn push_created(text: &mut String, command: &Command, inc: u64) -> Result<(), Memory>
    ensures { OnOk result (GainsText text.old text.new
        (spec.answer_text command.now (answer.Created inc))) }
{
    push_of_target(text, "created", command)?;
    push(text, " ")?;
    push_child_of(text, command)?;
    push_incarnation(text, inc)
}

/// Puts the children of the collection that the command names at the end.
fn push_children(text: &mut String, command: &Command, kids: &[Kid]) -> Result<(), Memory>
    ensures { OnOk result (GainsText text.old text.new
        (spec.answer_text command.now (answer.Children kids.now))) }
{
    push_of_target(text, "children", command)?;
    push(text, " ")?;
    push_collection(text, command)?;
    push_counted(text, kids)
}

/// Puts ` incarnation INC url URL` at the end, of the instance that `show` tells of.
fn push_url(text: &mut String, look: &Look) -> Result<(), Memory>
    ensures { OnOk result (GainsText text.old text.new
        (incarnation_text look.now.inc ++ (codes " url " ++ look.now.url))) }
{
    push_incarnation(text, look.inc)?;
    push(text, " url ")?;
    push(text, look.url.as_str())
}

/// Puts the number of the instance, its URL and how it is at the end.
fn push_standing(text: &mut String, look: &Look) -> Result<(), Memory>
    ensures { OnOk result (GainsText text.old text.new (incarnation_text look.now.inc
        ++ (codes " url " ++ (look.now.url ++ (codes " " ++ look_text look.now))))) }
{
    push_url(text, look)?;
    push(text, " ")?;
    push_look(text, look)
}

/// Puts at the end how the instance is.
fn push_shown(text: &mut String, command: &Command, look: &Look) -> Result<(), Memory>
    ensures { OnOk result (GainsText text.old text.new
        (spec.answer_text command.now (answer.Shown look.now))) }
{
    push_of_target(text, "shown", command)?;
    push_standing(text, look)
}

/// Puts what happened at the end, each on a line of its own, with where the reading goes on.
fn push_streamed(
    text: &mut String,
    command: &Command,
    next: u64,
    told: &[Happening],
) -> Result<(), Memory>
    ensures { OnOk result (GainsText text.old text.new
        (spec.answer_text command.now (answer.Streamed next told.now))) }
{
    push_of_target(text, "events", command)?;
    let count = told.len();
    push_value(text, format_args!(" {count}"))?;
    push_number(text, " next", next)?;
    push_each(text, "\n  ", told)
}

/// Puts at the end how many items there are, and each on a line of its own.
fn push_counted<T: ListItem>(text: &mut String, items: &[T]) -> Result<(), Memory>
    ensures { OnOk result (GainsText text.old text.new (spec.counted T.written items.now)) }
{
    let count = items.len();
    push_value(text, format_args!(" {count}"))?;
    push_each(text, "\n  ", items)
}

/// Puts the word, the instance, how many items there are, and each on a line of its own at the end.
fn push_listing<T: ListItem>(
    text: &mut String,
    word: &str,
    command: &Command,
    items: &[T],
) -> Result<(), Memory>
    ensures { OnOk result (GainsText text.old text.new
        (spec.of_target word.now command.now ++ spec.counted T.written items.now)) }
{
    push_of_target(text, word, command)?;
    push_counted(text, items)
}

/// It is written as `MONIKER PATH` and the text of its route or refusal, or as
/// `MONIKER unresolved`.
impl ListItem for Checked {
    ghost use Rattle.cm_reply.specs.Answers.{checked_text};

    ghost written = { checked_text };

    /// A line of `doctor`: the moniker, and what is said of the instance or of one of its uses.
    fn push_to(&self, text: &mut String) -> Result<(), Memory> {
        push_moniker(text, &self.moniker)?;
        push(text, " ")?;
        push_checked(text, &self.path, &self.result)
    }
}

/// Puts the path of a use, and its route or why it has none, at the end.
fn push_checked(
    text: &mut String,
    path: &Option<CapPath>,
    found: &Result<Shared<Route>, Refusal>,
) -> Result<(), Memory>
    ensures { OnOk result (GainsText text.old text.new (spec.checked_words path.now found.now)) }
{
    let Some(path) = path else {
        return push(text, "unresolved");
    };
    push(text, path.as_str())?;
    push(text, " ")?;
    push_found(text, found)
}

/// Puts the route of a use, or why it has none, at the end.
fn push_found(text: &mut String, found: &Result<Shared<Route>, Refusal>) -> Result<(), Memory>
    ensures { OnOk result (GainsText text.old text.new (spec.found_text found.now)) }
{
    match found {
        Ok(route) => {
            push(text, "route ")?;
            push_route(text, route.get())
        }
        Err(refusal) => push_refusal(text, refusal),
    }
}
