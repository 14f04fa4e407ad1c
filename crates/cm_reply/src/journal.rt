//! The journal.

ghost use Rattle.std.specs.Prelude.{◌≡◌, ◌++◌, flat_map, IfOk, OnOk};
ghost use Rattle.cm_reply.specs.Lists.{when_some};
ghost use Rattle.cm_reply.specs.ListsInside.{GainsText};
ghost use Rattle.cm_reply.specs.Journal as spec;

use crate::events::push_event;
use crate::lists::{push, push_value, roomy};
use crate::replies::push_replied;
use cm_decl::Kind;
use cm_names::{Memory, Rights, Text};
use cm_world::{Builtin, Entry, Frame};
use std::alloc::Global;

/// The lines that a journal begins with, each with its line feed: `journal`, a line for each
/// builtin capability in their order, and `root URL`.
///
/// The builtin lines are `builtin protocol NAME` and `builtin directory NAME PATH RIGHTS`, with
/// the names of the single rights joined by commas. The path of a protocol isn't written. A
/// directory without rights is written without them. The journal is this project's own.
///
/// `Err` where memory runs out.
pub fn header_text(alloc: Global, frame: &Frame) -> Result<Text, Memory>
    ensures { IfOk result (λ text. text ≡ spec.header_text frame.now) }
{
    let root = &frame.root;
    let mut text = roomy(alloc)?;
    push(&mut text, "journal\n")?;
    push_builtins(&mut text, frame.builtins.as_slice())?;
    push_value(&mut text, format_args!("root {root}\n"))?;
    Text::from_string(text)
}

/// An entry of a history as a journal has it, without a line feed:
/// `NUMBER CALLER EVENT => REPLY`. The first entry has the number 1.
///
/// | event | text |
/// |---|---|
/// | `Find` | `find MONIKER` |
/// | `Begin` | `begin KIND N`, where KIND is `resolve`, `start` or `stop` |
/// | `End` | `end ACTION OUTCOME`; where it resolved `end ACTION resolved URL DECLARATION` |
/// | `Await` | `await ACTION` |
/// | `Create` | `create N COLLECTION NAME URL`, and what is offered as a command writes it |
/// | `Mark` | `mark closing N`, `mark doomed N` |
/// | `Pick`, `Purge` | `pick N`, `purge N` |
/// | `Route`, `OpenUse`, `OpenExposed` | `route N PATH`, `open N PATH`, `open-exposed N NAME` |
/// | `Listing`, `Show`, `Survey` | `list N COLLECTION`, `show N`, `survey N` |
/// | `Exited`, `Tail`, `Reap` | `exited N`, `tail N FROM`, `reap N` |
///
/// | reply | text |
/// |---|---|
/// | `Found`, `Need`, `Shut`, `Gone`, `NotFound` | `found N` and so on; `not-found MONIKER` |
/// | `Begun`, `Joined` | `begun ACTION`, `joined ACTION` |
/// | `Already`, `Ended` | `already`, `ended OUTCOME` |
/// | `Created`, `Closing`, `Exists`, `Full` | `created N`, `closing N`, `exists N`, `full` |
/// | `NoCollection`, `OffersRefused` | `no-collection`, `offers-refused` |
/// | `BadOffer`, `Cycle` | `bad-offer INDEX NUMBER`, `cycle NODE NODE` with all nodes |
/// | `Marked`, `NotDynamic`, `Done` | `marked`, `not-dynamic`, `done` |
/// | `Stopping`, `ShutDown` | `stopping N ACTION`, `shutdown N` |
/// | `Purged`, `PurgedBefore` | `purged COUNT`, `purged-before` |
/// | `NoSuchUse`, `ClientOff` | `no-such-use`, `client-off` |
/// | `SourceShut`, `NeedStart` | `source-shut N`, `need-start N` |
/// | `Failed`, `Void` | `failed WHY at HOP`, `void at HOP` |
/// | `Given`, `Opened` | `given` or `opened`, then `PATH at SOURCE` and so on, as in a route |
/// | `Listed`, `Surveyed` | `listed COUNT`, `surveyed COUNT`, then ` [ITEM]` each |
/// | `Shown`, `Left`, `Tailed` | `shown STATE`, `left`, `tailed COUNT` |
/// | `Reaping` | `reaping`, then ` N` each |
///
/// N is the incarnation of an instance. The declaration is written as [`cm_read::write_decl`]
/// does; hops, states and items as in an answer ([`crate::reply_text`]). WHY is `no-offer`,
/// `no-expose`, `no-instance`, `no-builtin`, `availability-too-weak` or `rights-too-weak`. OUTCOME
/// is `resolved`, `started`, `stopped`, `killed`, `absent`, `bad-url`,
/// `invalid NUMBER SECTION INDEX`, `declined`, `gate-failed`, `full` or `no-memory`.
///
/// `Err` where memory runs out. It takes time and memory in proportion to the text.
pub fn entry_text(alloc: Global, number: u64, entry: &Entry) -> Result<Text, Memory>
    ensures { IfOk result (λ text. text ≡ spec.entry_text number entry.now) }
{
    let mut text = roomy(alloc)?;
    push_entry(&mut text, number, entry)?;
    Text::from_string(text)
}

/// Puts an entry of a history at the end, as [`entry_text`] writes it. `Err` where memory runs out;
/// a prefix of it may stand there then.
pub fn push_entry(text: &mut String, number: u64, entry: &Entry) -> Result<(), Memory>
    ensures { OnOk result (GainsText text.old text.new (spec.entry_text number entry.now)) }
{
    let caller = entry.caller;
    push_value(text, format_args!("{number} {caller} "))?;
    push_event(text, &entry.event)?;
    push(text, " => ")?;
    push_replied(text, &entry.reply)
}

/// Puts a line for each builtin capability at the end.
fn push_builtins(text: &mut String, builtins: &[Builtin]) -> Result<(), Memory>
    ensures { OnOk result (GainsText text.old text.new (flat_map spec.builtin_line builtins.now)) }
{
    for builtin in builtins {
        push_builtin(text, builtin)?;
        push(text, "\n")?;
    }
    Ok(())
}

/// The line of a builtin capability, without a line feed, as [`header_text`] has it. `Err` where memory
/// runs out.
pub fn builtin_text(alloc: Global, builtin: &Builtin) -> Result<Text, Memory>
    ensures { IfOk result (λ text. text ≡ spec.builtin_text builtin.now) }
{
    let mut text = roomy(alloc)?;
    push_builtin(&mut text, builtin)?;
    Text::from_string(text)
}

/// Puts the builtin capability at the end, as its line says it.
fn push_builtin(text: &mut String, builtin: &Builtin) -> Result<(), Memory>
    ensures { OnOk result (GainsText text.old text.new (spec.builtin_text builtin.now)) }
{
    push(text, "builtin ")?;
    push_words(text, builtin)
}

/// Puts the builtin capability at the end, after its first word.
fn push_words(text: &mut String, builtin: &Builtin) -> Result<(), Memory>
    ensures { OnOk result (GainsText text.old text.new
        (spec.builtin_words builtin.now.kind builtin.now)) }
{
    match builtin.kind {
        Kind::Protocol => {
            push(text, "protocol ")?;
            push(text, builtin.name.as_str())
        }
        Kind::Directory => {
            push(text, "directory ")?;
            push(text, builtin.name.as_str())?;
            push(text, " ")?;
            push_served(text, builtin)
        }
    }
}

/// Puts the path of a directory at the end, and its rights after a space, where it has some.
fn push_served(text: &mut String, builtin: &Builtin) -> Result<(), Memory>
    ensures { OnOk result (GainsText text.old text.new
        (builtin.now.path ++ when_some spec.provided_rights builtin.now.rights)) }
{
    push(text, builtin.path.as_str())?;
    push_provided(text, builtin.rights)
}

/// Puts the rights of a directory at the end, after a space; nothing where it has none.
fn push_provided(text: &mut String, rights: Option<Rights>) -> Result<(), Memory>
    ensures { OnOk result (GainsText text.old text.new (when_some spec.provided_rights rights)) }
{
    match rights {
        None => Ok(()),
        Some(rights) => {
            let words = rights.text(*text.allocator())?;
            push_value(text, format_args!(" {words}"))
        }
    }
}
