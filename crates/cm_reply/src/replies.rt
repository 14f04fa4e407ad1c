//! The texts of replies to events.

ghost use Rattle.std.specs.Prelude.{◌≡◌, ◌++◌, length, codes, decimal, IfOk, OnOk};
ghost use Rattle.cm_reply.specs.Lists.{bracketed};
ghost use Rattle.cm_reply.specs.ListsInside.{GainsText};
ghost use Rattle.cm_reply.specs.Replies as spec;

use crate::lists::{ListItem, push, push_bracketed, push_each, push_moniker, push_value, roomy};
use crate::refusals::push_cycle;
use crate::routes::{push_failure, push_route};
use crate::states::{push_look, push_outcome};
use crate::words::{push_number, push_numbers};
use cm_names::{Memory, Text};
use cm_world::Reply;
use std::alloc::Global;

/// The reply to an event as a journal has it: what stands after ` => ` in [`crate::entry_text`]. `Err`
/// where memory runs out.
pub fn replied_text(alloc: Global, reply: &Reply) -> Result<Text, Memory>
    ensures { IfOk result (λ text. text ≡ spec.replied_text reply.now) }
{
    let mut text = roomy(alloc)?;
    push_replied(&mut text, reply)?;
    Text::from_string(text)
}

/// Puts the reply at the end as a journal has it. `Err` where memory runs out.
pub fn push_replied(text: &mut String, reply: &Reply) -> Result<(), Memory>
    ensures { OnOk result (GainsText text.old text.new (spec.replied_text reply.now)) }
{
    match reply {
        Reply::Found(inc) => push_number(text, "found", *inc),
        Reply::Need(inc) => push_number(text, "need", *inc),
        Reply::Shut(inc) => push_number(text, "shut", *inc),
        Reply::Gone(inc) => push_number(text, "gone", *inc),
        Reply::NotFound(moniker) => {
            push(text, "not-found ")?;
            push_moniker(text, moniker)
        }
        Reply::Begun(work) => push_number(text, "begun", work.get().action),
        Reply::Joined(action) => push_number(text, "joined", *action),
        Reply::Already => push(text, "already"),
        Reply::Ended(outcome) => {
            push(text, "ended ")?;
            push_outcome(text, *outcome)
        }
        Reply::Created(inc) => push_number(text, "created", *inc),
        Reply::Closing(inc) => push_number(text, "closing", *inc),
        Reply::NoCollection => push(text, "no-collection"),
        Reply::Exists(inc) => push_number(text, "exists", *inc),
        Reply::OffersRefused => push(text, "offers-refused"),
        Reply::BadOffer(index, number) => {
            push_numbers(text, "bad-offer", u64::from(*index), u64::from(*number))
        }
        Reply::Cycle(nodes) => push_cycle(text, "cycle", nodes.as_slice()),
        Reply::Full => push(text, "full"),
        Reply::Marked => push(text, "marked"),
        Reply::NotDynamic => push(text, "not-dynamic"),
        Reply::Done => push(text, "done"),
        Reply::Stopping(work) => {
            let work = work.get();
            push_numbers(text, "stopping", work.inc, work.action)
        }
        Reply::ShutDown(inc) => push_number(text, "shutdown", *inc),
        Reply::Purged(lost) => push_number(text, "purged", lost.len() as u64),
        Reply::PurgedBefore => push(text, "purged-before"),
        _ => push_other(text, reply),
    }
}

/// The number of an instance is written in decimal.
impl ListItem for u64 {
    ghost use Rattle.std.specs.Prelude.{decimal};

    ghost written = { decimal };

    /// An incarnation, in decimal digits.
    fn push_to(&self, text: &mut String) -> Result<(), Memory> {
        push_value(text, *self)
    }
}

/// Puts the reply at the end, where it is one that tells of routes, of lists and looks, of programs
/// that have ended, or of what is left to be removed.
fn push_other(text: &mut String, reply: &Reply) -> Result<(), Memory>
    ensures { OnOk result (GainsText text.old text.new (spec.other_text reply.now)) }
{
    match reply {
        Reply::NoSuchUse => push(text, "no-such-use"),
        Reply::ClientOff => push(text, "client-off"),
        Reply::SourceShut(inc) => push_number(text, "source-shut", *inc),
        Reply::NeedStart(inc) => push_number(text, "need-start", *inc),
        Reply::Failed(hop, why) => {
            push(text, "failed ")?;
            push_failure(text, hop.get(), *why)
        }
        Reply::Void(hop) => {
            push(text, "void at ")?;
            hop.get().push_to(text)
        }
        Reply::Given(route) => {
            push(text, "given ")?;
            push_route(text, route.get())
        }
        Reply::Opened(route) => {
            push(text, "opened ")?;
            push_route(text, route.get())
        }
        Reply::Listed(kids) => push_listed(text, "listed", kids.get().as_slice()),
        Reply::Shown(look) => {
            push(text, "shown ")?;
            push_look(text, look)
        }
        Reply::Surveyed(rows) => push_listed(text, "surveyed", rows.get().as_slice()),
        Reply::Left(_) => push(text, "left"),
        Reply::Tailed(count) => push_number(text, "tailed", *count),
        Reply::Reaping(incs) => {
            push(text, "reaping")?;
            push_each(text, " ", incs.as_slice())
        }
        _ => Ok(()),
    }
}

/// Puts the word, how many items there are, and each between brackets at the end.
fn push_listed<T: ListItem>(text: &mut String, word: &str, items: &[T]) -> Result<(), Memory>
    ensures { OnOk result (GainsText text.old text.new (word.now ++ (codes " "
        ++ (decimal (length items.now) ++ bracketed T.written items.now)))) }
{
    let count = items.len();
    push_value(text, format_args!("{word} {count}"))?;
    push_bracketed(text, items)
}
