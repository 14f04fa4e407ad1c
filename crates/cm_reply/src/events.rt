//! The texts of events.

ghost use Rattle.std.specs.Prelude.{OnOk};
ghost use Rattle.cm_world.specs.declared.event.Event.TheVariants as event;
ghost use Rattle.cm_reply.specs.ListsInside.{GainsText};
ghost use Rattle.cm_reply.specs.Events as spec;

use crate::lists::{push, push_moniker, push_value};
use crate::states::{act_word, push_outcome};
use crate::words::{push_noted, push_number, push_numbers};
use cm_command::writer::push_gives;
use cm_decl::Give;
use cm_names::{List, Memory, Text};
use cm_read::write_decl;
use cm_world::{Event, Finish, NewChild};

/// Puts the event at the end as a journal has it. `Err` where memory runs out.
pub fn push_event(text: &mut String, event: &Event) -> Result<(), Memory>
    ensures { OnOk result (GainsText text.old text.new (spec.event_text event.now)) }
{
    match event {
        Event::Find(moniker) => {
            push(text, "find ")?;
            push_moniker(text, moniker)
        }
        Event::Begin(kind, inc) => {
            push(text, "begin ")?;
            push_number(text, act_word(*kind), *inc)
        }
        Event::End(action, finish) => {
            push_number(text, "end", *action)?;
            push(text, " ")?;
            push_finish(text, finish)
        }
        Event::Await(action) => push_number(text, "await", *action),
        Event::Create(inc, child) => push_creation(text, *inc, child.get()),
        Event::Mark(true, inc) => push_number(text, "mark doomed", *inc),
        Event::Mark(false, inc) => push_number(text, "mark closing", *inc),
        Event::Pick(inc) => push_number(text, "pick", *inc),
        Event::Purge(inc) => push_number(text, "purge", *inc),
        Event::Route(inc, path) => push_noted(text, "route", *inc, path.as_str()),
        Event::OpenUse(inc, path) => push_noted(text, "open", *inc, path.as_str()),
        Event::OpenExposed(inc, name) => push_noted(text, "open-exposed", *inc, name.as_str()),
        Event::Listing(inc, coll) => push_noted(text, "list", *inc, coll.as_str()),
        Event::Show(inc) => push_number(text, "show", *inc),
        Event::Survey(inc) => push_number(text, "survey", *inc),
        Event::Exited(inc) => push_number(text, "exited", *inc),
        Event::Tail(inc, from) => push_numbers(text, "tail", *inc, *from),
        Event::Reap(inc) => push_number(text, "reap", *inc),
    }
}

/// Puts the creation of a child of that instance at the end.
fn push_creation(text: &mut String, inc: u64, child: &NewChild) -> Result<(), Memory>
    ensures { OnOk result (GainsText text.old text.new (spec.event_text (event.Create inc child.now))) }
{
    let NewChild {
        coll,
        name,
        url,
        gives,
    } = child;
    push_value(text, format_args!("create {inc} {coll} {name} {url}"))?;
    push_groups(text, gives)
}

/// Puts what is offered to a created child at the end, as a command writes it.
fn push_groups(text: &mut String, gives: &List<Give>) -> Result<(), Memory>
    ensures { OnOk result (GainsText text.old text.new (spec.groups_text gives.now)) }
{
    let alloc = *text.allocator();
    let mut groups = Text::new(alloc);
    push_gives(alloc, &mut groups, gives)?;
    push(text, groups.as_str())
}

/// Puts what the beginner of an action reports at the end.
fn push_finish(text: &mut String, finish: &Finish) -> Result<(), Memory>
    ensures { OnOk result (GainsText text.old text.new (spec.finish_text finish.now)) }
{
    match finish {
        Finish::Resolved(url, decl) => {
            let decl = write_decl(*text.allocator(), decl.get())?;
            push_value(text, format_args!("resolved {url} {decl}"))
        }
        Finish::Other(outcome) => push_outcome(text, *outcome),
    }
}
