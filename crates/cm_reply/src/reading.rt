//! Reading events.
//!
//! Each reader promises that whatever legible event has the text is found, or that memory ran out.

ghost use Rattle.std.specs.Prelude.{◌≡◌, ◌++◌, ℕ, codes, IfOk, MatchResult};
ghost use Rattle.cm_world.specs.declared.event.Event.{Event as OneEvent};
ghost use Rattle.cm_world.specs.declared.event.Target.TheVariants.{Inc};
ghost use Rattle.cm_command.specs.declared.command.Command.{Command as OneCommand};
ghost use Rattle.cm_command.specs.Grammar.{CommandText};
ghost use Rattle.cm_reply.specs.Events.{event_text};
ghost use Rattle.cm_reply.specs.Legible.{IsLegible};
ghost use Rattle.cm_reply.specs.Reading.{FindsEvent, FindsAsked, IsAskable, IsCreatedIn, IsOr};
ghost use Rattle.cm_reply.specs.declared.event_words.EventWord.TheVariants as word;

use crate::entry_words::{
    EntryFault, kind_of, mark_of, moniker, number, numbered, numbered_name, numbered_path, short,
};
use crate::event_words::{EventWord, event_word};
use crate::outcome_words::finish;
use cm_command::words::cut;
use cm_command::{Command, CommandFault, read_command};
use cm_names::{Boxed, Bytes, List};
use cm_world::{Event, NewChild, Target};
use std::alloc::Global;

/// The most bytes that are read after the word `create`: with `create @` in front they are fewer than
/// 2^32, as those of a command have to be.
const MOST_OF_CREATE: usize = 4_294_967_287;

/// What stands before the arrow of a journal's line.
#[derive(Drop)]
pub struct Asked {
    /// The number of the entry.
    pub number: u64,
    /// The number of the caller.
    pub caller: u32,
    /// The event.
    pub event: Event,
}

/// `find MONIKER`, after its word.
fn find(alloc: Global, rest: &[u8]) -> Result<Event, EntryFault>
    ensures legible { IfOk result IsLegible }
    ensures finds { FindsEvent word.Find rest.now result }
{
    Ok(Event::Find(moniker(alloc, rest)?))
}

/// `await ACTION`, after its word.
fn await_end(rest: &[u8]) -> Result<Event, EntryFault>
    ensures legible { IfOk result IsLegible }
    ensures finds { FindsEvent word.Await rest.now result }
{
    Ok(Event::Await(number(rest)?))
}

/// `pick N`, after its word.
fn pick(rest: &[u8]) -> Result<Event, EntryFault>
    ensures legible { IfOk result IsLegible }
    ensures finds { FindsEvent word.Pick rest.now result }
{
    Ok(Event::Pick(number(rest)?))
}

/// `purge N`, after its word.
fn purge(rest: &[u8]) -> Result<Event, EntryFault>
    ensures legible { IfOk result IsLegible }
    ensures finds { FindsEvent word.Purge rest.now result }
{
    Ok(Event::Purge(number(rest)?))
}

/// `show N`, after its word.
fn show(rest: &[u8]) -> Result<Event, EntryFault>
    ensures legible { IfOk result IsLegible }
    ensures finds { FindsEvent word.Show rest.now result }
{
    Ok(Event::Show(number(rest)?))
}

/// `survey N`, after its word.
fn survey(rest: &[u8]) -> Result<Event, EntryFault>
    ensures legible { IfOk result IsLegible }
    ensures finds { FindsEvent word.Survey rest.now result }
{
    Ok(Event::Survey(number(rest)?))
}

/// `exited N`, after its word.
fn exited(rest: &[u8]) -> Result<Event, EntryFault>
    ensures legible { IfOk result IsLegible }
    ensures finds { FindsEvent word.Exited rest.now result }
{
    Ok(Event::Exited(number(rest)?))
}

/// `reap N`, after its word.
fn reap(rest: &[u8]) -> Result<Event, EntryFault>
    ensures legible { IfOk result IsLegible }
    ensures finds { FindsEvent word.Reap rest.now result }
{
    Ok(Event::Reap(number(rest)?))
}

/// `begin KIND N`, after its word.
fn begin(rest: &[u8]) -> Result<Event, EntryFault>
    ensures legible { IfOk result IsLegible }
    ensures finds { FindsEvent word.Begin rest.now result }
{
    let (first, more) = cut(rest, b' ');
    let Some(more) = more else {
        return Err(EntryFault::NotAnEntry);
    };
    let kind = match kind_of(first) {
        Ok(kind) => kind,
        Err(fault) => return Err(fault),
    };
    match number(more) {
        Ok(inc) => Ok(Event::Begin(kind, inc)),
        Err(fault) => Err(fault),
    }
}

/// `end ACTION OUTCOME`, after its word.
fn end(alloc: Global, rest: &[u8]) -> Result<Event, EntryFault>
    ensures legible { IfOk result IsLegible }
    ensures finds { FindsEvent word.End rest.now result }
{
    let (action, more) = match numbered(rest) {
        Ok(both) => both,
        Err(fault) => return Err(fault),
    };
    match finish(alloc, more) {
        Ok(finish) => Ok(Event::End(action, finish)),
        Err(fault) => Err(fault),
    }
}

/// `mark closing N` or `mark doomed N`, after its word.
fn mark(rest: &[u8]) -> Result<Event, EntryFault>
    ensures legible { IfOk result IsLegible }
    ensures finds { FindsEvent word.Mark rest.now result }
{
    let (first, more) = cut(rest, b' ');
    let Some(more) = more else {
        return Err(EntryFault::NotAnEntry);
    };
    let doomed = match mark_of(first) {
        Ok(doomed) => doomed,
        Err(fault) => return Err(fault),
    };
    match number(more) {
        Ok(inc) => Ok(Event::Mark(doomed, inc)),
        Err(fault) => Err(fault),
    }
}

/// `tail N FROM`, after its word.
fn tail(rest: &[u8]) -> Result<Event, EntryFault>
    ensures legible { IfOk result IsLegible }
    ensures finds { FindsEvent word.Tail rest.now result }
{
    let (inc, more) = match numbered(rest) {
        Ok(both) => both,
        Err(fault) => return Err(fault),
    };
    match number(more) {
        Ok(from) => Ok(Event::Tail(inc, from)),
        Err(fault) => Err(fault),
    }
}

/// The command `create @N COLLECTION NAME URL` with its groups, of what stands after `create ` in a
/// journal.
fn created_by(alloc: Global, rest: &[u8]) -> Result<Command, EntryFault>
    ensures read { IfOk result (λ command. CommandText (codes "create @" ++ rest.now) command) }
    ensures finds { (c : OneCommand) → CommandText (codes "create @" ++ rest.now) c →
        IsOr result c }
{
    if rest.len() > MOST_OF_CREATE {
        return Err(EntryFault::Memory);
    }
    let mut line: Bytes = List::new(alloc);
    line.extend_from_slice("create @".as_bytes())?;
    line.extend_from_slice(rest)?;
    match read_command(alloc, line.as_slice()) {
        Ok(command) => Ok(command),
        Err(CommandFault::BadCommand(_place)) => Err(EntryFault::NotAnEntry),
        Err(CommandFault::Memory) => Err(EntryFault::Memory),
    }
}

/// The event of a creation, if its parent is told by its number.
fn created(parent: Target, child: Boxed<NewChild>) -> Result<Event, EntryFault>
    ensures { MatchResult result (IsCreatedIn parent child) (λ e. (i : ℕ) → parent ≡ Inc i → ⊥) }
{
    match &parent {
        Target::Inc(inc) => Ok(Event::Create(*inc, child)),
        Target::Named(_moniker) => Err(EntryFault::NotAnEntry),
    }
}

/// `create N COLLECTION NAME URL` with its groups, after its word: a command has them so, with `@`
/// before the number.
fn create(alloc: Global, rest: &[u8]) -> Result<Event, EntryFault>
    ensures legible { IfOk result IsLegible }
    ensures finds { FindsEvent word.Create rest.now result }
{
    let command = match created_by(alloc, rest) {
        Ok(command) => command,
        Err(fault) => return Err(fault),
    };
    match command {
        Command::Create {
            parent,
            coll,
            name,
            url,
            gives,
        } => {
            let child = Boxed::new(
                alloc,
                NewChild {
                    coll,
                    name,
                    url,
                    gives,
                },
            )?;
            created(parent, child)
        }
        other => {
            drop(other);
            Err(EntryFault::NotAnEntry)
        }
    }
}

/// `route N PATH`, after its word.
fn route(alloc: Global, rest: &[u8]) -> Result<Event, EntryFault>
    ensures legible { IfOk result IsLegible }
    ensures finds { FindsEvent word.Route rest.now result }
{
    let (inc, path) = numbered_path(alloc, rest)?;
    Ok(Event::Route(inc, path))
}

/// `open N PATH`, after its word.
fn open_use(alloc: Global, rest: &[u8]) -> Result<Event, EntryFault>
    ensures legible { IfOk result IsLegible }
    ensures finds { FindsEvent word.Open rest.now result }
{
    let (inc, path) = numbered_path(alloc, rest)?;
    Ok(Event::OpenUse(inc, path))
}

/// `open-exposed N NAME`, after its word.
fn open_exposed(alloc: Global, rest: &[u8]) -> Result<Event, EntryFault>
    ensures legible { IfOk result IsLegible }
    ensures finds { FindsEvent word.OpenExposed rest.now result }
{
    let (inc, name) = numbered_name(alloc, rest)?;
    Ok(Event::OpenExposed(inc, name))
}

/// `list N COLLECTION`, after its word.
fn list(alloc: Global, rest: &[u8]) -> Result<Event, EntryFault>
    ensures legible { IfOk result IsLegible }
    ensures finds { FindsEvent word.List rest.now result }
{
    let (inc, coll) = numbered_name(alloc, rest)?;
    Ok(Event::Listing(inc, coll))
}

/// The event of that word, after it.
fn behind(alloc: Global, first: EventWord, rest: &[u8]) -> Result<Event, EntryFault>
    ensures legible { IfOk result IsLegible }
    ensures finds { FindsEvent first rest.now result }
{
    match first {
        EventWord::Find => find(alloc, rest),
        EventWord::Begin => begin(rest),
        EventWord::End => end(alloc, rest),
        EventWord::Await => await_end(rest),
        EventWord::Create => create(alloc, rest),
        EventWord::Mark => mark(rest),
        EventWord::Pick => pick(rest),
        EventWord::Purge => purge(rest),
        EventWord::Route => route(alloc, rest),
        EventWord::Open => open_use(alloc, rest),
        EventWord::OpenExposed => open_exposed(alloc, rest),
        EventWord::List => list(alloc, rest),
        EventWord::Show => show(rest),
        EventWord::Survey => survey(rest),
        EventWord::Exited => exited(rest),
        EventWord::Tail => tail(rest),
        EventWord::Reap => reap(rest),
    }
}

/// The event that the text may be of.
fn event(alloc: Global, text: &[u8]) -> Result<Event, EntryFault>
    ensures legible { IfOk result IsLegible }
    ensures finds { (e : OneEvent) → IsLegible e → text.now ≡ event_text e → IsOr result e }
{
    let (first, rest) = cut(text, b' ');
    let Some(rest) = rest else {
        return Err(EntryFault::NotAnEntry);
    };
    match event_word(first) {
        Some(first) => behind(alloc, first, rest),
        None => Err(EntryFault::NotAnEntry),
    }
}

/// The number, the caller and the event that the text may be of.
pub fn read_prefix(alloc: Global, text: &[u8]) -> Result<Asked, EntryFault>
    ensures askable { IfOk result IsAskable }
    ensures finds { FindsAsked text.now result }
{
    let (number, more) = match numbered(text) {
        Ok(both) => both,
        Err(fault) => return Err(fault),
    };
    let (caller, more) = match numbered(more) {
        Ok(both) => both,
        Err(fault) => return Err(fault),
    };
    let caller = match short(caller) {
        Ok(caller) => caller,
        Err(fault) => return Err(fault),
    };
    match event(alloc, more) {
        Ok(event) => Ok(Asked {
            number,
            caller,
            event,
        }),
        Err(fault) => Err(fault),
    }
}
