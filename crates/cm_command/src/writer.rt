//! Writing commands.

ghost use Rattle.std.specs.Prelude.{◌≡◌, ◌++◌, ◌∷◌, codes, flat_map, IfOk, OnOk};
ghost use Rattle.std.specs.List.{join_with_byte};
ghost use Rattle.cm_command.specs.declared.command.Command.TheVariants as asked;
ghost use Rattle.cm_command.specs.Written as spec;
ghost use Rattle.cm_command.specs.WrittenInside as spec_inside;

use crate::Command;
use cm_decl::{Give, Origin};
use cm_names::{Availability, Dependency, List, Memory, Name, Text};
use cm_world::Target;
use std::alloc::Global;

/// The line that asks for the command. What is a default is left out.
///
/// It is the line of any command: for one whose monikers, URL and gives are in the grammar,
/// [`crate::read_command`] gives the command back. `Err` where memory runs out.
pub fn write_command(alloc: Global, command: &Command) -> Result<Text, Memory>
    ensures { IfOk result (λ text. text ≡ spec_inside.command_text command.now) }
{
    match command {
        Command::Resolve(target) => with_target(alloc, "resolve", target),
        Command::Start(target) => with_target(alloc, "start", target),
        Command::Stop(target) => with_target(alloc, "stop", target),
        Command::Shutdown(target) => with_target(alloc, "shutdown", target),
        Command::Create {
            parent,
            coll,
            name,
            url,
            gives,
        } => write_create(alloc, parent, coll, name, url, gives),
        Command::Destroy(target) => with_target(alloc, "destroy", target),
        Command::ListChildren { target, coll } => with_word(alloc, "list", target, coll.as_str()),
        Command::OpenUse { target, path } => with_word(alloc, "open", target, path.as_str()),
        Command::OpenExposed { target, name } => {
            with_word(alloc, "open-exposed", target, name.as_str())
        }
        Command::RouteOf { target, path } => with_word(alloc, "route", target, path.as_str()),
        Command::Doctor(target) => with_target(alloc, "doctor", target),
        Command::Show(target) => with_target(alloc, "show", target),
        Command::Survey(target) => with_target(alloc, "survey", target),
        Command::Exited(target) => with_target(alloc, "exited", target),
        Command::Events { target, from } => write_events(alloc, target, *from),
    }
}

/// The line of the command `events`. `Err` where memory runs out.
fn write_events(alloc: Global, target: &Target, from: u64) -> Result<Text, Memory>
    ensures { IfOk result (λ text. text ≡ spec_inside.command_text (asked.Events target.now from)) }
{
    let mut text = with_target(alloc, "events", target)?;
    text.push_str(" ")?;
    text.push(from)?;
    Ok(text)
}

/// The line of the command `create`. `Err` where memory runs out.
fn write_create(
    alloc: Global,
    parent: &Target,
    coll: &Name,
    name: &Name,
    url: &Text,
    gives: &List<Give>,
) -> Result<Text, Memory>
    ensures { IfOk result (λ text. text ≡ spec_inside.command_text
        (asked.Create parent.now coll.now name.now url.now gives.now)) }
{
    let mut text = with_word(alloc, "create", parent, coll.as_str())?;
    push_word(&mut text, name.as_str())?;
    push_word(&mut text, url.as_str())?;
    push_gives(alloc, &mut text, gives)?;
    Ok(text)
}

/// Adds a space and the word to the line. `Err` where memory runs out.
fn push_word(text: &mut Text, word: &str) -> Result<(), Memory>
    ensures { OnOk result (text.new ≡ text.old ++ codes " " ++ word.now) }
{
    text.push_str(" ")?;
    text.push_str(word)
}

/// The text of a target: a moniker, or `@` and the number of an incarnation.
pub fn target_text(alloc: Global, target: &Target) -> Result<Text, Memory>
    ensures { IfOk result (λ text. text ≡ spec.target_text target.now) }
{
    match target {
        Target::Named(moniker) => moniker.write(alloc),
        Target::Inc(incarnation) => {
            let mut text = Text::from_str(alloc, "@")?;
            text.push(*incarnation)?;
            Ok(text)
        }
    }
}

/// The line of a verb and a target.
fn with_target(alloc: Global, verb: &str, target: &Target) -> Result<Text, Memory>
    ensures { IfOk result (λ text. text ≡ verb.now ++ codes " " ++ spec.target_text target.now) }
{
    let mut text = Text::from_str(alloc, verb)?;
    let target = target_text(alloc, target)?;
    push_word(&mut text, target.as_str())?;
    Ok(text)
}

/// The line of a verb, a target and one word.
fn with_word(alloc: Global, verb: &str, target: &Target, word: &str) -> Result<Text, Memory>
    ensures { IfOk result
        (λ text. text
        ≡ verb.now ++ codes " " ++ spec.target_text target.now ++ codes " " ++ word.now) }
{
    let mut text = with_target(alloc, verb, target)?;
    push_word(&mut text, word)?;
    Ok(text)
}

/// Puts what is offered at the end, as a `create` has it: the words of each group, each after a
/// space. What is a default is left out. `Err` where memory runs out.
pub fn push_gives(alloc: Global, text: &mut Text, gives: &List<Give>) -> Result<(), Memory>
    ensures { OnOk result (text.new ≡ text.old
        ++ flat_map spec.spaced (flat_map spec.give_words gives.now)) }
{
    for give in gives.as_slice() {
        push_give(alloc, text, give)?;
    }
    Ok(())
}

/// Adds the words of one group to the line. `Err` where memory runs out.
fn push_give(alloc: Global, text: &mut Text, give: &Give) -> Result<(), Memory>
    ensures { OnOk result (text.new ≡ text.old ++ flat_map spec.spaced (spec.give_words give.now)) }
{
    push_word(text, "+")?;
    text.push_str(" ")?;
    text.push(give.kind)?;
    push_word(text, give.source_name.as_str())?;
    push_origin(text, &give.from)?;
    push_target(text, give)?;
    push_parts(alloc, text, give)?;
    push_words(text, give)?;
    Ok(())
}

/// A space and the text of an origin.
fn push_origin(text: &mut Text, origin: &Origin) -> Result<(), Memory>
    ensures { OnOk result (text.new ≡ text.old ++ codes " " ++ spec.origin_text origin.now) }
{
    match origin {
        Origin::Parent => text.push_str(" parent"),
        Origin::Own => text.push_str(" self"),
        Origin::Framework => text.push_str(" framework"),
        Origin::Void => text.push_str(" void"),
        Origin::Child(child) => {
            text.push_str(" #")?;
            if let Some(coll) = &child.coll {
                text.push_str(coll.as_str())?;
                text.push_str(":")?;
            }
            text.push_str(child.name.as_str())
        }
    }
}

/// The word of the name at the target, where it isn't that at the source.
fn push_target(text: &mut Text, give: &Give) -> Result<(), Memory>
    ensures { OnOk result (text.new ≡ text.old ++ flat_map spec.spaced
        (spec.target_word give.now)) }
{
    if give.target_name.as_str() != give.source_name.as_str() {
        text.push_str(" as=")?;
        text.push_str(give.target_name.as_str())?;
    }
    Ok(())
}

/// The words of the rights and of the subdirectory, where they are stated.
fn push_parts(alloc: Global, text: &mut Text, give: &Give) -> Result<(), Memory>
    ensures { OnOk result (text.new ≡ text.old ++ flat_map spec.spaced
        (spec.rights_word give.now.rights) ++ flat_map spec.spaced
        (spec.subdir_word give.now.subdir)) }
{
    if let Some(rights) = give.rights {
        text.push_str(" rights=")?;
        let rights = rights.text(alloc)?;
        text.push_str(rights.as_str())?;
    }
    if let Some(subdir) = &give.subdir {
        text.push_str(" subdir=")?;
        text.push_str(subdir.as_str())?;
    }
    Ok(())
}

/// Appends the word of the dependency and that of the availability, each after a space, unless it is
/// the default.
fn push_words(text: &mut Text, give: &Give) -> Result<(), Memory>
    ensures { OnOk result (text.new ≡ text.old ++ flat_map spec.spaced
        (spec.dependency_word give.now.dependency) ++ flat_map spec.spaced
        (spec.availability_word give.now.availability)) }
{
    push_dependency(text, give.dependency)?;
    push_availability(text, give.availability)
}

/// A space and the word of the dependency, or nothing where it is the default.
fn push_dependency(text: &mut Text, dependency: Dependency) -> Result<(), Memory>
    ensures { OnOk result (text.new ≡ text.old ++ flat_map spec.spaced
        (spec.dependency_word dependency)) }
{
    match dependency {
        Dependency::Strong => Ok(()),
        Dependency::Weak => text.push_str(" weak"),
    }
}

/// A space and the word of the availability, or nothing where it is the default.
fn push_availability(text: &mut Text, availability: Availability) -> Result<(), Memory>
    ensures { OnOk result (text.new ≡ text.old ++ flat_map spec.spaced
        (spec.availability_word availability)) }
{
    match availability {
        Availability::Required => Ok(()),
        Availability::Optional => text.push_str(" optional"),
        Availability::Transitional => text.push_str(" transitional"),
        Availability::SameAsTarget => text.push_str(" same_as_target"),
    }
}

/// Law: the line that a command in the grammar is written as asks for it. So what
/// [`crate::read_command`] gives for it is the command, since a line asks for one at most.
pub fn writes_its_line()
    ensures { spec_inside.WritesItsLine }
{}

/// Law: what a line asks for is a command in the grammar. So whatever [`crate::read_command`] gives
/// is written as a line that asks for it again.
pub fn what_is_read_is_writable()
    ensures { spec_inside.WhatIsReadIsWritable }
{}
