//! From word to word of a line.

ghost use Rattle.std.specs.Prelude.{◌≡◌, ℕ, List as Seq, Some, IfOk, MatchOption, MatchResult};
ghost use Rattle.cm_decl.specs.declared.kind.Kind.{Kind as OneKind};
ghost use Rattle.cm_decl.specs.Words.{kind_word};
ghost use Rattle.cm_command.specs.declared.place.LineState.TheVariants as place;
ghost use Rattle.cm_command.specs.declared.place.ParsedLine.{ParsedLine as Said};
ghost use Rattle.cm_command.specs.Additions.{IsAddition};
ghost use Rattle.cm_command.specs.Counts.{CountsPrefixes, IsWordFault};
ghost use Rattle.cm_command.specs.Places as spec;
ghost use Rattle.cm_command.specs.Places.{EndsLine, IsVerbWord, IsKindWord, WordLeads, StepsFrom, verb_word};

use crate::Command;
use crate::addition::{Addition, read_addition};
use crate::place::{Creation, LineState, ParsedLine, Verb};
use crate::rights::read_rights;
use crate::tokens::{
    WordFault, read_name, read_number, read_origin, read_path, read_target, read_url, text_prefixes,
};
use crate::words::is_same;
use cm_decl::{Give, Kind, Origin};
use cm_names::{Availability, CapPath, Dependency, List, Memory, Name, Rights, Text};
use cm_world::{Builtin, Target};
use std::alloc::Global;

/// The state after one word more.
///
/// `Err(Bad)` comes where no place stands after the word, and tells how many of its prefixes some
/// word that leads on begins with. `Err(Memory)` comes where memory runs out.
pub fn step(alloc: Global, place: LineState, word: &[u8]) -> Result<LineState, WordFault>
    ensures { StepsFrom place word.now result }
{
    match place {
        LineState::Start => take_verb(word),
        LineState::Verb(verb) => take_target(alloc, verb, word),
        LineState::Listing(target) => take_listing(alloc, target, word),
        LineState::Opening(target) => take_opening(alloc, target, word),
        LineState::OpeningExposed(target) => take_opening_exposed(alloc, target, word),
        LineState::Routing(target) => take_routing(alloc, target, word),
        LineState::Streaming(target) => take_streaming(target, word),
        LineState::Creating(parent) => take_collection(alloc, parent, word),
        LineState::CreatingIn(parent, coll) => take_child(alloc, parent, coll, word),
        LineState::CreatingNamed(parent, coll, name) => take_url(alloc, parent, coll, name, word),
        LineState::Groups(creation) => take_group(creation, word),
        LineState::GroupKind(creation) => take_group_kind(creation, word),
        LineState::GroupName(creation, kind) => take_group_name(alloc, creation, kind, word),
        LineState::GroupFrom(creation, kind, name) => take_from(alloc, creation, kind, name, word),
        LineState::Additions(creation, give, from) => {
            take_addition(alloc, creation, give, from, word)
        }
        LineState::BuiltinKind => take_builtin_kind(word),
        LineState::BuiltinName(kind) => take_builtin_name(alloc, kind, word),
        LineState::BuiltinPath(name) => take_builtin_path(alloc, name, word),
        LineState::BuiltinRights(name, path) => take_builtin_rights(alloc, name, path, word),
        LineState::Whole(sentence) => {
            drop(sentence);
            Err(WordFault::Bad(0))
        }
    }
}

/// The state after a command's first word, or the word's fault.
fn take_verb(word: &[u8]) -> Result<LineState, WordFault>
    ensures { StepsFrom place.Start word.now result }
{
    match read_verb(word) {
        Ok(verb) => Ok(LineState::Verb(verb)),
        Err(fault) => Err(fault),
    }
}

/// The state after the target of a command, or the word's fault.
pub fn take_target(alloc: Global, verb: Verb, word: &[u8]) -> Result<LineState, WordFault>
    ensures { StepsFrom (place.Verb verb) word.now result }
{
    match read_target(alloc, word) {
        Ok(target) => Ok(behind_target(verb, target)),
        Err(fault) => Err(fault),
    }
}

/// The state after the collection of `list`.
fn take_listing(alloc: Global, target: Target, word: &[u8]) -> Result<LineState, WordFault>
    ensures { StepsFrom (place.Listing target) word.now result }
{
    match read_name(alloc, word) {
        Ok(coll) => Ok(asks(Command::ListChildren { target, coll })),
        Err(fault) => Err(fault),
    }
}

/// The state after the path of `open`.
fn take_opening(alloc: Global, target: Target, word: &[u8]) -> Result<LineState, WordFault>
    ensures { StepsFrom (place.Opening target) word.now result }
{
    match read_path(alloc, word) {
        Ok(path) => Ok(asks(Command::OpenUse { target, path })),
        Err(fault) => Err(fault),
    }
}

/// The state after the name of `open-exposed`.
fn take_opening_exposed(alloc: Global, target: Target, word: &[u8]) -> Result<LineState, WordFault>
    ensures { StepsFrom (place.OpeningExposed target) word.now result }
{
    match read_name(alloc, word) {
        Ok(name) => Ok(asks(Command::OpenExposed { target, name })),
        Err(fault) => Err(fault),
    }
}

/// The state after the path of `route`.
fn take_routing(alloc: Global, target: Target, word: &[u8]) -> Result<LineState, WordFault>
    ensures { StepsFrom (place.Routing target) word.now result }
{
    match read_path(alloc, word) {
        Ok(path) => Ok(asks(Command::RouteOf { target, path })),
        Err(fault) => Err(fault),
    }
}

/// The state after the number of `events`.
fn take_streaming(target: Target, word: &[u8]) -> Result<LineState, WordFault>
    ensures { StepsFrom (place.Streaming target) word.now result }
{
    match read_number(word) {
        Ok(from) => Ok(asks(Command::Events { target, from })),
        Err(fault) => Err(fault),
    }
}

/// The state after the collection of `create`.
fn take_collection(alloc: Global, parent: Target, word: &[u8]) -> Result<LineState, WordFault>
    ensures { StepsFrom (place.Creating parent) word.now result }
{
    match read_name(alloc, word) {
        Ok(coll) => Ok(LineState::CreatingIn(parent, coll)),
        Err(fault) => Err(fault),
    }
}

/// The state after the child's name of `create`.
fn take_child(
    alloc: Global,
    parent: Target,
    coll: Name,
    word: &[u8],
) -> Result<LineState, WordFault>
    ensures { StepsFrom (place.CreatingIn parent coll) word.now result }
{
    match read_name(alloc, word) {
        Ok(name) => Ok(LineState::CreatingNamed(parent, coll, name)),
        Err(fault) => Err(fault),
    }
}

/// The state after the child's URL of `create`.
fn take_url(
    alloc: Global,
    parent: Target,
    coll: Name,
    name: Name,
    word: &[u8],
) -> Result<LineState, WordFault>
    ensures { StepsFrom (place.CreatingNamed parent coll name) word.now result }
{
    match read_url(alloc, word) {
        Ok(url) => Ok(create(alloc, parent, coll, name, url)),
        Err(fault) => Err(fault),
    }
}

/// The state after the word `+`, which begins a group, or the word's fault.
fn take_group(creation: Creation, word: &[u8]) -> Result<LineState, WordFault>
    ensures { StepsFrom (place.Groups creation) word.now result }
{
    if is_same(word, "+") {
        Ok(LineState::GroupKind(creation))
    } else {
        Err(WordFault::Bad(text_prefixes("+", word)))
    }
}

/// The state after the kind of a group.
fn take_group_kind(creation: Creation, word: &[u8]) -> Result<LineState, WordFault>
    ensures { StepsFrom (place.GroupKind creation) word.now result }
{
    match read_kind(word) {
        Ok(kind) => Ok(LineState::GroupName(creation, kind)),
        Err(fault) => Err(fault),
    }
}

/// The state after the name of what a group gives.
fn take_group_name(
    alloc: Global,
    creation: Creation,
    kind: Kind,
    word: &[u8],
) -> Result<LineState, WordFault>
    ensures { StepsFrom (place.GroupName creation kind) word.now result }
{
    match read_name(alloc, word) {
        Ok(name) => Ok(LineState::GroupFrom(creation, kind, name)),
        Err(fault) => Err(fault),
    }
}

/// The state after the origin of what a group gives.
fn take_from(
    alloc: Global,
    creation: Creation,
    kind: Kind,
    name: Name,
    word: &[u8],
) -> Result<LineState, WordFault>
    ensures { StepsFrom (place.GroupFrom creation kind name) word.now result }
{
    match read_origin(alloc, word) {
        Ok(from) => Ok(give(creation, kind, name, from)?),
        Err(fault) => Err(fault),
    }
}

/// The state after an addition, or after the word `+`.
fn take_addition(
    alloc: Global,
    creation: Creation,
    give: Give,
    from: u32,
    word: &[u8],
) -> Result<LineState, WordFault>
    ensures { StepsFrom (place.Additions creation give from) word.now result }
{
    match read_addition(alloc, from, give.kind, word) {
        Ok(addition) => Ok(add(creation, give, addition)?),
        Err(fault) => Err(fault),
    }
}

/// The state after the kind of a builtin capability.
fn take_builtin_kind(word: &[u8]) -> Result<LineState, WordFault>
    ensures { StepsFrom place.BuiltinKind word.now result }
{
    match read_kind(word) {
        Ok(kind) => Ok(LineState::BuiltinName(kind)),
        Err(fault) => Err(fault),
    }
}

/// The state after the name of a builtin capability.
fn take_builtin_name(alloc: Global, kind: Kind, word: &[u8]) -> Result<LineState, WordFault>
    ensures { StepsFrom (place.BuiltinName kind) word.now result }
{
    match read_name(alloc, word) {
        Ok(name) => Ok(behind_builtin(alloc, kind, name)?),
        Err(fault) => Err(fault),
    }
}

/// The state after the path of a builtin directory.
fn take_builtin_path(alloc: Global, name: Name, word: &[u8]) -> Result<LineState, WordFault>
    ensures { StepsFrom (place.BuiltinPath name) word.now result }
{
    match read_path(alloc, word) {
        Ok(path) => Ok(LineState::BuiltinRights(name, path)),
        Err(fault) => Err(fault),
    }
}

/// The state after the rights of a builtin directory.
fn take_builtin_rights(
    alloc: Global,
    name: Name,
    path: CapPath,
    word: &[u8],
) -> Result<LineState, WordFault>
    ensures { StepsFrom (place.BuiltinRights name path) word.now result }
{
    match read_rights(alloc, word) {
        Ok(rights) => Ok(provide(name, path, rights)),
        Err(fault) => Err(fault),
    }
}

/// The verb that is the word.
pub fn verb_of(word: &[u8]) -> Option<Verb>
    ensures { MatchOption result (IsVerbWord word.now → ⊥) (λ verb. word.now ≡ verb_word verb) }
{
    for verb in Verb::all() {
        if is_same(word, verb.word()) {
            return Some(verb);
        }
    }
    None
}

/// How many prefixes of the word some verb begins with.
fn verb_prefixes(word: &[u8]) -> usize
    ensures { CountsPrefixes IsVerbWord word.now result }
{
    let mut prefixes = 0;
    for verb in Verb::all() {
        prefixes = prefixes.max(text_prefixes(verb.word(), word));
    }
    prefixes
}

/// The verb that the word is.
fn read_verb(word: &[u8]) -> Result<Verb, WordFault>
    ensures { MatchResult result (λ verb. word.now ≡ verb_word verb)
        (λ e. IsWordFault IsVerbWord word.now e) }
{
    match verb_of(word) {
        Some(verb) => Ok(verb),
        None => Err(WordFault::Bad(verb_prefixes(word))),
    }
}

/// The kind that the word is.
fn read_kind(word: &[u8]) -> Result<Kind, WordFault>
    ensures { MatchResult result (λ kind. word.now ≡ kind_word kind)
        (λ e. IsWordFault IsKindWord word.now e) }
{
    if is_same(word, "protocol") {
        return Ok(Kind::Protocol);
    }
    if is_same(word, "directory") {
        return Ok(Kind::Directory);
    }
    Err(WordFault::Bad(text_prefixes("protocol", word).max(text_prefixes("directory", word))))
}

/// The state after all words of this command.
fn asks(command: Command) -> LineState
    ensures { result ≡ spec.asks command }
{
    LineState::Whole(ParsedLine::Command(command))
}

/// The state after a verb and its target.
fn behind_target(verb: Verb, target: Target) -> LineState
    ensures { result ≡ spec.behind_target verb target }
{
    match verb {
        Verb::Resolve => asks(Command::Resolve(target)),
        Verb::Start => asks(Command::Start(target)),
        Verb::Stop => asks(Command::Stop(target)),
        Verb::Shutdown => asks(Command::Shutdown(target)),
        Verb::Create => LineState::Creating(target),
        Verb::Destroy => asks(Command::Destroy(target)),
        Verb::List => LineState::Listing(target),
        Verb::Open => LineState::Opening(target),
        Verb::OpenExposed => LineState::OpeningExposed(target),
        Verb::Route => LineState::Routing(target),
        Verb::Doctor => asks(Command::Doctor(target)),
        Verb::Show => asks(Command::Show(target)),
        Verb::Survey => asks(Command::Survey(target)),
        Verb::Exited => asks(Command::Exited(target)),
        Verb::Events => LineState::Streaming(target),
    }
}

/// The state of a `create` after the child's URL: nothing is offered to it yet.
fn create(alloc: Global, parent: Target, coll: Name, name: Name, url: Text) -> LineState
    ensures { result ≡ spec.create parent coll name url }
{
    LineState::Groups(Creation {
        parent,
        coll,
        name,
        url,
        gives: List::new(alloc),
    })
}

/// The state after the origin of what a group gives.
fn give(creation: Creation, kind: Kind, name: Name, from: Origin) -> Result<LineState, Memory>
    ensures { IfOk result (λ next. next ≡ spec.give creation kind name from) }
{
    let target_name = name.clone()?;
    let give = Give {
        kind,
        source_name: name,
        from,
        target_name,
        rights: None,
        subdir: None,
        dependency: Dependency::Strong,
        availability: Availability::Required,
    };
    Ok(LineState::Additions(creation, give, 0))
}

/// The state after an addition to what the group gives. `Err` where memory runs out.
fn add(creation: Creation, mut give: Give, addition: Addition) -> Result<LineState, Memory>
    ensures { IfOk result
        (λ next. (n : ℕ) (t : Seq ℕ) → IsAddition n give.kind t addition
        → WordLeads (place.Additions creation give n) t next) }
{
    match addition {
        Addition::Group => Ok(LineState::GroupKind(with_give(creation, give)?)),
        Addition::Target(name) => {
            give.target_name = name;
            Ok(LineState::Additions(creation, give, 1))
        }
        Addition::Rights(rights) => {
            give.rights = Some(rights);
            Ok(LineState::Additions(creation, give, 2))
        }
        Addition::Subdir(subdir) => {
            give.subdir = Some(subdir);
            Ok(LineState::Additions(creation, give, 3))
        }
        Addition::Weak => {
            give.dependency = Dependency::Weak;
            Ok(LineState::Additions(creation, give, 4))
        }
        Addition::Optional => {
            give.availability = Availability::Optional;
            Ok(LineState::Additions(creation, give, 5))
        }
        Addition::Transitional => {
            give.availability = Availability::Transitional;
            Ok(LineState::Additions(creation, give, 5))
        }
        Addition::SameAsTarget => {
            give.availability = Availability::SameAsTarget;
            Ok(LineState::Additions(creation, give, 5))
        }
    }
}

/// The state after the name of a builtin capability.
fn behind_builtin(alloc: Global, kind: Kind, name: Name) -> Result<LineState, Memory>
    ensures { IfOk result (λ next. next ≡ spec.behind_builtin kind name) }
{
    match kind {
        Kind::Protocol => {
            let path = CapPath::service(alloc, &name)?;
            Ok(LineState::Whole(ParsedLine::Builtin(Builtin {
                kind,
                name,
                path,
                rights: None,
            })))
        }
        Kind::Directory => Ok(LineState::BuiltinPath(name)),
    }
}

/// The state after the rights of a builtin directory.
fn provide(name: Name, path: CapPath, rights: Rights) -> LineState
    ensures { result ≡ spec.provides (spec.directory_of name path rights) }
{
    let rights = Some(rights);
    LineState::Whole(ParsedLine::Builtin(Builtin {
        kind: Kind::Directory,
        name,
        path,
        rights,
    }))
}

/// What the line says, where it may end there.
pub fn end(place: LineState) -> Result<Option<ParsedLine>, Memory>
    ensures { IfOk result
        (λ said. MatchOption said ((s : Said) → EndsLine place s → ⊥) (λ s. EndsLine place s)) }
{
    match place {
        LineState::Groups(creation) => Ok(Some(created(creation))),
        LineState::Additions(creation, give, _from) => {
            let creation = with_give(creation, give)?;
            Ok(Some(created(creation)))
        }
        LineState::Whole(sentence) => Ok(Some(sentence)),
        other => {
            drop(other);
            Ok(None)
        }
    }
}

/// The creation with one give more.
fn with_give(mut creation: Creation, give: Give) -> Result<Creation, Memory>
    ensures { IfOk result (λ made. made ≡ spec.with_give creation give) }
{
    creation.gives.push(give)?;
    Ok(creation)
}

/// The command of a `create` whose words have all come.
fn created(creation: Creation) -> ParsedLine
    ensures { result ≡ spec.created creation }
{
    let Creation {
        parent,
        coll,
        name,
        url,
        gives,
    } = creation;
    ParsedLine::Command(Command::Create {
        parent,
        coll,
        name,
        url,
        gives,
    })
}
