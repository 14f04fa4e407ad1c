//! Fields with listed words, and where a capability comes from.

ghost use Rattle.std.specs.Prelude.{◌≡◌, ok_or};
ghost use Rattle.cm_plain.specs.JsonTree.{view};
ghost use Rattle.cm_read.specs.Fields as fields;
ghost use Rattle.cm_read.specs.Numbers.{unknown_word};
ghost use Rattle.cm_read.specs.Words as spec;
ghost use Rattle.cm_read.specs.WordsInside as spec_inside;
ghost use Rattle.cm_read.specs.Reading.{bad};
ghost use Rattle.cm_read.specs.ReadingInside.{GivesReading};

use crate::fault::{ItemPlace, ReadFault, fault};
use crate::fields::{behind_mark, name_from, needed, text_of};
use crate::number::{BAD_NAME, UNKNOWN_WORD};
use crate::rows::UseSource;
use cm_decl::{Child, Durability, Origin};
use cm_names::{Availability, ChildName, Dependency, Name};
use cm_plain::{JsonTree, same_text};
use std::alloc::Global;

/// Which of two words the text is: `false` for `off`, `true` for `on`, and `None` for any other.
fn flag_named(off: &str, on: &str, text: &str) -> Option<bool>
    ensures { result ≡ spec_inside.flag_named off.now on.now text.now }
{
    if same_text(text, off) {
        Some(false)
    } else if same_text(text, on) {
        Some(true)
    } else {
        None
    }
}

/// How long an instance in a collection stays.
#[tactic(auto, unfolding(crate::specs::Words::durability_named))]
fn durability_named(text: &str) -> Option<Durability>
    ensures { result ≡ spec.durability_named text.now }
{
    match text {
        "transient" => Some(Durability::Transient),
        "single_run" => Some(Durability::SingleRun),
        _ => None,
    }
}

/// Whether the order of stops is bound.
#[tactic(auto, unfolding(crate::specs::Words::dependency_named))]
fn dependency_named(text: &str) -> Option<Dependency>
    ensures { result ≡ spec.dependency_named text.now }
{
    match text {
        "strong" => Some(Dependency::Strong),
        "weak" => Some(Dependency::Weak),
        _ => None,
    }
}

/// How much a use needs a capability.
#[tactic(auto, unfolding(crate::specs::Words::availability_named))]
fn availability_named(text: &str) -> Option<Availability>
    ensures { result ≡ spec.availability_named text.now }
{
    match text {
        "required" => Some(Availability::Required),
        "optional" => Some(Availability::Optional),
        "transitional" => Some(Availability::Transitional),
        _ => None,
    }
}

/// How surely an offer or an expose gives one: it may also take over what its target says.
#[tactic(auto, unfolding(crate::specs::Words::given_availability_named))]
fn given_availability_named(text: &str) -> Option<Availability>
    ensures { result ≡ spec.given_availability_named text.now }
{
    match text {
        "same_as_target" => Some(Availability::SameAsTarget),
        _ => availability_named(text),
    }
}

/// Where a use comes from, other than from a child.
#[tactic(auto, unfolding(crate::specs::Words::use_origin_named))]
fn use_origin_named(text: &str) -> Option<Origin>
    ensures { result ≡ spec.use_origin_named text.now }
{
    match text {
        "parent" => Some(Origin::Parent),
        "self" => Some(Origin::Own),
        "framework" => Some(Origin::Framework),
        _ => None,
    }
}

/// Where an expose comes from, other than from a child.
#[tactic(auto, unfolding(crate::specs::Words::expose_origin_named))]
fn expose_origin_named(text: &str) -> Option<Origin>
    ensures { result ≡ spec.expose_origin_named text.now }
{
    match text {
        "self" => Some(Origin::Own),
        "framework" => Some(Origin::Framework),
        "void" => Some(Origin::Void),
        _ => None,
    }
}

/// Where an offer comes from, other than from a child: the parent too.
#[tactic(auto, unfolding(crate::specs::Words::offer_origin_named))]
fn offer_origin_named(text: &str) -> Option<Origin>
    ensures { result ≡ spec.offer_origin_named text.now }
{
    match text {
        "parent" => Some(Origin::Parent),
        _ => expose_origin_named(text),
    }
}

/// Where a registration or a storage comes from, other than from a child.
#[tactic(auto, unfolding(crate::specs::Words::static_origin_named))]
fn static_origin_named(text: &str) -> Option<Origin>
    ensures { result ≡ spec.static_origin_named text.now }
{
    match text {
        "parent" => Some(Origin::Parent),
        "self" => Some(Origin::Own),
        _ => None,
    }
}

/// Where an offer of a storage comes from.
#[tactic(auto, unfolding(crate::specs::Words::storage_origin_named))]
fn storage_origin_named(text: &str) -> Option<Origin>
    ensures { result ≡ spec.storage_origin_named text.now }
{
    match text {
        "void" => Some(Origin::Void),
        _ => static_origin_named(text),
    }
}

/// Whether an instance without an id gets a place by its moniker.
#[tactic(auto, unfolding(crate::specs::Words::storage_id_named))]
fn storage_id_named(text: &str) -> Option<bool>
    ensures { result ≡ spec.storage_id_named text.now }
{
    match text {
        "static_instance_id" => Some(false),
        "static_instance_id_or_moniker" => Some(true),
        _ => None,
    }
}

/// An expose goes to the parent alone.
#[tactic(auto, unfolding(crate::specs::Words::expose_target_named))]
fn expose_target_named(text: &str) -> Option<()>
    ensures { result ≡ spec.expose_target_named text.now }
{
    match text {
        "parent" => Some(()),
        _ => None,
    }
}

/// What a listed word means; a word that isn't listed is a fault.
fn listed<T: Drop>(
    alloc: Global,
    at: ItemPlace,
    key: &str,
    named: Option<T>,
) -> Result<T, ReadFault>
    ensures { GivesReading result (ok_or named (bad at unknown_word key.now)) }
{
    match named {
        Some(meaning) => Ok(meaning),
        None => Err(fault(alloc, at, UNKNOWN_WORD, key)),
    }
}

/// What a field with one of two words says, by default the first: `startup`, `allowed_offers`, `extends` and
/// `source_availability` are such.
fn flag_of(
    alloc: Global,
    at: ItemPlace,
    item: &JsonTree<'_>,
    key: &str,
    off: &str,
    on: &str,
) -> Result<bool, ReadFault>
    ensures { GivesReading result (spec_inside.flag_at key.now off.now on.now at (view item.now)) }
{
    let Some(value) = item.get(key) else {
        return Ok(false);
    };
    let text = text_of(alloc, at, value, key)?;
    listed(alloc, at, key, flag_named(off, on, text))
}

/// Whether a child starts together with its parent: `startup`, by default `lazy`.
#[tactic(auto, unfolding(crate::specs::Words::startup_at, crate::specs::Words::startup_named))]
pub fn startup_of(alloc: Global, at: ItemPlace, item: &JsonTree<'_>) -> Result<bool, ReadFault>
    ensures { GivesReading result (spec.startup_at at (view item.now)) }
{
    flag_of(alloc, at, item, "startup", "lazy", "eager")
}

/// `durability`, which has to be there.
#[tactic(auto, unfolding(crate::specs::Words::durability_at))]
pub fn durability_of(
    alloc: Global,
    at: ItemPlace,
    item: &JsonTree<'_>,
) -> Result<Durability, ReadFault>
    ensures { GivesReading result (spec.durability_at at (view item.now)) }
{
    let value = needed(alloc, at, item, "durability")?;
    let text = text_of(alloc, at, value, "durability")?;
    listed(alloc, at, "durability", durability_named(text))
}

/// Whether a child may be created with offers of its own: `allowed_offers`, by default `static_only`.
#[tactic(auto, unfolding(crate::specs::Words::allowed_offers_at, crate::specs::Words::offers_named))]
pub fn allowed_offers_of(
    alloc: Global,
    at: ItemPlace,
    item: &JsonTree<'_>,
) -> Result<bool, ReadFault>
    ensures { GivesReading result (spec.allowed_offers_at at (view item.now)) }
{
    flag_of(
        alloc,
        at,
        item,
        "allowed_offers",
        "static_only",
        "static_and_dynamic",
    )
}

/// Whether the order of stops is bound: `dependency`, by default `strong`.
#[tactic(auto, unfolding(crate::specs::Words::dependency_at))]
pub fn dependency_of(
    alloc: Global,
    at: ItemPlace,
    item: &JsonTree<'_>,
) -> Result<Dependency, ReadFault>
    ensures { GivesReading result (spec.dependency_at at (view item.now)) }
{
    let Some(value) = item.get("dependency") else {
        return Ok(Dependency::Strong);
    };
    let text = text_of(alloc, at, value, "dependency")?;
    listed(alloc, at, "dependency", dependency_named(text))
}

/// `availability` of a use, by default `required`.
#[tactic(auto, unfolding(crate::specs::Words::availability_at))]
pub fn availability_of(
    alloc: Global,
    at: ItemPlace,
    item: &JsonTree<'_>,
) -> Result<Availability, ReadFault>
    ensures { GivesReading result (spec.availability_at at (view item.now)) }
{
    let Some(value) = item.get("availability") else {
        return Ok(Availability::Required);
    };
    let text = text_of(alloc, at, value, "availability")?;
    listed(alloc, at, "availability", availability_named(text))
}

/// `availability` of an offer or an expose, by default `required`.
#[tactic(auto, unfolding(crate::specs::Words::given_availability_at))]
pub fn given_availability_of(
    alloc: Global,
    at: ItemPlace,
    item: &JsonTree<'_>,
) -> Result<Availability, ReadFault>
    ensures { GivesReading result (spec.given_availability_at at (view item.now)) }
{
    let Some(value) = item.get("availability") else {
        return Ok(Availability::Required);
    };
    let text = text_of(alloc, at, value, "availability")?;
    listed(alloc, at, "availability", given_availability_named(text))
}

/// Whether the source may be missing: `source_availability`, by default `required`.
#[tactic(auto, unfolding(crate::specs::Words::source_unknown_at, crate::specs::Words::source_named))]
pub fn source_unknown_of(
    alloc: Global,
    at: ItemPlace,
    item: &JsonTree<'_>,
) -> Result<bool, ReadFault>
    ensures { GivesReading result (spec.source_unknown_at at (view item.now)) }
{
    flag_of(
        alloc,
        at,
        item,
        "source_availability",
        "required",
        "unknown",
    )
}

/// A field that says the parent alone, by default.
fn parent_alone(
    alloc: Global,
    at: ItemPlace,
    item: &JsonTree<'_>,
    key: &str,
) -> Result<(), ReadFault>
    ensures { GivesReading result (spec_inside.parent_alone key.now at (view item.now)) }
{
    let Some(value) = item.get(key) else {
        return Ok(());
    };
    let text = text_of(alloc, at, value, key)?;
    listed(alloc, at, key, expose_target_named(text))
}

/// `to` of an expose, by default `parent`.
#[tactic(auto, unfolding(crate::specs::Words::expose_to_at))]
pub fn expose_to_of(alloc: Global, at: ItemPlace, item: &JsonTree<'_>) -> Result<(), ReadFault>
    ensures { GivesReading result (spec.expose_to_at at (view item.now)) }
{
    parent_alone(alloc, at, item, "to")
}

/// Whether a child of that name is declared.
fn is_declared(children: &[Child], name: &ChildName) -> bool
    ensures { result ≡ spec.is_declared children.now name.now }
{
    children
        .iter()
        .any(|child| name.coll.is_none() && child.name == name.name)
}

/// The source of an offer or an expose: where it may be missing, `void` in the place of a child
/// that isn't declared.
pub fn settle(from: Origin, unknown: bool, children: &[Child]) -> Origin
    ensures { result ≡ spec.settled children.now unknown from }
{
    let gone = match &from {
        Origin::Child(name) => unknown && !is_declared(children, name),
        Origin::Parent | Origin::Own | Origin::Framework | Origin::Void => false,
    };
    if gone { Origin::Void } else { from }
}

/// The child that a reference names, or what the listed word means.
fn origin_from(
    alloc: Global,
    at: ItemPlace,
    named: Option<Origin>,
    text: &str,
) -> Result<Origin, ReadFault>
    ensures { GivesReading result (spec.origin_from at named (fields.behind_mark text.now)) }
{
    match behind_mark(text) {
        Some(name) => {
            let name = name_from(alloc, at, "from", name)?;
            Ok(Origin::Child(ChildName { coll: None, name }))
        }
        None => listed(alloc, at, "from", named),
    }
}

/// The origin of a use that a value is.
#[tactic(auto, unfolding(crate::specs::Words::use_from_in_at))]
fn use_from_in(alloc: Global, at: ItemPlace, value: &JsonTree<'_>) -> Result<Origin, ReadFault>
    ensures { GivesReading result (spec.use_from_in_at at (view value.now)) }
{
    let text = text_of(alloc, at, value, "from")?;
    origin_from(alloc, at, use_origin_named(text), text)
}

/// The origin of an offer that a value is.
#[tactic(auto, unfolding(crate::specs::Words::offer_from_in_at))]
fn offer_from_in(alloc: Global, at: ItemPlace, value: &JsonTree<'_>) -> Result<Origin, ReadFault>
    ensures { GivesReading result (spec.offer_from_in_at at (view value.now)) }
{
    let text = text_of(alloc, at, value, "from")?;
    origin_from(alloc, at, offer_origin_named(text), text)
}

/// The origin of an expose that a value is.
#[tactic(auto, unfolding(crate::specs::Words::expose_from_in_at))]
fn expose_from_in(alloc: Global, at: ItemPlace, value: &JsonTree<'_>) -> Result<Origin, ReadFault>
    ensures { GivesReading result (spec.expose_from_in_at at (view value.now)) }
{
    let text = text_of(alloc, at, value, "from")?;
    origin_from(alloc, at, expose_origin_named(text), text)
}

/// `from` of a use, by default `parent`.
#[tactic(auto, unfolding(crate::specs::Words::use_from_at))]
pub fn use_from_of(alloc: Global, at: ItemPlace, item: &JsonTree<'_>) -> Result<Origin, ReadFault>
    ensures { GivesReading result (spec.use_from_at at (view item.now)) }
{
    let Some(value) = item.get("from") else {
        return Ok(Origin::Parent);
    };
    use_from_in(alloc, at, value)
}

/// `from` of an offer, which has to be there.
#[tactic(auto, unfolding(crate::specs::Words::offer_from_at))]
pub fn offer_from_of(alloc: Global, at: ItemPlace, item: &JsonTree<'_>) -> Result<Origin, ReadFault>
    ensures { GivesReading result (spec.offer_from_at at (view item.now)) }
{
    let value = needed(alloc, at, item, "from")?;
    offer_from_in(alloc, at, value)
}

/// `from` of an expose, which has to be there.
#[tactic(auto, unfolding(crate::specs::Words::expose_from_at))]
pub fn expose_from_of(
    alloc: Global,
    at: ItemPlace,
    item: &JsonTree<'_>,
) -> Result<Origin, ReadFault>
    ensures { GivesReading result (spec.expose_from_at at (view item.now)) }
{
    let value = needed(alloc, at, item, "from")?;
    expose_from_in(alloc, at, value)
}

/// What a text says of where a protocol that is used comes from.
fn source_from(alloc: Global, at: ItemPlace, text: &str) -> Result<UseSource, ReadFault>
    ensures { GivesReading result (spec.source_from at text.now) }
{
    match text {
        "debug" => Ok(UseSource::Debug),
        _ => {
            let from = origin_from(alloc, at, use_origin_named(text), text)?;
            Ok(UseSource::From(from))
        }
    }
}

/// Where a protocol that is used comes from, as a value says it.
#[tactic(auto, unfolding(crate::specs::Words::use_source_in_at))]
fn use_source_in(alloc: Global, at: ItemPlace, value: &JsonTree<'_>) -> Result<UseSource, ReadFault>
    ensures { GivesReading result (spec.use_source_in_at at (view value.now)) }
{
    let text = text_of(alloc, at, value, "from")?;
    source_from(alloc, at, text)
}

/// `from` of a protocol that is used, by default `parent`.
#[tactic(auto, unfolding(crate::specs::Words::use_source_at))]
pub fn use_source_of(
    alloc: Global,
    at: ItemPlace,
    item: &JsonTree<'_>,
) -> Result<UseSource, ReadFault>
    ensures { GivesReading result (spec.use_source_at at (view item.now)) }
{
    let Some(value) = item.get("from") else {
        return Ok(UseSource::From(Origin::Parent));
    };
    use_source_in(alloc, at, value)
}

/// The origin of a registration or a storage that a value is.
#[tactic(auto, unfolding(crate::specs::Words::static_from_in_at))]
fn static_from_in(alloc: Global, at: ItemPlace, value: &JsonTree<'_>) -> Result<Origin, ReadFault>
    ensures { GivesReading result (spec.static_from_in_at at (view value.now)) }
{
    let text = text_of(alloc, at, value, "from")?;
    origin_from(alloc, at, static_origin_named(text), text)
}

/// `from` of a registration or a storage, which has to be there.
#[tactic(auto, unfolding(crate::specs::Words::static_from_at))]
pub fn static_from_of(
    alloc: Global,
    at: ItemPlace,
    item: &JsonTree<'_>,
) -> Result<Origin, ReadFault>
    ensures { GivesReading result (spec.static_from_at at (view item.now)) }
{
    let value = needed(alloc, at, item, "from")?;
    static_from_in(alloc, at, value)
}

/// `from` of an offer of a storage, which has to be there; no child is meant.
#[tactic(auto, unfolding(crate::specs::Words::storage_from_at))]
pub fn storage_from_of(
    alloc: Global,
    at: ItemPlace,
    item: &JsonTree<'_>,
) -> Result<Origin, ReadFault>
    ensures { GivesReading result (spec.storage_from_at at (view item.now)) }
{
    let value = needed(alloc, at, item, "from")?;
    let text = text_of(alloc, at, value, "from")?;
    listed(alloc, at, "from", storage_origin_named(text))
}

/// `from` of a use of a storage: the parent alone, by default.
#[tactic(auto, unfolding(crate::specs::Words::storage_use_from_at))]
pub fn storage_use_from_of(
    alloc: Global,
    at: ItemPlace,
    item: &JsonTree<'_>,
) -> Result<(), ReadFault>
    ensures { GivesReading result (spec.storage_use_from_at at (view item.now)) }
{
    parent_alone(alloc, at, item, "from")
}

/// Whether an environment extends that of its component: `extends`, by default `none`.
#[tactic(auto, unfolding(crate::specs::Words::extends_at, crate::specs::Words::extends_named))]
pub fn extends_of(alloc: Global, at: ItemPlace, item: &JsonTree<'_>) -> Result<bool, ReadFault>
    ensures { GivesReading result (spec.extends_at at (view item.now)) }
{
    flag_of(alloc, at, item, "extends", "none", "realm")
}

/// `storage_id`, which has to be there.
#[tactic(auto, unfolding(crate::specs::Words::storage_id_at))]
pub fn storage_id_of(alloc: Global, at: ItemPlace, item: &JsonTree<'_>) -> Result<bool, ReadFault>
    ensures { GivesReading result (spec.storage_id_at at (view item.now)) }
{
    let value = needed(alloc, at, item, "storage_id")?;
    let text = text_of(alloc, at, value, "storage_id")?;
    listed(alloc, at, "storage_id", storage_id_named(text))
}

/// The name after the `#` of a reference; a text without one is no name.
fn environment_from(alloc: Global, at: ItemPlace, text: &str) -> Result<Name, ReadFault>
    ensures { GivesReading result (spec.environment_from at (fields.behind_mark text.now)) }
{
    match behind_mark(text) {
        Some(name) => name_from(alloc, at, "environment", name),
        None => Err(fault(alloc, at, BAD_NAME, "environment")),
    }
}

/// The name of an environment that a value is.
#[tactic(auto, unfolding(crate::specs::Words::environment_in_at))]
fn environment_in(alloc: Global, at: ItemPlace, value: &JsonTree<'_>) -> Result<Name, ReadFault>
    ensures { GivesReading result (spec.environment_in_at at (view value.now)) }
{
    let text = text_of(alloc, at, value, "environment")?;
    environment_from(alloc, at, text)
}

/// `environment` of a child or a collection, which may be missing.
#[tactic(auto, unfolding(crate::specs::Words::environment_at))]
pub fn environment_of(
    alloc: Global,
    at: ItemPlace,
    item: &JsonTree<'_>,
) -> Result<Option<Name>, ReadFault>
    ensures { GivesReading result (spec.environment_at at (view item.now)) }
{
    let Some(value) = item.get("environment") else {
        return Ok(None);
    };
    let name = environment_in(alloc, at, value)?;
    Ok(Some(name))
}
