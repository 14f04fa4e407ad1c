//! The items of `environments` and the registrations in them.

ghost use Rattle.std.specs.Prelude.{◌≡◌};
ghost use Rattle.cm_plain.specs.JsonTree.{view, items_view};
ghost use Rattle.cm_read.specs.Environments as spec;
ghost use Rattle.cm_read.specs.ReadingInside.{GivesReading, IsReadFault};

use crate::both::both;
use crate::fault::{ItemPlace, ReadFault, fault};
use crate::fields::{name_of, object_of};
use crate::gives::as_of;
use crate::items::item_names_of;
use crate::known::{Object, check_keys};
use crate::number::WRONG_TYPE;
use crate::rows::{Registry, one_row, registrations_from};
use crate::sections::SectionItem;
use crate::words::{extends_of, static_from_of};
use cm_decl::{Child, Environment, Kind, Registration};
use cm_names::{List, Name};
use cm_plain::JsonTree;
use std::alloc::Global;

/// The field of an environment that lists the registrations.
fn registry_word(which: Registry) -> &'static str
    ensures { result.now ≡ spec.registry_word which }
{
    match which {
        Registry::Runners => "runners",
        Registry::Debug => "debug",
    }
}

/// The name of a runner, of which an item has one.
#[tactic(auto, unfolding(crate::specs::Environments::runner_names_at))]
fn runner_names_of(
    alloc: Global,
    at: ItemPlace,
    item: &JsonTree<'_>,
) -> Result<List<Name>, ReadFault>
    ensures { GivesReading result (spec.runner_names_at at (view item.now)) }
{
    let name = name_of(alloc, at, item, "runner")?;
    one_row(alloc, name)
}

/// The names of a registration: one runner, or one or more protocols.
fn registration_names_of(
    alloc: Global,
    which: Registry,
    at: ItemPlace,
    item: &JsonTree<'_>,
) -> Result<List<Name>, ReadFault>
    ensures { GivesReading result (spec.registration_names_at which at (view item.now)) }
{
    match which {
        Registry::Runners => runner_names_of(alloc, at, item),
        Registry::Debug => item_names_of(alloc, Kind::Protocol, at, item),
    }
}

/// The registrations that an item with these names gives, one for each of them.
#[tactic(auto, unfolding(crate::specs::Environments::registered_at))]
fn registered(
    alloc: Global,
    at: ItemPlace,
    names: &[Name],
    item: &JsonTree<'_>,
) -> Result<List<Registration>, ReadFault>
    ensures { GivesReading result (spec.registered_at at names.now (view item.now)) }
{
    let read = both(
        static_from_of(alloc, at, item),
        as_of(alloc, at, names, item),
    )?;
    let (from, target) = read;
    Ok(registrations_from(alloc, from, target, names)?)
}

/// The registrations that an item gives, one for each name.
#[tactic(auto, unfolding(crate::specs::Environments::registration_at))]
fn registration_of(
    alloc: Global,
    which: Registry,
    at: ItemPlace,
    item: &JsonTree<'_>,
) -> Result<List<Registration>, ReadFault>
    ensures { GivesReading result (spec.registration_at which at (view item.now)) }
{
    let members = object_of(alloc, at, item)?;
    check_keys(alloc, at, Object::Registration(which), members)?;
    let names = registration_names_of(alloc, which, at, item)?;
    registered(alloc, at, names.as_slice(), item)
}

/// The registrations of the items, one item after another.
fn registrations_in(
    alloc: Global,
    which: Registry,
    at: ItemPlace,
    items: &[JsonTree<'_>],
) -> Result<List<Registration>, ReadFault>
    ensures { GivesReading result (spec.registrations_in_at which at (items_view items.now)) }
{
    let mut rows = List::new(alloc);
    for item in items {
        rows.append(registration_of(alloc, which, at, item)?)?;
    }
    Ok(rows)
}

/// The fault, told with another field, unless memory runs out.
fn in_field(alloc: Global, field: &str, found: ReadFault) -> ReadFault
    ensures { IsReadFault result (spec.in_field field.now found) }
{
    match found {
        ReadFault::Bad {
            number,
            section,
            index,
            field: _inner,
        } => fault(alloc, ItemPlace { section, index }, number, field),
        ReadFault::Memory => ReadFault::Memory,
    }
}

/// The registrations that a value lists.
#[tactic(auto, unfolding(crate::specs::Environments::registry_in_at), using(crate::proofs::lemmas::In::told))]
fn registry_in(
    alloc: Global,
    which: Registry,
    at: ItemPlace,
    value: &JsonTree<'_>,
) -> Result<List<Registration>, ReadFault>
    ensures { GivesReading result (spec.registry_in_at which at (view value.now)) }
{
    let Some(items) = value.as_array() else {
        return Err(fault(alloc, at, WRONG_TYPE, registry_word(which)));
    };
    match registrations_in(alloc, which, at, items.as_slice()) {
        Ok(rows) => Ok(rows),
        Err(found) => Err(in_field(alloc, registry_word(which), found)),
    }
}

/// `runners` or `debug`, by default no registrations.
#[tactic(auto, unfolding(crate::specs::Environments::registry_at))]
fn registry_of(
    alloc: Global,
    which: Registry,
    at: ItemPlace,
    item: &JsonTree<'_>,
) -> Result<List<Registration>, ReadFault>
    ensures { GivesReading result (spec.registry_at which at (view item.now)) }
{
    let Some(value) = item.get(registry_word(which)) else {
        return Ok(List::new(alloc));
    };
    registry_in(alloc, which, at, value)
}

/// The row of an item of `environments`, whose fields are known.
#[tactic(auto, unfolding(crate::specs::Environments::environment_row_at))]
fn environment_row(
    alloc: Global,
    at: ItemPlace,
    item: &JsonTree<'_>,
) -> Result<List<Environment>, ReadFault>
    ensures { GivesReading result (spec.environment_row_at at (view item.now)) }
{
    let read = both(
        both(
            name_of(alloc, at, item, "name"),
            extends_of(alloc, at, item),
        ),
        both(
            registry_of(alloc, Registry::Runners, at, item),
            registry_of(alloc, Registry::Debug, at, item),
        ),
    )?;
    let ((name, extends), (runners, debug)) = read;
    let row = Environment {
        name,
        extends,
        runners,
        debug,
    };
    one_row(alloc, row)
}

impl SectionItem for Environment {
    ghost use Rattle.cm_read.specs.Environments.{environment_item_at};

    ghost reads = { λ _. environment_item_at };

    /// An item of `environments` gives one row.
    #[tactic(auto, unfolding(crate::specs::Environments::environment_item_at))]
    fn read(
        alloc: Global,
        at: ItemPlace,
        _children: &[Child],
        item: &JsonTree<'_>,
    ) -> Result<List<Environment>, ReadFault> {
        let members = object_of(alloc, at, item)?;
        check_keys(alloc, at, Object::Environment, members)?;
        environment_row(alloc, at, item)
    }
}
