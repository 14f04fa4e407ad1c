//! Whole declarations as values.

ghost use Rattle.std.specs.Prelude.{◌≡◌, [], ◌∷◌, ◌++◌, codes, IfOk, OnOk};
ghost use Rattle.serde_json.specs.Data.{array};
ghost use Rattle.serde_json.specs.View.{view, items_of};
ghost use Rattle.cm_write.specs.Writing as spec;
ghost use Rattle.cm_write.specs.WritingInside.{Puts};

use crate::puts::{
    WritableRow, availability_word, dependency_word, durability_word, offers_word, plain_use,
    push_each, put_environment, put_from, put_limits, put_list, put_rights, put_text, put_to,
    put_values, startup_word, word_of,
};
use cm_decl::{Capability, Child, Collection, DebugUse, Decl, Environment, Give, Offer, Usage};
use cm_names::{Memory, Name};
use serde_json::{Map, Value, json};
use std::alloc::Global;

impl WritableRow for Child {
    ghost use Rattle.cm_write.specs.Writing.{child_data};

    ghost writes = { child_data };

    /// An item of `children`, with defaults written out.
    fn write(&self, alloc: Global) -> Result<Value, Memory> {
        let mut members = Map::new(alloc);
        put_text(alloc, &mut members, "name", self.name.as_str())?;
        put_text(alloc, &mut members, "url", self.url.as_str())?;
        put_text(alloc, &mut members, "startup", startup_word(self.eager))?;
        put_environment(alloc, &mut members, &self.environment)?;
        Ok(Value::from(members))
    }
}

impl WritableRow for Collection {
    ghost use Rattle.cm_write.specs.Writing.{collection_data};

    ghost writes = { collection_data };

    /// An item of `collections`, with defaults written out.
    fn write(&self, alloc: Global) -> Result<Value, Memory> {
        let mut members = Map::new(alloc);
        put_text(alloc, &mut members, "name", self.name.as_str())?;
        put_text(
            alloc,
            &mut members,
            "durability",
            durability_word(self.durability),
        )?;
        put_text(
            alloc,
            &mut members,
            "allowed_offers",
            offers_word(self.dynamic_offers),
        )?;
        put_environment(alloc, &mut members, &self.environment)?;
        Ok(Value::from(members))
    }
}

impl WritableRow for Capability {
    ghost use Rattle.cm_write.specs.Writing.{capability_data};

    ghost writes = { capability_data };

    /// An item of `capabilities`.
    fn write(&self, alloc: Global) -> Result<Value, Memory> {
        let mut members = Map::new(alloc);
        put_text(alloc, &mut members, word_of(self.kind), self.name.as_str())?;
        put_text(alloc, &mut members, "path", self.path.as_str())?;
        put_rights(alloc, &mut members, self.rights)?;
        Ok(Value::from(members))
    }
}

/// Puts what a row of `use` has among the members.
fn put_use(alloc: Global, members: &mut Map<String, Value>, usage: &Usage) -> Result<(), Memory>
    ensures { OnOk result
        (Puts members.old.entries members.new.entries (spec.use_pairs usage.now)) }
{
    put_text(alloc, members, word_of(usage.kind), usage.name.as_str())?;
    put_from(alloc, members, &usage.from)?;
    put_text(alloc, members, "path", usage.path.as_str())?;
    put_text(
        alloc,
        members,
        "dependency",
        dependency_word(usage.dependency),
    )?;
    put_text(
        alloc,
        members,
        "availability",
        availability_word(usage.availability),
    )?;
    put_limits(alloc, members, usage.rights, &usage.subdir)
}

impl WritableRow for Usage {
    ghost use Rattle.cm_write.specs.Writing.{use_data};

    ghost writes = { use_data };

    /// An item of `use`, with defaults written out.
    fn write(&self, alloc: Global) -> Result<Value, Memory> {
        let mut members = Map::new(alloc);
        put_use(alloc, &mut members, self)?;
        Ok(Value::from(members))
    }
}

/// Puts what a row of `offer` and one of `expose` have in common among the members.
fn put_give(alloc: Global, members: &mut Map<String, Value>, give: &Give) -> Result<(), Memory>
    ensures { OnOk result
        (Puts members.old.entries members.new.entries (spec.give_pairs give.now)) }
{
    put_text(
        alloc,
        members,
        word_of(give.kind),
        give.source_name.as_str(),
    )?;
    put_from(alloc, members, &give.from)?;
    put_text(alloc, members, "as", give.target_name.as_str())?;
    put_text(
        alloc,
        members,
        "availability",
        availability_word(give.availability),
    )?;
    put_limits(alloc, members, give.rights, &give.subdir)
}

impl WritableRow for DebugUse {
    ghost use Rattle.cm_write.specs.Writing.{debug_use_data};

    ghost writes = { debug_use_data };

    /// An item of `use` from `debug`.
    fn write(&self, alloc: Global) -> Result<Value, Memory> {
        plain_use(alloc, "protocol", &self.name, "debug", &self.path)
    }
}

impl WritableRow for Offer {
    ghost use Rattle.cm_write.specs.Writing.{offer_data};

    ghost writes = { offer_data };

    /// An item of `offer`, with defaults written out.
    fn write(&self, alloc: Global) -> Result<Value, Memory> {
        let mut members = Map::new(alloc);
        put_to(alloc, &mut members, &self.to)?;
        put_text(
            alloc,
            &mut members,
            "dependency",
            dependency_word(self.give.dependency),
        )?;
        put_give(alloc, &mut members, &self.give)?;
        Ok(Value::from(members))
    }
}

impl WritableRow for Give {
    ghost use Rattle.cm_write.specs.Writing.{expose_data};

    ghost writes = { expose_data };

    /// An item of `expose`, with defaults written out.
    fn write(&self, alloc: Global) -> Result<Value, Memory> {
        let mut members = Map::new(alloc);
        put_give(alloc, &mut members, self)?;
        Ok(Value::from(members))
    }
}

/// Puts `program` among the members, where there is a runner.
fn put_program(
    alloc: Global,
    members: &mut Map<String, Value>,
    runner: &Option<Name>,
) -> Result<(), Memory>
    ensures { OnOk result
        (Puts members.old.entries members.new.entries (spec.program_pair runner.now)) }
{
    match runner {
        Some(runner) => {
            let program = json!(in alloc; {"runner": runner.as_str()})?;
            Ok(serde_json::put(members, alloc, "program", program)?)
        }
        None => Ok(()),
    }
}

/// Puts `environments` among the members, where there are any.
fn put_environments(
    alloc: Global,
    members: &mut Map<String, Value>,
    environments: &[Environment],
) -> Result<(), Memory>
    ensures { OnOk result
        (Puts members.old.entries members.new.entries
        (spec.environments_pair environments.now)) }
{
    match environments {
        [] => Ok(()),
        [_, ..] => put_list(alloc, members, "environments", environments),
    }
}

/// Puts `environments` and `program` among the members, where they are there.
#[tactic(auto, using(crate::proofs::lemmas::Pair::with_pairs_append))]
fn put_optional(alloc: Global, members: &mut Map<String, Value>, decl: &Decl) -> Result<(), Memory>
    ensures { OnOk result
        (Puts members.old.entries members.new.entries
        (spec.environments_pair decl.now.environments ++ spec.program_pair decl.now.runner)) }
{
    put_environments(alloc, members, decl.environments.as_slice())?;
    put_program(alloc, members, &decl.runner)
}

/// Puts `capabilities` among the members, storages last.
fn put_capabilities(
    alloc: Global,
    members: &mut Map<String, Value>,
    decl: &Decl,
) -> Result<(), Memory>
    ensures { OnOk result
        (Puts members.old.entries members.new.entries
        ((codes "capabilities", array (items_of (spec.capability_items decl.now))) ∷ [])) }
{
    let mut values = Vec::new(alloc);
    push_each(alloc, &mut values, decl.capabilities.as_slice())?;
    push_each(alloc, &mut values, decl.storages.as_slice())?;
    put_values(alloc, members, "capabilities", values)
}

/// Puts `use` among the members: after the others those of debug protocols, then those of storages.
fn put_uses(alloc: Global, members: &mut Map<String, Value>, decl: &Decl) -> Result<(), Memory>
    ensures { OnOk result
        (Puts members.old.entries members.new.entries
        ((codes "use", array (items_of (spec.use_items decl.now))) ∷ [])) }
{
    let mut values = Vec::new(alloc);
    push_each(alloc, &mut values, decl.uses.as_slice())?;
    push_each(alloc, &mut values, decl.debug_uses.as_slice())?;
    push_each(alloc, &mut values, decl.storage_uses.as_slice())?;
    put_values(alloc, members, "use", values)
}

/// Puts `offer` among the members, those of storages last.
fn put_offers(alloc: Global, members: &mut Map<String, Value>, decl: &Decl) -> Result<(), Memory>
    ensures { OnOk result
        (Puts members.old.entries members.new.entries
        ((codes "offer", array (items_of (spec.offer_items decl.now))) ∷ [])) }
{
    let mut values = Vec::new(alloc);
    push_each(alloc, &mut values, decl.offers.as_slice())?;
    push_each(alloc, &mut values, decl.storage_offers.as_slice())?;
    put_values(alloc, members, "offer", values)
}

/// The value of a declaration: what its one text is the text of. `Err(Memory)` where memory runs out.
pub fn value_of(alloc: Global, decl: &Decl) -> Result<Value, Memory>
    ensures { IfOk result (λ v. view v ≡ spec.decl_data decl.now) }
{
    let mut members = Map::new(alloc);
    put_list(alloc, &mut members, "children", decl.children.as_slice())?;
    put_list(
        alloc,
        &mut members,
        "collections",
        decl.collections.as_slice(),
    )?;
    put_capabilities(alloc, &mut members, decl)?;
    put_uses(alloc, &mut members, decl)?;
    put_offers(alloc, &mut members, decl)?;
    put_list(alloc, &mut members, "expose", decl.exposes.as_slice())?;
    put_optional(alloc, &mut members, decl)?;
    Ok(Value::from(members))
}
