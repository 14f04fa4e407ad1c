//! Environments as values.

ghost use Rattle.std.specs.Prelude.{◌≡◌, [], ◌∷◌, IfOk, OnOk};
ghost use Rattle.serde_json.specs.View.{view};
ghost use Rattle.cm_write.specs.Writing as writing;
ghost use Rattle.cm_write.specs.WritingInside.{Puts};

use crate::puts::{WritableRow, extends_word, put_from, put_text};
use cm_decl::{Environment, Registration};
use cm_names::Memory;
use serde_json::{Map, Value};
use std::alloc::Global;

/// What a registration is written as, with its name at this key.
fn registration_value(alloc: Global, key: &str, row: &Registration) -> Result<Value, Memory>
    ensures { IfOk result (λ v. view v ≡ writing.registration_data key.now row.now) }
{
    let mut members = Map::new(alloc);
    put_text(alloc, &mut members, key, row.name.as_str())?;
    put_from(alloc, &mut members, &row.from)?;
    put_text(alloc, &mut members, "as", row.target.as_str())?;
    Ok(Value::from(members))
}

/// The list of what registrations of one kind are written as. `key` is the member that has the name that is
/// registered: `runner`, or `protocol` of a debug registration.
fn registrations_value(alloc: Global, key: &str, rows: &[Registration]) -> Result<Value, Memory>
    ensures { IfOk result
        (λ v. view v ≡ writing.list_of (writing.registration_data key.now) rows.now) }
{
    let mut values = Vec::new(alloc);
    for row in rows {
        values.push(registration_value(alloc, key, row)?)?;
    }
    Ok(Value::from(values))
}

/// Puts registrations among the members, with their names at this key.
fn put_registrations(
    alloc: Global,
    members: &mut Map<String, Value>,
    field: &str,
    key: &str,
    rows: &[Registration],
) -> Result<(), Memory>
    ensures { OnOk result
        (Puts members.old.entries members.new.entries
        ((field.now, writing.list_of (writing.registration_data key.now) rows.now) ∷ [])) }
{
    let value = registrations_value(alloc, key, rows)?;
    Ok(serde_json::put(members, alloc, field, value)?)
}

impl WritableRow for Environment {
    ghost use Rattle.cm_write.specs.Writing.{environment_data};

    ghost writes = { environment_data };

    /// An item of `environments`, with all four members.
    fn write(&self, alloc: Global) -> Result<Value, Memory> {
        let mut members = Map::new(alloc);
        put_text(alloc, &mut members, "name", self.name.as_str())?;
        put_text(alloc, &mut members, "extends", extends_word(self.extends))?;
        put_registrations(
            alloc,
            &mut members,
            "runners",
            "runner",
            self.runners.as_slice(),
        )?;
        put_registrations(
            alloc,
            &mut members,
            "debug",
            "protocol",
            self.debug.as_slice(),
        )?;
        Ok(Value::from(members))
    }
}
