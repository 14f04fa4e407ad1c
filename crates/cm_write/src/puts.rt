//! What the written items have in common: the words, and the members of an object.

ghost use Rattle.std.specs.Prelude.{◌≡◌, [], ◌∷◌, ◌++◌, map, codes, IfOk, OnOk};
ghost use Rattle.serde_json.specs.Data.{string, array};
ghost use Rattle.serde_json.specs.View.{view, items_of};
ghost use Rattle.cm_names.specs.Availability as names;
ghost use Rattle.cm_decl.specs.Words.{kind_word};
ghost use Rattle.cm_write.specs.Writing as spec;
ghost use Rattle.cm_write.specs.WritingInside as spec_inside;
ghost use Rattle.cm_write.specs.WritingInside.{Puts};

use cm_decl::{Durability, Kind, Origin};
use cm_names::{Availability, CapPath, Dependency, Memory, Name, Rights, SubDir, Text};
use serde_json::{Map, Value};
use std::alloc::{AllocError, Global};

/// What is written as a JSON value.
pub trait WritableRow {
    ghost use Rattle.serde_json.specs.Data.{Data};

    ghost writes: { Self → Data };

    /// The value that this is written as.
    fn write(&self, alloc: Global) -> Result<Value, Memory>
        ensures { IfOk result (λ v. view v ≡ writes self.now) };
}

/// Puts what each is written as at the end.
pub fn push_each<T: WritableRow>(
    alloc: Global,
    values: &mut Vec<Value>,
    rows: &[T],
) -> Result<(), Memory>
    ensures { OnOk result
        (map view values.new.items ≡ map view values.old.items ++ map T.writes rows.now) }
{
    for row in rows {
        values.push(row.write(alloc)?)?;
    }
    Ok(())
}

/// The list of what each is written as.
fn list_of<T: WritableRow>(alloc: Global, rows: &[T]) -> Result<Value, Memory>
    ensures { IfOk result (λ v. view v ≡ spec.list_of T.writes rows.now) }
{
    let mut values = Vec::new(alloc);
    push_each(alloc, &mut values, rows)?;
    Ok(Value::from(values))
}

impl WritableRow for Text {
    ghost use Rattle.serde_json.specs.Data.{string};

    ghost writes = { string };

    /// The text as a JSON string.
    fn write(&self, alloc: Global) -> Result<Value, Memory> {
        Ok(Value::try_from_str(alloc, self.as_str())?)
    }
}

/// The field that names a capability of this kind: `protocol` or `directory`.
pub fn word_of(kind: Kind) -> &'static str
    ensures { result.now ≡ kind_word kind }
{
    match kind {
        Kind::Protocol => "protocol",
        Kind::Directory => "directory",
    }
}

/// The word that `startup` has for it.
pub fn startup_word(eager: bool) -> &'static str
    ensures { result.now ≡ spec.startup_word eager }
{
    if eager { "eager" } else { "lazy" }
}

/// The word that `allowed_offers` has for it.
pub fn offers_word(dynamic_offers: bool) -> &'static str
    ensures { result.now ≡ spec.offers_word dynamic_offers }
{
    if dynamic_offers {
        "static_and_dynamic"
    } else {
        "static_only"
    }
}

/// The word that `durability` has for it.
pub fn durability_word(durability: Durability) -> &'static str
    ensures { result.now ≡ spec.durability_word durability }
{
    match durability {
        Durability::Transient => "transient",
        Durability::SingleRun => "single_run",
    }
}

/// The word that `dependency` has for it.
pub fn dependency_word(dependency: Dependency) -> &'static str
    ensures { result.now ≡ names.dependency_word dependency }
{
    match dependency {
        Dependency::Strong => "strong",
        Dependency::Weak => "weak",
    }
}

/// The word that `availability` has for it.
pub fn availability_word(availability: Availability) -> &'static str
    ensures { result.now ≡ names.availability_word availability }
{
    match availability {
        Availability::Required => "required",
        Availability::Optional => "optional",
        Availability::Transitional => "transitional",
        Availability::SameAsTarget => "same_as_target",
    }
}

/// The word that `storage_id` has for it.
pub fn storage_id_word(by_moniker: bool) -> &'static str
    ensures { result.now ≡ spec.storage_id_word by_moniker }
{
    if by_moniker {
        "static_instance_id_or_moniker"
    } else {
        "static_instance_id"
    }
}

/// The word that `extends` has for it.
pub fn extends_word(extends: bool) -> &'static str
    ensures { result.now ≡ spec.extends_word extends }
{
    if extends { "realm" } else { "none" }
}

/// A reference to a name: `#` and the name. `Err` comes where memory runs out.
fn reference(alloc: Global, name: &Name) -> Result<Text, Memory>
    ensures { IfOk result (λ text. text ≡ spec.reference name.now) }
{
    let mut text = Text::from_str(alloc, "#")?;
    text.push_str(name.as_str())?;
    Ok(text)
}

/// The word of an origin, or a reference.
fn origin_text(alloc: Global, origin: &Origin) -> Result<Text, Memory>
    ensures { IfOk result (λ text. text ≡ spec.origin_text origin.now) }
{
    match origin {
        Origin::Parent => Text::from_str(alloc, "parent"),
        Origin::Own => Text::from_str(alloc, "self"),
        Origin::Framework => Text::from_str(alloc, "framework"),
        Origin::Child(child) => {
            let mut text = Text::new(alloc);
            text.push(format_args!("#{child}"))?;
            Ok(text)
        }
        Origin::Void => Text::from_str(alloc, "void"),
    }
}

/// Puts a text among the members.
pub fn put_text(
    alloc: Global,
    members: &mut Map<String, Value>,
    key: &str,
    text: &str,
) -> Result<(), AllocError>
    ensures { OnOk result
        (Puts members.old.entries members.new.entries ((key.now, string text.now) ∷ [])) }
{
    let value = Value::try_from_str(alloc, text)?;
    serde_json::put(members, alloc, key, value)
}

/// Puts the member `from` of this source among an item's members. `Err` comes where memory runs out.
pub fn put_from(
    alloc: Global,
    members: &mut Map<String, Value>,
    from: &Origin,
) -> Result<(), Memory>
    ensures { OnOk result
        (Puts members.old.entries members.new.entries
        ((codes "from", string (spec.origin_text from.now)) ∷ [])) }
{
    let text = origin_text(alloc, from)?;
    Ok(put_text(alloc, members, "from", text.as_str())?)
}

/// Puts `to` among the members, a reference.
pub fn put_to(alloc: Global, members: &mut Map<String, Value>, to: &Name) -> Result<(), Memory>
    ensures { OnOk result
        (Puts members.old.entries members.new.entries
        ((codes "to", string (spec.reference to.now)) ∷ [])) }
{
    let text = reference(alloc, to)?;
    Ok(put_text(alloc, members, "to", text.as_str())?)
}

/// Puts a list among the members.
pub fn put_list<T: WritableRow>(
    alloc: Global,
    members: &mut Map<String, Value>,
    key: &str,
    rows: &[T],
) -> Result<(), Memory>
    ensures { OnOk result
        (Puts members.old.entries members.new.entries
        ((key.now, spec.list_of T.writes rows.now) ∷ [])) }
{
    let value = list_of(alloc, rows)?;
    Ok(serde_json::put(members, alloc, key, value)?)
}

/// Puts a list of values among the members.
pub fn put_values(
    alloc: Global,
    members: &mut Map<String, Value>,
    key: &str,
    values: Vec<Value>,
) -> Result<(), Memory>
    ensures { OnOk result
        (Puts members.old.entries members.new.entries
        ((key.now, array (items_of (map view values.items))) ∷ [])) }
{
    let value = Value::from(values);
    Ok(serde_json::put(members, alloc, key, value)?)
}

/// Puts `environment` among the members, where there is one.
pub fn put_environment(
    alloc: Global,
    members: &mut Map<String, Value>,
    environment: &Option<Name>,
) -> Result<(), Memory>
    ensures { OnOk result
        (Puts members.old.entries members.new.entries (spec.environment_pair environment.now)) }
{
    match environment {
        Some(name) => {
            let text = reference(alloc, name)?;
            Ok(put_text(alloc, members, "environment", text.as_str())?)
        }
        None => Ok(()),
    }
}

/// Puts `rights` among the members, where there are any.
pub fn put_rights(
    alloc: Global,
    members: &mut Map<String, Value>,
    rights: Option<Rights>,
) -> Result<(), Memory>
    ensures { OnOk result
        (Puts members.old.entries members.new.entries (spec.rights_pair rights)) }
{
    match rights {
        Some(rights) => {
            let words = rights.words(alloc)?;
            put_list(alloc, members, "rights", words.as_slice())
        }
        None => Ok(()),
    }
}

/// Puts `subdir` among the members, where there is one.
pub fn put_subdir(
    alloc: Global,
    members: &mut Map<String, Value>,
    subdir: &Option<SubDir>,
) -> Result<(), Memory>
    ensures { OnOk result
        (Puts members.old.entries members.new.entries (spec.subdir_pair subdir.now)) }
{
    match subdir {
        Some(subdir) => Ok(put_text(alloc, members, "subdir", subdir.as_str())?),
        None => Ok(()),
    }
}

/// A use of which nothing but the name, the source and the path is kept.
pub fn plain_use(
    alloc: Global,
    key: &str,
    name: &Name,
    from: &str,
    path: &CapPath,
) -> Result<Value, Memory>
    ensures { IfOk result
        (λ v. view v ≡ spec_inside.plain_use key.now name.now from.now path.now) }
{
    let mut members = Map::new(alloc);
    put_text(alloc, &mut members, key, name.as_str())?;
    put_text(alloc, &mut members, "from", from)?;
    put_text(alloc, &mut members, "path", path.as_str())?;
    Ok(Value::from(members))
}

/// Puts `rights` and `subdir` among the members, where they are there.
#[tactic(auto, using(crate::proofs::lemmas::Pair::with_pairs_append))]
pub fn put_limits(
    alloc: Global,
    members: &mut Map<String, Value>,
    rights: Option<Rights>,
    subdir: &Option<SubDir>,
) -> Result<(), Memory>
    ensures { OnOk result
        (Puts members.old.entries members.new.entries
        (spec.rights_pair rights ++ spec.subdir_pair subdir.now)) }
{
    put_rights(alloc, members, rights)?;
    put_subdir(alloc, members, subdir)
}
