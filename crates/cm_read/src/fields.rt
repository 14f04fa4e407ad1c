//! The fields of an item.

ghost use Rattle.std.specs.Prelude.{◌≡◌, option_map};
ghost use Rattle.std.specs.List.{list_any};
ghost use Rattle.std.specs.Str.{bytes_eq};
ghost use Rattle.cm_plain.specs.JsonTree.{view, members_view, items_view};
ghost use Rattle.cm_read.specs.Fields as spec;
ghost use Rattle.cm_read.specs.FieldsInside.{map_now, listed_texts_at, listed_names_at, listed_references_at};
ghost use Rattle.cm_read.specs.FieldsInside as spec_inside;
ghost use Rattle.cm_read.specs.ReadingInside.{GivesReading, GivesBy};

use crate::fault::{ItemPlace, ReadFault, fault};
use crate::number::{
    BAD_NAME, BAD_PATH, BAD_RIGHTS, MISSING, UNKNOWN_FIELD, UNKNOWN_WORD, WRONG_TYPE,
};
use crate::rows::one_row;
use cm_names::url::is_url_text;
use cm_names::{CapPath, List, Name, NameFault, PathFault, Rights, SubDir, Text};
use cm_plain::{JsonTree, same_text};
use std::alloc::Global;
use std::cmp::Ordering;

/// The value of a field that has to be there.
pub fn needed<'a, 'b>(
    alloc: Global,
    at: ItemPlace,
    item: &'a JsonTree<'b>,
    key: &str,
) -> Result<&'a JsonTree<'b>, ReadFault>
    ensures { GivesBy (λ v. view v.now) result (spec.needed_at at key.now (view item.now)) }
{
    match item.get(key) {
        Some(value) => Ok(value),
        None => Err(fault(alloc, at, MISSING, key)),
    }
}

/// The text that a value is.
pub fn text_of<'a>(
    alloc: Global,
    at: ItemPlace,
    value: &'a JsonTree<'_>,
    key: &str,
) -> Result<&'a str, ReadFault>
    ensures { GivesBy (λ s. s.now) result (spec.text_at at key.now (view value.now)) }
{
    match value.as_str() {
        Some(text) => Ok(text),
        None => Err(fault(alloc, at, WRONG_TYPE, key)),
    }
}

/// The name that a text is.
pub fn name_from(alloc: Global, at: ItemPlace, key: &str, text: &str) -> Result<Name, ReadFault>
    ensures { GivesReading result (spec.name_from at key.now text.now) }
{
    match Name::read(alloc, text) {
        Ok(name) => Ok(name),
        Err(NameFault::Memory) => Err(ReadFault::Memory),
        Err(_) => Err(fault(alloc, at, BAD_NAME, key)),
    }
}

/// The path that a text is.
fn path_from(alloc: Global, at: ItemPlace, key: &str, text: &str) -> Result<CapPath, ReadFault>
    ensures { GivesReading result (spec.path_from at key.now text.now) }
{
    match CapPath::read(alloc, text) {
        Ok(path) => Ok(path),
        Err(PathFault::Memory) => Err(ReadFault::Memory),
        Err(_) => Err(fault(alloc, at, BAD_PATH, key)),
    }
}

/// The subdirectory that a text is.
fn subdir_from(alloc: Global, at: ItemPlace, key: &str, text: &str) -> Result<SubDir, ReadFault>
    ensures { GivesReading result (spec.subdir_from at key.now text.now) }
{
    match SubDir::read(alloc, text) {
        Ok(path) => Ok(path),
        Err(PathFault::Memory) => Err(ReadFault::Memory),
        Err(_) => Err(fault(alloc, at, BAD_PATH, key)),
    }
}

/// The name that a value is.
#[tactic(auto, unfolding(crate::specs::Fields::name_in_at))]
pub fn name_in(
    alloc: Global,
    at: ItemPlace,
    value: &JsonTree<'_>,
    key: &str,
) -> Result<Name, ReadFault>
    ensures { GivesReading result (spec.name_in_at at key.now (view value.now)) }
{
    let text = text_of(alloc, at, value, key)?;
    name_from(alloc, at, key, text)
}

/// The name in a field that has to be there.
#[tactic(auto, unfolding(crate::specs::Fields::name_at))]
pub fn name_of(
    alloc: Global,
    at: ItemPlace,
    item: &JsonTree<'_>,
    key: &str,
) -> Result<Name, ReadFault>
    ensures { GivesReading result (spec.name_at at key.now (view item.now)) }
{
    let value = needed(alloc, at, item, key)?;
    name_in(alloc, at, value, key)
}

/// The URL text in a field that has to be there.
#[tactic(auto, unfolding(crate::specs::Fields::url_at))]
pub fn url_of(
    alloc: Global,
    at: ItemPlace,
    item: &JsonTree<'_>,
    key: &str,
) -> Result<Text, ReadFault>
    ensures { GivesReading result (spec.url_at at key.now (view item.now)) }
{
    let value = needed(alloc, at, item, key)?;
    let text = text_of(alloc, at, value, key)?;
    if !is_url_text(text) {
        return Err(fault(alloc, at, BAD_NAME, key));
    }
    Ok(Text::from_str(alloc, text)?)
}

/// The path that a value is.
#[tactic(auto, unfolding(crate::specs::Fields::path_in_at))]
pub fn path_in(
    alloc: Global,
    at: ItemPlace,
    value: &JsonTree<'_>,
    key: &str,
) -> Result<CapPath, ReadFault>
    ensures { GivesReading result (spec.path_in_at at key.now (view value.now)) }
{
    let text = text_of(alloc, at, value, key)?;
    path_from(alloc, at, key, text)
}

/// The path in a field that has to be there.
#[tactic(auto, unfolding(crate::specs::Fields::path_at))]
pub fn path_of(
    alloc: Global,
    at: ItemPlace,
    item: &JsonTree<'_>,
    key: &str,
) -> Result<CapPath, ReadFault>
    ensures { GivesReading result (spec.path_at at key.now (view item.now)) }
{
    let value = needed(alloc, at, item, key)?;
    path_in(alloc, at, value, key)
}

/// The subdirectory that a value is.
#[tactic(auto, unfolding(crate::specs::Fields::subdir_in_at))]
fn subdir_in(
    alloc: Global,
    at: ItemPlace,
    value: &JsonTree<'_>,
    key: &str,
) -> Result<SubDir, ReadFault>
    ensures { GivesReading result (spec.subdir_in_at at key.now (view value.now)) }
{
    let text = text_of(alloc, at, value, key)?;
    subdir_from(alloc, at, key, text)
}

/// The subdirectory in a field that may be missing.
#[tactic(auto, unfolding(crate::specs::Fields::subdir_at))]
pub fn subdir_of(
    alloc: Global,
    at: ItemPlace,
    item: &JsonTree<'_>,
    key: &str,
) -> Result<Option<SubDir>, ReadFault>
    ensures { GivesReading result (spec.subdir_at at key.now (view item.now)) }
{
    let Some(value) = item.get(key) else {
        return Ok(None);
    };
    let subdir = subdir_in(alloc, at, value, key)?;
    Ok(Some(subdir))
}

/// The texts that the values are.
fn texts_in(
    alloc: Global,
    at: ItemPlace,
    values: &[JsonTree<'_>],
    key: &str,
) -> Result<List<Text>, ReadFault>
    ensures { GivesReading result (spec.texts_in_at at key.now (items_view values.now)) }
{
    let mut texts = List::new(alloc);
    for value in values {
        let text = text_of(alloc, at, value, key)?;
        texts.push(Text::from_str(alloc, text)?)?;
    }
    Ok(texts)
}

/// The texts that the values are, borrowed.
fn words_in<'a>(
    alloc: Global,
    at: ItemPlace,
    values: &'a [JsonTree<'_>],
    key: &str,
) -> Result<Vec<&'a str>, ReadFault>
    ensures { GivesBy (λ words. map_now words.items) result
        (spec.texts_in_at at key.now (items_view values.now)) }
{
    let mut words = Vec::with_capacity(alloc, values.len())?;
    for value in values {
        let word = text_of(alloc, at, value, key)?;
        words.push(word)?;
    }
    Ok(words)
}

/// The texts that the values are, one or more.
fn words_of<'a>(
    alloc: Global,
    at: ItemPlace,
    values: &'a [JsonTree<'_>],
    key: &str,
) -> Result<Vec<&'a str>, ReadFault>
    ensures { GivesBy (λ words. map_now words.items) result
        (listed_texts_at at key.now (items_view values.now)) }
{
    let words = words_in(alloc, at, values, key)?;
    if words.len() == 0 {
        return Err(fault(alloc, at, WRONG_TYPE, key));
    }
    Ok(words)
}

/// The names that the texts are.
fn each_name(
    alloc: Global,
    at: ItemPlace,
    key: &str,
    texts: &[&str],
) -> Result<List<Name>, ReadFault>
    ensures { GivesReading result (spec.each (spec.name_from at key.now) (map_now texts.now)) }
{
    let mut names = List::with_capacity(alloc, texts.len())?;
    for text in texts {
        names.push(name_from(alloc, at, key, text)?)?;
    }
    Ok(names)
}

/// The names that the values of a list are.
fn listed_names(
    alloc: Global,
    at: ItemPlace,
    values: &[JsonTree<'_>],
    key: &str,
) -> Result<List<Name>, ReadFault>
    ensures { GivesReading result (listed_names_at at key.now (items_view values.now)) }
{
    let words = words_of(alloc, at, values, key)?;
    each_name(alloc, at, key, words.as_slice())
}

/// A name, or a list of one or more names.
#[tactic(auto, unfolding(crate::specs::Fields::names_at, crate::specs::Fields::texts_at))]
pub fn names_of(
    alloc: Global,
    at: ItemPlace,
    value: &JsonTree<'_>,
    key: &str,
) -> Result<List<Name>, ReadFault>
    ensures { GivesReading result (spec.names_at at key.now (view value.now)) }
{
    match value {
        JsonTree::Array(values) => listed_names(alloc, at, values.as_slice(), key),
        _ => {
            let text = text_of(alloc, at, value, key)?;
            let name = name_from(alloc, at, key, text)?;
            one_row(alloc, name)
        }
    }
}

/// What stands after a `#` at the start.
pub fn behind_mark(text: &str) -> Option<&str>
    ensures { option_map (λ s. s.now) result ≡ spec.behind_mark text.now }
{
    text.strip_prefix('#')
}

/// The name of the reference that a text is.
fn reference_from(alloc: Global, at: ItemPlace, key: &str, text: &str) -> Result<Name, ReadFault>
    ensures { GivesReading result (spec.reference_from at key.now text.now) }
{
    match behind_mark(text) {
        None => Err(fault(alloc, at, UNKNOWN_WORD, key)),
        Some(name) => name_from(alloc, at, key, name),
    }
}

/// The names of the references that the texts are.
fn each_reference(
    alloc: Global,
    at: ItemPlace,
    key: &str,
    texts: &[&str],
) -> Result<List<Name>, ReadFault>
    ensures { GivesReading result (spec.each (spec.reference_from at key.now) (map_now texts.now)) }
{
    let mut names = List::with_capacity(alloc, texts.len())?;
    for text in texts {
        names.push(reference_from(alloc, at, key, text)?)?;
    }
    Ok(names)
}

/// The names of the references that the values of a list are.
fn listed_references(
    alloc: Global,
    at: ItemPlace,
    values: &[JsonTree<'_>],
    key: &str,
) -> Result<List<Name>, ReadFault>
    ensures { GivesReading result (listed_references_at at key.now (items_view values.now)) }
{
    let words = words_of(alloc, at, values, key)?;
    each_reference(alloc, at, key, words.as_slice())
}

/// A reference, or a list of one or more references.
#[tactic(auto, unfolding(crate::specs::Fields::references_at, crate::specs::Fields::texts_at))]
pub fn references_of(
    alloc: Global,
    at: ItemPlace,
    value: &JsonTree<'_>,
    key: &str,
) -> Result<List<Name>, ReadFault>
    ensures { GivesReading result (spec.references_at at key.now (view value.now)) }
{
    match value {
        JsonTree::Array(values) => listed_references(alloc, at, values.as_slice(), key),
        _ => {
            let text = text_of(alloc, at, value, key)?;
            let name = reference_from(alloc, at, key, text)?;
            one_row(alloc, name)
        }
    }
}

/// The rights that a list of words stands for.
#[tactic(auto, unfolding(crate::specs::Fields::rights_in_at))]
pub fn rights_in(
    alloc: Global,
    at: ItemPlace,
    value: &JsonTree<'_>,
    key: &str,
) -> Result<Rights, ReadFault>
    ensures { GivesReading result (spec.rights_in_at at key.now (view value.now)) }
{
    let Some(items) = value.as_array() else {
        return Err(fault(alloc, at, WRONG_TYPE, key));
    };
    let words = texts_in(alloc, at, items.as_slice(), key)?;
    match Rights::read_words(words.as_slice()) {
        Ok(rights) => Ok(rights),
        Err(_) => Err(fault(alloc, at, BAD_RIGHTS, key)),
    }
}

/// The rights in a field that has to be there.
#[tactic(auto, unfolding(crate::specs::Fields::rights_at))]
pub fn rights_of(
    alloc: Global,
    at: ItemPlace,
    item: &JsonTree<'_>,
    key: &str,
) -> Result<Rights, ReadFault>
    ensures { GivesReading result (spec.rights_at at key.now (view item.now)) }
{
    let value = needed(alloc, at, item, key)?;
    rights_in(alloc, at, value, key)
}

/// Whether the key is among the known ones.
fn is_known(known: &[&str], key: &str) -> bool
    ensures { result ≡ list_any (λ w. bytes_eq w.now key.now) known.now }
{
    known.iter().any(|word| same_text(word, key))
}

/// The lesser one of two keys, in byte order.
fn lesser<'a>(least: Option<&'a str>, key: &'a str) -> Option<&'a str>
    ensures { option_map (λ s. s.now) result
        ≡ spec_inside.lesser (option_map (λ s. s.now) least.entry) key.now }
{
    match least {
        None => Some(key),
        Some(other) => match key.cmp(other) {
            Ordering::Less => Some(key),
            Ordering::Equal | Ordering::Greater => Some(other),
        },
    }
}

/// The least unknown key after one key more.
fn least_with<'a>(known: &[&str], least: Option<&'a str>, key: &'a str) -> Option<&'a str>
    ensures { option_map (λ s. s.now) result
        ≡ spec_inside.least_with known.now (option_map (λ s. s.now) least.entry) key.now }
{
    if is_known(known, key) {
        least
    } else {
        lesser(least, key)
    }
}

/// The first key that isn't known, in byte order.
#[tactic(auto, using(crate::proofs::lemmas::reading::Keys::least_is_first))]
fn unknown_key<'a>(members: &[(&'a str, JsonTree<'a>)], known: &[&str]) -> Option<&'a str>
    ensures { option_map (λ s. s.now) result
        ≡ spec.unknown_in (map_now known.now) (members_view members.now) }
{
    let mut least = None;
    for member in members {
        least = least_with(known, least, member.0);
    }
    least
}

/// The first key of an item that isn't known, in byte order.
fn unknown_of<'a>(item: &JsonTree<'a>, known: &[&str]) -> Option<&'a str>
    ensures { option_map (λ s. s.now) result
        ≡ spec.unknown_in (map_now known.now) (spec_inside.members_in (view item.now)) }
{
    match item {
        JsonTree::Object(members) => unknown_key(members.as_slice(), known),
        _ => None,
    }
}

/// The item, which has to be an object.
pub fn object_of<'a, 'b>(
    alloc: Global,
    at: ItemPlace,
    item: &'a JsonTree<'b>,
) -> Result<&'a JsonTree<'b>, ReadFault>
    ensures { GivesBy (λ m. spec_inside.members_in (view m.now)) result
        (spec.object_at at (view item.now)) }
{
    match item {
        JsonTree::Object(_) => Ok(item),
        _ => Err(fault(alloc, at, WRONG_TYPE, "")),
    }
}

/// The least key of an item that isn't among the known ones is refused.
pub fn check_known(
    alloc: Global,
    at: ItemPlace,
    item: &JsonTree<'_>,
    known: &[&str],
) -> Result<(), ReadFault>
    ensures { GivesReading result
        (spec.known_at at (map_now known.now) (spec_inside.members_in (view item.now))) }
{
    match unknown_of(item, known) {
        Some(key) => Err(fault(alloc, at, UNKNOWN_FIELD, key)),
        None => Ok(()),
    }
}
