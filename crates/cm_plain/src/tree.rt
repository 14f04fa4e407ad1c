//! JSON values that borrow their texts.

ghost use Rattle.std.specs.Prelude.{◌≡◌, option_map, IfOk};
ghost use Rattle.std.specs.Str.{bytes_eq};
ghost use Rattle.serde_json.specs.Find.{get as member_of, get_member, as_str, as_array, as_object};
ghost use Rattle.serde_json.specs.View as json;
ghost use Rattle.cm_plain.specs.JsonTree.{view, items_view, members_view, member_or};

use serde_json::{Map, Number, Value};
use std::alloc::{AllocError, Global};

/// A JSON value whose texts stand in the text that it was read from.
#[derive(Drop)]
pub enum JsonTree<'a> {
    /// `null`.
    Null,
    /// `true` or `false`.
    Bool(bool),
    /// A number.
    Number(Number),
    /// A string.
    Text(&'a str),
    /// An array.
    Array(Vec<JsonTree<'a>>),
    /// An object: its members in the order of the text. Of a repeated key the last value counts.
    Object(Vec<(&'a str, JsonTree<'a>)>),
}

/// Whether two texts are the same. Keys that are compared mostly differ in length, which is seen here, where
/// the function is called: `==` alone is a call for each pair.
#[inline(always)]
pub fn same_text(text: &str, other: &str) -> bool
    ensures { result ≡ bytes_eq text.now other.now }
{
    text.len() == other.len() && text == other
}

/// The value of the member, if it has this key, and else what was found before it.
fn later<'t, 'a>(
    found: Option<&'t JsonTree<'a>>,
    member: &'t (&'a str, JsonTree<'a>),
    key: &str,
) -> Option<&'t JsonTree<'a>>
    ensures { option_map (λ v. view v.now) result
        ≡ member_or (option_map (λ v. view v.now) found.entry) (member.now.0, view member.now.1) key.now }
{
    if same_text(member.0, key) {
        Some(&member.1)
    } else {
        found
    }
}

/// The value of the last member with this key.
#[tactic(auto, using(crate::proofs::lemmas::Tree::last_is_found))]
fn member_named<'t, 'a>(
    members: &'t [(&'a str, JsonTree<'a>)],
    key: &str,
) -> Option<&'t JsonTree<'a>>
    ensures { option_map (λ v. view v.now) result ≡ get_member key.now (members_view members.now) }
{
    let mut found = None;
    for member in members {
        found = later(found, member, key);
    }
    found
}

impl<'a> JsonTree<'a> {
    /// The text, if the value is a string.
    pub fn as_str(&self) -> Option<&str>
        ensures { option_map (λ s. s.now) result ≡ as_str (view self.now) }
    {
        if let JsonTree::Text(text) = self {
            Some(*text)
        } else {
            None
        }
    }

    /// The items, if the value is an array.
    pub fn as_array(&self) -> Option<&Vec<JsonTree<'a>>>
        ensures { option_map (λ v. items_view v.now.items) result ≡ as_array (view self.now) }
    {
        if let JsonTree::Array(items) = self {
            Some(items)
        } else {
            None
        }
    }

    /// The members, if the value is an object.
    pub fn as_object(&self) -> Option<&Vec<(&'a str, JsonTree<'a>)>>
        ensures { option_map (λ m. members_view m.now.items) result ≡ as_object (view self.now) }
    {
        if let JsonTree::Object(members) = self {
            Some(members)
        } else {
            None
        }
    }

    /// The value of a member, if the value is an object and has one with this key.
    pub fn get(&self, key: &str) -> Option<&JsonTree<'a>>
        ensures { option_map (λ v. view v.now) result ≡ member_of key.now (view self.now) }
    {
        match self {
            JsonTree::Object(members) => member_named(members.as_slice(), key),
            _ => None,
        }
    }
}

/// The same value with borrowed texts. `Err` where memory runs out.
#[cycle(tree_of)]
pub fn tree_of(alloc: Global, value: &Value) -> Result<JsonTree<'_>, AllocError>
    ensures { IfOk result (λ tree. view tree ≡ json.view value.now) }
{
    match value {
        Value::Null => Ok(JsonTree::Null),
        Value::Bool(b) => Ok(JsonTree::Bool(*b)),
        Value::Number(number) => Ok(JsonTree::Number(*number)),
        Value::String(text) => Ok(JsonTree::Text(text.as_str())),
        Value::Array(items) => Ok(JsonTree::Array(trees_of(alloc, items)?)),
        Value::Object(members) => Ok(JsonTree::Object(members_of(alloc, members)?)),
    }
}

/// The same items with borrowed texts.
#[cycle(tree_of)]
fn trees_of(alloc: Global, items: &Vec<Value>) -> Result<Vec<JsonTree<'_>>, AllocError>
    ensures { IfOk result (λ trees. items_view trees.items ≡ json.items_view items.now.items) }
{
    let mut trees = Vec::with_capacity(alloc, items.len())?;
    for item in items {
        trees.push(tree_of(alloc, item)?)?;
    }
    Ok(trees)
}

/// The same members with borrowed texts.
#[cycle(tree_of)]
fn members_of(
    alloc: Global,
    members: &Map<String, Value>,
) -> Result<Vec<(&str, JsonTree<'_>)>, AllocError>
    ensures { IfOk result (λ found. members_view found.items ≡ json.members_view members.now.entries) }
{
    let mut found = Vec::with_capacity(alloc, members.len())?;
    for (key, member) in members.iter() {
        let tree = tree_of(alloc, member)?;
        found.push((key.as_str(), tree))?;
    }
    Ok(found)
}
