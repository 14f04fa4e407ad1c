//! Values that no text reads or that take several: words, lists, monikers and sections.

use super::readers::shown;
use cm_decl::Node;
use cm_names::*;
use std::alloc::Global;
use std::collections::HashMap;

/// Whether the moniker of an instance starts with that of another.
pub fn below(alloc: Global, input: &str) -> Option<Text> {
    let (below, above) = input.split_once(' ')?;
    match Moniker::read(alloc, below) {
        Ok(below) => starts_with(alloc, &below, above),
        Err(_) => None,
    }
}

/// Whether the moniker begins with that of this text, in words; `None` where the text is none.
fn starts_with(alloc: Global, below: &Moniker, above: &str) -> Option<Text> {
    match Moniker::read(alloc, above) {
        Ok(above) => shown(alloc, below.starts_with(&above)),
        Err(_) => None,
    }
}

/// The moniker of the child of an instance by a name.
pub fn child_of(alloc: Global, input: &str) -> Option<Text> {
    let (above, name) = input.split_once(' ')?;
    written(alloc, &below_by(alloc, above, child_name(alloc, name)?)?)
}

/// The name of a child, which may stand in a collection.
fn child_name(alloc: Global, name: &str) -> Option<ChildName> {
    match Moniker::read(alloc, name) {
        Ok(moniker) => copy_of(moniker.parts.last()?),
        Err(_) => None,
    }
}

/// A copy of a child's name; `None` where memory runs out.
fn copy_of(name: &ChildName) -> Option<ChildName> {
    name.clone().ok()
}

/// The moniker of a child with this name below the instance of this moniker.
fn below_by(alloc: Global, above: &str, name: ChildName) -> Option<Moniker> {
    match Moniker::read(alloc, above) {
        Ok(above) => above.child(alloc, name).ok(),
        Err(_) => None,
    }
}

/// The moniker's text; `None` where memory runs out.
fn written(alloc: Global, moniker: &Moniker) -> Option<Text> {
    moniker.write(alloc).ok()
}

/// Whether a moniker is the root's.
pub fn is_root(alloc: Global, input: &str) -> Option<Text> {
    let moniker = Moniker::read(alloc, input).ok()?;
    shown(alloc, moniker.is_root())
}

/// The root's moniker is known as the root's.
#[test]
fn knows_the_root(rt: HostRuntime) {
    assert!(rt; Moniker::root(rt.alloc()).is_root());
}

/// What is required isn't served by what is optional, and the other way it is.
#[test]
fn compares_availabilities(rt: HostRuntime) {
    let required = Availability::Required;
    let optional = Availability::Optional;
    assert!(rt; Availability::fits(optional, required) && !Availability::fits(required, optional));
    assert!(rt; optional.allows_void() && !required.allows_void());
    let passing = Availability::Transitional;
    let same = Availability::SameAsTarget;
    assert!(rt; !Availability::fits(optional, passing) && Availability::fits(required, same));
    assert!(rt; passing.allows_void() && !same.allows_void() && same.stated_itself().is_none());
}

/// A text that is made in three parts.
fn in_parts(alloc: Global) -> Option<Text> {
    let mut text = Text::from_string(String::from_str(alloc, "ab").ok()?).ok()?;
    text.push_str("c").ok()?;
    text.push(7).ok()?;
    Some(text)
}

/// Whether the text that was put together of parts is as it should be, also as a string.
fn is_in_parts(alloc: Global, text: Text) -> bool {
    let is_so = text.len() == 4 && !text.is_empty() && Text::new(alloc) < text;
    match text.into_string() {
        Ok(whole) => is_so && whole.as_str() == "abc7",
        Err(_) => false,
    }
}

/// A text keeps what is pushed to it.
#[test]
fn keeps_texts(rt: HostRuntime) {
    assert!(rt; in_parts(rt.alloc()).is_some_and(|text| is_in_parts(rt.alloc(), text)));
}

/// A list of so many texts.
fn texts(alloc: Global, count: u8) -> Option<List<Text>> {
    let mut list = List::new(alloc);
    for _ in 0..count {
        list.push(in_parts(alloc)?).ok()?;
    }
    Some(list)
}

/// A list of three texts, of which two come from another list.
fn three(alloc: Global) -> Option<List<Text>> {
    let mut list = texts(alloc, 1)?;
    list.append(texts(alloc, 2)?).ok()?;
    Some(list)
}

/// Whether a list's copy equals it.
fn equals_its_copy(list: &List<Text>) -> bool {
    match list.clone() {
        Ok(copied) => copied == *list,
        Err(_) => false,
    }
}

/// Whether a list has three texts and equals its copy.
fn is_kept(list: List<Text>) -> bool {
    list.len() == 3 && !list.is_empty() && list.get(3).is_none() && equals_its_copy(&list)
}

/// How many texts of a list that is taken apart are as they were made.
fn count_made(list: List<Text>) -> usize {
    list.into_vec()
        .as_slice()
        .iter()
        .filter(|text| text.as_str() == "abc7")
        .count()
}

/// Lists keep what is put into them, also where they are copied.
#[test]
fn keeps_lists(rt: HostRuntime) {
    assert!(rt; three(rt.alloc()).is_some_and(is_kept));
    assert!(rt; three(rt.alloc()).is_some_and(|list| count_made(list) == 3));
    assert!(rt; texts(rt.alloc(), 0).is_some_and(|list| list.is_empty()));
}

/// Children with these names and the instance itself.
fn nodes(alloc: Global, names: &str) -> Option<Vec<Node>> {
    let mut nodes = Vec::new(alloc);
    for name in names.split(' ') {
        nodes.push(Node::Child(child_name(alloc, name)?)).ok()?;
    }
    nodes.push(Node::Own).ok()?;
    Some(nodes)
}

/// Children with these names and the instance itself, in order, each with a space after it.
fn ordered(alloc: Global, names: &str) -> Option<Text> {
    let mut nodes = nodes(alloc, names)?;
    nodes.sort().ok()?;
    let mut text = Text::new(alloc);
    for node in nodes.as_slice() {
        text.push(format_args!("{node} ")).ok()?;
    }
    Some(text)
}

/// Nodes are ordered by how they are written, the component itself first.
#[test]
fn orders_nodes_as_written(rt: HostRuntime) {
    let text = ordered(rt.alloc(), "b:b b aa a:z a9 a:b a-b a");
    assert!(rt; text.is_some_and(|text| text.as_str() == "self a a-b a9 a:b a:z aa b b:b "));
}

/// How many children these names tell apart in a map.
fn told_apart(alloc: Global, names: &str) -> Option<usize> {
    let mut map: HashMap<ChildName, ()> = HashMap::new(alloc);
    for name in names.split(' ') {
        map.insert(child_name(alloc, name)?, ()).ok()?;
    }
    Some(map.len())
}

/// Names that are equal have one hash: the texts in them and the names of collections count.
#[test]
fn hashes_names(rt: HostRuntime) {
    assert!(rt; told_apart(rt.alloc(), "a b a:b b:a a a:b c:a b:a a") == Some(5));
}
