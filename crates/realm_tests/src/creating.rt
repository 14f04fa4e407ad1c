//! Creates children, by words that stand as in a command to create one.

use crate::words::{moniker_of, name_of};
use cm_decl::{Give, Kind, Origin};
use cm_names::{Availability, ChildName, Dependency, List, Moniker, Name, Text};
use cm_steps::{NoStep, Realm};
use std::alloc::Global;

/// Creates a child, whose parent isn't read from the words. After `+` stands the protocol of a child that
/// is offered to it alone, if one is.
pub fn create(
    realm: &mut Realm,
    alloc: Global,
    caller: u32,
    parent: u64,
    words: &str,
) -> Option<Option<NoStep>> {
    let (_, rest) = words.split_once(" . ")?;
    let (child, offer) = rest.split_once(" + protocol ").unwrap_or((rest, ""));
    let (names, url) = child.rsplit_once(' ')?;
    match offered(alloc, offer) {
        Some(gives) => create_with(realm, alloc, caller, parent, names, url, gives),
        None => None,
    }
}

/// Creates a child with these names, this URL and these offers; the inner value says why no step was
/// made.
fn create_with(
    realm: &mut Realm,
    alloc: Global,
    caller: u32,
    parent: u64,
    names: &str,
    url: &str,
    gives: List<Give>,
) -> Option<Option<NoStep>> {
    match both_names(alloc, names) {
        Some((coll, name)) => match Text::from_str(alloc, url) {
            Ok(url) => {
                let made = realm.create(alloc, caller, parent, coll, name, url, gives);
                Some(made.err())
            }
            Err(_) => {
                drop(coll);
                drop(name);
                drop(gives);
                None
            }
        },
        None => {
            drop(gives);
            None
        }
    }
}

/// Two names, between which a space stands.
fn both_names(alloc: Global, names: &str) -> Option<(Name, Name)> {
    let (first, second) = names.split_once(' ')?;
    match name_of(alloc, first) {
        Some(first) => match name_of(alloc, second) {
            Some(second) => Some((first, second)),
            None => {
                drop(first);
                None
            }
        },
        None => None,
    }
}

/// What is offered to a child: the protocol of an offer, or nothing where there is no offer.
fn offered(alloc: Global, offer: &str) -> Option<List<Give>> {
    if offer.is_empty() {
        return Some(List::new(alloc));
    }
    let (protocol, source) = offer.split_once(" #")?;
    match give_of(alloc, protocol, source) {
        Some(give) => only(alloc, give),
        None => None,
    }
}

/// A list of this one offer; `None` where memory runs out.
fn only(alloc: Global, give: Give) -> Option<List<Give>> {
    let mut gives = List::new(alloc);
    match gives.push(give) {
        Ok(()) => Some(gives),
        Err(_) => {
            drop(gives);
            None
        }
    }
}

/// The offer of a protocol of a child, under its own name.
fn give_of(alloc: Global, protocol: &str, source: &str) -> Option<Give> {
    match child_of(alloc, source) {
        Some(child) => match twice(alloc, protocol) {
            Some((source_name, target_name)) => Some(Give {
                kind: Kind::Protocol,
                source_name,
                from: Origin::Child(child),
                target_name,
                rights: None,
                subdir: None,
                dependency: Dependency::Strong,
                availability: Availability::Required,
            }),
            None => {
                drop(child);
                None
            }
        },
        None => None,
    }
}

/// A name of this text, and a copy of it; `None` where the text is none.
fn twice(alloc: Global, word: &str) -> Option<(Name, Name)> {
    match name_of(alloc, word) {
        Some(name) => match name.clone() {
            Ok(copied) => Some((name, copied)),
            Err(_) => {
                drop(name);
                None
            }
        },
        None => None,
    }
}

/// The name of a child by its moniker.
fn child_of(alloc: Global, word: &str) -> Option<ChildName> {
    match moniker_of(alloc, word) {
        Some(moniker) => {
            let child = last_of(&moniker);
            drop(moniker);
            child
        }
        None => None,
    }
}

/// The last name of a moniker; `None` for the root's.
fn last_of(moniker: &Moniker) -> Option<ChildName> {
    moniker.parts.last()?.clone().ok()
}
