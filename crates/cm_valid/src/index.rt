//! A declaration with its names laid out for look-up.

ghost use Rattle.std.specs.Prelude.{◌≡◌, IfOk};
ghost use Rattle.cm_decl.specs.Rules as rule;
ghost use Rattle.cm_valid.specs.Lookup.{is_child_name};

use crate::names::{Names, capability_names, child_names, collection_names, same_kind};
use cm_decl::{Decl, Kind, Origin};
use cm_names::{ChildName, Memory, Name};
use std::alloc::Global;
use std::marker::Model;

/// A declaration with its names laid out for look-up, which contracts see as the declaration.
#[derive(Drop)]
pub struct NameIndex<'a> {
    /// The declaration whose names these are.
    decl: &'a Decl,
    children: Names<'a>,
    collections: Names<'a>,
    protocols: Names<'a>,
    directories: Names<'a>,
}

impl<'a> Model for NameIndex<'a> {
    ghost use Rattle.cm_decl.specs.declared.decl.Decl.{Decl};
    ghost use Rattle.cm_valid.specs.Lookup.{HasNames};

    ghost Value = { Decl };

    ghost view = { λ a. a.decl.now };

    ghost invariant = { λ a.
        HasNames a.decl.now a.children a.collections a.protocols a.directories };
}

impl<'a> NameIndex<'a> {
    /// Lays out the names of a declaration. `Err` where memory runs out.
    pub fn new(alloc: Global, decl: &'a Decl) -> Result<NameIndex<'a>, Memory>
        ensures { IfOk result (λ index. index ≡ decl.now) }
    {
        let capabilities = decl.capabilities.as_slice();
        Ok(NameIndex {
            decl,
            children: child_names(alloc, decl.children.as_slice())?,
            collections: collection_names(alloc, decl.collections.as_slice())?,
            protocols: capability_names(alloc, Kind::Protocol, capabilities)?,
            directories: capability_names(alloc, Kind::Directory, capabilities)?,
        })
    }

    /// The declaration.
    pub fn decl(&self) -> &'a Decl
        ensures { result.now ≡ self.now }
    {
        self.decl
    }

    /// Whether a declared child has the name.
    pub fn has_child(&self, name: &'a Name) -> bool
        ensures { result ≡ is_child_name self.now name.now }
    {
        self.children.contains(name.as_str())
    }

    /// Whether the child is declared; a child in a collection never is.
    fn is_child(&self, child: &'a ChildName) -> bool
        ensures { result ≡ rule.is_child self.now child.now }
    {
        child.coll.is_none() && self.has_child(&child.name)
    }

    /// Whether a child or a collection has the name.
    pub fn is_target(&self, name: &'a Name) -> bool
        ensures { result ≡ rule.is_target self.now name.now }
    {
        self.has_child(name) || self.collections.contains(name.as_str())
    }

    /// Whether a capability of this kind and name is declared.
    fn is_capability(&self, kind: Kind, name: &'a Name) -> bool
        ensures { result ≡ rule.is_capability self.now kind name.now }
    {
        match kind {
            Kind::Protocol => self.protocols.contains(name.as_str()),
            Kind::Directory => self.directories.contains(name.as_str()),
        }
    }

    /// Whether the source is a child that isn't declared.
    pub fn is_unknown(&self, from: &'a Origin) -> bool
        ensures { result ≡ rule.is_unknown (rule.is_child self.now) from.now }
    {
        match from {
            Origin::Child(child) => !self.is_child(child),
            _ => false,
        }
    }

    /// Whether the source is the component itself without such a capability, or the framework
    /// for a directory.
    pub fn is_undeclared(&self, kind: Kind, from: &'a Origin, name: &'a Name) -> bool
        ensures { result ≡ rule.is_undeclared self.now kind from.now name.now }
    {
        match from {
            Origin::Own => !self.is_capability(kind, name),
            Origin::Framework => same_kind(kind, Kind::Directory),
            _ => false,
        }
    }
}
