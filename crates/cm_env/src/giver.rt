//! What a declaration gives its children.

ghost use Rattle.std.specs.Prelude.{◌≡◌, find, IfOk, option_map, option_and_then};
ghost use Rattle.std.specs.Option.{option_copied};
ghost use Rattle.std.specs.Str.{bytes_eq};
ghost use Rattle.cm_world.specs.Create.{collection_of};
ghost use Rattle.cm_env.specs.Scope as spec;
ghost use Rattle.cm_env.specs.Giving.{told_given};

use crate::lookup::Firsts;
use cm_decl::{Child, Collection, Decl, Environment};
use cm_names::{ChildName, Memory, Name};
use std::alloc::Global;
use std::marker::Model;

/// What a declaration gives a child.
#[derive(Clone, Copy)]
pub(crate) enum GivenEnvironment<'a> {
    /// No environment, so that it has its parent's.
    Realm,
    /// One that isn't declared.
    Undeclared,
    /// This one.
    In(&'a Environment),
}

/// A declaration that gives its children environments, with its names laid out for look-up.
/// Contracts see it as the declaration.
pub(crate) struct Giver<'a> {
    decl: &'a Decl,
    children: Firsts<'a, Child>,
    collections: Firsts<'a, Collection>,
    environments: Firsts<'a, Environment>,
}

impl<'a> Drop for Giver<'a> {
    /// Called where the value goes: gives back the memory of its parts.
    fn drop(self) {
        let Giver {
            decl: _,
            children: _,
            collections: _,
            environments: _,
        } = self;
    }
}

impl<'a> Model for Giver<'a> {
    ghost use Rattle.cm_decl.specs.declared.decl.Decl.{Decl};
    ghost use Rattle.cm_env.specs.Giving.{HasRows};

    ghost Value = { Decl };

    ghost view = { λ a. a.decl.now };

    ghost invariant = { λ a. HasRows a.decl.now a.children a.collections a.environments };
}

impl<'a> Giver<'a> {
    /// Lays out the names of a declaration. `Err` where memory runs out.
    pub(crate) fn new(alloc: Global, decl: &'a Decl) -> Result<Giver<'a>, Memory>
        ensures { IfOk result (λ giver. giver ≡ decl.now) }
    {
        let children = Firsts::new(alloc, decl.children.as_slice())?;
        let collections = Firsts::new(alloc, decl.collections.as_slice())?;
        let environments = Firsts::new(alloc, decl.environments.as_slice())?;
        Ok(Giver {
            decl,
            children,
            collections,
            environments,
        })
    }

    /// What the child of that name is given.
    pub(crate) fn given(&self, child: &'a ChildName) -> GivenEnvironment<'a>
        ensures { let given = spec.environment_given self.now child.now in
            told_given result ≡ option_map (spec.environment_of self.now) given }
    {
        match self.name_given(child) {
            None => GivenEnvironment::Realm,
            Some(name) => match self.environments.get(name.as_str()) {
                None => GivenEnvironment::Undeclared,
                Some(environment) => GivenEnvironment::In(environment),
            },
        }
    }

    /// The name of the environment that the child is given, by its row among the children or by
    /// that of its collection.
    fn name_given(&self, child: &'a ChildName) -> Option<&'a Name>
        ensures { option_copied result ≡ spec.environment_given self.now child.now }
    {
        match &child.coll {
            None => self.given_to_child(&child.name),
            Some(coll) => self.given_to_collection(coll),
        }
    }

    /// The name of the environment that a declared child is given, if it is given one.
    fn given_to_child(&self, name: &'a Name) -> Option<&'a Name>
        ensures { let child = find (λ k. bytes_eq k.name name.now) self.now.children in
            option_copied result ≡ option_and_then (λ k. k.environment) child }
    {
        match self.children.get(name.as_str()) {
            Some(child) => child.environment.as_ref(),
            None => None,
        }
    }

    /// The name of the environment that the children in a collection are given, if they are given one.
    fn given_to_collection(&self, name: &'a Name) -> Option<&'a Name>
        ensures { option_copied result
            ≡ option_and_then (λ k. k.environment) (collection_of self.now name.now) }
    {
        match self.collections.get(name.as_str()) {
            Some(collection) => collection.environment.as_ref(),
            None => None,
        }
    }
}
