//! Lists of names that share their prefixes.

ghost use Rattle.std.specs.Prelude.{◌≡◌, ◌∷◌, ◌++◌, ◌↔◌, ◌-◌, [], ◌≤◌, ◌<◌, length, map, take, slice_get};
ghost use Rattle.std.specs.Prelude.{IsTrue, IfOk, IfSome, get_or, false};
ghost use Rattle.std.specs.Option.{option_copied};
ghost use Rattle.std.specs.Cmp.Lexicographic.{pointwise};
ghost use Rattle.std.specs.List.{starts_with};
ghost use Rattle.cm_names.specs.ChainsInside.{names_in, IsPrefixDeep};

use crate::link::{NameLink, agree, same};
use crate::{ChildName, List, Memory, Plain, Shared};
use std::alloc::{AllocError, Global};
use std::fmt;
use std::marker::Model;

/// How the names are kept.
pub(crate) enum Kept {
    /// In one list, as they were read, which copies share.
    Listed(Shared<List<ChildName>>),
    /// Each with those before it, which others may have too.
    Linked(NameLink),
}

impl Drop for Kept {
    fn drop(self) {
        match self {
            Kept::Listed(_) => {}
            Kept::Linked(_) => {}
        }
    }
}

/// A list of names that may be the prefix of others, which share it then. Contracts see it as the
/// list of its names.
///
/// What grows out of it by [`Chain::with`] shares its names and takes memory for one name more,
/// unless they were given as a list. A copy takes no memory.
pub struct Chain {
    kept: Kept,
}

impl Drop for Chain {
    fn drop(self) {
        let Chain { kept: _ } = self;
    }
}

impl Model for Chain {
    ghost use Rattle.std.specs.Prelude.{List as Seq};
    ghost use Rattle.cm_names.specs.declared.child.ChildName.{ChildName};
    ghost use Rattle.cm_names.specs.Chains.{names_kept, IsKeptDeep};

    ghost Value = { Seq ChildName };

    ghost view = { λ a. names_kept a.kept };

    ghost invariant = { λ a. IsKeptDeep a.kept };
}

/// A prefix of a chain, as it is kept.
pub(crate) enum Prefix<'a> {
    /// Names of a list.
    Listed(&'a [ChildName]),
    /// Names that are linked.
    Linked(&'a NameLink),
}

impl<'a> Prefix<'a> {
    /// How many names there are.
    fn len(self) -> usize
        requires { IsPrefixDeep self }
        ensures { result ≡ length (names_in self.entry) }
    {
        match self {
            Prefix::Listed(names) => names.len(),
            Prefix::Linked(link) => link.depth(),
        }
    }

    /// The first `count` names.
    fn upto(self, count: usize) -> Prefix<'a>
        requires deep { IsPrefixDeep self }
        requires count { count ≤ length (names_in self) }
        ensures names { names_in result ≡ take count (names_in self.entry) }
        ensures deep { IsPrefixDeep result }
    {
        match self {
            Prefix::Listed(names) => Prefix::Listed(&names[..count]),
            Prefix::Linked(link) => Prefix::Linked(link.upto(count)),
        }
    }

    /// The last name.
    fn last(self) -> Option<&'a ChildName>
        ensures { let all = names_in self.entry in option_copied result ≡ slice_get all (length all - 1) }
    {
        match self {
            Prefix::Listed(names) => names.last(),
            Prefix::Linked(link) => link.last(),
        }
    }

    /// Whether both have the same names.
    fn same(self, other: Prefix<'a>) -> bool
        requires one { IsPrefixDeep self }
        requires other { IsPrefixDeep other }
        ensures { result ≡ pointwise ⟦<ChildName as PartialEq>⟧.eq
            (names_in self.entry) (names_in other.entry) }
    {
        match (self, other) {
            (Prefix::Listed(one), Prefix::Listed(other)) => one == other,
            (Prefix::Listed(one), Prefix::Linked(other)) => agree(one, other),
            (Prefix::Linked(one), Prefix::Listed(other)) => agree(other, one),
            (Prefix::Linked(one), Prefix::Linked(other)) => same(one, other),
        }
    }
}

impl Chain {
    /// No names, which take no memory.
    pub fn new() -> Chain
        ensures { result ≡ [] }
    {
        Chain {
            kept: Kept::Linked(NameLink::Root),
        }
    }

    /// The names of a list.
    pub fn from_list(names: Shared<List<ChildName>>) -> Chain
        ensures { result ≡ names }
    {
        Chain {
            kept: Kept::Listed(names),
        }
    }

    /// All names, as they are kept.
    fn whole(&self) -> Prefix<'_>
        ensures names { names_in result ≡ self.now }
        ensures deep { IsPrefixDeep result }
    {
        match &self.kept {
            Kept::Listed(names) => Prefix::Listed(names.get().as_slice()),
            Kept::Linked(link) => Prefix::Linked(link),
        }
    }

    /// The number of names.
    pub fn len(&self) -> usize
        ensures { result ≡ length self.now }
    {
        self.whole().len()
    }

    /// Whether there is no name.
    pub fn is_empty(&self) -> bool
        ensures { IsTrue result ↔ (self.now ≡ []) }
    {
        self.whole().len() == 0
    }

    /// The last name, or `None` where there is none.
    pub fn last(&self) -> Option<&ChildName>
        ensures { option_copied result ≡ slice_get self.now (length self.now - 1) }
    {
        self.whole().last()
    }

    /// The name at `index`, or `None` where the list ends before it. Where the names are linked, it
    /// goes past all that stand behind it.
    pub fn get(&self, index: usize) -> Option<&ChildName>
        ensures { option_copied result ≡ slice_get self.now index }
    {
        if index >= self.len() {
            return None;
        }
        self.whole().upto(index + 1).last()
    }

    /// The name at `index`. Where the names are linked, it goes past all that stand behind it.
    pub fn at(&self, index: usize) -> &ChildName
        requires { index < length self.now }
        ensures { result.now ≡ get_or self.now index result.now }
    {
        match self.get(index) {
            Some(name) => name,
            None => unreachable!(),
        }
    }

    /// The names, where they were given as a list, and `None` where they are linked.
    pub fn listed(&self) -> Option<&[ChildName]>
        ensures { IfSome result (λ names. names.now ≡ self.now) }
    {
        match &self.kept {
            Kept::Listed(names) => Some(names.get().as_slice()),
            Kept::Linked(_) => None,
        }
    }

    /// The names, from the first on. `Err(Memory)` comes where memory runs out.
    pub fn items(&self, alloc: Global) -> Result<Vec<&ChildName>, Memory>
        ensures { IfOk result (λ found. map (λ x. x.now) found.items ≡ self.now) }
    {
        match &self.kept {
            Kept::Listed(names) => all_of(alloc, names.get().as_slice()),
            Kept::Linked(link) => link.names(alloc),
        }
    }

    /// Puts the names of `above` before its own, where both are linked and it has one name alone
    /// that nobody shares: this takes no memory. `false` where they are not; then it is as before.
    pub fn hang(&mut self, above: &Chain) -> bool
        ensures hung { IsTrue result → self.new ≡ above.now ++ self.old }
        ensures same { result ≡ false → self.new ≡ self.old }
    {
        let Kept::Linked(above) = &above.kept else {
            return false;
        };
        let Kept::Linked(own) = &mut self.kept else {
            return false;
        };
        own.hang(above)
    }

    /// These names with one more at the end. `Err(Memory)` comes where memory runs out.
    pub fn with(&self, alloc: Global, name: Shared<ChildName>) -> Result<Chain, Memory>
        ensures { IfOk result (λ made. made ≡ self.now ++ name ∷ []) }
    {
        match &self.kept {
            Kept::Listed(names) => {
                let mut names = names.get().clone()?;
                names.push(name.get().clone()?)?;
                Ok(Chain::from_list(Shared::new(alloc, names)?))
            }
            Kept::Linked(link) => {
                let above = link.share()?;
                let link = above.below(alloc, name)?;
                Ok(Chain {
                    kept: Kept::Linked(link),
                })
            }
        }
    }

    /// The first `count` names. `Err(Memory)` comes where memory runs out.
    pub fn upto(&self, alloc: Global, count: usize) -> Result<Chain, Memory>
        requires { count ≤ length self.now }
        ensures { IfOk result (λ made. made ≡ take count self.now) }
    {
        match &self.kept {
            Kept::Listed(names) => {
                let prefix = &names.get().as_slice()[..count];
                let prefix = List::from_vec(prefix.to_vec(alloc)?);
                Ok(Chain::from_list(Shared::new(alloc, prefix)?))
            }
            Kept::Linked(link) => {
                let link = link.upto(count).share()?;
                Ok(Chain {
                    kept: Kept::Linked(link),
                })
            }
        }
    }

    /// Whether it begins with the names of `prefix`.
    pub fn starts_with(&self, prefix: &Chain) -> bool
        ensures { result ≡ starts_with ⟦<ChildName as PartialEq>⟧.eq self.now prefix.now }
    {
        let count = prefix.len();
        if count > self.len() {
            return false;
        }
        prefix.whole().same(self.whole().upto(count))
    }
}

/// The names of a list, one by one. `Err(Memory)` comes where memory runs out.
fn all_of(alloc: Global, names: &[ChildName]) -> Result<Vec<&ChildName>, Memory>
    ensures { IfOk result (λ found. map (λ x. x.now) found.items ≡ names.now) }
{
    let mut found = Vec::with_capacity(alloc, names.len())?;
    for name in names {
        found.push(name)?;
    }
    Ok(found)
}

/// A copy takes no memory.
impl Clone for Chain {
    ghost use Rattle.std.specs.Prelude.{◌≡◌};

    ghost is_clone = { λ a b. b ≡ a };

    fn clone(&self) -> Result<Chain, AllocError> {
        match &self.kept {
            Kept::Listed(names) => {
                let names = names.clone()?;
                Ok(Chain {
                    kept: Kept::Listed(names),
                })
            }
            Kept::Linked(link) => {
                let link = link.share()?;
                Ok(Chain {
                    kept: Kept::Linked(link),
                })
            }
        }
    }
}

impl Plain for Chain {
    ghost exact = { λ a b same. same };
}

/// It is written as the list of its names.
impl fmt::Debug for Chain {
    fn fmt<W: fmt::Write>(&self, f: &mut fmt::Formatter<W>) -> fmt::Result {
        let mut list = f.debug_list();
        for index in 0..self.len() {
            list.entry(self.at(index));
        }
        list.finish()
    }
}

/// Two are equal where their names are, however they are kept.
impl PartialEq for Chain {
    ghost use Rattle.std.specs.Cmp.{partial_equiv_from_equiv};
    ghost use Rattle.std.specs.Cmp.Lexicographic.{pointwise, lists_equiv};
    ghost use Rattle.cm_names.specs.ChainsInside.{same_equiv};

    ghost eq = { pointwise ⟦<ChildName as PartialEq>⟧.eq };

    ghost laws = { partial_equiv_from_equiv (lists_equiv same_equiv) };

    fn eq(&self, other: &Chain) -> bool {
        self.whole().same(other.whole())
    }
}

impl Eq for Chain {
    ghost use Rattle.std.specs.Cmp.Lexicographic.{lists_equiv};
    ghost use Rattle.cm_names.specs.ChainsInside.{same_equiv};

    ghost laws = { lists_equiv same_equiv };
}
