//! Names, each of which has those before it.

ghost use Rattle.std.specs.Prelude.{◌≡◌, ◌∷◌, ◌++◌, ◌↔◌, ◌-◌, [], ◌≤◌, length, map, take, slice_get, false};
ghost use Rattle.std.specs.Prelude.{IsTrue, IfOk};
ghost use Rattle.std.specs.Option.{option_copied};
ghost use Rattle.std.specs.Cmp.Lexicographic.{pointwise};
ghost use Rattle.cm_names.specs.Chains.{names_of, IsDeep};
ghost use Rattle.cm_names.specs.ChainsInside.{depth_of};

use crate::{ChildName, Memory, Shared};
use std::alloc::{AllocError, Global};
use std::sync::Arc;

/// The last name, if there is one, with those before it.
#[cycle(link)]
pub(crate) enum NameLink {
    /// No name.
    Root,
    /// This name and those before it.
    Below(Arc<LinkedName>),
}

/// One name, and those before it.
#[cycle(link)]
pub(crate) struct LinkedName {
    /// Those before it.
    above: NameLink,
    /// The name.
    name: Shared<ChildName>,
    /// How many they are together.
    depth: usize,
}

/// It lets go one name after another, so it needs no more of the stack for many than for few.
impl Drop for NameLink {
    fn drop(mut self) {
        loop {
            match self {
                NameLink::Root => return,
                NameLink::Below(shared) => match Arc::into_inner(shared) {
                    None => return,
                    Some(step) => {
                        let LinkedName {
                            above,
                            name: _,
                            depth: _,
                        } = step;
                        self = above;
                    }
                },
            }
        }
    }
}

impl NameLink {
    /// The same names. `Err` comes where they have more owners than can be counted.
    pub(crate) fn share(&self) -> Result<NameLink, AllocError>
        ensures names { IfOk result (λ made. names_of made ≡ names_of self.now) }
        ensures deep { IsDeep self.now → IfOk result IsDeep }
    {
        match self {
            NameLink::Root => Ok(NameLink::Root),
            NameLink::Below(shared) => Ok(NameLink::Below(Arc::try_clone(shared)?)),
        }
    }

    /// How many names there are.
    pub(crate) fn depth(&self) -> usize
        ensures { result ≡ depth_of self.now }
    {
        match self {
            NameLink::Root => 0,
            NameLink::Below(shared) => shared.as_ref().depth,
        }
    }

    /// The last name.
    pub(crate) fn last(&self) -> Option<&ChildName>
        ensures { let all = names_of self.now in option_copied result ≡ slice_get all (length all - 1) }
    {
        match self {
            NameLink::Root => None,
            NameLink::Below(shared) => Some(shared.as_ref().name.get()),
        }
    }

    /// The first `count` names.
    pub(crate) fn upto(&self, count: usize) -> &NameLink
        requires deep { IsDeep self.now }
        requires count { count ≤ length (names_of self.now) }
        ensures names { names_of result.now ≡ take count (names_of self.now) }
        ensures deep { IsDeep result.now }
    {
        let mut at = self;
        while let NameLink::Below(shared) = at {
            let step = shared.as_ref();
            if step.depth <= count {
                return at;
            }
            at = &step.above;
        }
        at
    }

    /// The names, from the first on. `Err(Memory)` comes where memory runs out.
    pub(crate) fn names(&self, alloc: Global) -> Result<Vec<&ChildName>, Memory>
        ensures { IfOk result (λ found. map (λ x. x.now) found.items ≡ names_of self.now) }
    {
        let mut found = Vec::with_capacity(alloc, self.depth())?;
        let mut at = self;
        while let NameLink::Below(shared) = at {
            let step = shared.as_ref();
            found.push(step.name.get())?;
            at = &step.above;
        }
        found.reverse();
        Ok(found)
    }

    /// Puts these names before its own, where it has one alone that nobody shares: this takes no
    /// memory. `false` where it has not; then it is as before.
    pub(crate) fn hang(&mut self, above: &NameLink) -> bool
        requires above { IsDeep above.now }
        requires own { IsDeep self.old }
        ensures hung { IsTrue result → names_of self.new ≡ names_of above.now ++ names_of self.old }
        ensures same { result ≡ false → names_of self.new ≡ names_of self.old }
        ensures deep { IsDeep self.new }
    {
        let NameLink::Below(shared) = self else {
            return false;
        };
        let Some(step) = Arc::get_mut(shared) else {
            return false;
        };
        if !step.above.is_root() {
            return false;
        }
        let Some(depth) = above.depth().checked_add(1) else {
            return false;
        };
        let Ok(above) = above.share() else {
            return false;
        };
        step.above = above;
        step.depth = depth;
        true
    }

    /// Whether there are no names.
    fn is_root(&self) -> bool
        ensures { IsTrue result ↔ (names_of self.now ≡ []) }
    {
        match self {
            NameLink::Root => true,
            NameLink::Below(_) => false,
        }
    }

    /// These names with one more at the end. `Err(Memory)` comes where memory runs out.
    pub(crate) fn below(self, alloc: Global, name: Shared<ChildName>) -> Result<NameLink, Memory>
        ensures names { IfOk result (λ made. names_of made ≡ names_of self ++ name ∷ []) }
        ensures deep { IsDeep self → IfOk result IsDeep }
    {
        let Some(depth) = self.depth().checked_add(1) else {
            return Err(Memory);
        };
        let step = LinkedName {
            above: self,
            name,
            depth,
        };
        match Arc::new(alloc, step) {
            Ok(shared) => Ok(NameLink::Below(shared)),
            Err(failed) => {
                let LinkedName {
                    above: _,
                    name: _,
                    depth: _,
                } = failed.value;
                Err(Memory)
            }
        }
    }
}

/// Whether both have the same names.
pub(crate) fn same(link: &NameLink, other: &NameLink) -> bool
    requires deep { IsDeep link.now }
    requires other { IsDeep other.now }
    ensures { result ≡ pointwise ⟦<ChildName as PartialEq>⟧.eq (names_of link.now) (names_of other.now) }
{
    if link.depth() != other.depth() {
        return false;
    }
    let mut at = link;
    let mut beside = other;
    while let (NameLink::Below(one), NameLink::Below(two)) = (at, beside) {
        let one = one.as_ref();
        let two = two.as_ref();
        if one.name != two.name {
            return false;
        }
        at = &one.above;
        beside = &two.above;
    }
    true
}

/// Whether the names of a list and those up to a link are the same.
pub(crate) fn agree(names: &[ChildName], link: &NameLink) -> bool
    requires { IsDeep link.now }
    ensures { result ≡ pointwise ⟦<ChildName as PartialEq>⟧.eq names.now (names_of link.now) }
{
    if names.len() != link.depth() {
        return false;
    }
    let mut left = names.len();
    let mut at = link;
    while let NameLink::Below(shared) = at {
        let step = shared.as_ref();
        left -= 1;
        if names[left] != *step.name.get() {
            return false;
        }
        at = &step.above;
    }
    true
}
