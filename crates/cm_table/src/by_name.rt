//! Children found by their names.

ghost use Rattle.std.specs.Prelude.{◌≡◌, ℕ, None, Some, OnOk, OnErr, if◌then◌else◌};
ghost use Rattle.std.specs.Ordering.{nat_cmp, is_eq};
ghost use Rattle.std.specs.BTreeMap.{get};
ghost use Rattle.cm_names.specs.declared.child.ChildName.{ChildName as Name};
ghost use Rattle.cm_decl.specs.Same.{same_child};
ghost use Rattle.cm_table.specs.Names.{child_cmp};
ghost use Rattle.cm_table.specs.ByName as spec;
ghost use Rattle.cm_table.specs.ByName.{led_to};

use cm_names::{ChildName, Memory, Name as OneName};
use std::alloc::Global;
use std::collections::BTreeMap;

/// A child with its name.
#[derive(Drop)]
pub struct NamedChild {
    /// Its name.
    pub name: ChildName,
    /// How far it is above the base of the index.
    pub above: u64,
}

/// Children by their names. A word of 64 bits is made of a name, and looked for among those of the others; so
/// one name is compared and not all that stand on the way. Whose word another name had first is looked for by
/// the order of names: no choice of names makes a look-up slower than such an order does, by more than one
/// search among numbers.
#[derive(Drop)]
pub struct ChildrenByName {
    /// The child of each word that came first.
    pub first: BTreeMap<u64, NamedChild>,
    /// All others.
    pub others: BTreeMap<ChildName, u64>,
}

// ---- words

/// The word with the bytes of a text, from the first to the last, as Fowler, Noll and Vo make it.
fn with_text(word: u64, text: &str) -> u64
    ensures { result ≡ spec.with_text word text.now }
{
    let mut mixed = word;
    for byte in text.as_bytes() {
        mixed = (mixed ^ (*byte as u64)).wrapping_mul(1099511628211);
    }
    mixed
}

/// The word of a collection's name, or 0 where there is none.
fn coll_word(coll: &Option<OneName>) -> u64
    ensures { result ≡ spec.coll_word coll.now }
{
    match coll {
        None => 0,
        Some(coll) => with_text(0, coll.as_str()),
    }
}

/// The word of a child's name.
pub fn word_of(name: &ChildName) -> u64
    ensures { result ≡ spec.word_of name.now }
{
    with_text(coll_word(&name.coll), name.name.as_str())
}

// ---- one child

/// Whether the names are the same.
fn is_same(a: &ChildName, b: &ChildName) -> bool
    ensures { result ≡ same_child a.now b.now }
{
    *a == *b
}

/// How far the child is above the base, where it has that name.
fn above_of(child: &NamedChild, name: &ChildName) -> Option<u64>
    ensures { result ≡ spec.above_of child.now name.now }
{
    if is_same(&child.name, name) {
        return Some(child.above);
    }
    None
}

/// How far the child of that name is above the base, where it is the first one of its word.
fn first_named(first: &BTreeMap<u64, NamedChild>, name: &ChildName) -> Option<u64>
    ensures { result ≡ spec.first_named first.now name.now }
{
    let word = word_of(name);
    match first.get(&word) {
        None => None,
        Some(child) => above_of(child, name),
    }
}

/// How far the child of that name is above the base, among those that are found by the order of names.
fn other_named(others: &BTreeMap<ChildName, u64>, name: &ChildName) -> Option<u64>
    ensures { result ≡ get child_cmp others.now name.now }
{
    match others.get(name) {
        None => None,
        Some(above) => Some(*above),
    }
}

/// Whether a child of another name is the first one of that word.
fn is_taken(first: &BTreeMap<u64, NamedChild>, word: u64, name: &ChildName) -> bool
    ensures { result ≡ spec.is_taken (get nat_cmp first.now word) name.now }
{
    match first.get(&word) {
        None => false,
        Some(child) => !is_same(&child.name, name),
    }
}

/// Whether the child of that name is the first one of that word.
fn is_own(first: &BTreeMap<u64, NamedChild>, word: u64, name: &ChildName) -> bool
    ensures { result ≡ spec.is_own (get nat_cmp first.now word) name.now }
{
    match first.get(&word) {
        None => false,
        Some(child) => is_same(&child.name, name),
    }
}

/// Makes a child the first one of a word. `Err` where memory runs out: then nothing is changed.
fn put_first(
    first: &mut BTreeMap<u64, NamedChild>,
    word: u64,
    child: NamedChild,
) -> Result<(), Memory>
    ensures ok { OnOk result ((q : ℕ) → get nat_cmp first.new q
        ≡ (if is_eq (nat_cmp word q) then Some child else get nat_cmp first.old q)) }
    ensures err { OnErr result ((q : ℕ) → get nat_cmp first.new q ≡ get nat_cmp first.old q) }
{
    first.insert(word, child)?;
    Ok(())
}

/// Puts a child among those that are found by the order of names. `Err` where memory runs out: then nothing
/// is changed.
fn put_other(
    others: &mut BTreeMap<ChildName, u64>,
    name: ChildName,
    above: u64,
) -> Result<(), Memory>
    ensures ok { OnOk result ((c : Name) → get child_cmp others.new c
        ≡ (if same_child name c then Some above else get child_cmp others.old c)) }
    ensures err { OnErr result ((c : Name) → get child_cmp others.new c ≡ get child_cmp others.old c) }
{
    others.insert(name, above)?;
    Ok(())
}

// ---- all children

impl ChildrenByName {
    /// No children.
    pub fn new(alloc: Global) -> ChildrenByName
        ensures { (c : Name) → led_to result c ≡ None }
    {
        ChildrenByName {
            first: BTreeMap::new(alloc),
            others: BTreeMap::new(alloc),
        }
    }

    /// How far the child of that name is above the base.
    pub fn get(&self, name: &ChildName) -> Option<u64>
        ensures { result ≡ led_to self.now name.now }
    {
        match first_named(&self.first, name) {
            Some(above) => Some(above),
            None => other_named(&self.others, name),
        }
    }

    /// Puts a child so far above the base, in the place of another of its name. `Err` where memory runs out:
    /// then each name leads where it led.
    pub fn put(&mut self, name: ChildName, above: u64) -> Result<(), Memory>
        ensures ok { OnOk result ((c : Name) → led_to self.new c
            ≡ (if same_child name c then Some above else led_to self.old c)) }
        ensures err { OnErr result ((c : Name) → led_to self.new c ≡ led_to self.old c) }
    {
        let word = word_of(&name);
        let taken = is_taken(&self.first, word, &name);
        if taken {
            return put_other(&mut self.others, name, above);
        }
        put_first(&mut self.first, word, NamedChild { name, above })
    }

    /// Forgets a name.
    pub fn remove(&mut self, name: &ChildName)
        ensures { (c : Name) → led_to self.new c
            ≡ (if same_child name.now c then None else led_to self.old c) }
    {
        self.others.remove(name);
        let word = word_of(name);
        let own = is_own(&self.first, word, name);
        if own {
            self.first.remove(&word);
        }
    }
}
