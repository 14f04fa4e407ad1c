//! Texts of lists.

ghost use Rattle.std.specs.Prelude.{map, ◌≡◌, [], codes, string_bytes, IfOk, OnOk, IfSome};
ghost use Rattle.cm_names.specs.Child.{child_text};
ghost use Rattle.cm_names.specs.Moniker.{moniker_text};
ghost use Rattle.cm_reply.specs.Lists as spec;
ghost use Rattle.cm_reply.specs.ListsInside as spec_inside;
ghost use Rattle.cm_reply.specs.ListsInside.{GainsText};

use cm_names::{ChildName, Memory, Moniker, Shared};
use std::alloc::Global;
use std::fmt;

/// So many bytes a text has room for at first: most answers and lines of a journal are shorter.
const FIRST_ROOM: usize = 128;

/// An empty string with room for most texts. `Err` where memory runs out.
pub fn roomy(alloc: Global) -> Result<String, Memory>
    ensures { IfOk result (λ text. string_bytes text ≡ []) }
{
    Ok(String::with_capacity(alloc, FIRST_ROOM)?)
}

/// What stands in a list that is written: a line of an answer, an item of a journal's reply, or a part of a
/// route or moniker. The functions on lists (`push_each` and others) ask each for its text.
pub trait ListItem {
    ghost use Rattle.std.specs.Prelude.{List as Seq, ℕ, OnOk};
    ghost use Rattle.cm_reply.specs.ListsInside.{GainsText};

    // The text of the item.
    ghost written: { Self → Seq ℕ };

    /// Puts the text of the item at the end. `Err` where memory runs out.
    fn push_to(&self, text: &mut String) -> Result<(), Memory>
        ensures { OnOk result (GainsText text.old text.new (written self.now)) };
}

/// Puts these words at the end. `Err` where memory runs out.
pub fn push(text: &mut String, words: &str) -> Result<(), Memory>
    ensures { OnOk result (GainsText text.old text.new words.now) }
{
    text.push_str(words)?;
    Ok(())
}

/// Puts what `{}` writes of the value at the end. `Err` where memory runs out.
pub fn push_value<D: fmt::Display + Drop>(text: &mut String, value: D) -> Result<(), Memory>
    ensures { OnOk result (IfSome (D.output value) (GainsText text.old text.new)) }
{
    text.write(value)?;
    Ok(())
}

/// It is written as its name, or as `COLLECTION:NAME`.
impl ListItem for ChildName {
    ghost use Rattle.cm_names.specs.Child.{child_text};

    ghost written = { child_text };

    /// A part of a moniker: `name`, or `collection:name`.
    fn push_to(&self, text: &mut String) -> Result<(), Memory> {
        match &self.coll {
            None => push(text, self.name.as_str()),
            Some(coll) => {
                push(text, coll.as_str())?;
                push(text, ":")?;
                push(text, self.name.as_str())
            }
        }
    }
}

/// It is written as the value.
impl<T: ListItem + Drop> ListItem for Shared<T> {
    ghost written = { T.written };

    /// A shared item is written as the item.
    fn push_to(&self, text: &mut String) -> Result<(), Memory> {
        self.get().push_to(text)
    }
}

/// Puts names of children at the end, each after a slash.
fn push_behind_slashes(text: &mut String, parts: &[&ChildName]) -> Result<(), Memory>
    ensures { OnOk result (GainsText text.old text.new
        (spec.each_behind (codes "/") child_text (map (λ x. x.now) parts.now))) }
{
    for part in parts {
        text.push('/')?;
        part.push_to(text)?;
    }
    Ok(())
}

/// Puts names of children at the end, with slashes between them; a dot for none.
fn push_parts(text: &mut String, parts: &[&ChildName]) -> Result<(), Memory>
    ensures { OnOk result (GainsText text.old text.new
        (spec_inside.parts_text (map (λ x. x.now) parts.now))) }
{
    let [first, others @ ..] = parts else {
        return push(text, ".");
    };
    first.push_to(text)?;
    push_behind_slashes(text, others)
}

/// Puts names of children at the end as they stand in a list, with slashes between them; a dot for none.
fn push_listed(text: &mut String, names: &[ChildName]) -> Result<(), Memory>
    ensures { OnOk result (GainsText text.old text.new (spec_inside.parts_text names.now)) }
{
    let [first, others @ ..] = names else {
        return push(text, ".");
    };
    first.push_to(text)?;
    push_each(text, "/", others)
}

/// Puts where an instance stands at the end. `Err` where memory runs out.
pub fn push_moniker(text: &mut String, moniker: &Moniker) -> Result<(), Memory>
    ensures { OnOk result (GainsText text.old text.new (moniker_text moniker.now)) }
{
    if let Some(names) = moniker.parts.listed() {
        return push_listed(text, names);
    }
    let parts = moniker.parts.items(*text.allocator())?;
    push_parts(text, parts.as_slice())
}

/// Puts the text of each item, after that mark, at the end. `Err` where memory runs out.
pub fn push_each<T: ListItem>(text: &mut String, mark: &str, items: &[T]) -> Result<(), Memory>
    ensures { OnOk result (GainsText text.old text.new (spec.each_behind mark.now T.written items.now)) }
{
    for item in items {
        push(text, mark)?;
        item.push_to(text)?;
    }
    Ok(())
}

/// Puts the text of each item, after a space and between brackets, at the end: so a journal's replies
/// `listed` and `surveyed` are written. `Err` where memory runs out.
pub fn push_bracketed<T: ListItem>(text: &mut String, items: &[T]) -> Result<(), Memory>
    ensures { OnOk result (GainsText text.old text.new (spec.bracketed T.written items.now)) }
{
    for item in items {
        push(text, " [")?;
        item.push_to(text)?;
        push(text, "]")?;
    }
    Ok(())
}
