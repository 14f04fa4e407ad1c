//! What is known of a storage that an instance hands on to its children.

ghost use Rattle.std.specs.Prelude.{◌≡◌, ◌++◌, codes, IfOk, OnOk, flat_map, map};
ghost use Rattle.cm_names.specs.Child.{child_text};
ghost use Rattle.cm_reply.specs.ListsInside.{GainsText};
ghost use Rattle.cm_storage.specs.Report as report;
ghost use Rattle.cm_storage.specs.KnownPlace as spec;

use crate::fault::StorageFault;
use crate::places::Place;
use crate::report::push_refused;
use cm_names::{ChildName, Memory, Text};
use cm_reply::lists::{ListItem, push};
use cm_reply::routes::push_source;
use std::alloc::Global;

/// A head has room for so many bytes more at first.
const MORE_ROOM: usize = 64;

/// What is told of the place that any child of an instance has in one storage.
#[derive(Drop)]
pub(crate) enum KnownPlace {
    /// It has none: ` refused NUMBER WORDS`.
    Refused(Text),
    /// What stands before the name of the child, ` at BASE/PARTS/`, and what stands after its
    /// folder, ` in SOURCE`.
    Stands(Text, Text),
}

impl KnownPlace {
    /// Puts what is told of the child at the end. `Err` where memory runs out.
    pub(crate) fn push_below(&self, text: &mut String, child: &ChildName) -> Result<(), Memory>
        ensures { OnOk result (GainsText text.old text.new (spec.told_below self.now child.now)) }
    {
        match self {
            KnownPlace::Refused(words) => push(text, words.as_str()),
            KnownPlace::Stands(head, tail) => {
                push(text, head.as_str())?;
                child.push_to(text)?;
                push(text, "/data")?;
                push(text, tail.as_str())
            }
        }
    }

    /// What is known of the same storage for the children of the child. `Err` where memory runs
    /// out.
    pub(crate) fn below(&self, alloc: Global, child: &ChildName) -> Result<KnownPlace, Memory>
        ensures { IfOk result (λ known. known ≡ spec.known_below self.now child.now) }
    {
        match self {
            KnownPlace::Refused(words) => {
                let words = words.clone()?;
                Ok(KnownPlace::Refused(words))
            }
            KnownPlace::Stands(head, tail) => {
                let head = head_below(alloc, head, child)?;
                let tail = tail.clone()?;
                Ok(KnownPlace::Stands(head, tail))
            }
        }
    }
}

/// A head with the folders of the child after it, below which its children have theirs.
fn head_below(alloc: Global, head: &Text, child: &ChildName) -> Result<Text, Memory>
    ensures { IfOk result (λ made. made ≡ head.now ++ (child_text child.now ++ codes "/children/")) }
{
    let mut text = String::with_capacity(alloc, head.len().saturating_add(MORE_ROOM))?;
    push(&mut text, head.as_str())?;
    child.push_to(&mut text)?;
    push(&mut text, "/children/")?;
    Text::from_string(text)
}

/// What is known where there is no place.
pub(crate) fn refused(alloc: Global, fault: &StorageFault) -> Result<KnownPlace, Memory>
    ensures { IfOk result (λ known. known ≡ spec.refused fault.now) }
{
    let mut text = String::new(alloc);
    push_refused(&mut text, fault)?;
    let words = Text::from_string(text)?;
    Ok(KnownPlace::Refused(words))
}

/// What is known where the instance itself would have this place, which stands below the owner by
/// these names.
pub(crate) fn stands(
    alloc: Global,
    place: &Place,
    names: &[&ChildName],
) -> Result<KnownPlace, Memory>
    ensures { IfOk result (λ known. known ≡ spec.stands place.now (map (λ x. x.now) names.now)) }
{
    let head = head_of(alloc, place.base.as_str(), names)?;
    let tail = tail_of(alloc, place)?;
    Ok(KnownPlace::Stands(head, tail))
}

/// ` at BASE/`, and the folders of these names.
fn head_of(alloc: Global, base: &str, names: &[&ChildName]) -> Result<Text, Memory>
    ensures { IfOk result (λ head. head ≡ spec.head_of base.now (map (λ x. x.now) names.now)) }
{
    let mut text = String::new(alloc);
    push(&mut text, " at ")?;
    push(&mut text, base)?;
    push(&mut text, "/")?;
    push_folders(&mut text, names)?;
    Text::from_string(text)
}

/// Puts the folder of each name, and what stands below it, at the end.
fn push_folders(text: &mut String, names: &[&ChildName]) -> Result<(), Memory>
    ensures { OnOk result (GainsText text.old text.new
        (spec.folders_text (map (λ x. x.now) names.now))) }
{
    for name in names {
        name.push_to(text)?;
        push(text, "/children/")?;
    }
    Ok(())
}

/// The text of a place after the child's folder: ` in SOURCE`. `Err` where memory runs out.
fn tail_of(alloc: Global, place: &Place) -> Result<Text, Memory>
    ensures { IfOk result (λ tail. tail ≡ spec.tail_of place.now.provider) }
{
    let mut text = String::new(alloc);
    push(&mut text, " in ")?;
    push_source(&mut text, &place.provider)?;
    Text::from_string(text)
}
