//! Instances whose children a report tells of.

ghost use Rattle.std.specs.Prelude.{◌≡◌, ◌++◌, codes, IfOk, OnOk, IfSome, Some};
ghost use Rattle.std.specs.Prelude.{All, find, map, option_map};
ghost use Rattle.std.specs.Option.{option_copied};
ghost use Rattle.std.specs.Str.{bytes_eq};
ghost use Rattle.cm_names.specs.Child.{child_text};
ghost use Rattle.cm_reply.specs.ListsInside.{GainsText};
ghost use Rattle.cm_world.specs.Rows.{decl_of, moniker_of};
ghost use Rattle.cm_storage.specs.ParentAtHand as spec;
ghost use Rattle.cm_storage.specs.ParentAtHand.{IsStanding, IsToldChildOf};

use crate::firsts::OfferIndex;
use crate::known::KnownPlace;
use cm_decl::{Decl, Origin, StorageOffer};
use cm_names::{ChildName, Memory, Name, Text};
use cm_reply::lists::{ListItem, push};
use cm_walk::hop::moniker;
use cm_world::{ParentPlace, View};
use std::alloc::Global;

/// A prefix has room for so many bytes more at first.
const MORE_ROOM: usize = 32;

/// A storage that an instance hands on to its children, and what is known of their places in it.
#[derive(Drop)]
pub(crate) struct Handed<'a> {
    /// Whether it is a storage of the instance itself, and not one that it has from its parent.
    pub(crate) own: bool,
    /// Its name there.
    pub(crate) name: &'a Name,
    /// What is known of it.
    pub(crate) known: KnownPlace,
}

/// An instance, with what its children have in common.
#[derive(Drop)]
pub(crate) struct ParentAtHand<'a> {
    /// Its incarnation.
    pub(crate) inc: u64,
    /// Its declaration.
    pub(crate) offers: OfferIndex<'a>,
    /// What stands before a child's name in the child's moniker.
    pub(crate) prefix: Text,
    /// The storages that children were handed so far.
    pub(crate) handed: Vec<Handed<'a>>,
}

impl<'a> ParentAtHand<'a> {
    /// What is known of a storage that it hands on, if a child was handed it before.
    pub(crate) fn kept(&self, own: bool, name: &Name) -> Option<&KnownPlace>
        ensures { option_copied result ≡ spec.kept self.now.handed.items own name.now }
    {
        match self.handed.iter().find(|handed| handed.own == own
            && handed.name.as_str() == name.as_str())
        {
            Some(handed) => Some(&handed.known),
            None => None,
        }
    }

    /// What is kept for the storage that an offer hands on, if something is.
    pub(crate) fn kept_by(&self, offer: &StorageOffer) -> Option<&KnownPlace>
        ensures { option_copied result
            ≡ spec.kept_by self.now.handed.items offer.now.from offer.now.source_name }
    {
        match &offer.from {
            Origin::Own => self.kept(true, &offer.source_name),
            Origin::Parent => self.kept(false, &offer.source_name),
            _ => None,
        }
    }
}

/// Where an instance stands that isn't the root.
pub(crate) fn child_place<V: View>(view: &V, inc: u64) -> Option<ParentPlace<'_>>
    ensures { IfSome result (λ place.
        IsToldChildOf (V.rows view.now) inc place.parent place.name.now) }
{
    view.place(inc)
}

/// An instance that has this declaration, prepared for what is asked of its children: its moniker as
/// far as they need it, and an index of its offers. The one above it, where it is at hand, spares the
/// way up.
pub(crate) fn standing_at<'a, V: View>(
    alloc: Global,
    view: &'a V,
    inc: u64,
    decl: &'a Decl,
    above: Option<&ParentAtHand<'a>>,
) -> Result<ParentAtHand<'a>, Memory>
    requires decl { decl_of (V.rows view.now) inc ≡ Some decl.now }
    requires above { IfSome above (λ s.
        IsStanding (V.rows view.now) (V.builtins view.now) s.now) }
    ensures { IfOk result (IsStanding (V.rows view.now) (V.builtins view.now)) }
{
    let prefix = prefix_of(alloc, view, inc, above)?;
    let offers = OfferIndex::of(alloc, decl)?;
    Ok(ParentAtHand {
        inc,
        offers,
        prefix,
        handed: Vec::new(alloc),
    })
}

/// What stands before a child's name in the moniker of a child of this instance.
fn prefix_of<V: View>(
    alloc: Global,
    view: &V,
    inc: u64,
    above: Option<&ParentAtHand<'_>>,
) -> Result<Text, Memory>
    requires above { IfSome above (λ s.
        IsStanding (V.rows view.now) (V.builtins view.now) s.now) }
    ensures { IfOk result (λ prefix. prefix ≡ spec.prefix_of (moniker_of (V.rows view.now) inc)) }
{
    let (Some(above), Some(place)) = (above, child_place(view, inc)) else {
        return prefix_alone(alloc, view, inc);
    };
    if above.inc != place.parent {
        return prefix_alone(alloc, view, inc);
    }
    prefix_behind(alloc, &above.prefix, place.name.get())
}

/// The text of a child's moniker up to its children's names, by that of its parent. `Err` where memory
/// runs out.
fn prefix_behind(alloc: Global, prefix: &Text, child: &ChildName) -> Result<Text, Memory>
    ensures { IfOk result (λ made. made ≡ prefix.now ++ (child_text child.now ++ codes "/")) }
{
    let mut text = String::with_capacity(alloc, prefix.len().saturating_add(MORE_ROOM))?;
    push(&mut text, prefix.as_str())?;
    child.push_to(&mut text)?;
    push(&mut text, "/")?;
    Text::from_string(text)
}

/// The text of an instance's moniker up to its children's names, made of the names from the root down.
/// `Err` where memory runs out.
fn prefix_alone<V: View>(alloc: Global, view: &V, inc: u64) -> Result<Text, Memory>
    ensures { IfOk result (λ prefix. prefix ≡ spec.prefix_of (moniker_of (V.rows view.now) inc)) }
{
    let place = moniker(alloc, view, inc)?;
    let mut text = String::new(alloc);
    let names = place.parts.items(alloc)?;
    push_names(&mut text, names.as_slice())?;
    Text::from_string(text)
}

/// Puts each name, with a slash after it, at the end.
fn push_names(text: &mut String, names: &[&ChildName]) -> Result<(), Memory>
    ensures { OnOk result (GainsText text.old text.new
        (spec.names_text (map (λ x. x.now) names.now))) }
{
    for name in names {
        name.push_to(text)?;
        push(text, "/")?;
    }
    Ok(())
}
