//! What a report tells of an instance by what its parent hands on.

ghost use Rattle.std.specs.Prelude.{◌≡◌, ◌++◌, codes, Some, OnOk};
ghost use Rattle.std.specs.Option.{option_copied};
ghost use Rattle.cm_names.specs.Child.{child_text};
ghost use Rattle.cm_reply.specs.ListsInside.{GainsText};
ghost use Rattle.cm_world.specs.Rows.{decl_of};
ghost use Rattle.cm_storage.specs.Way as way;
ghost use Rattle.cm_storage.specs.Places.{use_of};
ghost use Rattle.cm_storage.specs.Telling.{TellsUse, TellsUses, TellsPlace, TellsKnown};
ghost use Rattle.cm_storage.specs.ParentAtHand.{AreStanding, IsStanding, StaysStanding, IsToldChildOf};
ghost use Rattle.cm_storage.specs.ParentAtHand.{IsHanded, source_of};

use crate::fault::StorageFault;
use crate::handing::handed_on;
use crate::placing::use_at;
use crate::report::push_refused;
use crate::standing::{Handed, ParentAtHand};
use cm_decl::{Decl, Origin, StorageOffer, StorageUse};
use cm_names::{ChildName, Memory, Name};
use cm_reply::lists::{ListItem, push};
use cm_walk::hop::moniker;
use cm_world::View;
use std::alloc::Global;

/// Of so many storages at most an instance keeps what is known.
const MOST_KEPT: usize = 32;

/// An instance that a report tells of, which isn't the root.
#[derive(Drop)]
pub(crate) struct ToldRow<'a> {
    /// Its incarnation.
    pub(crate) inc: u64,
    /// Its name among the children of its parent.
    pub(crate) name: &'a ChildName,
    /// Its declaration.
    pub(crate) decl: &'a Decl,
}

/// Puts the line of each storage that a child uses at the end, by what its parent `top` hands on. `report.rt`
/// calls it where that parent is at hand.
pub(crate) fn push_child_uses<'a, V: View>(
    alloc: Global,
    view: &'a V,
    below: &[ParentAtHand<'a>],
    top: &mut ParentAtHand<'a>,
    text: &mut String,
    told: &ToldRow<'a>,
) -> Result<(), Memory>
    requires below { AreStanding (V.rows view.now) (V.builtins view.now) below.now }
    requires top { IsStanding (V.rows view.now) (V.builtins view.now) top.old }
    requires child { IsToldChildOf (V.rows view.now) told.now.inc top.old.inc told.now.name.now }
    requires decl { decl_of (V.rows view.now) told.now.inc ≡ Some told.now.decl.now }
    ensures told { OnOk result (TellsUses (V.rows view.now) (V.builtins view.now) told.now.inc
        told.now.decl.now.storage_uses text.old text.new) }
    ensures top { OnOk result (StaysStanding (V.rows view.now) (V.builtins view.now) top.old top.new) }
{
    let uses = told.decl.storage_uses.as_slice();
    for usage in uses {
        push_child_use(alloc, view, below, top, text, told, usage)?;
    }
    Ok(())
}

/// Puts the line of one storage that a child uses at the end.
fn push_child_use<'a, V: View>(
    alloc: Global,
    view: &'a V,
    below: &[ParentAtHand<'a>],
    top: &mut ParentAtHand<'a>,
    text: &mut String,
    told: &ToldRow<'a>,
    usage: &StorageUse,
) -> Result<(), Memory>
    requires below { AreStanding (V.rows view.now) (V.builtins view.now) below.now }
    requires top { IsStanding (V.rows view.now) (V.builtins view.now) top.old }
    requires child { IsToldChildOf (V.rows view.now) told.now.inc top.old.inc told.now.name.now }
    requires decl { decl_of (V.rows view.now) told.now.inc ≡ Some told.now.decl.now }
    ensures told { OnOk result (TellsUse (V.rows view.now) (V.builtins view.now) told.now.inc
        usage.now.path text.old text.new) }
    ensures top { OnOk result (StaysStanding (V.rows view.now) (V.builtins view.now) top.old top.new) }
{
    push_front(text, top, told.name, usage.path.as_str())?;
    push_first(
        alloc,
        view,
        below,
        top,
        text,
        told,
        use_at(told.decl, &usage.path),
    )?;
    push(text, "\n")?;
    Ok(())
}

/// Puts where a child stands, ` storage `, and a path at the end.
fn push_front(
    text: &mut String,
    top: &ParentAtHand<'_>,
    name: &ChildName,
    path: &str,
) -> Result<(), Memory>
    ensures { OnOk result (GainsText text.old text.new (top.now.prefix
        ++ (child_text name.now ++ (codes " storage " ++ path.now)))) }
{
    push(text, top.prefix.as_str())?;
    name.push_to(text)?;
    push(text, " storage ")?;
    push(text, path)
}

/// Puts at the end what comes of a use of a child, if it is there.
fn push_first<'a, V: View>(
    alloc: Global,
    view: &'a V,
    below: &[ParentAtHand<'a>],
    top: &mut ParentAtHand<'a>,
    text: &mut String,
    told: &ToldRow<'a>,
    usage: Option<&'a StorageUse>,
) -> Result<(), Memory>
    requires below { AreStanding (V.rows view.now) (V.builtins view.now) below.now }
    requires top { IsStanding (V.rows view.now) (V.builtins view.now) top.old }
    requires child { IsToldChildOf (V.rows view.now) told.now.inc top.old.inc told.now.name.now }
    ensures told { OnOk result (TellsPlace (V.rows view.now) (V.builtins view.now) told.now.inc
        (option_copied usage.entry) text.old text.new) }
    ensures top { OnOk result (StaysStanding (V.rows view.now) (V.builtins view.now) top.old top.new) }
{
    match usage {
        None => push_refused(text, &StorageFault::NoStorageUse),
        Some(usage) => push_named(alloc, view, below, top, text, told.name, &usage.name),
    }
}

/// Puts at the end what comes of a storage of that name, which a child has from its parent.
fn push_named<'a, V: View>(
    alloc: Global,
    view: &'a V,
    below: &[ParentAtHand<'a>],
    top: &mut ParentAtHand<'a>,
    text: &mut String,
    child: &'a ChildName,
    name: &'a Name,
) -> Result<(), Memory>
    requires below { AreStanding (V.rows view.now) (V.builtins view.now) below.now }
    requires top { IsStanding (V.rows view.now) (V.builtins view.now) top.old }
    ensures told { let found = way.storage_offer_of top.old.offers child.now name.now in
        let step = way.by_offer (V.rows view.now) top.old.inc top.old.offers found in OnOk result
        (TellsKnown (V.rows view.now) (V.builtins view.now) top.old.inc step child.now text.old text.new) }
    ensures top { OnOk result (StaysStanding (V.rows view.now) (V.builtins view.now) top.old top.new) }
{
    match top.offers.offer(child, name) {
        None => {
            let place = moniker(alloc, view, top.inc)?;
            push_refused(text, &StorageFault::NoStorageOffer(place))
        }
        Some(offer) => push_offered(alloc, view, below, top, text, child, offer),
    }
}

/// Puts at the end what comes of an offer to a child.
fn push_offered<'a, V: View>(
    alloc: Global,
    view: &'a V,
    below: &[ParentAtHand<'a>],
    top: &mut ParentAtHand<'a>,
    text: &mut String,
    child: &ChildName,
    offer: &'a StorageOffer,
) -> Result<(), Memory>
    requires below { AreStanding (V.rows view.now) (V.builtins view.now) below.now }
    requires top { IsStanding (V.rows view.now) (V.builtins view.now) top.old }
    ensures told { let name = offer.now.source_name in
        let step = way.by_source (V.rows view.now) top.old.inc top.old.offers name offer.now.from in
        OnOk result (TellsKnown (V.rows view.now) (V.builtins view.now) top.old.inc step
        child.now text.old text.new) }
    ensures top { OnOk result (StaysStanding (V.rows view.now) (V.builtins view.now) top.old top.new) }
{
    let name = &offer.source_name;
    match &offer.from {
        Origin::Own => push_handed(alloc, view, below, top, text, child, true, name),
        Origin::Parent => push_handed(alloc, view, below, top, text, child, false, name),
        _ => {
            let place = moniker(alloc, view, top.inc)?;
            push_refused(text, &StorageFault::VoidStorage(place))
        }
    }
}

/// Puts at the end what comes of a storage that a child is handed, and keeps what is known of it.
fn push_handed<'a, V: View>(
    alloc: Global,
    view: &'a V,
    below: &[ParentAtHand<'a>],
    top: &mut ParentAtHand<'a>,
    text: &mut String,
    child: &ChildName,
    own: bool,
    name: &'a Name,
) -> Result<(), Memory>
    requires below { AreStanding (V.rows view.now) (V.builtins view.now) below.now }
    requires top { IsStanding (V.rows view.now) (V.builtins view.now) top.old }
    ensures told { let source = source_of own in
        let step = way.by_source (V.rows view.now) top.old.inc top.old.offers name.now source in
        OnOk result (TellsKnown (V.rows view.now) (V.builtins view.now) top.old.inc step
        child.now text.old text.new) }
    ensures top { OnOk result (StaysStanding (V.rows view.now) (V.builtins view.now) top.old top.new) }
{
    match top.kept(own, name) {
        Some(known) => known.push_below(text, child),
        None => {
            let known = handed_on(alloc, view, below, top, own, name)?;
            known.push_below(text, child)?;
            keep(view, top, Handed { own, name, known })
        }
    }
}

/// Keeps what is known of a storage, if there is room.
fn keep<'a, V: View>(view: &V, top: &mut ParentAtHand<'a>, handed: Handed<'a>) -> Result<(), Memory>
    requires top { IsStanding (V.rows view.now) (V.builtins view.now) top.old }
    requires handed { IsHanded (V.rows view.now) (V.builtins view.now) top.old.inc top.old.offers handed }
    ensures { OnOk result (StaysStanding (V.rows view.now) (V.builtins view.now) top.old top.new) }
{
    let _view = view;
    if top.handed.len() >= MOST_KEPT {
        return Ok(());
    }
    top.handed.push(handed)?;
    Ok(())
}
