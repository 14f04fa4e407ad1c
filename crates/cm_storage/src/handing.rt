//! What an instance hands on to its children.

ghost use Rattle.std.specs.Prelude.{◌≡◌, ◌≢◌, Ok, IfOk, IfSome};
ghost use Rattle.std.specs.Option.{option_copied};
ghost use Rattle.cm_storage.specs.KnownPlace as spec;
ghost use Rattle.cm_storage.specs.Parts.{names_below};
ghost use Rattle.cm_storage.specs.ParentAtHand.{AreStanding, IsStanding, IsKnown, IsKnownBy};
ghost use Rattle.cm_storage.specs.ParentAtHand.{StandsUnder, source_of};
ghost use Rattle.cm_storage.specs.Way as way;

use crate::fault::StorageFault;
use crate::known::{KnownPlace, refused, stands};
use crate::parts::behind;
use crate::places::Place;
use crate::placing::place_found;
use crate::standing::{ParentAtHand, child_place};
use crate::way::{find_way, storage_of};
use cm_decl::Storage;
use cm_names::{Memory, Name};
use cm_walk::hop::moniker;
use cm_world::View;
use std::alloc::Global;

/// What is known of a storage for the children of an instance: of its own of that name, or of the
/// one that it has from its parent. `Err` where memory runs out.
pub(crate) fn handed_on<'a, V: View>(
    alloc: Global,
    view: &'a V,
    below: &[ParentAtHand<'a>],
    top: &ParentAtHand<'a>,
    own: bool,
    name: &'a Name,
) -> Result<KnownPlace, Memory>
    requires top { IsStanding (V.rows view.now) (V.builtins view.now) top.now }
    requires below { AreStanding (V.rows view.now) (V.builtins view.now) below.now }
    ensures { let source = source_of own in
        let step = way.by_source (V.rows view.now) top.now.inc top.now.offers name.now source in
        IfOk result (IsKnown (V.rows view.now) (V.builtins view.now) top.now.inc step) }
{
    if own {
        return own_of(alloc, view, top.inc, storage_of(top.offers.decl(), name));
    }
    match inherited(alloc, view, below, top.inc, name)? {
        Some(known) => Ok(known),
        None => climbed(alloc, view, below, top.inc, name),
    }
}

/// What is known of a storage of the instance itself, if it has one.
fn own_of<V: View>(
    alloc: Global,
    view: &V,
    inc: u64,
    storage: Option<&Storage>,
) -> Result<KnownPlace, Memory>
    ensures { let step = way.by_storage (V.rows view.now) inc (option_copied storage.entry) in
        IfOk result (IsKnown (V.rows view.now) (V.builtins view.now) inc step) }
{
    match storage {
        Some(storage) => known_in(alloc, view, inc, inc, storage),
        None => {
            let place = moniker(alloc, view, inc)?;
            refused(alloc, &StorageFault::NoStorage(place))
        }
    }
}

/// What is known of a storage from the parent where the parent is at hand, and it is known there.
fn inherited<'a, V: View>(
    alloc: Global,
    view: &'a V,
    below: &[ParentAtHand<'a>],
    inc: u64,
    name: &'a Name,
) -> Result<Option<KnownPlace>, Memory>
    requires { AreStanding (V.rows view.now) (V.builtins view.now) below.now }
    ensures { let step = way.On inc name.now in
        IfOk result (λ found. IfSome found
        (IsKnown (V.rows view.now) (V.builtins view.now) inc step)) }
{
    let (Some(place), Some(parent)) = (child_place(view, inc), below.last()) else {
        return Ok(None);
    };
    if parent.inc != place.parent {
        return Ok(None);
    }
    let child = place.name.get();
    let Some(offer) = parent.offers.offer(child, name) else {
        return Ok(None);
    };
    match parent.kept_by(offer) {
        Some(known) => {
            let known = known.below(alloc, child)?;
            Ok(Some(known))
        }
        None => Ok(None),
    }
}

/// What is known of a storage from the parent, by the whole way up.
fn climbed<'a, V: View>(
    alloc: Global,
    view: &'a V,
    below: &[ParentAtHand<'a>],
    inc: u64,
    name: &'a Name,
) -> Result<KnownPlace, Memory>
    requires { AreStanding (V.rows view.now) (V.builtins view.now) below.now }
    ensures { let step = way.On inc name.now in
        IfOk result (IsKnown (V.rows view.now) (V.builtins view.now) inc step) }
{
    match find_way(alloc, view, below, inc, name) {
        Ok((owner, storage)) => known_in(alloc, view, inc, owner, storage),
        Err(fault) => faulty(alloc, fault),
    }
}

/// What is known of a storage of this instance or of one above it.
fn known_in<V: View>(
    alloc: Global,
    view: &V,
    inc: u64,
    owner: u64,
    storage: &Storage,
) -> Result<KnownPlace, Memory>
    requires { StandsUnder (V.rows view.now) owner inc }
    ensures { let found = Ok (owner, storage.now) in
        IfOk result (IsKnownBy (V.rows view.now) (V.builtins view.now) inc found) }
{
    match place_found(alloc, view, inc, owner, storage) {
        Ok(place) => known_at(alloc, view, inc, &place),
        Err(fault) => faulty(alloc, fault),
    }
}

/// What is known where the instance itself would have this place.
fn known_at<V: View>(alloc: Global, view: &V, inc: u64, place: &Place) -> Result<KnownPlace, Memory>
    ensures { let names = names_below (V.rows view.now) place.now.owner inc in
        IfOk result (λ known. known ≡ spec.stands place.now names) }
{
    let above = moniker(alloc, view, place.owner)?;
    let whole = moniker(alloc, view, inc)?;
    let names = whole.parts.items(alloc)?;
    stands(alloc, place, behind(names.as_slice(), above.parts.len()))
}

/// What is known where there is no place; `Err` where memory ran out.
fn faulty(alloc: Global, fault: StorageFault) -> Result<KnownPlace, Memory>
    ensures known { IfOk result (λ known. known ≡ spec.refused fault) }
    ensures memory { IfOk result (λ _. fault ≢ StorageFault.Memory) }
{
    match &fault {
        StorageFault::Memory => Err(Memory),
        other => refused(alloc, other),
    }
}
