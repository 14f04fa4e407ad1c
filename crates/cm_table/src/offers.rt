//! The offers of a declaration, in an order in which they are found by binary search.

ghost use Rattle.std.specs.Prelude.{◌≡◌, false, position, slice_get, IfOk};
ghost use Rattle.std.specs.List.{range_with_len};
ghost use Rattle.std.specs.Option.{option_map_or};
ghost use Rattle.std.specs.Ordering.{is_lt};
ghost use Rattle.cm_decl.specs.Graph.{target_of};
ghost use Rattle.cm_world.specs.NextStation as next;
ghost use Rattle.cm_table.specs.Offers as spec;
ghost use Rattle.cm_table.specs.Offers.{IsOfferOrder, IsSplit};

use cm_decl::{Kind, Offer};
use cm_names::{ChildName, Memory, Name};
use std::alloc::Global;
use std::cmp::Ordering;

/// What an offer is looked for by: its target, its name there, and its kind.
#[derive(Clone, Copy)]
struct OfferLookup<'a> {
    to: &'a str,
    name: &'a str,
    kind: u8,
}

/// The places of offers, by increasing targets, names and kinds, and then by increasing places.
pub fn order_of(alloc: Global, offers: &[Offer]) -> Result<Vec<usize>, Memory>
    ensures { IfOk result (λ made. IsOfferOrder offers.now made.items) }
{
    let mut places = first_places(alloc, offers.len())?;
    places.sort_unstable_by(|a, b| compare(offers, *a, *b));
    Ok(places)
}

/// The places from 0 to below the count, in order. They are sorted afterwards.
pub fn first_places(alloc: Global, count: usize) -> Result<Vec<usize>, Memory>
    ensures { IfOk result (λ made. made.items ≡ range_with_len 0 count) }
{
    let places: Vec<usize> = (0..count).collect(alloc)?;
    Ok(places)
}

/// The place of the first offer of that kind and name to the child or to its collection.
pub fn find_offer(
    offers: &[Offer],
    places: &[usize],
    child: &ChildName,
    kind: Kind,
    name: &Name,
) -> Option<usize>
    requires { IsOfferOrder offers.now places.now }
    ensures { result ≡ position (next.is_offer_to child.now kind name.now) offers.now }
{
    let count = count_before(offers, places, target(child), kind, name);
    let place = place_at(places, count)?;
    if stands_at(offers, place, child, kind, name) {
        return Some(place);
    }
    None
}

/// The place of the first such offer, found by going through all offers from the first on, where no
/// order of them is kept.
pub fn search_offer(offers: &[Offer], child: &ChildName, kind: Kind, name: &Name) -> Option<usize>
    ensures { result ≡ position (next.is_offer_to child.now kind name.now) offers.now }
{
    offers
        .iter()
        .position(|offer| is_offer_to(offer, child, kind, name))
}

/// The place there, if there is one.
pub fn place_at(places: &[usize], index: usize) -> Option<usize>
    ensures { result ≡ slice_get places.now index }
{
    match places.get(index) {
        None => None,
        Some(place) => Some(*place),
    }
}

/// Whether an offer of that kind and name to the child or to its collection stands at the place.
fn stands_at(offers: &[Offer], place: usize, child: &ChildName, kind: Kind, name: &Name) -> bool
    ensures { let passes = next.is_offer_to child.now kind name.now in
        result ≡ option_map_or passes (slice_get offers.now place) false }
{
    match offers.get(place) {
        None => false,
        Some(offer) => is_offer_to(offer, child, kind, name),
    }
}

/// How many of these places come before that of an offer of that kind and name to that target.
fn count_before(offers: &[Offer], places: &[usize], to: &Name, kind: Kind, name: &Name) -> usize
    requires { IsOfferOrder offers.now places.now }
    ensures { IsSplit offers.now places.now (spec.wanted to.now kind name.now) result }
{
    let wanted = OfferLookup {
        to: to.as_str(),
        name: name.as_str(),
        kind: rank(kind),
    };
    places.partition_point(|place| is_before(offers, *place, &wanted))
}

/// What the offer at this place is looked for by; after the last one nothing is.
fn key_at(offers: &[Offer], place: usize) -> OfferLookup<'_>
    ensures { spec.key_of result ≡ spec.key_at offers.now place }
{
    match offers.get(place) {
        Some(offer) => OfferLookup {
            to: offer.to.as_str(),
            name: offer.give.target_name.as_str(),
            kind: rank(offer.give.kind),
        },
        None => OfferLookup {
            to: "",
            name: "",
            kind: 0,
        },
    }
}

/// The order of keys.
fn compare_keys(a: &OfferLookup<'_>, b: &OfferLookup<'_>) -> Ordering
    ensures { result ≡ spec.key_cmp (spec.key_of a.now) (spec.key_of b.now) }
{
    a.to.cmp(b.to)
        .then(a.name.cmp(b.name))
        .then(a.kind.cmp(&b.kind))
}

/// How the offers at two places compare, by their keys. Sorts the places.
fn compare(offers: &[Offer], a: usize, b: usize) -> Ordering
    ensures { result ≡ spec.place_cmp offers.now a b }
{
    compare_keys(&key_at(offers, a), &key_at(offers, b)).then(a.cmp(&b))
}

/// Whether what the offer at this place is looked for by comes before what is wanted.
fn is_before(offers: &[Offer], place: usize, wanted: &OfferLookup<'_>) -> bool
    ensures { result ≡ is_lt (spec.key_cmp (spec.key_at offers.now place) (spec.key_of wanted.now)) }
{
    compare_keys(&key_at(offers, place), wanted).is_lt()
}

/// The rank of a kind in the order of kinds.
pub fn rank(kind: Kind) -> u8
    ensures { result ≡ spec.kind_rank kind }
{
    match kind {
        Kind::Protocol => 0,
        Kind::Directory => 1,
    }
}

/// Whether the offer is to the child or to its collection, and has that kind and name there.
fn is_offer_to(offer: &Offer, child: &ChildName, kind: Kind, name: &Name) -> bool
    ensures { result ≡ next.is_offer_to child.now kind name.now offer.now }
{
    offer.to == *target(child) && offer.give.kind == kind && offer.give.target_name == *name
}

/// The name that an offer to the child is to: that of its collection, if it is in one, else its
/// own.
fn target(child: &ChildName) -> &Name
    ensures { result.now ≡ target_of child.now }
{
    match &child.coll {
        Some(coll) => coll,
        None => &child.name,
    }
}
