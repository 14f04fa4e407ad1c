//! Rows of a declaration that are found by their name and kind, in an order in which they are found
//! by binary search: its exposes and its capabilities.

ghost use Rattle.std.specs.Prelude.{◌≡◌, false, position, slice_get, IfOk};
ghost use Rattle.std.specs.Option.{option_map_or};
ghost use Rattle.std.specs.Ordering.{is_lt};
ghost use Rattle.cm_table.specs.Named as spec;
ghost use Rattle.cm_table.specs.Named.{IsNameOrder, IsNameSplit};

use crate::offers::{first_places, place_at, rank};
use cm_decl::{Capability, Give, Kind};
use cm_names::{Memory, Name};
use std::alloc::Global;
use std::cmp::Ordering;

/// A row that is found by its name and its kind.
pub trait NamedRow {
    ghost use Rattle.std.specs.Prelude.{◌≡◌, ℕ, List};
    ghost use Rattle.cm_decl.specs.declared.kind.Kind.{Kind as Sort};

    // The name.
    ghost name_in: { Self → List ℕ };

    // The kind.
    ghost kind_in: { Self → Sort };

    /// The name by which the row is found.
    fn row_name(&self) -> &Name
        ensures { result.now ≡ name_in self.now };

    /// The kind that the row has to have, too.
    fn row_kind(&self) -> Kind
        ensures { result ≡ kind_in self.now };
}

/// What is given is found by its name at the target.
impl NamedRow for Give {
    ghost name_in = { λ give. give.target_name };

    ghost kind_in = { λ give. give.kind };

    /// The name that the target of the give sees.
    fn row_name(&self) -> &Name {
        &self.target_name
    }

    /// The kind of what is given.
    fn row_kind(&self) -> Kind {
        self.kind
    }
}

/// A capability is found by its name.
impl NamedRow for Capability {
    ghost name_in = { λ capability. capability.name };

    ghost kind_in = { λ capability. capability.kind };

    /// The capability's own name.
    fn row_name(&self) -> &Name {
        &self.name
    }

    /// The kind of the capability.
    fn row_kind(&self) -> Kind {
        self.kind
    }
}

/// What a row is looked for by: its name and its kind.
#[derive(Clone, Copy)]
struct NameLookup<'a> {
    name: &'a str,
    kind: u8,
}

/// The places of rows, by increasing names and kinds, and then by increasing places.
pub fn order_of_named<T: NamedRow>(alloc: Global, items: &[T]) -> Result<Vec<usize>, Memory>
    ensures { IfOk result (λ made. IsNameOrder T.name_in T.kind_in items.now made.items) }
{
    let mut places = first_places(alloc, items.len())?;
    places.sort_unstable_by(|a, b| compare(items, *a, *b));
    Ok(places)
}

/// The place of the first row of that kind and name.
pub fn find_named<T: NamedRow>(
    items: &[T],
    places: &[usize],
    kind: Kind,
    name: &Name,
) -> Option<usize>
    requires { IsNameOrder T.name_in T.kind_in items.now places.now }
    ensures { result ≡ position (spec.is_named T.name_in T.kind_in kind name.now) items.now }
{
    let count = count_before(items, places, kind, name);
    let place = place_at(places, count)?;
    if stands_at(items, place, kind, name) {
        return Some(place);
    }
    None
}

/// The place of the first row of that kind and name, found by going through all rows from the first on,
/// where no order of them is kept.
pub fn search_named<T: NamedRow>(items: &[T], kind: Kind, name: &Name) -> Option<usize>
    ensures { result ≡ position (spec.is_named T.name_in T.kind_in kind name.now) items.now }
{
    items.iter().position(|item| is_named(item, kind, name))
}

/// Whether the row has that kind and that name.
fn is_named<T: NamedRow>(item: &T, kind: Kind, name: &Name) -> bool
    ensures { result ≡ spec.is_named T.name_in T.kind_in kind name.now item.now }
{
    item.row_kind() == kind && *item.row_name() == *name
}

/// Whether a row of that kind and name stands at the place.
fn stands_at<T: NamedRow>(items: &[T], place: usize, kind: Kind, name: &Name) -> bool
    ensures { let passes = spec.is_named T.name_in T.kind_in kind name.now in
        result ≡ option_map_or passes (slice_get items.now place) false }
{
    match items.get(place) {
        None => false,
        Some(item) => is_named(item, kind, name),
    }
}

/// How many of these places come before that of a row of that kind and name.
fn count_before<T: NamedRow>(items: &[T], places: &[usize], kind: Kind, name: &Name) -> usize
    requires { IsNameOrder T.name_in T.kind_in items.now places.now }
    ensures { IsNameSplit T.name_in T.kind_in items.now places.now (spec.sought_key kind name.now) result }
{
    let wanted = NameLookup {
        name: name.as_str(),
        kind: rank(kind),
    };
    places.partition_point(|place| is_before(items, *place, &wanted))
}

/// What the row at this place is looked for by; after the last one it is an empty name.
fn key_at<T: NamedRow>(items: &[T], place: usize) -> NameLookup<'_>
    ensures { spec.lookup_key result ≡ spec.name_key_at T.name_in T.kind_in items.now place }
{
    match items.get(place) {
        Some(item) => NameLookup {
            name: item.row_name().as_str(),
            kind: rank(item.row_kind()),
        },
        None => NameLookup { name: "", kind: 0 },
    }
}

/// The order of what is looked for.
fn compare_keys(a: &NameLookup<'_>, b: &NameLookup<'_>) -> Ordering
    ensures { result ≡ spec.name_cmp (spec.lookup_key a.now) (spec.lookup_key b.now) }
{
    a.name.cmp(b.name).then(a.kind.cmp(&b.kind))
}

/// How the rows at two places compare: by their names, then by their kinds. Sorts the places.
fn compare<T: NamedRow>(items: &[T], a: usize, b: usize) -> Ordering
    ensures { result ≡ spec.named_cmp T.name_in T.kind_in items.now a b }
{
    compare_keys(&key_at(items, a), &key_at(items, b)).then(a.cmp(&b))
}

/// Whether what the row at this place is looked for by comes before what is wanted.
fn is_before<T: NamedRow>(items: &[T], place: usize, wanted: &NameLookup<'_>) -> bool
    ensures { let key = spec.name_key_at T.name_in T.kind_in items.now place in
        result ≡ is_lt (spec.name_cmp key (spec.lookup_key wanted.now)) }
{
    compare_keys(&key_at(items, place), wanted).is_lt()
}
