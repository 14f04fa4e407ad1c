//! The uses of a declaration, in an order in which they are found by binary search.

ghost use Rattle.std.specs.Prelude.{◌≡◌, false, position, slice_get, IfOk};
ghost use Rattle.std.specs.Option.{option_map_or};
ghost use Rattle.std.specs.Ordering.{is_lt};
ghost use Rattle.std.specs.Str.{bytes_eq};
ghost use Rattle.cm_table.specs.Uses as spec;
ghost use Rattle.cm_table.specs.Uses.{IsUseOrder, IsUseSplit};

use crate::offers::{first_places, place_at};
use cm_decl::Usage;
use cm_names::{CapPath, Memory};
use std::alloc::Global;
use std::cmp::Ordering;

/// The places of uses, by increasing paths, and then by increasing places.
pub fn order_of_uses(alloc: Global, uses: &[Usage]) -> Result<Vec<usize>, Memory>
    ensures { IfOk result (λ made. IsUseOrder uses.now made.items) }
{
    let mut places = first_places(alloc, uses.len())?;
    places.sort_unstable_by(|a, b| compare(uses, *a, *b));
    Ok(places)
}

/// The place of the first use of that path.
pub fn find_use(uses: &[Usage], places: &[usize], path: &CapPath) -> Option<usize>
    requires { IsUseOrder uses.now places.now }
    ensures { result ≡ position (λ u. bytes_eq u.path path.now) uses.now }
{
    let count = count_before(uses, places, path);
    let place = place_at(places, count)?;
    if stands_at(uses, place, path) {
        return Some(place);
    }
    None
}

/// The place of the first use of that path, found by going through all uses from the first on, where no
/// order of them is kept.
pub fn search_use(uses: &[Usage], path: &CapPath) -> Option<usize>
    ensures { result ≡ position (λ u. bytes_eq u.path path.now) uses.now }
{
    uses.iter().position(|usage| is_at(usage, path))
}

/// Whether the use is of that path.
fn is_at(usage: &Usage, path: &CapPath) -> bool
    ensures { result ≡ bytes_eq usage.now.path path.now }
{
    usage.path.as_str() == path.as_str()
}

/// Whether a use of that path stands at the place.
fn stands_at(uses: &[Usage], place: usize, path: &CapPath) -> bool
    ensures { result ≡ option_map_or (λ u. bytes_eq u.path path.now) (slice_get uses.now place) false }
{
    match uses.get(place) {
        None => false,
        Some(usage) => is_at(usage, path),
    }
}

/// How many of these places are of uses whose paths come before this one.
fn count_before(uses: &[Usage], places: &[usize], path: &CapPath) -> usize
    requires { IsUseOrder uses.now places.now }
    ensures { IsUseSplit uses.now places.now path.now result }
{
    let wanted = path.as_str();
    places.partition_point(|place| is_before(uses, *place, wanted))
}

/// The path of the use at this place; after the last one it is empty.
fn path_at(uses: &[Usage], place: usize) -> &str
    ensures { result.now ≡ spec.path_at uses.now place }
{
    match uses.get(place) {
        Some(usage) => usage.path.as_str(),
        None => "",
    }
}

/// The order of places.
fn compare(uses: &[Usage], a: usize, b: usize) -> Ordering
    ensures { result ≡ spec.use_cmp uses.now a b }
{
    path_at(uses, a).cmp(path_at(uses, b)).then(a.cmp(&b))
}

/// Whether the path of the use at this place comes before the wanted one.
fn is_before(uses: &[Usage], place: usize, wanted: &str) -> bool
    ensures { result ≡ is_lt (spec.path_cmp (spec.path_at uses.now place) wanted.now) }
{
    path_at(uses, place).cmp(wanted).is_lt()
}
