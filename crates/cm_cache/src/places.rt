//! Numbers by the use of an instance.

ghost use Rattle.std.specs.Prelude.{◌≡◌, ◌&&◌, ◌==◌, ℕ, List, Some, OnOk, OnErr, if◌then◌else◌};
ghost use Rattle.std.specs.Str.{bytes_eq};
ghost use Rattle.cm_cache.specs.Places.{place_at, placed};

use cm_names::{CapPath, Memory};
use std::alloc::Global;
use std::collections::BTreeMap;

/// The numbers of an instance's uses. The one that was asked for first has its place here, since most
/// instances have no other: so it takes no memory beside the index.
#[derive(Drop)]
pub(crate) struct Paths {
    /// The path of the use that was asked for first.
    first: CapPath,
    /// Its number.
    place: usize,
    /// The numbers of all others, by their paths.
    others: BTreeMap<CapPath, usize>,
}

/// Whether the path is that of the use which was asked for first.
fn is_first(paths: &Paths, path: &CapPath) -> bool
    ensures { result ≡ bytes_eq paths.now.first path.now }
{
    paths.first.as_str() == path.as_str()
}

/// The number of the answer for that path, in the index of one instance.
fn number_of(paths: &Paths, path: &CapPath) -> Option<usize>
    ensures { result ≡ place_at paths.now path.now }
{
    if is_first(paths, path) {
        return Some(paths.place);
    }
    match paths.others.get(path) {
        None => None,
        Some(number) => Some(*number),
    }
}

/// The number of the answer for the use of a path by an instance, in the index.
pub(crate) fn find(places: &BTreeMap<u64, Paths>, inc: u64, path: &CapPath) -> Option<usize>
    ensures { result ≡ placed places.now inc path.now }
{
    match places.get(&inc) {
        None => None,
        Some(paths) => number_of(paths, path),
    }
}

/// Gives a path a number. `Err` where memory runs out, and then all numbers are as before.
fn number(paths: &mut Paths, path: CapPath, place: usize) -> Result<(), Memory>
    ensures ok { OnOk result ((q : List ℕ) → place_at paths.new q
        ≡ (if bytes_eq path q then Some place else place_at paths.old q)) }
    ensures err { OnErr result ((q : List ℕ) → place_at paths.new q ≡ place_at paths.old q) }
{
    if is_first(paths, &path) {
        paths.place = place;
        return Ok(());
    }
    paths.others.insert(path, place)?;
    Ok(())
}

/// Gives the path of an instance that has no number yet one. `Err` where memory runs out, and then
/// all numbers are as before.
fn begin(
    alloc: Global,
    places: &mut BTreeMap<u64, Paths>,
    inc: u64,
    path: CapPath,
    place: usize,
) -> Result<(), Memory>
    requires { (q : List ℕ) → placed places.old inc q ≡ None }
    ensures ok { OnOk result ((j : ℕ) (q : List ℕ) → placed places.new j q
        ≡ (if (inc == j) && bytes_eq path q then Some place else placed places.old j q)) }
    ensures err { OnErr result ((j : ℕ) (q : List ℕ) → placed places.new j q ≡ placed places.old j q) }
{
    let others = BTreeMap::new(alloc);
    let paths = Paths {
        first: path,
        place,
        others,
    };
    places.insert(inc, paths)?;
    Ok(())
}

/// Gives a use a number. `Err` where memory runs out, and then all numbers are as before.
pub(crate) fn put(
    alloc: Global,
    places: &mut BTreeMap<u64, Paths>,
    inc: u64,
    path: CapPath,
    place: usize,
) -> Result<(), Memory>
    ensures ok { OnOk result ((j : ℕ) (q : List ℕ) → placed places.new j q
        ≡ (if (inc == j) && bytes_eq path q then Some place else placed places.old j q)) }
    ensures err { OnErr result ((j : ℕ) (q : List ℕ) → placed places.new j q ≡ placed places.old j q) }
{
    match places.get_mut(&inc) {
        Some(paths) => number(paths, path, place),
        None => begin(alloc, places, inc, path, place),
    }
}
