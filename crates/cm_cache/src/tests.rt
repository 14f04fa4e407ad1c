//! Answers are put, found, replaced and forgotten. What tells them apart here is the instance that
//! they wait for.

use crate::cache::{Cache, MOST};
use cm_names::CapPath;
use cm_world::Walked;
use std::alloc::Global;
use std::test::Fail;

/// Whether the kept answer of a use waits for that instance.
fn keeps(alloc: Global, cache: &Cache, inc: u64, path: &str, other: u64) -> Result<bool, Fail> {
    let path = CapPath::read(alloc, path)?;
    match cache.get(inc, &path) {
        Some(Walked::Need(kept)) => Ok(*kept == other),
        _ => Ok(false),
    }
}

/// Puts into the cache that the walk from this use waits for the row `other`.
fn put(alloc: Global, cache: &mut Cache, inc: u64, path: &str, other: u64) -> Result<(), Fail> {
    let path = CapPath::read(alloc, path)?;
    cache.put(inc, path, Walked::Need(other))?;
    Ok(())
}

/// Puts three answers, and then another in the place of the first.
fn put_some(alloc: Global, cache: &mut Cache) -> Result<(), Fail> {
    put(alloc, cache, 1, "/svc/a", 11)?;
    put(alloc, cache, 1, "/svc/b", 12)?;
    put(alloc, cache, 2, "/svc/a", 21)?;
    put(alloc, cache, 1, "/svc/a", 13)
}

/// Whether the cache has what [`put_some`] left.
fn keeps_some(alloc: Global, cache: &Cache) -> Result<bool, Fail> {
    let first = keeps(alloc, cache, 1, "/svc/a", 13)?;
    let second = keeps(alloc, cache, 1, "/svc/b", 12)?;
    let third = keeps(alloc, cache, 2, "/svc/a", 21)?;
    Ok(first && second && third)
}

/// Puts a full cache, and then an answer for a use that is kept.
fn fill(alloc: Global, cache: &mut Cache) -> Result<(), Fail> {
    for inc in 0..MOST as u64 {
        put(alloc, cache, inc, "/svc/a", inc)?;
    }
    put(alloc, cache, 0, "/svc/a", 1)
}

/// Answers are kept by instance and path, a later one replaces an earlier one, and all can be
/// forgotten.
#[test]
fn keeps_by_use(rt: HostRuntime) -> Result<(), Fail> {
    let mut cache = Cache::new(rt.alloc())?;
    put_some(rt.alloc(), &mut cache)?;
    let kept = keeps_some(rt.alloc(), &cache)?;
    cache.forget_all();
    let left = keeps(rt.alloc(), &cache, 1, "/svc/a", 13)?;
    assert!(rt; kept && !left);
    Ok(())
}

/// A full cache is emptied by one more use, and not by one that it has.
#[test]
fn begins_anew_when_full(rt: HostRuntime) -> Result<(), Fail> {
    let mut cache = Cache::new(rt.alloc())?;
    fill(rt.alloc(), &mut cache)?;
    let kept = keeps(rt.alloc(), &cache, 0, "/svc/a", 1)?;
    put(rt.alloc(), &mut cache, 20_000, "/svc/a", 2)?;
    let left = keeps(rt.alloc(), &cache, 0, "/svc/a", 1)?;
    let new = keeps(rt.alloc(), &cache, 20_000, "/svc/a", 2)?;
    assert!(rt; kept && !left && new);
    Ok(())
}
