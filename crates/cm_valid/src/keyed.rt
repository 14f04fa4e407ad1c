//! The texts by which the rows of each section clash.

ghost use Rattle.std.specs.Prelude.{◌≡◌, IfOk};
ghost use Rattle.cm_valid.specs.Keys as spec;

use crate::near::Keyed;
use cm_decl::{Capability, Child, Collection, Give, Offer, Usage};
use cm_names::{Bytes, List, Memory};
use std::alloc::Global;

/// A copy of the bytes of a text.
fn bytes_of(alloc: Global, text: &str) -> Result<Bytes, Memory>
    ensures { IfOk result (λ bytes. bytes ≡ text.now) }
{
    let mut bytes = List::with_capacity(alloc, text.len())?;
    bytes.extend_from_slice(text.as_bytes())?;
    Ok(bytes)
}

/// A copy of the bytes of a path, with a zero for each slash.
fn zeroed(alloc: Global, path: &str) -> Result<Bytes, Memory>
    ensures { IfOk result (λ bytes. bytes ≡ spec.zeroed path.now) }
{
    let mut bytes = List::with_capacity(alloc, path.len())?;
    for byte in path.as_bytes() {
        bytes.push(if *byte == b'/' { 0 } else { *byte })?;
    }
    Ok(bytes)
}

/// A child clashes by its name.
impl Keyed for Child {
    ghost key = { λ child. child.name };

    /// Children clash by their names.
    fn key(&self, alloc: Global) -> Result<Bytes, Memory> {
        bytes_of(alloc, self.name.as_str())
    }
}

/// A collection clashes by its name.
impl Keyed for Collection {
    ghost key = { λ collection. collection.name };

    /// Collections clash by their names.
    fn key(&self, alloc: Global) -> Result<Bytes, Memory> {
        bytes_of(alloc, self.name.as_str())
    }
}

/// A capability clashes by its name, whatever its kind.
impl Keyed for Capability {
    ghost key = { λ capability. capability.name };

    /// Capabilities clash by their names.
    fn key(&self, alloc: Global) -> Result<Bytes, Memory> {
        bytes_of(alloc, self.name.as_str())
    }
}

/// A use clashes by its path. With a zero for each slash, what lies inside a path goes on after
/// it with a zero.
impl Keyed for Usage {
    ghost use Rattle.cm_valid.specs.Keys.{usage_key};

    ghost key = { usage_key };

    /// Uses clash by their paths, and where one path lies inside another.
    fn key(&self, alloc: Global) -> Result<Bytes, Memory> {
        zeroed(alloc, self.path.as_str())
    }
}

/// An offer clashes by its target and the name that the target sees.
impl Keyed for Offer {
    ghost use Rattle.cm_valid.specs.Keys.{offer_key};

    ghost key = { offer_key };

    /// Offers clash by their target and their name there.
    fn key(&self, alloc: Global) -> Result<Bytes, Memory> {
        let to = self.to.as_str();
        let name = self.give.target_name.as_str();
        let room = to.len().saturating_add(name.len()).saturating_add(1);
        let mut bytes = List::with_capacity(alloc, room)?;
        bytes.extend_from_slice(to.as_bytes())?;
        bytes.push(b'/')?;
        bytes.extend_from_slice(name.as_bytes())?;
        Ok(bytes)
    }
}

/// An expose clashes by the name that the parent sees.
impl Keyed for Give {
    ghost key = { λ give. give.target_name };

    /// Exposes clash by their names at the target.
    fn key(&self, alloc: Global) -> Result<Bytes, Memory> {
        bytes_of(alloc, self.target_name.as_str())
    }
}
