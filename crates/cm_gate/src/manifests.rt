//! Manifests in memory.

ghost use Rattle.std.specs.Option.{option_copied};
ghost use Rattle.std.specs.Prelude.{◌≡◌, IfOk, find};
ghost use Rattle.std.specs.Str.{bytes_eq};
ghost use Rattle.cm_gate.specs.Manifests.{manifest_at};

use crate::Fetched;
use cm_names::{Bytes, Plain, Text};
use std::alloc::AllocError;

/// The manifest of a component.
#[derive(Debug, Drop, Clone, PartialEq, Eq)]
pub struct Manifest {
    /// The absolute URL of the component.
    pub url: Text,
    /// The text of the manifest.
    pub bytes: Bytes,
}

impl Plain for Manifest {
    ghost use Rattle.std.proofs.Common.{rules};

    ghost exact = { Prim.search rules };
}

/// The first manifest that has this URL.
fn first_with<'a>(manifests: &'a [Manifest], url: &str) -> Option<&'a Manifest>
    ensures { option_copied result ≡ find (λ m. bytes_eq m.url url.now) manifests.now }
{
    manifests
        .iter()
        .find(|manifest| manifest.url.as_str() == url)
}

/// What is known under a URL: a copy of the bytes of the first manifest that has it.
pub(crate) fn find_manifest(manifests: &[Manifest], url: &str) -> Result<Fetched, AllocError>
    ensures { IfOk result (λ answer. answer ≡ manifest_at url.now manifests.now) }
{
    match first_with(manifests, url) {
        Some(manifest) => Ok(Fetched::Found(manifest.bytes.clone()?)),
        None => Ok(Fetched::Absent),
    }
}
