//! Declarations, which are read from manifests.

ghost use Rattle.std.specs.Prelude.{IfSome};
ghost use Rattle.cm_decl.specs.Valid.{IsValid};

use cm_names::Text;
use cm_read::read_decl;
use cm_table::Prepared;
use cm_valid::{ValidDecl, validate};
use std::alloc::Global;

/// The declaration of a manifest, where it is valid.
fn valid_of(alloc: Global, manifest: &str) -> Option<ValidDecl> {
    match read_decl(alloc, manifest.as_bytes()) {
        Ok(decl) => validate(alloc, decl).ok(),
        Err(_) => None,
    }
}

/// A valid declaration that is got ready.
fn prepared_at(alloc: Global, valid: ValidDecl, url: Text) -> Option<Prepared>
    ensures { IfSome result (λ made. IsValid made.decl) }
{
    Prepared::make(alloc, valid.into_decl(), url).ok()
}

/// The declaration of a manifest, which is valid.
pub fn prepared(alloc: Global, manifest: &str) -> Option<Prepared>
    ensures { IfSome result (λ made. IsValid made.decl) }
{
    match valid_of(alloc, manifest) {
        Some(valid) => match Text::from_str(alloc, "fuchsia-pkg://t/a#x") {
            Ok(url) => prepared_at(alloc, valid, url),
            Err(_) => {
                drop(valid);
                None
            }
        },
        None => None,
    }
}
