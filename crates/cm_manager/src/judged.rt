//! The manifest that a caller judged last, which isn't read again where it is resolved again.
//!
//! Many instances may name one manifest, as the children of a collection do. Their rows share one declaration
//! then.

ghost use Rattle.std.specs.Prelude.{◌≡◌, Ok, IfOk, IfErr, IfSome, IsTrue};
ghost use Rattle.cm_decl.specs.Valid.{IsValid};
ghost use Rattle.cm_world.specs.declared.action.Outcome.TheVariants as outcome;
ghost use Rattle.cm_manager.specs.Work.{Judges};
ghost use Rattle.cm_manager.specs.Doing.{JudgesBy};

use crate::work::judge;
use cm_decl::Decl;
use cm_names::Shared;
use cm_world::Outcome;
use std::alloc::Global;
use std::marker::Model;

/// A manifest and the valid declaration that it is. Contracts see nothing of it.
#[derive(Drop)]
pub(crate) struct Judged<'a> {
    bytes: &'a [u8],
    decl: Shared<Decl>,
}

impl<'a> Model for Judged<'a> {
    ghost use Rattle.std.specs.Prelude.{Ok};
    ghost use Rattle.cm_manager.specs.Work.{Judges};

    ghost Value = { Unit {0} };

    ghost view = { λ j. tt };

    ghost invariant = { λ j. Judges j.bytes.now (Ok j.decl) };
}

/// The declaration of a manifest, if it is the one that was judged last.
fn known<'b>(last: &'b Option<Judged<'_>>, bytes: &[u8]) -> Option<&'b Shared<Decl>>
    ensures { IfSome result (λ decl. Judges bytes.now (Ok decl.now)) }
{
    let Some(judged) = last else {
        return None;
    };
    if judged.bytes == bytes {
        Some(&judged.decl)
    } else {
        None
    }
}

/// A share in a declaration. `Err` where it has too many owners.
fn share(decl: &Shared<Decl>) -> Result<Shared<Decl>, Outcome>
    ensures ok { IfOk result (λ given. given ≡ decl.now) }
    ensures err { IfErr result (λ end. end ≡ outcome.NoMemory) }
{
    match decl.clone() {
        Ok(decl) => Ok(decl),
        Err(_) => Err(Outcome::NoMemory),
    }
}

/// A declaration that is to be shared. `Err` where memory runs out.
fn to_share(alloc: Global, decl: Decl) -> Result<Shared<Decl>, Outcome>
    ensures ok { IfOk result (λ given. given ≡ decl) }
    ensures err { IfErr result (λ end. end ≡ outcome.NoMemory) }
{
    match Shared::new(alloc, decl) {
        Ok(decl) => Ok(decl),
        Err(_) => Err(Outcome::NoMemory),
    }
}

/// The valid declaration of a manifest, or how a resolve ends without one. It isn't read again where it is
/// the last one, and is the last one from then on.
pub(crate) fn judge_unless_last<'a>(
    alloc: Global,
    last: &mut Option<Judged<'a>>,
    bytes: &'a [u8],
) -> Result<Shared<Decl>, Outcome>
    ensures judged { JudgesBy bytes.now result }
    ensures valid { IfOk result IsValid }
{
    if let Some(decl) = known(last, bytes) {
        return share(decl);
    }
    let decl = to_share(alloc, judge(alloc, bytes)?)?;
    let given = share(&decl)?;
    *last = Some(Judged { bytes, decl });
    Ok(given)
}
