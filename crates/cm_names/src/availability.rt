//! How much a capability is needed.

ghost use Rattle.std.specs.Prelude.{◌≡◌, ◌↔◌, IsTrue};
ghost use Rattle.cm_names.specs.Availability as spec;

use crate::Plain;
use std::fmt;

/// How much a use needs a capability, or how surely an offer or an expose gives it.
///
/// This is `availability` of Fuchsia's component manifest reference (fuchsia.dev).
#[derive(Debug, Clone, Copy, PartialEq, Eq)]
pub enum Availability {
    /// The capability is there, or the component fails without it.
    Required,
    /// The capability may be missing, and may come from `void`.
    Optional,
    /// The capability may be missing for now: nobody relies on it yet, or any longer.
    Transitional,
    /// An offer or an expose gives it as surely as its target asks for it.
    SameAsTarget,
}

impl Availability {
    /// Whether `given` is enough where `asked` is asked for. From the strongest down the words are
    /// `Required`, `Optional` and `Transitional`, and a weaker one isn't enough. `SameAsTarget` is
    /// enough for each of them, and each is enough for it.
    pub fn fits(asked: Availability, given: Availability) -> bool
        ensures { result ≡ spec.fits asked given }
    {
        match (asked, given) {
            (Availability::Required, Availability::Optional | Availability::Transitional) => false,
            (Availability::Optional, Availability::Transitional) => false,
            _ => true,
        }
    }

    /// Whether a capability that is asked for so may come from `void`: exactly where it is
    /// optional or transitional.
    pub fn allows_void(self) -> bool
        ensures { result ≡ spec.allows_void self }
    {
        match self {
            Availability::Required | Availability::SameAsTarget => false,
            Availability::Optional | Availability::Transitional => true,
        }
    }

    /// What is stated by itself: `None` for `SameAsTarget`, which takes over what the target
    /// states.
    pub fn stated_itself(self) -> Option<Availability>
        ensures { result ≡ spec.stated_itself self }
    {
        match self {
            Availability::SameAsTarget => None,
            _ => Some(self),
        }
    }
}

impl Plain for Availability {
    ghost use Rattle.std.proofs.Common.{rules};

    ghost exact = { Prim.search rules };
}

impl fmt::Display for Availability {
    ghost use Rattle.std.specs.Prelude.{Some};
    ghost use Rattle.cm_names.specs.Availability.{availability_word};

    ghost output = { λ availability. Some (availability_word availability) };

    /// Writes the manifest's word.
    fn fmt<W: fmt::Write>(&self, f: &mut fmt::Formatter<W>) -> fmt::Result {
        match self {
            Availability::Required => f.write_str("required"),
            Availability::Optional => f.write_str("optional"),
            Availability::Transitional => f.write_str("transitional"),
            Availability::SameAsTarget => f.write_str("same_as_target"),
        }
    }
}
