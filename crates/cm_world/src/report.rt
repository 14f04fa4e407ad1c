//! What replies tell of instances.

use crate::ActKind;
use cm_names::{CapPath, List, Moniker, Name, Plain, Text};

/// A child in a collection.
#[derive(Clone)]
pub struct Kid {
    /// Its name in the collection.
    pub name: Name,
    /// Its incarnation.
    pub inc: u64,
}

impl Drop for Kid {
    /// Called where the value goes: gives back the memory of its parts.
    fn drop(self) {
        let Kid { name: _, inc: _ } = self;
    }
}

impl Plain for Kid {
    ghost use Rattle.std.proofs.Common.{rules};

    ghost exact = { Prim.search rules };
}

/// How an instance is.
#[derive(Clone)]
pub struct Look {
    /// Its incarnation.
    pub inc: u64,
    /// Its URL as declared, or as it was created with.
    pub url: Text,
    /// Whether it has its declaration.
    pub resolved: bool,
    /// Whether its program runs.
    pub on: bool,
    /// Whether it itself was marked to be shut down or destroyed.
    pub closing: bool,
    /// Whether it is shut down.
    pub shut: bool,
    /// The action that was begun here and hasn't ended.
    pub pending: Option<ActKind>,
}

impl Drop for Look {
    /// Called where the value goes: gives back the memory of its parts.
    fn drop(self) {
        let Look {
            inc: _,
            url: _,
            resolved: _,
            on: _,
            closing: _,
            shut: _,
            pending: _,
        } = self;
    }
}

impl Plain for Look {
    ghost use Rattle.std.proofs.Common.{rules};

    ghost exact = { Prim.search rules };
}

/// How one instance of a survey is.
#[derive(Clone)]
pub struct SurveyRow {
    /// Its incarnation.
    pub inc: u64,
    /// Where it stands.
    pub moniker: Moniker,
    /// Whether it has its declaration.
    pub resolved: bool,
    /// Whether its program runs.
    pub on: bool,
    /// Whether it is shut down.
    pub shut: bool,
    /// The paths of its uses, in the order of its declaration.
    pub paths: List<CapPath>,
}

impl Drop for SurveyRow {
    /// Called where the value goes: gives back the memory of its parts.
    fn drop(self) {
        let SurveyRow {
            inc: _,
            moniker: _,
            resolved: _,
            on: _,
            shut: _,
            paths: _,
        } = self;
    }
}

impl Plain for SurveyRow {
    ghost use Rattle.std.proofs.Common.{rules};

    ghost exact = { Prim.search rules };
}

/// An instance that was removed.
#[derive(Clone)]
pub struct Lost {
    /// Its incarnation.
    pub inc: u64,
    /// Where it stood.
    pub moniker: Moniker,
}

impl Drop for Lost {
    /// Called where the value goes: gives back the memory of its parts.
    fn drop(self) {
        let Lost { inc: _, moniker: _ } = self;
    }
}

impl Plain for Lost {
    ghost use Rattle.std.proofs.Common.{rules};

    ghost exact = { Prim.search rules };
}
