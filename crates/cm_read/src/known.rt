//! The keys that are known in an object of a manifest.

ghost use Rattle.std.specs.Prelude.{◌≡◌};
ghost use Rattle.cm_plain.specs.JsonTree.{view};
ghost use Rattle.cm_read.specs.Fields.{known_at};
ghost use Rattle.cm_read.specs.FieldsInside.{map_now, members_in};
ghost use Rattle.cm_read.specs.Items.{capability_fields, use_fields, offer_fields, expose_fields};
ghost use Rattle.cm_read.specs.Known as spec;
ghost use Rattle.cm_read.specs.ReadingInside.{GivesReading};

use crate::fault::{ItemPlace, ReadFault};
use crate::fields::check_known;
use crate::rows::{Registry, Sort};
use cm_decl::Kind;
use cm_plain::JsonTree;
use std::alloc::Global;

/// An object of a manifest.
#[derive(Clone, Copy)]
pub enum Object {
    /// The manifest, whose keys are its sections.
    Manifest,
    /// An item of `children`.
    Child,
    /// An item of `collections`.
    Collection,
    /// An item of `capabilities`, by what it is about.
    Capability(Sort),
    /// An item of `use`, by what it is about.
    Use(Sort),
    /// An item of `offer`, by what it is about.
    Offer(Sort),
    /// An item of `expose`, by its kind.
    Expose(Kind),
    /// An item of `environments`.
    Environment,
    /// A registration in an environment.
    Registration(Registry),
}

/// The keys that are known in an item of `capabilities`.
fn capability_keys(sort: Sort) -> &'static [&'static str]
    ensures { map_now result.now ≡ capability_fields sort }
{
    match sort {
        Sort::Routed(Kind::Protocol) => &["protocol", "path"],
        Sort::Routed(Kind::Directory) => &["directory", "path", "rights"],
        Sort::Storage => &["storage", "from", "backing_dir", "subdir", "storage_id"],
    }
}

/// The keys that are known in an item of `use`.
fn use_keys(sort: Sort) -> &'static [&'static str]
    ensures { map_now result.now ≡ use_fields sort }
{
    match sort {
        Sort::Routed(Kind::Protocol) => &["protocol", "from", "path", "dependency", "availability"],
        Sort::Routed(Kind::Directory) => &[
            "directory",
            "from",
            "path",
            "rights",
            "subdir",
            "dependency",
            "availability",
        ],
        Sort::Storage => &["storage", "from", "path", "availability"],
    }
}

/// The keys that are known in an item of `offer`.
fn offer_keys(sort: Sort) -> &'static [&'static str]
    ensures { map_now result.now ≡ offer_fields sort }
{
    match sort {
        Sort::Routed(Kind::Protocol) => &[
            "protocol",
            "from",
            "to",
            "as",
            "dependency",
            "availability",
            "source_availability",
        ],
        Sort::Routed(Kind::Directory) => &[
            "directory",
            "from",
            "to",
            "as",
            "rights",
            "subdir",
            "dependency",
            "availability",
            "source_availability",
        ],
        Sort::Storage => &["storage", "from", "to", "as", "availability"],
    }
}

/// The keys that are known in an item of `expose`.
fn expose_keys(kind: Kind) -> &'static [&'static str]
    ensures { map_now result.now ≡ expose_fields kind }
{
    match kind {
        Kind::Protocol => &[
            "protocol",
            "from",
            "to",
            "as",
            "availability",
            "source_availability",
        ],
        Kind::Directory => &[
            "directory",
            "from",
            "to",
            "as",
            "rights",
            "subdir",
            "availability",
            "source_availability",
        ],
    }
}

/// The keys that may stand in an object of this sort. Others are faults.
fn keys_of(object: Object) -> &'static [&'static str]
    ensures { map_now result.now ≡ spec.keys_of object }
{
    match object {
        Object::Manifest => &[
            "program",
            "children",
            "collections",
            "capabilities",
            "use",
            "offer",
            "expose",
            "facets",
            "environments",
        ],
        Object::Child => &["name", "url", "startup", "environment"],
        Object::Collection => &["name", "durability", "allowed_offers", "environment"],
        Object::Capability(sort) => capability_keys(sort),
        Object::Use(sort) => use_keys(sort),
        Object::Offer(sort) => offer_keys(sort),
        Object::Expose(kind) => expose_keys(kind),
        Object::Environment => &[
            "name",
            "extends",
            "runners",
            "debug",
            "resolvers",
            "__stop_timeout_ms",
        ],
        Object::Registration(Registry::Runners) => &["runner", "from", "as"],
        Object::Registration(Registry::Debug) => &["protocol", "from", "as"],
    }
}

/// An object has known keys alone.
pub fn check_keys(
    alloc: Global,
    at: ItemPlace,
    object: Object,
    item: &JsonTree<'_>,
) -> Result<(), ReadFault>
    ensures { GivesReading result (known_at at (spec.keys_of object) (members_in (view item.now))) }
{
    check_known(alloc, at, item, keys_of(object))
}
