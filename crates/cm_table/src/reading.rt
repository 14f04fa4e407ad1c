//! Tests of builtins, and indexes as they are told.

ghost use Rattle.std.specs.Prelude.{◌≡◌};
ghost use Rattle.cm_world.specs.Offering as offering;
ghost use Rattle.cm_table.specs.Reading.{is_builtin};

use cm_decl::Kind;
use cm_names::Name;
use cm_world::Builtin;

/// Whether the builtin has that kind and that name.
pub fn is_that(builtin: &Builtin, kind: Kind, name: &Name) -> bool
    ensures { result ≡ is_builtin kind name.now builtin.now }
{
    builtin.kind == kind && builtin.name == *name
}

/// An index as it is told. The module is private: only the views of this crate's own rows call it.
pub fn told_index(index: usize) -> u32
    ensures { result ≡ offering.told_index index }
{
    match u32::try_from(index) {
        Ok(index) => index,
        Err(_) => u32::MAX,
    }
}
