//! What a realm tree is made with, and what no event changes.

use cm_decl::Kind;
use cm_names::{CapPath, List, Name, Plain, Rights, Text};

/// A capability that the component manager itself gives to the root: what stands above the root
/// where it uses something, or offers it on, from its parent.
///
/// Fuchsia's component manager has such capabilities from its own namespace ("Component manager
/// configuration", fuchsia.dev).
#[derive(Clone)]
pub struct Builtin {
    /// What it is.
    pub kind: Kind,
    /// Its name.
    pub name: Name,
    /// Where it stands.
    pub path: CapPath,
    /// The rights that a directory is provided with; `None` for a protocol.
    pub rights: Option<Rights>,
}

impl Drop for Builtin {
    /// Called where the value goes: gives back the memory of its parts.
    fn drop(self) {
        let Builtin {
            kind: _,
            name: _,
            path: _,
            rights: _,
        } = self;
    }
}

impl Plain for Builtin {
    ghost use Rattle.std.proofs.Common.{rules};

    ghost exact = { Prim.search rules };
}

/// How large a tree and its history may grow.
#[derive(Clone, Copy)]
pub struct Limits {
    /// The most instances that may live at once.
    pub rows: u32,
    /// The most entries that the history may hold, reserved ones counted.
    pub entries: u64,
}

/// What a tree is made with.
#[derive(Drop)]
pub struct Frame {
    /// The URL of the root component.
    pub root: Text,
    /// The capabilities that stand above the root, in their order.
    pub builtins: List<Builtin>,
    /// How large it may grow.
    pub limits: Limits,
}
