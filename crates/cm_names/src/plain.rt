//! Plain data: values whose clone is the same value.

/// A type whose clone is the value itself, as contracts see it.
///
/// A type of plain fields derives `Clone` and then states this law, with `ghost exact = {
/// Prim.search rules }`, as [`crate::ChildName`] does. Lists of it can then be cloned.
pub trait Plain: Clone {
    ghost use Rattle.std.specs.Prelude.{◌≡◌};

    // A clone is the same value.
    ghost exact: { (a b : Self) → Self.Clone.is_clone a b → b ≡ a };
}

impl Plain for bool {
    ghost exact = { λ a b same. same };
}

impl Plain for u8 {
    ghost exact = { λ a b same. same };
}

impl Plain for u16 {
    ghost exact = { λ a b same. same };
}

impl Plain for u32 {
    ghost exact = { λ a b same. same };
}

impl Plain for u64 {
    ghost exact = { λ a b same. same };
}

impl Plain for usize {
    ghost exact = { λ a b same. same };
}

impl<T: Plain> Plain for Option<T> {
    ghost use Rattle.std.proofs.Common.{rules};

    ghost exact = { Prim.search rules };
}
