//! Laws of the definitions.
//!
//! This function does nothing, and no code calls it: what it promises is a fact about definitions,
//! which its proof shows.

ghost use Rattle.cm_valid.specs.Laws.{EachIsValidOrHasAFault};

/// A declaration with no use from `void` and no expose from `parent` is valid or has a fault, so
/// [`validate`](crate::validate) has something to answer for each. That it has one fault at most,
/// and none where it is valid, is a law of the definitions of declarations.
pub fn each_is_valid_or_has_a_fault()
    ensures { EachIsValidOrHasAFault }
{}
