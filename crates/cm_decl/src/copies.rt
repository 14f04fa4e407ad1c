//! Copies of several values at once.
//!
//! A row with many parts copies them by one of these calls, and then has one exit where memory runs
//! out in place of one for each part.

ghost use Rattle.std.specs.Prelude.{◌≡◌, IfOk};

use cm_names::Plain;
use std::alloc::AllocError;

/// Copies of two values. `Err(AllocError)` comes where memory runs out.
pub fn two<A: Plain + Drop, B: Plain + Drop>(a: &A, b: &B) -> Result<(A, B), AllocError>
    ensures first { IfOk result (λ made. made.0 ≡ a.now) }
    ensures second { IfOk result (λ made. made.1 ≡ b.now) }
{
    let a = a.clone()?;
    let b = b.clone()?;
    Ok((a, b))
}

/// Copies of three values. `Err(AllocError)` comes where memory runs out.
pub fn three<A: Plain + Drop, B: Plain + Drop, C: Plain + Drop>(
    a: &A,
    b: &B,
    c: &C,
) -> Result<(A, B, C), AllocError>
    ensures first { IfOk result (λ made. made.0 ≡ a.now) }
    ensures second { IfOk result (λ made. made.1 ≡ b.now) }
    ensures third { IfOk result (λ made. made.2 ≡ c.now) }
{
    let (a, b) = two(a, b)?;
    let c = c.clone()?;
    Ok((a, b, c))
}

/// Copies of four values. `Err(AllocError)` comes where memory runs out.
pub fn four<A: Plain + Drop, B: Plain + Drop, C: Plain + Drop, D: Plain + Drop>(
    a: &A,
    b: &B,
    c: &C,
    d: &D,
) -> Result<(A, B, C, D), AllocError>
    ensures first { IfOk result (λ made. made.0 ≡ a.now) }
    ensures second { IfOk result (λ made. made.1 ≡ b.now) }
    ensures third { IfOk result (λ made. made.2 ≡ c.now) }
    ensures fourth { IfOk result (λ made. made.3 ≡ d.now) }
{
    let (a, b) = two(a, b)?;
    let (c, d) = two(c, d)?;
    Ok((a, b, c, d))
}
