//! Several values that are read, or the first fault among them.

ghost use Rattle.cm_read.specs.Both as spec;

use crate::fault::ReadFault;

/// Both values, or the first fault. Readers of items read all fields, and nest calls of this: so values that
/// were read beside a fault are dropped here, and not at each field.
pub fn both<A: Drop, B: Drop>(
    first: Result<A, ReadFault>,
    second: Result<B, ReadFault>,
) -> Result<(A, B), ReadFault>
    ensures { spec.GivesBoth first second result }
{
    match first {
        Ok(first) => match second {
            Ok(second) => Ok((first, second)),
            Err(fault) => Err(fault),
        },
        Err(fault) => {
            drop(second);
            Err(fault)
        }
    }
}
