//! The command `audit`: whether a journal is a legal history.

ghost use Rattle.std.specs.Prelude.{◌≡◌, ◌⊎◌, IfOk};
ghost use Rattle.cm_program.specs.Audits as spec;
ghost use Rattle.cm_program.specs.Audits.{IsJournalVerdict};

use crate::verdict::{Verdict, line_of};
use cm_audit::{Audit, audit};
use cm_names::Memory;
use std::alloc::Global;

/// The status that `audit` ends with for this verdict: 0 for a legal journal, else 1.
fn status_of(found: &Audit) -> u8
    ensures status { result ≡ spec.status_of found.now }
    ensures bound { (result ≡ 0) ⊎ (result ≡ 1) }
{
    match found {
        Audit::Legal(_) => 0,
        Audit::Illegal { .. } => 1,
        Audit::BadText(_) => 1,
    }
}

/// The verdict on the journal that the bytes are.
pub fn verdict_of(alloc: Global, bytes: &[u8]) -> Result<Verdict, Memory>
    ensures verdict { IfOk result
        (λ verdict. IsJournalVerdict bytes.now verdict.status verdict.line) }
    ensures status { IfOk result (λ verdict. (verdict.status ≡ 0) ⊎ (verdict.status ≡ 1)) }
{
    let found = audit(alloc, bytes)?;
    let line = line_of(alloc, &found)?;
    Ok(Verdict {
        status: status_of(&found),
        line,
    })
}
