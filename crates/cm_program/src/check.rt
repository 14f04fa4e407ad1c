//! The command `check`: whether a manifest is valid.

ghost use Rattle.std.specs.Prelude.{◌≡◌, ◌⊎◌, codes, Result, Ok, Err, IfOk};
ghost use Rattle.cm_decl.specs.declared.decl.Decl.{Decl as Declaration};
ghost use Rattle.cm_decl.specs.Valid.{IsValid};
ghost use Rattle.cm_env.specs.Faults as environments;
ghost use Rattle.cm_storage.specs.Faults as storage;
ghost use Rattle.cm_read.specs.ReadingInside.{FailsReading};
ghost use Rattle.cm_read.specs.declared.fault.ReadFault.{ReadFault};
ghost use Rattle.cm_valid.specs.ReportsInside.{Reports};
ghost use Rattle.cm_program.specs.Checks.{IsJudged, IsManifestVerdict};

use crate::verdict::{Verdict, line_of};
use cm_decl::Decl;
use cm_env::{EnvFault, check_env_in};
use cm_names::{Memory, Text};
use cm_read::{ReadFault, read_decl};
use cm_storage::{StorageNote, check_storage_in};
use cm_valid::{ValidFault, validate};
use std::alloc::Global;

/// The verdict on a manifest with a fault.
fn refused(line: Text) -> Verdict
    ensures status { result.status ≡ 1 }
    ensures line { result.line ≡ line }
{
    Verdict { status: 1, line }
}

/// The verdict on a manifest that isn't read.
fn unread(alloc: Global, fault: &ReadFault) -> Result<Verdict, Memory>
    ensures verdict { (read : Result Declaration ReadFault) → FailsReading fault.now read →
        IfOk result (λ verdict. IsJudged read verdict.status verdict.line) }
    ensures status { IfOk result (λ verdict. verdict.status ≡ 1) }
{
    match fault {
        ReadFault::Bad { .. } => {
            let line = line_of(alloc, fault)?;
            Ok(refused(line))
        }
        ReadFault::Memory => Err(Memory),
    }
}

/// The verdict on a manifest that is read and isn't valid.
fn invalid(alloc: Global, fault: &ValidFault) -> Result<Verdict, Memory>
    ensures verdict { (read : Result Declaration ReadFault) (d : Declaration) → read ≡ Ok d →
        Reports d fault.now → IfOk result (λ verdict. IsJudged read verdict.status verdict.line) }
    ensures status { IfOk result (λ verdict. verdict.status ≡ 1) }
{
    match fault {
        ValidFault::Bad { .. } => {
            let line = line_of(alloc, fault)?;
            Ok(refused(line))
        }
        ValidFault::Memory => Err(Memory),
    }
}

/// The verdict on a manifest whose environments have a fault.
fn unregistered(alloc: Global, fault: &EnvFault) -> Result<Verdict, Memory>
    ensures verdict { (read : Result Declaration ReadFault) (d : Declaration) → read ≡ Ok d
        → IsValid d → environments.JudgesEnv d (Err fault.now)
        → IfOk result (λ verdict. IsJudged read verdict.status verdict.line) }
    ensures status { IfOk result (λ verdict. verdict.status ≡ 1) }
{
    let line = line_of(alloc, fault)?;
    Ok(refused(line))
}

/// The verdict on a manifest whose storage has a fault.
fn unstored(alloc: Global, note: &StorageNote) -> Result<Verdict, Memory>
    ensures verdict { (read : Result Declaration ReadFault) (d : Declaration) → read ≡ Ok d
        → IsValid d → environments.HasNoFault d → storage.JudgesStorage d (Err note.now)
        → IfOk result (λ verdict. IsJudged read verdict.status verdict.line) }
    ensures status { IfOk result (λ verdict. verdict.status ≡ 1) }
{
    let line = line_of(alloc, note)?;
    Ok(refused(line))
}

/// The verdict on a manifest that is valid.
fn valid(alloc: Global) -> Result<Verdict, Memory>
    ensures { IfOk result (λ verdict. (verdict.status ≡ 0) × (verdict.line ≡ codes "valid\n")) }
{
    let line = Text::from_str(alloc, "valid\n")?;
    Ok(Verdict { status: 0, line })
}

/// The verdict on a manifest whose routes and environments have no fault.
fn verdict_on_storage(alloc: Global, decl: &Decl) -> Result<Verdict, Memory>
    ensures verdict { (read : Result Declaration ReadFault) → read ≡ Ok decl.now
        → IsValid decl.now → environments.HasNoFault decl.now
        → IfOk result (λ verdict. IsJudged read verdict.status verdict.line) }
    ensures status { IfOk result (λ verdict. (verdict.status ≡ 0) ⊎ (verdict.status ≡ 1)) }
{
    match check_storage_in(alloc, decl)? {
        Err(note) => unstored(alloc, &note),
        Ok(()) => valid(alloc),
    }
}

/// The verdict on a manifest whose routes have no fault.
fn verdict_on(alloc: Global, decl: &Decl) -> Result<Verdict, Memory>
    ensures verdict { (read : Result Declaration ReadFault) → read ≡ Ok decl.now
        → IsValid decl.now → IfOk result (λ verdict. IsJudged read verdict.status verdict.line) }
    ensures status { IfOk result (λ verdict. (verdict.status ≡ 0) ⊎ (verdict.status ≡ 1)) }
{
    match check_env_in(alloc, decl)? {
        Err(fault) => unregistered(alloc, &fault),
        Ok(()) => verdict_on_storage(alloc, decl),
    }
}

/// The verdict on the manifest that the bytes are.
pub fn verdict_of(alloc: Global, bytes: &[u8]) -> Result<Verdict, Memory>
    ensures verdict { IfOk result (λ verdict. IsManifestVerdict bytes.now verdict.status verdict.line) }
    ensures status { IfOk result (λ verdict. (verdict.status ≡ 0) ⊎ (verdict.status ≡ 1)) }
{
    match read_decl(alloc, bytes) {
        Err(fault) => unread(alloc, &fault),
        Ok(decl) => match validate(alloc, decl) {
            Err(fault) => invalid(alloc, &fault),
            Ok(valid) => verdict_on(alloc, valid.decl()),
        },
    }
}
