//! Whether the declaration that an event brings is valid.

ghost use Rattle.std.specs.Prelude.{◌↔◌, IfOk, IsTrue};
ghost use Rattle.cm_decl.specs.Valid.{IsValid};
ghost use Rattle.cm_steps.specs.Enabled.{BringsValid};

use cm_decl::Decl;
use cm_names::Memory;
use cm_valid::{ValidFault, check, is_well_formed};
use cm_world::{Event, Finish};
use std::alloc::Global;

/// Whether the event brings no declaration, or a valid one. `Err` where memory runs out.
pub fn brings_valid(alloc: Global, event: &Event) -> Result<bool, Memory>
    ensures { IfOk result (λ is. IsTrue is ↔ BringsValid event.now) }
{
    let Event::End(_, finish) = event else {
        return Ok(true);
    };
    let Finish::Resolved(_, decl) = finish else {
        return Ok(true);
    };
    is_valid(alloc, decl.get())
}

/// Whether the declaration is valid. `Err` where memory runs out.
fn is_valid(alloc: Global, decl: &Decl) -> Result<bool, Memory>
    ensures { IfOk result (λ is. IsTrue is ↔ IsValid decl.now) }
{
    if !is_well_formed(decl) {
        return Ok(false);
    }
    match check(alloc, decl) {
        Ok(()) => Ok(true),
        Err(ValidFault::Bad { .. }) => Ok(false),
        Err(ValidFault::Memory) => Err(Memory),
    }
}
