//! Desks: what each of many callers, side by side, has in hand between its calls.
//!
//! Who lets callers work side by side makes a desk of each pass, with gates and a work of its own, lends the
//! desks to threads, and clears them into lists again. Room for all of it is taken beforehand: none of it is
//! lost for lack of memory.

ghost use Rattle.std.specs.Prelude.{◌≡◌, ◌≤◌, [], All, IfOk, false, length, true, vec_capacity};
ghost use Rattle.cm_manager.specs.Desks.{AreDeskParts, AreDesksOf, DeskPartsHaveRoom, DesksHaveRoom};
ghost use Rattle.cm_manager.specs.Desks.{HasPassIn, NoDeskParts, PutsDeskParts};

use cm_names::List;
use cm_turn::Pass;
use cm_world::{Entry, Frame};
use std::alloc::{AllocError, Global};

/// A caller's pass and gates, with a work of its own. `make_desks` makes one of each pass.
#[derive(Drop)]
pub struct Desk<G, W> {
    /// The pass of its caller; `None` only while a call has it.
    pub pass: Option<Pass<Entry, Frame>>,
    /// The gates of its caller.
    pub gates: G,
    /// What its caller has in hand of its own work.
    pub work: W,
    /// Whether something of that work is missing, because memory ran out.
    pub lost: bool,
}

/// What desks are cleared into, with their works as a list, or what is made of it.
#[derive(Drop)]
pub struct DeskParts<G, Works> {
    /// The passes, desk by desk.
    pub passes: Vec<Pass<Entry, Frame>>,
    /// The gates, desk by desk.
    pub gates: Vec<G>,
    /// The works, desk by desk.
    pub works: Works,
    /// Whether something was lost at one of them.
    pub lost: bool,
}

/// Room for desks, for the works that they are made of, and for what they are cleared into.
#[derive(Drop)]
pub struct DeskRoom<G, W> {
    /// No desks yet.
    pub desks: Vec<Desk<G, W>>,
    /// No works yet.
    pub works: Vec<W>,
    /// No parts yet.
    pub parts: DeskParts<G, Vec<W>>,
}

/// Takes room for so many desks, their works and their parts. `Err` means that memory ran out.
pub fn room_for_desks<G: Drop, W: Drop>(
    alloc: Global,
    count: usize,
) -> Result<DeskRoom<G, W>, AllocError>
    ensures { IfOk result (DesksHaveRoom count) }
{
    Ok(DeskRoom {
        desks: Vec::with_capacity(alloc, count)?,
        works: Vec::with_capacity(alloc, count)?,
        parts: DeskParts {
            passes: Vec::with_capacity(alloc, count)?,
            gates: Vec::with_capacity(alloc, count)?,
            works: Vec::with_capacity(alloc, count)?,
            lost: false,
        },
    })
}

/// Makes a desk of each pass, with what stands at its place in the other lists.
pub fn make_desks<G: Drop, W: Drop>(
    desks: Vec<Desk<G, W>>,
    passes: List<Pass<Entry, Frame>>,
    gates: List<G>,
    works: Vec<W>,
) -> Vec<Desk<G, W>>
    requires room { (desks.items ≡ []) × (length passes ≤ vec_capacity desks) }
    requires gates { length gates ≡ length passes }
    requires works { length works.items ≡ length passes }
    ensures { AreDesksOf passes gates works.items result.items }
{
    let mut desks = desks;
    let mut all_gates = gates.into_vec().into_iter();
    let mut all_works = works.into_iter();
    for pass in passes.into_vec() {
        let Some(gates) = all_gates.next() else {
            unreachable!()
        };
        let Some(work) = all_works.next() else {
            unreachable!()
        };
        desks.push_reserved(Desk {
            pass: Some(pass),
            gates,
            work,
            lost: false,
        });
    }
    desks
}

/// Clears desks into lists of their parts, for which there is room.
pub fn clear_desks<G: Drop, W: Drop>(
    desks: Vec<Desk<G, W>>,
    parts: DeskParts<G, Vec<W>>,
) -> DeskParts<G, Vec<W>>
    requires passes { All HasPassIn desks.items }
    requires empty { NoDeskParts parts }
    requires room { DeskPartsHaveRoom (length desks.items) parts }
    ensures { AreDeskParts desks.items result }
{
    let mut parts = parts;
    for desk in desks {
        put_parts(desk, &mut parts);
    }
    parts
}

/// Adds the parts of a desk to the lists, for which there is room.
fn put_parts<G: Drop, W: Drop>(desk: Desk<G, W>, parts: &mut DeskParts<G, Vec<W>>)
    requires pass { HasPassIn desk }
    requires room { DeskPartsHaveRoom 1 parts.old }
    ensures { PutsDeskParts desk parts.old parts.new }
{
    let Desk {
        pass,
        gates,
        work,
        lost,
    } = desk;
    let Some(pass) = pass else { unreachable!() };
    parts.passes.push_reserved(pass);
    parts.gates.push_reserved(gates);
    parts.works.push_reserved(work);
    parts.lost = is_either(parts.lost, lost);
}

/// Whether one of the two holds.
fn is_either(one: bool, other: bool) -> bool
    ensures neither { result ≡ false → (one ≡ false) × (other ≡ false) }
    ensures other { result ≡ true → one ≡ false → other ≡ true }
{
    one || other
}
