//! What a create comes to.

ghost use Rattle.std.specs.Prelude.{◌≡◌, IfOk};
ghost use Rattle.cm_world.specs.Create.{dynamic_name};
ghost use Rattle.cm_world.specs.Sound.{IsSound};
ghost use Rattle.cm_steps.specs.Answers.{CreatesBy, IsAnswerOf};

use cm_decl::Give;
use cm_dynamic::laws::parents_can_take;
use cm_dynamic::{MayCreate, may_create_acyclic};
use cm_names::{ChildName, Memory, Name};
use cm_table::Table;
use cm_world::Reply;
use std::alloc::Global;

/// What a create comes to.
#[derive(Drop)]
pub enum CreateAnswer {
    /// It creates nothing, and this is the reply.
    Quiet(Reply),
    /// The child is created.
    Creates,
}

/// What a create comes to, in a sound tree.
pub fn create_answer(
    alloc: Global,
    table: &Table,
    parent: u64,
    coll: &Name,
    name: &Name,
    gives: &[Give],
) -> Result<CreateAnswer, Memory>
    requires { IsSound table.now.rows table.now.next_inc }
    ensures { let t = table.now in
        IfOk result (CreatesBy t.limit t.rows t.next_inc parent coll.now name.now gives.now) }
{
    parents_can_take();
    let may = may_create_acyclic(alloc, table, table.free(), parent, coll, name, gives)?;
    Ok(answer_of(may))
}

/// What a create comes to, by whether the child may be created.
fn answer_of(may: MayCreate) -> CreateAnswer
    ensures { IsAnswerOf may result }
{
    match may {
        MayCreate::Yes => CreateAnswer::Creates,
        MayCreate::Gone(inc) => CreateAnswer::Quiet(Reply::Gone(inc)),
        MayCreate::Closing(inc) => CreateAnswer::Quiet(Reply::Closing(inc)),
        MayCreate::Need(inc) => CreateAnswer::Quiet(Reply::Need(inc)),
        MayCreate::NoCollection => CreateAnswer::Quiet(Reply::NoCollection),
        MayCreate::Exists(inc) => CreateAnswer::Quiet(Reply::Exists(inc)),
        MayCreate::OffersRefused => CreateAnswer::Quiet(Reply::OffersRefused),
        MayCreate::BadOffer(index, rule) => CreateAnswer::Quiet(Reply::BadOffer(index, rule)),
        MayCreate::Cycle(nodes) => CreateAnswer::Quiet(Reply::Cycle(nodes)),
        MayCreate::Full => CreateAnswer::Quiet(Reply::Full),
    }
}

/// The name of a child in a collection.
pub fn child_name(coll: &Name, name: &Name) -> Result<ChildName, Memory>
    ensures { IfOk result (λ child. child ≡ dynamic_name coll.now name.now) }
{
    let coll = coll.clone()?;
    let name = name.clone()?;
    Ok(ChildName {
        coll: Some(coll),
        name,
    })
}
