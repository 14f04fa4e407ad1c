//! Laws of the answers.
//!
//! These functions do nothing: what each of them promises is a fact about the definitions that
//! the contracts of this crate cite, which its proof shows.

ghost use Rattle.cm_dynamic.specs.Laws as laws;

/// Each number of free instances is the room of a tree in some limit, so the contract of
/// [`may_create_acyclic`](crate::may_create_acyclic) says something of each call.
pub fn each_room_is_of_some_limit()
    ensures { laws.EachRoomIsOfSomeLimit }
{}

/// Where [`may_create_acyclic`](crate::may_create_acyclic) answers `Yes`, the parent is resolved and
/// has no child of that name that isn't being destroyed: so the tree can take the child's row. `cm_steps`
/// calls it, for this fact, where it answers a create.
pub fn parents_can_take()
    ensures { laws.ParentsCanTake }
{}
