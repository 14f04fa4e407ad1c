//! What a mark comes to.

ghost use Rattle.std.specs.Prelude.{◌≡◌, true, false};
ghost use Rattle.cm_world.specs.Rows.{has_closing};
ghost use Rattle.cm_steps.specs.Answers.{AnswersMark};

use cm_dynamic::{MayDestroy, may_destroy};
use cm_walk::above::is_gone;
use cm_world::{Reply, View};

/// What a mark comes to.
#[derive(Drop)]
pub enum MarkAnswer {
    /// It changes nothing, and this is the reply.
    Quiet(Reply),
    /// The instance is marked.
    Marks,
}

/// What a mark comes to, to be destroyed or to be shut down.
pub fn mark_answer<V: View>(view: &V, doom: bool, inc: u64) -> MarkAnswer
    ensures { AnswersMark (V.rows view.now) doom inc result }
{
    if doom {
        doom_answer(view, inc)
    } else {
        close_answer(view, inc)
    }
}

/// What a mark to be destroyed comes to.
fn doom_answer<V: View>(view: &V, inc: u64) -> MarkAnswer
    ensures { AnswersMark (V.rows view.now) true inc result }
{
    match may_destroy(view, inc) {
        MayDestroy::Yes => MarkAnswer::Marks,
        MayDestroy::Gone(gone) => MarkAnswer::Quiet(Reply::Gone(gone)),
        MayDestroy::Already => MarkAnswer::Quiet(Reply::Already),
        MayDestroy::NotDynamic => MarkAnswer::Quiet(Reply::NotDynamic),
    }
}

/// What a mark to be shut down comes to.
fn close_answer<V: View>(view: &V, inc: u64) -> MarkAnswer
    ensures { AnswersMark (V.rows view.now) false inc result }
{
    if is_gone(view, inc) {
        return MarkAnswer::Quiet(Reply::Gone(inc));
    }
    if is_marked(view, inc) {
        return MarkAnswer::Quiet(Reply::Already);
    }
    MarkAnswer::Marks
}

/// Whether an instance itself is being shut down.
fn is_marked<V: View>(view: &V, inc: u64) -> bool
    ensures { result ≡ has_closing (V.rows view.now) inc }
{
    match view.facts(inc) {
        None => false,
        Some(facts) => facts.closing,
    }
}
