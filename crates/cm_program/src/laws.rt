//! Laws of scripts that are served, and of runs.
//!
//! These functions do nothing, and no code calls them: what each of them promises is a fact about
//! scripts and runs, which its proof shows.

ghost use Rattle.cm_program.specs.Laws.{BytesAskForOne, RunsAreComplete, ServedAreNotRefused};
ghost use Rattle.cm_session.specs.Links.{view_of};

use cm_gate::Gates;
use cm_io::{Door, Sink, Source};

/// Bytes that are served are not refused, so that [`run`](crate::run::run) never ends with 7 where a
/// source tells that it has these left.
pub fn served_are_not_refused()
    ensures { ServedAreNotRefused }
{}

/// What bytes ask for is one thing at most.
pub fn bytes_ask_for_one()
    ensures { BytesAskForOne }
{}

/// What [`run`](crate::run::run) promises makes a run complete: where no count of faults of source,
/// output or door rose, and a script has no fault, it ends with 0 or 6, and a check with 0, 1 or 6;
/// 0 says that the input was read to its end and each line has its answer; and where no gate's
/// count rose, no answer names a failed gate or a stop by force. Sources that never fail, and gates
/// whose count is always 0, leave no such condition.
pub fn runs_are_complete<S: Source, K: Sink, E: Sink, D: Door, G: Gates>()
    ensures { RunsAreComplete S.Source K.Sink E.Sink D.counts D.place
        (view_of D.Link.Source D.Link.Sink) G.log G.faults }
{}
