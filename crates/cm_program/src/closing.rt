//! The end of the program.

ghost use Rattle.std.specs.Prelude.{◌≡◌};
ghost use Rattle.cm_program.specs.Closing.{IsRun};
ghost use Rattle.cm_session.specs.Links.{view_of};

use crate::ran::Ran;
use cm_gate::Gates;
use cm_io::{Door, Sink, Source};
use cm_names::Text;
use std::mem;

/// The status that the program ends with, and its door: of nothing but what came of its one run, on
/// streams that had not failed before and that nothing was done with after. They are given back
/// here.
///
/// The system takes the memory of the history back with the process, not entry by entry.
pub fn ended<S: Source, K: Sink, E: Sink, D: Door, G: Gates + Drop>(
    words: &[Text],
    input: S,
    out: K,
    err: E,
    ran: Ran<D, D::Link, G>,
) -> (u8, D)
    requires { IsRun S.Source K.Sink E.Sink D.counts D.place (view_of D.Link.Source D.Link.Sink)
        G.log G.faults words.now input out err ran }
    ensures status { result.0 ≡ ran.status }
    ensures door { result.1 ≡ ran.door }
{
    let _words = words;
    drop(input);
    drop(out);
    drop(err);
    let Ran {
        status,
        book,
        door,
        ..
    } = ran;
    mem::forget(book);
    (status, door)
}
