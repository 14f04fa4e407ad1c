//! The top call.

ghost use Rattle.std.specs.Prelude.{◌≡◌, length};
ghost use Rattle.cm_io.specs.Doors.{IsShut};
ghost use Rattle.cm_program.specs.Promise.{Promise};
ghost use Rattle.cm_session.specs.Links.{view_of};

use crate::generate::run_generated;
use crate::ran::{Ran, out_of_memory, stopped, tell, without_links};
use crate::scripts::run_script;
use crate::serving::run_sessions;
use crate::verdict::{Subject, run_verdict};
use cm_call::{Call, Wanted, WordsFault, read_words};
use cm_gate::Gates;
use cm_io::{Door, Sink, Source};
use cm_names::{List, Text};
use std::alloc::Global;
use std::sync::Wait;
use std::thread::Threads;

/// Runs the program with these words, on this input, with these outputs, this door and these gates.
///
/// The words `run [--journal] [--repo DIR]` ask for the answers to the commands of the script that
/// the input is, with `--journal` for the history after them, and with `--repo DIR` for manifests
/// of that folder besides the script's. The word `check` asks for the verdict on the manifest that
/// the input is. The words `generate G N` ask for the run of a workload of N instances, which is
/// made from G and for which the input isn't read: the one line that is written counts its answers,
/// and how many of those were cache hits.
///
/// The word `audit` asks for the verdict on the journal that the input is, by
/// [`audit`](cm_audit::audit): what `run --journal` writes can be handed in as it is.
///
/// The words `environments [--repo DIR]` and `storage [--repo DIR]` ask for a script's run as `run`
/// does, and for a report on the tree at its end in the place of the answers: where the runner and
/// the debug protocols of each resolved instance are registered, or which place it has for each
/// storage that it uses.
///
/// The words `serve SOCKET --root URL --repo DIR [--sessions N] [--workers W]` let links come at that
/// place of the door: N of them are served, W at once, each by a session over one new realm of that
/// root, whose manifests are those of that folder. Neither the input nor `out` is touched.
///
/// The words, the statuses, the workload and the lines on `err` are this project's own choice;
/// [`Ran`] lists the statuses.
///
/// There are sixteen gates, one for each lane of a script or worker of a door; they come back in
/// their order, and so does the door, to which no peer may come yet.
///
/// A script that is refused ends the run with 7, and its line on `err` tells the first of these:
///
/// - 70 to 76: it is no script, by [`read_script`](cm_command::read_script);
/// - 77 and 78: a manifest that [`Repository::add`](cm_repo::Repository::add) refuses, for its URL
///   and as one that is repeated.
#[tactic(auto, using(crate::proofs::lemmas::whole::Saying::says, crate::proofs::lemmas::whole::Run::idle))]
pub fn run<
    R: Threads + Wait + Sync,
    S: Source,
    K: Sink,
    E: Sink,
    D: Door + Send,
    G: Gates + Send + Drop,
>(
    rt: &R,
    alloc: Global,
    words: &[Text],
    input: &mut S,
    out: &mut K,
    err: &mut E,
    door: D,
    gates: List<G>,
) -> Ran<D, D::Link, G>
where
    D::Link: Send,
    requires gates { length gates ≡ 16 }
    requires shut { IsShut (D.place door) }
    ensures { Promise S.Source K.Sink E.Sink D.counts D.place
        (view_of D.Link.Source D.Link.Sink) G.log G.faults
        (record {
          words = words.now;
          input = input.old;
          out = out.old;
          err = err.old;
          door = door;
          gates = gates;
        })
        (record { input = input.new; out = out.new; err = err.new; ran = result }) }
{
    match read_words(alloc, words) {
        Ok(Call::Run(options)) => {
            let wanted = options.wanted;
            let folder = options.repository;
            let ran = run_script(rt, alloc, wanted, folder, input, out, err, gates);
            without_links(alloc, ran, door)
        }
        Ok(Call::Check) => {
            let status = run_verdict(rt, alloc, Subject::Manifest, input, out, err);
            stopped(alloc, status, gates, door)
        }
        Ok(Call::Audit) => {
            let status = run_verdict(rt, alloc, Subject::Journal, input, out, err);
            stopped(alloc, status, gates, door)
        }
        Ok(Call::Generate(workload)) => {
            let ran = run_generated(rt, alloc, workload, out, err, gates);
            without_links(alloc, ran, door)
        }
        Ok(Call::Serve(options)) => run_sessions(rt, alloc, options, door, gates, err),
        Err(WordsFault::Usage) => {
            tell(
                rt,
                err,
                b"usage: run, check, serve, audit, generate, environments, storage\n",
            );
            stopped(alloc, 2, gates, door)
        }
        Err(WordsFault::Memory) => stopped(alloc, out_of_memory(rt, err), gates, door),
    }
}
