//! Plays tables. A table is one text, which is taken apart when it runs: the prover doesn't look
//! into it, so that one more run costs no proof.
//!
//! A run begins with `== ` and its words. Each further line says one thing of the run, by its first
//! word; `input` and `ends` tell of these. Each end that the run may come to begins with `=> ` and
//! the status. Where `$`, a name and `$` stand, the text of that name in `repeated` is meant.

ghost use Rattle.cm_io.specs.Doors.{IsShut};
ghost use Rattle.cm_program.specs.Promise.{Promise};
ghost use Rattle.cm_session.specs.Links.{view_of};
ghost use Rattle.std.specs.Prelude.{◌≡◌, IfSome, false, length};

use super::doors::{door_of, sent_of};
use super::ends::{RunSummary, are_known_ends, is_an_end, told_by};
use super::input::{
    are_known, calls_of, manifests_of, number_of, plan_of, source_of, values_of, words_of,
};
use super::repeated::expanded;
use cm_gate::{GatePlan, Gates, Manifest, PlannedGates};
use cm_io::{Door, FaultPlan, MemoryDoor, MemoryLink, MemorySink, MemorySource, Sink, Source};
use cm_names::{List, Memory, Text};
use cm_program::Ran;
use cm_program::run::run;
use std::alloc::Global;
use std::sync::Wait;
use std::thread::Threads;

/// The streams of a run.
#[derive(Drop)]
pub struct Sides {
    pub input: MemorySource,
    pub out: MemorySink,
    pub err: MemorySink,
}

/// What a run is given besides its gates.
#[derive(Drop)]
struct Arguments {
    words: Vec<Text>,
    sides: Sides,
    door: MemoryDoor,
}

/// What came of a run, and its streams.
#[derive(Drop)]
pub struct Played<G> {
    pub ran: Ran<MemoryDoor, MemoryLink, G>,
    sides: Sides,
}

/// A sink that fails as the case's lines with this word say; `None` where they can't be read.
fn sink_of(alloc: Global, case: &str, word: &str) -> Option<MemorySink> {
    match plan_of(alloc, case, word) {
        Some(plan) => Some(MemorySink::new(alloc, plan)),
        None => None,
    }
}

/// The input, the output and the error stream of a case; `None` where its lines can't be read.
fn sides_of(alloc: Global, case: &str) -> Option<Sides> {
    match source_of(alloc, case) {
        Some(input) => sides_with(alloc, case, input),
        None => None,
    }
}

/// The input that is given, with the case's output and error stream.
fn sides_with(alloc: Global, case: &str, input: MemorySource) -> Option<Sides> {
    match sink_of(alloc, case, "write") {
        Some(out) => match sink_of(alloc, case, "say") {
            Some(err) => Some(Sides { input, out, err }),
            None => {
                drop(out);
                drop(input);
                None
            }
        },
        None => {
            drop(input);
            None
        }
    }
}

/// All that a run of this case is given but its gates; `None` where its lines can't be read.
fn arguments_of(alloc: Global, case: &str) -> Option<Arguments>
    ensures { IfSome result (λ given. given.door.listening ≡ false) }
{
    match words_of(alloc, case) {
        Some(words) => arguments_with(alloc, case, words),
        None => None,
    }
}

/// All that a run of this case is given but its gates, with the words of its command line.
fn arguments_with(alloc: Global, case: &str, words: Vec<Text>) -> Option<Arguments>
    ensures { IfSome result (λ given. given.door.listening ≡ false) }
{
    match sides_of(alloc, case) {
        Some(sides) => match door_of(alloc, case) {
            Some(door) => Some(Arguments { words, sides, door }),
            None => {
                drop(sides);
                drop(words);
                None
            }
        },
        None => {
            drop(words);
            None
        }
    }
}

/// A run of these words between these streams, with a door to which no peer may come yet. It hands on
/// what the top call promises.
pub fn ran<R: Threads + Wait + Sync, D: Door + Send, G: Gates + Send + Drop>(
    rt: &R,
    alloc: Global,
    words: &[Text],
    sides: &mut Sides,
    door: D,
    gates: List<G>,
) -> Ran<D, D::Link, G>
where
    D::Link: Send,
    requires gates { length gates ≡ 16 }
    requires shut { IsShut (D.place door) }
    ensures { Promise ⟦<MemorySource as Source>⟧ ⟦<MemorySink as Sink>⟧ ⟦<MemorySink as Sink>⟧ D.counts
        D.place (view_of D.Link.Source D.Link.Sink) G.log G.faults
        (record {
          words = words.now;
          input = sides.old.input;
          out = sides.old.out;
          err = sides.old.err;
          door = door;
          gates = gates;
        })
        (record {
          input = sides.new.input;
          out = sides.new.out;
          err = sides.new.err;
          ran = result;
        }) }
{
    let Sides { input, out, err } = sides;
    run(rt, alloc, words, input, out, err, door, gates)
}

/// What comes of a run over these gates.
pub fn come<R: Threads + Wait + Sync, G: Gates + Send + Drop>(
    rt: &R,
    alloc: Global,
    case: &str,
    gates: List<G>,
) -> Option<Played<G>>
    requires { length gates ≡ 16 }
{
    match arguments_of(alloc, case) {
        Some(given) => Some(play(rt, alloc, given, gates)),
        None => {
            drop(gates);
            None
        }
    }
}

/// Runs the program once on these arguments and gates, and keeps all that comes back.
fn play<R: Threads + Wait + Sync, G: Gates + Send + Drop>(
    rt: &R,
    alloc: Global,
    given: Arguments,
    gates: List<G>,
) -> Played<G>
    requires gates { length gates ≡ 16 }
    requires shut { given.door.listening ≡ false }
{
    let Arguments {
        words,
        mut sides,
        door,
    } = given;
    let ran = ran(rt, alloc, words.as_slice(), &mut sides, door, gates);
    drop(words);
    Played { ran, sides }
}

/// What comes of the further run that a case asks for, if it does, and else what came of its run.
fn last_played<R: Threads + Wait + Sync>(
    rt: &R,
    alloc: Global,
    case: &str,
    played: Played<PlannedGates>,
) -> Option<Played<PlannedGates>> {
    match values_of(alloc, case, "again") {
        Some(words) => {
            if words.is_empty() {
                drop(words);
                return Some(played);
            }
            let given = arguments_again(alloc, case, words, played.sides.out.bytes());
            drop(played);
            play_again(rt, alloc, case, given)
        }
        None => {
            drop(played);
            None
        }
    }
}

/// What a run of these words is given on what was written.
fn arguments_again(alloc: Global, case: &str, words: Vec<Text>, wrote: &[u8]) -> Option<Arguments>
    ensures { IfSome result (λ given. given.door.listening ≡ false) }
{
    match wrote.to_vec(alloc) {
        Ok(bytes) => {
            let plan = FaultPlan {
                piece: usize::MAX,
                failing: List::new(alloc),
            };
            let input = MemorySource::new(List::from_vec(bytes), plan);
            arguments_on(alloc, case, words, input)
        }
        Err(_) => {
            drop(words);
            None
        }
    }
}

/// What a run is given that reads what another run wrote; `None` where the case's lines can't be read.
fn arguments_on(
    alloc: Global,
    case: &str,
    words: Vec<Text>,
    input: MemorySource,
) -> Option<Arguments>
    ensures { IfSome result (λ given. given.door.listening ≡ false) }
{
    match sides_with(alloc, case, input) {
        Some(sides) => match door_of(alloc, case) {
            Some(door) => Some(Arguments { words, sides, door }),
            None => {
                drop(sides);
                drop(words);
                None
            }
        },
        None => {
            drop(words);
            None
        }
    }
}

/// Runs the program on these arguments with the case's gates; `None` where there are none.
fn play_again<R: Threads + Wait + Sync>(
    rt: &R,
    alloc: Global,
    case: &str,
    given: Option<Arguments>,
) -> Option<Played<PlannedGates>>
    requires { IfSome given (λ it. it.door.listening ≡ false) }
{
    match given {
        Some(given) => match planned_gates(alloc, case) {
            Some(gates) => Some(play(rt, alloc, given, gates)),
            None => {
                drop(given);
                None
            }
        },
        None => None,
    }
}

/// The plan of the gates of a lane.
fn gate_plan_of(alloc: Global, case: &str, lane: usize) -> Option<GatePlan> {
    let room = number_of(case, "room", 99)?;
    match manifests_of(alloc, case) {
        Some(manifests) => gate_plan_with(alloc, case, lane, room, manifests),
        None => None,
    }
}

/// The plan of a lane's gates by the lines of a case; `None` where they can't be read.
fn gate_plan_with(
    alloc: Global,
    case: &str,
    lane: usize,
    room: u64,
    manifests: List<Manifest>,
) -> Option<GatePlan> {
    match values_of(alloc, case, "declined") {
        Some(declined) => match calls_of(alloc, case, lane) {
            Some(failing) => Some(GatePlan {
                manifests,
                declined: List::from_vec(declined),
                failing: List::from_vec(failing),
                room,
            }),
            None => {
                drop(declined);
                drop(manifests);
                None
            }
        },
        None => {
            drop(manifests);
            None
        }
    }
}

/// The gates of a lane by the lines of a case; `None` where they can't be read.
fn gates_of(alloc: Global, case: &str, lane: usize) -> Option<PlannedGates> {
    match gate_plan_of(alloc, case, lane) {
        Some(plan) => Some(PlannedGates::new(alloc, plan)),
        None => None,
    }
}

/// The gates of all sixteen lanes by the lines of a case; `None` where they can't be read.
fn planned_gates(alloc: Global, case: &str) -> Option<List<PlannedGates>>
    ensures { IfSome result (λ gates. length gates ≡ 16) }
{
    let mut gates = Vec::new(alloc);
    for lane in 0..16_usize {
        gates.push(gates_of(alloc, case, lane)?).ok()?;
    }
    Some(List::from_vec(gates))
}

/// A run, and the ends that it may come to.
pub fn parts_of(case: &str) -> (&str, &str) {
    case.split_once("\n=> ").unwrap_or((case, ""))
}

/// What came of a run that came to none of its ends, as a text; or no text where it came to one.
/// Nothing where the run or its ends can't be read.
fn odd_run<R: Threads + Wait + Sync>(
    rt: &R,
    alloc: Global,
    given: &str,
    ends: &str,
) -> Option<Option<Text>> {
    match planned_gates(alloc, given) {
        Some(gates) => match come(rt, alloc, given, gates) {
            Some(played) => odd_last(rt, alloc, given, played, ends),
            None => None,
        },
        None => None,
    }
}

/// What differs between the last run of a case and its ends, if something does; the outer `None` where
/// memory ran out or the case can't be read.
fn odd_last<R: Threads + Wait + Sync>(
    rt: &R,
    alloc: Global,
    given: &str,
    played: Played<PlannedGates>,
    ends: &str,
) -> Option<Option<Text>> {
    match last_played(rt, alloc, given, played) {
        Some(played) => {
            let odd = odd_played(alloc, &played, ends);
            drop(played);
            odd
        }
        None => None,
    }
}

/// What differs between what came of a run and the case's ends, if something does.
fn odd_played(alloc: Global, played: &Played<PlannedGates>, ends: &str) -> Option<Option<Text>> {
    let told = told_by(alloc, played.ran.gates.as_slice())?;
    odd_end(alloc, played, told.as_str(), ends)
}

/// What came of a run whose gates tell this, where it came to none of these ends.
pub fn odd_end<G>(
    alloc: Global,
    played: &Played<G>,
    told: &str,
    ends: &str,
) -> Option<Option<Text>> {
    let sent = sent_of(alloc, played.ran.links.as_slice())?;
    let came = RunSummary {
        status: played.ran.status,
        entries: played.ran.book.entries().len(),
        read_faults: played.sides.input.faults(),
        write_faults: played.sides.out.faults(),
        say_faults: played.sides.err.faults(),
        door_faults: played.ran.door.faults(),
        out: played.sides.out.bytes(),
        err: played.sides.err.bytes(),
        sent: sent.as_slice(),
        told,
    };
    compared(alloc, &came, ends)
}

/// What came of a run, where it is none of the case's ends.
fn compared(alloc: Global, came: &RunSummary<'_>, ends: &str) -> Option<Option<Text>> {
    if is_an_end(alloc, came, ends)? {
        return Some(None);
    }
    Some(Some(shown(alloc, came)?))
}

/// The first of a case's runs that comes to none of its ends.
fn first_odd<R: Threads + Wait + Sync>(rt: &R, alloc: Global, case: &str) -> Option<Option<Text>> {
    match expanded(alloc, case) {
        Some(case) => {
            let (given, ends) = parts_of(case.as_str());
            first_odd_run(rt, alloc, given, ends)
        }
        None => None,
    }
}

/// The first run that comes to none of these ends.
fn first_odd_run<R: Threads + Wait + Sync>(
    rt: &R,
    alloc: Global,
    given: &str,
    ends: &str,
) -> Option<Option<Text>> {
    if !are_known(given) || !are_known_ends(ends) {
        return None;
    }
    for _ in 0..number_of(given, "runs", 1)? {
        let odd = odd_run(rt, alloc, given, ends)?;
        if odd.is_some() {
            return Some(odd);
        }
    }
    Some(None)
}

/// What was written, as a text.
fn written(bytes: &[u8]) -> Option<&str> {
    std::str::from_utf8(bytes).ok()
}

/// Puts down how often each side of a run failed.
fn push_faults(text: &mut Text, came: &RunSummary<'_>) -> Result<(), Memory> {
    let read = came.read_faults;
    let write = came.write_faults;
    let say = came.say_faults;
    let door = came.door_faults;
    text.push(format_args!("faults: read {read}, write {write}, say {say}, door {door}\n"))
}

/// What came of a run, as a text.
fn shown(alloc: Global, came: &RunSummary<'_>) -> Option<Text> {
    let status = came.status;
    let entries = came.entries;
    let out = written(came.out)?;
    let err = written(came.err)?;
    let sent = written(came.sent)?;
    let told = came.told;
    let mut text = Text::new(alloc);
    text.push(format_args!("status {status}, {entries} entries\n"))
        .ok()?;
    push_faults(&mut text, came).ok()?;
    text.push(format_args!("{out}{err}{sent}{told}")).ok()?;
    Some(text)
}

/// Puts a case down that begins at this line, where it comes to none of its ends or can't be read.
fn push_if_odd<R: Threads + Wait + Sync>(
    rt: &R,
    alloc: Global,
    odd: &mut Text,
    line: usize,
    case: &str,
) -> Result<(), Memory> {
    match first_odd(rt, alloc, case) {
        Some(None) => Ok(()),
        Some(Some(came)) => odd.push(format_args!("line {line}: {case}{came}")),
        None => odd.push(format_args!("line {line}: {case}can't be read\n")),
    }
}

/// The cases of a table that come to none of their ends, or that can't be read: the line at which
/// each begins, the case, and what comes of it.
pub fn odd_cases<R: Threads + Wait + Sync>(
    rt: &R,
    alloc: Global,
    table: &str,
) -> Result<Text, Memory> {
    let mut odd = Text::new(alloc);
    let mut line: usize = 1;
    for case in table.split("== ") {
        if !case.is_empty() {
            push_if_odd(rt, alloc, &mut odd, line, case)?;
        }
        line = line.saturating_add(case.matches('\n').count());
    }
    Ok(odd)
}
