//! Lanes whose fetches have to meet.

ghost use Rattle.std.specs.Prelude.{◌≡◌, IfSome, length};

use super::input::manifests_of;
use super::player::{Played, come, odd_end, parts_of};
use cm_gate::MeetingGates;
use cm_names::{List, Text};
use std::alloc::Global;
use std::sync::Wait;
use std::thread::Threads;

/// Eight pairs of gates, of which each has the manifests of a case.
fn meeting_gates(alloc: Global, case: &str) -> Option<List<MeetingGates>>
    ensures { IfSome result (λ gates. length gates ≡ 16) }
{
    let mut gates = Vec::new(alloc);
    for pair in 0..8_usize {
        let _number = pair;
        let manifests = manifests_of(alloc, case)?;
        let (one, other) = MeetingGates::pair(alloc, manifests).ok()?;
        gates.push(one).ok()?;
        gates.push(other).ok()?;
    }
    Some(List::from_vec(gates))
}

/// What came of the run of a case over gates that have to meet, where that is none of its ends.
pub fn odd_meeting<R: Threads + Wait + Sync>(
    rt: &R,
    alloc: Global,
    case: &str,
) -> Option<Option<Text>> {
    let (given, ends) = parts_of(case);
    match meeting_gates(alloc, given) {
        Some(gates) => match come(rt, alloc, given, gates) {
            Some(played) => {
                let odd = odd_played(alloc, &played, ends);
                drop(played);
                odd
            }
            None => None,
        },
        None => None,
    }
}

/// How often gates failed, as a text.
fn told_by(alloc: Global, gates: &[MeetingGates]) -> Option<Text> {
    let mut faults: u64 = 0;
    for gate in gates {
        faults = faults.saturating_add(gate.faults());
    }
    let mut told = Text::new(alloc);
    told.push(format_args!("faults {faults}\n")).ok()?;
    Some(told)
}

/// What differs between what came of a run with these gates and the case's ends, if something does.
fn odd_played(alloc: Global, played: &Played<MeetingGates>, ends: &str) -> Option<Option<Text>> {
    let told = told_by(alloc, played.ran.gates.as_slice())?;
    odd_end(alloc, played, told.as_str(), ends)
}
