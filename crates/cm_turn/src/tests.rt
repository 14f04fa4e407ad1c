//! Callers count in turns, in threads of their own.
ghost use Rattle.std.specs.Prelude.{◌≡◌, ◌<◌, ◌≤◌, ◌++◌, [], ℕ, List as Seq, All, IfSome, length};
ghost use Rattle.std.specs.Prelude.{slice_index_or};
ghost use Rattle.cm_turn.specs.Passes.{PassView, IsPassOf};
ghost use Rattle.cm_turn.specs.declared.tests.Count.{Count as Counted};

use crate::{Pass, Storied, Turn};
use cm_names::List;
use std::alloc::Global;
use std::sync::Wait;
use std::test::Fail;
use std::thread;
use std::thread::Threads;

/// One count: who has counted, and up to what.
#[derive(Drop)]
pub struct Count {
    pub caller: u32,
    pub up_to: u64,
}

/// A counter that keeps each count. Its frame is where it began.
#[derive(Drop)]
pub struct Counter {
    pub first: u64,
    pub counts: Vec<Count>,
}

impl Storied for Counter {
    /// An entry is one count.
    type Entry = Count;

    /// The frame is the first number.
    type Frame = u64;

    ghost story = { λ s. s.counts.items };

    ghost frame = { λ s. s.first };

    ghost by = { λ e. e.caller };
}

impl Counter {
    /// A counter without counts.
    fn new(alloc: Global) -> Counter
        ensures { result.counts.items ≡ [] }
    {
        Counter {
            first: 7,
            counts: Vec::new(alloc),
        }
    }

    /// Adds a count of this caller, one above the last; without memory for it, it adds none.
    fn count(&mut self, caller: u32)
        ensures frame { self.new.first ≡ self.old.first }
        ensures entry { (es : Seq Counted)
            × (self.new.counts.items ≡ self.old.counts.items ++ es)
            × All (λ e. e.caller ≡ caller) es }
    {
        let made = self.counts.len() as u64;
        let up_to = self.first.wrapping_add(made).wrapping_add(1);
        let _ = self.counts.push(Count { caller, up_to });
    }

    /// How many counts are this caller's.
    fn counts_of(&self, caller: u32) -> usize {
        self.counts
            .iter()
            .filter(|count| count.caller == caller)
            .count()
    }
}

/// Takes one turn, and counts in it.
fn one_turn<R: Wait>(rt: &R, turn: &Turn<Counter>, pass: Pass<Count, u64>) -> Pass<Count, u64>
    requires { pass.lock ≡ turn.now.lock }
    ensures { IsPassOf pass result }
{
    let caller = pass.caller();
    let mut held = turn.enter(rt, pass);
    held.state().count(caller);
    turn.leave(held)
}

/// Takes so many turns, one after another.
fn take_turns<R: Wait>(
    rt: &R,
    turn: &Turn<Counter>,
    mut pass: Pass<Count, u64>,
    times: u32,
) -> Pass<Count, u64>
    requires { pass.lock ≡ turn.now.lock }
    ensures { IsPassOf pass result }
{
    for _ in 0..times {
        pass = one_turn(rt, turn, pass);
    }
    pass
}

/// Each caller takes so many turns, in a thread of its own.
fn in_threads<R: Threads + Wait + Sync>(
    rt: &R,
    turn: &Turn<Counter>,
    passes: Vec<Pass<Count, u64>>,
    times: u32,
) -> Option<Vec<Pass<Count, u64>>>
    requires { All (λ p. p.lock ≡ turn.now.lock) passes.items }
    ensures len { IfSome result (λ back. length back.items ≡ length passes.items) }
    ensures each { IfSome result (λ back. (k : ℕ) (d : PassView Counted ℕ) → k < length passes.items
        → IsPassOf (slice_index_or passes.items k d) (slice_index_or back.items k d)) }
{
    let back = thread::map_vec(
        rt,
        passes,
        &|pass: Pass<Count, u64>| -> Pass<Count, u64>
            requires { pass.lock ≡ turn.now.lock }
            ensures { IsPassOf pass result }
        { take_turns(rt, turn, pass, times) },
    );
    back.ok()
}

/// The counter after each of so many callers has taken so many turns.
fn counted<R: Threads + Wait + Sync>(
    rt: &R,
    alloc: Global,
    callers: u32,
    times: u32,
) -> Option<Counter>
    requires { (0 < callers) × (callers ≤ 64) }
{
    let Ok((turn, passes)) = Turn::new(alloc, Counter::new(alloc), callers) else {
        return None;
    };
    let back = in_threads(rt, &turn, passes.into_vec(), times)?;
    Some(turn.close(List::from_vec(back)))
}

/// The second caller meets the first after that one's turn, and then takes its own.
fn count_and_meet<R: Wait>(rt: &R, alloc: Global) -> Option<(u32, u32)> {
    let (turn, passes) = Turn::new(alloc, Counter::new(alloc), 2).ok()?;
    let mut passes = passes.into_vec();
    let mut second = passes.pop()?;
    let mut first = one_turn(rt, &turn, passes.pop()?);
    turn.meet(&mut first, &mut second);
    let second = one_turn(rt, &turn, second);
    Some((first.caller(), second.caller()))
}

/// At the end each pass has the counts of its own caller, as the contract of `close` says.
fn check_counts<R: Threads + Wait + Sync>(rt: &R, alloc: Global, callers: u32) -> Option<bool>
    requires { (0 < callers) × (callers ≤ 64) }
{
    let counter = counted(rt, alloc, callers, 1000)?;
    let all = counter.counts.len() == callers as usize * 1000;
    let each = (0..callers).all(|caller| counter.counts_of(caller) == 1000);
    let last = counter.counts.last()?.up_to == 7 + callers as u64 * 1000;
    Some(all && each && last)
}

/// Two, four and sixteen threads count, and no count is lost.
#[test]
fn threads_count_in_turns(rt: HostRuntime) -> Result<(), Fail> {
    assert_eq!(rt; check_counts(&rt, rt.alloc(), 2), Some(true));
    assert_eq!(rt; check_counts(&rt, rt.alloc(), 4), Some(true));
    assert_eq!(rt; check_counts(&rt, rt.alloc(), 16), Some(true));
    Ok(())
}

/// Two callers that have counted meet, and know the same then.
#[test]
fn callers_meet(rt: HostRuntime) -> Result<(), Fail> {
    assert_eq!(rt; count_and_meet(&rt, rt.alloc()), Some((0, 1)));
    Ok(())
}
