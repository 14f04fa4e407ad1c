//! The script that a generated workload is: each instance is started, and then as many are asked.

ghost use Rattle.std.specs.Prelude.{◌≡◌, ◌≤◌, ◌<◌, ◌^◌, [], ◌∷◌, All, IfOk, length, map};
ghost use Rattle.std.specs.List.{range_with_len};
ghost use Rattle.cm_call.specs.CallsInside.{IsWorkload};
ghost use Rattle.cm_call.specs.Generated as spec;

use crate::call::Workload;
use crate::generator::{blocks_of, name_of, path_of, url_of};
use cm_command::{Command, Line, Script};
use cm_names::{ChildName, List, Memory, Moniker};
use cm_world::Target;
use std::alloc::Global;

/// Where an instance stands, by where its parent does.
#[tactic(auto, using(crate::proofs::lemmas::texts::Generator::below_parent))]
fn moniker_below(alloc: Global, parent: &Moniker, instance: usize) -> Result<Moniker, Memory>
    requires some { 0 < instance }
    requires parent { parent.now ≡ spec.moniker_of (spec.parent_of instance) }
    ensures { IfOk result (λ moniker. moniker ≡ spec.moniker_of instance) }
{
    let name = name_of(alloc, instance)?;
    parent.child(alloc, ChildName { coll: None, name })
}

/// Where an instance stands, by where those before it stand.
fn moniker_behind(alloc: Global, monikers: &[Moniker], instance: usize) -> Result<Moniker, Memory>
    requires count { length monikers.now ≡ instance }
    requires before { monikers.now ≡ map spec.moniker_of (range_with_len 0 instance) }
    ensures { IfOk result (λ moniker. moniker ≡ spec.moniker_of instance) }
{
    if instance == 0 {
        return Ok(Moniker::root(alloc));
    }
    moniker_below(alloc, &monikers[(instance - 1) / 4], instance)
}

/// The monikers of the first so many instances. `Err` where memory runs out.
#[tactic(auto, using(crate::proofs::lemmas::texts::Generator::standing))]
fn monikers_of(alloc: Global, size: usize) -> Result<List<Moniker>, Memory>
    ensures known { IfOk result (λ monikers. monikers ≡ map spec.moniker_of (range_with_len 0 size)) }
    ensures count { IfOk result (λ monikers. length monikers ≡ size) }
{
    let mut monikers = List::new(alloc);
    for instance in 0..size {
        let moniker = moniker_behind(alloc, monikers.as_slice(), instance)?;
        monikers.push(moniker)?;
    }
    Ok(monikers)
}

/// The number after the last one in the sequence of draws.
fn next_of(last: u64) -> u64
    requires { last < 2 ^ 31 }
    ensures next { result ≡ spec.next_of last }
    ensures bound { result < 2 ^ 31 }
{
    (last * 1_103_515_245 + 12_345) % 2_147_483_648
}

/// As many instances as there are, drawn one after the other from the seed on.
#[tactic(auto, using(crate::proofs::lemmas::texts::Generator::draws))]
fn draws_of(alloc: Global, seed: u64, size: usize) -> Result<List<usize>, Memory>
    requires seed { seed < 2 ^ 31 }
    requires some { 0 < size }
    ensures draws { IfOk result (λ draws. draws ≡ spec.drawn size seed size) }
    ensures within { IfOk result (λ draws. All (λ instance. instance < size) draws) }
    ensures count { IfOk result (λ draws. length draws ≡ size) }
{
    let mut draws = List::new(alloc);
    let mut last = seed;
    for place in 0..size {
        let _place = place;
        last = next_of(last);
        draws.push((last / 65_536) as usize % size)?;
    }
    Ok(draws)
}

/// For each instance the command that starts it. `Err` where memory runs out.
fn starts_of(alloc: Global, monikers: &[Moniker]) -> Result<List<Command>, Memory>
    ensures { IfOk result (λ commands. commands ≡ map spec.start_at monikers.now) }
{
    let mut commands = List::new(alloc);
    for moniker in monikers {
        commands.push(Command::Start(Target::Named(moniker.clone()?)))?;
    }
    Ok(commands)
}

/// The root is shown, and every other instance opens what it uses.
fn ask_of(alloc: Global, monikers: &[Moniker], instance: usize) -> Result<Command, Memory>
    requires known { monikers.now ≡ map spec.moniker_of (range_with_len 0 (length monikers.now)) }
    requires within { instance < length monikers.now }
    ensures { IfOk result (λ command. command ≡ spec.ask_of instance) }
{
    let target = Target::Named(monikers[instance].clone()?);
    if instance == 0 {
        return Ok(Command::Show(target));
    }
    let path = path_of(alloc, (instance - 1) / 4)?;
    Ok(Command::OpenUse { target, path })
}

/// For each draw the command that asks its instance: the root is shown, every other opens what it uses.
fn asks_of(alloc: Global, monikers: &[Moniker], draws: &[usize]) -> Result<List<Command>, Memory>
    requires known { monikers.now ≡ map spec.moniker_of (range_with_len 0 (length monikers.now)) }
    requires within { All (λ instance. instance < length monikers.now) draws.now }
    ensures { IfOk result (λ commands. commands ≡ map spec.ask_of draws.now) }
{
    let mut commands = List::new(alloc);
    for instance in draws {
        commands.push(ask_of(alloc, monikers, *instance)?)?;
    }
    Ok(commands)
}

/// The commands go to four lanes in turns.
#[tactic(auto, using(crate::proofs::lemmas::texts::Generator::turns_more))]
fn in_turns(alloc: Global, commands: List<Command>) -> Result<List<Line>, Memory>
    requires { length commands ≤ 10000 }
    ensures { IfOk result (λ lines. lines ≡ spec.in_turns 0 commands) }
{
    let mut lines = List::new(alloc);
    let mut number: u32 = 0;
    for command in commands.into_vec() {
        lines.push(Line {
            line: 0,
            lane: number % 4,
            command,
        })?;
        number += 1;
    }
    Ok(lines)
}

/// The lines that start each instance.
#[tactic(auto, using(crate::proofs::lemmas::texts::Generator::starts_are))]
fn starting(alloc: Global, monikers: &[Moniker]) -> Result<List<Line>, Memory>
    requires known { monikers.now ≡ map spec.moniker_of (range_with_len 0 (length monikers.now)) }
    requires limit { length monikers.now ≤ 10000 }
    ensures { IfOk result (λ lines. lines ≡ spec.in_turns 0
        (map spec.start_of (range_with_len 0 (length monikers.now)))) }
{
    let starts = starts_of(alloc, monikers)?;
    in_turns(alloc, starts)
}

/// The lines that ask as many instances, by draws from the seed on.
#[tactic(auto, using(crate::proofs::lemmas::texts::Generator::map_long))]
fn asking(alloc: Global, monikers: &[Moniker], seed: u64) -> Result<List<Line>, Memory>
    requires known { monikers.now ≡ map spec.moniker_of (range_with_len 0 (length monikers.now)) }
    requires limit { length monikers.now ≤ 10000 }
    requires some { 0 < length monikers.now }
    requires seed { seed < 2 ^ 31 }
    ensures { IfOk result (λ lines. lines ≡ spec.in_turns 0
        (map spec.ask_of (spec.drawn (length monikers.now) seed (length monikers.now)))) }
{
    let draws = draws_of(alloc, seed, monikers.len())?;
    let asks = asks_of(alloc, monikers, draws.as_slice())?;
    in_turns(alloc, asks)
}

/// The two phases of the workload: the starts, and then the asks. `Err` where memory runs out.
fn phases_of(
    alloc: Global,
    first: List<Line>,
    second: List<Line>,
) -> Result<List<List<Line>>, Memory>
    ensures { IfOk result (λ phases. phases ≡ first ∷ second ∷ []) }
{
    let mut phases = List::new(alloc);
    phases.push(first)?;
    phases.push(second)?;
    Ok(phases)
}

/// The script of a workload. `Err` where memory runs out.
#[tactic(auto, using(crate::proofs::lemmas::texts::Generator::known_of))]
pub fn generated(alloc: Global, workload: Workload) -> Result<Script, Memory>
    requires { IsWorkload workload }
    ensures { IfOk result (λ script. script ≡ spec.script_of workload.seed workload.size) }
{
    let Workload { seed, size } = workload;
    let monikers = monikers_of(alloc, size)?;
    let first = starting(alloc, monikers.as_slice())?;
    let second = asking(alloc, monikers.as_slice(), seed)?;
    let phases = phases_of(alloc, first, second)?;
    let manifests = blocks_of(alloc, size)?;
    let root = url_of(alloc, 0)?;
    Ok(Script {
        manifests,
        builtins: List::new(alloc),
        root,
        phases,
    })
}
