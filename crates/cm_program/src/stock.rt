//! What a script asks for.

ghost use Rattle.std.specs.Prelude.{◌≡◌, ◌≢◌, [], All, IfOk, IfErr};
ghost use Rattle.cm_program.specs.Stock as spec;
ghost use Rattle.cm_program.specs.Stock.{IsScriptRefusal, LoadsScript};
ghost use Rattle.cm_program.specs.Reading.{bad};
ghost use Rattle.cm_program.specs.ReadingInside.{GivesOutcome, LeavesReading};
ghost use Rattle.cm_command.specs.Scripts.{IsScript};
ghost use Rattle.cm_lanes.specs.ScriptInside.{IsFit};

use crate::fault::{Problem, ScriptRefusal};
use cm_command::{Block, Line, Script, ScriptFault, read_script};
use cm_names::{Bytes, List};
use cm_repo::{RepoFault, Repository};
use cm_world::{Frame, Limits};
use std::alloc::Global;

/// How many instances a realm may have, and how many entries its history.
pub const LIMITS: Limits = Limits {
    rows: 65_536,
    entries: 4_194_304,
};

/// What a script asks for.
#[derive(Drop)]
pub struct LoadedScript {
    /// The manifests.
    pub repository: Repository,
    /// What the realm is made with: its root, what stands above it, and its limits.
    pub frame: Frame,
    /// The lines of each phase.
    pub phases: List<List<Line>>,
}

/// Puts a block into the repository.
fn stock(repository: &mut Repository, block: Block) -> Result<(), ScriptRefusal>
    ensures { LeavesReading repository.new result (spec.stocked repository.old block) }
{
    let Block { line, url, bytes } = block;
    match repository.add(url.as_str(), bytes) {
        Ok(()) => Ok(()),
        Err(RepoFault::Memory) => Err(ScriptRefusal::Memory),
        Err(RepoFault::Repeated) => Err(ScriptRefusal::Unserved {
            line,
            problem: Problem::RepeatedManifest,
        }),
        Err(_) => Err(ScriptRefusal::Unserved {
            line,
            problem: Problem::BadManifestUrl,
        }),
    }
}

/// The repository of all manifests that the script brings itself, or the first that is refused.
fn stock_all(alloc: Global, blocks: List<Block>) -> Result<Repository, ScriptRefusal>
    ensures { GivesOutcome result (spec.stock_of [] blocks) }
{
    let mut repository = Repository::new(alloc);
    for block in blocks.into_vec() {
        match stock(&mut repository, block) {
            Ok(()) => {}
            Err(fault) => return Err(fault),
        }
    }
    Ok(repository)
}

/// What the script asks for, or why it is refused.
#[tactic(auto, unfolding(crate::specs::Stock::served_script))]
pub fn serve_script(alloc: Global, script: Script) -> Result<LoadedScript, ScriptRefusal>
    ensures { GivesOutcome result (spec.served_script script) }
{
    let Script {
        manifests,
        builtins,
        root,
        phases,
    } = script;
    let repository = stock_all(alloc, manifests)?;
    let frame = Frame {
        root,
        builtins,
        limits: LIMITS,
    };
    Ok(LoadedScript {
        repository,
        frame,
        phases,
    })
}

/// The script that the bytes are, which are given back to memory here.
fn script_of(alloc: Global, bytes: Bytes) -> Result<Script, ScriptRefusal>
    ensures ok { IfOk result (λ script. IsScript bytes script) }
    ensures fault { IfErr result (λ fault. fault ≢ ScriptRefusal.Memory → IsScriptRefusal bytes fault) }
{
    match read_script(alloc, bytes.as_slice()) {
        Ok(script) => Ok(script),
        Err(ScriptFault::Bad { line, number, at }) => Err(ScriptRefusal::Unread {
            line,
            number,
            at,
        }),
        Err(ScriptFault::Memory) => Err(ScriptRefusal::Memory),
    }
}

/// What the script that the bytes are asks for, or why they are refused.
pub fn serve(alloc: Global, bytes: Bytes) -> Result<LoadedScript, ScriptRefusal>
    ensures good { IfOk result (LoadsScript bytes) }
    ensures fit { IfOk result (λ served. All (λ lines. All IsFit lines) served.phases) }
    ensures bad { IfErr result (λ fault. fault ≢ ScriptRefusal.Memory → IsScriptRefusal bytes fault) }
{
    let script = script_of(alloc, bytes)?;
    serve_script(alloc, script)
}
