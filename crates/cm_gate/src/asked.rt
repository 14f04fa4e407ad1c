//! Questions to gates, and their answers.

ghost use Rattle.std.specs.Prelude.{◌≡◌};
ghost use Rattle.cm_gate.specs.Failures.{is_failed_fetch, is_failed_halt, is_failed_launch};

use cm_names::{Bytes, Moniker, Name, Text};

/// Asks a resolver for the manifest of a component.
#[derive(Debug, Drop, Clone, PartialEq, Eq)]
pub struct Fetch {
    /// Where manifests are looked for: a folder, for [`crate::FolderGates`]. `None` where no such
    /// place was given.
    pub repo: Option<Text>,
    /// The absolute URL of the component.
    pub url: Text,
}

/// What a resolver answers.
#[derive(Debug, Drop, Clone, PartialEq, Eq)]
pub enum Fetched {
    /// The bytes of the manifest.
    Found(Bytes),
    /// Nothing is known under the URL.
    Absent,
    /// The resolver failed; its count of faults rose.
    Failed,
    /// Memory ran out.
    Memory,
}

impl Fetched {
    /// Whether the resolver failed; that there is no manifest is no failure.
    pub fn is_failed(&self) -> bool
        ensures { result ≡ is_failed_fetch self.now }
    {
        matches!(self, Fetched::Failed)
    }
}

/// Asks a runner to start or to stop the program of an instance.
#[derive(Debug, Drop, Clone, PartialEq, Eq)]
pub struct Job {
    /// The number of the action that asks for it.
    pub action: u64,
    /// The incarnation of the instance.
    pub inc: u64,
    /// The moniker of the instance.
    pub moniker: Moniker,
    /// The absolute URL of its component.
    pub url: Text,
    /// The name of the runner, as the component's manifest has it.
    pub runner: Name,
}

/// What a runner answers when it is asked to start a program.
#[derive(Debug, Clone, Copy, PartialEq, Eq)]
pub enum Launched {
    /// The program runs.
    Running,
    /// The runner refused the program.
    Declined,
    /// The runner failed; its count of faults rose.
    Failed,
}

impl Launched {
    /// Whether the runner failed; that it declined the program is no failure.
    pub fn is_failed(self) -> bool
        ensures { result ≡ is_failed_launch self }
    {
        matches!(self, Launched::Failed)
    }
}

/// What a runner answers when it is asked to stop a program.
#[derive(Debug, Clone, Copy, PartialEq, Eq)]
pub enum Halted {
    /// The program has stopped.
    Stopped,
    /// The runner failed, and its count of faults rose. The program counts as stopped by force.
    Failed,
}

impl Halted {
    /// Whether the runner failed, so that the stop counts as one by force.
    pub fn is_failed(self) -> bool
        ensures { result ≡ is_failed_halt self }
    {
        matches!(self, Halted::Failed)
    }
}

/// A question, with the answer that it got.
#[derive(Debug, Drop, Clone, PartialEq, Eq)]
pub enum GateCall {
    /// A manifest was asked for.
    Fetch(Fetch, Fetched),
    /// A program was to be started.
    Launch(Job, Launched),
    /// A program was to be stopped.
    Halt(Job, Halted),
}
