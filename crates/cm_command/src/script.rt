//! Scripts.

use crate::Command;
use cm_names::{Bytes, List, Text};
use cm_world::Builtin;

/// A manifest that a script brings along: the lines between a line `manifest URL` and the next
/// line `%%`.
#[derive(Drop)]
pub struct Block {
    /// The number of the line that opens it, counted from 1.
    pub line: u32,
    /// The URL that the manifest is found at.
    pub url: Text,
    /// Its bytes: the lines, each with its line feed.
    pub bytes: Bytes,
}

/// A line that asks for a command.
#[derive(Drop)]
pub struct Line {
    /// The line's number, counted from 1.
    pub line: u32,
    /// Which of the lanes, 0 to 15, is to run it.
    pub lane: u32,
    /// What it asks for.
    pub command: Command,
}

/// A script: what the component manager is made with, and what it is to do.
///
/// Each list stands in the order of the lines.
#[derive(Drop)]
pub struct Script {
    /// The manifests.
    pub manifests: List<Block>,
    /// The capabilities that stand above the root.
    pub builtins: List<Builtin>,
    /// The URL of the root component.
    pub root: Text,
    /// The lines of each phase. A line `sync` ends one, so there is one phase at least.
    pub phases: List<List<Line>>,
}
