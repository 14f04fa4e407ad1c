//! Commands and scripts: what the lines that drive the component manager say.
//!
//! A [`Command`] is one call of the component manager. [`read_command`] reads the line that asks
//! for it, and [`write_command`] writes that line. A [`Script`] is a whole text of such lines with
//! the manifests, the builtin capabilities and the root that they work on; [`read_script`] reads
//! it, or finds its first fault. [`read_number`] and [`read_moniker`] read single words of a line.
//!
//! The calls are those of the FIDL protocols `fuchsia.component.Realm` and
//! `fuchsia.sys2.LifecycleController`, and what an offer of a created child can say is that of
//! Fuchsia's component manifest reference (fuchsia.dev). The words of the lines, the limits and
//! the numbers of the faults are this project's own choice.
//!
//! | file of `specs/` | says |
//! |---|---|
//! | `Numbers`, `Words` | the texts of numbers, URLs, targets, origins and rights |
//! | `Grammar` | which line is which command, and the fault of one that is none |
//! | `Written` | the line that a command is written as |
//! | `Scripts`, `FaultText` | a script's lines, the script that they are, and its first fault |
//! | `Laws` | that a text is one script at most, and none where it has a fault |
//! | `Counts`, `PathPlaces`, `Additions` | how far a word can go, for the readers of words |
//! | `Pieces`, `Places` | where a line stands after some of its words |
#![tactic(auto)]

pub mod addition;
pub mod command;
pub mod fault;
pub mod laws;
pub mod place;
pub mod quick;
pub mod reader;
pub mod rights;
pub mod script;
pub mod script_reader;
pub mod step;
pub mod tokens;
pub mod words;
pub mod writer;

pub use command::{Command, CommandFault};
pub use fault::{ScriptFault, ScriptNumber};
pub use reader::read_command;
pub use script::{Block, Line, Script};
pub use script_reader::{cut_line, read_script};
pub use tokens::{WordFault, read_moniker, read_number};
pub use writer::write_command;
