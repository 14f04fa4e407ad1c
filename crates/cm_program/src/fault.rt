//! Why a script is refused.

use cm_command::{ScriptFault, ScriptNumber};
use cm_names::Memory;
use std::fmt;

/// What is wrong with a script that was read.
#[derive(Clone, Copy)]
pub enum Problem {
    /// 77: a block's URL is none, or has no fragment.
    BadManifestUrl,
    /// 78: an earlier block has the URL.
    RepeatedManifest,
}

impl fmt::Display for Problem {
    ghost use Rattle.std.specs.Prelude.{Some};
    ghost use Rattle.cm_program.specs.Texts.{problem_text};

    ghost output = { λ p. Some (problem_text p) };

    /// Writes the number and the word of the problem.
    fn fmt<W: fmt::Write>(&self, f: &mut fmt::Formatter<W>) -> fmt::Result {
        match self {
            Problem::BadManifestUrl => f.write_str("77 bad-manifest-url"),
            Problem::RepeatedManifest => f.write_str("78 repeated-manifest"),
        }
    }
}

/// Why a script is refused: its first fault by [`read_script`](cm_command::read_script), or else
/// its first block that the repository refuses.
#[derive(Clone, Copy)]
pub enum ScriptRefusal {
    /// 70 to 76: the text is no script, by its first fault.
    Unread {
        line: u32,
        number: ScriptNumber,
        at: u32,
    },
    /// 77 or 78: the block at this line of a script is refused.
    Unserved {
        line: u32,
        problem: Problem,
    },
    /// Memory ran out.
    Memory,
}

/// It is written `line L: NUMBER WORD`, at 70 followed by ` at POSITION`.
impl fmt::Display for ScriptRefusal {
    ghost use Rattle.std.specs.Prelude.{Some};
    ghost use Rattle.cm_program.specs.Texts.{fault_text};

    ghost output = { λ fault. Some (fault_text fault) };

    /// Writes why the script is refused, with its line.
    fn fmt<W: fmt::Write>(&self, f: &mut fmt::Formatter<W>) -> fmt::Result {
        match self {
            ScriptRefusal::Unread { line, number, at } => {
                let fault = ScriptFault::Bad {
                    line: *line,
                    number: *number,
                    at: *at,
                };
                write!(f, "{fault}")
            }
            ScriptRefusal::Unserved { line, problem } => write!(f, "line {line}: {problem}"),
            ScriptRefusal::Memory => f.write_str("out of memory"),
        }
    }
}

impl From<Memory> for ScriptRefusal {
    ghost use Rattle.std.specs.Prelude.{◌≡◌};
    ghost use Rattle.cm_program.specs.declared.fault.ScriptRefusal.TheVariants.{Memory as OutOfMemory};

    ghost from_gives = { λ _ e. e ≡ OutOfMemory };

    /// For `?` after a call that lacked memory.
    fn from(_: Memory) -> ScriptRefusal {
        ScriptRefusal::Memory
    }
}
