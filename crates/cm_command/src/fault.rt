//! The faults of scripts.

ghost use Rattle.std.specs.Prelude.{◌≡◌};
ghost use Rattle.cm_command.specs.FaultText.{number_of, fault_word};

use cm_names::Memory;
use std::fmt;

/// Which fault a line has.
#[derive(Debug, Clone, Copy, PartialEq, Eq)]
pub enum ScriptNumber {
    /// 70: a header line or a command that is not in the grammar, or a header line that may not
    /// stand there.
    BadCommand,
    /// 71: a line that does not begin with the number of a lane and a space.
    BadLane,
    /// 72: a command or `sync` before the root line, or no root line.
    NoRoot,
    /// 73: a manifest that no line `%%` closes.
    UnclosedManifest,
    /// 74: a lane above 15.
    TooManyLanes,
    /// 75: a line of more than 65,536 bytes.
    LineTooLong,
    /// 76: a script of more than 67,108,864 bytes.
    TooLarge,
}

impl ScriptNumber {
    /// The fault's number, as it is printed.
    pub fn number(self) -> u8
        ensures { result ≡ number_of self }
    {
        match self {
            ScriptNumber::BadCommand => 70,
            ScriptNumber::BadLane => 71,
            ScriptNumber::NoRoot => 72,
            ScriptNumber::UnclosedManifest => 73,
            ScriptNumber::TooManyLanes => 74,
            ScriptNumber::LineTooLong => 75,
            ScriptNumber::TooLarge => 76,
        }
    }

    /// The fault's word, as it is printed after the number.
    pub fn word(self) -> &'static str
        ensures { result.now ≡ fault_word self }
    {
        match self {
            ScriptNumber::BadCommand => "bad-command",
            ScriptNumber::BadLane => "bad-lane",
            ScriptNumber::NoRoot => "no-root",
            ScriptNumber::UnclosedManifest => "unclosed-manifest",
            ScriptNumber::TooManyLanes => "too-many-lanes",
            ScriptNumber::LineTooLong => "line-too-long",
            ScriptNumber::TooLarge => "too-large",
        }
    }
}

/// Why a text is no script.
#[derive(Clone, Copy)]
pub enum ScriptFault {
    /// The first fault of the text.
    Bad {
        /// The number of the line, counted from 1.
        line: u32,
        /// Which fault it is.
        number: ScriptNumber,
        /// At `BadCommand` the position in the line; else 0.
        at: u32,
    },
    /// Memory ran out.
    Memory,
}

impl From<Memory> for ScriptFault {
    ghost use Rattle.std.specs.Prelude.{◌≡◌};
    ghost use Rattle.cm_command.specs.declared.fault.ScriptFault.TheVariants.{Memory as OutOfMemory};

    ghost from_gives = { λ _ e. e ≡ OutOfMemory };

    /// For `?` after a call that lacked memory.
    fn from(_: Memory) -> ScriptFault {
        ScriptFault::Memory
    }
}

/// It is written `line L: NUMBER WORD`, at `BadCommand` followed by ` at POSITION`.
impl fmt::Display for ScriptFault {
    ghost use Rattle.std.specs.Prelude.{Some};
    ghost use Rattle.cm_command.specs.FaultText.{fault_text};

    ghost output = { λ fault. Some (fault_text fault) };

    /// Writes `line L: NUMBER WORD`, and at a bad command ` at POSITION`.
    fn fmt<W: fmt::Write>(&self, f: &mut fmt::Formatter<W>) -> fmt::Result {
        match self {
            ScriptFault::Memory => f.write_str("out of memory"),
            ScriptFault::Bad { line, number, at } => {
                let word = number.word();
                let code = number.number();
                if *number == ScriptNumber::BadCommand {
                    write!(f, "line {line}: {code} {word} at {at}")
                } else {
                    write!(f, "line {line}: {code} {word}")
                }
            }
        }
    }
}
