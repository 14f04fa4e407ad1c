//! Reading scripts.

ghost use Rattle.std.specs.Prelude.{◌≡◌, ◌≢◌, ◌<◌, ◌≤◌, ◌^◌, ◌+◌, ◌*◌, ◌++◌, ◌∷◌, [], ℕ, List as Seq, None};
ghost use Rattle.std.specs.Prelude.{length, codes, IfOk, IfErr, OnOk, min, IsTrue, ◌↔◌, MatchOption};
ghost use Rattle.std.specs.Prelude.{MatchResult};
ghost use Rattle.cm_command.specs.Scripts as spec;
ghost use Rattle.cm_command.specs.ScriptsInside as spec_inside;
ghost use Rattle.cm_command.specs.Words.{IsUrlText};
ghost use Rattle.cm_command.specs.Grammar.{BuiltinText, IsBuiltinText};

use crate::fault::{ScriptFault, ScriptNumber};
use crate::reader::{read_builtin, read_command};
use crate::tokens::{WordFault, read_url};
use crate::words::{cut, is_decimal, is_same, lane_number, strip};
use crate::{Block, CommandFault, Line, Script};
use cm_names::{List, Memory, Text};
use cm_world::Builtin;
use std::alloc::Global;

/// The most bytes of a line.
const LINE_LIMIT: usize = 65_536;

/// The most bytes of a script.
const SCRIPT_LIMIT: usize = 67_108_864;

/// The highest lane.
const LAST_LANE: u32 = 15;

/// A script that is read so far.
#[derive(Drop)]
pub struct Draft {
    /// The manifests that are closed.
    pub manifests: List<Block>,
    /// The builtin capabilities.
    pub builtins: List<Builtin>,
    /// The root's URL, once its line was read.
    pub root: Option<Text>,
    /// The phases that `sync` has ended.
    pub phases: List<List<Line>>,
    /// The lines after the last `sync`.
    pub phase: List<Line>,
    /// Whether a command or `sync` was read.
    pub begun: bool,
    /// The manifest that is open.
    pub block: Option<Block>,
}

/// The fault of a line, and its position.
#[derive(Clone, Copy)]
pub enum LineFault {
    /// The fault and its position.
    Bad(ScriptNumber, u32),
    /// Memory ran out.
    Memory,
}

/// The script that the bytes are.
///
/// The lines are parted by 0x0A, which ends the last one too or doesn't. A line
/// `manifest URL` opens a block, which the next line `%%` closes, and the block's bytes are the
/// lines between them, each with its 0x0A. `builtin protocol NAME`,
/// `builtin directory NAME PATH RIGHTS` and `root URL` say what the component manager is made
/// with. A line `LANE COMMAND` asks for a command, and `sync` ends a phase. Empty lines and lines
/// that begin with `#` are skipped.
///
/// Where the bytes are no script, `Err(Bad)` tells the first faulty line, and the first fault that
/// it has:
///
/// - `LineTooLong` where it has more than 65,536 bytes;
/// - `TooLarge` where more than 67,108,864 bytes stand up to its end;
/// - `BadCommand` where a header line isn't in the grammar, stands after a command or `sync`, is a
///   second root line or repeats a builtin's kind and name; the position is 0 in the last three
///   cases, else the length of the line's longest prefix that such a line begins with;
/// - `NoRoot` where it is `sync` and no root line came before;
/// - `BadLane` where any other line doesn't begin with a decimal number without a needless zero and
///   a space, `TooManyLanes` where that number is above 15, `NoRoot` where no root line came
///   before, and `BadCommand` where the rest is no command;
/// - `UnclosedManifest`, at the end and with the line that opens the block, and `NoRoot`, at the
///   end and with the number of lines plus 1.
///
/// `Err(Memory)` comes where memory runs out. It reads the bytes once.
pub fn read_script(alloc: Global, bytes: &[u8]) -> Result<Script, ScriptFault>
    ensures ok { IfOk result (λ script. spec.IsScript bytes.now script) }
    ensures fault { IfErr result (λ e. e ≢ ScriptFault.Memory → spec_inside.IsScriptFault bytes.now e) }
{
    let mut draft = Draft::new(alloc);
    let number = draft.take_lines(alloc, bytes)?;
    draft.finish(number)
}

/// The fault of the script whose line of that number has that fault.
fn fault_at(line: u32, fault: LineFault) -> ScriptFault
    ensures { result ≡ spec_inside.fault_at line fault }
{
    match fault {
        LineFault::Bad(number, at) => bad(line, number, at),
        LineFault::Memory => ScriptFault::Memory,
    }
}

/// The fault of a script whose line of this number has this fault, at this position of it.
fn bad(line: u32, number: ScriptNumber, at: u32) -> ScriptFault
    ensures { result ≡ ScriptFault.Bad line number at }
{
    ScriptFault::Bad { line, number, at }
}

/// Whether a line outside of a block is skipped.
fn is_blank(line: &[u8]) -> bool
    ensures { result ≡ spec.is_blank line.now }
{
    match line {
        [] => true,
        [first, ..] => *first == b'#',
    }
}

/// The number of the lane that a line begins with.
#[derive(Clone, Copy)]
struct LaneStart<'a> {
    /// How many bytes the number has.
    digits: u32,
    /// The number, or 16 where it is larger.
    lane: u32,
    /// What stands after the number and the space.
    rest: &'a [u8],
}

/// The lane that a line begins with, and the command that follows it; `None` where it begins with no
/// number and space. Every lane above 15 is given as 16.
fn lane_start(line: &[u8]) -> Option<LaneStart<'_>>
    requires { length line.now ≤ spec.line_limit }
    ensures { MatchOption result ((n : ℕ) (rest : Seq ℕ) → spec.IsLane line.now n rest → ⊥)
        (λ start. spec_inside.StartsLane line.now start.digits start.lane start.rest.now) }
{
    let (digits, rest) = cut(line, b' ');
    let Some(rest) = rest else {
        return None;
    };
    if !is_decimal(digits) {
        return None;
    }
    Some(LaneStart {
        digits: digits.len() as u32,
        lane: lane_number(digits),
        rest,
    })
}

/// The fault of a line whose part after so many bytes has that fault.
fn fault_behind(len: u32, fault: CommandFault) -> LineFault
    requires { len + spec_inside.place_of fault < 2 ^ 32 }
    ensures { result ≡ spec_inside.fault_behind len fault }
{
    match fault {
        CommandFault::BadCommand(at) => LineFault::Bad(ScriptNumber::BadCommand, len + at),
        CommandFault::Memory => LineFault::Memory,
    }
}

/// The URL that stands after so many bytes of a line.
fn read_url_at(alloc: Global, len: u32, url: &[u8]) -> Result<Text, LineFault>
    requires { len + length url.now < 2 ^ 31 }
    ensures { MatchResult result (λ text. (text ≡ url.now) × IsUrlText url.now)
        (λ e. spec_inside.IsUrlFault len url.now e) }
{
    match read_url(alloc, url) {
        Ok(url) => Ok(url),
        Err(fault) => match fault {
            WordFault::Bad(prefixes) => {
                let at = (prefixes - 1) as u32;
                Err(LineFault::Bad(ScriptNumber::BadCommand, len + at))
            }
            WordFault::Memory => Err(LineFault::Memory),
        },
    }
}

/// Whether an earlier builtin has the kind and the name.
fn is_repeated(earlier: &List<Builtin>, builtin: &Builtin) -> bool
    ensures { IsTrue result ↔ spec.IsRepeated earlier.now builtin.now }
{
    earlier.as_slice().iter().any(|other| other.kind == builtin.kind && other.name == builtin.name)
}

/// The first line of some bytes, without its line feed, and the bytes after it.
pub fn cut_line(bytes: &[u8]) -> (&[u8], &[u8])
    requires { 0 < length bytes.now }
    ensures lines { spec.lines_of bytes.now ≡ result.0.now ∷ spec.lines_of result.1.now }
    ensures shorter { length result.1.now < length bytes.now }
    ensures end { min (length bytes.now) (length result.0.now + 1) + length result.1.now
        ≡ length bytes.now }
{
    let (line, rest) = cut(bytes, b'\n');
    match rest {
        Some(rest) => (line, rest),
        None => (line, &bytes[bytes.len()..]),
    }
}

/// The first fault of a line of that length and end, as the limits go.
fn exceeded(len: usize, end: usize) -> Option<ScriptNumber>
    ensures { MatchOption result ((len ≤ spec.line_limit) × (end ≤ spec.script_limit))
        (λ fault. spec_inside.ExceedsLimit len end fault) }
{
    if len > LINE_LIMIT {
        Some(ScriptNumber::LineTooLong)
    } else if end > SCRIPT_LIMIT {
        Some(ScriptNumber::TooLarge)
    } else {
        None
    }
}

impl From<Memory> for LineFault {
    ghost use Rattle.std.specs.Prelude.{◌≡◌};
    ghost use Rattle.cm_command.specs.declared.script_reader.LineFault.TheVariants.{Memory as OutOfMemory};

    ghost from_gives = { λ _ e. e ≡ OutOfMemory };

    /// For `?` after a call that lacked memory.
    fn from(_: Memory) -> LineFault {
        LineFault::Memory
    }
}

impl Draft {
    /// A draft before the first line.
    fn new(alloc: Global) -> Draft
        ensures { result ≡ spec.no_draft }
    {
        Draft {
            manifests: List::new(alloc),
            builtins: List::new(alloc),
            root: None,
            phases: List::new(alloc),
            phase: List::new(alloc),
            begun: false,
            block: None,
        }
    }

    /// Takes all lines of a script, and gives the number that the next line would have.
    fn take_lines(&mut self, alloc: Global, bytes: &[u8]) -> Result<u32, ScriptFault>
        requires { self.old ≡ spec.no_draft }
        ensures ok { IfOk result (λ number. spec_inside.Continuation bytes.now number self.new []) }
        ensures fault { IfErr result (λ e. e ≢ ScriptFault.Memory → spec_inside.IsScriptFault bytes.now e) }
    {
        let mut number: u32 = 1;
        let mut rest = bytes;
        'lines: while !rest.is_empty() {
            let (line, behind) = cut_line(rest);
            if let Some(fault) = exceeded(line.len(), bytes.len() - behind.len()) {
                return Err(bad(number, fault, 0));
            }
            match self.take(alloc, number, line) {
                Ok(()) => {}
                Err(fault) => return Err(fault_at(number, fault)),
            }
            number += 1;
            rest = behind;
        }
        Ok(number)
    }

    /// Takes one more line of the script, or tells its fault; then the draft is of no more use.
    fn take(&mut self, alloc: Global, number: u32, line: &[u8]) -> Result<(), LineFault>
        requires { length line.now ≤ spec.line_limit }
        ensures { MatchResult result (λ _. spec.TakesScriptLine number line.now self.old self.new)
            (λ e. spec_inside.IsLineFault self.old line.now e) }
    {
        match self.block.take() {
            Some(block) => self.take_inside(block, line),
            None => self.take_outside(alloc, number, line),
        }
    }

    /// Takes a line that stands outside of a block.
    fn take_outside(&mut self, alloc: Global, number: u32, line: &[u8]) -> Result<(), LineFault>
        requires closed { self.old.block ≡ None }
        requires short { length line.now ≤ spec.line_limit }
        ensures { MatchResult result (λ _. spec.TakesScriptLine number line.now self.old self.new)
            (λ e. spec_inside.IsLineFault self.old line.now e) }
    {
        if is_blank(line) {
            return Ok(());
        }
        if let Some(url) = strip(line, "manifest ") {
            return self.open(alloc, number, url);
        }
        if let Some(words) = strip(line, "builtin ") {
            return self.provide(alloc, words);
        }
        if let Some(url) = strip(line, "root ") {
            return self.take_root(alloc, url);
        }
        if is_same(line, "sync") {
            return self.sync(alloc);
        }
        self.command(alloc, number, line)
    }

    /// Takes a line of the open block.
    fn take_inside(&mut self, mut block: Block, line: &[u8]) -> Result<(), LineFault>
        ensures { MatchResult result (λ _. spec_inside.TakesInside line.now block self.old self.new)
            (λ e. e ≡ LineFault.Memory) }
    {
        if is_same(line, "%%") {
            return Ok(self.manifests.push(block)?);
        }
        block.bytes.extend_from_slice(line)?;
        block.bytes.push(b'\n')?;
        self.block = Some(block);
        Ok(())
    }

    /// Takes a line `manifest URL`, which opens a block, or tells its fault.
    fn open(&mut self, alloc: Global, number: u32, url: &[u8]) -> Result<(), LineFault>
        requires closed { self.old.block ≡ None }
        requires short { length url.now ≤ spec.line_limit }
        ensures { MatchResult result
            (λ _. spec.TakesScriptLine number (codes "manifest " ++ url.now) self.old self.new)
            (λ e. spec_inside.IsLineFault self.old (codes "manifest " ++ url.now) e) }
    {
        if self.begun {
            return Err(LineFault::Bad(ScriptNumber::BadCommand, 0));
        }
        let url = match read_url_at(alloc, 9, url) {
            Ok(url) => url,
            Err(fault) => return Err(fault),
        };
        self.block = Some(Block {
            line: number,
            url,
            bytes: List::new(alloc),
        });
        Ok(())
    }

    /// Takes a line `builtin ..`, or tells its fault.
    fn provide(&mut self, alloc: Global, words: &[u8]) -> Result<(), LineFault>
        requires closed { self.old.block ≡ None }
        requires short { length words.now ≤ spec.line_limit }
        ensures { MatchResult result
            (λ _. (n : ℕ) → spec.TakesScriptLine n (codes "builtin " ++ words.now) self.old self.new)
            (λ e. spec_inside.IsLineFault self.old (codes "builtin " ++ words.now) e) }
    {
        if self.begun {
            return Err(LineFault::Bad(ScriptNumber::BadCommand, 0));
        }
        let builtin = match read_builtin(alloc, words) {
            Ok(builtin) => builtin,
            Err(fault) => return Err(fault_behind(8, fault)),
        };
        if is_repeated(&self.builtins, &builtin) {
            return Err(LineFault::Bad(ScriptNumber::BadCommand, 0));
        }
        self.builtins.push(builtin)?;
        Ok(())
    }

    /// Takes a line `root URL`, or tells its fault.
    fn take_root(&mut self, alloc: Global, url: &[u8]) -> Result<(), LineFault>
        requires closed { self.old.block ≡ None }
        requires short { length url.now ≤ spec.line_limit }
        ensures { MatchResult result
            (λ _. (n : ℕ) → spec.TakesScriptLine n (codes "root " ++ url.now) self.old self.new)
            (λ e. spec_inside.IsLineFault self.old (codes "root " ++ url.now) e) }
    {
        if self.begun {
            return Err(LineFault::Bad(ScriptNumber::BadCommand, 0));
        }
        if self.root.is_some() {
            return Err(LineFault::Bad(ScriptNumber::BadCommand, 0));
        }
        let url = match read_url_at(alloc, 5, url) {
            Ok(url) => url,
            Err(fault) => return Err(fault),
        };
        self.root = Some(url);
        Ok(())
    }

    /// Takes a line `sync`, which ends a phase, or tells its fault.
    fn sync(&mut self, alloc: Global) -> Result<(), LineFault>
        requires { self.old.block ≡ None }
        ensures { MatchResult result
            (λ _. (n : ℕ) → spec.TakesScriptLine n (codes "sync") self.old self.new)
            (λ e. spec_inside.IsLineFault self.old (codes "sync") e) }
    {
        if self.root.is_none() {
            return Err(LineFault::Bad(ScriptNumber::NoRoot, 0));
        }
        let phase = std::mem::replace(&mut self.phase, List::new(alloc));
        self.phases.push(phase)?;
        self.begun = true;
        Ok(())
    }

    /// Takes a line `LANE COMMAND`, or tells its fault.
    fn command(&mut self, alloc: Global, number: u32, line: &[u8]) -> Result<(), LineFault>
        requires closed { self.old.block ≡ None }
        requires short { length line.now ≤ spec.line_limit }
        requires other { spec_inside.IsOrdinaryLine line.now }
        ensures { MatchResult result (λ _. spec.TakesScriptLine number line.now self.old self.new)
            (λ e. spec_inside.IsLineFault self.old line.now e) }
    {
        let Some(start) = lane_start(line) else {
            return Err(LineFault::Bad(ScriptNumber::BadLane, 0));
        };
        if start.lane > LAST_LANE {
            return Err(LineFault::Bad(ScriptNumber::TooManyLanes, 0));
        }
        if self.root.is_none() {
            return Err(LineFault::Bad(ScriptNumber::NoRoot, 0));
        }
        let command = match read_command(alloc, start.rest) {
            Ok(command) => command,
            Err(fault) => return Err(fault_behind(start.digits + 1, fault)),
        };
        self.phase.push(Line {
            line: number,
            lane: start.lane,
            command,
        })?;
        self.begun = true;
        Ok(())
    }

    /// The script, once all lines were read.
    fn finish(self, number: u32) -> Result<Script, ScriptFault>
        ensures { MatchResult result (λ script. spec.IsWhole self script)
            (λ e. spec_inside.IsLastFault self number e) }
    {
        let Draft {
            manifests,
            builtins,
            root,
            mut phases,
            phase,
            begun: _,
            block,
        } = self;
        if let Some(block) = block {
            return Err(bad(block.line, ScriptNumber::UnclosedManifest, 0));
        }
        let Some(root) = root else {
            return Err(bad(number, ScriptNumber::NoRoot, 0));
        };
        phases.push(phase)?;
        Ok(Script {
            manifests,
            builtins,
            root,
            phases,
        })
    }
}
