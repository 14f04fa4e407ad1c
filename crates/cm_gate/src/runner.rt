//! A runner of programs behind a Unix socket.
//!
//! Each question is a connection of its own, of three lines:
//!
//! | who | line |
//! |---|---|
//! | gate | `launch ACTION INCARNATION RUNNER URL MONIKER` or `halt` with the same words |
//! | runner | `running` or `declined` to a launch, `stopped` to a halt |
//! | gate | `taken` |
//!
//! Whatever else comes, comes too late or doesn't come is a failure. A runner that answered and reads
//! no `taken` knows so that its answer doesn't count: then the program must not run. The lines and the
//! times are this project's own choice.

ghost use Rattle.std.specs.Prelude.{◌≡◌, ◌≢◌, IfOk, OnErr, true};
ghost use Rattle.cm_gate.specs.Asks.{AsksHalt, AsksLaunch, DialsOnce, FailsHalt, FailsLaunch, Gives};
ghost use Rattle.cm_gate.specs.Asks.{IsAnswered, IsUnanswered, IsUnheard, is_whole};
ghost use Rattle.cm_gate.specs.Runner.{halted_by, launched_by, question_line};

use crate::{Connection, Halted, Job, Launched, Network};
use arrayvec::ArrayVec;
use cm_names::{Memory, Text};
use std::alloc::Global;
use std::io;
use std::io::ErrorKind;
use std::marker::Model;

/// How many bytes an answer may have, with its line feed.
const LONGEST_ANSWER: usize = 16;

/// How many bytes are read at most: fewer than an answer may have, and a piece of as many behind them.
const MOST_READ: usize = 32;

/// What was read of an answer.
type Answer = ArrayVec<u8, MOST_READ>;

/// A runner that listens at a path of the file system. Contracts see that path.
#[derive(Drop)]
pub struct Runner {
    alloc: Global,
    at: Text,
}

impl Model for Runner {
    ghost use Rattle.std.specs.Prelude.{ℕ, List};

    ghost Value = { List ℕ };

    ghost view = { λ r. r.at };
}

impl Runner {
    /// The runner that listens there. Nobody is asked yet.
    pub fn new(alloc: Global, at: Text) -> Runner
        ensures { result ≡ at }
    {
        Runner { alloc, at }
    }

    /// Has a program started. `Failed` comes only where nobody was asked, since memory ran out, where the
    /// runner gave no whole answer, or none that is known, or where it couldn't be told that its answer is
    /// taken. Any other answer is the runner's own to this very question, and was taken. It is asked once.
    #[tactic(auto, using(crate::proofs::lemmas::Asking::asks_launch))]
    pub(crate) fn launch<N: Network>(&self, net: &mut N, job: &Job) -> Launched
        ensures asks { result ≢ Launched.Failed → AsksLaunch
            N.connected N.Connection.wrote N.Connection.gave net.new self.now job.now result }
        ensures failed { result ≡ Launched.Failed → FailsLaunch N.connected N.unconnected
            N.Connection.wrote N.Connection.unsent N.Connection.gave N.Connection.unheard
            net.old self.now job.now net.new }
        ensures once { DialsOnce N.dialed net.old self.now net.new }
    {
        let Ok((mut connection, answer)) = self.ask(net, "launch", job) else {
            return Launched::Failed;
        };
        let launched = launched(answer.as_slice());
        if launched.is_failed() {
            return Launched::Failed;
        }
        match connection.send(b"taken\n") {
            Ok(()) => launched,
            Err(_) => Launched::Failed,
        }
    }

    /// Has a program stopped. `Failed` comes as in `launch`.
    #[tactic(auto, using(crate::proofs::lemmas::Asking::asks_halt))]
    pub(crate) fn halt<N: Network>(&self, net: &mut N, job: &Job) -> Halted
        ensures asks { result ≢ Halted.Failed → AsksHalt
            N.connected N.Connection.wrote N.Connection.gave net.new self.now job.now result }
        ensures failed { result ≡ Halted.Failed → FailsHalt N.connected N.unconnected
            N.Connection.wrote N.Connection.unsent N.Connection.gave N.Connection.unheard
            net.old self.now job.now net.new }
        ensures once { DialsOnce N.dialed net.old self.now net.new }
    {
        let Ok((mut connection, answer)) = self.ask(net, "halt", job) else {
            return Halted::Failed;
        };
        let halted = halted(answer.as_slice());
        if halted.is_failed() {
            return Halted::Failed;
        }
        match connection.send(b"taken\n") {
            Ok(()) => halted,
            Err(_) => Halted::Failed,
        }
    }

    /// Asks over a connection of its own, and reads the answer. `Err` comes where memory runs out for the
    /// question, before anybody is asked, and where there is no whole answer.
    #[tactic(auto, using(crate::proofs::lemmas::Asking::is_answered))]
    fn ask<N: Network>(
        &self,
        net: &mut N,
        word: &str,
        job: &Job,
    ) -> io::Result<(N::Connection, Answer)>
        ensures answered { IfOk result (λ read. IsAnswered N.connected N.Connection.wrote
            N.Connection.gave net.new self.now (question_line word.now job.now) read.1.items read.0) }
        ensures unanswered { OnErr result (IsUnanswered N.connected N.unconnected
            N.Connection.wrote N.Connection.unsent N.Connection.gave N.Connection.unheard
            net.old self.now (question_line word.now job.now) net.new) }
        ensures once { DialsOnce N.dialed net.old self.now net.new }
    {
        let line = match question(self.alloc, word, job) {
            Ok(line) => line,
            Err(Memory) => return Err(io::Error::from(ErrorKind::OutOfMemory)),
        };
        let mut connection = net.connect_to(self.at.as_str())?;
        connection.send(line.as_str().as_bytes())?;
        let answer = read_answer(&mut connection)?;
        Ok((connection, answer))
    }
}

/// The line that asks a runner: this word, and for which instance. `Err` comes where memory runs out.
fn question(alloc: Global, word: &str, job: &Job) -> Result<Text, Memory>
    ensures { IfOk result (λ line. line ≡ question_line word.now job.now) }
{
    let moniker = job.moniker.write(alloc)?;
    let action = job.action;
    let inc = job.inc;
    let runner = &job.runner;
    let url = &job.url;
    let mut line = Text::new(alloc);
    line.push(format_args!("{word} {action} {inc} {runner} {url} {moniker}\n"))?;
    Ok(line)
}

/// Reads until an answer is whole. `Err` comes where reading fails or the end comes before that.
#[tactic(auto, using(crate::proofs::lemmas::Asking::gives_none, crate::proofs::lemmas::Asking::gives_more))]
fn read_answer<C: Connection>(from: &mut C) -> io::Result<Answer>
    ensures heard { IfOk result (λ answer. Gives C.gave from.old answer.items from.new) }
    ensures whole { IfOk result (λ answer. is_whole answer.items ≡ true) }
    ensures unheard { OnErr result (IsUnheard C.gave C.unheard from.old from.new) }
{
    let mut answer = Answer::new();
    let mut piece = [0_u8; LONGEST_ANSWER];
    while !is_whole(answer.as_slice()) {
        let count = from.receive(&mut piece)?;
        if count == 0 {
            return Err(io::Error::from(ErrorKind::UnexpectedEof));
        }
        // Fewer than 16 bytes were there, so these fit.
        let _fits = answer.try_extend_from_slice(&piece[..count]);
    }
    Ok(answer)
}

/// Whether an answer ends with a line feed, or has as many bytes as an answer may have.
fn is_whole(answer: &[u8]) -> bool
    ensures { result ≡ is_whole answer.now }
{
    answer.ends_with(b"\n") || answer.len() >= LONGEST_ANSWER
}

/// What an answer to a launch means.
fn launched(answer: &[u8]) -> Launched
    ensures { result ≡ launched_by answer.now }
{
    if answer == b"running\n".as_slice() {
        return Launched::Running;
    }
    if answer == b"declined\n".as_slice() {
        return Launched::Declined;
    }
    Launched::Failed
}

/// What an answer to a halt means.
fn halted(answer: &[u8]) -> Halted
    ensures { result ≡ halted_by answer.now }
{
    if answer == b"stopped\n".as_slice() {
        return Halted::Stopped;
    }
    Halted::Failed
}
