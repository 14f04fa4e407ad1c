//! How the program ends.

ghost use Rattle.std.specs.Prelude.{◌≡◌, if◌then◌else◌, nat_eq};
ghost use Rattle.std.specs.Process.{exit_status};
ghost use Rattle.cm_program.specs.Closing.{IsRun};
ghost use Rattle.cm_program.specs.Written.{IsSaid, want_line};
ghost use Rattle.cm_session.specs.Links.{view_of};

use cm_gate::Gates;
use cm_io::{Door, Sink, Source};
use cm_names::Text;
use cm_program::ran::{out_of_memory, tell};
use cm_program::{Ran, closing};
use std::io::Eprint;
use std::marker::Model;
use std::process::{ExitCode, Termination};
use std::sync::Wait;
use std::thread::Threads;

/// The status that the program ends with. Contracts see its number.
///
/// It is that of the one run, by [`ended`]; or something that isn't the run's was missing, before it or
/// behind it, and the error stream says what. There is no other way to one. So a `main` that gives one
/// ends with the run's status, or with 4 or 6 where it has said that something beside the run was missing.
#[derive(Drop)]
pub struct ProgramStatus {
    number: u8,
}

impl Model for ProgramStatus {
    ghost use Rattle.std.specs.Prelude.{ℕ};

    ghost Value = { ℕ };

    ghost view = { λ s. s.number };
}

impl ProgramStatus {
    /// The status where memory ran out beside the run, which is said on the error stream.
    pub fn out_of_memory<R: Threads + Wait + Sync, E: Sink>(rt: &R, err: &mut E) -> ProgramStatus
        ensures status { result ≡ 6 }
        ensures said { IsSaid E.written E.faults err.old err.new want_line }
    {
        let number = out_of_memory(rt, err);
        ProgramStatus { number }
    }

    /// The status where something couldn't be had that isn't the run's, as a place for a journal. This
    /// line, which is said on the error stream, tells why.
    pub fn refused<R: Threads + Wait + Sync, E: Sink>(
        rt: &R,
        err: &mut E,
        line: &[u8],
    ) -> ProgramStatus
        ensures status { result ≡ 4 }
        ensures said { IsSaid E.written E.faults err.old err.new line.now }
    {
        tell(rt, err, line);
        ProgramStatus { number: 4 }
    }

    /// This status, or the other one where this is 0.
    pub fn or(self, other: ProgramStatus) -> ProgramStatus
        ensures { result ≡ if nat_eq self 0 then other else self }
    {
        if self.number == 0 { other } else { self }
    }
}

impl Termination for ProgramStatus {
    fn report<R: Eprint>(self, _rt: &R) -> ExitCode
        ensures { exit_status result ≡ self }
    {
        ExitCode::from(self.number)
    }
}

/// The status of the program's one run, and its door: see [`closing::ended`], which asks for what that very
/// run promises.
pub fn ended<S: Source, K: Sink, E: Sink, D: Door, G: Gates + Drop>(
    words: &[Text],
    input: S,
    out: K,
    err: E,
    ran: Ran<D, D::Link, G>,
) -> (ProgramStatus, D)
    requires { IsRun S.Source K.Sink E.Sink D.counts D.place (view_of D.Link.Source D.Link.Sink)
        G.log G.faults words.now input out err ran }
    ensures status { result.0 ≡ ran.status }
    ensures door { result.1 ≡ ran.door }
{
    let (number, door) = closing::ended(words, input, out, err, ran);
    (ProgramStatus { number }, door)
}
