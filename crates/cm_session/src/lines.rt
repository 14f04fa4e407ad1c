//! Serving the lines of one link.

ghost use Rattle.std.specs.Prelude.{◌≡◌, ◌≢◌, ◌≤◌, ◌++◌, ◌∷◌, [], codes, decimal, false, true, length, Err};
ghost use Rattle.std.specs.Prelude.{IfOk};
ghost use Rattle.cm_reply.specs.Journal.{line as line_of};
ghost use Rattle.cm_reply.specs.Answers as answers;
ghost use Rattle.cm_manager.specs.Caller.{IsSameCaller};
ghost use Rattle.cm_io.specs.Orders.{hung_up};
ghost use Rattle.cm_session.specs.Links.{source_view, view_of};
ghost use Rattle.cm_session.specs.LinksInside.{side_view};
ghost use Rattle.cm_session.specs.Session.{Session, SessionClosedBy, SessionWith};
ghost use Rattle.cm_session.specs.Steps.{AnsweredOrNot, LineWrote, RepliesInOrder, ServedCommand};
ghost use Rattle.cm_session.specs.Steps.{ServedOrNot, Stepped};

use crate::Ended;
use cm_command::{Command, CommandFault, read_command};
use cm_gate::Gates;
use cm_io::{LineReader, Link, Next, Put, put_all};
use cm_manager::{Caller, Manager};
use cm_names::{Memory, Text};
use cm_reply::reply_text;
use cm_turn::Pass;
use cm_world::{Answer, Entry, Frame, Refusal};
use std::alloc::Global;
use std::sync::Wait;
use std::thread::Threads;

/// The most lines of one session.
const LINES: u32 = 1_048_576;

/// The line that ends a session.
const QUIT: &[u8] = b"quit";

/// The reply to a line that is too long.
const TOO_LONG: &[u8] = b"refused 75 line-too-long\n";

/// The reply to a line for whose reply memory ran out.
const WANTING: &[u8] = b"refused want-of-memory\n";

/// Whether a command was answered so because memory ran out.
fn is_out_of_memory(answer: &Result<Answer, Refusal>) -> bool
    ensures told { result ≡ false → answer.now ≢ Err Refusal.Memory }
    ensures wanting { result ≡ true → answer.now ≡ Err Refusal.Memory }
{
    matches!(answer, Err(Refusal::Memory))
}

/// The reply to a command, with a line feed.
fn answer_line(
    alloc: Global,
    command: &Command,
    answer: &Result<Answer, Refusal>,
) -> Result<Text, Memory>
    ensures { IfOk result (λ text. text ≡ line_of (answers.reply_text command.now answer.now)) }
{
    let mut text = reply_text(alloc, command, answer)?;
    text.push_str("\n")?;
    Ok(text)
}

/// The reply to a line that is no command, with a line feed.
fn refusal_line(alloc: Global, at: u32) -> Result<Text, Memory>
    ensures { IfOk result (λ text. text ≡ line_of (codes "refused 70 bad-command at " ++ decimal at)) }
{
    let mut text = Text::new(alloc);
    text.push(format_args!("refused 70 bad-command at {at}\n"))?;
    Ok(text)
}

/// Writes a reply, whole unless the link fails. The result says why the session ends for it, if it does.
fn put_reply<R: Threads + Wait + Sync, L: Link>(
    rt: &R,
    link: &mut L,
    text: &[u8],
    wanting: bool,
) -> Option<Ended>
    ensures wrote { LineWrote result (side_view L.Source L.Sink link.old) (side_view L.Source L.Sink link.new)
        text.now (wanting ≡ false) }
    ensures ordered { RepliesInOrder result (L.Source.order link.old) (L.Source.order link.new) text.now }
    ensures source { source_view L.Source link.new ≡ source_view L.Source link.old }
{
    let put = put_all(rt, link, text);
    if wanting {
        return Some(Ended::Memory);
    }
    match put {
        Put::Done => None,
        Put::WriteFault(_) => Some(Ended::WriteFault),
    }
}

/// Answers a line that is no command, or writes nothing where memory runs out for the answer. The result
/// says why the session ends for it, if it does.
fn refuse<R: Threads + Wait + Sync, L: Link>(
    rt: &R,
    alloc: Global,
    link: &mut L,
    at: u32,
) -> Option<Ended>
    ensures answered { AnsweredOrNot (side_view L.Source L.Sink link.old)
        (side_view L.Source L.Sink link.new) (line_of (codes "refused 70 bad-command at " ++ decimal at))
        result }
    ensures source { source_view L.Source link.new ≡ source_view L.Source link.old }
{
    match refusal_line(alloc, at) {
        Ok(text) => put_reply(rt, link, text.as_str().as_bytes(), false),
        Err(Memory) => Some(Ended::Memory),
    }
}

/// Performs a command and writes its reply. The result says why the session ends for it, if it does.
fn serve_command<R: Threads + Wait + Sync, G: Gates, L: Link>(
    caller: &mut Caller<'_, R, G>,
    link: &mut L,
    command: &Command,
) -> Option<Ended>
    ensures same { IsSameCaller caller.old caller.new }
    ensures served { ServedCommand caller.old.manager.manifests caller.old.pass caller.new.pass
        caller.old.gates caller.new.gates
        command.now (side_view L.Source L.Sink link.old) (side_view L.Source L.Sink link.new) result }
    ensures source { source_view L.Source link.new ≡ source_view L.Source link.old }
{
    let answer = caller.perform(command);
    let wanting = is_out_of_memory(&answer);
    let ended = match answer_line(caller.alloc(), command, &answer) {
        Ok(text) => put_reply(caller.rt(), link, text.as_str().as_bytes(), wanting),
        Err(Memory) => put_reply(caller.rt(), link, WANTING, true),
    };
    drop(answer);
    ended
}

/// Serves a line that isn't `quit`. The result says why the session ends for it, if it does.
fn serve_line<R: Threads + Wait + Sync, G: Gates, L: Link>(
    caller: &mut Caller<'_, R, G>,
    link: &mut L,
    line: &[u8],
) -> Option<Ended>
    requires short { length line.now ≤ 65536 }
    ensures same { IsSameCaller caller.old caller.new }
    ensures served { ServedOrNot caller.old.manager.manifests caller.old.pass caller.new.pass
        caller.old.gates caller.new.gates
        line.now (side_view L.Source L.Sink link.old) (side_view L.Source L.Sink link.new) result }
    ensures source { source_view L.Source link.new ≡ source_view L.Source link.old }
{
    match read_command(caller.alloc(), line) {
        Ok(command) => {
            let ended = serve_command(caller, link, &command);
            drop(command);
            ended
        }
        Err(CommandFault::BadCommand(at)) => refuse(caller.rt(), caller.alloc(), link, at),
        Err(CommandFault::Memory) => Some(Ended::Memory),
    }
}

/// Takes the next line and serves it. The result says why the session ends with it, if it does.
fn serve_next<R: Threads + Wait + Sync, G: Gates, L: Link>(
    caller: &mut Caller<'_, R, G>,
    link: &mut L,
    reader: &mut LineReader,
) -> Option<Ended>
    ensures same { IsSameCaller caller.old caller.new }
    ensures stepped { Stepped caller.old.manager.manifests caller.old.pass caller.new.pass
        caller.old.gates caller.new.gates reader.old reader.new
        (view_of L.Source L.Sink link.old) (view_of L.Source L.Sink link.new) result }
{
    match reader.next(caller.rt(), link) {
        Next::Line(line) => {
            if line.as_slice() == QUIT {
                return Some(Ended::Quit);
            }
            serve_line(caller, link, line.as_slice())
        }
        Next::TooLong => put_reply(caller.rt(), link, TOO_LONG, false),
        Next::End => Some(Ended::End),
        Next::ReadFault => Some(Ended::ReadFault),
        Next::Memory => Some(Ended::Memory),
    }
}

/// Serves line after line, until the session ends; the answer says why it ended.
fn serve_lines<R: Threads + Wait + Sync, G: Gates, L: Link>(
    caller: &mut Caller<'_, R, G>,
    link: &mut L,
    reader: &mut LineReader,
) -> Ended
    requires fresh { reader.old ≡ record { held = []; over = false } }
    ensures same { IsSameCaller caller.old caller.new }
    ensures session { SessionClosedBy [] caller.old.manager.manifests caller.old.pass caller.new.pass
        caller.old.gates caller.new.gates
        (view_of L.Source L.Sink link.old) (view_of L.Source L.Sink link.new) result }
{
    for line in 0..LINES {
        let _number = line;
        if let Some(ended) = serve_next(caller, link, reader) {
            return ended;
        }
    }
    Ended::LinesSpent
}

/// Serves one link to its end with this caller, as [`session`] does.
pub(crate) fn serve<R: Threads + Wait + Sync, G: Gates, L: Link>(
    caller: &mut Caller<'_, R, G>,
    link: &mut L,
) -> Ended
    ensures same { IsSameCaller caller.old caller.new }
    ensures session { Session caller.old.manager.manifests caller.old.pass caller.new.pass
        caller.old.gates caller.new.gates
        (view_of L.Source L.Sink link.old) (view_of L.Source L.Sink link.new) result }
{
    let ended = match LineReader::new(caller.alloc()) {
        Ok(mut reader) => serve_lines(caller, link, &mut reader),
        Err(Memory) => Ended::Memory,
    };
    link.hang_up(caller.rt());
    ended
}

/// Serves one link to its end.
///
/// The lines that the link gives are served in order, each with its reply and a line feed before
/// the next one is read. A line that is a command is performed with this pass and these gates, and
/// its reply is the answer's text. A line that is none is answered by `refused 70 bad-command at K`,
/// where its first K bytes are the longest prefix of it that some command begins with; one of more
/// than 65,536 bytes by `refused 75 line-too-long`. A line `quit` ends the session without a reply.
///
/// The end is `ReadFault` only if a failed read of this link was counted meanwhile, and `WriteFault`
/// only if a failed write was; `LinesSpent` after 1,048,576 lines. `Memory` comes where memory ran
/// out for a line or its reply, also where the link failed then. Each reply is written whole, and the
/// last one breaks off only if a failed write was counted. Whatever the end, the link is hung up.
///
/// It calls [`serve`] with a caller of this pass and these gates, as the workers of a server do with a
/// caller of their own.
pub fn session<R: Threads + Wait + Sync, G: Gates, L: Link>(
    rt: &R,
    alloc: Global,
    manager: &Manager,
    pass: Pass<Entry, Frame>,
    gates: &mut G,
    link: &mut L,
) -> (Pass<Entry, Frame>, Ended)
    requires lock { pass.lock ≡ manager.now.turn.lock }
    ensures session { SessionWith G.log G.faults (view_of L.Source L.Sink) (hung_up ∷ [])
        manager.now.manifests pass result.0 gates.old gates.new link.old link.new result.1 }
{
    let mut caller = Caller::new(rt, alloc, manager, pass, gates);
    let ended = serve(&mut caller, link);
    let (pass, _gates) = caller.into_parts();
    (pass, ended)
}
