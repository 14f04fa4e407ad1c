//! What `run` prints.

ghost use Rattle.std.specs.Prelude.{◌≡◌, ◌++◌, List as Seq, IfOk, OnOk, drop, flat_map};
ghost use Rattle.std.specs.Prelude.{string_bytes};
ghost use Rattle.cm_command.specs.declared.script.Line.{Line as TheLine};
ghost use Rattle.cm_reply.specs.Journal.{entries_text};
ghost use Rattle.cm_program.specs.Printed.{line_text};
ghost use Rattle.cm_program.specs.PrintedInside.{texts_of};

use cm_command::Line;
use cm_lanes::Said;
use cm_names::{List, Memory};
use cm_reply::{push_entry, push_reply};
use cm_world::Entry;

/// Puts the answer to a line after the text: the lane, a space, the answer and a line feed.
#[tactic(auto, unfolding(crate::specs::Printed::line_text))]
fn push_answer(text: &mut String, line: &Line, said: &Said) -> Result<(), Memory>
    ensures { let more = line_text line.now said.now.result in
        OnOk result (string_bytes text.new ≡ string_bytes text.old ++ more) }
{
    let lane = line.lane;
    text.write(format_args!("{lane} "))?;
    push_reply(text, &line.command, &said.result)?;
    text.push_str("\n")?;
    Ok(())
}

/// Puts the answers to these lines after the text. The first of them stands at `from`; the result
/// is the place after the last.
fn push_lines(
    text: &mut String,
    lines: &[Line],
    said: &[Said],
    from: usize,
) -> Result<usize, Memory>
    ensures { IfOk result (λ at. (more : Seq TheLine) →
        string_bytes text.new ++ texts_of more (drop at said.now)
        ≡ string_bytes text.old ++ texts_of (lines.now ++ more) (drop from said.now)) }
{
    let mut at = from;
    for line in lines {
        if at >= said.len() {
            return Ok(at);
        }
        push_answer(text, line, &said[at])?;
        at += 1;
    }
    Ok(at)
}

/// Puts the answers to the lines of all phases after the text.
pub fn push_answers(text: &mut String, phases: &[List<Line>], said: &[Said]) -> Result<(), Memory>
    ensures { OnOk result (string_bytes text.new
        ≡ string_bytes text.old ++ texts_of (flat_map (λ lines. lines) phases.now) said.now) }
{
    let mut at = 0;
    for phase in phases {
        at = push_lines(text, phase.as_slice(), said, at)?;
    }
    Ok(())
}

/// Puts a line of the journal after the text for each entry of the history.
pub fn push_entries(text: &mut String, entries: &[Entry]) -> Result<(), Memory>
    ensures { let more = entries_text 1 entries.now in
        OnOk result (string_bytes text.new ≡ string_bytes text.old ++ more) }
{
    for index in 0..entries.len() {
        push_entry(text, index as u64 + 1, &entries[index])?;
        text.push_str("\n")?;
    }
    Ok(())
}
