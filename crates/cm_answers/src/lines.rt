//! The lines of a check of all routes.

ghost use Rattle.std.specs.Prelude.{◌≡◌, ◌∷◌, ◌++◌, [], Some, Ok, Err, IfOk, IfErr};
ghost use Rattle.cm_answers.specs.Lines.{doctored_by, line_of, route_by};
ghost use Rattle.cm_answers.specs.LinesInside.{AddsLines, end_of_line};
ghost use Rattle.cm_answers.specs.Lines.{surveyed_by, unresolved_line};

use crate::answers::refusing;
use cm_decl::copies::two;
use cm_names::{CapPath, List, Memory, Shared};
use cm_world::{Answer, Checked, Refusal, Reply, Route, SurveyRow};

/// The route that was given, or why there is none.
pub fn route_in(went: Result<Reply, Refusal>) -> Result<Shared<Route>, Refusal>
    ensures { result ≡ route_by went }
{
    match went {
        Ok(Reply::Given(route)) => Ok(route),
        Ok(other) => Err(refusing(other)),
        Err(refusal) => Err(refusal),
    }
}

/// The instances that were surveyed, or why none were.
pub fn rows_in(went: Result<Reply, Refusal>) -> Result<Shared<List<SurveyRow>>, Refusal>
    ensures { result ≡ surveyed_by went }
{
    match went {
        Ok(Reply::Surveyed(rows)) => Ok(rows),
        Ok(other) => Err(refusing(other)),
        Err(refusal) => Err(refusal),
    }
}

/// The answer of a check with these lines, or with what ended it.
pub fn doctored(lines: Result<List<Checked>, Refusal>) -> Result<Answer, Refusal>
    ensures { result ≡ doctored_by lines }
{
    match lines {
        Ok(lines) => Ok(Answer::Doctored(lines)),
        Err(refusal) => Err(refusal),
    }
}

/// The lines with that of a path after them. `Err` where memory runs out.
fn with_path(
    lines: List<Checked>,
    row: &SurveyRow,
    path: &CapPath,
    found: Result<Shared<Route>, Refusal>,
) -> Result<List<Checked>, Memory>
    ensures { IfOk result (λ all. all ≡ lines ++
        record { moniker = row.now.moniker; path = Some path.now; result = found } ∷ []) }
{
    let (moniker, path) = match two(&row.moniker, path) {
        Ok(both) => both,
        Err(_) => {
            drop(found);
            drop(lines);
            return Err(Memory);
        }
    };
    let mut all = lines;
    all.push(Checked {
        moniker,
        path: Some(path),
        result: found,
    })?;
    Ok(all)
}

/// The lines with that of an instance after them which isn't resolved. `Err` where memory runs
/// out.
pub fn with_unresolved(lines: List<Checked>, row: &SurveyRow) -> Result<List<Checked>, Memory>
    ensures { IfOk result (λ all. all ≡ lines ++ unresolved_line row.now.moniker ∷ []) }
{
    let moniker = row.moniker.clone()?;
    let mut all = lines;
    all.push(Checked {
        moniker,
        path: None,
        result: Err(Refusal::NoSuchUse),
    })?;
    Ok(all)
}

/// The lines, or that memory ran out.
pub fn or_memory(lines: Result<List<Checked>, Memory>) -> Result<List<Checked>, Refusal>
    ensures ok { IfOk lines (λ all. result ≡ Ok all) }
    ensures err { IfErr lines (λ _. result ≡ Err Refusal.Memory) }
{
    match lines {
        Ok(lines) => Ok(lines),
        Err(_) => Err(Refusal::Memory),
    }
}

/// What ends the check where this was found for a path: lack of memory, or of room in the history.
fn end_in(found: &Result<Shared<Route>, Refusal>) -> Option<Refusal>
    ensures { result ≡ end_of_line found.now }
{
    match found {
        Err(Refusal::Memory) => Some(Refusal::Memory),
        Err(Refusal::HistoryFull) => Some(Refusal::HistoryFull),
        _ => None,
    }
}

/// The lines with that of a path after them, for which this was found.
///
/// `Err` with what ends the check: `HistoryFull` where that was found, and `Memory` where memory
/// ran out before or runs out.
pub fn found_at(
    lines: List<Checked>,
    row: &SurveyRow,
    path: &CapPath,
    found: Result<Shared<Route>, Refusal>,
) -> Result<List<Checked>, Refusal>
    ensures { AddsLines lines (line_of row.now.moniker path.now found) result }
{
    match end_in(&found) {
        Some(refusal) => {
            drop(found);
            drop(lines);
            Err(refusal)
        }
        None => or_memory(with_path(lines, row, path, found)),
    }
}
