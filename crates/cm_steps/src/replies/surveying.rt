//! The reply to who asks how an instance and all below it are.

ghost use Rattle.std.specs.Prelude.{◌≡◌, IfOk, Some, map};
ghost use Rattle.cm_world.specs.declared.row.Row.{Row};
ghost use Rattle.cm_world.specs.Rows.{row_of, decl_of};
ghost use Rattle.cm_world.specs.Reports as reports;
ghost use Rattle.cm_steps.specs.Reporting as spec;

use crate::copies::push_copy;
use crate::replies::telling::{Reportable, told_below};
use cm_decl::Usage;
use cm_names::{CapPath, List, Memory, Shared};
use cm_table::Table;
use cm_walk::above::{is_gone, is_on, is_resolved, is_shut};
use cm_walk::hop::moniker;
use cm_world::{Reply, SurveyRow, View};
use std::alloc::Global;

/// What is replied to who asks how an instance and all below it are.
pub fn surveyed(alloc: Global, table: &Table, inc: u64) -> Result<Reply, Memory>
    ensures { IfOk result (λ reply. reply ≡ reports.survey_reply table.now.rows inc) }
{
    if is_gone(table, inc) {
        return Ok(Reply::Gone(inc));
    }
    let rows = told_below(alloc, table, inc)?;
    Ok(Reply::Surveyed(Shared::new(alloc, rows)?))
}

impl Reportable for SurveyRow {
    ghost use Rattle.cm_steps.specs.Reporting.{surveyed_row};

    ghost told_of = { surveyed_row };

    /// A row is told unless it is gone.
    fn told(alloc: Global, table: &Table, inc: u64) -> Result<Option<SurveyRow>, Memory> {
        if is_gone(table, inc) {
            return Ok(None);
        }
        let row = survey_row(alloc, table, inc)?;
        Ok(Some(row))
    }
}

/// How an instance is, with the paths that it uses.
fn survey_row<V: View>(alloc: Global, view: &V, inc: u64) -> Result<SurveyRow, Memory>
    ensures { let rows = V.rows view.now in
        IfOk result (λ row. (r : Row) → row_of rows inc ≡ Some r
        → row ≡ reports.survey_row rows r) }
{
    let moniker = moniker(alloc, view, inc)?;
    let paths = paths(alloc, view, inc)?;
    Ok(SurveyRow {
        inc,
        moniker,
        resolved: is_resolved(view, inc),
        on: is_on(view, inc),
        shut: is_shut(view, inc),
        paths,
    })
}

/// The paths that an instance uses; none where it isn't resolved.
fn paths<V: View>(alloc: Global, view: &V, inc: u64) -> Result<List<CapPath>, Memory>
    ensures { let decl = decl_of (V.rows view.now) inc in
        IfOk result (λ paths. paths ≡ spec.paths_by decl) }
{
    match view.decl(inc) {
        None => Ok(List::new(alloc)),
        Some(decl) => paths_of(alloc, decl.uses.as_slice()),
    }
}

/// Copies of the paths of these uses. `Err` where memory runs out.
fn paths_of(alloc: Global, uses: &[Usage]) -> Result<List<CapPath>, Memory>
    ensures { IfOk result (λ paths. paths ≡ map (λ u. u.path) uses.now) }
{
    let mut paths = List::new(alloc);
    for usage in uses {
        push_copy(&mut paths, &usage.path)?;
    }
    Ok(paths)
}
