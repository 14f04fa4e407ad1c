//! Laws of lanes.
//!
//! These functions do nothing, and no code calls them: what each of them promises is a fact about
//! histories, which its proof shows.

ghost use Rattle.cm_lanes.specs.Laws as laws;

/// A lane's own entries are the parts of its lines, in order and with none left over, and each part
/// is the run of its line with the answer that was given.
pub fn lines_are_runs()
    ensures { laws.LinesAreRuns }
{}

/// Where nothing is done, out of memory may be the answer to every line.
pub fn lines_may_be_lost()
    ensures { laws.LinesMayBeLost }
{}
