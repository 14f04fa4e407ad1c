//! The lines of a journal.

ghost use Rattle.std.specs.Prelude.{◌<◌, ◌≤◌, length, MatchOption};
ghost use Rattle.cm_audit.specs.Reading.{IsCut, PassesLimit};

use cm_command::cut_line;

/// The most bytes of a journal, with all that stands before it.
const JOURNAL_LIMIT: usize = 268_435_456;

/// A line, and what stands after it.
#[derive(Clone, Copy)]
pub struct Cut<'a> {
    /// The line, without its line feed.
    pub line: &'a [u8],
    /// What stands after it.
    pub behind: &'a [u8],
}

/// The first line of what is left of a journal of `size` bytes, and what stands after it; nothing where
/// the journal up to that line's end passes the limit.
pub fn cut_within(size: usize, rest: &[u8]) -> Option<Cut<'_>>
    requires some { 0 < length rest.now }
    requires within { length rest.now ≤ size }
    ensures { MatchOption result (PassesLimit size rest.now)
        (λ cut. IsCut size rest.now cut.line.now cut.behind.now) }
{
    let (line, behind) = cut_line(rest);
    if size - behind.len() > JOURNAL_LIMIT {
        return None;
    }
    Some(Cut { line, behind })
}
