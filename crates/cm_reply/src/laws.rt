//! How a journal grows and is read back, and texts that are written out.
//!
//! These functions do nothing, and no code calls them: what each of them promises is a fact about the
//! definitions in `specs/`, which its proof shows.

ghost use Rattle.cm_reply.specs.Laws as laws;
ghost use Rattle.cm_reply.specs.LinesInside.{EntriesReadOneWay};
ghost use Rattle.cm_reply.specs.EventWords.{EachIsTold};
ghost use Rattle.cm_reply.specs.Examples as examples;
ghost use Rattle.cm_reply.specs.Tables as tables;

/// A journal without entries is its header. With an entry more it is a line longer, and the lines
/// before stay as they are. So it can be written entry by entry.
pub fn journal_grows()
    ensures begins { laws.JournalBegins }
    ensures grows { laws.JournalGrows }
{}

/// A line of a journal tells of one entry at most.
pub fn entries_read_one_way()
    ensures { EntriesReadOneWay }
{}

/// Each event is told by its first word and what stands after it.
pub fn each_is_told()
    ensures { EachIsTold }
{}

/// A journal begins with `journal`, the builtin capabilities and the root. The eleven entries
/// that find a route in a new realm are written as eleven lines.
pub fn prints_journal()
    ensures header { examples.PrintsHeader }
    ensures entries { examples.PrintsEntries }
{}

/// Longer answers to commands, one of each shape. A refusal is written alike for each command.
pub fn prints_answers()
    ensures route { examples.PrintsRoute }
    ensures rights { examples.PrintsDirectory }
    ensures forced { examples.PrintsForced }
    ensures created { examples.PrintsCreated }
    ensures children { examples.PrintsChildren }
    ensures look { examples.PrintsLook }
    ensures survey { examples.PrintsSurvey }
    ensures doctor { examples.PrintsDoctor }
    ensures stream { examples.PrintsStream }
    ensures failure { examples.PrintsFailure }
{}

/// Tables of each refusal, reason, outcome, event and reply, and of the short answers.
pub fn prints_tables()
    ensures refusals { tables.PrintsRefusals }
    ensures reasons { tables.PrintsReasons }
    ensures outcomes { tables.PrintsOutcomes }
    ensures events { tables.PrintsEvents }
    ensures replies { tables.PrintsReplies }
    ensures short_answers { tables.PrintsShortAnswers }
{}
