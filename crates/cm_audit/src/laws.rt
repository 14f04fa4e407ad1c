//! Laws of verdicts.
//!
//! These functions do nothing, and no code calls them: what each of them promises is a fact about
//! journals, which its proof shows.

ghost use Rattle.cm_audit.specs.Laws.{PrefixesTell, IncarnationsFit, OneVerdict};
ghost use Rattle.cm_audit.specs.Laws.{TextsTellReplies};

/// A text has one verdict at most, so that [`audit`](crate::audit) is the only one that it can have.
pub fn one_verdict()
    ensures { OneVerdict }
{}

/// Of the replies that an event may get after a legal history no two are written alike. So a journal
/// tells one history, though it has the texts of replies alone.
pub fn texts_tell_replies()
    ensures { TextsTellReplies }
{}

/// The verdict on a prefix of a text which has more bytes than a journal may have is the verdict on the
/// whole, so that no more need be read.
pub fn prefixes_tell()
    ensures { PrefixesTell }
{}

/// The incarnations of all instances have 64 bits, after every legal history.
pub fn incarnations_fit()
    ensures { IncarnationsFit }
{}
