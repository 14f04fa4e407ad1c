//! Laws of what a cache and a history keep.
//!
//! These functions do nothing, and no code calls them: what each of them promises is a fact about the
//! definitions in `specs/`, which its proof shows.

ghost use Rattle.cm_cache.specs.Laws as laws;
ghost use Rattle.cm_cache.specs.Steps as steps;

/// After a put a cache keeps the answer that was put for its use, and for each other use what it
/// kept before, or nothing where it was emptied first.
pub fn what_is_put_is_kept()
    ensures { laws.WhatIsPutIsKept }
{}

/// A history keeps the answers to one list of uses, and has one number of answers that were there.
pub fn histories_keep_once()
    ensures { laws.HistoriesKeepOnce }
{}

/// Each legal history keeps some, where the trees on the way are orderly, as all trees of legal
/// histories are.
pub fn histories_keep()
    ensures { laws.HistoriesKeep }
{}

/// An entry more changes what is kept by itself alone.
pub fn keeping_goes_on()
    ensures { laws.KeepingGoesOn }
{}

/// At most 16,384 answers are kept, and no more answers were there than entries.
pub fn kept_are_few()
    ensures { laws.KeptAreFew }
{}

/// A walk reads of an instance where it stands, its declaration and what it was given, and whether
/// it is being destroyed; it doesn't read whether it runs, has a pending action, is closing or is
/// shut.
pub fn walks_read_bare_rows()
    ensures { laws.WalksReadBareRows }
{}

/// An entry that doesn't empty what is kept changes nothing else of any instance, so each walk
/// comes to what it came to before.
pub fn walks_stay()
    ensures bare { laws.BareRowsStay }
    ensures walks { laws.WalksStay }
{}

/// A cache keeps an answer exactly for the uses of its answers, and an answer that is put in for a new use
/// adds that use to them as a history does.
pub fn caches_follow()
    ensures uses { laws.UsesAreKept }
    ensures puts { laws.PutsAddUses }
{}

/// Answers that are those of the walks in a tree stay so after a put of another walk's answer, and
/// after each entry that doesn't empty what is kept.
pub fn answers_stay_right()
    ensures answers { laws.RightAnswers }
    ensures puts { laws.PutsStayRight }
    ensures stays { laws.AnswersStayRight }
{}

/// What is kept beside a history: nothing beside the empty one; each answer is that of its walk in
/// the tree that the history leaves; and the number is the history's, at most that of its entries.
pub fn kept_beside()
    ensures first { steps.NothingAtFirst }
    ensures right { steps.BesideIsRight }
    ensures number { steps.BesideIsNumber }
    ensures few { steps.BesideIsFew }
{}

/// What is kept beside a history goes on with an entry more: one that asks for a use counts the
/// answer that is kept, or keeps the new one if it lasts; any other empties what is kept, where it
/// changes what walks read, and else leaves it.
pub fn keepers_go_on()
    ensures asked { steps.AskedGoOn }
    ensures kept { steps.KeptAreFound }
    ensures new { steps.NewAreFound }
    ensures unasked { steps.UnaskedGoOn }
{}

/// Which entries doom an instance: a mark to be destroyed does; an exit does, and an end that
/// stopped its instance, where some row goes with it; of any other entry that counts only where it
/// empties what is kept anyway.
pub fn entries_that_doom()
    ensures others { steps.OthersDoomNone }
    ensures marks { steps.MarksDoom }
    ensures exits { steps.ExitsDoom }
    ensures ends { steps.EndsDoom }
{}
