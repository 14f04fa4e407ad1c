//! Journals are kept whole, or not at all.

use crate::{KeepFault, MemoryKeeper, TextKeeper, keep_journal};
use cm_names::Text;
use cm_world::{Entry, Event, Reply};
use std::alloc::Global;
use std::test::Fail;

/// The URL of the root.
const ROOT: &str = "fuchsia-pkg://t/a#meta/root.cm";

/// The number of a call that never comes, so that none fails.
const NEVER: u64 = u64::MAX;

/// A history of so many entries, which are all alike.
fn history(alloc: Global, count: usize) -> Result<Vec<Entry>, Fail> {
    let mut entries = Vec::new(alloc);
    for _ in 0..count {
        entries.push(Entry {
            caller: 3,
            event: Event::Show(7),
            reply: Reply::Gone(7),
        })?;
    }
    Ok(entries)
}

/// The journal of the history of so many entries.
fn journal(alloc: Global, count: usize) -> Result<String, Fail> {
    let mut text = String::new(alloc);
    text.write(format_args!("journal\nroot {ROOT}\n"))?;
    for number in 1..=count {
        text.write(format_args!("{number} 3 show 7 => gone 7\n"))?;
    }
    Ok(text)
}

/// Keeps the journal of a history of so many entries by that keeper, and answers what came of it.
fn keep(
    alloc: Global,
    keeper: &mut MemoryKeeper,
    count: usize,
) -> Result<Result<(), KeepFault>, Fail>
    requires { ⟦<MemoryKeeper as TextKeeper>⟧.pending keeper.old }
{
    let entries = history(alloc, count)?;
    let root = Text::from_str(alloc, ROOT)?;
    Ok(keep_journal(alloc, keeper, &root, entries.as_slice()))
}

/// Whether its journal stands in the place, and nothing else.
fn is_kept(alloc: Global, keeper: &MemoryKeeper, count: usize) -> Result<bool, Fail> {
    let text = journal(alloc, count)?;
    match keeper.shown() {
        [shown] => Ok(shown.as_slice() == text.as_str().as_bytes()),
        _ => Ok(false),
    }
}

/// The journals of short histories are kept in one piece.
#[test]
fn keeps_short_ones(rt: HostRuntime) -> Result<(), Fail> {
    for count in 0..4 {
        let mut keeper = MemoryKeeper::new(rt.alloc(), NEVER);
        let kept = keep(rt.alloc(), &mut keeper, count)?;
        let same = is_kept(rt.alloc(), &keeper, count)?;
        assert!(rt; kept.is_ok() && same && keeper.calls() == 2);
    }
    Ok(())
}

/// The journal of a long history is handed over in several pieces, and kept as a whole.
#[test]
fn keeps_long_ones_in_pieces(rt: HostRuntime) -> Result<(), Fail> {
    let mut keeper = MemoryKeeper::new(rt.alloc(), NEVER);
    let kept = keep(rt.alloc(), &mut keeper, 9_000)?;
    let same = is_kept(rt.alloc(), &keeper, 9_000)?;
    assert!(rt; kept.is_ok() && same && keeper.calls() > 4);
    Ok(())
}

/// Whichever call fails, nothing is shown, and the fault is told.
#[test]
fn keeps_nothing_of_what_fails(rt: HostRuntime) -> Result<(), Fail> {
    for failing in 0..5 {
        let mut keeper = MemoryKeeper::new(rt.alloc(), failing);
        let kept = keep(rt.alloc(), &mut keeper, 9_000)?;
        let nothing = keeper.shown().is_empty();
        assert!(rt; kept == Err(KeepFault::Failed) && nothing && keeper.calls() == failing + 1);
        // The last call is the one that puts the text into the place: then all of it is held.
        assert!(rt; (keeper.held() == 0) == (failing < 4), "{failing}");
    }
    Ok(())
}
