//! Plays tables. A table is one text, which is taken apart when it runs: the prover doesn't look
//! into it, so that one more case costs no proof.
//!
//! A case begins with `== `, the word of what is played and a space. Then comes what is played, and
//! after a line `=>` what has to be told of it, line by line.

use crate::cases::{
    CALLERS, EXPIRIES, GRAPHS, KEPT, LIMITS, LOCATED, PICKS, SHUTDOWNS, STREAMS, WALKS,
};
use crate::{graphs, locating, picks, realms, streams, walks};
use cm_names::{Memory, Text};
use std::alloc::Global;
use std::test::Fail;

/// The cases that tell something else, or that can't be read: the line at which each begins, the
/// case, and what it tells.
pub fn odd_cases(alloc: Global, table: &str) -> Result<Text, Memory> {
    let mut odd = Text::new(alloc);
    let mut line: usize = 1;
    for case in table.split("== ") {
        push_if_odd(alloc, &mut odd, line, case)?;
        line = line.saturating_add(case.matches('\n').count());
    }
    Ok(odd)
}

/// Puts a case down that begins at this line, where it tells something else.
fn push_if_odd(alloc: Global, odd: &mut Text, line: usize, case: &str) -> Result<(), Memory> {
    if case.is_empty() {
        return Ok(());
    }
    match told_of(alloc, case) {
        Some(told) => push_if_else(odd, line, case, told.as_str()),
        None => odd.push(format_args!("line {line}: {case}nothing\n")),
    }
}

/// Puts a case down that tells this, where it should tell something else.
fn push_if_else(odd: &mut Text, line: usize, case: &str, told: &str) -> Result<(), Memory> {
    match case.split_once("\n=>\n") {
        Some((_, expected)) if told == expected => Ok(()),
        _ => odd.push(format_args!("line {line}: {case}{told}")),
    }
}

/// What a case tells, where it can be read.
fn told_of(alloc: Global, case: &str) -> Option<Text> {
    let (played, _) = case.split_once("\n=>\n")?;
    let (word, input) = played.split_once(' ')?;
    match word {
        "realm" => realms::told(alloc, input),
        "offer" => walks::told_of_offer(alloc, input),
        "use" => walks::told_of_use(alloc, input),
        "expose" => walks::told_of_expose(alloc, input),
        "locate" => locating::told(alloc, input),
        "graph" => graphs::told(alloc, input),
        "pick" => picks::told(alloc, input),
        "events" => streams::told(alloc, input),
        _ => None,
    }
}

/// The table of this number; empty above the last.
fn table_of(number: u8) -> &'static str {
    match number {
        0 => LIMITS,
        1 => CALLERS,
        2 => SHUTDOWNS,
        3 => EXPIRIES,
        4 => WALKS,
        5 => KEPT,
        6 => LOCATED,
        7 => GRAPHS,
        8 => PICKS,
        9 => STREAMS,
        _ => "",
    }
}

/// Each case of all tables is told as it says.
#[test]
fn cases_tell_what_they_should(rt: HostRuntime) -> Result<(), Fail> {
    for number in 0..10 {
        let odd = odd_cases(rt.alloc(), table_of(number))?;
        assert!(rt; odd.is_empty(), "table {number}: {odd}");
    }
    Ok(())
}

/// A table in which the second case is wrong, and those after it can't be read.
const WRONG: &str = "\
    == realm 9 99 shows the root\n\
    4 show 0\n\
    =>\n\
    1 4 show 0 => shown unresolved off\n\
    == realm 9 99 shows another root\n\
    4 show 0\n\
    =>\n\
    1 4 show 0 => shown resolved off\n\
    == realm 9 99 has no such step\n\
    4 shown 0\n\
    =>\n\
    1 4 show 0 => shown unresolved off\n\
    == realm 9 99 tells nothing\n\
    4 show 0\n";

/// What is told of that table.
const ODD: &str = "\
    line 5: realm 9 99 shows another root\n\
    4 show 0\n\
    =>\n\
    1 4 show 0 => shown resolved off\n\
    1 4 show 0 => shown unresolved off\n\
    line 9: realm 9 99 has no such step\n\
    4 shown 0\n\
    =>\n\
    1 4 show 0 => shown unresolved off\n\
    nothing\n\
    line 13: realm 9 99 tells nothing\n\
    4 show 0\n\
    nothing\n";

/// Whether this is told of the odd cases of a table.
fn is_told(alloc: Global, table: &str, wanted: &str) -> bool {
    match odd_cases(alloc, table) {
        Ok(odd) => odd.as_str() == wanted,
        Err(_) => false,
    }
}

/// The player finds a case that is told otherwise, and one that can't be read.
#[test]
fn finds_wrong_cases(rt: HostRuntime) {
    assert!(rt; is_told(rt.alloc(), WRONG, ODD));
    assert!(rt; is_told(rt.alloc(), "no case", "line 1: no casenothing\n"));
}
