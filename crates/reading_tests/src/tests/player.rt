//! Plays tables. A table is one text, which is taken apart when it runs: the prover doesn't look
//! into it, so that one more case costs no proof.
//!
//! A case begins with `== `, the word of its reader and a space. Then comes what is read, which may
//! have several lines, and after `=> ` at the head of a line what is told of it.

use super::readers::told;
use cm_names::{Memory, Text};
use std::alloc::Global;
use std::test::Fail;

/// The cases that tell something else, or that can't be read: each, and after it what it tells.
pub fn odd_cases(alloc: Global, table: &str) -> Result<Text, Memory> {
    let mut odd = Text::new(alloc);
    for case in table.split("== ") {
        if !case.is_empty() {
            push_if_odd(alloc, &mut odd, case)?;
        }
    }
    Ok(odd)
}

/// Puts a case down, where it isn't as its reader tells it.
fn push_if_odd(alloc: Global, odd: &mut Text, case: &str) -> Result<(), Memory> {
    match retold(alloc, case) {
        Some(again) => push_if_else(odd, case, again.as_str()),
        None => odd.push(format_args!("== {case}can't be read\n")),
    }
}

/// Adds a case to the odd ones, where it is told otherwise now.
fn push_if_else(odd: &mut Text, case: &str, again: &str) -> Result<(), Memory> {
    if case == again {
        return Ok(());
    }
    odd.push(format_args!("== {case}is told as\n{again}"))
}

/// A case as its reader tells it, where it can be read.
fn retold(alloc: Global, case: &str) -> Option<Text> {
    let (read, _) = case.split_once("\n=> ")?;
    let (reader, input) = read.split_once(' ')?;
    match told(alloc, reader, input) {
        Some(told) => written(alloc, read, told.as_str()),
        None => None,
    }
}

/// A case as its table has it: what is read, and after an arrow what is told of it.
fn written(alloc: Global, read: &str, told: &str) -> Option<Text> {
    let mut case = Text::new(alloc);
    case.push(format_args!("{read}\n=> {told}\n")).ok()?;
    Some(case)
}

/// A table in which the second case is wrong, and the third and the fourth can't be read.
const WRONG: &str = "\
    == name a\n\
    => a\n\
    == name b\n\
    => c\n\
    == nome d\n\
    => d\n\
    == name e\n\
    == name f\n\
    => f\n";

/// What is told of that table.
const ODD: &str = "\
    == name b\n\
    => c\n\
    is told as\n\
    name b\n\
    => b\n\
    == nome d\n\
    => d\n\
    can't be read\n\
    == name e\n\
    can't be read\n";

/// The player finds a case that is told otherwise, and one that can't be read.
#[test]
fn finds_wrong_cases(rt: HostRuntime) -> Result<(), Fail> {
    let odd = odd_cases(rt.alloc(), WRONG)?;
    assert!(rt; odd.as_str() == ODD, "{odd}");
    let odd = odd_cases(rt.alloc(), "no case")?;
    assert!(rt; odd.as_str() == "== no casecan't be read\n", "{odd}");
    Ok(())
}
