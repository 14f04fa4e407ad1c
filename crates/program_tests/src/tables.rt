//! The tables of runs, each of which is played as a whole.

mod audits;
mod checks;
mod commands;
mod examples;
mod gates;
mod generated;
mod histories;
mod journals;
mod judged;
mod outside;
mod reading;
mod realms;
mod refusals;
mod reports;
mod routes;
mod serving;

use program_player::odd_cases;
use std::alloc::Global;
use std::sync::Wait;
use std::test::Fail;
use std::thread::Threads;

/// The tables of runs, but for the large ones.
fn table_of(number: u8) -> &'static str {
    match number {
        0 => routes::ROUTES,
        1 => realms::REALMS,
        2 => refusals::REFUSALS,
        3 => checks::CHECKS,
        4 => outside::OUTSIDE,
        5 => gates::GATES,
        6 => generated::GENERATED,
        7 => reading::MANIFESTS,
        8 => reading::VALID,
        9 => reading::FIELDS,
        10 => reading::FIRST_BY_NUMBER,
        11 => reading::LIMITS,
        12 => reading::WRITTEN,
        13 => commands::SCRIPTS,
        14 => commands::COMMANDS,
        15 => commands::PIECES,
        16 => commands::SESSIONS,
        17 => journals::STOPS,
        18 => journals::CREATES,
        19 => gates::PLANS,
        20 => histories::HISTORIES,
        21 => routes::RIGHTS,
        22 => routes::AVAILABILITY,
        23 => serving::SERVING,
        24 => examples::EXAMPLES,
        25 => examples::REALISTIC,
        26 => audits::AUDITS,
        27 => audits::ENTRIES,
        28 => audits::PICKS,
        29 => audits::AGAIN,
        30 => judged::JUDGED,
        31 => reports::REPORTS,
        _ => "",
    }
}

/// Each case of all tables comes to one of its ends.
#[test]
fn runs_come_to_their_ends(rt: HostRuntime) -> Result<(), Fail> {
    for number in 0..32 {
        let odd = odd_cases(&rt, rt.alloc(), table_of(number))?;
        assert!(rt; odd.is_empty(), "table {number}: {odd}");
    }
    Ok(())
}

/// Scripts above the limits of size are refused, as their cases say.
#[test]
fn the_largest_scripts_are_refused(rt: HostRuntime) -> Result<(), Fail> {
    let odd = odd_cases(&rt, rt.alloc(), refusals::LARGEST)?;
    assert!(rt; odd.is_empty(), "{odd}");
    Ok(())
}

/// Large generated workloads come to the ends that their cases say.
#[test]
fn large_workloads_run(rt: HostRuntime) -> Result<(), Fail> {
    let odd = odd_cases(&rt, rt.alloc(), generated::LARGE)?;
    assert!(rt; odd.is_empty(), "{odd}");
    Ok(())
}

/// A table in which the second case is wrong, and those after it can't be read.
const WRONG: &str = "\
    == serve\n\
    => 2\n\
    err usage: run, check, serve, audit, generate, environments, storage\n\
    == run x\n\
    => 0\n\
    => 2\n\
    err usage\n\
    == serve\n\
    peace 1\n\
    => 2\n\
    == serve\n\
    => two\n";

/// What is told of that table.
const ODD: &str = "\
    line 4: run x\n\
    => 0\n\
    => 2\n\
    err usage\n\
    status 2, 0 entries\n\
    faults: read 0, write 0, say 0, door 0\n\
    usage: run, check, serve, audit, generate, environments, storage\n\
    line 8: serve\n\
    peace 1\n\
    => 2\n\
    can't be read\n\
    line 11: serve\n\
    => two\n\
    can't be read\n";

/// Whether playing the table tells exactly this of the cases that come to something else than they say,
/// or can't be read.
fn is_told<R: Threads + Wait + Sync>(rt: &R, alloc: Global, table: &str, wanted: &str) -> bool {
    match odd_cases(rt, alloc, table) {
        Ok(odd) => odd.as_str() == wanted,
        Err(_) => false,
    }
}

/// The player finds a case that comes to something else, and one that can't be read.
#[test]
fn wrong_cases_are_found(rt: HostRuntime) {
    assert!(rt; is_told(&rt, rt.alloc(), WRONG, ODD));
    assert!(rt; is_told(&rt, rt.alloc(), "run\n", "line 1: run\ncan't be read\n"));
}
