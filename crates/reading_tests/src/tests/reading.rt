//! The tables of the readers, played one after another.

use super::cases;
use super::player::odd_cases;
use cm_command::ScriptNumber;
use std::test::Fail;

/// The table of this number; empty above the last.
fn table_of(number: u8) -> &'static str {
    match number {
        0 => cases::NAMES,
        1 => cases::MONIKERS,
        2 => cases::RIGHTS,
        3 => cases::RELAXED,
        4 => cases::URLS,
        5 => cases::COMMANDS,
        6 => cases::LARGE,
        _ => "",
    }
}

/// Each case of all tables is told as it says.
#[test]
fn readers_tell_what_they_should(rt: HostRuntime) -> Result<(), Fail> {
    for number in 0..7 {
        let odd = odd_cases(rt.alloc(), table_of(number))?;
        assert!(rt; odd.is_empty(), "table {number}: {odd}");
    }
    Ok(())
}

/// A script's fault has its number and its word.
#[test]
fn numbers_script_faults(rt: HostRuntime) {
    let number = ScriptNumber::LineTooLong;
    assert!(rt; number.number() == 75 && number.word() == "line-too-long");
}
