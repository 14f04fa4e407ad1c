//! Lanes whose fetches have to meet.

use program_player::odd_meeting;

/// The script whose two fetches have to meet: the root is in the script, its children aren't. Either
/// lane may begin its action first.
const BOTH: &str = "\
    run\n\
    @root\n\
    @root-line\n\
    | 0 resolve logger\n\
    | 1 resolve client\n\
    held @logger 0\n\
    held @client 0\n\
    => 0\n\
    out 0 resolved logger action 2\n\
    out 1 resolved client action 3\n\
    told faults 0\n\
    => 0\n\
    out 0 resolved logger action 3\n\
    out 1 resolved client action 2\n\
    told faults 0";

/// A fetch that no other meets.
const ONE: &str = "\
    run\n\
    @root\n\
    @root-line\n\
    | 0 resolve logger\n\
    held @logger 0\n\
    => 0\n\
    out 0 refused 83 cannot-resolve action 2 gate-failed\n\
    told faults 1";

/// Two lanes whose fetches wait for each other both go on, and what comes of the run is one of the
/// cases' ends.
#[test]
fn lanes_meet(rt: HostRuntime) {
    for case in [BOTH, ONE] {
        let odd = odd_meeting(&rt, rt.alloc(), case);
        assert!(rt; odd.is_some_and(|odd| odd.is_none()), "{case}");
    }
}
