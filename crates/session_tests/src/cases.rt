//! Sessions over a link in memory, each with a new manager of a new realm.
//!
//! A case begins with `== `, how many entries the history takes, how many bytes one read or write of
//! the link moves at most, its read and its write that fail, or `-` for none, and `both` where the
//! manifests of the root and of its child `x` are there. Then comes what the link gives, and after a
//! line feed and `=> ` the end, on a line of its own, with what was written. Another line feed may stand
//! after that.

/// Lines by one byte, ends by `quit`, at the last byte and by a fault. Nothing after `quit` is served,
/// and the last line needs no line feed. What is nearly `quit`, an empty line and a comment are no
/// commands. The lines of a session are one caller's, in order.
pub const ENDS: &str = "\
    == 4194304 65536 - - none\n\
    \n\
    => End\n\
    == 4194304 1 - - none\n\
    show .\n\
    foo\n\
    quit\n\
    \n\
    => Quit\n\
    shown . incarnation 0 url fuchsia-pkg://t/a#meta/root.cm unresolved off\n\
    refused 70 bad-command at 0\n\
    == 4194304 65536 - - none\n\
    quit\n\
    show .\n\
    \n\
    => Quit\n\
    == 4194304 65536 - - none\n\
    show .\n\
    quit\n\
    => Quit\n\
    shown . incarnation 0 url fuchsia-pkg://t/a#meta/root.cm unresolved off\n\
    == 4194304 65536 - - none\n\
    foo\n\
    show .\n\
    => End\n\
    refused 70 bad-command at 0\n\
    shown . incarnation 0 url fuchsia-pkg://t/a#meta/root.cm unresolved off\n\
    == 4194304 65536 - - none\n\
    quit \n\
    quit\r\n\
    \n\
    # show .\n\
    show . x\n\
    quit\n\
    \n\
    => Quit\n\
    refused 70 bad-command at 0\n\
    refused 70 bad-command at 0\n\
    refused 70 bad-command at 0\n\
    refused 70 bad-command at 0\n\
    refused 70 bad-command at 6\n\
    == 4194304 1 - 2 none\n\
    show .\n\
    foo\n\
    quit\n\
    \n\
    => WriteFault\n\
    sh\n\
    == 4194304 7 1 - none\n\
    show .\n\
    foo\n\
    \n\
    => ReadFault\n\
    shown . incarnation 0 url fuchsia-pkg://t/a#meta/root.cm unresolved off\n\
    == 4194304 6 1 - none\n\
    foo\n\
    show .\n\
    \n\
    => ReadFault\n\
    refused 70 bad-command at 0\n\
    == 4194304 65536 - - none\n\
    resolve .\n\
    resolve .\n\
    show .\n\
    \n\
    => End\n\
    refused 83 cannot-resolve action 1 absent\n\
    refused 83 cannot-resolve action 2 absent\n\
    shown . incarnation 0 url fuchsia-pkg://t/a#meta/root.cm unresolved off\n";

/// Stops whose history becomes full: what went with the instance stays marked to be destroyed, and is
/// removed as far as there is room. Up to the end of the root's stop the lines make 17 entries; then come
/// one for what goes with the root, four until the child is shut, and one for its removal. Each of the
/// three picks asks for room for two entries. A row has how many entries the history takes, and what the
/// last three lines of `STOP` are answered.
pub const LIMITS: &str = "\
    17 full full full\n\
    18 full full full\n\
    19 full gone full\n\
    20 full full full\n\
    21 full gone full\n\
    22 full gone full\n\
    23 stopped full full\n\
    24 stopped gone full\n";

/// The case of a stop, after the number of entries and up to what its last three lines are answered.
pub const STOP: &str = "\
    65536 - - both\n\
    start .\n\
    create . coll x #meta/x.cm\n\
    start coll:x\n\
    stop .\n\
    show @1\n\
    show @1\n\
    \n\
    => End\n\
    started . action 2\n\
    created . coll:x incarnation 1\n\
    started coll:x action 4\n";

/// The answer that a word of a row stands for.
pub fn answer_of(word: &str) -> Option<&'static str> {
    match word {
        "full" => Some("refused 69 history-full"),
        "gone" => Some("refused 81 gone incarnation 1"),
        "stopped" => Some("stopped . action 5"),
        _ => None,
    }
}
