//! Sessions over the links of a door in memory.

/// Lines by one byte, sides that fail, lines that are too long or no text, doors that fail at once, at the
/// first accept and after a session, or that close early; manifests that gates have, and one that they
/// fail to give; words that serve nothing.
pub const SERVING: &str = "\
    == $serve$\n\
    link one\n\
    piece 1\n\
    $asks$\n\
    => 0\n\
    entries 2\n\
    $shown-and-refused$\n\
    == $serve$ --sessions 2\n\
    link one\n\
    piece 1\n\
    write 2\n\
    $asks$\n\
    link other\n\
    $asks$\n\
    | show .\n\
    => 0\n\
    sent worker 0 write-faults 1\n\
    sent+ sh\n\
    $shown-and-refused$\n\
    == $serve$ --sessions 2\n\
    link one\n\
    piece 7\n\
    read 1\n\
    | show .\n\
    | foo\n\
    link other\n\
    | foo\n\
    + show .\n\
    => 0\n\
    sent worker 0 read-faults 1\n\
    $shown$\n\
    sent worker 0\n\
    sent refused 70 bad-command at 0\n\
    $shown$\n\
    == $serve$ --sessions 2\n\
    link one\n\
    fill 97 65537\n\
    | \n\
    | show .\n\
    link other\n\
    fill 255 3\n\
    | \n\
    fill 97 65536\n\
    | \n\
    => 0\n\
    sent worker 0\n\
    sent refused 75 line-too-long\n\
    $shown$\n\
    sent worker 0\n\
    sent refused 70 bad-command at 0\n\
    sent refused 70 bad-command at 0\n\
    == $serve$\n\
    door 0\n\
    link one\n\
    | show .\n\
    $no-door$\n\
    == $serve$\n\
    door 0\n\
    say 0\n\
    link one\n\
    | show .\n\
    => 5\n\
    door-faults 1\n\
    say-faults 1\n\
    entries 0\n\
    == $serve$\n\
    door 1\n\
    link one\n\
    | show .\n\
    $no-door$\n\
    == $serve$ --sessions 2\n\
    door 2\n\
    link one\n\
    | show .\n\
    link other\n\
    | show .\n\
    => 5\n\
    door-faults 1\n\
    entries 2\n\
    err door fault\n\
    sent worker 0\n\
    $shown$\n\
    == $serve$ --sessions 3\n\
    link one\n\
    | show .\n\
    $served$\n\
    == $serve$\n\
    link one\n\
    | show .\n\
    link other\n\
    | show .\n\
    $served$\n\
    == $serve$\n\
    link one\n\
    => 0\n\
    entries 0\n\
    sent worker 0\n\
    == $serve$\n\
    held @root 0\n\
    link one\n\
    | resolve .\n\
    | resolve logger\n\
    => 0\n\
    sent worker 0\n\
    sent resolved . action 1\n\
    sent refused 83 cannot-resolve action 2 absent\n\
    == $serve$\n\
    held @root 0\n\
    link one\n\
    | resolve .\n\
    | events . 0\n\
    | events . 4\n\
    | events logger 6\n\
    => 0\n\
    entries 9\n\
    sent worker 0\n\
    sent resolved . action 1\n\
    sent events . 1 next 4\n\
    sent   3 resolved . incarnation 0\n\
    sent events . 0 next 6\n\
    sent events logger 0 next 8\n\
    == $serve$\n\
    held @root 0\n\
    failing 0 0\n\
    link one\n\
    | resolve .\n\
    | resolve .\n\
    => 0\n\
    sent worker 0\n\
    sent refused 83 cannot-resolve action 1 gate-failed\n\
    sent resolved . action 2\n\
    == serve s --root fuchsia-pkg://t/a#meta/root.cm --repo r\n\
    link one\n\
    | quit\n\
    => 0\n\
    entries 0\n\
    sent worker 0\n\
    => 0\n\
    entries 0\n\
    sent worker 1\n\
    => 0\n\
    entries 0\n\
    sent worker 2\n\
    => 0\n\
    entries 0\n\
    sent worker 3\n\
    == serve s --root fuchsia-pkg://t/a#meta/root.cm --repo r --sessions 1 --workers 16\n\
    link one\n\
    | foo\n\
    => 0\n\
    entries 0\n\
    sent worker 0\n\
    sent refused 70 bad-command at 0\n\
    => 0\n\
    entries 0\n\
    sent worker 1\n\
    sent refused 70 bad-command at 0\n\
    => 0\n\
    entries 0\n\
    sent worker 2\n\
    sent refused 70 bad-command at 0\n\
    => 0\n\
    entries 0\n\
    sent worker 3\n\
    sent refused 70 bad-command at 0\n\
    => 0\n\
    entries 0\n\
    sent worker 4\n\
    sent refused 70 bad-command at 0\n\
    => 0\n\
    entries 0\n\
    sent worker 5\n\
    sent refused 70 bad-command at 0\n\
    => 0\n\
    entries 0\n\
    sent worker 6\n\
    sent refused 70 bad-command at 0\n\
    => 0\n\
    entries 0\n\
    sent worker 7\n\
    sent refused 70 bad-command at 0\n\
    => 0\n\
    entries 0\n\
    sent worker 8\n\
    sent refused 70 bad-command at 0\n\
    => 0\n\
    entries 0\n\
    sent worker 9\n\
    sent refused 70 bad-command at 0\n\
    => 0\n\
    entries 0\n\
    sent worker 10\n\
    sent refused 70 bad-command at 0\n\
    => 0\n\
    entries 0\n\
    sent worker 11\n\
    sent refused 70 bad-command at 0\n\
    => 0\n\
    entries 0\n\
    sent worker 12\n\
    sent refused 70 bad-command at 0\n\
    => 0\n\
    entries 0\n\
    sent worker 13\n\
    sent refused 70 bad-command at 0\n\
    => 0\n\
    entries 0\n\
    sent worker 14\n\
    sent refused 70 bad-command at 0\n\
    => 0\n\
    entries 0\n\
    sent worker 15\n\
    sent refused 70 bad-command at 0\n\
    == serve\n\
    $unserved$\n\
    == serve s\n\
    $unserved$\n\
    == serve s --root u\n\
    $unserved$\n\
    == serve s --repo r\n\
    $unserved$\n\
    == serve --root u --repo r\n\
    $unserved$\n\
    == serve s t --root u --repo r\n\
    $unserved$\n\
    == serve s --root fuchsia-pkg://t/a#meta/root.cm --repo r --sessions 0\n\
    $unserved$\n\
    == serve s --root fuchsia-pkg://t/a#meta/root.cm --repo r --sessions 4097\n\
    $unserved$\n\
    == serve s --root fuchsia-pkg://t/a#meta/root.cm --repo r --sessions -1\n\
    $unserved$\n\
    == serve s --root fuchsia-pkg://t/a#meta/root.cm --repo r --sessions x\n\
    $unserved$\n\
    == serve s --root fuchsia-pkg://t/a#meta/root.cm --repo r --workers 0\n\
    $unserved$\n\
    == serve s --root fuchsia-pkg://t/a#meta/root.cm --repo r --workers 17\n\
    $unserved$\n\
    == serve s --root fuchsia-pkg://t/a#meta/root.cm --repo r --workers\n\
    $unserved$\n\
    == serve s --root fuchsia-pkg://t/a#meta/root.cm --repo r --journal\n\
    $unserved$\n\
    == serve --help\n\
    $unserved$\n\
    == serve s --root fuchsia-pkg://t/a#meta/root.cm --repo r --sessions 4096 --workers 16\n\
    door 0\n\
    $no-door$\n\
    == run\n\
    @root-line\n\
    | 0 show .\n\
    link one\n\
    => 0\n\
    entries 2\n\
    out 0 shown . incarnation 0 url fuchsia-pkg://t/a#meta/root.cm unresolved off\n";
