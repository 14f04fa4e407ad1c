//! What scripts and the lines of links are read as, however their bytes come.

/// Scripts: their first fault, or what they have.
pub const SCRIPTS: &str = "\
    == run\n\
    => 7\n\
    err line 1: 72 no-root\n\
    == run\n\
    | root a\n\
    + route client /a\n\
    => 7\n\
    err line 2: 71 bad-lane\n\
    == run\n\
    | root a\n\
    + 0 route client\n\
    => 7\n\
    err line 2: 70 bad-command at 14\n\
    == run\n\
    + 16 show .\n\
    => 7\n\
    err line 1: 74 too-many-lanes\n\
    == run\n\
    | 99999999999999999999999 show .\n\
    => 7\n\
    err line 1: 74 too-many-lanes\n\
    == run\n\
    + 0 nonsense\n\
    => 7\n\
    err line 1: 72 no-root\n\
    == run\n\
    | root a\n\
    | \n\
    | manifest a\n\
    | %\n\
    => 7\n\
    err line 3: 73 unclosed-manifest\n\
    == run\n\
    | #\n\
    | sync\n\
    + root a\n\
    => 7\n\
    err line 2: 72 no-root\n\
    == run\n\
    | root a\n\
    + root b\n\
    => 7\n\
    err line 2: 70 bad-command at 0\n\
    == run\n\
    + root  a\n\
    => 7\n\
    err line 1: 70 bad-command at 5\n\
    == run\n\
    | builtin protocol p\n\
    + builtin protocol p\n\
    => 7\n\
    err line 2: 70 bad-command at 0\n\
    == run\n\
    | root a\n\
    | 0 show .\n\
    + manifest\n\
    => 7\n\
    err line 3: 71 bad-lane\n\
    == run\n\
    | root a\n\
    | 0 show .\n\
    + manifest x y\n\
    => 7\n\
    err line 3: 70 bad-command at 0\n\
    == run\n\
    + builtin directory d /d r*,r*\n\
    => 7\n\
    err line 1: 70 bad-command at 27\n\
    == run\n\
    | manifest a b\n\
    | %%\n\
    + root a\n\
    => 7\n\
    err line 1: 70 bad-command at 10\n\
    == run\n\
    | root a\n\
    | sync\n\
    + root a\n\
    => 7\n\
    err line 3: 70 bad-command at 0\n\
    == run\n\
    | root a\n\
    + 00 show .\n\
    => 7\n\
    err line 2: 71 bad-lane\n\
    == run\n\
    | root a\n\
    + 0 exited @18446744073709551616\n\
    => 7\n\
    err line 2: 70 bad-command at 29\n\
    == run\n\
    + #\n\
    fill 120 65535\n\
    | \n\
    | root a\n\
    => 0\n\
    == run\n\
    + #\n\
    fill 120 65536\n\
    | \n\
    | root a\n\
    => 7\n\
    err line 1: 75 line-too-long\n\
    == run --journal\n\
    | # x\n\
    | \n\
    | manifest a:b#c\n\
    | {\n\
    | }\n\
    | %%\n\
    | builtin protocol p\n\
    | builtin directory p /d r*\n\
    | root a:b#c\n\
    | 0 show .\n\
    | sync\n\
    + 15 show .\n\
    => 0\n\
    out 0 shown . incarnation 0 url a:b#c unresolved off\n\
    out 15 shown . incarnation 0 url a:b#c unresolved off\n\
    out journal\n\
    out builtin protocol p\n\
    out builtin directory p /d connect,enumerate,get_attributes,read_bytes,traverse\n\
    out root a:b#c\n\
    out 1 0 find . => found 0\n\
    out 2 0 show 0 => shown unresolved off\n\
    out 3 15 find . => found 0\n\
    out 4 15 show 0 => shown unresolved off\n\
    == run --journal\n\
    | # x\n\
    | \n\
    | manifest a:b#c\n\
    | {\n\
    | }\n\
    | %%\n\
    | builtin protocol p\n\
    | builtin directory p /d r*\n\
    | root a:b#c\n\
    | 15 resolve .\n\
    => 0\n\
    out 15 resolved . action 1\n\
    out journal\n\
    out builtin protocol p\n\
    out builtin directory p /d connect,enumerate,get_attributes,read_bytes,traverse\n\
    out root a:b#c\n\
    out 1 15 find . => found 0\n\
    out 2 15 begin resolve 0 => begun 1\n\
    out 3 15 end 1 resolved a:b#c {\"capabilities\":[],\"children\":[],\"collections\":[],\"expose\":[],\
    \"offer\":[],\"use\":[]} => ended resolved\n\
    == run\n\
    | # x\n\
    | \n\
    | manifest a:b\n\
    | {\n\
    | }\n\
    | %%\n\
    | root a:b#c\n\
    => 7\n\
    err line 3: 77 bad-manifest-url\n\
    == run\n\
    + #\n\
    fill 255 1\n\
    | \n\
    | manifest a\n\
    fill 255 1\n\
    | \n\
    | %%\n\
    | root a\n\
    => 7\n\
    err line 2: 77 bad-manifest-url\n\
    == run\n\
    + #\n\
    fill 255 1\n\
    | \n\
    | manifest a:b#c\n\
    fill 255 1\n\
    | \n\
    | %%\n\
    | root a:b#c\n\
    | 0 resolve .\n\
    => 0\n\
    out 0 refused 83 cannot-resolve action 1 invalid 30 manifest 0\n";

/// Lines that are no commands, and the place up to which some command goes so.
pub const COMMANDS: &str = "\
    == $serve$\n\
    link one\n\
    | \n\
    | x\n\
    | start\n\
    | start ..\n\
    | start a/\n\
    | startx\n\
    | openx\n\
    | open-exposed\n\
    | open . /a/.\n\
    | open . /a/./b\n\
    | open . /a//b\n\
    | open .  /a\n\
    | start a \n\
    | start @18446744073709551616\n\
    | start @00\n\
    + start \n\
    fill 195 1\n\
    fill 169 1\n\
    | \n\
    | create . c n u + p\n\
    | create . c n u + protocol n parent rights=r*\n\
    | create . c n u + directory n parent rights=connect,connec\n\
    | create . c n u + directory n #a:b:c weak as=x\n\
    | create . c n u + directory n parent weak as=x\n\
    | create . c n u weak\n\
    | create . c n u + protocol n parent transitionalx\n\
    | create . c n u + protocol n parent same_as_targets\n\
    | create . c n u + protocol n parent s\n\
    | create . c n u + protocol n parent su\n\
    | create . c n u + directory n parent su\n\
    | create . c n u + protocol n parent optional transitional\n\
    | events .\n\
    | events . \n\
    | events . x\n\
    | events . 01\n\
    | events . 1 \n\
    | events . 18446744073709551616\n\
    | start @\n\
    | start a:\n\
    | show .\r\n\
    + start \n\
    fill 255 1\n\
    | \n\
    + open . /\n\
    fill 195 1\n\
    | \n\
    + list . \n\
    fill 97 256\n\
    | \n\
    + open . /\n\
    fill 97 4096\n\
    | \n\
    + open . /\n\
    fill 97 4093\n\
    | /.\n\
    + create . c n \n\
    fill 97 4097\n\
    | \n\
    => 0\n\
    entries 0\n\
    sent worker 0\n\
    sent refused 70 bad-command at 0\n\
    sent refused 70 bad-command at 0\n\
    sent refused 70 bad-command at 5\n\
    sent refused 70 bad-command at 7\n\
    sent refused 70 bad-command at 8\n\
    sent refused 70 bad-command at 5\n\
    sent refused 70 bad-command at 4\n\
    sent refused 70 bad-command at 12\n\
    sent refused 70 bad-command at 11\n\
    sent refused 70 bad-command at 11\n\
    sent refused 70 bad-command at 10\n\
    sent refused 70 bad-command at 7\n\
    sent refused 70 bad-command at 7\n\
    sent refused 70 bad-command at 26\n\
    sent refused 70 bad-command at 8\n\
    sent refused 70 bad-command at 6\n\
    sent refused 70 bad-command at 18\n\
    sent refused 70 bad-command at 35\n\
    sent refused 70 bad-command at 51\n\
    sent refused 70 bad-command at 33\n\
    sent refused 70 bad-command at 41\n\
    sent refused 70 bad-command at 15\n\
    sent refused 70 bad-command at 47\n\
    sent refused 70 bad-command at 49\n\
    sent refused 70 bad-command at 36\n\
    sent refused 70 bad-command at 36\n\
    sent refused 70 bad-command at 38\n\
    sent refused 70 bad-command at 44\n\
    sent refused 70 bad-command at 8\n\
    sent refused 70 bad-command at 9\n\
    sent refused 70 bad-command at 9\n\
    sent refused 70 bad-command at 10\n\
    sent refused 70 bad-command at 10\n\
    sent refused 70 bad-command at 28\n\
    sent refused 70 bad-command at 7\n\
    sent refused 70 bad-command at 8\n\
    sent refused 70 bad-command at 6\n\
    sent refused 70 bad-command at 6\n\
    sent refused 70 bad-command at 8\n\
    sent refused 70 bad-command at 262\n\
    sent refused 70 bad-command at 4103\n\
    sent refused 70 bad-command at 4102\n\
    sent refused 70 bad-command at 4109\n";

/// Bytes that come or go a few at once, until a read or a write fails: an answer, a manifest, and the lines
/// of a link.
pub const PIECES: &str = "\
    == run\n\
    piece 1\n\
    @root-line\n\
    | 0 show @1\n\
    => 0\n\
    out 0 refused 81 gone incarnation 1\n\
    == run\n\
    piece 2\n\
    @root-line\n\
    | 0 show @1\n\
    => 0\n\
    out 0 refused 81 gone incarnation 1\n\
    == run\n\
    piece 7\n\
    @root-line\n\
    | 0 show @1\n\
    => 0\n\
    out 0 refused 81 gone incarnation 1\n\
    == run\n\
    piece 1\n\
    write 3\n\
    @root-line\n\
    | 0 show @1\n\
    => 4\n\
    write-faults 1\n\
    out+ 0 r\n\
    == run\n\
    piece 2\n\
    write 3\n\
    @root-line\n\
    | 0 show @1\n\
    => 4\n\
    write-faults 1\n\
    out+ 0 refu\n\
    == run\n\
    piece 7\n\
    write 2\n\
    @root-line\n\
    | 0 show @1\n\
    => 4\n\
    write-faults 1\n\
    out+ 0 refused 81 g\n\
    == check\n\
    piece 1\n\
    + {facets:1}\n\
    => 0\n\
    out valid\n\
    == check\n\
    piece 2\n\
    + {facets:1}\n\
    => 0\n\
    out valid\n\
    == check\n\
    piece 7\n\
    + {facets:1}\n\
    => 0\n\
    out valid\n\
    == check\n\
    piece 0\n\
    + {facets:1}\n\
    => 0\n\
    out valid\n\
    == check\n\
    piece 2\n\
    read 9\n\
    + {facets:1}\n\
    => 0\n\
    out valid\n\
    == check\n\
    piece 2\n\
    read 3\n\
    + {facets:1}\n\
    => 3\n\
    read-faults 1\n\
    err read fault\n\
    == check\n\
    piece 1\n\
    + {}\n\
    fill 32 1048600\n\
    => 1\n\
    out invalid 41 manifest 0\n\
    == check\n\
    piece 7\n\
    + {}\n\
    fill 32 1048600\n\
    => 1\n\
    out invalid 41 manifest 0\n\
    == $serve$\n\
    link one\n\
    piece 1\n\
    $lines$\n\
    => 0\n\
    $answers$\n\
    == $serve$\n\
    link one\n\
    piece 2\n\
    $lines$\n\
    => 0\n\
    $answers$\n\
    == $serve$\n\
    link one\n\
    piece 7\n\
    $lines$\n\
    => 0\n\
    $answers$\n\
    == $serve$\n\
    link one\n\
    piece 7\n\
    | show @1\n\
    | show @2\n\
    => 0\n\
    sent worker 0\n\
    sent refused 81 gone incarnation 1\n\
    sent refused 81 gone incarnation 2\n\
    == $serve$\n\
    link one\n\
    piece 7\n\
    | \n\
    => 0\n\
    sent worker 0\n\
    sent refused 70 bad-command at 0\n\
    == $serve$\n\
    link one\n\
    piece 7\n\
    => 0\n\
    sent worker 0\n\
    == $serve$\n\
    link one\n\
    piece 1\n\
    read 11\n\
    $first-line$\n\
    == $serve$\n\
    link one\n\
    piece 2\n\
    read 6\n\
    $first-line$\n\
    == $serve$\n\
    link one\n\
    piece 7\n\
    read 2\n\
    $first-line$\n\
    == $serve$\n\
    link one\n\
    piece 8\n\
    read 1\n\
    $first-line$\n\
    == $serve$\n\
    link one\n\
    piece 7\n\
    $long-lines$\n\
    == $serve$\n\
    link one\n\
    $long-lines$\n\
    == $serve$\n\
    link one\n\
    piece 7\n\
    write 1\n\
    $lines$\n\
    => 0\n\
    sent worker 0 write-faults 1\n\
    sent+ refused\n\
    == $serve$\n\
    link one\n\
    piece 7\n\
    write 0\n\
    $lines$\n\
    => 0\n\
    sent worker 0 write-faults 1\n\
    == $serve$\n\
    link one\n\
    piece 3\n\
    read 5\n\
    $first-line$\n";

/// Two links that two workers serve over one realm, of which either may come back first. What comes of one
/// link alone is shown by the tests of sessions.
pub const SESSIONS: &str = "\
    == serve s --root fuchsia-pkg://t/a#meta/root.cm --repo r --sessions 2 --workers 2\n\
    runs 5\n\
    held @root-empty 0\n\
    link one\n\
    piece 1\n\
    | resolve .\n\
    | foo\n\
    | quit\n\
    | show .\n\
    link other\n\
    piece 1\n\
    | foo\n\
    + foo\n\
    => 0\n\
    $one-by-0$\n\
    $other-by-0$\n\
    => 0\n\
    $one-by-0$\n\
    $other-by-1$\n\
    => 0\n\
    $one-by-1$\n\
    $other-by-0$\n\
    => 0\n\
    $one-by-1$\n\
    $other-by-1$\n\
    => 0\n\
    $other-by-0$\n\
    $one-by-0$\n\
    => 0\n\
    $other-by-0$\n\
    $one-by-1$\n\
    => 0\n\
    $other-by-1$\n\
    $one-by-0$\n\
    => 0\n\
    $other-by-1$\n\
    $one-by-1$\n";
