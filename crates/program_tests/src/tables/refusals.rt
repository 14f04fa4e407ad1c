//! Scripts that are refused.

/// Scripts with a fault, by their first fault.
pub const REFUSALS: &str = "\
    == run\n\
    => 7\n\
    err line 1: 72 no-root\n\
    == run\n\
    @root\n\
    @logger\n\
    => 7\n\
    err line 7: 72 no-root\n\
    == run\n\
    + 0 route client /svc/p\n\
    => 7\n\
    err line 1: 72 no-root\n\
    == run\n\
    @root\n\
    | manifest fuchsia-pkg://t/a#meta/logger.cm\n\
    + {\"program\":\n\
    => 7\n\
    err line 4: 73 unclosed-manifest\n\
    == run\n\
    @root\n\
    @ask\n\
    | 0 route client /svc/p\u{1}\n\
    => 7\n\
    err line 6: 70 bad-command at 21\n\
    == run\n\
    @root\n\
    @ask\n\
    | 0 route client\n\
    => 7\n\
    err line 6: 70 bad-command at 14\n\
    == run\n\
    | manifest a b\n\
    @root\n\
    @ask\n\
    => 7\n\
    err line 1: 70 bad-command at 10\n\
    == run\n\
    | builtin protocol p\n\
    | builtin protocol p\n\
    @ask\n\
    => 7\n\
    err line 2: 70 bad-command at 0\n\
    == run\n\
    @root\n\
    @ask\n\
    | builtin protocol p\n\
    => 7\n\
    err line 6: 70 bad-command at 0\n\
    == run\n\
    @ask\n\
    @root-line\n\
    => 7\n\
    err line 3: 70 bad-command at 0\n\
    == run\n\
    @root\n\
    @ask\n\
    | route client /a\n\
    => 7\n\
    err line 6: 71 bad-lane\n\
    == run\n\
    @root\n\
    @ask\n\
    | 16 show .\n\
    + nonsense\n\
    => 7\n\
    err line 6: 74 too-many-lanes\n\
    == run\n\
    @root\n\
    | builtin protocol p\n\
    @ask\n\
    | 0 start client\n\
    | foo\n\
    => 7\n\
    err line 8: 71 bad-lane\n\
    == run\n\
    @root\n\
    | manifest fuchsia-pkg://t/a\n\
    | {}\n\
    | %%\n\
    @ask\n\
    => 7\n\
    err line 4: 77 bad-manifest-url\n\
    == run\n\
    @root\n\
    @root\n\
    @ask\n\
    => 7\n\
    err line 4: 78 repeated-manifest\n\
    == run --repo d --journal\n\
    => 7\n\
    err line 1: 72 no-root\n\
    == run\n\
    fill 35 65536\n\
    | \n\
    => 7\n\
    err line 2: 72 no-root\n\
    == run\n\
    | \n\
    fill 35 65537\n\
    => 7\n\
    err line 2: 75 line-too-long\n\
    == run\n\
    | manifest a\n\
    fill 32 65537\n\
    | \n\
    => 7\n\
    err line 2: 75 line-too-long\n";

/// Scripts of as many bytes as one may have, and of one more.
pub const LARGEST: &str = "\
    == run\n\
    fill 10 67108864\n\
    => 7\n\
    err line 67108865: 72 no-root\n\
    == run\n\
    fill 10 67108864\n\
    | \n\
    => 7\n\
    err line 67108865: 76 too-large\n";
