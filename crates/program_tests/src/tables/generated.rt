//! Workloads: that memory is enough for small ones, that their line is the same each time, and which
//! numbers are words of one. The draws were made by another program.

/// Small workloads, and words of `generate` that are none.
pub const GENERATED: &str = "\
    == generate 1 5\n\
    => 0\n\
    out instances 5 started 5 opened 4 shown 1 kept 2\n\
    == generate +1 05\n\
    => 0\n\
    out instances 5 started 5 opened 4 shown 1 kept 2\n\
    == generate 7 1\n\
    => 0\n\
    out instances 1 started 1 opened 0 shown 1 kept 0\n\
    == generate 2147483647 3\n\
    => 0\n\
    out instances 3 started 3 opened 3 shown 0 kept 1\n\
    == generate 2147483648 3\n\
    => 2\n\
    err usage: run, check, serve, audit, generate, environments, storage\n\
    == generate 1 0\n\
    => 2\n\
    err usage: run, check, serve, audit, generate, environments, storage\n\
    == generate 1 10001\n\
    => 2\n\
    err usage: run, check, serve, audit, generate, environments, storage\n\
    == generate one 5\n\
    => 2\n\
    err usage: run, check, serve, audit, generate, environments, storage\n\
    == generate 3 20\n\
    runs 2\n\
    => 0\n\
    out instances 20 started 20 opened 19 shown 1 kept 8\n";

/// A workload of which no draw is the root.
pub const LARGE: &str = "\
    == generate 3 2000\n\
    runs 2\n\
    room 2000\n\
    => 0\n\
    out instances 2000 started 2000 opened 2000 shown 0 kept 741\n";
