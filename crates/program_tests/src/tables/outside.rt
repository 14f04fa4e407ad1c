//! Sources and sinks that fail, or that move few bytes at once.

/// A script that is answered, with sources and sinks that fail or move few bytes at once: of its 613
/// bytes 100 are read at once, so that the eighth read comes after all. Then no script: where the
/// line on the error stream is lost, the status still tells of it.
pub const OUTSIDE: &str = "\
    == run\n\
    piece 1\n\
    $route$\n\
    => 0\n\
    out 0 route /svc/fuchsia.logger.LogSink at logger incarnation 1 through use client, offer ., \
    expose logger, capability logger\n\
    == $read-in-pieces$ 0\n\
    $read-fault$\n\
    == $read-in-pieces$ 3\n\
    $read-fault$\n\
    == $read-in-pieces$ 7\n\
    $read-fault$\n\
    == $written-in-pieces$ 0\n\
    $write-fault$\n\
    == $written-in-pieces$ 1\n\
    $write-fault$\n\
    out+ 0 route\n\
    == run\n\
    piece 100\n\
    say 0\n\
    => 7\n\
    say-faults 1\n\
    == run\n\
    piece 4\n\
    say 1\n\
    => 7\n\
    say-faults 1\n\
    err+ line\n";
