//! Journals that are audited, as `run --journal` writes them and with one thing changed.

/// The journal of a route, whole and cut; with another reply, number or caller; with nothing after the
/// root's line; and texts that are no journal.
pub const AUDITS: &str = "\
    == audit\n\
    $asked$\n\
    | 3 0 $resolves-root$\n\
    | 4 0 find client => found 2\n\
    $entries-5-to-10$\n\
    $entry-11$\n\
    => 0\n\
    entries 0\n\
    out legal 11\n\
    == audit\n\
    $asked$\n\
    | 3 0 $resolves-root$\n\
    | 4 0 find client => found 2\n\
    $entries-5-to-10$\n\
    => 0\n\
    out legal 10\n\
    == audit\n\
    $asked$\n\
    | 3 0 $resolves-root$\n\
    | 4 0 find client => found 1\n\
    $entries-5-to-10$\n\
    => 1\n\
    out illegal 4 given found 1 expected found 2\n\
    == audit\n\
    $asked$\n\
    | 3 0 $resolves-root$\n\
    | 5 0 find client => found 1\n\
    => 1\n\
    out illegal 5 given found 1 expected number 4\n\
    == audit\n\
    $asked$\n\
    | 3 1 $resolves-root$\n\
    | 4 0 find client => found 1\n\
    => 1\n\
    out illegal 3 given ended resolved expected no-such-step\n\
    == audit\n\
    $asked$\n\
    | 3 0 find client => need 0\n\
    | 4 16 show 0 => shown unresolved off pending resolve\n\
    + 5 4294967295 begin resolve 0 => joined 1\n\
    => 0\n\
    out legal 5\n\
    == audit\n\
    $asked$\n\
    | 3 4294967296 show 0 => shown unresolved off pending resolve\n\
    => 1\n\
    out bad-text 6\n\
    == audit\n\
    | root fuchsia-pkg://t/a#meta/root.cm\n\
    | 1 0 find client => need 0\n\
    => 1\n\
    out bad-text 3\n\
    == audit\n\
    => 1\n\
    out bad-text 1\n\
    == audit\n\
    fill 255 3\n\
    | \n\
    | journal\n\
    => 1\n\
    out bad-text 3\n\
    == audit\n\
    | 0 shown journal incarnation 1 url #x resolved on\n\
    | journal\n\
    | builtin protocol p\n\
    | builtin protocol p\n\
    | builtin directory d /d connect,enumerate\n\
    | root u\n\
    => 0\n\
    out legal 0\n\
    == audit\n\
    | journal\n\
    | builtin directory d /d r*\n\
    | root u\n\
    => 1\n\
    out bad-text 2\n\
    == audit\n\
    | journal\n\
    | builtin directory d /d enumerate,connect\n\
    | root u\n\
    => 1\n\
    out bad-text 2\n\
    == audit\n\
    | journal\n\
    | journal\n\
    | root u\n\
    => 1\n\
    out bad-text 2\n\
    == audit\n\
    | journal\n\
    | root u\n\
    | root u\n\
    => 1\n\
    out bad-text 3\n\
    == audit\n\
    | journal\n\
    | root u u\n\
    => 1\n\
    out bad-text 2\n\
    == audit x\n\
    => 2\n\
    err usage: run, check, serve, audit, generate, environments, storage\n\
    == audit\n\
    read 0\n\
    $asked$\n\
    => 3\n\
    read-faults 1\n\
    err read fault\n\
    == audit\n\
    piece 3\n\
    write 2\n\
    $asked$\n\
    => 4\n\
    write-faults 1\n\
    out+ legal \n";

/// Lines that are no entries, or are entries of events that nobody may make there.
pub const ENTRIES: &str = "\
    == audit\n\
    $asked$\n\
    | 3 0 find /client => need 0\n\
    => 1\n\
    out bad-text 6\n\
    == audit\n\
    $asked$\n\
    | 03 0 find client => need 0\n\
    => 1\n\
    out bad-text 6\n\
    == audit\n\
    $asked$\n\
    | 18446744073709551616 0 find client => need 0\n\
    => 1\n\
    out bad-text 6\n\
    == audit\n\
    $asked$\n\
    | 3 0 find client need 0\n\
    => 1\n\
    out bad-text 6\n\
    == audit\n\
    $asked$\n\
    + 3 0 find client => need \n\
    fill 255 1\n\
    => 1\n\
    out bad-text 6\n\
    == audit\n\
    $asked$\n\
    | \n\
    => 1\n\
    out bad-text 6\n\
    == audit\n\
    $asked$\n\
    | 3 0 find client => \n\
    => 1\n\
    out illegal 3 given  expected need 0\n\
    == audit\n\
    $asked$\n\
    | 3 0 find client => need 0 \n\
    => 1\n\
    out illegal 3 given need 0  expected need 0\n\
    == audit\n\
    $asked$\n\
    | 3 0 create 0 c x => => need 0\n\
    => 0\n\
    out legal 3\n\
    == audit\n\
    $asked$\n\
    | 3 0 end 1 resolved => ended resolved\n\
    => 1\n\
    out illegal 3 given ended resolved expected no-such-step\n\
    == audit\n\
    $asked$\n\
    | 3 0 end 1 full => ended full\n\
    => 1\n\
    out illegal 3 given ended full expected no-such-step\n\
    == audit\n\
    $asked$\n\
    | 3 0 end 1 absent => ended absent\n\
    | 4 0 end 1 absent => ended absent\n\
    => 1\n\
    out illegal 4 given ended absent expected no-such-step\n\
    == audit\n\
    $asked$\n\
    | 3 0 end 1 resolved u { } => ended resolved\n\
    => 1\n\
    out bad-text 6\n\
    == audit\n\
    $asked$\n\
    | 3 0 end 1 resolved u {\"capabilities\":[],\"children\":[],\"collections\":[],\"expose\":[],\"offer\":[],\
    \"use\":[{\"availability\":\"required\",\"dependency\":\"strong\",\"from\":\"#a\",\"path\":\"/p\",\
    \"protocol\":\"p\"}]} => ended resolved\n\
    => 1\n\
    out illegal 3 given ended resolved expected no-such-step\n\
    == audit\n\
    $asked$\n\
    | 3 0 begin start 0 => begun 2\n\
    => 1\n\
    out illegal 3 given begun 2 expected no-such-step\n\
    == audit\n\
    $asked$\n\
    | 3 0 await 1 => ended resolved\n\
    => 1\n\
    out illegal 3 given ended resolved expected no-such-step\n\
    == audit\n\
    $asked$\n\
    | 3 0 exited 0 => already\n\
    => 1\n\
    out illegal 3 given already expected no-such-step\n\
    == audit\n\
    $asked$\n\
    | 3 0 purge 0 => purged 1\n\
    => 1\n\
    out illegal 3 given purged 1 expected no-such-step\n\
    == audit\n\
    $asked$\n\
    | 3 0 purge 9 => purged-before\n\
    | 4 0 reap 9 => reaping\n\
    | 5 0 tail 0 7 => tailed 4\n\
    | 6 0 mark doomed 0 => not-dynamic\n\
    => 0\n\
    out legal 6\n";

/// Shutdowns: each order of picks that the tree allows is legal, and no other.
pub const PICKS: &str = "\
    == audit\n\
    $root-resolved$ $two$ => ended resolved\n\
    | 3 0 mark closing 0 => marked\n\
    | 4 0 pick 0 => shutdown 1\n\
    | 5 0 pick 0 => shutdown 2\n\
    | 6 0 pick 0 => shutdown 0\n\
    | 7 0 pick 0 => done\n\
    => 0\n\
    out legal 7\n\
    == audit\n\
    $root-resolved$ $two$ => ended resolved\n\
    | 3 0 mark closing 0 => marked\n\
    | 4 0 pick 0 => shutdown 2\n\
    | 5 0 pick 0 => shutdown 1\n\
    | 6 0 pick 0 => shutdown 0\n\
    | 7 0 pick 0 => done\n\
    => 0\n\
    out legal 7\n\
    == audit\n\
    $root-resolved$ $two$ => ended resolved\n\
    | 3 0 mark closing 0 => marked\n\
    | 4 0 pick 0 => shutdown 0\n\
    => 1\n\
    out illegal 4 given shutdown 0 expected another-pick\n\
    == audit\n\
    $root-resolved$ $two$ => ended resolved\n\
    | 3 0 mark closing 0 => marked\n\
    | 4 0 pick 0 => done\n\
    => 1\n\
    out illegal 4 given done expected another-pick\n\
    == audit\n\
    $root-resolved$ $two$ => ended resolved\n\
    | 3 0 mark closing 0 => marked\n\
    | 4 0 pick 0 => stopping 1 2\n\
    => 1\n\
    out illegal 4 given stopping 1 2 expected another-pick\n\
    == audit\n\
    $root-resolved$ $two$ => ended resolved\n\
    | 3 0 mark closing 0 => marked\n\
    | 4 0 pick 0 => shutdown 18446744073709551616\n\
    => 1\n\
    out illegal 4 given shutdown 18446744073709551616 expected another-pick\n\
    == audit\n\
    $root-resolved$ $two$ => ended resolved\n\
    | 3 0 pick 0 => shutdown 1\n\
    => 1\n\
    out illegal 3 given shutdown 1 expected no-such-step\n\
    == audit\n\
    $root-resolved$ $two$ => ended resolved\n\
    | 3 0 begin resolve 1 => begun 2\n\
    | 4 0 begin resolve 2 => begun 3\n\
    | 5 0 mark closing 0 => marked\n\
    | 6 0 pick 0 => done\n\
    => 1\n\
    out illegal 6 given done expected no-such-step\n\
    == audit\n\
    $root-resolved$ $small-root$ => ended resolved\n\
    | 3 0 mark closing 0 => marked\n\
    | 4 0 pick 0 => shutdown 1\n\
    => 1\n\
    out illegal 4 given shutdown 1 expected another-pick\n\
    == audit\n\
    $root-resolved$ $two$ => ended resolved\n\
    | 3 0 mark closing 1 => marked\n\
    | 4 0 pick 1 => shutdown 2\n\
    => 1\n\
    out illegal 4 given shutdown 2 expected another-pick\n\
    == audit\n\
    $root-resolved$ $two$ => ended resolved\n\
    | 3 0 begin start 1 => need 1\n\
    | 4 0 begin resolve 1 => begun 2\n\
    | 5 0 end 2 resolved u $nothing$ => ended resolved\n\
    | 6 0 begin start 1 => begun 3\n\
    | 7 0 end 3 started => ended started\n\
    | 8 0 mark closing 0 => marked\n\
    | 9 1 pick 0 => stopping 1 4\n\
    | 10 0 pick 0 => shutdown 2\n\
    | 11 0 end 4 stopped => ended stopped\n\
    => 1\n\
    out illegal 11 given ended stopped expected no-such-step\n\
    == audit\n\
    | journal\n\
    | root u\n\
    | 1 0 pick 5 => done\n\
    => 0\n\
    out legal 1\n";

/// What scripts write with `--journal` is audited legal, with as many entries as their histories have:
/// resolves, starts, openings and a shutdown in several lanes; a route over builtins; stops, and what goes
/// with them; answers with further lines; want of a manifest, and an instance that can't be resolved; a new
/// child with offers of its own.
pub const AGAIN: &str = "\
    == run --journal\n\
    again audit\n\
    $route$\n\
    => 0\n\
    entries 0\n\
    out legal 11\n\
    == run --journal\n\
    again audit\n\
    | manifest fuchsia-boot:///#meta/root.cm\n\
    | // The root realm.\n\
    | {\n\
    |     children: [\n\
    |         { name: \"core\", url: \"fuchsia-pkg://fuchsia.com/core#meta/core.cm\" },\n\
    |     ],\n\
    |     offer: [\n\
    |         {\n\
    |             protocol: [ \"fuchsia.boot.Items\", \"fuchsia.kernel.RootJob\" ],\n\
    |             from: \"parent\",\n\
    |             to: \"#core\",\n\
    |         },\n\
    |     ],\n\
    | }\n\
    | %%\n\
    | manifest fuchsia-pkg://fuchsia.com/core#meta/core.cm\n\
    | {\n\
    |     children: [\n\
    |         { name: \"archivist\", url: \"#meta/archivist.cm\" },\n\
    |         { name: \"session\", url: \"#meta/session.cm\", startup: \"lazy\" },\n\
    |     ],\n\
    |     offer: [\n\
    |         { protocol: [ \"fuchsia.logger.LogSink\", \"fuchsia.diagnostics.ArchiveAccessor\" ],\n\
    |           from: \"#archivist\", to: [ \"#session\" ] },\n\
    |         { protocol: \"fuchsia.boot.Items\", from: \"parent\", to: \"#archivist\" },\n\
    |     ],\n\
    | }\n\
    | %%\n\
    | manifest fuchsia-pkg://fuchsia.com/core#meta/archivist.cm\n\
    | {\n\
    |     program: { runner: \"elf\", binary: \"bin/archivist\" },\n\
    |     capabilities: [ { protocol: [ \"fuchsia.logger.LogSink\", \"fuchsia.diagnostics.ArchiveAcc\
    essor\" ] } ],\n\
    |     use: [ { protocol: \"fuchsia.boot.Items\" } ],\n\
    |     expose: [ { protocol: [ \"fuchsia.logger.LogSink\", \"fuchsia.diagnostics.ArchiveAccessor\
    \" ], from: \"self\" } ],\n\
    | }\n\
    | %%\n\
    | manifest fuchsia-pkg://fuchsia.com/core#meta/session.cm\n\
    | {\n\
    |     program: { runner: \"elf\", binary: \"bin/session\" },\n\
    |     children: [ { name: \"shell\", url: \"#meta/shell.cm\", startup: \"eager\" } ],\n\
    |     collections: [ { name: \"elements\", durability: \"transient\", allowed_offers: \"static_a\
    nd_dynamic\" } ],\n\
    |     offer: [ { protocol: \"fuchsia.logger.LogSink\", from: \"parent\", to: [ \"#shell\", \"#el\
    ements\" ] } ],\n\
    | }\n\
    | %%\n\
    | manifest fuchsia-pkg://fuchsia.com/core#meta/shell.cm\n\
    | {\n\
    |     program: { runner: \"elf\", binary: \"bin/shell\" },\n\
    |     use: [\n\
    |         { protocol: \"fuchsia.logger.LogSink\" },\n\
    |         { protocol: \"fuchsia.component.Realm\", from: \"framework\" },\n\
    |     ],\n\
    | }\n\
    | %%\n\
    | manifest fuchsia-pkg://fuchsia.com/core#meta/element.cm\n\
    | {\n\
    |     program: { runner: \"elf\", binary: \"bin/element\" },\n\
    |     use: [ { protocol: [ \"fuchsia.logger.LogSink\", \"fuchsia.diagnostics.ArchiveAccessor\" ] } ],\n\
    | }\n\
    | %%\n\
    | builtin protocol fuchsia.boot.Items\n\
    | builtin protocol fuchsia.kernel.RootJob\n\
    | root fuchsia-boot:///#meta/root.cm\n\
    | 0 start core/session\n\
    | sync\n\
    | 0 create core/session elements e1 #meta/element.cm + protocol fuchsia.diagnostics.ArchiveAcces\
    sor parent\n\
    | 1 open core/session/shell /svc/fuchsia.logger.LogSink\n\
    | sync\n\
    | 0 start core/session/elements:e1\n\
    | 0 list core/session elements\n\
    | 0 doctor .\n\
    | 0 shutdown .\n\
    => 0\n\
    out legal 59\n\
    == run --journal\n\
    again audit\n\
    $starts-one$\n\
    => 0\n\
    out legal 14\n\
    == run --journal\n\
    again audit\n\
    | root fuchsia-pkg://t/a#meta/root.cm\n\
    | 0 show none\n\
    | 0 survey .\n\
    => 0\n\
    out legal 5\n\
    == run --journal\n\
    again audit\n\
    | manifest fuchsia-pkg://t/a#meta/root.cm\n\
    | {children:[{name:'a',url:'x'}]}\n\
    | %%\n\
    | builtin directory d /d r*\n\
    | root fuchsia-pkg://t/a#meta/root.cm\n\
    | 0 start a\n\
    | 0 doctor .\n\
    | 0 survey .\n\
    => 0\n\
    out legal 11\n\
    == run\n\
    again audit\n\
    $route$\n\
    => 1\n\
    out bad-text 2\n";
