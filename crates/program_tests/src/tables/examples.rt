//! Worked examples, from short realms to a whole one.

/// Short realms in JSON: the route of a directory whose rights the offer narrows; an open and a route whose
/// rights are too weak at the expose; a route through three subdirectories; an expose that is too weak in two
/// ways; an offer from the void, to an optional use and to a required one; no builtin above the root; opens at
/// an expose that is there and at one that is not. Then a realm that is shut down before it was resolved,
/// scripts that are refused, a manifest that can't be read, and manifests with their verdicts.
pub const EXAMPLES: &str = "\
    == run\n\
    | manifest fuchsia-pkg://t/a#meta/root.cm\n\
    | {\"children\":[{\"name\":\"store\",\"url\":\"#meta/store.cm\"},{\"name\":\"client\",\
    \"url\":\"#meta/client.cm\"}],\"offer\":[{\"directory\":\"data\",\"from\":\"#store\",\
    \"to\":\"#client\",\"rights\":[\"r*\"]}]}\n\
    | %%\n\
    | manifest fuchsia-pkg://t/a#meta/store.cm\n\
    | {\"program\":{\"runner\":\"elf\"},\"capabilities\":[{\"directory\":\"data\",\"path\":\"/data\",\
    \"rights\":[\"rw*\"]}],\"expose\":[{\"directory\":\"data\",\"from\":\"self\"}]}\n\
    | %%\n\
    | manifest fuchsia-pkg://t/a#meta/client.cm\n\
    | {\"program\":{\"runner\":\"elf\"},\"use\":[{\"directory\":\"data\",\"rights\":[\"r*\"],\
    \"path\":\"/data\"}]}\n\
    | %%\n\
    @root-line\n\
    | 0 route client /data\n\
    => 0\n\
    out 0 route /data at store incarnation 1 rights connect,enumerate,get_attributes,read_bytes,traverse \
    through use client, offer ., expose store, capability store\n\
    == run\n\
    | manifest fuchsia-pkg://t/a#meta/root.cm\n\
    | {\"children\":[{\"name\":\"store\",\"url\":\"#meta/store.cm\"},{\"name\":\"client\",\
    \"url\":\"#meta/client.cm\"}],\"offer\":[{\"directory\":\"data\",\"from\":\"#store\",\
    \"to\":\"#client\"}]}\n\
    | %%\n\
    | manifest fuchsia-pkg://t/a#meta/store.cm\n\
    | {\"program\":{\"runner\":\"elf\"},\"capabilities\":[{\"directory\":\"data\",\"path\":\"/data\",\
    \"rights\":[\"rw*\"]}],\"expose\":[{\"directory\":\"data\",\"from\":\"self\",\"rights\":[\"r*\"]}]}\n\
    | %%\n\
    | manifest fuchsia-pkg://t/a#meta/client.cm\n\
    | {\"program\":{\"runner\":\"elf\"},\"use\":[{\"directory\":\"data\",\"rights\":[\"rw*\"],\
    \"path\":\"/data\"}]}\n\
    | %%\n\
    @root-line\n\
    | 0 start client\n\
    | 0 open client /data\n\
    => 0\n\
    out 0 started client action 3\n\
    out 0 refused 87 rights-too-weak at expose store\n\
    == run\n\
    | manifest fuchsia-pkg://t/a#meta/root.cm\n\
    | {\"children\":[{\"name\":\"store\",\"url\":\"#meta/store.cm\"},{\"name\":\"client\",\
    \"url\":\"#meta/client.cm\"}],\"offer\":[{\"directory\":\"data\",\"from\":\"#store\",\
    \"to\":\"#client\"}]}\n\
    | %%\n\
    | manifest fuchsia-pkg://t/a#meta/store.cm\n\
    | {\"program\":{\"runner\":\"elf\"},\"capabilities\":[{\"directory\":\"data\",\"path\":\"/data\",\
    \"rights\":[\"rw*\"]}],\"expose\":[{\"directory\":\"data\",\"from\":\"self\",\"rights\":[\"r*\"]}]}\n\
    | %%\n\
    | manifest fuchsia-pkg://t/a#meta/client.cm\n\
    | {\"program\":{\"runner\":\"elf\"},\"use\":[{\"directory\":\"data\",\"rights\":[\"rw*\"],\
    \"path\":\"/data\"}]}\n\
    | %%\n\
    @root-line\n\
    | 0 route client /data\n\
    => 0\n\
    out 0 refused 87 rights-too-weak at expose store\n\
    == run\n\
    | manifest fuchsia-pkg://t/a#meta/root.cm\n\
    | {\"children\":[{\"name\":\"store\",\"url\":\"#meta/store.cm\"},{\"name\":\"client\",\
    \"url\":\"#meta/client.cm\"}],\"offer\":[{\"directory\":\"data\",\"from\":\"#store\",\
    \"to\":\"#client\",\"rights\":[\"r*\"],\"subdir\":\"b/c\"}]}\n\
    | %%\n\
    | manifest fuchsia-pkg://t/a#meta/store.cm\n\
    | {\"program\":{\"runner\":\"elf\"},\"capabilities\":[{\"directory\":\"data\",\"path\":\"/data\",\
    \"rights\":[\"rw*\"]}],\"expose\":[{\"directory\":\"data\",\"from\":\"self\",\"subdir\":\"a\"}]}\n\
    | %%\n\
    | manifest fuchsia-pkg://t/a#meta/client.cm\n\
    | {\"program\":{\"runner\":\"elf\"},\"use\":[{\"directory\":\"data\",\"rights\":[\"r*\"],\
    \"path\":\"/in\",\"subdir\":\"d\"}]}\n\
    | %%\n\
    @root-line\n\
    | 0 route client /in\n\
    => 0\n\
    out 0 route /data/a/b/c/d at store incarnation 1 rights connect,enumerate,get_attributes,read_bytes,\
    traverse through use client, offer ., expose store, capability store\n\
    == run\n\
    | manifest fuchsia-pkg://t/a#meta/root.cm\n\
    | {\"children\":[{\"name\":\"store\",\"url\":\"#meta/store.cm\"},{\"name\":\"client\",\
    \"url\":\"#meta/client.cm\"}],\"offer\":[{\"directory\":\"data\",\"from\":\"#store\",\
    \"to\":\"#client\"}]}\n\
    | %%\n\
    | manifest fuchsia-pkg://t/a#meta/store.cm\n\
    | {\"program\":{\"runner\":\"elf\"},\"capabilities\":[{\"directory\":\"data\",\"path\":\"/data\",\
    \"rights\":[\"rw*\"]}],\"expose\":[{\"directory\":\"data\",\"from\":\"self\",\"rights\":[\"r*\"],\
    \"availability\":\"optional\"}]}\n\
    | %%\n\
    | manifest fuchsia-pkg://t/a#meta/client.cm\n\
    | {\"program\":{\"runner\":\"elf\"},\"use\":[{\"directory\":\"data\",\"rights\":[\"rw*\"],\
    \"path\":\"/data\"}]}\n\
    | %%\n\
    @root-line\n\
    | 0 route client /data\n\
    => 0\n\
    out 0 refused 87 availability-too-weak at expose store\n\
    == run\n\
    | manifest fuchsia-pkg://t/a#meta/root.cm\n\
    | {\"children\":[{\"name\":\"client\",\"url\":\"#meta/client.cm\"}],\"offer\":[{\"protocol\":\"p\",\
    \"from\":\"void\",\"to\":\"#client\",\"availability\":\"optional\"}]}\n\
    | %%\n\
    | manifest fuchsia-pkg://t/a#meta/client.cm\n\
    | {\"program\":{\"runner\":\"elf\"},\"use\":[{\"protocol\":\"p\",\"availability\":\"optional\"}]}\n\
    | %%\n\
    @root-line\n\
    | 0 route client /svc/p\n\
    => 0\n\
    out 0 refused 88 void at offer .\n\
    == run\n\
    | manifest fuchsia-pkg://t/a#meta/root.cm\n\
    | {\"children\":[{\"name\":\"client\",\"url\":\"#meta/client.cm\"}],\"offer\":[{\"protocol\":\"p\",\
    \"from\":\"void\",\"to\":\"#client\",\"availability\":\"optional\"}]}\n\
    | %%\n\
    | manifest fuchsia-pkg://t/a#meta/client.cm\n\
    | {\"program\":{\"runner\":\"elf\"},\"use\":[{\"protocol\":\"p\",\"availability\":\"required\"}]}\n\
    | %%\n\
    @root-line\n\
    | 0 route client /svc/p\n\
    => 0\n\
    out 0 refused 87 availability-too-weak at offer .\n\
    == run\n\
    @builtin-client\n\
    @root-line\n\
    | 0 route c /svc/p\n\
    => 0\n\
    out 0 refused 87 no-builtin at builtin .\n\
    == run\n\
    @root\n\
    @logger\n\
    @client\n\
    @root-line\n\
    | 0 open-exposed logger fuchsia.logger.LogSink\n\
    | 0 open-exposed logger x\n\
    => 0\n\
    out 0 opened /svc/fuchsia.logger.LogSink at logger incarnation 1\n\
    out 0 refused 87 no-expose at expose logger\n\
    == run\n\
    @root-with-collection\n\
    @running\n\
    @root-line\n\
    | 0 shutdown .\n\
    | 0 create . coll y #meta/x.cm\n\
    => 0\n\
    out 0 shut .\n\
    out 0 refused 65 parent-closing incarnation 0\n\
    == run\n\
    @root-line\n\
    | 0 route client\n\
    => 7\n\
    err line 2: 70 bad-command at 14\n\
    == run\n\
    @root-line\n\
    | route client /a\n\
    => 7\n\
    err line 2: 71 bad-lane\n\
    == run\n\
    @root-line\n\
    | 16 show .\n\
    => 7\n\
    err line 2: 74 too-many-lanes\n\
    == run\n\
    @root\n\
    @logger\n\
    | manifest fuchsia-pkg://t/a#meta/client.cm\n\
    | {\"program\":{\"runner\"\n\
    | %%\n\
    @root-line\n\
    | 0 route client /svc/x\n\
    => 0\n\
    out 0 refused 83 cannot-resolve action 2 invalid 31 manifest 0\n\
    == check\n\
    + {\"children\": [{\"name\": \"a\", \"url\": \"#meta/a.cm\"}, {\"name\": \"b\", \"url\": \
    \"#meta/b.cm\"}], \"offer\": [{\"protocol\": \"p\", \"from\": \"#a\", \"to\": \"#b\"}, {\"protocol\": \
    \"q\", \"from\": \"#b\", \"to\": \"#a\"}]}\n\
    => 1\n\
    out invalid 58 graph 0 a b a\n\
    == check\n\
    + {\"children\": [{\"name\": \"a\", \"url\": \"#meta/a.cm\"}, {\"name\": \"b\", \"url\": \
    \"#meta/b.cm\"}], \"offer\": [{\"protocol\": \"p\", \"from\": \"#a\", \"to\": \"#b\"}, {\"protocol\": \
    \"q\", \"from\": \"#b\", \"to\": \"#a\", \"dependency\": \"weak\"}]}\n\
    => 0\n\
    out valid\n\
    == check\n\
    + {\"children\": [{\"name\": \"a\", \"url\": \"#meta/a.cm\"}], \"offer\": [{\"protocol\": \"p\", \
    \"from\": \"#a\", \"to\": \"#a\"}]}\n\
    => 1\n\
    out invalid 53 offer 0\n\
    == check\n\
    + {\"children\":[\n\
    => 1\n\
    out invalid 31 manifest 0\n\
    == check\n\
    + {\"children\":[{\"name\":\"a\",\"url\":\"#meta/a.cm\",\"colour\":\"red\"}]}\n\
    => 1\n\
    out invalid 33 children 0 colour\n\
    == check\n\
    + {\"children\": [{\"name\": \"a\", \"url\": \"#meta/a.cm\"}], \"offer\": [{\"protocol\": \"p\", \
    \"from\": \"#gone\", \"to\": \"#a\", \"availability\": \"optional\", \"source_availability\": \
    \"unknown\"}]}\n\
    => 0\n\
    out valid\n\
    == check\n\
    + {\"children\": [{\"name\": \"a\", \"url\": \"#meta/a.cm\"}], \"offer\": [{\"protocol\": \"p\", \
    \"from\": \"#gone\", \"to\": \"#a\", \"availability\": \"optional\"}]}\n\
    => 1\n\
    out invalid 51 offer 0\n\
    == check\n\
    + {\"children\": [{\"name\": \"a\", \"url\": \"#meta/a.cm\"}], \"offer\": [{\"protocol\": \"p\", \
    \"from\": \"#gone\", \"to\": \"#a\", \"availability\": \"required\", \"source_availability\": \
    \"unknown\"}]}\n\
    => 1\n\
    out invalid 57 offer 0\n";

/// A realm as people write one: manifests in the usual spelling, builtins, an eager child, a dynamic child
/// with an offer of its own, a check of all routes, of which one ends at the framework, and a shutdown. Then the
/// same realm with its journal, where the two lanes come one after the other, so that there is one history.
pub const REALISTIC: &str = "\
    == run\n\
    @realistic\n\
    | 0 start core/session\n\
    | sync\n\
    | 0 create core/session elements e1 #meta/element.cm + protocol fuchsia.diagnostics.ArchiveAccessor \
    parent\n\
    | 1 open core/session/shell /svc/fuchsia.logger.LogSink\n\
    | sync\n\
    | 0 start core/session/elements:e1\n\
    | 0 list core/session elements\n\
    | 0 doctor .\n\
    | 0 shutdown .\n\
    => 0\n\
    out 0 started core/session action 4\n\
    out 0 created core/session elements:e1 incarnation 5\n\
    out 1 opened /svc/fuchsia.logger.LogSink at core/archivist incarnation 2\n\
    out 0 started core/session/elements:e1 action 10\n\
    out 0 children core/session elements 1\n\
    out   e1 incarnation 5\n\
    out 0 doctor . 5\n\
    out   core/archivist /svc/fuchsia.boot.Items route /svc/fuchsia.boot.Items at builtin through use \
    core/archivist, offer core, offer ., builtin .\n\
    out   core/session/shell /svc/fuchsia.logger.LogSink route /svc/fuchsia.logger.LogSink at \
    core/archivist incarnation 2 through use core/session/shell, offer core/session, offer core, expose \
    core/archivist, capability core/archivist\n\
    out   core/session/shell /svc/fuchsia.component.Realm route /svc/fuchsia.component.Realm at framework \
    through use core/session/shell, framework core/session/shell\n\
    out   core/session/elements:e1 /svc/fuchsia.logger.LogSink route /svc/fuchsia.logger.LogSink at \
    core/archivist incarnation 2 through use core/session/elements:e1, offer core/session, offer core, \
    expose core/archivist, capability core/archivist\n\
    out   core/session/elements:e1 /svc/fuchsia.diagnostics.ArchiveAccessor route \
    /svc/fuchsia.diagnostics.ArchiveAccessor at core/archivist incarnation 2 through use \
    core/session/elements:e1, offer core/session, offer core, expose core/archivist, capability \
    core/archivist\n\
    out 0 shut .\n\
    == run --journal\n\
    @realistic\n\
    | 0 start core/session\n\
    | sync\n\
    | 0 create core/session elements e1 #meta/element.cm + protocol fuchsia.diagnostics.ArchiveAccessor \
    parent\n\
    | sync\n\
    | 1 open core/session/shell /svc/fuchsia.logger.LogSink\n\
    | sync\n\
    | 0 start core/session/elements:e1\n\
    | 0 list core/session elements\n\
    | 0 doctor .\n\
    | 0 shutdown .\n\
    => 0\n\
    out 0 started core/session action 4\n\
    out 0 created core/session elements:e1 incarnation 5\n\
    out 1 opened /svc/fuchsia.logger.LogSink at core/archivist incarnation 2\n\
    out 0 started core/session/elements:e1 action 10\n\
    out 0 children core/session elements 1\n\
    out   e1 incarnation 5\n\
    out 0 doctor . 5\n\
    out   core/archivist /svc/fuchsia.boot.Items route /svc/fuchsia.boot.Items at builtin through use \
    core/archivist, offer core, offer ., builtin .\n\
    out   core/session/shell /svc/fuchsia.logger.LogSink route /svc/fuchsia.logger.LogSink at \
    core/archivist incarnation 2 through use core/session/shell, offer core/session, offer core, expose \
    core/archivist, capability core/archivist\n\
    out   core/session/shell /svc/fuchsia.component.Realm route /svc/fuchsia.component.Realm at framework \
    through use core/session/shell, framework core/session/shell\n\
    out   core/session/elements:e1 /svc/fuchsia.logger.LogSink route /svc/fuchsia.logger.LogSink at \
    core/archivist incarnation 2 through use core/session/elements:e1, offer core/session, offer core, \
    expose core/archivist, capability core/archivist\n\
    out   core/session/elements:e1 /svc/fuchsia.diagnostics.ArchiveAccessor route \
    /svc/fuchsia.diagnostics.ArchiveAccessor at core/archivist incarnation 2 through use \
    core/session/elements:e1, offer core/session, offer core, expose core/archivist, capability \
    core/archivist\n\
    out 0 shut .\n\
    out journal\n\
    out builtin protocol fuchsia.boot.Items\n\
    out builtin protocol fuchsia.kernel.RootJob\n\
    out root fuchsia-boot:///#meta/root.cm\n\
    out 1 0 find core/session => need 0\n\
    out 2 0 begin resolve 0 => begun 1\n\
    out 3 0 end 1 resolved fuchsia-boot:///#meta/root.cm {\"capabilities\":[],\
    \"children\":[{\"name\":\"core\",\"startup\":\"lazy\",\
    \"url\":\"fuchsia-pkg://fuchsia.com/core#meta/core.cm\"}],\"collections\":[],\"expose\":[],\
    \"offer\":[{\"as\":\"fuchsia.boot.Items\",\"availability\":\"required\",\"dependency\":\"strong\",\
    \"from\":\"parent\",\"protocol\":\"fuchsia.boot.Items\",\"to\":\"#core\"},\
    {\"as\":\"fuchsia.kernel.RootJob\",\"availability\":\"required\",\"dependency\":\"strong\",\
    \"from\":\"parent\",\"protocol\":\"fuchsia.kernel.RootJob\",\"to\":\"#core\"}],\"use\":[]} => ended \
    resolved\n\
    out 4 0 find core/session => need 1\n\
    out 5 0 begin resolve 1 => begun 2\n\
    out 6 0 end 2 resolved fuchsia-pkg://fuchsia.com/core#meta/core.cm {\"capabilities\":[],\
    \"children\":[{\"name\":\"archivist\",\"startup\":\"lazy\",\"url\":\"#meta/archivist.cm\"},\
    {\"name\":\"session\",\"startup\":\"lazy\",\"url\":\"#meta/session.cm\"}],\"collections\":[],\
    \"expose\":[],\"offer\":[{\"as\":\"fuchsia.logger.LogSink\",\"availability\":\"required\",\
    \"dependency\":\"strong\",\"from\":\"#archivist\",\"protocol\":\"fuchsia.logger.LogSink\",\
    \"to\":\"#session\"},{\"as\":\"fuchsia.diagnostics.ArchiveAccessor\",\"availability\":\"required\",\
    \"dependency\":\"strong\",\"from\":\"#archivist\",\"protocol\":\"fuchsia.diagnostics.ArchiveAccessor\",\
    \"to\":\"#session\"},{\"as\":\"fuchsia.boot.Items\",\"availability\":\"required\",\
    \"dependency\":\"strong\",\"from\":\"parent\",\"protocol\":\"fuchsia.boot.Items\",\
    \"to\":\"#archivist\"}],\"use\":[]} => ended resolved\n\
    out 7 0 find core/session => found 3\n\
    out 8 0 begin start 3 => need 3\n\
    out 9 0 begin resolve 3 => begun 3\n\
    out 10 0 end 3 resolved fuchsia-pkg://fuchsia.com/core#meta/session.cm {\"capabilities\":[],\
    \"children\":[{\"name\":\"shell\",\"startup\":\"eager\",\"url\":\"#meta/shell.cm\"}],\
    \"collections\":[{\"allowed_offers\":\"static_and_dynamic\",\"durability\":\"transient\",\
    \"name\":\"elements\"}],\"expose\":[],\"offer\":[{\"as\":\"fuchsia.logger.LogSink\",\
    \"availability\":\"required\",\"dependency\":\"strong\",\"from\":\"parent\",\
    \"protocol\":\"fuchsia.logger.LogSink\",\"to\":\"#shell\"},{\"as\":\"fuchsia.logger.LogSink\",\
    \"availability\":\"required\",\"dependency\":\"strong\",\"from\":\"parent\",\
    \"protocol\":\"fuchsia.logger.LogSink\",\"to\":\"#elements\"}],\"program\":{\"runner\":\"elf\"},\
    \"use\":[]} => ended resolved\n\
    out 11 0 begin start 3 => begun 4\n\
    out 12 0 end 4 started => ended started\n\
    out 13 0 begin start 4 => need 4\n\
    out 14 0 begin resolve 4 => begun 5\n\
    out 15 0 end 5 resolved fuchsia-pkg://fuchsia.com/core#meta/shell.cm {\"capabilities\":[],\
    \"children\":[],\"collections\":[],\"expose\":[],\"offer\":[],\"program\":{\"runner\":\"elf\"},\
    \"use\":[{\"availability\":\"required\",\"dependency\":\"strong\",\"from\":\"parent\",\
    \"path\":\"/svc/fuchsia.logger.LogSink\",\"protocol\":\"fuchsia.logger.LogSink\"},\
    {\"availability\":\"required\",\"dependency\":\"strong\",\"from\":\"framework\",\
    \"path\":\"/svc/fuchsia.component.Realm\",\"protocol\":\"fuchsia.component.Realm\"}]} => ended \
    resolved\n\
    out 16 0 begin start 4 => begun 6\n\
    out 17 0 end 6 started => ended started\n\
    out 18 0 find core/session => found 3\n\
    out 19 0 create 3 elements e1 #meta/element.cm + protocol fuchsia.diagnostics.ArchiveAccessor parent \
    => created 5\n\
    out 20 1 find core/session/shell => found 4\n\
    out 21 1 open 4 /svc/fuchsia.logger.LogSink => need 2\n\
    out 22 1 begin resolve 2 => begun 7\n\
    out 23 1 end 7 resolved fuchsia-pkg://fuchsia.com/core#meta/archivist.cm \
    {\"capabilities\":[{\"path\":\"/svc/fuchsia.logger.LogSink\",\"protocol\":\"fuchsia.logger.LogSink\"},\
    {\"path\":\"/svc/fuchsia.diagnostics.ArchiveAccessor\",\
    \"protocol\":\"fuchsia.diagnostics.ArchiveAccessor\"}],\"children\":[],\"collections\":[],\
    \"expose\":[{\"as\":\"fuchsia.logger.LogSink\",\"availability\":\"required\",\"from\":\"self\",\
    \"protocol\":\"fuchsia.logger.LogSink\"},{\"as\":\"fuchsia.diagnostics.ArchiveAccessor\",\
    \"availability\":\"required\",\"from\":\"self\",\"protocol\":\"fuchsia.diagnostics.ArchiveAccessor\"}],\
    \"offer\":[],\"program\":{\"runner\":\"elf\"},\"use\":[{\"availability\":\"required\",\
    \"dependency\":\"strong\",\"from\":\"parent\",\"path\":\"/svc/fuchsia.boot.Items\",\
    \"protocol\":\"fuchsia.boot.Items\"}]} => ended resolved\n\
    out 24 1 open 4 /svc/fuchsia.logger.LogSink => need-start 2\n\
    out 25 1 begin start 2 => begun 8\n\
    out 26 1 end 8 started => ended started\n\
    out 27 1 open 4 /svc/fuchsia.logger.LogSink => opened /svc/fuchsia.logger.LogSink at core/archivist \
    incarnation 2 through use core/session/shell, offer core/session, offer core, expose core/archivist, \
    capability core/archivist\n\
    out 28 0 find core/session/elements:e1 => found 5\n\
    out 29 0 begin start 5 => need 5\n\
    out 30 0 begin resolve 5 => begun 9\n\
    out 31 0 end 9 resolved fuchsia-pkg://fuchsia.com/core#meta/element.cm {\"capabilities\":[],\
    \"children\":[],\"collections\":[],\"expose\":[],\"offer\":[],\"program\":{\"runner\":\"elf\"},\
    \"use\":[{\"availability\":\"required\",\"dependency\":\"strong\",\"from\":\"parent\",\
    \"path\":\"/svc/fuchsia.logger.LogSink\",\"protocol\":\"fuchsia.logger.LogSink\"},\
    {\"availability\":\"required\",\"dependency\":\"strong\",\"from\":\"parent\",\
    \"path\":\"/svc/fuchsia.diagnostics.ArchiveAccessor\",\
    \"protocol\":\"fuchsia.diagnostics.ArchiveAccessor\"}]} => ended resolved\n\
    out 32 0 begin start 5 => begun 10\n\
    out 33 0 end 10 started => ended started\n\
    out 34 0 find core/session => found 3\n\
    out 35 0 list 3 elements => listed 1 [e1 incarnation 5]\n\
    out 36 0 find . => found 0\n\
    out 37 0 survey 0 => surveyed 6 [. incarnation 0 resolved off] [core incarnation 1 resolved off] \
    [core/archivist incarnation 2 resolved on] [core/session incarnation 3 resolved on] \
    [core/session/shell incarnation 4 resolved on] [core/session/elements:e1 incarnation 5 resolved on]\n\
    out 38 0 route 2 /svc/fuchsia.boot.Items => given /svc/fuchsia.boot.Items at builtin through use \
    core/archivist, offer core, offer ., builtin .\n\
    out 39 0 route 4 /svc/fuchsia.logger.LogSink => given /svc/fuchsia.logger.LogSink at core/archivist \
    incarnation 2 through use core/session/shell, offer core/session, offer core, expose core/archivist, \
    capability core/archivist\n\
    out 40 0 route 4 /svc/fuchsia.component.Realm => given /svc/fuchsia.component.Realm at framework \
    through use core/session/shell, framework core/session/shell\n\
    out 41 0 route 5 /svc/fuchsia.logger.LogSink => given /svc/fuchsia.logger.LogSink at core/archivist \
    incarnation 2 through use core/session/elements:e1, offer core/session, offer core, expose \
    core/archivist, capability core/archivist\n\
    out 42 0 route 5 /svc/fuchsia.diagnostics.ArchiveAccessor => given \
    /svc/fuchsia.diagnostics.ArchiveAccessor at core/archivist incarnation 2 through use \
    core/session/elements:e1, offer core/session, offer core, expose core/archivist, capability \
    core/archivist\n\
    out 43 0 find . => found 0\n\
    out 44 0 mark closing 0 => marked\n\
    out 45 0 pick 0 => stopping 4 11\n\
    out 46 0 end 11 stopped => ended stopped\n\
    out 47 0 pick 0 => shutdown 4\n\
    out 48 0 pick 0 => stopping 5 12\n\
    out 49 0 end 12 stopped => ended stopped\n\
    out 50 0 pick 0 => shutdown 5\n\
    out 51 0 pick 0 => stopping 3 13\n\
    out 52 0 end 13 stopped => ended stopped\n\
    out 53 0 pick 0 => shutdown 3\n\
    out 54 0 pick 0 => stopping 2 14\n\
    out 55 0 end 14 stopped => ended stopped\n\
    out 56 0 pick 0 => shutdown 2\n\
    out 57 0 pick 0 => shutdown 1\n\
    out 58 0 pick 0 => shutdown 0\n\
    out 59 0 pick 0 => done\n";
