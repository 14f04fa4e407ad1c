//! Manifests and lines of scripts, by their names in the tables.

use super::texts::named_in;

/// The manifest that cases call by this name.
pub fn named(name: &str) -> Option<&'static str> {
    named_in(TEXTS, name)
}

/// The texts. Some have no line feed at their end, and a line of a table goes on with them.
const TEXTS: &str = "\
    == @root\n\
    manifest fuchsia-pkg://t/a#meta/root.cm\n\
    {\"children\":[{\"name\":\"logger\",\"url\":\"#meta/logger.cm\"},\
    {\"name\":\"client\",\"url\":\"#meta/client.cm\"}],\
    \"offer\":[{\"protocol\":\"fuchsia.logger.LogSink\",\"from\":\"#logger\",\
    \"to\":\"#client\"}]}\n\
    %%\n\
    == @root-without-offer\n\
    manifest fuchsia-pkg://t/a#meta/root.cm\n\
    {\"children\":[{\"name\":\"logger\",\"url\":\"#meta/logger.cm\"},\
    {\"name\":\"client\",\"url\":\"#meta/client.cm\"}]}\n\
    %%\n\
    == @root-with-collection\n\
    manifest fuchsia-pkg://t/a#meta/root.cm\n\
    {\"collections\":[{\"name\":\"coll\",\"durability\":\"transient\"}]}\n\
    %%\n\
    == @root-with-offers\n\
    manifest fuchsia-pkg://t/a#meta/root.cm\n\
    {\"collections\":[{\"name\":\"dyn\",\"durability\":\"transient\",\
    \"allowed_offers\":\"static_and_dynamic\"}]}\n\
    %%\n\
    == @logger\n\
    manifest fuchsia-pkg://t/a#meta/logger.cm\n\
    {\"program\":{\"runner\":\"elf\"},\
    \"capabilities\":[{\"protocol\":\"fuchsia.logger.LogSink\"}],\
    \"expose\":[{\"protocol\":\"fuchsia.logger.LogSink\",\"from\":\"self\"}]}\n\
    %%\n\
    == @logger-without-expose\n\
    manifest fuchsia-pkg://t/a#meta/logger.cm\n\
    {\"program\":{\"runner\":\"elf\"},\
    \"capabilities\":[{\"protocol\":\"fuchsia.logger.LogSink\"}]}\n\
    %%\n\
    == @client\n\
    manifest fuchsia-pkg://t/a#meta/client.cm\n\
    {\"program\":{\"runner\":\"elf\"},\
    \"use\":[{\"protocol\":\"fuchsia.logger.LogSink\"}]}\n\
    %%\n\
    == @running\n\
    manifest fuchsia-pkg://t/a#meta/x.cm\n\
    {\"program\":{\"runner\":\"elf\"}}\n\
    %%\n\
    == @builtin-client\n\
    manifest fuchsia-pkg://t/a#meta/root.cm\n\
    {\"children\":[{\"name\":\"c\",\"url\":\"#meta/c.cm\"}],\
    \"offer\":[{\"protocol\":\"p\",\"from\":\"parent\",\"to\":\"#c\"}]}\n\
    %%\n\
    manifest fuchsia-pkg://t/a#meta/c.cm\n\
    {\"use\":[{\"protocol\":\"p\"}]}\n\
    %%\n\
    == @root-line\n\
    root fuchsia-pkg://t/a#meta/root.cm\n\
    == @ask\n\
    root fuchsia-pkg://t/a#meta/root.cm\n\
    0 route client /svc/fuchsia.logger.LogSink\n\
    == @ask-builtin\n\
    root fuchsia-pkg://t/a#meta/root.cm\n\
    0 route c /svc/p\n\
    == @eager-root\n\
    manifest fuchsia-pkg://t/a#meta/root.cm\n\
    {\"children\":[{\"name\":\"e\",\"url\":\"#meta/e.cm\",\"startup\":\"eager\"}]}\n\
    %%\n\
    == @eager-child\n\
    manifest fuchsia-pkg://t/a#meta/e.cm\n\
    {\"program\":{\"runner\":\"elf\"}}\n\
    %%\n\
    == @logger-empty: a block without a manifest\n\
    manifest fuchsia-pkg://t/a#meta/logger.cm\n\
    \n\
    %%\n\
    == @void-offer: a root with an offer of nothing, up to its availability\n\
    manifest fuchsia-pkg://t/a#meta/root.cm\n\
    {\"children\":[{\"name\":\"client\",\"url\":\"#meta/client.cm\"}],\
    \"offer\":[{\"protocol\":\"p\",\"from\":\"void\",\"to\":\"#client\",\"availability\":\
    == @p-client: a client, up to the availability of its use\n\
    manifest fuchsia-pkg://t/a#meta/client.cm\n\
    {\"program\":{\"runner\":\"elf\"},\"use\":[{\"protocol\":\"p\",\"availability\":\
    == @ask-p\n\
    root fuchsia-pkg://t/a#meta/root.cm\n\
    0 route client /svc/p\n\
    == @root-once\n\
    manifest fuchsia-pkg://t/a#meta/root.cm\n\
    {\"collections\":[{\"name\":\"once\",\"durability\":\"single_run\"}]}\n\
    %%\n\
    == @root-empty\n\
    manifest fuchsia-pkg://t/a#meta/root.cm\n\
    {}\n\
    %%\n\
    == @small-root: it offers the client a protocol and a directory of the store\n\
    manifest fuchsia-pkg://t/a#meta/root.cm\n\
    {\n\
    \x20   children: [ { name: 'store', url: '#store' }, { name: 'client', url: '#client' } ],\n\
    \x20   offer: [\n\
    \x20       { protocol: 'log', from: '#store', to: '#client' },\n\
    \x20       { directory: 'data', from: '#store', to: '#client' },\n\
    \x20   ],\n\
    }\n\
    %%\n\
    == @store\n\
    manifest fuchsia-pkg://t/a#store\n\
    {\n\
    \x20   program: { runner: 'elf' },\n\
    \x20   capabilities: [ { protocol: 'log' }, { directory: 'data', path: '/data', rights: [ 'r*' ] } ],\n\
    \x20   expose: [ { protocol: 'log', from: 'self' }, { directory: 'data', from: 'self' } ],\n\
    }\n\
    %%\n\
    == @small-client: it also uses a protocol that nobody offers to it\n\
    manifest fuchsia-pkg://t/a#client\n\
    {\n\
    \x20   program: { runner: 'elf' },\n\
    \x20   use: [\n\
    \x20       { protocol: 'log' },\n\
    \x20       { directory: 'data', path: '/in', rights: [ 'r*' ] },\n\
    \x20       { protocol: 'secret' },\n\
    \x20   ],\n\
    }\n\
    %%\n\
    == @new: the manifest of what cases create\n\
    manifest fuchsia-pkg://t/a#new\n\
    {}\n\
    %%\n\
    == @store-empty\n\
    manifest fuchsia-pkg://t/a#store\n\
    {}\n\
    %%\n\
    == @offer-of-data: a root that offers the client the store's directory as it is\n\
    manifest fuchsia-pkg://t/a#meta/root.cm\n\
    {children:[{name:'store',url:'#s'},{name:'client',url:'#c'}],offer:[{to:'#client',directory:'data',\
    from:'#store'}]}\n\
    %%\n\
    == @offer-of-subdirectory: a root that offers the client a subdirectory of it\n\
    manifest fuchsia-pkg://t/a#meta/root.cm\n\
    {children:[{name:'store',url:'#s'},{name:'client',url:'#c'}],offer:[{to:'#client',directory:'data',\
    from:'#store',subdir:'b/c'}]}\n\
    %%\n\
    == @store-of-data: it exposes its directory as it is\n\
    manifest fuchsia-pkg://t/a#s\n\
    {capabilities:[{directory:'data',path:'/data',rights:['rw*']}],expose:[{from:'self',\
    directory:'data'}]}\n\
    %%\n\
    == @store-of-subdirectory: it exposes a subdirectory of it\n\
    manifest fuchsia-pkg://t/a#s\n\
    {capabilities:[{directory:'data',path:'/data',rights:['rw*']}],expose:[{from:'self',directory:'data',\
    subdir:'a'}]}\n\
    %%\n\
    == @to-mid: a root that offers the store's log to an instance between it and a client\n\
    manifest fuchsia-pkg://t/a#meta/root.cm\n\
    {children:[{name:'store',url:'#s'},{name:'mid',url:'#m'}],offer:[{protocol:'log',from:'#store',\
    to:'#mid'}]}\n\
    %%\n\
    == @to-mid-taking-over: the same, where the offer takes over what its target asks\n\
    manifest fuchsia-pkg://t/a#meta/root.cm\n\
    {children:[{name:'store',url:'#s'},{name:'mid',url:'#m'}],offer:[{protocol:'log',from:'#store',\
    to:'#mid',availability:'same_as_target'}]}\n\
    %%\n\
    == @store-of-log\n\
    manifest fuchsia-pkg://t/a#s\n\
    {capabilities:[{protocol:'log'}],expose:[{protocol:'log',from:'self'}]}\n\
    %%\n\
    == @optional-log: a store whose log is optional where it is exposed\n\
    manifest fuchsia-pkg://t/a#s\n\
    {capabilities:[{protocol:'log'}],expose:[{protocol:'log',from:'self',availability:'optional'}]}\n\
    %%\n\
    == @taking-over: an instance between the root and a client, whose offer takes over what its target asks\n\
    manifest fuchsia-pkg://t/a#m\n\
    {children:[{name:'client',url:'#c'}],offer:[{protocol:'log',from:'parent',to:'#client',\
    availability:'same_as_target'}]}\n\
    %%\n\
    == @ask-in\n\
    root fuchsia-pkg://t/a#meta/root.cm\n\
    0 route client /in\n\
    == @ask-log\n\
    root fuchsia-pkg://t/a#meta/root.cm\n\
    0 route mid/client /svc/log\n\
    == @realistic: a whole realm in the usual spelling, up to its commands\n\
    manifest fuchsia-boot:///#meta/root.cm\n\
    // The root realm.\n\
    {\n\
    \x20   children: [\n\
    \x20       { name: \"core\", url: \"fuchsia-pkg://fuchsia.com/core#meta/core.cm\" },\n\
    \x20   ],\n\
    \x20   offer: [\n\
    \x20       {\n\
    \x20           protocol: [ \"fuchsia.boot.Items\", \"fuchsia.kernel.RootJob\" ],\n\
    \x20           from: \"parent\",\n\
    \x20           to: \"#core\",\n\
    \x20       },\n\
    \x20   ],\n\
    }\n\
    %%\n\
    manifest fuchsia-pkg://fuchsia.com/core#meta/core.cm\n\
    {\n\
    \x20   children: [\n\
    \x20       { name: \"archivist\", url: \"#meta/archivist.cm\" },\n\
    \x20       { name: \"session\", url: \"#meta/session.cm\", startup: \"lazy\" },\n\
    \x20   ],\n\
    \x20   offer: [\n\
    \x20       { protocol: [ \"fuchsia.logger.LogSink\", \"fuchsia.diagnostics.ArchiveAccessor\" ],\n\
    \x20         from: \"#archivist\", to: [ \"#session\" ] },\n\
    \x20       { protocol: \"fuchsia.boot.Items\", from: \"parent\", to: \"#archivist\" },\n\
    \x20   ],\n\
    }\n\
    %%\n\
    manifest fuchsia-pkg://fuchsia.com/core#meta/archivist.cm\n\
    {\n\
    \x20   program: { runner: \"elf\", binary: \"bin/archivist\" },\n\
    \x20   capabilities: [ { protocol: [ \"fuchsia.logger.LogSink\", \
    \"fuchsia.diagnostics.ArchiveAccessor\" ] } ],\n\
    \x20   use: [ { protocol: \"fuchsia.boot.Items\" } ],\n\
    \x20   expose: [ { protocol: [ \"fuchsia.logger.LogSink\", \"fuchsia.diagnostics.ArchiveAccessor\" ], \
    from: \"self\" } ],\n\
    }\n\
    %%\n\
    manifest fuchsia-pkg://fuchsia.com/core#meta/session.cm\n\
    {\n\
    \x20   program: { runner: \"elf\", binary: \"bin/session\" },\n\
    \x20   children: [ { name: \"shell\", url: \"#meta/shell.cm\", startup: \"eager\" } ],\n\
    \x20   collections: [ { name: \"elements\", durability: \"transient\", allowed_offers: \
    \"static_and_dynamic\" } ],\n\
    \x20   offer: [ { protocol: \"fuchsia.logger.LogSink\", from: \"parent\", to: [ \"#shell\", \
    \"#elements\" ] } ],\n\
    }\n\
    %%\n\
    manifest fuchsia-pkg://fuchsia.com/core#meta/shell.cm\n\
    {\n\
    \x20   program: { runner: \"elf\", binary: \"bin/shell\" },\n\
    \x20   use: [\n\
    \x20       { protocol: \"fuchsia.logger.LogSink\" },\n\
    \x20       { protocol: \"fuchsia.component.Realm\", from: \"framework\" },\n\
    \x20   ],\n\
    }\n\
    %%\n\
    manifest fuchsia-pkg://fuchsia.com/core#meta/element.cm\n\
    {\n\
    \x20   program: { runner: \"elf\", binary: \"bin/element\" },\n\
    \x20   use: [ { protocol: [ \"fuchsia.logger.LogSink\", \"fuchsia.diagnostics.ArchiveAccessor\" ] } ],\
    \n\
    }\n\
    %%\n\
    builtin protocol fuchsia.boot.Items\n\
    builtin protocol fuchsia.kernel.RootJob\n\
    root fuchsia-boot:///#meta/root.cm\n";
