//! Routes, and the journal.

/// Scripts that ask for routes.
pub const ROUTES: &str = "\
    == run\n\
    $route$\n\
    => 0\n\
    out 0 route /svc/fuchsia.logger.LogSink at logger incarnation 1 through use client, offer ., \
    expose logger, capability logger\n\
    == run\n\
    @root-without-offer\n\
    @logger\n\
    $client-asks$\n\
    out 0 refused 87 no-offer at offer .\n\
    == $void-offered$ \"optional\"}]}\n\
    $used-as$ \"transitional\"}]}\n\
    $asked-p$\n\
    out 0 refused 88 void at offer .\n\
    == $void-offered$ \"transitional\"}]}\n\
    $used-as$ \"optional\"}]}\n\
    $asked-p$\n\
    out 0 refused 87 availability-too-weak at offer .\n\
    == $void-offered$ \"same_as_target\"}]}\n\
    $used-as$ \"optional\"}]}\n\
    $asked-p$\n\
    out 0 refused 83 cannot-resolve action 1 invalid 57 offer 0\n\
    == run\n\
    | manifest fuchsia-pkg://t/a#meta/root.cm\n\
    + {\"children\":[{\"name\":\"logger\",\"url\":\"#meta/logger.cm\"},\n\
    + {\"name\":\"client\",\"url\":\"#meta/client.cm\"}],\"offer\":[{\n\
    + \"protocol\":\"fuchsia.logger.LogSink\",\"from\":\"#logger\",\"to\":\"#client\",\n\
    | \"availability\":\"same_as_target\"}]}\n\
    | %%\n\
    | manifest fuchsia-pkg://t/a#meta/logger.cm\n\
    + {\"program\":{\"runner\":\"elf\"},\n\
    + \"capabilities\":[{\"protocol\":\"fuchsia.logger.LogSink\"}],\n\
    + \"expose\":[{\"protocol\":\"fuchsia.logger.LogSink\",\"from\":\"self\",\n\
    | \"availability\":\"optional\"}]}\n\
    | %%\n\
    $client-asks$\n\
    out 0 refused 87 availability-too-weak at expose logger\n\
    == run\n\
    @root\n\
    @logger-without-expose\n\
    $client-asks$\n\
    out 0 refused 87 no-expose at expose logger\n\
    == run\n\
    @root\n\
    $client-asks$\n\
    out 0 refused 83 cannot-resolve action 3 absent\n\
    == run\n\
    @root\n\
    @logger\n\
    | manifest fuchsia-pkg://t/a#meta/client.cm\n\
    | {\"program\":{\"runner\"\n\
    | %%\n\
    @ask\n\
    => 0\n\
    out 0 refused 83 cannot-resolve action 2 invalid 31 manifest 0\n\
    == run\n\
    $route$\n\
    | # twice\n\
    | \n\
    | 0 route client /svc/x\n\
    | 0 route x/y /svc/p\n\
    => 0\n\
    out 0 route /svc/fuchsia.logger.LogSink at logger incarnation 1 through use client, offer ., \
    expose logger, capability logger\n\
    out 0 refused 86 no-such-use\n\
    out 0 refused 80 not-found in .\n\
    == run\n\
    @builtin-client\n\
    | builtin protocol p\n\
    @ask-builtin\n\
    => 0\n\
    out 0 route /svc/p at builtin through use c, offer ., builtin .\n\
    == run\n\
    @builtin-client\n\
    | builtin directory p /p connect\n\
    @ask-builtin\n\
    => 0\n\
    out 0 refused 87 no-builtin at builtin .\n\
    == run\n\
    $route$\n\
    | sync\n\
    + 0 route c:x /svc/p\n\
    => 0\n\
    out 0 route /svc/fuchsia.logger.LogSink at logger incarnation 1 through use client, offer ., \
    expose logger, capability logger\n\
    out 0 refused 80 not-found in .\n\
    == run\n\
    @root\n\
    @client\n\
    @root-line\n\
    | 0 resolve client\n\
    | 0 doctor .\n\
    => 0\n\
    out 0 resolved client action 2\n\
    out 0 doctor . 2\n\
    out   logger unresolved\n\
    out   client /svc/fuchsia.logger.LogSink refused 83 cannot-resolve action 3 absent\n\
    == run\n\
    $realm$\n\
    | 0 resolve client\n\
    | 0 doctor .\n\
    | 0 doctor nobody\n\
    => 0\n\
    out 0 resolved client action 2\n\
    out 0 doctor . 2\n\
    out   logger unresolved\n\
    out   client /svc/fuchsia.logger.LogSink route /svc/fuchsia.logger.LogSink at logger \
    incarnation 1 through use client, offer ., expose logger, capability logger\n\
    out 0 refused 80 not-found in .\n\
    == run\n\
    @root\n\
    | manifest fuchsia-pkg://t/a#meta/b.cm\n\
    | {\"collections\":[{\"name\":\"c\",\"durability\":\"transient\"}]}\n\
    | %%\n\
    @ask\n\
    => 0\n\
    out 0 refused 83 cannot-resolve action 2 absent\n\
    == run\n\
    | manifest fuchsia-pkg://t/a#meta/root.cm\n\
    | {\"children\":[{\"name\":\"store\",\"url\":\"#meta/store.cm\"},{\"name\":\"client\",\
    \"url\":\"#meta/client.cm\"}],\"offer\":[{\"directory\":\"data\",\"from\":\"#store\",\
    \"to\":\"#client\",\"rights\":[\"r*\"]}]}\n\
    | %%\n\
    | manifest fuchsia-pkg://t/a#meta/store.cm\n\
    | {\"program\":{\"runner\":\"elf\"},\"capabilities\":[{\"directory\":\"data\",\
    \"path\":\"/data\",\"rights\":[\"rw*\"]}],\"expose\":[{\"directory\":\"data\",\
    \"from\":\"self\"}]}\n\
    | %%\n\
    | manifest fuchsia-pkg://t/a#meta/client.cm\n\
    | {\"program\":{\"runner\":\"elf\"},\"use\":[{\"directory\":\"data\",\"rights\":[\"r*\"],\
    \"path\":\"/data\"}]}\n\
    | %%\n\
    @root-line\n\
    | 0 start client\n\
    | 0 open client /data\n\
    => 0\n\
    out 0 started client action 3\n\
    out 0 opened /data at store incarnation 1 rights connect,enumerate,get_attributes,read_bytes,\
    traverse\n\
    == run\n\
    $realm$\n\
    | 0 stop client\n\
    | 0 open client /svc/fuchsia.logger.LogSink\n\
    | 0 route client /svc/x\n\
    => 0\n\
    out 0 stopped client already\n\
    out 0 refused 85 client-off\n\
    out 0 refused 86 no-such-use\n\
    == run\n\
    @root\n\
    @logger\n\
    | manifest fuchsia-pkg://t/a#meta/client.cm\n\
    fill 255 1\n\
    | \n\
    | %%\n\
    @ask\n\
    => 0\n\
    out 0 refused 83 cannot-resolve action 2 invalid 30 manifest 0\n\
    == run\n\
    @root\n\
    @logger\n\
    | manifest fuchsia-pkg://t/a#meta/client.cm\n\
    + {\"facets\":\n\
    fill 91 200\n\
    | \
    ]]]]]]]]]]]]]]]]]]]]]]]]]]]]]]]]]]]]]]]]]]]]]]]]]]]]]]]]]]]]]]]]]]]]]]]]]]]]]]]]]]]]]]]]]]]]]]]\
    ]]]]]]]]]]]]]]]]]]]]]]]]]]]]]]]]]]]]]]]]]]]]]]]]]]]]]]]]]]]]]]]]]]]]]]]]]]]]]]]]]]]]]]]]]]]]]]]\
    ]]]]]]]]]]}\n\
    | %%\n\
    @ask\n\
    => 0\n\
    out 0 refused 83 cannot-resolve action 2 invalid 31 manifest 0\n\
    == run --journal\n\
    $realm$\n\
    | 0 route client /svc/fuchsia.logger.LogSink\n\
    => 0\n\
    out 0 route /svc/fuchsia.logger.LogSink at logger incarnation 1 through use client, offer ., \
    expose logger, capability logger\n\
    out journal\n\
    out root fuchsia-pkg://t/a#meta/root.cm\n\
    out 1 0 find client => need 0\n\
    out 2 0 begin resolve 0 => begun 1\n\
    out 3 0 end 1 resolved fuchsia-pkg://t/a#meta/root.cm {\"capabilities\":[],\
    \"children\":[{\"name\":\"logger\",\"startup\":\"lazy\",\"url\":\"#meta/logger.cm\"},\
    {\"name\":\"client\",\"startup\":\"lazy\",\"url\":\"#meta/client.cm\"}],\"collections\":[],\
    \"expose\":[],\"offer\":[{\"as\":\"fuchsia.logger.LogSink\",\"availability\":\"required\",\
    \"dependency\":\"strong\",\"from\":\"#logger\",\"protocol\":\"fuchsia.logger.LogSink\",\
    \"to\":\"#client\"}],\"use\":[]} => ended resolved\n\
    out 4 0 find client => found 2\n\
    out 5 0 route 2 /svc/fuchsia.logger.LogSink => need 2\n\
    out 6 0 begin resolve 2 => begun 2\n\
    out 7 0 end 2 resolved fuchsia-pkg://t/a#meta/client.cm {\"capabilities\":[],\"children\":[],\
    \"collections\":[],\"expose\":[],\"offer\":[],\"program\":{\"runner\":\"elf\"},\
    \"use\":[{\"availability\":\"required\",\"dependency\":\"strong\",\"from\":\"parent\",\
    \"path\":\"/svc/fuchsia.logger.LogSink\",\"protocol\":\"fuchsia.logger.LogSink\"}]} => ended \
    resolved\n\
    out 8 0 route 2 /svc/fuchsia.logger.LogSink => need 1\n\
    out 9 0 begin resolve 1 => begun 3\n\
    out 10 0 end 3 resolved fuchsia-pkg://t/a#meta/logger.cm \
    {\"capabilities\":[{\"path\":\"/svc/fuchsia.logger.LogSink\",\
    \"protocol\":\"fuchsia.logger.LogSink\"}],\"children\":[],\"collections\":[],\
    \"expose\":[{\"as\":\"fuchsia.logger.LogSink\",\"availability\":\"required\",\"from\":\"self\",\
    \"protocol\":\"fuchsia.logger.LogSink\"}],\"offer\":[],\"program\":{\"runner\":\"elf\"},\
    \"use\":[]} => ended resolved\n\
    out 11 0 route 2 /svc/fuchsia.logger.LogSink => given /svc/fuchsia.logger.LogSink at logger \
    incarnation 1 through use client, offer ., expose logger, capability logger\n";

/// Rights that are narrowed at the offer; that are too weak at the capability; subdirectories that are
/// joined; an availability and rights that are too weak at the expose; the void; no builtin above the root;
/// no expose of that kind.
pub const RIGHTS: &str = "\
    == run\n\
    $offer-of-directory$'#store',rights:['r*']}]}\n\
    | %%\n\
    @store-of-data\n\
    | manifest fuchsia-pkg://t/a#c\n\
    | {use:[{path:'/in',directory:'data',rights:['r*']}]}\n\
    $asked-in$\n\
    out 0 route /data at store incarnation 1 rights connect,enumerate,get_attributes,read_bytes,traverse \
    through use client, offer ., expose store, capability store\n\
    == run\n\
    $client-of-subdirectory$\n\
    | {use:[{path:'/in',directory:'data',rights:['x*'],subdir:'d'}]}\n\
    $asked-in$\n\
    out 0 refused 87 rights-too-weak at capability store\n\
    == run\n\
    $client-of-subdirectory$\n\
    | {use:[{path:'/in',directory:'data',rights:['connect'],subdir:'d'}]}\n\
    $asked-in$\n\
    out 0 route /data/a/b/c/d at store incarnation 1 rights connect through use client, offer ., expose \
    store, capability store\n\
    == run\n\
    $store-to-read$,availability:'optional'}]}\n\
    $data-is-used$\n\
    out 0 refused 87 availability-too-weak at expose store\n\
    == run\n\
    $store-to-read$}]}\n\
    $data-is-used$\n\
    out 0 refused 87 rights-too-weak at expose store\n\
    == run\n\
    $offer-of-directory$'void',availability:'optional'}]}\n\
    | %%\n\
    @store-of-data\n\
    | manifest fuchsia-pkg://t/a#c\n\
    | {use:[{path:'/in',directory:'data',rights:['r*'],availability:'optional'}]}\n\
    $asked-in$\n\
    out 0 refused 88 void at offer .\n\
    == run\n\
    $offer-of-protocol$'parent'}]}\n\
    | %%\n\
    $protocol-is-used$\n\
    out 0 refused 87 no-builtin at builtin .\n\
    == run\n\
    $offer-of-protocol$'#store'}]}\n\
    | %%\n\
    $protocol-is-used$\n\
    out 0 refused 87 no-expose at expose store\n";

/// What stands at each hop of a route of which all know how sure they are: less than is given; what is asked,
/// taken over at two hops; more than the nearest offer gives; more than the far one gives, through one that
/// takes it over; more than the expose gives, through two that take it over; less than the use asks for, but
/// more than the offer before. Then routes that begin at an expose: by taking over, so that there is nothing
/// to compare with, and by an availability of its own.
pub const AVAILABILITY: &str = "\
    == run\n\
    $log-through-mid$'optional'}]}\n\
    | %%\n\
    | manifest fuchsia-pkg://t/a#c\n\
    | {use:[{protocol:'log',availability:'transitional'}]}\n\
    | %%\n\
    @ask-log\n\
    => 0\n\
    out 0 route /svc/log at store incarnation 1 through use mid/client, offer mid, offer ., expose \
    store, capability store\n\
    == run\n\
    @to-mid-taking-over\n\
    @optional-log\n\
    @taking-over\n\
    $optional-is-asked$\n\
    out 0 route /svc/log at store incarnation 1 through use mid/client, offer mid, offer ., expose \
    store, capability store\n\
    == run\n\
    $log-through-mid$'transitional'}]}\n\
    | %%\n\
    $optional-is-asked$\n\
    out 0 refused 87 availability-too-weak at offer mid\n\
    == run\n\
    | manifest fuchsia-pkg://t/a#meta/root.cm\n\
    | {children:[{name:'store',url:'#s'},{name:'mid',url:'#m'}],offer:[{protocol:'log',from:'#store',\
    to:'#mid',availability:'optional'}]}\n\
    | %%\n\
    @store-of-log\n\
    @taking-over\n\
    | manifest fuchsia-pkg://t/a#c\n\
    | {use:[{protocol:'log'}]}\n\
    | %%\n\
    @ask-log\n\
    => 0\n\
    out 0 refused 87 availability-too-weak at offer .\n\
    == run\n\
    @to-mid-taking-over\n\
    | manifest fuchsia-pkg://t/a#s\n\
    | {capabilities:[{protocol:'log'}],expose:[{protocol:'log',from:'self',\
    availability:'transitional'}]}\n\
    | %%\n\
    @taking-over\n\
    $optional-is-asked$\n\
    out 0 refused 87 availability-too-weak at expose store\n\
    == run\n\
    @to-mid\n\
    @optional-log\n\
    @taking-over\n\
    $optional-is-asked$\n\
    out 0 refused 87 availability-too-weak at expose store\n\
    == run\n\
    $root-of-a$\n\
    | {children:[{name:'b',url:'#b'}],expose:[{protocol:'log',from:'#b',\
    availability:'same_as_target'}]}\n\
    | %%\n\
    $opened-at-b$\n\
    out 0 opened /svc/log at a/b incarnation 2\n\
    == run\n\
    $root-of-a$\n\
    | {children:[{name:'b',url:'#b'}],expose:[{protocol:'log',from:'#b'}]}\n\
    | %%\n\
    $opened-at-b$\n\
    out 0 refused 87 availability-too-weak at expose a/b\n";
