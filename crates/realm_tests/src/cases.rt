//! The tables: the steps of small realms, and all that they tell, and walks in trees by hand. Most
//! realms are of a root with a store and a client, to which it offers what the store exposes.
//!
//! Here stand limits of a realm, and what only single steps of several callers show: how a tree answers
//! between two steps of what the program does as one.

/// The root: it offers the client a protocol and a directory of the store.
const ROOT: &str = "{
    children: [ { name: 'store', url: '#store' }, { name: 'client', url: '#client' } ],
    offer: [
        { protocol: 'log', from: '#store', to: '#client' },
        { directory: 'data', from: '#store', to: '#client' },
    ],
}";

/// The manifest of a child that provides a protocol and a directory, and exposes both.
const STORE: &str = "{
    program: { runner: 'elf' },
    capabilities: [ { protocol: 'log' }, { directory: 'data', path: '/data', rights: [ 'r*' ] } ],
    expose: [ { protocol: 'log', from: 'self' }, { directory: 'data', from: 'self' } ],
}";

/// The client, which also uses a protocol that nobody offers to it.
const CLIENT: &str = "{
    program: { runner: 'elf' },
    use: [
        { protocol: 'log' },
        { directory: 'data', path: '/in', rights: [ 'r*' ] },
        { protocol: 'secret' },
    ],
}";

/// A manifest with a collection.
const COLLECTION: &str = "{collections:[{name:'coll',durability:'transient'}]}";

/// A manifest that provides a protocol and exposes it.
const PROVIDER: &str = "{capabilities:[{protocol:'p'}],expose:[{protocol:'p',from:'self'}]}";

/// The manifest of that name, or else the word itself.
pub fn manifest_of(word: &str) -> &str {
    match word {
        "@root" => ROOT,
        "@store" => STORE,
        "@client" => CLIENT,
        "@collection" => COLLECTION,
        "@provider" => PROVIDER,
        manifest => manifest,
    }
}

/// The root has a child in a collection that runs each child once, 1, and one in another, 2.
pub const ONCE: &str = "\
    0 resolve 0 {collections:[{name:'once',durability:'single_run'},{name:'coll',\
    durability:'transient'}]}\n\
    0 create 0 create . once one #new\n\
    0 create 0 create . coll two #new";

/// What the limits leave, and how long a history is.
pub const LIMITS: &str = "\
    == realm 9 2 keeps room in the history\n\
    3 find 0 store\n\
    3 show 9\n\
    3 show 9\n\
    =>\n\
    1 3 find store => need 0\n\
    2 3 show 9 => gone 9\n\
    history full\n\
    == realm 9 1 tells each step that the history is full\n\
    3 tail 7 0\n\
    3 tail 0 0\n\
    3 find 0 store\n\
    3 show 0\n\
    3 list 0 things\n\
    3 route 0 /svc/log\n\
    3 open 0 /svc/log\n\
    3 open-exposed 0 data\n\
    3 survey 0\n\
    3 reap 0\n\
    3 purge 9\n\
    3 begin 0 start\n\
    3 exited 0\n\
    3 close 0\n\
    3 doom 0\n\
    3 create 0 create . things new #new\n\
    =>\n\
    1 3 tail 7 0 => gone 7\n\
    history full\n\
    history full\n\
    history full\n\
    history full\n\
    history full\n\
    history full\n\
    history full\n\
    history full\n\
    history full\n\
    history full\n\
    history full\n\
    history full\n\
    history full\n\
    history full\n\
    history full\n\
    == realm 9 9 surveys and removes nothing that doesn't live\n\
    3 survey 9\n\
    3 purge 9\n\
    3 purge 0\n\
    =>\n\
    1 3 survey 9 => gone 9\n\
    2 3 purge 9 => purged-before\n\
    == realm 9 2 keeps room for the end of an action\n\
    0 begin 0 resolve\n\
    0 show 0\n\
    =>\n\
    1 0 begin resolve 0 => begun 1\n\
    history full\n\
    == realm 2 9 is full of instances\n\
    0 resolve 0 {children:[{name:'a',url:'#a'},{name:'b',url:'#b'}]}\n\
    0 begin 0 start\n\
    0 find 0 a\n\
    =>\n\
    1 0 begin resolve 0 => begun 1\n\
    2 0 end 1 resolved fuchsia-pkg://t/a#x {\"capabilities\":[],\"children\":[{\"name\":\"a\",\
    \"startup\":\"lazy\",\"url\":\"#a\"},{\"name\":\"b\",\"startup\":\"lazy\",\"url\":\"#b\"}],\
    \"collections\":[],\"expose\":[],\"offer\":[],\"use\":[]} => ended full\n\
    3 0 begin start 0 => need 0\n\
    4 0 find a => need 0\n\
    == realm 1 4 tells the length of the history\n\
    2 tail 7 0\n\
    0 resolve 0 {}\n\
    2 tail 0 0\n\
    2 tail 0 3\n\
    =>\n\
    1 2 tail 7 0 => gone 7\n\
    2 0 begin resolve 0 => begun 1\n\
    3 0 end 1 resolved fuchsia-pkg://t/a#x {\"capabilities\":[],\"children\":[],\"collections\":[],\
    \"expose\":[],\"offer\":[],\"use\":[]} => ended resolved\n\
    4 2 tail 0 0 => tailed 3\n\
    history full\n";

/// What another caller finds while an action is pending, and joins.
pub const CALLERS: &str = "\
    == realm 9 99 waits for a pending action\n\
    0 resolve 0 @root\n\
    0 resolve 1 @store\n\
    0 resolve 2 @client\n\
    --\n\
    0 begin 1 start\n\
    1 begin 1 stop\n\
    1 exited 1\n\
    1 begin 1 start\n\
    1 show 1\n\
    =>\n\
    7 0 begin start 1 => begun 4\n\
    busy 4\n\
    busy 4\n\
    8 1 begin start 1 => joined 4\n\
    9 1 show 1 => shown resolved off pending start\n\
    == realm 9 99 tells joiners the outcome\n\
    0 resolve 0 @root\n\
    0 resolve 1 @store\n\
    0 resolve 2 @client\n\
    --\n\
    0 join-and-decline 1\n\
    =>\n\
    7 0 begin start 1 => begun 4\n\
    8 1 begin start 1 => joined 4\n\
    9 0 end 4 declined => ended declined\n\
    10 1 await 4 => ended declined\n\
    == realm 9 99 needs a store that another resolves, and one that fails needs none\n\
    0 resolve 0 @root\n\
    0 resolve 2 @client\n\
    --\n\
    3 route 2 /in\n\
    3 route 2 /svc/secret\n\
    0 begin 1 resolve\n\
    3 route 2 /in\n\
    =>\n\
    5 3 route 2 /in => need 1\n\
    6 3 route 2 /svc/secret => failed no-offer at offer .\n\
    7 0 begin resolve 1 => begun 3\n\
    8 3 route 2 /in => need 1\n";

/// Shutdowns, and children that are created and destroyed.
pub const SHUTDOWNS: &str = "\
    == realm 9 99 waits to destroy what starts\n\
    0 resolve 0 @collection\n\
    0 create 0 create . coll one #new\n\
    0 resolve 1 {}\n\
    --\n\
    0 doom-while-starting 1 1\n\
    0 begin 1 start\n\
    =>\n\
    busy 3\n\
    6 0 begin start 1 => begun 3\n\
    7 1 mark doomed 1 => marked\n\
    8 0 end 3 started => ended started\n\
    9 0 begin start 1 => gone 1\n\
    == realm 9 99 waits to destroy what is above one that starts\n\
    0 resolve 0 @collection\n\
    0 create 0 create . coll one #new\n\
    0 resolve 1 {children:[{name:'a',url:'#a'}]}\n\
    0 resolve 2 {}\n\
    --\n\
    0 doom-while-starting 2 1\n\
    0 begin 2 start\n\
    =>\n\
    busy 4\n\
    8 0 begin start 2 => begun 4\n\
    9 1 mark doomed 1 => marked\n\
    10 0 end 4 started => ended started\n\
    11 0 begin start 2 => gone 2\n\
    == realm 9 99 refuses what is closing\n\
    0 resolve 0 @root\n\
    0 resolve 1 @store\n\
    0 resolve 2 @client\n\
    --\n\
    0 started 2\n\
    0 close 1\n\
    0 close 1\n\
    0 doom 1\n\
    0 doom 7\n\
    0 open 2 /svc/log\n\
    0 open-exposed 1 data\n\
    0 begin 1 start\n\
    =>\n\
    7 0 begin start 2 => begun 4\n\
    8 0 end 4 started => ended started\n\
    9 0 mark closing 1 => marked\n\
    10 0 mark closing 1 => already\n\
    11 0 mark doomed 1 => not-dynamic\n\
    12 0 mark doomed 7 => gone 7\n\
    13 0 open 2 /svc/log => source-shut 1\n\
    14 0 open-exposed 1 data => source-shut 1\n\
    15 0 begin start 1 => shut 1\n\
    == realm 9 99 refuses what is closing and isn't resolved\n\
    0 resolve 0 @root\n\
    0 resolve 2 @client\n\
    --\n\
    0 close 1\n\
    0 find 0 store/log\n\
    0 route 2 /svc/log\n\
    0 begin 1 resolve\n\
    =>\n\
    5 0 mark closing 1 => marked\n\
    6 0 find store/log => shut 1\n\
    7 0 route 2 /svc/log => source-shut 1\n\
    8 0 begin resolve 1 => shut 1\n\
    == realm 9 99 creates children\n\
    0 resolve 0 @collection\n\
    0 create 0 create . coll one #new\n\
    0 resolve 1 {}\n\
    --\n\
    2 create 0 create . coll one #new\n\
    2 create 0 create . coll two #new\n\
    2 create 0 create . other one #new\n\
    2 create 1 create . coll one #new\n\
    2 create 2 create . coll one #new\n\
    2 list 0 coll\n\
    2 doom 1\n\
    2 doom 1\n\
    2 show 1\n\
    2 create 0 create . coll one #new\n\
    2 close 0\n\
    2 create 0 create . coll six #new\n\
    =>\n\
    6 2 create 0 coll one #new => exists 1\n\
    7 2 create 0 coll two #new => created 2\n\
    8 2 create 0 other one #new => no-collection\n\
    9 2 create 1 coll one #new => no-collection\n\
    10 2 create 2 coll one #new => need 2\n\
    11 2 list 0 coll => listed 2 [one incarnation 1] [two incarnation 2]\n\
    12 2 mark doomed 1 => marked\n\
    13 2 mark doomed 1 => already\n\
    14 2 show 1 => gone 1\n\
    15 2 create 0 coll one #new => created 3\n\
    16 2 mark closing 0 => marked\n\
    17 2 create 0 coll six #new => closing 0\n";

/// What the order picks for a target, which is asked by its name, and after it the line of the realm's own
/// pick. The client uses what the store has, so that it goes first.
pub const PICKS: &str = "\
    == pick 9 99 shuts what doesn't run, the client first\n\
    0 resolve 0 @root\n\
    0 resolve 1 @store\n\
    0 resolve 2 @client\n\
    --\n\
    0\n\
    0\n\
    0\n\
    0\n\
    =>\n\
    shut 2\n\
    8 0 pick 0 => shutdown 2\n\
    shut 1\n\
    10 0 pick 0 => shutdown 1\n\
    shut 0\n\
    12 0 pick 0 => shutdown 0\n\
    done\n\
    14 0 pick 0 => done\n\
    == pick 9 99 stops the client that runs, and waits until it has stopped\n\
    0 resolve 0 @root\n\
    0 resolve 1 @store\n\
    0 resolve 2 @client\n\
    0 started 1\n\
    0 started 2\n\
    --\n\
    0\n\
    0\n\
    =>\n\
    stop 2\n\
    12 0 pick 0 => stopping 2 6\n\
    wait for 6\n";

/// Instances that go with one that stops, and what is left to be removed of it.
pub const EXPIRIES: &str = "\
    == realm 9 99 loses its children in collections when it stops, and no others\n\
    0 resolve 0 {children:[{name:'a',url:'#a'}],collections:[{name:'coll',\
    durability:'transient'}]}\n\
    0 create 0 create . coll one #new\n\
    0 create 0 create . coll two #new\n\
    0 started 0\n\
    --\n\
    0 reap 0\n\
    0 killed 0\n\
    0 show 1\n\
    0 begin 2 start\n\
    0 find 0 coll:two\n\
    0 list 0 coll\n\
    0 create 0 create . coll one #new\n\
    3 reap 0\n\
    3 reap 2\n\
    3 reap 4\n\
    3 reap 9\n\
    =>\n\
    7 0 reap 0 => reaping\n\
    8 0 begin stop 0 => begun 3\n\
    9 0 end 3 killed => ended killed\n\
    10 0 show 1 => shown unresolved off\n\
    11 0 begin start 2 => gone 2\n\
    12 0 find coll:two => not-found .\n\
    13 0 list 0 coll => listed 0\n\
    14 0 create 0 coll one #new => created 4\n\
    15 3 reap 0 => reaping 2 3\n\
    16 3 reap 2 => reaping 2\n\
    17 3 reap 4 => reaping\n\
    18 3 reap 9 => reaping\n\
    == realm 9 99 goes itself when it has run once, and its children with it\n\
    0 resolve 0 {collections:[{name:'once',durability:'single_run'}]}\n\
    0 create 0 create . once one #new\n\
    0 resolve 1 @collection\n\
    0 create 1 create . coll two #new\n\
    0 started 1\n\
    --\n\
    0 exited 1\n\
    0 find 0 once:one\n\
    0 show 2\n\
    0 reap 1\n\
    0 reap 2\n\
    0 reap 0\n\
    =>\n\
    9 0 exited 1 => left\n\
    10 0 find once:one => not-found .\n\
    11 0 show 2 => gone 2\n\
    12 0 reap 1 => reaping 1\n\
    13 0 reap 2 => reaping\n\
    14 0 reap 0 => reaping 1\n\
    == realm 9 99 loses a child whose start is pending\n\
    0 resolve 0 @collection\n\
    0 create 0 create . coll one #new\n\
    0 resolve 1 {}\n\
    0 started 0\n\
    --\n\
    2 begin 1 start\n\
    0 killed 0\n\
    2 exited 1\n\
    3 begin 1 start\n\
    3 reap 0\n\
    =>\n\
    8 2 begin start 1 => begun 4\n\
    9 0 begin stop 0 => begun 5\n\
    10 0 end 5 killed => ended killed\n\
    busy 4\n\
    11 3 begin start 1 => gone 1\n\
    12 3 reap 0 => reaping 1\n\
    == realm 9 99 names what an earlier stop has left, too\n\
    0 resolve 0 @collection\n\
    0 create 0 create . coll one #new\n\
    0 started 0\n\
    0 killed 0\n\
    0 started 0\n\
    0 create 0 create . coll two #new\n\
    --\n\
    0 reap 0\n\
    0 killed 0\n\
    0 reap 0\n\
    =>\n\
    11 0 reap 0 => reaping 1\n\
    12 0 begin stop 0 => begun 5\n\
    13 0 end 5 killed => ended killed\n\
    14 0 reap 0 => reaping 1 2\n";

/// Answers to uses that are kept. A child that is created, one that is marked to be destroyed, and the
/// end of a resolve empty what is kept, so that the next answer is that of a walk in the tree as it is by
/// then. An opening by a client that is on finds what a route has left, and the other way round; what
/// fails is kept, and what needs an instance isn't, nor what is exposed.
pub const KEPT: &str = "\
    == realm 9 99 walks anew behind a child that is destroyed, and behind one that is created\n\
    0 resolve 0 {collections:[{name:'dyn',durability:'transient',\
    allowed_offers:'static_and_dynamic'}]}\n\
    0 create 0 create . dyn x #x\n\
    0 create 0 create . dyn z #z + protocol p #dyn:x\n\
    0 resolve 1 @provider\n\
    0 resolve 2 {use:[{protocol:'p'}]}\n\
    --\n\
    0 route 2 /svc/p\n\
    0 route 2 /svc/p\n\
    0 doom 1\n\
    0 route 2 /svc/p\n\
    0 create 0 create . dyn x #x\n\
    0 route 2 /svc/p\n\
    0 route 2 /svc/p\n\
    0 resolve 3 @provider\n\
    0 route 2 /svc/p\n\
    =>\n\
    9 0 route 2 /svc/p => given /svc/p at dyn:x incarnation 1 through use dyn:z, offer ., \
    expose dyn:x, capability dyn:x\n\
    10 0 route 2 /svc/p => given /svc/p at dyn:x incarnation 1 through use dyn:z, offer ., \
    expose dyn:x, capability dyn:x\n\
    kept 1\n\
    11 0 mark doomed 1 => marked\n\
    12 0 route 2 /svc/p => failed no-instance at offer .\n\
    13 0 create 0 dyn x #x => created 3\n\
    14 0 route 2 /svc/p => need 3\n\
    15 0 route 2 /svc/p => need 3\n\
    16 0 begin resolve 3 => begun 4\n\
    17 0 end 4 resolved fuchsia-pkg://t/a#x {\"capabilities\":[{\"path\":\"/svc/p\",\
    \"protocol\":\"p\"}],\"children\":[],\"collections\":[],\"expose\":[{\"as\":\"p\",\
    \"availability\":\"required\",\"from\":\"self\",\"protocol\":\"p\"}],\"offer\":[],\"use\":[]} \
    => ended resolved\n\
    18 0 route 2 /svc/p => given /svc/p at dyn:x incarnation 3 through use dyn:z, offer ., \
    expose dyn:x, capability dyn:x\n\
    == realm 9 99 walks anew behind the end of a resolve\n\
    0 resolve 0 {children:[{name:'store',url:'#store'},{name:'client',url:'#client'},\
    {name:'other',url:'#other'}],offer:[{protocol:'log',from:'#store',to:'#client'}]}\n\
    0 resolve 1 @store\n\
    0 resolve 2 @client\n\
    --\n\
    0 route 2 /svc/log\n\
    0 resolve 3 {}\n\
    0 route 2 /svc/log\n\
    0 route 2 /svc/log\n\
    =>\n\
    7 0 route 2 /svc/log => given /svc/log at store incarnation 1 through use client, offer ., \
    expose store, capability store\n\
    8 0 begin resolve 3 => begun 4\n\
    9 0 end 4 resolved fuchsia-pkg://t/a#x {\"capabilities\":[],\"children\":[],\"collections\":[],\
    \"expose\":[],\"offer\":[],\"use\":[]} => ended resolved\n\
    10 0 route 2 /svc/log => given /svc/log at store incarnation 1 through use client, offer ., \
    expose store, capability store\n\
    11 0 route 2 /svc/log => given /svc/log at store incarnation 1 through use client, offer ., \
    expose store, capability store\n\
    kept 1\n\
    == realm 9 99 keeps answers to routes and openings alike\n\
    0 resolve 0 @root\n\
    0 resolve 1 @store\n\
    0 resolve 2 @client\n\
    --\n\
    0 route 2 /svc/log\n\
    0 open 2 /svc/log\n\
    0 started 2\n\
    0 open 2 /svc/log\n\
    0 route 2 /svc/secret\n\
    0 open 2 /svc/secret\n\
    0 open 2 /in\n\
    0 route 2 /in\n\
    0 open-exposed 1 log\n\
    0 open-exposed 1 log\n\
    =>\n\
    7 0 route 2 /svc/log => given /svc/log at store incarnation 1 through use client, offer ., \
    expose store, capability store\n\
    8 0 open 2 /svc/log => client-off\n\
    9 0 begin start 2 => begun 4\n\
    10 0 end 4 started => ended started\n\
    11 0 open 2 /svc/log => need-start 1\n\
    kept 1\n\
    12 0 route 2 /svc/secret => failed no-offer at offer .\n\
    13 0 open 2 /svc/secret => failed no-offer at offer .\n\
    kept 2\n\
    14 0 open 2 /in => need-start 1\n\
    15 0 route 2 /in => given /data at store incarnation 1 rights connect,enumerate,get_attributes,\
    read_bytes,traverse through use client, offer ., expose store, capability store\n\
    kept 3\n\
    16 0 open-exposed 1 log => need-start 1\n\
    17 0 open-exposed 1 log => need-start 1\n";

/// Walks in a tree without instances; then walks from the offer at an index of a root with that manifest,
/// whose children aren't resolved.
pub const WALKS: &str = "\
    == use /svc/p\n\
    =>\n\
    no-such-use\n\
    == expose p\n\
    =>\n\
    failed no-expose at expose .\n\
    == offer 0 {children:[{name:'a',url:'#a'}],capabilities:[{protocol:'log'}],offer:[{\
    protocol:'log',from:'self',to:'#a'}]}\n\
    =>\n\
    given /svc/log at . incarnation 0 through offer ., capability .\n\
    == offer 1 {children:[{name:'a',url:'#a'}],capabilities:[{protocol:'log'}],offer:[{\
    protocol:'log',from:'self',to:'#a'}]}\n\
    =>\n\
    no-such-use\n\
    == offer 1 {children:[{name:'a',url:'#a'}],capabilities:[{directory:'d',path:'/d',\
    rights:['rw*']}],offer:[{protocol:'log',from:'parent',to:'#a'},{directory:'d',from:'self',\
    to:'#a',rights:['r*'],subdir:'s'}]}\n\
    =>\n\
    given /d/s at . incarnation 0 rights connect,enumerate,get_attributes,read_bytes,traverse \
    through offer ., capability .\n\
    == offer 0 {children:[{name:'a',url:'#a'}],capabilities:[{directory:'d',path:'/d',\
    rights:['connect']}],offer:[{directory:'d',from:'self',to:'#a'}]}\n\
    =>\n\
    given /d at . incarnation 0 rights connect through offer ., capability .\n\
    == offer 0 {children:[{name:'a',url:'#a'}],capabilities:[{directory:'d',path:'/d',\
    rights:['connect']}],offer:[{directory:'d',from:'self',to:'#a',rights:['r*']}]}\n\
    =>\n\
    failed rights-too-weak at capability .\n\
    == offer 0 {children:[{name:'a',url:'#a'}],offer:[{protocol:'log',from:'void',to:'#a',\
    availability:'optional'}]}\n\
    =>\n\
    void at offer .\n\
    == offer 0 {children:[{name:'a',url:'#a'},{name:'b',url:'#b'}],offer:[{protocol:'log',\
    from:'#b',to:'#a'}]}\n\
    =>\n\
    need 2\n";

/// Where monikers lead: in a tree of a root alone, in one whose root has one child, and in one whose
/// instances 0, 1 and 3 are resolved. Each look is counted.
pub const LOCATED: &str = "\
    == locate .\n\
    =>\n\
    found 0 in 0\n\
    == locate a\n\
    =>\n\
    unresolved 0 in 1\n\
    == locate a/b\n\
    0 {children:[{name:'a',url:'#a'}]}\n\
    =>\n\
    unresolved 1 in 3\n\
    == locate core/session\n\
    0 {children:[{name:'core',url:'#core'}],offer:[{protocol:['fuchsia.boot.Items',\
    'fuchsia.kernel.RootJob'],from:'parent',to:'#core'}]}\n\
    1 {children:[{name:'archivist',url:'#archivist'},{name:'session',url:'#session',\
    startup:'lazy'}],offer:[{protocol:['fuchsia.logger.LogSink',\
    'fuchsia.diagnostics.ArchiveAccessor'],from:'#archivist',to:['#session']},{\
    protocol:'fuchsia.boot.Items',from:'parent',to:'#archivist'}]}\n\
    3 {program:{runner:'elf'},children:[{name:'shell',url:'#shell',startup:'eager'}],\
    collections:[{name:'elements',durability:'transient',allowed_offers:'static_and_dynamic'}],\
    offer:[{protocol:'fuchsia.logger.LogSink',from:'parent',to:['#shell','#elements']}]}\n\
    =>\n\
    found 3 in 4\n\
    == locate core/none\n\
    0 {children:[{name:'core',url:'#core'}],offer:[{protocol:['fuchsia.boot.Items',\
    'fuchsia.kernel.RootJob'],from:'parent',to:'#core'}]}\n\
    1 {children:[{name:'archivist',url:'#archivist'},{name:'session',url:'#session',\
    startup:'lazy'}],offer:[{protocol:['fuchsia.logger.LogSink',\
    'fuchsia.diagnostics.ArchiveAccessor'],from:'#archivist',to:['#session']},{\
    protocol:'fuchsia.boot.Items',from:'parent',to:'#archivist'}]}\n\
    =>\n\
    missing 1 in 4\n";

/// Realm graphs: a client before its source; two that offer each other something; the same where the second
/// offer is weak; a component that uses its child.
pub const GRAPHS: &str = "\
    == graph {children:[{name:'a',url:'u'},{name:'b',url:'u'}],offer:[{protocol:'p',from:'#a',to:'#b'}]}\n\
    =>\n\
    order b a self\n\
    == graph {children:[{name:'a',url:'u'},{name:'b',url:'u'}],offer:[{protocol:'p',from:'#a',to:'#b'},\
    {protocol:'q',from:'#b',to:'#a'}]}\n\
    =>\n\
    cycle a b a\n\
    == graph {children:[{name:'a',url:'u'},{name:'b',url:'u'}],offer:[{protocol:'p',from:'#a',to:'#b'},\
    {protocol:'q',from:'#b',to:'#a',dependency:'weak'}]}\n\
    =>\n\
    order b a self\n\
    == graph {children:[{name:'a',url:'u'}],use:[{protocol:'p',from:'#a'}]}\n\
    =>\n\
    order self a\n";

/// What a history tells: of a child that is started and exits, and of the root that is started and killed; all
/// of it, and what the entries behind the seventh tell of the child.
pub const STREAMS: &str = "\
    == events 9 99 tells ends and an exit\n\
    0 resolve 0 @collection\n\
    0 create 0 create . coll one #new\n\
    0 resolve 1 {}\n\
    0 started 1\n\
    0 exited 1\n\
    0 started 0\n\
    0 killed 0\n\
    --\n\
    0 .\n\
    7 coll:one\n\
    12 .\n\
    =>\n\
    2 resolved . 0\n\
    5 resolved coll:one 1\n\
    7 started coll:one 1\n\
    8 stopped coll:one 1\n\
    10 started . 0\n\
    12 stopped . 0\n\
    8 stopped coll:one 1\n";
