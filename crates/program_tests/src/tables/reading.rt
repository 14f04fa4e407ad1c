//! What manifests are read as, and whether they are valid.

/// Manifests that have a fault, which has its number and place.
pub const MANIFESTS: &str = "\
    == check\n\
    + {children:[\n\
    $no-json$\n\
    == check\n\
    + {children:[]/\n\
    $no-json$\n\
    == check\n\
    + []\n\
    => 1\n\
    out invalid 32 manifest 0\n\
    == check\n\
    + {zoo:1,any:2,facets:3}\n\
    => 1\n\
    out invalid 33 manifest 0 any\n\
    == check\n\
    + {children:[{name:'a',url:'u'},{url:'u'}]}\n\
    => 1\n\
    out invalid 34 children 1 name\n\
    == check\n\
    + {program:[]}\n\
    => 1\n\
    out invalid 35 program 0\n\
    == check\n\
    + {use:[{protocol:[]}]}\n\
    => 1\n\
    out invalid 35 use 0 protocol\n\
    == check\n\
    + {expose:[{protocol:'p',from:'#'}]}\n\
    => 1\n\
    out invalid 36 expose 0 from\n\
    == check\n\
    + {capabilities:[{directory:'d',path:'/a/../b',rights:['r*']}]}\n\
    => 1\n\
    out invalid 37 capabilities 0 path\n\
    == check\n\
    + {use:[{directory:'d',path:'/d',rights:['r*','r*']}]}\n\
    => 1\n\
    out invalid 38 use 0 rights\n\
    == check\n\
    + {collections:[{name:'c',durability:'forever'}]}\n\
    => 1\n\
    out invalid 39 collections 0 durability\n\
    == check\n\
    + {offer:[{from:'self',to:'#c'}]}\n\
    => 1\n\
    out invalid 40 offer 0\n\
    == check\n\
    + {offer:[{protocol:['p','q'],from:'self',to:'#c',as:'r'}]}\n\
    => 1\n\
    out invalid 42 offer 0 as\n\
    == check\n\
    + {expose:3,children:[{}],program:{}}\n\
    => 1\n\
    out invalid 34 program 0 runner\n\
    == check\n\
    + {use:[{},{protocol:'-'}],children:[3]}\n\
    => 1\n\
    out invalid 35 children 0\n\
    == check\n\
    + {use:[{protocol:'p',directory:'d',color:1}]}\n\
    => 1\n\
    out invalid 40 use 0\n\
    == check\n\
    + {use:[{protocol:'-',color:1,colour:2}]}\n\
    => 1\n\
    out invalid 33 use 0 color\n\
    == check\n\
    + {use:[{availability:'maybe',protocol:'-'}]}\n\
    => 1\n\
    out invalid 36 use 0 protocol\n\
    == check\n\
    + {offer:[{protocol:['p','q'],from:'self',to:['#-','x'],as:'-'}]}\n\
    => 1\n\
    out invalid 36 offer 0 to\n\
    == check\n\
    + {offer:[{protocol:['p','q'],from:'self',to:['x','#-'],as:'-'}]}\n\
    => 1\n\
    out invalid 39 offer 0 to\n\
    == check\n\
    + {offer:[{protocol:['p','q'],from:'self',to:'#c',as:'-'}]}\n\
    => 1\n\
    out invalid 36 offer 0 as\n\
    == check\n\
    + {\n\
    fill 255 1\n\
    + }\n\
    => 1\n\
    out invalid 30 manifest 0\n";

/// Declarations with two children, a collection and a protocol, and their faults.
pub const VALID: &str = "\
    == check\n\
    + {children:[{name:'a',url:'#meta/child.cm'},{name:'b',url:'#meta/child.cm'}],\
    collections:[{name:'c',durability:'transient'}],capabilities:[{protocol:'p',path:'/svc/p'}]}\n\
    => 0\n\
    out valid\n\
    == check\n\
    + {children:[{name:'a',url:'#meta/child.cm'},{name:'b',url:'#meta/child.cm'},{name:'a',\
    url:'#meta/child.cm'}],collections:[{name:'c',durability:'transient'}],capabilities:[{protocol:'p',\
    path:'/svc/p'}]}\n\
    => 1\n\
    out invalid 50 children 2 children 0\n\
    == check\n\
    + {children:[{name:'a',url:'#meta/child.cm'},{name:'b',url:'#meta/child.cm'}],\
    collections:[{name:'c',durability:'transient'},{name:'b',durability:'transient'}],\
    capabilities:[{protocol:'p',path:'/svc/p'}]}\n\
    => 1\n\
    out invalid 50 collections 1 children 1\n\
    == check\n\
    + {children:[{name:'a',url:'#meta/child.cm'},{name:'b',url:'#meta/child.cm'}],\
    collections:[{name:'c',durability:'transient'}],capabilities:[{protocol:'p',path:'/svc/p'},\
    {directory:'p',path:'/svc/p',rights:['r*']}]}\n\
    => 1\n\
    out invalid 50 capabilities 1 capabilities 0\n\
    == check\n\
    + {children:[{name:'a',url:'#meta/child.cm'},{name:'b',url:'#meta/child.cm'}],\
    collections:[{name:'c',durability:'transient'}],capabilities:[{protocol:'p',path:'/svc/p'}],\
    use:[{protocol:'p',from:'#d',path:'/svc/p'}]}\n\
    => 1\n\
    out invalid 51 use 0\n\
    == check\n\
    + {children:[{name:'a',url:'#meta/child.cm'},{name:'b',url:'#meta/child.cm'}],\
    collections:[{name:'c',durability:'transient'}],capabilities:[{protocol:'p',path:'/svc/p'}],\
    offer:[{protocol:'p',from:'parent',to:'#d'}]}\n\
    => 1\n\
    out invalid 51 offer 0\n\
    == check\n\
    + {children:[{name:'a',url:'#meta/child.cm'},{name:'b',url:'#meta/child.cm'}],\
    collections:[{name:'c',durability:'transient'}],capabilities:[{protocol:'p',path:'/svc/p'}],\
    use:[{protocol:'q',from:'self',path:'/svc/q'}]}\n\
    => 1\n\
    out invalid 52 use 0\n\
    == check\n\
    + {children:[{name:'a',url:'#meta/child.cm'},{name:'b',url:'#meta/child.cm'}],\
    collections:[{name:'c',durability:'transient'}],capabilities:[{protocol:'p',path:'/svc/p'}],\
    expose:[{directory:'p',from:'framework'}]}\n\
    => 1\n\
    out invalid 52 expose 0\n\
    == check\n\
    + {children:[{name:'a',url:'#meta/child.cm'},{name:'b',url:'#meta/child.cm'}],\
    collections:[{name:'c',durability:'transient'}],capabilities:[{protocol:'p',path:'/svc/p'}],\
    offer:[{protocol:'p',from:'#a',to:'#a'}]}\n\
    => 1\n\
    out invalid 53 offer 0\n\
    == check\n\
    + {children:[{name:'a',url:'#meta/child.cm'},{name:'b',url:'#meta/child.cm'}],\
    collections:[{name:'c',durability:'transient'}],capabilities:[{protocol:'p',path:'/svc/p'}],\
    offer:[{protocol:'p',from:'parent',to:'#a'},{protocol:'p',from:'#b',to:'#a'}]}\n\
    => 1\n\
    out invalid 54 offer 1 offer 0\n\
    == check\n\
    + {children:[{name:'a',url:'#meta/child.cm'},{name:'b',url:'#meta/child.cm'}],\
    collections:[{name:'c',durability:'transient'}],capabilities:[{protocol:'p',path:'/svc/p'}],\
    expose:[{protocol:'p',from:'#a'},{directory:'p',from:'#b'}]}\n\
    => 1\n\
    out invalid 54 expose 1 expose 0\n\
    == check\n\
    + {children:[{name:'a',url:'#meta/child.cm'},{name:'b',url:'#meta/child.cm'}],\
    collections:[{name:'c',durability:'transient'}],capabilities:[{protocol:'p',path:'/svc/p'}],\
    use:[{protocol:'p',from:'#a',path:'/svc/p'},{protocol:'q',from:'#a',path:'/svc/p'}]}\n\
    => 1\n\
    out invalid 55 use 1 use 0\n\
    == check\n\
    + {children:[{name:'a',url:'#meta/child.cm'},{name:'b',url:'#meta/child.cm'}],\
    collections:[{name:'c',durability:'transient'}],capabilities:[{protocol:'p',path:'/svc/p'}],\
    use:[{protocol:'p',from:'#a',path:'/svc/p'},{protocol:'q',from:'#a',path:'/svcs'},{directory:'r',\
    from:'#a',path:'/svc',rights:['r*']}]}\n\
    => 1\n\
    out invalid 56 use 2 use 0\n\
    == check\n\
    + {use:[{directory:'r',path:'/svc',rights:['r*']},{protocol:'q',path:'/svcs/a'}]}\n\
    => 0\n\
    out valid\n\
    == check\n\
    + {children:[{name:'a',url:'#meta/child.cm'},{name:'b',url:'#meta/child.cm'}],\
    collections:[{name:'c',durability:'transient'}],capabilities:[{protocol:'p',path:'/svc/p'}],\
    offer:[{protocol:'p',from:'void',to:'#a',availability:'optional'},{protocol:'q',from:'void',\
    to:'#a'}]}\n\
    => 1\n\
    out invalid 57 offer 1\n\
    == check\n\
    + {children:[{name:'a',url:'#meta/child.cm'},{name:'b',url:'#meta/child.cm'}],\
    collections:[{name:'c',durability:'transient'}],capabilities:[{protocol:'p',path:'/svc/p'}],\
    offer:[{protocol:'p',from:'#a',to:'#b'},{protocol:'q',from:'#b',to:'#a'}]}\n\
    => 1\n\
    out invalid 58 graph 0 a b a\n\
    == check\n\
    + {children:[{name:'a',url:'#meta/child.cm'},{name:'b',url:'#meta/child.cm'}],\
    collections:[{name:'c',durability:'transient'}],capabilities:[{protocol:'p',path:'/svc/p'}],\
    use:[{protocol:'p',from:'#a',path:'/svc/p'}],offer:[{protocol:'p',from:'self',to:'#a'}]}\n\
    => 1\n\
    out invalid 58 graph 0 self a self\n\
    == check\n\
    + {children:[{name:'a',url:'#meta/child.cm'},{name:'b',url:'#meta/child.cm'}],\
    collections:[{name:'c',durability:'transient'}],capabilities:[{protocol:'p',path:'/svc/p'}],\
    offer:[{protocol:'p',from:'#a',to:'#b'},{protocol:'q',from:'#b',to:'#a',dependency:'weak'}]}\n\
    => 0\n\
    out valid\n\
    == check\n\
    + {children:[{name:'a',url:'#meta/child.cm'},{name:'b',url:'#meta/child.cm'}],\
    collections:[{name:'c',durability:'transient'}],capabilities:[{protocol:'p',path:'/svc/p'}],\
    offer:[{protocol:'p',from:'#a',to:'#b'},{protocol:'q',from:'#b',to:'#a'},{protocol:'q',from:'#b',\
    to:'#a'}]}\n\
    => 1\n\
    out invalid 54 offer 2 offer 1\n";

/// Fields of environments and storage, and sources that may be missing.
pub const FIELDS: &str = "\
    == check\n\
    + {use:[{protocol:'p',availability:'same_as_target'}]}\n\
    => 1\n\
    out invalid 39 use 0 availability\n\
    == check\n\
    + {use:[{protocol:'p',source_availability:'unknown'}]}\n\
    => 1\n\
    out invalid 33 use 0 source_availability\n\
    == check\n\
    + {capabilities:[{protocol:'p',source_availability:'unknown'}]}\n\
    => 1\n\
    out invalid 33 capabilities 0 source_availability\n\
    == check\n\
    + {offer:[{storage:'s',from:'self',to:'#a',source_availability:'unknown'}]}\n\
    => 1\n\
    out invalid 33 offer 0 source_availability\n\
    == check\n\
    + {offer:[{protocol:'p',from:'self',to:'#a',source_availability:'maybe'}]}\n\
    => 1\n\
    out invalid 39 offer 0 source_availability\n\
    == check\n\
    + {offer:[{protocol:'p',from:'self',to:'#a',source_availability:1,availability:'no'}]}\n\
    => 1\n\
    out invalid 39 offer 0 availability\n\
    == check\n\
    + {expose:[{protocol:'p',from:'self',source_availability:[]}]}\n\
    => 1\n\
    out invalid 35 expose 0 source_availability\n\
    == check\n\
    | {children:[{name:'a',url:'u'}],offer:[{protocol:'p',from:'#no',to:'#a',availability:'optional',\n\
    + source_availability:'unknown'}]}\n\
    => 0\n\
    out valid\n\
    == check\n\
    + {children:[{name:'a',url:'u'}],offer:[{protocol:'p',from:'#no',to:'#a',availability:'optional'}]}\n\
    => 1\n\
    out invalid 51 offer 0\n\
    == check\n\
    | {children:[{name:'a',url:'u'}],offer:[{protocol:'p',from:'#no',to:'#a',\n\
    + source_availability:'unknown'}]}\n\
    => 1\n\
    out invalid 57 offer 0\n\
    == check\n\
    | {children:[{name:'a',url:'u'}],offer:[{protocol:'p',from:'#a',to:'#a',\n\
    + source_availability:'unknown'}]}\n\
    => 1\n\
    out invalid 53 offer 0\n\
    == check\n\
    | {children:[{name:'a',url:'u'}],offer:[{protocol:'p',from:'void',to:'#a',\n\
    + availability:'same_as_target'}]}\n\
    => 1\n\
    out invalid 57 offer 0\n\
    == check\n\
    | {children:[{name:'a',url:'u'},{name:'b',url:'u'}],offer:[{protocol:'p',from:'#b',to:'#a',\n\
    + source_availability:'unknown'}]}\n\
    => 0\n\
    out valid\n\
    == check\n\
    | {collections:[{name:'c',durability:'transient'}],expose:[{protocol:'p',from:'#c',\n\
    + source_availability:'unknown'}]}\n\
    => 1\n\
    out invalid 57 expose 0\n\
    == check\n\
    + {expose:[{directory:'d',from:'#no',availability:'transitional',source_availability:'unknown'}]}\n\
    => 0\n\
    out valid\n\
    == check\n\
    + {capabilities:[{storage:'s',from:'#c',backing_dir:'d',storage_id:'static_instance_id'}]}\n\
    => 1\n\
    out invalid 96 capabilities 0\n\
    == check\n\
    + {capabilities:[{storage:'s',protocol:'p'}]}\n\
    => 1\n\
    out invalid 40 capabilities 0\n\
    == check\n\
    + {capabilities:[{storage:['s','t'],zoo:1}]}\n\
    => 1\n\
    out invalid 33 capabilities 0 zoo\n\
    == check\n\
    + {capabilities:[{storage:['s','t']}]}\n\
    => 1\n\
    out invalid 35 capabilities 0 storage\n\
    == check\n\
    + {capabilities:[{storage:'s',path:'/s'}]}\n\
    => 1\n\
    out invalid 33 capabilities 0 path\n\
    == check\n\
    + {capabilities:[{storage:'s',backing_dir:'-'}]}\n\
    => 1\n\
    out invalid 34 capabilities 0 from\n\
    == check\n\
    + {capabilities:[{storage:'s',from:'framework'}]}\n\
    => 1\n\
    out invalid 39 capabilities 0 from\n\
    == check\n\
    + {capabilities:[{storage:'s',from:'self'}]}\n\
    => 1\n\
    out invalid 34 capabilities 0 backing_dir\n\
    == check\n\
    + {capabilities:[{storage:'s',from:'self',backing_dir:'d',subdir:'/x'}]}\n\
    => 1\n\
    out invalid 37 capabilities 0 subdir\n\
    == check\n\
    + {capabilities:[{storage:'s',from:'self',backing_dir:'d'}]}\n\
    => 1\n\
    out invalid 34 capabilities 0 storage_id\n\
    == check\n\
    + {capabilities:[{storage:'s',from:'self',backing_dir:'d',storage_id:'moniker'}]}\n\
    => 1\n\
    out invalid 39 capabilities 0 storage_id\n\
    == check\n\
    + {use:[{storage:'s',from:'#x'}]}\n\
    => 1\n\
    out invalid 39 use 0 from\n\
    == check\n\
    + {use:[{storage:'s'}]}\n\
    => 1\n\
    out invalid 34 use 0 path\n\
    == check\n\
    + {use:[{storage:'s',path:'/s',dependency:'weak'}]}\n\
    => 1\n\
    out invalid 33 use 0 dependency\n\
    == check\n\
    + {use:[{storage:'s',path:'/s',availability:'same_as_target'}]}\n\
    => 1\n\
    out invalid 39 use 0 availability\n\
    == check\n\
    + {use:[{protocol:'p',from:'debug',dependency:'no'}]}\n\
    => 1\n\
    out invalid 39 use 0 dependency\n\
    == check\n\
    + {use:[{directory:'d',from:'debug'}]}\n\
    => 1\n\
    out invalid 39 use 0 from\n\
    == check\n\
    + {offer:[{storage:'s',from:'#x'}]}\n\
    => 1\n\
    out invalid 39 offer 0 from\n\
    == check\n\
    + {offer:[{storage:'s',from:'framework'}]}\n\
    => 1\n\
    out invalid 39 offer 0 from\n\
    == check\n\
    + {offer:[{storage:'s',from:'void'}]}\n\
    => 1\n\
    out invalid 34 offer 0 to\n\
    == check\n\
    + {offer:[{storage:['s','t'],from:'void',to:'#a',as:'r'}]}\n\
    => 1\n\
    out invalid 42 offer 0 as\n\
    == check\n\
    + {offer:[{storage:'s',from:'void',to:'#a',rights:['r*']}]}\n\
    => 1\n\
    out invalid 33 offer 0 rights\n\
    == check\n\
    + {offer:[{storage:'s',from:'void',to:'#a',availability:'same_as_target'}]}\n\
    => 1\n\
    out invalid 96 offer 0\n\
    == check\n\
    + {expose:[{storage:'s'}]}\n\
    => 1\n\
    out invalid 40 expose 0\n\
    == check\n\
    + {expose:[{storage:'s',protocol:'p'}]}\n\
    => 1\n\
    out invalid 33 expose 0 storage\n\
    == check\n\
    + {children:[{name:'a',url:'u',environment:'e'}]}\n\
    => 1\n\
    out invalid 36 children 0 environment\n\
    == check\n\
    + {children:[{name:'a',url:'u',environment:3,startup:'no'}]}\n\
    => 1\n\
    out invalid 39 children 0 startup\n\
    == check\n\
    + {collections:[{name:'c',durability:'transient',environment:['#e']}]}\n\
    => 1\n\
    out invalid 35 collections 0 environment\n\
    == check\n\
    + {collections:[{name:'c',durability:'transient',environment:'#-'}]}\n\
    => 1\n\
    out invalid 36 collections 0 environment\n\
    == check\n\
    + {environments:3,expose:3}\n\
    => 1\n\
    out invalid 35 expose 0\n\
    == check\n\
    + {environments:{}}\n\
    => 1\n\
    out invalid 35 environments 0\n\
    == check\n\
    + {environments:[3]}\n\
    => 1\n\
    out invalid 35 environments 0\n\
    == check\n\
    + {environments:[{name:'e',extends:'all'}]}\n\
    => 1\n\
    out invalid 39 environments 0 extends\n\
    == check\n\
    + {environments:[{name:'e',runners:{}}]}\n\
    => 1\n\
    out invalid 35 environments 0 runners\n\
    == check\n\
    + {environments:[{name:'e'},{name:'f',debug:[3],runners:[{runner:'r',from:'self'}]}]}\n\
    => 1\n\
    out invalid 35 environments 1 debug\n\
    == check\n\
    + {environments:[{name:'e',runners:[{runner:'r',from:'self',zoo:1}]}]}\n\
    => 1\n\
    out invalid 33 environments 0 runners\n\
    == check\n\
    + {environments:[{name:'e',runners:[{from:'self'}],debug:3}]}\n\
    => 1\n\
    out invalid 34 environments 0 runners\n\
    == check\n\
    + {environments:[{name:'e',runners:[{runner:'r',from:'framework'}]}]}\n\
    => 1\n\
    out invalid 39 environments 0 runners\n\
    == check\n\
    + {environments:[{name:'e',runners:[{runner:'r',from:'#a',as:'-'}]}]}\n\
    => 1\n\
    out invalid 36 environments 0 runners\n\
    == check\n\
    + {environments:[{name:'e',debug:[{protocol:['p','q'],from:'self',as:'r'}]}]}\n\
    => 1\n\
    out invalid 42 environments 0 debug\n\
    == check\n\
    + {environments:[{name:'e',debug:[{protocol:[],from:'self'}]}]}\n\
    => 1\n\
    out invalid 35 environments 0 debug\n\
    == check\n\
    + {environments:[{name:'e',resolvers:3,__stop_timeout_ms:'x'}]}\n\
    => 0\n\
    out valid\n";

/// Repeated and undeclared environments, registrations, paths of uses from `debug`, and storages: the
/// first fault by its number is told.
pub const FIRST_BY_NUMBER: &str = "\
    == check\n\
    + {environments:[{name:'e'},{name:'e'}]}\n\
    => 1\n\
    out invalid 90 environments 1\n\
    == check\n\
    + {children:[{name:'a',url:'u',environment:'#e'}]}\n\
    => 1\n\
    out invalid 91 children 0\n\
    == check\n\
    + {collections:[{name:'c',durability:'transient',environment:'#e'}]}\n\
    => 1\n\
    out invalid 91 collections 0\n\
    == check\n\
    + {environments:[{name:'e',runners:[{runner:'r',from:'parent'},{runner:'s',from:'self',as:'r'}]}]}\n\
    => 1\n\
    out invalid 92 environments 0\n\
    == check\n\
    + {environments:[{name:'e',runners:[{runner:'r',from:'#no'}],debug:[{protocol:'p',from:'self'}]}]}\n\
    => 1\n\
    out invalid 93 environments 0\n\
    == check\n\
    + {use:[{protocol:'p'},{protocol:'p',from:'debug'},{protocol:'p',from:'debug'}]}\n\
    => 1\n\
    out invalid 94 use 0\n\
    == check\n\
    | {capabilities:[{storage:'s',from:'self',backing_dir:'d',storage_id:'static_instance_id'},\n\
    + {storage:'s',from:'#no',backing_dir:'d',storage_id:'static_instance_id'}]}\n\
    => 1\n\
    out invalid 95 capabilities 1\n\
    == check\n\
    + {offer:[{storage:'s',from:'self',to:'#no'},{storage:'s',from:'self',to:'#no'}]}\n\
    => 1\n\
    out invalid 96 offer 0\n";

/// The limits of lengths and rows, just kept and just passed. The rows of all kinds count for the limit of
/// their section; a manifest of as many offers as may be is read, and its first offer judged.
pub const LIMITS: &str = "\
    == $brackets$ 1048576\n\
    $no-json$\n\
    == $brackets$ 1048577\n\
    => 1\n\
    out invalid 41 manifest 0\n\
    == check\n\
    + {facets:\n\
    fill 91 127\n\
    + ]]]]]]]]]]]]]]]]]]]]]]]]]]]]]]]]]]]]]]]]]]]]]]]]]]]]]]]]]]]]]]]]]]]]]]]]]]]]]]]]]]]]]]]]]]]]]]]]]]\
    ]]]]]]]]]]]]]]]]]]]]]]]]]]]]]}\n\
    $no-json$\n\
    == check\n\
    + {use:[{protocol:[\n\
    names d 8192\n\
    + ],from:'debug'},{protocol:[\n\
    names p 8192\n\
    + ]}]}\n\
    => 0\n\
    out valid\n\
    == check\n\
    + {use:[{protocol:[\n\
    names p 8193\n\
    + ],from:'debug'},{protocol:[\n\
    names p 8193\n\
    + ]}]}\n\
    => 1\n\
    out invalid 43 use 0\n\
    == check\n\
    + {offer:[{from:'self',protocol:[\n\
    names p 128\n\
    + ],to:[\n\
    names #t 128\n\
    + ]}]}\n\
    => 1\n\
    out invalid 51 offer 0\n\
    == check\n\
    + {offer:[{from:'self',protocol:[\n\
    names p 145\n\
    + ],to:[\n\
    names #t 113\n\
    + ]}]}\n\
    => 1\n\
    out invalid 43 offer 0\n";

/// Declarations as the journal writes them. Each text that is written is read as the same declaration:
/// its own run writes it again.
pub const WRITTEN: &str = "\
    == run --journal\n\
    | manifest fuchsia-pkg://t/a#meta/root.cm\n\
    | \n\
    |     // The realm of a session.\n\
    |     {\n\
    |         program: { runner: 'elf', binary: 'bin/session' },\n\
    |         children: [ { name: 'shell', url: '#meta/shell.cm', startup: 'eager' }, ],\n\
    |         collections: [\n\
    |             { name: 'elements', durability: 'transient', allowed_offers: 'static_and_dynamic' },\n\
    |         ],\n\
    |         capabilities: [ { directory: 'data', path: '/data', rights: [ 'r*' ] } ],\n\
    |         use: [ { protocol: [ 'a.B', 'a.C' ] }, /* from the parent */ ],\n\
    |         offer: [ { protocol: 'a.B', from: 'parent', to: [ '#shell', '#elements' ] } ],\n\
    |         expose: [ { directory: 'data', from: 'self', as: 'session-data', subdir: 'x/y' } ],\n\
    |         facets: { any: [ true, 1.5, null ] },\n\
    |     }\n\
    | %%\n\
    $resolves-the-root$ $session$ => ended resolved\n\
    == run --journal\n\
    | manifest fuchsia-pkg://t/a#meta/root.cm\n\
    | $session$\n\
    | %%\n\
    $resolves-the-root$ $session$ => ended resolved\n\
    == run --journal\n\
    | manifest fuchsia-pkg://t/a#meta/root.cm\n\
    | {use:[{storage:'s',path:'/s'},{protocol:'p',from:'debug'},{protocol:'q',\n\
    | availability:'transitional'}]}\n\
    | %%\n\
    $resolves-the-root$ $uses$ => ended resolved\n\
    == run --journal\n\
    | manifest fuchsia-pkg://t/a#meta/root.cm\n\
    | $uses$\n\
    | %%\n\
    $resolves-the-root$ $uses$ => ended resolved\n\
    == run --journal\n\
    | manifest fuchsia-pkg://t/a#meta/root.cm\n\
    | {environments:[{name:'e',extends:'realm',runners:[{runner:'r',from:'#a',as:'s'}],\n\
    | debug:[{protocol:['p','q'],from:'parent'}]}]}\n\
    | %%\n\
    $resolves-the-root$ $environment$ => ended resolved\n\
    == run --journal\n\
    | manifest fuchsia-pkg://t/a#meta/root.cm\n\
    | $environment$\n\
    | %%\n\
    $resolves-the-root$ $environment$ => ended resolved\n\
    == run --journal\n\
    | manifest fuchsia-pkg://t/a#meta/root.cm\n\
    | {children:[{name:'a',url:'u',environment:'#e'}],capabilities:[{storage:'s',from:'#a',\n\
    | backing_dir:'d',subdir:'x/y',storage_id:'static_instance_id_or_moniker'}],offer:[{storage:['s',\
    't'],\n\
    | from:'self',to:['#a','#c']}]}\n\
    | %%\n\
    $resolves-the-root$ $storage$ => ended resolved\n\
    == run --journal\n\
    | manifest fuchsia-pkg://t/a#meta/root.cm\n\
    | $storage$\n\
    | %%\n\
    $resolves-the-root$ $storage$ => ended resolved\n";
