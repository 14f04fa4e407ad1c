//! The faults of environments and storage, as `check` tells them.

/// Manifests whose environments or storage have a fault, or none.
pub const JUDGED: &str = "\
    == check\n\
    | {environments:[{name:'e'},{name:'f'},{name:'e'}]}\n\
    => 1\n\
    out invalid 90 environments 2\n\
    == check\n\
    | {children:[{name:'a',url:'#a',environment:'#e'}],collections:[{name:'c',durability:'transient',\
    environment:'#f'}]}\n\
    => 1\n\
    out invalid 91 children 0\n\
    == check\n\
    | {environments:[{name:'e'}],children:[{name:'a',url:'#a',environment:'#e'}],collections:[{name:'c',\
    durability:'transient',environment:'#f'}]}\n\
    => 1\n\
    out invalid 91 collections 0\n\
    == check\n\
    | {environments:[{name:'e'},{name:'f',runners:[{runner:'r',from:'parent'},{runner:'s',from:'parent',\
    as:'r'}]}]}\n\
    => 1\n\
    out invalid 92 environments 1\n\
    == check\n\
    | {environments:[{name:'f',debug:[{protocol:['p','p'],from:'parent'}]}]}\n\
    => 1\n\
    out invalid 92 environments 0\n\
    == check\n\
    | {environments:[{name:'f',runners:[{runner:'r',from:'parent'},{runner:'r',from:'self',as:'s'}],\
    debug:[{protocol:'r',from:'parent'}]}]}\n\
    => 0\n\
    out valid\n\
    == check\n\
    | {environments:[{name:'f',runners:[{runner:'r',from:'#a'}]}]}\n\
    => 1\n\
    out invalid 93 environments 0\n\
    == check\n\
    | {environments:[{name:'e'},{name:'f',debug:[{protocol:'p',from:'self'}]}],capabilities:[{directory:'p',\
    path:'/p',rights:['r*']}]}\n\
    => 1\n\
    out invalid 93 environments 1\n\
    == check\n\
    | {environments:[{name:'f',debug:[{protocol:'p',from:'self'}]}],capabilities:[{protocol:'p'}]}\n\
    => 0\n\
    out valid\n\
    == check\n\
    | {use:[{protocol:'p',path:'/svc/a'},{protocol:'q',from:'debug',path:'/svc/b'},{protocol:'r',from:'debug',\
    path:'/svc/a'}]}\n\
    => 1\n\
    out invalid 94 use 1\n\
    == check\n\
    | {use:[{protocol:'q',from:'debug',path:'/svc/b'},{protocol:'r',from:'debug',path:'/svc/b'}]}\n\
    => 1\n\
    out invalid 94 use 1\n\
    == check\n\
    | {environments:[{name:'e',runners:[{runner:'r',from:'#a'}]},{name:'e'}]}\n\
    => 1\n\
    out invalid 90 environments 1\n\
    == check\n\
    | {children:[{name:'a',url:'#a',environment:'#e'},{name:'b',url:'#b'}],offer:[{protocol:'p',from:'#a',\
    to:'#b'},{protocol:'q',from:'#b',to:'#a'}]}\n\
    => 1\n\
    out invalid 58 graph 0 a b a\n\
    == check\n\
    | {capabilities:[{storage:'s',from:'parent',backing_dir:'d',storage_id:'static_instance_id'},{\
    protocol:'s'},{storage:'s',from:'parent',backing_dir:'d',storage_id:'static_instance_id'}]}\n\
    => 1\n\
    out invalid 95 capabilities 1\n\
    == check\n\
    | {capabilities:[{storage:'s',from:'#a',backing_dir:'d',storage_id:'static_instance_id'}],offer:[\
    {storage:'s',from:'self',to:'#b'}]}\n\
    => 1\n\
    out invalid 96 capabilities 0\n\
    == check\n\
    | {offer:[{storage:'s',from:'parent',to:'#b'}]}\n\
    => 1\n\
    out invalid 96 offer 0\n\
    == check\n\
    | {children:[{name:'a',url:'#a'}],offer:[{storage:'s',from:'parent',to:'#a'},{storage:'s',from:'self',\
    to:'#a',as:'t'}],capabilities:[{directory:'s',path:'/s',rights:['r*']}]}\n\
    => 1\n\
    out invalid 97 offer 1\n\
    == check\n\
    | {use:[{protocol:'q',from:'debug',path:'/svc/b'},{protocol:'r',from:'debug',path:'/svc/b'}],capabilities:[\
    {storage:'s',from:'#a',backing_dir:'d',storage_id:'static_instance_id'}]}\n\
    => 1\n\
    out invalid 94 use 1\n\
    == check\n\
    | {environments:[{name:'e',extends:'realm',runners:[{runner:'r',from:'#a',as:'t'}]}],children:[\
    {name:'a',url:'#a',environment:'#e'}],capabilities:[{storage:'s',from:'#a',backing_dir:'d',storage_id:'static_instance_id'}],\
    offer:[{storage:'s',from:'self',to:'#a'}]}\n\
    => 0\n\
    out valid\n";
