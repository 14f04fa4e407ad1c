//! Reports on the tree at the end of a run.

/// What is reported of the environments and the storage of instances.
pub const REPORTS: &str = "\
    == environments\n\
    | manifest fuchsia-pkg://t/a#meta/root.cm\n\
    | {environments:[{name:'env',runners:[{runner:'elf',from:'parent'}]}],children:[{name:'a',url:'#meta/a.cm',\
    environment:'#env'},{name:'b',url:'#meta/x.cm'}]}\n\
    | %%\n\
    | manifest fuchsia-pkg://t/a#meta/a.cm\n\
    | {program:{runner:'elf'},children:[{name:'c',url:'#meta/x.cm'}]}\n\
    | %%\n\
    | manifest fuchsia-pkg://t/a#meta/x.cm\n\
    | {program:{runner:'elf'}}\n\
    | %%\n\
    | root fuchsia-pkg://t/a#meta/root.cm\n\
    | 0 resolve a/c\n\
    | 0 resolve b\n\
    => 0\n\
    out a runner elf from parent elf at .\n\
    out a/c runner elf from parent elf at .\n\
    out b runner elf unregistered\n\
    == environments\n\
    | manifest fuchsia-pkg://t/a#meta/root.cm\n\
    | {capabilities:[{protocol:'p'}],environments:[{name:'env',runners:[{runner:'elf',from:'parent'},\
    {runner:'old',from:'#b',as:'new'}],debug:[{protocol:'p',from:'self',as:'d'}]}],children:[{name:'a',\
    url:'#meta/a.cm',environment:'#env'},{name:'b',url:'#meta/x.cm'}]}\n\
    | %%\n\
    | manifest fuchsia-pkg://t/a#meta/a.cm\n\
    | {program:{runner:'new'},environments:[{name:'on',extends:'realm',runners:[{runner:'elf',from:'self'}]},\
    {name:'off'}],collections:[{name:'c',durability:'transient',environment:'#on'}],children:[{name:'on',\
    url:'#meta/y.cm',environment:'#on'},{name:'off',url:'#meta/y.cm',environment:'#off'},{name:'up',\
    url:'#meta/y.cm'}],use:[{protocol:'d',from:'debug',path:'/svc/one'},{protocol:'e',from:'debug',\
    path:'/svc/two'}]}\n\
    | %%\n\
    | manifest fuchsia-pkg://t/a#meta/y.cm\n\
    | {program:{runner:'elf'},use:[{protocol:'d',from:'debug',path:'/svc/d'}]}\n\
    | %%\n\
    | manifest fuchsia-pkg://t/a#meta/x.cm\n\
    | {}\n\
    | %%\n\
    | root fuchsia-pkg://t/a#meta/root.cm\n\
    | 0 create a c y #meta/y.cm\n\
    | 0 resolve a/c:y\n\
    | 0 resolve a/on\n\
    | 0 resolve a/off\n\
    | 0 resolve a/up\n\
    => 0\n\
    out a runner new from #b old at .\n\
    out a debug /svc/one from self p at .\n\
    out a debug /svc/two unregistered\n\
    out a/on runner elf from self elf at a\n\
    out a/on debug /svc/d from self p at .\n\
    out a/off runner elf unregistered\n\
    out a/off debug /svc/d unregistered\n\
    out a/up runner elf from parent elf at .\n\
    out a/up debug /svc/d from self p at .\n\
    out a/c:y runner elf from self elf at a\n\
    out a/c:y debug /svc/d from self p at .\n\
    == environments\n\
    | manifest fuchsia-pkg://t/a#meta/root.cm\n\
    | {children:[{name:'a',url:'#meta/x.cm'}]}\n\
    | %%\n\
    | manifest fuchsia-pkg://t/a#meta/x.cm\n\
    | {}\n\
    | %%\n\
    | root fuchsia-pkg://t/a#meta/root.cm\n\
    | 0 resolve a\n\
    => 0\n\
    == storage\n\
    | manifest fuchsia-pkg://t/a#meta/root.cm\n\
    | {children:[{name:'fs',url:'#meta/fs.cm'},{name:'client',url:'#meta/client.cm'}],capabilities:[\
    {storage:'data',from:'#fs',backing_dir:'mem',subdir:'s',storage_id:'static_instance_id_or_moniker'}],\
    offer:[{storage:'data',from:'self',to:'#client'}]}\n\
    | %%\n\
    | manifest fuchsia-pkg://t/a#meta/fs.cm\n\
    | {capabilities:[{directory:'mem',path:'/mem',rights:['rw*']}],expose:[{directory:'mem',from:'self'}]}\n\
    | %%\n\
    | manifest fuchsia-pkg://t/a#meta/client.cm\n\
    | {use:[{storage:'data',path:'/data'}]}\n\
    | %%\n\
    | root fuchsia-pkg://t/a#meta/root.cm\n\
    | 0 resolve client\n\
    | 0 resolve fs\n\
    => 0\n\
    out client storage /data at /mem/s/client/data in fs incarnation 1\n\
    == storage\n\
    | manifest fuchsia-pkg://t/a#meta/root.cm\n\
    | {children:[{name:'fs',url:'#meta/fs.cm'},{name:'client',url:'#meta/client.cm'}],capabilities:[\
    {storage:'data',from:'#fs',backing_dir:'mem',subdir:'s',storage_id:'static_instance_id_or_moniker'}],\
    offer:[]}\n\
    | %%\n\
    | manifest fuchsia-pkg://t/a#meta/fs.cm\n\
    | {capabilities:[{directory:'mem',path:'/mem',rights:['rw*']}],expose:[{directory:'mem',from:'self'}]}\n\
    | %%\n\
    | manifest fuchsia-pkg://t/a#meta/client.cm\n\
    | {use:[{storage:'data',path:'/data'}]}\n\
    | %%\n\
    | root fuchsia-pkg://t/a#meta/root.cm\n\
    | 0 resolve client\n\
    | 0 resolve fs\n\
    => 0\n\
    out client storage /data refused 101 no-storage-offer at .\n\
    == storage\n\
    | manifest fuchsia-pkg://t/a#meta/root.cm\n\
    | {use:[{storage:'data',path:'/data'}]}\n\
    | %%\n\
    | root fuchsia-pkg://t/a#meta/root.cm\n\
    | 0 resolve .\n\
    => 0\n\
    out . storage /data refused 101 no-storage-offer at .\n\
    == storage\n\
    | manifest fuchsia-pkg://t/a#meta/root.cm\n\
    | {children:[{name:'fs',url:'#meta/fs.cm'},{name:'client',url:'#meta/client.cm'}],capabilities:[\
    {storage:'data',from:'#fs',backing_dir:'mem',subdir:'s',storage_id:'static_instance_id_or_moniker'}],\
    offer:[{storage:'data',from:'parent',to:'#client'}]}\n\
    | %%\n\
    | manifest fuchsia-pkg://t/a#meta/fs.cm\n\
    | {capabilities:[{directory:'mem',path:'/mem',rights:['rw*']}],expose:[{directory:'mem',from:'self'}]}\n\
    | %%\n\
    | manifest fuchsia-pkg://t/a#meta/client.cm\n\
    | {use:[{storage:'data',path:'/data'}]}\n\
    | %%\n\
    | root fuchsia-pkg://t/a#meta/root.cm\n\
    | 0 resolve client\n\
    | 0 resolve fs\n\
    => 0\n\
    out client storage /data refused 101 no-storage-offer at .\n\
    == storage\n\
    | manifest fuchsia-pkg://t/a#meta/root.cm\n\
    | {children:[{name:'fs',url:'#meta/fs.cm'},{name:'client',url:'#meta/client.cm'}],capabilities:[\
    ],offer:[{storage:'data',from:'self',to:'#client'}]}\n\
    | %%\n\
    | manifest fuchsia-pkg://t/a#meta/fs.cm\n\
    | {capabilities:[{directory:'mem',path:'/mem',rights:['rw*']}],expose:[{directory:'mem',from:'self'}]}\n\
    | %%\n\
    | manifest fuchsia-pkg://t/a#meta/client.cm\n\
    | {use:[{storage:'data',path:'/data'}]}\n\
    | %%\n\
    | root fuchsia-pkg://t/a#meta/root.cm\n\
    | 0 resolve client\n\
    | 0 resolve fs\n\
    => 0\n\
    out client storage /data refused 102 no-storage at .\n\
    == storage\n\
    | manifest fuchsia-pkg://t/a#meta/root.cm\n\
    | {children:[{name:'fs',url:'#meta/fs.cm'},{name:'client',url:'#meta/client.cm'}],capabilities:[\
    {storage:'data',from:'#fs',backing_dir:'mem',subdir:'s',storage_id:'static_instance_id_or_moniker'}],\
    offer:[{storage:'data',from:'void',to:'#client',availability:'optional'}]}\n\
    | %%\n\
    | manifest fuchsia-pkg://t/a#meta/fs.cm\n\
    | {capabilities:[{directory:'mem',path:'/mem',rights:['rw*']}],expose:[{directory:'mem',from:'self'}]}\n\
    | %%\n\
    | manifest fuchsia-pkg://t/a#meta/client.cm\n\
    | {use:[{storage:'data',path:'/data'}]}\n\
    | %%\n\
    | root fuchsia-pkg://t/a#meta/root.cm\n\
    | 0 resolve client\n\
    | 0 resolve fs\n\
    => 0\n\
    out client storage /data refused 103 void-storage at .\n\
    == storage\n\
    | manifest fuchsia-pkg://t/a#meta/root.cm\n\
    | {children:[{name:'fs',url:'#meta/fs.cm'},{name:'client',url:'#meta/client.cm'}],capabilities:[\
    {storage:'data',from:'#fs',backing_dir:'mem',storage_id:'static_instance_id'}],offer:[{storage:'data',\
    from:'self',to:'#client'}]}\n\
    | %%\n\
    | manifest fuchsia-pkg://t/a#meta/fs.cm\n\
    | {capabilities:[{directory:'mem',path:'/mem',rights:['rw*']}],expose:[{directory:'mem',from:'self'}]}\n\
    | %%\n\
    | manifest fuchsia-pkg://t/a#meta/client.cm\n\
    | {use:[{storage:'data',path:'/data'}]}\n\
    | %%\n\
    | root fuchsia-pkg://t/a#meta/root.cm\n\
    | 0 resolve client\n\
    | 0 resolve fs\n\
    => 0\n\
    out client storage /data refused 104 no-instance-id at .\n\
    == storage\n\
    | manifest fuchsia-pkg://t/a#meta/root.cm\n\
    | {children:[{name:'fs',url:'#meta/fs.cm'},{name:'client',url:'#meta/client.cm'}],capabilities:[\
    {storage:'data',from:'self',backing_dir:'mem',storage_id:'static_instance_id_or_moniker'}],offer:[\
    {storage:'data',from:'self',to:'#client'}]}\n\
    | %%\n\
    | manifest fuchsia-pkg://t/a#meta/fs.cm\n\
    | {capabilities:[{directory:'mem',path:'/mem',rights:['rw*']}],expose:[{directory:'mem',from:'self'}]}\n\
    | %%\n\
    | manifest fuchsia-pkg://t/a#meta/client.cm\n\
    | {use:[{storage:'data',path:'/data'}]}\n\
    | %%\n\
    | root fuchsia-pkg://t/a#meta/root.cm\n\
    | 0 resolve client\n\
    | 0 resolve fs\n\
    => 0\n\
    out client storage /data refused 105 no-backing at .\n\
    == storage\n\
    | manifest fuchsia-pkg://t/a#meta/root.cm\n\
    | {children:[{name:'fs',url:'#meta/fs.cm'},{name:'client',url:'#meta/client.cm'}],capabilities:[\
    {storage:'data',from:'#fz',backing_dir:'mem',storage_id:'static_instance_id_or_moniker'}],offer:[\
    {storage:'data',from:'self',to:'#client'}]}\n\
    | %%\n\
    | manifest fuchsia-pkg://t/a#meta/fs.cm\n\
    | {capabilities:[{directory:'mem',path:'/mem',rights:['rw*']}],expose:[{directory:'mem',from:'self'}]}\n\
    | %%\n\
    | manifest fuchsia-pkg://t/a#meta/client.cm\n\
    | {use:[{storage:'data',path:'/data'}]}\n\
    | %%\n\
    | root fuchsia-pkg://t/a#meta/root.cm\n\
    | 0 resolve client\n\
    | 0 resolve fs\n\
    => 0\n\
    out client storage /data refused 105 no-backing at .\n\
    == storage\n\
    | manifest fuchsia-pkg://t/a#meta/root.cm\n\
    | {children:[{name:'fs',url:'#meta/fs.cm'},{name:'client',url:'#meta/client.cm'}],capabilities:[\
    {storage:'data',from:'#fs',backing_dir:'mem',subdir:'s',storage_id:'static_instance_id_or_moniker'}],\
    offer:[{storage:'data',from:'self',to:'#client'}]}\n\
    | %%\n\
    | manifest fuchsia-pkg://t/a#meta/fs.cm\n\
    | {capabilities:[{directory:'mem',path:'/mem',rights:['rw*']}],expose:[{directory:'mem',from:'self'}]}\n\
    | %%\n\
    | manifest fuchsia-pkg://t/a#meta/client.cm\n\
    | {use:[{storage:'data',path:'/data'}]}\n\
    | %%\n\
    | root fuchsia-pkg://t/a#meta/root.cm\n\
    | 0 resolve client\n\
    => 0\n\
    out client storage /data refused 106 backing-unresolved incarnation 1\n\
    == storage\n\
    | manifest fuchsia-pkg://t/a#meta/root.cm\n\
    | {children:[{name:'fs',url:'#meta/fs.cm'},{name:'client',url:'#meta/client.cm'}],capabilities:[\
    {storage:'data',from:'#fs',backing_dir:'mem',subdir:'s',storage_id:'static_instance_id_or_moniker'}],\
    offer:[{storage:'data',from:'self',to:'#client'}]}\n\
    | %%\n\
    | manifest fuchsia-pkg://t/a#meta/fs.cm\n\
    | {capabilities:[{directory:'mem',path:'/mem',rights:['rw*']}]}\n\
    | %%\n\
    | manifest fuchsia-pkg://t/a#meta/client.cm\n\
    | {use:[{storage:'data',path:'/data'}]}\n\
    | %%\n\
    | root fuchsia-pkg://t/a#meta/root.cm\n\
    | 0 resolve client\n\
    | 0 resolve fs\n\
    => 0\n\
    out client storage /data refused 107 backing no-expose at expose fs\n\
    == storage\n\
    | manifest fuchsia-pkg://t/a#meta/root.cm\n\
    | {children:[{name:'fs',url:'#meta/fs.cm'},{name:'client',url:'#meta/client.cm'}],capabilities:[\
    {storage:'data',from:'#fs',backing_dir:'mem',subdir:'s',storage_id:'static_instance_id_or_moniker'}],\
    offer:[{storage:'data',from:'self',to:'#client'}]}\n\
    | %%\n\
    | manifest fuchsia-pkg://t/a#meta/fs.cm\n\
    | {expose:[{directory:'mem',from:'void',availability:'optional'}]}\n\
    | %%\n\
    | manifest fuchsia-pkg://t/a#meta/client.cm\n\
    | {use:[{storage:'data',path:'/data'}]}\n\
    | %%\n\
    | root fuchsia-pkg://t/a#meta/root.cm\n\
    | 0 resolve client\n\
    | 0 resolve fs\n\
    => 0\n\
    out client storage /data refused 108 backing void at expose fs\n\
    == storage\n\
    | manifest fuchsia-pkg://t/a#meta/root.cm\n\
    | {children:[{name:'fs',url:'#meta/fs.cm'},{name:'client',url:'#meta/client.cm'}],capabilities:[\
    {storage:'data',from:'#fs',backing_dir:'mem',subdir:'s',storage_id:'static_instance_id_or_moniker'}],\
    offer:[{storage:'data',from:'self',to:'#client'}]}\n\
    | %%\n\
    | manifest fuchsia-pkg://t/a#meta/fs.cm\n\
    | {capabilities:[{directory:'mem',path:'/mem',rights:['rw*']}],expose:[{directory:'mem',from:'self',\
    rights:['r*']}]}\n\
    | %%\n\
    | manifest fuchsia-pkg://t/a#meta/client.cm\n\
    | {use:[{storage:'data',path:'/data'}]}\n\
    | %%\n\
    | root fuchsia-pkg://t/a#meta/root.cm\n\
    | 0 resolve client\n\
    | 0 resolve fs\n\
    => 0\n\
    out client storage /data refused 109 backing-rights-too-weak\n\
    == storage\n\
    | manifest fuchsia-pkg://t/a#meta/root.cm\n\
    | {children:[{name:'fs',url:'#meta/fs.cm'},{name:'client',url:'#meta/client.cm'}],capabilities:[\
    {storage:'data',from:'#fs',backing_dir:'mem',subdir:'s',storage_id:'static_instance_id_or_moniker'}],\
    offer:[{storage:'data',from:'self',to:'#client'}]}\n\
    | %%\n\
    | manifest fuchsia-pkg://t/a#meta/fs.cm\n\
    | {capabilities:[{directory:'mem',path:'/mem',rights:['rw*']}],expose:[{directory:'mem',from:'self',\
    rights:['r*','write_bytes','update_attributes']}]}\n\
    | %%\n\
    | manifest fuchsia-pkg://t/a#meta/client.cm\n\
    | {use:[{storage:'data',path:'/data'}]}\n\
    | %%\n\
    | root fuchsia-pkg://t/a#meta/root.cm\n\
    | 0 resolve client\n\
    | 0 resolve fs\n\
    => 0\n\
    out client storage /data refused 109 backing-rights-too-weak\n\
    == storage\n\
    | manifest fuchsia-pkg://t/a#meta/root.cm\n\
    | {children:[{name:'fs',url:'#meta/fs.cm'},{name:'client',url:'#meta/client.cm'}],capabilities:[\
    {storage:'data',from:'#fs',backing_dir:'mem',subdir:'s',storage_id:'static_instance_id_or_moniker'}],\
    offer:[{storage:'data',from:'self',to:'#client'}]}\n\
    | %%\n\
    | manifest fuchsia-pkg://t/a#meta/fs.cm\n\
    | {capabilities:[{directory:'mem',path:'/mem',rights:['rw*']}],expose:[{directory:'mem',from:'self',\
    rights:['r*','write_bytes','update_attributes',\
    'modify_directory']}]}\n\
    | %%\n\
    | manifest fuchsia-pkg://t/a#meta/client.cm\n\
    | {use:[{storage:'data',path:'/data'}]}\n\
    | %%\n\
    | root fuchsia-pkg://t/a#meta/root.cm\n\
    | 0 resolve client\n\
    | 0 resolve fs\n\
    => 0\n\
    out client storage /data at /mem/s/client/data in fs incarnation 1\n\
    == storage\n\
    | manifest fuchsia-pkg://t/a#meta/root.cm\n\
    | {children:[{name:'fs',url:'#meta/fs.cm'},{name:'client',url:'#meta/client.cm'}],capabilities:[\
    {storage:'data',from:'#fs',backing_dir:'mem',subdir:'s',storage_id:'static_instance_id_or_moniker'}],\
    offer:[{storage:'data',from:'self',to:'#client'}]}\n\
    | %%\n\
    | manifest fuchsia-pkg://t/a#meta/fs.cm\n\
    | {capabilities:[{protocol:'mem',path:'/mem'}],expose:[{protocol:'mem',from:'self'}]}\n\
    | %%\n\
    | manifest fuchsia-pkg://t/a#meta/client.cm\n\
    | {use:[{storage:'data',path:'/data'}]}\n\
    | %%\n\
    | root fuchsia-pkg://t/a#meta/root.cm\n\
    | 0 resolve client\n\
    | 0 resolve fs\n\
    => 0\n\
    out client storage /data refused 109 backing-rights-too-weak\n\
    == storage\n\
    | manifest fuchsia-pkg://t/a#meta/root.cm\n\
    | {children:[{name:'fs',url:'#meta/fs.cm'},{name:'client',url:'#meta/client.cm'}],capabilities:[\
    {storage:'data',from:'parent',backing_dir:'mem',storage_id:'static_instance_id_or_moniker'}],offer:[\
    {storage:'data',from:'self',to:'#client'}]}\n\
    | %%\n\
    | manifest fuchsia-pkg://t/a#meta/fs.cm\n\
    | {capabilities:[{directory:'mem',path:'/mem',rights:['rw*']}],expose:[{directory:'mem',from:'self'}]}\n\
    | %%\n\
    | manifest fuchsia-pkg://t/a#meta/client.cm\n\
    | {use:[{storage:'data',path:'/data'}]}\n\
    | %%\n\
    | builtin directory mem /b rw*\n\
    | root fuchsia-pkg://t/a#meta/root.cm\n\
    | 0 resolve client\n\
    | 0 resolve fs\n\
    => 0\n\
    out client storage /data at /b/client/data in builtin\n\
    == storage\n\
    | manifest fuchsia-pkg://t/a#meta/root.cm\n\
    | {children:[{name:'fs',url:'#meta/fs.cm'},{name:'client',url:'#meta/client.cm'}],capabilities:[\
    {storage:'data',from:'parent',backing_dir:'mem',storage_id:'static_instance_id_or_moniker'}],offer:[\
    {storage:'data',from:'self',to:'#client'}]}\n\
    | %%\n\
    | manifest fuchsia-pkg://t/a#meta/fs.cm\n\
    | {capabilities:[{directory:'mem',path:'/mem',rights:['rw*']}],expose:[{directory:'mem',from:'self'}]}\n\
    | %%\n\
    | manifest fuchsia-pkg://t/a#meta/client.cm\n\
    | {use:[{storage:'data',path:'/data'}]}\n\
    | %%\n\
    | root fuchsia-pkg://t/a#meta/root.cm\n\
    | 0 resolve client\n\
    | 0 resolve fs\n\
    => 0\n\
    out client storage /data refused 105 no-backing at .\n\
    == storage\n\
    | manifest fuchsia-pkg://t/a#meta/root.cm\n\
    | {children:[{name:'children',url:'#meta/mid.cm'},{name:'data',url:'#meta/client.cm'}],collections:[\
    {name:'coll',durability:'transient'}],capabilities:[{directory:'mem',path:'/mem',rights:['rw*']},\
    {storage:'disk',from:'self',backing_dir:'mem',storage_id:'static_instance_id_or_moniker'}],offer:[\
    {storage:'disk',from:'self',to:'#children',as:'mine'},{storage:'disk',from:'self',to:'#data',as:'data'},\
    {storage:'disk',from:'self',to:'#coll',as:'data'}]}\n\
    | %%\n\
    | manifest fuchsia-pkg://t/a#meta/mid.cm\n\
    | {children:[{name:'children',url:'#meta/client.cm'},{name:'data',url:'#meta/client.cm'}],offer:[\
    {storage:'mine',from:'parent',to:'#children',as:'data'},{storage:'mine',from:'parent',to:'#data',\
    as:'data'}]}\n\
    | %%\n\
    | manifest fuchsia-pkg://t/a#meta/client.cm\n\
    | {use:[{storage:'data',path:'/data'}]}\n\
    | %%\n\
    | root fuchsia-pkg://t/a#meta/root.cm\n\
    | 0 create . coll data #meta/client.cm\n\
    | 0 resolve coll:data\n\
    | 0 resolve data\n\
    | 0 resolve children/children\n\
    | 0 resolve children/data\n\
    => 0\n\
    out children/children storage /data at /mem/children/children/children/data in . incarnation 0\n\
    out children/data storage /data at /mem/children/children/data/data in . incarnation 0\n\
    out data storage /data at /mem/data/data in . incarnation 0\n\
    out coll:data storage /data at /mem/coll:data/data in . incarnation 0\n";
