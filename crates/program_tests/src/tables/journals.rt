//! Whole histories, entry by entry, as the journal writes them.

/// Shutdowns, where clients stop first and weak offers don't count, in one of them a new child that was
/// offered something, and another that wasn't after all these; a shutdown where a child in a collection
/// is kept; what goes when an instance stops, and nothing at the next stop; a started child that is
/// destroyed.
pub const STOPS: &str = "\
    == run --journal\n\
    | manifest fuchsia-pkg://t/a#meta/root.cm\n\
    | {children:[{name:'provider',url:'#provider'},{name:'client',url:'#client'},{name:'mid',\
    url:'#mid'}],\n\
    | offer:[{protocol:'work',from:'#mid',to:'#client'},{protocol:'store',from:'#provider',to:'#mid'},\n\
    | {protocol:'back',from:'#client',to:'#provider',dependency:'weak'}]}\n\
    | %%\n\
    | manifest fuchsia-pkg://t/a#provider\n\
    | {}\n\
    | %%\n\
    | manifest fuchsia-pkg://t/a#client\n\
    | {}\n\
    | %%\n\
    | manifest fuchsia-pkg://t/a#mid\n\
    | {children:[{name:'leaf',url:'#leaf'}],use:[{protocol:'part',from:'#leaf'}]}\n\
    | %%\n\
    | manifest fuchsia-pkg://t/a#leaf\n\
    | {}\n\
    | %%\n\
    @root-line\n\
    | 0 start .\n\
    | 0 start provider\n\
    | 0 start client\n\
    | 0 start mid\n\
    | 0 start mid/leaf\n\
    | sync\n\
    | 1 shutdown .\n\
    => 0\n\
    out 0 started . action 2\n\
    out 0 started provider action 4\n\
    out 0 started client action 6\n\
    out 0 started mid action 8\n\
    out 0 started mid/leaf action 10\n\
    out 1 shut .\n\
    $start-of-root$\n\
    out 4 0 end 1 resolved fuchsia-pkg://t/a#meta/root.cm {\"capabilities\":[],\
    \"children\":[{\"name\":\"provider\",\"startup\":\"lazy\",\"url\":\"#provider\"},\
    {\"name\":\"client\",\"startup\":\"lazy\",\"url\":\"#client\"},{\"name\":\"mid\",\
    \"startup\":\"lazy\",\"url\":\"#mid\"}],\"collections\":[],\"expose\":[],\
    \"offer\":[{\"as\":\"work\",\"availability\":\"required\",\"dependency\":\"strong\",\
    \"from\":\"#mid\",\"protocol\":\"work\",\"to\":\"#client\"},{\"as\":\"store\",\
    \"availability\":\"required\",\"dependency\":\"strong\",\"from\":\"#provider\",\
    \"protocol\":\"store\",\"to\":\"#mid\"},{\"as\":\"back\",\"availability\":\"required\",\
    \"dependency\":\"weak\",\"from\":\"#client\",\"protocol\":\"back\",\"to\":\"#provider\"}],\
    \"use\":[]} => ended resolved\n\
    out 5 0 begin start 0 => begun 2\n\
    out 6 0 end 2 started => ended started\n\
    out 7 0 find provider => found 1\n\
    out 8 0 begin start 1 => need 1\n\
    out 9 0 begin resolve 1 => begun 3\n\
    out 10 0 end 3 resolved fuchsia-pkg://t/a#provider $nothing$ => ended resolved\n\
    out 11 0 begin start 1 => begun 4\n\
    out 12 0 end 4 started => ended started\n\
    out 13 0 find client => found 2\n\
    out 14 0 begin start 2 => need 2\n\
    out 15 0 begin resolve 2 => begun 5\n\
    out 16 0 end 5 resolved fuchsia-pkg://t/a#client $nothing$ => ended resolved\n\
    out 17 0 begin start 2 => begun 6\n\
    out 18 0 end 6 started => ended started\n\
    out 19 0 find mid => found 3\n\
    out 20 0 begin start 3 => need 3\n\
    out 21 0 begin resolve 3 => begun 7\n\
    out 22 0 end 7 resolved fuchsia-pkg://t/a#mid {\"capabilities\":[],\"children\":[{\"name\":\"leaf\",\
    \"startup\":\"lazy\",\"url\":\"#leaf\"}],\"collections\":[],\"expose\":[],\"offer\":[],\
    \"use\":[{\"availability\":\"required\",\"dependency\":\"strong\",\"from\":\"#leaf\",\
    \"path\":\"/svc/part\",\"protocol\":\"part\"}]} => ended resolved\n\
    out 23 0 begin start 3 => begun 8\n\
    out 24 0 end 8 started => ended started\n\
    out 25 0 find mid/leaf => found 4\n\
    out 26 0 begin start 4 => need 4\n\
    out 27 0 begin resolve 4 => begun 9\n\
    out 28 0 end 9 resolved fuchsia-pkg://t/a#leaf $nothing$ => ended resolved\n\
    out 29 0 begin start 4 => begun 10\n\
    out 30 0 end 10 started => ended started\n\
    out 31 1 find . => found 0\n\
    out 32 1 mark closing 0 => marked\n\
    out 33 1 pick 0 => stopping 2 11\n\
    out 34 1 end 11 stopped => ended stopped\n\
    out 35 1 pick 0 => shutdown 2\n\
    out 36 1 pick 0 => stopping 3 12\n\
    out 37 1 end 12 stopped => ended stopped\n\
    out 38 1 pick 0 => shutdown 3\n\
    out 39 1 pick 0 => stopping 4 13\n\
    out 40 1 end 13 stopped => ended stopped\n\
    out 41 1 pick 0 => shutdown 4\n\
    out 42 1 pick 0 => stopping 1 14\n\
    out 43 1 end 14 stopped => ended stopped\n\
    out 44 1 pick 0 => shutdown 1\n\
    out 45 1 pick 0 => stopping 0 15\n\
    out 46 1 end 15 stopped => ended stopped\n\
    out 47 1 pick 0 => shutdown 0\n\
    out 48 1 pick 0 => done\n\
    == run --journal\n\
    | manifest fuchsia-pkg://t/a#meta/root.cm\n\
    | {collections:[{name:'dyn',durability:'transient',allowed_offers:'static_and_dynamic'}],\n\
    | children:[{name:'a',url:'#meta/x.cm'},{name:'b',url:'#meta/x.cm'}],\n\
    | offer:[{protocol:'p',from:'#a',to:'#b'},{protocol:'q',from:'#b',to:'#a',dependency:'weak'}]}\n\
    | %%\n\
    | manifest fuchsia-pkg://t/a#meta/x.cm\n\
    | {\"program\":{\"runner\":\"elf\"}}\n\
    | %%\n\
    @root-line\n\
    | 0 create . dyn n #meta/x.cm + protocol p #b\n\
    | 0 create . dyn o #meta/x.cm\n\
    | 0 start a\n\
    | 0 start b\n\
    | 0 start dyn:n\n\
    | 0 start dyn:o\n\
    | 0 start .\n\
    | 0 shutdown .\n\
    => 0\n\
    out 0 created . dyn:n incarnation 3\n\
    out 0 created . dyn:o incarnation 4\n\
    out 0 started a action 3\n\
    out 0 started b action 5\n\
    out 0 started dyn:n action 7\n\
    out 0 started dyn:o action 9\n\
    out 0 started . action 10\n\
    out 0 shut .\n\
    out journal\n\
    out root fuchsia-pkg://t/a#meta/root.cm\n\
    out 1 0 find . => found 0\n\
    out 2 0 create 0 dyn n #meta/x.cm + protocol p #b => need 0\n\
    out 3 0 begin resolve 0 => begun 1\n\
    out 4 0 end 1 resolved fuchsia-pkg://t/a#meta/root.cm {\"capabilities\":[],\
    \"children\":[{\"name\":\"a\",\"startup\":\"lazy\",\"url\":\"#meta/x.cm\"},{\"name\":\"b\",\
    \"startup\":\"lazy\",\"url\":\"#meta/x.cm\"}],\"collections\":[{\"allowed_offers\":\"static_and_dyna\
    mic\",\"durability\":\"transient\",\"name\":\"dyn\"}],\"expose\":[],\"offer\":[{\"as\":\"p\",\
    \"availability\":\"required\",\"dependency\":\"strong\",\"from\":\"#a\",\"protocol\":\"p\",\
    \"to\":\"#b\"},{\"as\":\"q\",\"availability\":\"required\",\"dependency\":\"weak\",\"from\":\"#b\",\
    \"protocol\":\"q\",\"to\":\"#a\"}],\"use\":[]} => ended resolved\n\
    out 5 0 create 0 dyn n #meta/x.cm + protocol p #b => created 3\n\
    out 6 0 find . => found 0\n\
    out 7 0 create 0 dyn o #meta/x.cm => created 4\n\
    out 8 0 find a => found 1\n\
    out 9 0 begin start 1 => need 1\n\
    out 10 0 begin resolve 1 => begun 2\n\
    out 11 0 end 2 resolved fuchsia-pkg://t/a#meta/x.cm $running$ => ended resolved\n\
    out 12 0 begin start 1 => begun 3\n\
    out 13 0 end 3 started => ended started\n\
    out 14 0 find b => found 2\n\
    out 15 0 begin start 2 => need 2\n\
    out 16 0 begin resolve 2 => begun 4\n\
    out 17 0 end 4 resolved fuchsia-pkg://t/a#meta/x.cm $running$ => ended resolved\n\
    out 18 0 begin start 2 => begun 5\n\
    out 19 0 end 5 started => ended started\n\
    out 20 0 find dyn:n => found 3\n\
    out 21 0 begin start 3 => need 3\n\
    out 22 0 begin resolve 3 => begun 6\n\
    out 23 0 end 6 resolved fuchsia-pkg://t/a#meta/x.cm $running$ => ended resolved\n\
    out 24 0 begin start 3 => begun 7\n\
    out 25 0 end 7 started => ended started\n\
    out 26 0 find dyn:o => found 4\n\
    out 27 0 begin start 4 => need 4\n\
    out 28 0 begin resolve 4 => begun 8\n\
    out 29 0 end 8 resolved fuchsia-pkg://t/a#meta/x.cm $running$ => ended resolved\n\
    out 30 0 begin start 4 => begun 9\n\
    out 31 0 end 9 started => ended started\n\
    out 32 0 find . => found 0\n\
    out 33 0 begin start 0 => begun 10\n\
    out 34 0 end 10 started => ended started\n\
    out 35 0 find . => found 0\n\
    out 36 0 mark closing 0 => marked\n\
    out 37 0 pick 0 => stopping 3 11\n\
    out 38 0 end 11 stopped => ended stopped\n\
    out 39 0 pick 0 => shutdown 3\n\
    out 40 0 pick 0 => stopping 4 12\n\
    out 41 0 end 12 stopped => ended stopped\n\
    out 42 0 pick 0 => shutdown 4\n\
    out 43 0 pick 0 => stopping 2 13\n\
    out 44 0 end 13 stopped => ended stopped\n\
    out 45 0 pick 0 => shutdown 2\n\
    out 46 0 pick 0 => stopping 1 14\n\
    out 47 0 end 14 stopped => ended stopped\n\
    out 48 0 pick 0 => shutdown 1\n\
    out 49 0 pick 0 => stopping 0 15\n\
    out 50 0 end 15 stopped => ended stopped\n\
    out 51 0 pick 0 => shutdown 0\n\
    out 52 0 pick 0 => done\n\
    == run --journal\n\
    $starts-one$\n\
    | sync\n\
    | 1 shutdown .\n\
    | sync\n\
    | 0 show coll:one\n\
    | 0 stop .\n\
    => 0\n\
    $started-one$\n\
    out 1 shut .\n\
    out 0 shown coll:one incarnation 1 url #new resolved off shut\n\
    out 0 stopped . already\n\
    $journal-to-one$\n\
    out 9 0 find coll:one => found 1\n\
    $one-starts$\n\
    out 15 1 find . => found 0\n\
    out 16 1 mark closing 0 => marked\n\
    out 17 1 pick 0 => stopping 1 5\n\
    out 18 1 end 5 stopped => ended stopped\n\
    out 19 1 pick 0 => shutdown 1\n\
    out 20 1 pick 0 => stopping 0 6\n\
    out 21 1 end 6 stopped => ended stopped\n\
    out 22 1 pick 0 => shutdown 0\n\
    out 23 1 pick 0 => done\n\
    out 24 0 find coll:one => found 1\n\
    out 25 0 show 1 => shown resolved off shut\n\
    out 26 0 find . => found 0\n\
    out 27 0 begin stop 0 => already\n\
    == run --journal\n\
    $starts-one$\n\
    | 0 stop .\n\
    | 0 start @1\n\
    | 0 start .\n\
    | 0 stop .\n\
    => 0\n\
    $started-one$\n\
    out 0 stopped . action 5\n\
    out 0 refused 81 gone incarnation 1\n\
    out 0 started . action 7\n\
    out 0 stopped . action 8\n\
    $journal-to-one$\n\
    out 9 0 find coll:one => found 1\n\
    $one-starts$\n\
    out 15 0 find . => found 0\n\
    out 16 0 begin stop 0 => begun 5\n\
    out 17 0 end 5 stopped => ended stopped\n\
    out 18 0 reap 0 => reaping 1\n\
    out 19 0 pick 1 => stopping 1 6\n\
    out 20 0 end 6 stopped => ended stopped\n\
    out 21 0 pick 1 => shutdown 1\n\
    out 22 0 pick 1 => done\n\
    out 23 0 purge 1 => purged 1\n\
    out 24 0 begin start 1 => gone 1\n\
    out 25 0 find . => found 0\n\
    out 26 0 begin start 0 => begun 7\n\
    out 27 0 end 7 started => ended started\n\
    out 28 0 find . => found 0\n\
    out 29 0 begin stop 0 => begun 8\n\
    out 30 0 end 8 stopped => ended stopped\n\
    out 31 0 reap 0 => reaping\n\
    == run --journal\n\
    @root-with-collection\n\
    @new\n\
    @root-line\n\
    | 0 create . coll one #new\n\
    | 0 start coll:one\n\
    | sync\n\
    | 1 destroy coll:one\n\
    | sync\n\
    | 0 start @1\n\
    => 0\n\
    out 0 created . coll:one incarnation 1\n\
    out 0 started coll:one action 3\n\
    out 1 destroyed coll:one\n\
    out 0 refused 81 gone incarnation 1\n\
    out journal\n\
    out root fuchsia-pkg://t/a#meta/root.cm\n\
    out 1 0 find . => found 0\n\
    out 2 0 create 0 coll one #new => need 0\n\
    out 3 0 begin resolve 0 => begun 1\n\
    out 4 0 end 1 resolved fuchsia-pkg://t/a#meta/root.cm $collection$ => ended resolved\n\
    out 5 0 create 0 coll one #new => created 1\n\
    out 6 0 find coll:one => found 1\n\
    out 7 0 begin start 1 => need 1\n\
    out 8 0 begin resolve 1 => begun 2\n\
    out 9 0 end 2 resolved fuchsia-pkg://t/a#new $nothing$ => ended resolved\n\
    out 10 0 begin start 1 => begun 3\n\
    out 11 0 end 3 started => ended started\n\
    out 12 1 find coll:one => found 1\n\
    out 13 1 mark doomed 1 => marked\n\
    out 14 1 pick 1 => stopping 1 4\n\
    out 15 1 end 4 stopped => ended stopped\n\
    out 16 1 pick 1 => shutdown 1\n\
    out 17 1 pick 1 => done\n\
    out 18 1 purge 1 => purged 1\n\
    out 19 0 begin start 1 => gone 1\n";

/// What is above the root, a child with offers of its own, in the list of its collection, and its manifest;
/// then answers and refusals of one that exposes something.
pub const CREATES: &str = "\
    == run --journal\n\
    | manifest fuchsia-boot:///#meta/root.cm\n\
    | {children:[{name:'a',url:'#a'},{name:'core',url:'#core'},{name:'c',url:'#c'},{name:'d',url:'#d'}],\n\
    | offer:[{protocol:'p',from:'parent',to:'#core'}]}\n\
    | %%\n\
    | manifest fuchsia-boot:///#core\n\
    | {collections:[{name:'k',durability:'transient',allowed_offers:'static_and_dynamic'}],\n\
    | use:[{protocol:'p'}]}\n\
    | %%\n\
    | manifest fuchsia-boot:///#meta/e.cm\n\
    | {}\n\
    | %%\n\
    | builtin protocol p\n\
    | builtin directory p /svc/p r*\n\
    | root fuchsia-boot:///#meta/root.cm\n\
    | 3 list core k\n\
    | 3 create core k e1 #meta/e.cm + directory d parent as=logs rights=r* weak optional\n\
    | 3 list core k\n\
    | 3 route core /svc/p\n\
    | 3 resolve core/k:e1\n\
    => 0\n\
    out 3 children core k 0\n\
    out 3 created core k:e1 incarnation 5\n\
    out 3 children core k 1\n\
    out   e1 incarnation 5\n\
    out 3 route /svc/p at builtin through use core, offer ., builtin .\n\
    out 3 resolved core/k:e1 action 3\n\
    out journal\n\
    out builtin protocol p\n\
    out builtin directory p /svc/p connect,enumerate,get_attributes,read_bytes,traverse\n\
    out root fuchsia-boot:///#meta/root.cm\n\
    out 1 3 find core => need 0\n\
    out 2 3 begin resolve 0 => begun 1\n\
    out 3 3 end 1 resolved fuchsia-boot:///#meta/root.cm {\"capabilities\":[],\
    \"children\":[{\"name\":\"a\",\"startup\":\"lazy\",\"url\":\"#a\"},{\"name\":\"core\",\
    \"startup\":\"lazy\",\"url\":\"#core\"},{\"name\":\"c\",\"startup\":\"lazy\",\"url\":\"#c\"},\
    {\"name\":\"d\",\"startup\":\"lazy\",\"url\":\"#d\"}],\"collections\":[],\"expose\":[],\
    \"offer\":[{\"as\":\"p\",\"availability\":\"required\",\"dependency\":\"strong\",\
    \"from\":\"parent\",\"protocol\":\"p\",\"to\":\"#core\"}],\"use\":[]} => ended resolved\n\
    out 4 3 find core => found 2\n\
    out 5 3 list 2 k => need 2\n\
    out 6 3 begin resolve 2 => begun 2\n\
    out 7 3 end 2 resolved fuchsia-boot:///#core {\"capabilities\":[],\"children\":[],\
    \"collections\":[{\"allowed_offers\":\"static_and_dynamic\",\"durability\":\"transient\",\
    \"name\":\"k\"}],\"expose\":[],\"offer\":[],\"use\":[{\"availability\":\"required\",\
    \"dependency\":\"strong\",\"from\":\"parent\",\"path\":\"/svc/p\",\"protocol\":\"p\"}]} => ended \
    resolved\n\
    out 8 3 list 2 k => listed 0\n\
    out 9 3 find core => found 2\n\
    out 10 3 create 2 k e1 #meta/e.cm + directory d parent as=logs rights=connect,enumerate,\
    get_attributes,read_bytes,traverse weak optional => created 5\n\
    out 11 3 find core => found 2\n\
    out 12 3 list 2 k => listed 1 [e1 incarnation 5]\n\
    out 13 3 find core => found 2\n\
    out 14 3 route 2 /svc/p => given /svc/p at builtin through use core, offer ., builtin .\n\
    out 15 3 find core/k:e1 => found 5\n\
    out 16 3 begin resolve 5 => begun 3\n\
    out 17 3 end 3 resolved fuchsia-boot:///#meta/e.cm {\"capabilities\":[],\"children\":[],\
    \"collections\":[],\"expose\":[],\"offer\":[],\"use\":[]} => ended resolved\n\
    == run\n\
    | manifest fuchsia-pkg://t/a#meta/root.cm\n\
    | {children:[{name:'a',url:'#a'},{name:'core',url:'#core'},{name:'bad',url:'#bad'}]}\n\
    | %%\n\
    | manifest fuchsia-pkg://t/a#a\n\
    | {}\n\
    | %%\n\
    | manifest fuchsia-pkg://t/a#core\n\
    | {capabilities:[{directory:'p',path:'/svc/p',rights:['r*']}],expose:[{directory:'p',from:'self'}]}\n\
    | %%\n\
    | manifest fuchsia-pkg://t/a#bad\n\
    | {children:[{name:'x',url:'#x'}],offer:[{protocol:'p',from:'parent',to:'#x'},\n\
    | {protocol:'q',from:'parent',to:'#x'},{protocol:'r',from:'parent',to:'#no'}]}\n\
    | %%\n\
    @root-line\n\
    | 0 resolve a\n\
    | 0 resolve bad\n\
    | 0 start core\n\
    | 0 open-exposed core p\n\
    | 0 open-exposed core q\n\
    => 0\n\
    out 0 resolved a action 2\n\
    out 0 refused 83 cannot-resolve action 3 invalid 51 offer 2\n\
    out 0 started core action 5\n\
    out 0 opened /svc/p at core incarnation 2 rights connect,enumerate,get_attributes,read_bytes,\
    traverse\n\
    out 0 refused 87 no-expose at expose core\n";
