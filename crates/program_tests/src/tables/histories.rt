//! Histories of small realms, mostly of a root with a store and a client, to which it offers what the
//! store exposes.

/// Instances that are found; children that are listed; a survey of a new realm, and of one with resolved
/// instances; what is gone. A start that is declined, a stop that is killed, and an exit. Routes and
/// openings, of two callers too, and the hop that fails; an opening that walks in the tree as it is by
/// then. What goes when an instance exits, and a child that runs once when its parent stops.
pub const HISTORIES: &str = "\
    == run --journal\n\
    @small-root\n\
    @store\n\
    @small-client\n\
    @root-line\n\
    | 0 resolve store\n\
    | 0 resolve client\n\
    | sync\n\
    | 3 show store\n\
    | 3 show client\n\
    | 3 show other\n\
    | sync\n\
    | 4 show store\n\
    => 0\n\
    out 0 resolved store action 2\n\
    out 0 resolved client action 3\n\
    out 3 shown store incarnation 1 url #store resolved off\n\
    out 3 shown client incarnation 2 url #client resolved off\n\
    out 3 refused 80 not-found in .\n\
    out 4 shown store incarnation 1 url #store resolved off\n\
    out journal\n\
    out root fuchsia-pkg://t/a#meta/root.cm\n\
    out 1 0 find store => need 0\n\
    out 2 0 begin resolve 0 => begun 1\n\
    out 3 0 end 1 resolved fuchsia-pkg://t/a#meta/root.cm $small-root$ => ended resolved\n\
    out 4 0 find store => found 1\n\
    out 5 0 begin resolve 1 => begun 2\n\
    out 6 0 end 2 resolved fuchsia-pkg://t/a#store $store$ => ended resolved\n\
    out 7 0 find client => found 2\n\
    out 8 0 begin resolve 2 => begun 3\n\
    out 9 0 end 3 resolved fuchsia-pkg://t/a#client $small-client$ => ended resolved\n\
    out 10 3 find store => found 1\n\
    out 11 3 show 1 => shown resolved off\n\
    out 12 3 find client => found 2\n\
    out 13 3 show 2 => shown resolved off\n\
    out 14 3 find other => not-found .\n\
    out 15 4 find store => found 1\n\
    out 16 4 show 1 => shown resolved off\n\
    == run --journal\n\
    | manifest fuchsia-pkg://t/a#meta/root.cm\n\
    | {children:[{name:'a',url:'#a'}],collections:[{name:'coll',durability:'transient'}]}\n\
    | %%\n\
    | manifest fuchsia-pkg://t/a#a\n\
    | {}\n\
    | %%\n\
    @root-line\n\
    | 0 list . coll\n\
    | 0 list . other\n\
    | 0 list a coll\n\
    | 0 list @7 coll\n\
    => 0\n\
    out 0 children . coll 0\n\
    out 0 refused 60 collection-not-found\n\
    out 0 refused 60 collection-not-found\n\
    out 0 refused 81 gone incarnation 7\n\
    out journal\n\
    out root fuchsia-pkg://t/a#meta/root.cm\n\
    out 1 0 find . => found 0\n\
    out 2 0 list 0 coll => need 0\n\
    out 3 0 begin resolve 0 => begun 1\n\
    out 4 0 end 1 resolved fuchsia-pkg://t/a#meta/root.cm {\"capabilities\":[],\
    \"children\":[{\"name\":\"a\",\"startup\":\"lazy\",\"url\":\"#a\"}],\
    \"collections\":[{\"allowed_offers\":\"static_only\",\"durability\":\"transient\",\
    \"name\":\"coll\"}],\"expose\":[],\"offer\":[],\"use\":[]} => ended resolved\n\
    out 5 0 list 0 coll => listed 0\n\
    out 6 0 find . => found 0\n\
    out 7 0 list 0 other => no-collection\n\
    out 8 0 find a => found 1\n\
    out 9 0 list 1 coll => need 1\n\
    out 10 0 begin resolve 1 => begun 2\n\
    out 11 0 end 2 resolved fuchsia-pkg://t/a#a $nothing$ => ended resolved\n\
    out 12 0 list 1 coll => no-collection\n\
    out 13 0 list 7 coll => gone 7\n\
    == run --journal\n\
    @small-root\n\
    @store\n\
    @small-client\n\
    @root-line\n\
    | 3 survey .\n\
    | 3 survey @7\n\
    | sync\n\
    | 0 resolve client\n\
    | 0 start store\n\
    | sync\n\
    | 3 survey .\n\
    | 3 survey client\n\
    => 0\n\
    out 3 survey . 1\n\
    out   . incarnation 0 unresolved off\n\
    out 3 refused 81 gone incarnation 7\n\
    out 0 resolved client action 2\n\
    out 0 started store action 4\n\
    out 3 survey . 3\n\
    out   . incarnation 0 resolved off\n\
    out   store incarnation 1 resolved on\n\
    out   client incarnation 2 resolved off\n\
    out 3 survey client 1\n\
    out   client incarnation 2 resolved off\n\
    out journal\n\
    out root fuchsia-pkg://t/a#meta/root.cm\n\
    out 1 3 find . => found 0\n\
    out 2 3 survey 0 => surveyed 1 [. incarnation 0 unresolved off]\n\
    out 3 3 survey 7 => gone 7\n\
    out 4 0 find client => need 0\n\
    out 5 0 begin resolve 0 => begun 1\n\
    out 6 0 end 1 resolved fuchsia-pkg://t/a#meta/root.cm $small-root$ => ended resolved\n\
    out 7 0 find client => found 2\n\
    out 8 0 begin resolve 2 => begun 2\n\
    out 9 0 end 2 resolved fuchsia-pkg://t/a#client $small-client$ => ended resolved\n\
    out 10 0 find store => found 1\n\
    out 11 0 begin start 1 => need 1\n\
    out 12 0 begin resolve 1 => begun 3\n\
    out 13 0 end 3 resolved fuchsia-pkg://t/a#store $store$ => ended resolved\n\
    out 14 0 begin start 1 => begun 4\n\
    out 15 0 end 4 started => ended started\n\
    out 16 3 find . => found 0\n\
    out 17 3 survey 0 => surveyed 3 [. incarnation 0 resolved off] [store incarnation 1 resolved on] \
    [client incarnation 2 resolved off]\n\
    out 18 3 find client => found 2\n\
    out 19 3 survey 2 => surveyed 1 [client incarnation 2 resolved off]\n\
    == run --journal\n\
    @root-empty\n\
    @root-line\n\
    | 0 stop .\n\
    | 0 resolve @7\n\
    | 0 exited .\n\
    | 0 exited @7\n\
    | 0 route @7 /in\n\
    | 0 open @7 /in\n\
    | 0 open-exposed @7 data\n\
    | 0 open-exposed . data\n\
    => 0\n\
    out 0 stopped . already\n\
    out 0 refused 81 gone incarnation 7\n\
    out 0 exited . already\n\
    out 0 refused 81 gone incarnation 7\n\
    out 0 refused 81 gone incarnation 7\n\
    out 0 refused 81 gone incarnation 7\n\
    out 0 refused 81 gone incarnation 7\n\
    out 0 refused 87 no-expose at expose .\n\
    out journal\n\
    out root fuchsia-pkg://t/a#meta/root.cm\n\
    out 1 0 find . => found 0\n\
    out 2 0 begin stop 0 => already\n\
    out 3 0 begin resolve 7 => gone 7\n\
    out 4 0 find . => found 0\n\
    out 5 0 exited 0 => already\n\
    out 6 0 exited 7 => gone 7\n\
    out 7 0 route 7 /in => gone 7\n\
    out 8 0 open 7 /in => gone 7\n\
    out 9 0 open-exposed 7 data => gone 7\n\
    out 10 0 find . => found 0\n\
    out 11 0 open-exposed 0 data => need 0\n\
    out 12 0 begin resolve 0 => begun 1\n\
    out 13 0 end 1 resolved fuchsia-pkg://t/a#meta/root.cm $nothing$ => ended resolved\n\
    out 14 0 open-exposed 0 data => failed no-expose at expose .\n\
    == run --journal\n\
    declined fuchsia-pkg://t/a#store\n\
    @small-root\n\
    @store\n\
    @small-client\n\
    @root-line\n\
    | 0 resolve store\n\
    | 0 resolve store\n\
    | 0 start store\n\
    | 0 stop store\n\
    => 0\n\
    out 0 resolved store action 2\n\
    out 0 resolved store already\n\
    out 0 refused 84 cannot-start action 3 declined\n\
    out 0 stopped store already\n\
    out journal\n\
    out root fuchsia-pkg://t/a#meta/root.cm\n\
    out 1 0 find store => need 0\n\
    out 2 0 begin resolve 0 => begun 1\n\
    out 3 0 end 1 resolved fuchsia-pkg://t/a#meta/root.cm $small-root$ => ended resolved\n\
    out 4 0 find store => found 1\n\
    out 5 0 begin resolve 1 => begun 2\n\
    out 6 0 end 2 resolved fuchsia-pkg://t/a#store $store$ => ended resolved\n\
    out 7 0 find store => found 1\n\
    out 8 0 begin resolve 1 => already\n\
    out 9 0 find store => found 1\n\
    out 10 0 begin start 1 => begun 3\n\
    out 11 0 end 3 declined => ended declined\n\
    out 12 0 find store => found 1\n\
    out 13 0 begin stop 1 => already\n\
    == run --journal\n\
    failing 0 1\n\
    @small-root\n\
    @store\n\
    @small-client\n\
    @root-line\n\
    | 0 start store\n\
    | 0 start store\n\
    | 0 stop store\n\
    | 0 start store\n\
    | 0 exited store\n\
    | 0 exited store\n\
    => 0\n\
    out 0 started store action 3\n\
    out 0 started store already\n\
    out 0 stopped store by-force action 4\n\
    out 0 started store action 5\n\
    out 0 exited store\n\
    out 0 exited store already\n\
    out journal\n\
    out root fuchsia-pkg://t/a#meta/root.cm\n\
    out 1 0 find store => need 0\n\
    out 2 0 begin resolve 0 => begun 1\n\
    out 3 0 end 1 resolved fuchsia-pkg://t/a#meta/root.cm $small-root$ => ended resolved\n\
    out 4 0 find store => found 1\n\
    out 5 0 begin start 1 => need 1\n\
    out 6 0 begin resolve 1 => begun 2\n\
    out 7 0 end 2 resolved fuchsia-pkg://t/a#store $store$ => ended resolved\n\
    out 8 0 begin start 1 => begun 3\n\
    out 9 0 end 3 started => ended started\n\
    out 10 0 find store => found 1\n\
    out 11 0 begin start 1 => already\n\
    out 12 0 find store => found 1\n\
    out 13 0 begin stop 1 => begun 4\n\
    out 14 0 end 4 killed => ended killed\n\
    out 15 0 reap 1 => reaping\n\
    out 16 0 find store => found 1\n\
    out 17 0 begin start 1 => begun 5\n\
    out 18 0 end 5 started => ended started\n\
    out 19 0 find store => found 1\n\
    out 20 0 exited 1 => left\n\
    out 21 0 reap 1 => reaping\n\
    out 22 0 find store => found 1\n\
    out 23 0 exited 1 => already\n\
    == run --journal\n\
    @small-root\n\
    @store\n\
    @small-client\n\
    @root-line\n\
    | 0 route client /svc/log\n\
    | 0 open client /in\n\
    | 0 start client\n\
    | 0 open client /svc/log\n\
    | 0 open-exposed store data\n\
    | 0 exited store\n\
    | 0 open client /svc/log\n\
    => 0\n\
    out 0 route /svc/log at store incarnation 1 through use client, offer ., expose store, capability \
    store\n\
    out 0 refused 85 client-off\n\
    out 0 started client action 4\n\
    out 0 opened /svc/log at store incarnation 1\n\
    out 0 opened /data at store incarnation 1 rights connect,enumerate,get_attributes,read_bytes,\
    traverse\n\
    out 0 exited store\n\
    out 0 opened /svc/log at store incarnation 1\n\
    out journal\n\
    out root fuchsia-pkg://t/a#meta/root.cm\n\
    out 1 0 find client => need 0\n\
    out 2 0 begin resolve 0 => begun 1\n\
    out 3 0 end 1 resolved fuchsia-pkg://t/a#meta/root.cm $small-root$ => ended resolved\n\
    out 4 0 find client => found 2\n\
    out 5 0 route 2 /svc/log => need 2\n\
    out 6 0 begin resolve 2 => begun 2\n\
    out 7 0 end 2 resolved fuchsia-pkg://t/a#client $small-client$ => ended resolved\n\
    out 8 0 route 2 /svc/log => need 1\n\
    out 9 0 begin resolve 1 => begun 3\n\
    out 10 0 end 3 resolved fuchsia-pkg://t/a#store $store$ => ended resolved\n\
    out 11 0 route 2 /svc/log => given /svc/log at store incarnation 1 through use client, offer ., \
    expose store, capability store\n\
    out 12 0 find client => found 2\n\
    out 13 0 open 2 /in => client-off\n\
    out 14 0 find client => found 2\n\
    out 15 0 begin start 2 => begun 4\n\
    out 16 0 end 4 started => ended started\n\
    out 17 0 find client => found 2\n\
    out 18 0 open 2 /svc/log => need-start 1\n\
    out 19 0 begin start 1 => begun 5\n\
    out 20 0 end 5 started => ended started\n\
    out 21 0 open 2 /svc/log => opened /svc/log at store incarnation 1 through use client, offer ., \
    expose store, capability store\n\
    out 22 0 find store => found 1\n\
    out 23 0 open-exposed 1 data => opened /data at store incarnation 1 rights connect,enumerate,\
    get_attributes,read_bytes,traverse through expose store, capability store\n\
    out 24 0 find store => found 1\n\
    out 25 0 exited 1 => left\n\
    out 26 0 reap 1 => reaping\n\
    out 27 0 find client => found 2\n\
    out 28 0 open 2 /svc/log => need-start 1\n\
    out 29 0 begin start 1 => begun 6\n\
    out 30 0 end 6 started => ended started\n\
    out 31 0 open 2 /svc/log => opened /svc/log at store incarnation 1 through use client, offer ., \
    expose store, capability store\n\
    == run --journal\n\
    @small-root\n\
    @store\n\
    @small-client\n\
    @root-line\n\
    | 3 route client /svc/secret\n\
    | 3 route client /in\n\
    | sync\n\
    | 4 route client /in\n\
    | sync\n\
    | 5 route client /svc/secret\n\
    | 5 route client /none\n\
    | 5 open-exposed store none\n\
    => 0\n\
    out 3 refused 87 no-offer at offer .\n\
    out 3 route /data at store incarnation 1 rights connect,enumerate,get_attributes,read_bytes,traverse \
    through use client, offer ., expose store, capability store\n\
    out 4 route /data at store incarnation 1 rights connect,enumerate,get_attributes,read_bytes,traverse \
    through use client, offer ., expose store, capability store\n\
    out 5 refused 87 no-offer at offer .\n\
    out 5 refused 86 no-such-use\n\
    out 5 refused 87 no-expose at expose store\n\
    out journal\n\
    out root fuchsia-pkg://t/a#meta/root.cm\n\
    out 1 3 find client => need 0\n\
    out 2 3 begin resolve 0 => begun 1\n\
    out 3 3 end 1 resolved fuchsia-pkg://t/a#meta/root.cm $small-root$ => ended resolved\n\
    out 4 3 find client => found 2\n\
    out 5 3 route 2 /svc/secret => need 2\n\
    out 6 3 begin resolve 2 => begun 2\n\
    out 7 3 end 2 resolved fuchsia-pkg://t/a#client $small-client$ => ended resolved\n\
    out 8 3 route 2 /svc/secret => failed no-offer at offer .\n\
    out 9 3 find client => found 2\n\
    out 10 3 route 2 /in => need 1\n\
    out 11 3 begin resolve 1 => begun 3\n\
    out 12 3 end 3 resolved fuchsia-pkg://t/a#store $store$ => ended resolved\n\
    out 13 3 route 2 /in => given /data at store incarnation 1 rights connect,enumerate,get_attributes,\
    read_bytes,traverse through use client, offer ., expose store, capability store\n\
    out 14 4 find client => found 2\n\
    out 15 4 route 2 /in => given /data at store incarnation 1 rights connect,enumerate,get_attributes,\
    read_bytes,traverse through use client, offer ., expose store, capability store\n\
    out 16 5 find client => found 2\n\
    out 17 5 route 2 /svc/secret => failed no-offer at offer .\n\
    out 18 5 find client => found 2\n\
    out 19 5 route 2 /none => no-such-use\n\
    out 20 5 find store => found 1\n\
    out 21 5 open-exposed 1 none => failed no-expose at expose store\n\
    == run --journal\n\
    held @store-empty 0\n\
    failing 0 1\n\
    @small-root\n\
    @small-client\n\
    @root-line\n\
    | 0 start client\n\
    | 0 route client /svc/log\n\
    | 0 open client /svc/log\n\
    => 0\n\
    out 0 started client action 3\n\
    out 0 refused 83 cannot-resolve action 4 gate-failed\n\
    out 0 refused 87 no-expose at expose store\n\
    out journal\n\
    out root fuchsia-pkg://t/a#meta/root.cm\n\
    out 1 0 find client => need 0\n\
    out 2 0 begin resolve 0 => begun 1\n\
    out 3 0 end 1 resolved fuchsia-pkg://t/a#meta/root.cm $small-root$ => ended resolved\n\
    out 4 0 find client => found 2\n\
    out 5 0 begin start 2 => need 2\n\
    out 6 0 begin resolve 2 => begun 2\n\
    out 7 0 end 2 resolved fuchsia-pkg://t/a#client $small-client$ => ended resolved\n\
    out 8 0 begin start 2 => begun 3\n\
    out 9 0 end 3 started => ended started\n\
    out 10 0 find client => found 2\n\
    out 11 0 route 2 /svc/log => need 1\n\
    out 12 0 begin resolve 1 => begun 4\n\
    out 13 0 end 4 gate-failed => ended gate-failed\n\
    out 14 0 find client => found 2\n\
    out 15 0 open 2 /svc/log => need 1\n\
    out 16 0 begin resolve 1 => begun 5\n\
    out 17 0 end 5 resolved fuchsia-pkg://t/a#store $nothing$ => ended resolved\n\
    out 18 0 open 2 /svc/log => failed no-expose at expose store\n\
    == run --journal\n\
    @root-with-collection\n\
    @root-line\n\
    | 0 start .\n\
    | 0 create . coll one #new\n\
    | 0 exited .\n\
    | 0 exited .\n\
    | 0 show @1\n\
    => 0\n\
    out 0 started . action 2\n\
    out 0 created . coll:one incarnation 1\n\
    out 0 exited .\n\
    out 0 exited . already\n\
    out 0 refused 81 gone incarnation 1\n\
    $journal-to-one$\n\
    out 9 0 find . => found 0\n\
    out 10 0 exited 0 => left\n\
    out 11 0 reap 0 => reaping 1\n\
    out 12 0 pick 1 => shutdown 1\n\
    out 13 0 pick 1 => done\n\
    out 14 0 purge 1 => purged 1\n\
    out 15 0 find . => found 0\n\
    out 16 0 exited 0 => already\n\
    out 17 0 show 1 => gone 1\n\
    == run --journal\n\
    @root-once\n\
    @new\n\
    @root-line\n\
    | 0 start .\n\
    | 0 create . once one #new\n\
    | 0 stop .\n\
    => 0\n\
    out 0 started . action 2\n\
    out 0 created . once:one incarnation 1\n\
    out 0 stopped . action 5\n\
    $start-of-root$\n\
    out 4 0 end 1 resolved fuchsia-pkg://t/a#meta/root.cm {\"capabilities\":[],\"children\":[],\
    \"collections\":[{\"allowed_offers\":\"static_only\",\"durability\":\"single_run\",\
    \"name\":\"once\"}],\"expose\":[],\"offer\":[],\"use\":[]} => ended resolved\n\
    out 5 0 begin start 0 => begun 2\n\
    out 6 0 end 2 started => ended started\n\
    out 7 0 find . => found 0\n\
    out 8 0 create 0 once one #new => created 1\n\
    out 9 0 begin start 1 => need 1\n\
    out 10 0 begin resolve 1 => begun 3\n\
    out 11 0 end 3 resolved fuchsia-pkg://t/a#new $nothing$ => ended resolved\n\
    out 12 0 begin start 1 => begun 4\n\
    out 13 0 end 4 started => ended started\n\
    out 14 0 find . => found 0\n\
    out 15 0 begin stop 0 => begun 5\n\
    out 16 0 end 5 stopped => ended stopped\n\
    out 17 0 reap 0 => reaping 1\n\
    out 18 0 pick 1 => stopping 1 6\n\
    out 19 0 end 6 stopped => ended stopped\n\
    out 20 0 pick 1 => shutdown 1\n\
    out 21 0 pick 1 => done\n\
    out 22 0 purge 1 => purged 1\n";
