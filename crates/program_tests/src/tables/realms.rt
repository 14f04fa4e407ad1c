//! Instances that come, go, start and stop.

/// Scripts over realms that change.
pub const REALMS: &str = "\
    == run\n\
    $realm$\n\
    | 0 start client\n\
    | sync\n\
    | 1 show client\n\
    | sync\n\
    | 0 show client\n\
    => 0\n\
    out 0 started client action 3\n\
    out 1 shown client incarnation 2 url #meta/client.cm resolved on\n\
    out 0 shown client incarnation 2 url #meta/client.cm resolved on\n\
    == run\n\
    $realm$\n\
    | 0 start logger\n\
    | 0 show logger\n\
    | 0 exited logger\n\
    | 0 exited logger\n\
    | 0 stop logger\n\
    | 0 survey logger\n\
    => 0\n\
    out 0 started logger action 3\n\
    out 0 shown logger incarnation 1 url #meta/logger.cm resolved on\n\
    out 0 exited logger\n\
    out 0 exited logger already\n\
    out 0 stopped logger already\n\
    out 0 survey logger 1\n\
    out   logger incarnation 1 resolved off\n\
    == run\n\
    @root\n\
    @logger\n\
    @root-line\n\
    | 0 survey .\n\
    | 0 start logger\n\
    | 0 survey .\n\
    | 0 survey @9\n\
    => 0\n\
    out 0 survey . 1\n\
    out   . incarnation 0 unresolved off\n\
    out 0 started logger action 3\n\
    out 0 survey . 3\n\
    out   . incarnation 0 resolved off\n\
    out   logger incarnation 1 resolved on\n\
    out   client incarnation 2 unresolved off\n\
    out 0 refused 81 gone incarnation 9\n\
    == run\n\
    @root-with-collection\n\
    @root-line\n\
    | 0 list . coll\n\
    | 0 list . other\n\
    | 0 list x coll\n\
    => 0\n\
    out 0 children . coll 0\n\
    out 0 refused 60 collection-not-found\n\
    out 0 refused 80 not-found in .\n\
    == run\n\
    @root-with-collection\n\
    @running\n\
    @root-line\n\
    | 0 create . coll x #meta/x.cm\n\
    | 0 destroy coll:x\n\
    | sync\n\
    | 0 create . coll x #meta/x.cm\n\
    | 0 start @1\n\
    => 0\n\
    out 0 created . coll:x incarnation 1\n\
    out 0 destroyed coll:x\n\
    out 0 created . coll:x incarnation 2\n\
    out 0 refused 81 gone incarnation 1\n\
    == run\n\
    @root-with-collection\n\
    @running\n\
    @root-line\n\
    | 0 resolve .\n\
    | 0 shutdown .\n\
    | 0 create . coll y #meta/x.cm\n\
    => 0\n\
    out 0 resolved . action 1\n\
    out 0 shut .\n\
    out 0 refused 65 parent-closing incarnation 0\n\
    == run\n\
    @root-with-collection\n\
    @running\n\
    @root-line\n\
    | 0 create . coll w #meta/x.cm + protocol p parent\n\
    => 0\n\
    out 0 refused 62 dynamic-offers-refused\n\
    == run\n\
    @root-with-offers\n\
    @running\n\
    @root-line\n\
    | 0 create . dyn x #meta/x.cm\n\
    | 0 create . dyn z #meta/x.cm + protocol p #dyn:x\n\
    | 0 destroy dyn:x\n\
    | 0 create . dyn x #meta/x.cm + protocol q #dyn:z\n\
    => 0\n\
    out 0 created . dyn:x incarnation 1\n\
    out 0 created . dyn:z incarnation 2\n\
    out 0 destroyed dyn:x\n\
    out 0 refused 64 offer-cycle dyn:x dyn:z dyn:x\n\
    == run\n\
    @root-with-offers\n\
    | manifest fuchsia-pkg://t/a#meta/x.cm\n\
    | {capabilities:[{protocol:'p'}],expose:[{protocol:'p',from:'self'}]}\n\
    | %%\n\
    | manifest fuchsia-pkg://t/a#meta/z.cm\n\
    | {use:[{protocol:'p'}]}\n\
    | %%\n\
    @root-line\n\
    | 0 create . dyn x #meta/x.cm\n\
    | 0 create . dyn z #meta/z.cm + protocol p #dyn:x\n\
    | 0 route dyn:z /svc/p\n\
    | 0 route dyn:z /svc/p\n\
    | 0 destroy dyn:x\n\
    | 0 route dyn:z /svc/p\n\
    | 0 create . dyn x #meta/x.cm\n\
    | 0 route dyn:z /svc/p\n\
    => 0\n\
    out 0 created . dyn:x incarnation 1\n\
    out 0 created . dyn:z incarnation 2\n\
    out 0 route /svc/p at dyn:x incarnation 1 through use dyn:z, offer ., expose dyn:x, capability dyn:x\
    \n\
    out 0 route /svc/p at dyn:x incarnation 1 through use dyn:z, offer ., expose dyn:x, capability dyn:x\
    \n\
    out 0 destroyed dyn:x\n\
    out 0 refused 87 no-instance at offer .\n\
    out 0 created . dyn:x incarnation 3\n\
    out 0 route /svc/p at dyn:x incarnation 3 through use dyn:z, offer ., expose dyn:x, capability dyn:x\
    \n\
    == run\n\
    $realm$\n\
    | 0 start client\n\
    | 0 shutdown .\n\
    | 0 start client\n\
    | 0 shutdown .\n\
    => 0\n\
    out 0 started client action 3\n\
    out 0 shut .\n\
    out 0 refused 82 shut incarnation 2\n\
    out 0 shut .\n\
    == run\n\
    @root-with-collection\n\
    @running\n\
    @root-line\n\
    | 0 create . none x #meta/x.cm\n\
    | 0 create . coll x #meta/x.cm\n\
    | 0 create . coll x #meta/x.cm\n\
    | 0 destroy .\n\
    => 0\n\
    out 0 refused 60 collection-not-found\n\
    out 0 created . coll:x incarnation 1\n\
    out 0 refused 61 already-exists incarnation 1\n\
    out 0 refused 68 not-dynamic\n\
    == run\n\
    @root-with-collection\n\
    @running\n\
    @root-line\n\
    | 0 start .\n\
    | 0 create . coll x #meta/x.cm\n\
    | 0 start coll:x\n\
    | 0 stop .\n\
    | 0 start @1\n\
    | 0 list . coll\n\
    => 0\n\
    out 0 started . action 2\n\
    out 0 created . coll:x incarnation 1\n\
    out 0 started coll:x action 4\n\
    out 0 stopped . action 5\n\
    out 0 refused 81 gone incarnation 1\n\
    out 0 children . coll 0\n\
    == $runs-once$\n\
    | 0 show once:y\n\
    => 0\n\
    $ran-once$\n\
    out 0 refused 80 not-found in .\n\
    == run\n\
    $realm$\n\
    | 0 start logger\n\
    | 0 exited logger\n\
    | 0 events . 0\n\
    | 0 events logger 9\n\
    => 0\n\
    out 0 started logger action 3\n\
    out 0 exited logger\n\
    out 0 events . 4 next 13\n\
    out   3 resolved . incarnation 0\n\
    out   7 resolved logger incarnation 1\n\
    out   9 started logger incarnation 1\n\
    out   11 stopped logger incarnation 1\n\
    out 0 events logger 1 next 15\n\
    out   11 stopped logger incarnation 1\n\
    == $runs-once$\n\
    | 0 events . 0\n\
    => 0\n\
    $ran-once$\n\
    out 0 events . 5 next 19\n\
    out   4 resolved . incarnation 0\n\
    out   8 resolved once:y incarnation 1\n\
    out   10 started once:y incarnation 1\n\
    out   14 stopped once:y incarnation 1\n\
    out   18 destroyed once:y incarnation 1\n\
    == run\n\
    @running\n\
    | manifest fuchsia-pkg://t/a#meta/root.cm\n\
    | {children:[{name:'log',url:'#meta/x.cm'},{name:'logger',url:'#meta/y.cm'}],\
    collections:[{name:'coll',durability:'transient'}]}\n\
    | %%\n\
    | manifest fuchsia-pkg://t/a#meta/y.cm\n\
    | {children:[{name:'log',url:'#meta/x.cm'}]}\n\
    | %%\n\
    @root-line\n\
    | 0 start log\n\
    | 0 start logger/log\n\
    | 0 events log 0\n\
    | 0 create . coll log #meta/x.cm\n\
    | 0 start coll:log\n\
    | 0 events log 0\n\
    | 0 events logger 0\n\
    | 0 events . 9\n\
    | 0 destroy coll:log\n\
    | 0 events coll:log 0\n\
    | 0 events @4 0\n\
    | 0 events . 27\n\
    | 0 events . 99\n\
    | 0 events @9 18446744073709551615\n\
    => 0\n\
    out 0 started log action 3\n\
    out 0 started logger/log action 6\n\
    out 0 events log 2 next 19\n\
    out   7 resolved log incarnation 1\n\
    out   9 started log incarnation 1\n\
    out 0 created . coll:log incarnation 4\n\
    out 0 started coll:log action 8\n\
    out 0 events log 2 next 29\n\
    out   7 resolved log incarnation 1\n\
    out   9 started log incarnation 1\n\
    out 0 events logger 3 next 31\n\
    out   12 resolved logger incarnation 2\n\
    out   16 resolved logger/log incarnation 3\n\
    out   18 started logger/log incarnation 3\n\
    out 0 events . 5 next 33\n\
    out   12 resolved logger incarnation 2\n\
    out   16 resolved logger/log incarnation 3\n\
    out   18 started logger/log incarnation 3\n\
    out   26 resolved coll:log incarnation 4\n\
    out   28 started coll:log incarnation 4\n\
    out 0 destroyed coll:log\n\
    out 0 refused 80 not-found in .\n\
    out 0 refused 81 gone incarnation 4\n\
    out 0 events . 3 next 44\n\
    out   28 started coll:log incarnation 4\n\
    out   38 stopped coll:log incarnation 4\n\
    out   41 destroyed coll:log incarnation 4\n\
    out 0 events . 0 next 46\n\
    out 0 refused 81 gone incarnation 9\n";
