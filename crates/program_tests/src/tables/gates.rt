//! Gates that fail, decline, or have no room to note what they are asked.

/// Scripts over gates with a plan. Of two lanes that start one instance, one does, and the other
/// joins it or comes after; where the launch fails, who comes after begins a start of its own.
pub const GATES: &str = "\
    == run\n\
    failing 0 5\n\
    | manifest fuchsia-pkg://t/a#meta/root.cm\n\
    | {\"children\":[{\"name\":\"provider\",\"url\":\"#meta/provider.cm\"},{\"name\":\"client\",\
    \"url\":\"#meta/client.cm\"},{\"name\":\"mid\",\"url\":\"#meta/mid.cm\"}],\
    \"offer\":[{\"protocol\":\"a\",\"from\":\"#mid\",\"to\":\"#client\"},{\"protocol\":\"b\",\
    \"from\":\"#provider\",\"to\":\"#mid\"},{\"protocol\":\"c\",\"from\":\"#client\",\
    \"to\":\"#provider\",\"dependency\":\"weak\"}]}\n\
    | %%\n\
    | manifest fuchsia-pkg://t/a#meta/provider.cm\n\
    | {\"program\":{\"runner\":\"elf\"},\"capabilities\":[{\"protocol\":\"b\"}],\
    \"expose\":[{\"protocol\":\"b\",\"from\":\"self\"}]}\n\
    | %%\n\
    | manifest fuchsia-pkg://t/a#meta/client.cm\n\
    | {\"program\":{\"runner\":\"elf\"},\"capabilities\":[{\"protocol\":\"c\"}],\
    \"expose\":[{\"protocol\":\"c\",\"from\":\"self\"}]}\n\
    | %%\n\
    | manifest fuchsia-pkg://t/a#meta/mid.cm\n\
    | {\"program\":{\"runner\":\"elf\"},\"children\":[{\"name\":\"leaf\",\
    \"url\":\"#meta/leaf.cm\"}],\"use\":[{\"protocol\":\"l\",\"from\":\"#leaf\"}],\
    \"capabilities\":[{\"protocol\":\"a\"}],\"expose\":[{\"protocol\":\"a\",\"from\":\"self\"}]}\n\
    | %%\n\
    | manifest fuchsia-pkg://t/a#meta/leaf.cm\n\
    | {\"program\":{\"runner\":\"elf\"},\"capabilities\":[{\"protocol\":\"l\"}],\
    \"expose\":[{\"protocol\":\"l\",\"from\":\"self\"}]}\n\
    | %%\n\
    @root-line\n\
    | 0 start provider\n\
    | 0 start client\n\
    | 0 start mid\n\
    | 0 start mid/leaf\n\
    | 0 shutdown .\n\
    => 0\n\
    out 0 started provider action 3\n\
    out 0 started client action 5\n\
    out 0 started mid action 7\n\
    out 0 started mid/leaf action 9\n\
    out 0 shut .\n\
    told 0 launch fuchsia-pkg://t/a#meta/provider.cm action 3 Running\n\
    told 0 launch fuchsia-pkg://t/a#meta/client.cm action 5 Running\n\
    told 0 launch fuchsia-pkg://t/a#meta/mid.cm action 7 Running\n\
    told 0 launch fuchsia-pkg://t/a#meta/leaf.cm action 9 Running\n\
    told 0 halt fuchsia-pkg://t/a#meta/client.cm action 10 Stopped\n\
    told 0 halt fuchsia-pkg://t/a#meta/mid.cm action 11 Failed\n\
    told 0 halt fuchsia-pkg://t/a#meta/leaf.cm action 12 Stopped\n\
    told 0 halt fuchsia-pkg://t/a#meta/provider.cm action 13 Stopped\n\
    told 0 faults 1\n\
    == run\n\
    @root\n\
    @client\n\
    @root-line\n\
    | 0 resolve logger\n\
    => 0\n\
    out 0 refused 83 cannot-resolve action 2 absent\n\
    told 0 fetch fuchsia-pkg://t/a#meta/logger.cm absent\n\
    == run\n\
    held @logger 0\n\
    failing 0 0\n\
    @root\n\
    @client\n\
    @root-line\n\
    | 0 resolve logger\n\
    | 0 resolve logger\n\
    => 0\n\
    out 0 refused 83 cannot-resolve action 2 gate-failed\n\
    out 0 resolved logger action 3\n\
    told 0 fetch fuchsia-pkg://t/a#meta/logger.cm failed\n\
    told 0 fetch fuchsia-pkg://t/a#meta/logger.cm found\n\
    told 0 faults 1\n\
    == run\n\
    held @logger-empty 1048577\n\
    @root\n\
    @client\n\
    @root-line\n\
    | 0 resolve logger\n\
    => 0\n\
    out 0 refused 83 cannot-resolve action 2 invalid 41 manifest 0\n\
    told 0 fetch fuchsia-pkg://t/a#meta/logger.cm found\n\
    == $room$ 0\n\
    held @logger 0\n\
    @root\n\
    @client\n\
    @root-line\n\
    | 0 resolve logger\n\
    => 0\n\
    out 0 refused 83 cannot-resolve action 2 gate-failed\n\
    told 0 untold\n\
    told 0 faults 1\n\
    == run\n\
    declined fuchsia-pkg://t/a#meta/logger.cm\n\
    $realm$\n\
    | 0 start logger\n\
    | 0 events . 0\n\
    => 0\n\
    out 0 refused 84 cannot-start action 3 declined\n\
    out 0 events . 2 next 10\n\
    out   3 resolved . incarnation 0\n\
    out   7 resolved logger incarnation 1\n\
    told 0 launch fuchsia-pkg://t/a#meta/logger.cm action 3 Declined\n\
    == run\n\
    failing 0 1\n\
    $realm$\n\
    | 0 start logger\n\
    | 0 stop logger\n\
    | 0 events logger 9\n\
    => 0\n\
    out 0 started logger action 3\n\
    out 0 stopped logger by-force action 4\n\
    out 0 events logger 1 next 14\n\
    out   12 stopped logger incarnation 1\n\
    told 0 launch fuchsia-pkg://t/a#meta/logger.cm action 3 Running\n\
    told 0 halt fuchsia-pkg://t/a#meta/logger.cm action 4 Failed\n\
    told 0 faults 1\n\
    == run\n\
    failing 0 1\n\
    $realm$\n\
    | 0 start client\n\
    | 0 open client /svc/fuchsia.logger.LogSink\n\
    | 0 open client /svc/fuchsia.logger.LogSink\n\
    => 0\n\
    out 0 started client action 3\n\
    out 0 refused 84 cannot-start action 5 gate-failed\n\
    out 0 opened /svc/fuchsia.logger.LogSink at logger incarnation 1\n\
    told 0 launch fuchsia-pkg://t/a#meta/client.cm action 3 Running\n\
    told 0 launch fuchsia-pkg://t/a#meta/logger.cm action 5 Failed\n\
    told 0 launch fuchsia-pkg://t/a#meta/logger.cm action 6 Running\n\
    told 0 faults 1\n\
    == run\n\
    $eager$\n\
    out 0 shown e incarnation 1 url #meta/e.cm resolved on\n\
    told 0 launch fuchsia-pkg://t/a#meta/e.cm action 4 Running\n\
    == run\n\
    failing 0 0\n\
    $eager$\n\
    out 0 shown e incarnation 1 url #meta/e.cm resolved off\n\
    told 0 launch fuchsia-pkg://t/a#meta/e.cm action 4 Failed\n\
    told 0 faults 1\n\
    == run\n\
    runs 20\n\
    $realm$\n\
    | 0 start logger\n\
    | 1 start logger\n\
    => 0\n\
    $both-started$\n\
    told 0 launch fuchsia-pkg://t/a#meta/logger.cm action 3 Running\n\
    => 0\n\
    $both-started$\n\
    told 1 launch fuchsia-pkg://t/a#meta/logger.cm action 3 Running\n\
    => 0\n\
    out 0 started logger action 3\n\
    out 1 started logger already\n\
    told 0 launch fuchsia-pkg://t/a#meta/logger.cm action 3 Running\n\
    => 0\n\
    out 0 started logger already\n\
    out 1 started logger action 3\n\
    told 1 launch fuchsia-pkg://t/a#meta/logger.cm action 3 Running\n\
    == run\n\
    runs 20\n\
    failing 0 0\n\
    failing 1 0\n\
    $realm$\n\
    | 0 start logger\n\
    | 1 start logger\n\
    => 0\n\
    $neither-started$\n\
    $first-failed$\n\
    => 0\n\
    $neither-started$\n\
    $second-failed$\n\
    => 0\n\
    out 0 refused 84 cannot-start action 3 gate-failed\n\
    out 1 refused 84 cannot-start action 4 gate-failed\n\
    $first-failed$\n\
    told 1 launch fuchsia-pkg://t/a#meta/logger.cm action 4 Failed\n\
    told 1 faults 1\n\
    => 0\n\
    out 0 refused 84 cannot-start action 4 gate-failed\n\
    out 1 refused 84 cannot-start action 3 gate-failed\n\
    told 0 launch fuchsia-pkg://t/a#meta/logger.cm action 4 Failed\n\
    told 0 faults 1\n\
    $second-failed$\n";

/// What gates answer by their plan, what they note while there is room, and how often they fail. Of two
/// manifests under one URL they have the first.
pub const PLANS: &str = "\
    == $room$ 5\n\
    $asked-plan$\n\
    | 0 stop logger\n\
    => 0\n\
    $plan-answers$\n\
    out 0 stopped logger action 7\n\
    $plan-told$\n\
    told 0 halt fuchsia-pkg://t/a#meta/logger.cm action 7 Stopped\n\
    == run\n\
    failing 0 0\n\
    failing 0 3\n\
    $asked-plan$\n\
    | 0 start logger\n\
    | 0 stop logger\n\
    => 0\n\
    out 0 refused 83 cannot-resolve action 2 gate-failed\n\
    out 0 refused 83 cannot-resolve action 3 absent\n\
    out 0 refused 84 cannot-start action 5 gate-failed\n\
    out 0 refused 84 cannot-start action 7 declined\n\
    out 0 started logger action 8\n\
    out 0 stopped logger action 9\n\
    told 0 fetch fuchsia-pkg://t/a#meta/logger.cm failed\n\
    told 0 fetch fuchsia-pkg://t/a#meta/none.cm absent\n\
    told 0 fetch fuchsia-pkg://t/a#meta/logger.cm found\n\
    told 0 launch fuchsia-pkg://t/a#meta/logger.cm action 5 Failed\n\
    told 0 launch fuchsia-pkg://t/a#meta/client.cm action 7 Declined\n\
    told 0 launch fuchsia-pkg://t/a#meta/logger.cm action 8 Running\n\
    told 0 halt fuchsia-pkg://t/a#meta/logger.cm action 9 Stopped\n\
    told 0 faults 2\n\
    == $room$ 5\n\
    failing 0 4\n\
    failing 0 9\n\
    $asked-plan$\n\
    | 0 stop logger\n\
    => 0\n\
    $plan-answers$\n\
    out 0 stopped logger by-force action 7\n\
    $plan-told$\n\
    told 0 halt fuchsia-pkg://t/a#meta/logger.cm action 7 Failed\n\
    told 0 faults 1\n\
    == $room$ 2\n\
    $asked-plan$\n\
    | 0 start logger\n\
    => 0\n\
    out 0 resolved logger action 2\n\
    out 0 refused 83 cannot-resolve action 3 absent\n\
    out 0 refused 84 cannot-start action 4 gate-failed\n\
    out 0 refused 84 cannot-start action 6 gate-failed\n\
    out 0 refused 84 cannot-start action 7 gate-failed\n\
    told 0 untold\n\
    told 0 faults 3\n\
    == $room$ 3\n\
    $plan$\n\
    | 0 resolve logger\n\
    | 0 start logger\n\
    | 0 stop logger\n\
    | 0 start logger\n\
    => 0\n\
    out 0 resolved logger action 2\n\
    out 0 started logger action 3\n\
    out 0 stopped logger action 4\n\
    out 0 refused 84 cannot-start action 5 gate-failed\n\
    told 0 untold\n\
    told 0 faults 1\n\
    == $room$ 0\n\
    failing 0 1\n\
    $asked-plan$\n\
    | 0 resolve logger\n\
    => 0\n\
    out 0 refused 83 cannot-resolve action 2 gate-failed\n\
    out 0 refused 83 cannot-resolve action 3 gate-failed\n\
    out 0 refused 83 cannot-resolve action 4 gate-failed\n\
    out 0 refused 84 cannot-start action 6 gate-failed\n\
    out 0 refused 83 cannot-resolve action 7 gate-failed\n\
    told 0 untold\n\
    told 0 faults 5\n\
    == run --repo repo\n\
    room 3\n\
    failing 0 2\n\
    @root\n\
    @logger\n\
    @root-line\n\
    | 0 resolve client\n\
    | 0 start logger\n\
    | 0 stop logger\n\
    => 0\n\
    out 0 refused 83 cannot-resolve action 2 absent\n\
    out 0 started logger action 4\n\
    out 0 stopped logger by-force action 5\n\
    told 0 fetch fuchsia-pkg://t/a#meta/client.cm absent\n\
    told 0 launch fuchsia-pkg://t/a#meta/logger.cm action 4 Running\n\
    told 0 halt fuchsia-pkg://t/a#meta/logger.cm action 5 Failed\n\
    told 0 faults 1\n";
