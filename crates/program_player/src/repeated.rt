//! Texts that stand in several cases, where `$` and a name and another `$` stand for each.

use super::texts::named_in;
use cm_names::Text;
use std::alloc::Global;

/// The text of a name, without the line feed at its end.
fn repeated(name: &str) -> Option<&'static str> {
    named_in(TEXTS, name)?.strip_suffix('\n')
}

/// A case with its repeated texts, and with those that stand in these; nothing where one has no such name.
pub fn expanded(alloc: Global, case: &str) -> Option<Text> {
    match replaced(alloc, case) {
        Some(case) => replaced(alloc, case.as_str()),
        None => None,
    }
}

/// The case with each `$WORD$` replaced by the long text of that name.
fn replaced(alloc: Global, case: &str) -> Option<Text> {
    let mut text = Text::new(alloc);
    let mut is_name = false;
    for part in case.split('$') {
        let part = if is_name { repeated(part)? } else { part };
        text.push_str(part).ok()?;
        is_name = !is_name;
    }
    Some(text)
}

/// The texts. Some begin one line or several lines, which the case goes on with.
const TEXTS: &str = "\
    == nothing: the declaration of an empty manifest, as the journal writes it\n\
    {\"capabilities\":[],\"children\":[],\"collections\":[],\"expose\":[],\"offer\":[],\"use\":[]}\n\
    == running: that of a manifest with a program alone\n\
    {\"capabilities\":[],\"children\":[],\"collections\":[],\"expose\":[],\"offer\":[],\
    \"program\":{\"runner\":\"elf\"},\"use\":[]}\n\
    == collection: that of one with a collection alone\n\
    {\"capabilities\":[],\"children\":[],\"collections\":[{\"allowed_offers\":\"static_only\",\
    \"durability\":\"transient\",\"name\":\"coll\"}],\"expose\":[],\"offer\":[],\"use\":[]}\n\
    == small-root: that of `@small-root`\n\
    {\"capabilities\":[],\"children\":[{\"name\":\"store\",\"startup\":\"lazy\",\"url\":\"#store\"},\
    {\"name\":\"client\",\"startup\":\"lazy\",\"url\":\"#client\"}],\"collections\":[],\"expose\":[],\
    \"offer\":[{\"as\":\"log\",\"availability\":\"required\",\"dependency\":\"strong\",\"from\":\"#store\",\
    \"protocol\":\"log\",\"to\":\"#client\"},{\"as\":\"data\",\"availability\":\"required\",\
    \"dependency\":\"strong\",\"directory\":\"data\",\"from\":\"#store\",\"to\":\"#client\"}],\"use\":[]}\n\
    == store: that of `@store`\n\
    {\"capabilities\":[{\"path\":\"/svc/log\",\"protocol\":\"log\"},{\"directory\":\"data\",\
    \"path\":\"/data\",\"rights\":[\"connect\",\"enumerate\",\"get_attributes\",\"read_bytes\",\
    \"traverse\"]}],\"children\":[],\"collections\":[],\"expose\":[{\"as\":\"log\",\
    \"availability\":\"required\",\"from\":\"self\",\"protocol\":\"log\"},{\"as\":\"data\",\
    \"availability\":\"required\",\"directory\":\"data\",\"from\":\"self\"}],\"offer\":[],\
    \"program\":{\"runner\":\"elf\"},\"use\":[]}\n\
    == small-client: that of `@small-client`\n\
    {\"capabilities\":[],\"children\":[],\"collections\":[],\"expose\":[],\"offer\":[],\
    \"program\":{\"runner\":\"elf\"},\"use\":[{\"availability\":\"required\",\"dependency\":\"strong\",\
    \"from\":\"parent\",\"path\":\"/svc/log\",\"protocol\":\"log\"},{\"availability\":\"required\",\
    \"dependency\":\"strong\",\"directory\":\"data\",\"from\":\"parent\",\"path\":\"/in\",\
    \"rights\":[\"connect\",\"enumerate\",\"get_attributes\",\"read_bytes\",\"traverse\"]},\
    {\"availability\":\"required\",\"dependency\":\"strong\",\"from\":\"parent\",\"path\":\"/svc/secret\",\
    \"protocol\":\"secret\"}]}\n\
    == session: a declaration that is read as it is written, as the next three are\n\
    {\"capabilities\":[{\"directory\":\"data\",\"path\":\"/data\",\"rights\":[\"connect\",\"enumerate\",\
    \"get_attributes\",\"read_bytes\",\"traverse\"]}],\"children\":[{\"name\":\"shell\",\
    \"startup\":\"eager\",\"url\":\"#meta/shell.cm\"}],\
    \"collections\":[{\"allowed_offers\":\"static_and_dynamic\",\"durability\":\"transient\",\
    \"name\":\"elements\"}],\"expose\":[{\"as\":\"session-data\",\"availability\":\"required\",\
    \"directory\":\"data\",\"from\":\"self\",\"subdir\":\"x/y\"}],\"offer\":[{\"as\":\"a.B\",\
    \"availability\":\"required\",\"dependency\":\"strong\",\"from\":\"parent\",\"protocol\":\"a.B\",\
    \"to\":\"#shell\"},{\"as\":\"a.B\",\"availability\":\"required\",\"dependency\":\"strong\",\
    \"from\":\"parent\",\"protocol\":\"a.B\",\"to\":\"#elements\"}],\"program\":{\"runner\":\"elf\"},\
    \"use\":[{\"availability\":\"required\",\"dependency\":\"strong\",\"from\":\"parent\",\
    \"path\":\"/svc/a.B\",\"protocol\":\"a.B\"},{\"availability\":\"required\",\"dependency\":\"strong\",\
    \"from\":\"parent\",\"path\":\"/svc/a.C\",\"protocol\":\"a.C\"}]}\n\
    == uses\n\
    {\"capabilities\":[],\"children\":[],\"collections\":[],\"expose\":[],\"offer\":[],\
    \"use\":[{\"availability\":\"transitional\",\"dependency\":\"strong\",\"from\":\"parent\",\
    \"path\":\"/svc/q\",\"protocol\":\"q\"},{\"from\":\"debug\",\"path\":\"/svc/p\",\"protocol\":\"p\"},\
    {\"from\":\"parent\",\"path\":\"/s\",\"storage\":\"s\"}]}\n\
    == environment\n\
    {\"capabilities\":[],\"children\":[],\"collections\":[],\"environments\":[{\"debug\":[{\"as\":\"p\",\
    \"from\":\"parent\",\"protocol\":\"p\"},{\"as\":\"q\",\"from\":\"parent\",\"protocol\":\"q\"}],\
    \"extends\":\"realm\",\"name\":\"e\",\"runners\":[{\"as\":\"s\",\"from\":\"#a\",\"runner\":\"r\"}]}],\
    \"expose\":[],\"offer\":[],\"use\":[]}\n\
    == storage\n\
    {\"capabilities\":[{\"backing_dir\":\"d\",\"from\":\"#a\",\"storage\":\"s\",\
    \"storage_id\":\"static_instance_id_or_moniker\",\"subdir\":\"x/y\"}],\
    \"children\":[{\"environment\":\"#e\",\"name\":\"a\",\"startup\":\"lazy\",\"url\":\"u\"}],\
    \"collections\":[],\"expose\":[],\"offer\":[{\"as\":\"s\",\"from\":\"self\",\"storage\":\"s\",\
    \"to\":\"#a\"},{\"as\":\"s\",\"from\":\"self\",\"storage\":\"s\",\"to\":\"#c\"},{\"as\":\"t\",\
    \"from\":\"self\",\"storage\":\"t\",\"to\":\"#a\"},{\"as\":\"t\",\"from\":\"self\",\"storage\":\"t\",\
    \"to\":\"#c\"}],\"use\":[]}\n\
    == usage: the end of words that ask for nothing\n\
    => 2\n\
    err usage: run, check, serve, audit, generate, environments, storage\n\
    == no-json: the end of a check of what is no relaxed JSON\n\
    => 1\n\
    out invalid 31 manifest 0\n\
    == brackets: a check of opening brackets, up to their number\n\
    check\n\
    fill 91\n\
    == child-of-long-name: a check of a child, up to the length of its name\n\
    check\n\
    + {children:[{name:'\n\
    fill 110\n\
    == behind-name: what stands behind that name\n\
    + ',url:'#a'}]}\n\
    == plan: what gates have and decline, and the manifests behind a script that asks them\n\
    held @logger 0\n\
    held @logger-empty 9\n\
    declined fuchsia-pkg://t/a#meta/client.cm\n\
    | manifest fuchsia-pkg://t/a#meta/root.cm\n\
    | {children:[{name:'logger',url:'#meta/logger.cm'},{name:'client',url:'#meta/client.cm'},\n\
    | {name:'none',url:'#meta/none.cm'}]}\n\
    | %%\n\
    @client\n\
    @root-line\n\
    == realm: a root with a logger and a client, up to the commands of its script\n\
    @root\n\
    @logger\n\
    @client\n\
    @root-line\n\
    == runs-once: a script in which a child runs once\n\
    run\n\
    @root-once\n\
    @running\n\
    @root-line\n\
    | 0 create . once y #meta/x.cm\n\
    | 0 show once:y\n\
    | 0 exited once:y\n\
    == ran-once: its answers\n\
    out 0 created . once:y incarnation 1\n\
    out 0 shown once:y incarnation 1 url #meta/x.cm resolved on\n\
    out 0 exited once:y\n\
    == room: a script whose gates have room to note the number of questions behind it\n\
    run\n\
    room\n\
    == asked-plan: `$plan$` with its first questions\n\
    $plan$\n\
    | 0 resolve logger\n\
    | 0 resolve none\n\
    | 0 start logger\n\
    | 0 start client\n\
    == plan-answers: what a plan without failures answers to them\n\
    out 0 resolved logger action 2\n\
    out 0 refused 83 cannot-resolve action 3 absent\n\
    out 0 started logger action 4\n\
    out 0 refused 84 cannot-start action 6 declined\n\
    == plan-told: what its gates tell then\n\
    told 0 fetch fuchsia-pkg://t/a#meta/logger.cm found\n\
    told 0 fetch fuchsia-pkg://t/a#meta/none.cm absent\n\
    told 0 launch fuchsia-pkg://t/a#meta/logger.cm action 4 Running\n\
    told 0 launch fuchsia-pkg://t/a#meta/client.cm action 6 Declined\n\
    == eager: a script that starts the parent of an eager child, and its first answer\n\
    @eager-root\n\
    @eager-child\n\
    @root-line\n\
    | 0 start .\n\
    | 0 show e\n\
    => 0\n\
    out 0 started . action 2\n\
    == both-started: two lanes start one instance as one action\n\
    out 0 started logger action 3\n\
    out 1 started logger action 3\n\
    == neither-started: two lanes whose one action fails\n\
    out 0 refused 84 cannot-start action 3 gate-failed\n\
    out 1 refused 84 cannot-start action 3 gate-failed\n\
    == first-failed: what the gates tell then, where the first lane asked\n\
    told 0 launch fuchsia-pkg://t/a#meta/logger.cm action 3 Failed\n\
    told 0 faults 1\n\
    == second-failed: the same of the second lane\n\
    told 1 launch fuchsia-pkg://t/a#meta/logger.cm action 3 Failed\n\
    told 1 faults 1\n\
    == route: a script that asks for a route\n\
    @root\n\
    @logger\n\
    @client\n\
    @ask\n\
    == read-in-pieces: a script that is read by 100 bytes, up to the number of the read that fails\n\
    run\n\
    piece 100\n\
    read\n\
    == read-fault: the script `$route$`, and the end of a run that can't read it\n\
    $route$\n\
    => 3\n\
    read-faults 1\n\
    entries 0\n\
    err read fault\n\
    == written-in-pieces: a script that is answered by seven bytes, up to the write that fails\n\
    run\n\
    piece 7\n\
    write\n\
    == write-fault: the script `$route$`, and the end of a run that can't write its answer\n\
    $route$\n\
    => 4\n\
    write-faults 1\n\
    entries 11\n\
    == void-offered: a script whose root offers nothing, up to its availability\n\
    run\n\
    @void-offer\n\
    |\n\
    == used-as: the rest of that manifest, and its client, up to the availability of its use\n\
    | %%\n\
    @p-client\n\
    |\n\
    == asked-p: the rest of that manifest, and the question\n\
    | %%\n\
    @ask-p\n\
    => 0\n\
    == client-asks: a client that asks for its route\n\
    @client\n\
    @ask\n\
    => 0\n\
    == asked-in: the end of a manifest, and a question for its directory\n\
    | %%\n\
    @ask-in\n\
    => 0\n\
    == store-to-read: a store that exposes its directory to be read, up to what follows these rights\n\
    @offer-of-data\n\
    | manifest fuchsia-pkg://t/a#s\n\
    | {capabilities:[{directory:'data',path:'/data',rights:['rw*']}],expose:[{from:'self',\
    directory:'data',rights:['r*']\n\
    == data-is-used: its end, a client that uses the directory to read and write, and the question\n\
    | %%\n\
    | manifest fuchsia-pkg://t/a#c\n\
    | {use:[{path:'/in',directory:'data',rights:['rw*']}]}\n\
    $asked-in$\n\
    == protocol-is-used: the same of a protocol, behind a store of a directory\n\
    @store-of-data\n\
    | manifest fuchsia-pkg://t/a#c\n\
    | {use:[{path:'/in',protocol:'data'}]}\n\
    $asked-in$\n\
    == offer-of-directory: a root that offers a directory, up to where it is from\n\
    | manifest fuchsia-pkg://t/a#meta/root.cm\n\
    | {children:[{name:'store',url:'#s'},{name:'client',url:'#c'}],offer:[{to:'#client',directory:'data',\
    from:\n\
    == offer-of-protocol: the same of a protocol\n\
    | manifest fuchsia-pkg://t/a#meta/root.cm\n\
    | {children:[{name:'store',url:'#s'},{name:'client',url:'#c'}],offer:[{to:'#client',protocol:'data',\
    from:\n\
    == client-of-subdirectory: a subdirectory of a subdirectory, up to its client's manifest\n\
    @offer-of-subdirectory\n\
    @store-of-subdirectory\n\
    | manifest fuchsia-pkg://t/a#c\n\
    == log-through-mid: a store's log that is offered through an instance, up to the availability there\n\
    @to-mid\n\
    @store-of-log\n\
    | manifest fuchsia-pkg://t/a#m\n\
    | {children:[{name:'client',url:'#c'}],offer:[{protocol:'log',from:'parent',to:'#client',\
    availability:\n\
    == optional-is-asked: a client whose use is optional, and the question\n\
    | manifest fuchsia-pkg://t/a#c\n\
    | {use:[{protocol:'log',availability:'optional'}]}\n\
    | %%\n\
    @ask-log\n\
    => 0\n\
    == root-of-a: a root with one child, up to the child's manifest\n\
    | manifest fuchsia-pkg://t/a#meta/root.cm\n\
    | {children:[{name:'a',url:'#a'}]}\n\
    | %%\n\
    | manifest fuchsia-pkg://t/a#a\n\
    == opened-at-b: a child below it that exposes a log, which is opened through both\n\
    | manifest fuchsia-pkg://t/a#b\n\
    | {capabilities:[{protocol:'log'}],expose:[{protocol:'log',from:'self',\
    availability:'transitional'}]}\n\
    | %%\n\
    @root-line\n\
    | 0 open-exposed a log\n\
    => 0\n\
    == serve: the words of a service of one link at once\n\
    serve s --root fuchsia-pkg://t/a#meta/root.cm --repo r --workers 1\n\
    == asks: what a link gives that quits\n\
    | show .\n\
    | foo\n\
    | quit\n\
    == shown: that the root is shown to a link\n\
    sent shown . incarnation 0 url fuchsia-pkg://t/a#meta/root.cm unresolved off\n\
    == shown-and-refused: the same on a link of its own, and then that a line is no command\n\
    sent worker 0\n\
    $shown$\n\
    sent refused 70 bad-command at 0\n\
    == served: the end of a service of which one link asks for the root\n\
    => 0\n\
    entries 2\n\
    sent worker 0\n\
    $shown$\n\
    == no-door: the end of a service whose door fails before a link asks\n\
    => 5\n\
    door-faults 1\n\
    entries 0\n\
    err door fault\n\
    == lines: what a link gives\n\
    | show @1\n\
    | show @2\n\
    | \n\
    + show @4\n\
    == answers: what is written to it then\n\
    sent worker 0\n\
    sent refused 81 gone incarnation 1\n\
    sent refused 81 gone incarnation 2\n\
    sent refused 70 bad-command at 0\n\
    sent refused 81 gone incarnation 4\n\
    == first-line: what a link gives that fails behind its first line, and what is written to it\n\
    $lines$\n\
    => 0\n\
    sent worker 0 read-faults 1\n\
    sent refused 81 gone incarnation 1\n\
    == long-lines: lines of which two are too long, and what is written to their link\n\
    fill 121 65537\n\
    | \n\
    fill 120 65536\n\
    | \n\
    fill 121 65537\n\
    => 0\n\
    sent worker 0\n\
    sent refused 75 line-too-long\n\
    sent refused 70 bad-command at 0\n\
    sent refused 75 line-too-long\n\
    == unserved: a link that words which ask for nothing leave unserved\n\
    link one\n\
    | show .\n\
    => 2\n\
    entries 0\n\
    err usage: run, check, serve, audit, generate, environments, storage\n\
    == resolves-the-root: a script that resolves the root, and its journal up to the declaration\n\
    @root-line\n\
    | 0 resolve .\n\
    => 0\n\
    out 0 resolved . action 1\n\
    out journal\n\
    out root fuchsia-pkg://t/a#meta/root.cm\n\
    out 1 0 find . => found 0\n\
    out 2 0 begin resolve 0 => begun 1\n\
    out 3 0 end 1 resolved fuchsia-pkg://t/a#meta/root.cm\n\
    == starts-one: a script that starts the root, and a child in its collection\n\
    @root-with-collection\n\
    @new\n\
    @root-line\n\
    | 0 start .\n\
    | 0 create . coll one #new\n\
    | 0 start coll:one\n\
    == started-one: the answers of that script\n\
    out 0 started . action 2\n\
    out 0 created . coll:one incarnation 1\n\
    out 0 started coll:one action 4\n\
    == start-of-root: a journal in which the root is started first, up to its declaration\n\
    out journal\n\
    out root fuchsia-pkg://t/a#meta/root.cm\n\
    out 1 0 find . => found 0\n\
    out 2 0 begin start 0 => need 0\n\
    out 3 0 begin resolve 0 => begun 1\n\
    == journal-to-one: the journal of that script, up to the new child\n\
    $start-of-root$\n\
    out 4 0 end 1 resolved fuchsia-pkg://t/a#meta/root.cm $collection$ => ended resolved\n\
    out 5 0 begin start 0 => begun 2\n\
    out 6 0 end 2 started => ended started\n\
    out 7 0 find . => found 0\n\
    out 8 0 create 0 coll one #new => created 1\n\
    == one-starts: the entries in which that child starts\n\
    out 10 0 begin start 1 => need 1\n\
    out 11 0 begin resolve 1 => begun 3\n\
    out 12 0 end 3 resolved fuchsia-pkg://t/a#new $nothing$ => ended resolved\n\
    out 13 0 begin start 1 => begun 4\n\
    out 14 0 end 4 started => ended started\n\
    == one-by-0: what a worker writes to one of two links\n\
    sent worker 0\n\
    sent resolved . action 1\n\
    sent refused 70 bad-command at 0\n\
    == one-by-1\n\
    sent worker 1\n\
    sent resolved . action 1\n\
    sent refused 70 bad-command at 0\n\
    == other-by-0\n\
    sent worker 0\n\
    sent refused 70 bad-command at 0\n\
    sent refused 70 bad-command at 0\n\
    == other-by-1\n\
    sent worker 1\n\
    sent refused 70 bad-command at 0\n\
    sent refused 70 bad-command at 0\n\
    == ask-root: the declarations of `@root`, `@client` and `@logger`\n\
    {\"capabilities\":[],\"children\":[{\"name\":\"logger\",\"sta\
    rtup\":\"lazy\",\"url\":\"#meta/logger.cm\"},{\"name\":\"client\",\"startup\":\"lazy\",\"url\
    \":\"#meta/client.cm\"}],\"collections\":[],\"expose\":[],\"offer\":[{\"as\":\"fuchsia.logge\
    r.LogSink\",\"availability\":\"required\",\"dependency\":\"strong\",\"from\":\"#logger\",\"p\
    rotocol\":\"fuchsia.logger.LogSink\",\"to\":\"#client\"}],\"use\":[]}\n\
    == ask-client\n\
    {\"capabilities\":[],\"children\":[],\"collections\":[],\"e\
    xpose\":[],\"offer\":[],\"program\":{\"runner\":\"elf\"},\"use\":[{\"availability\":\"requir\
    ed\",\"dependency\":\"strong\",\"from\":\"parent\",\"path\":\"/svc/fuchsia.logger.LogSink\",\
    \"protocol\":\"fuchsia.logger.LogSink\"}]}\n\
    == ask-logger\n\
    {\"capabilities\":[{\"path\":\"/svc/fuchsia.logger.LogSink\
    \",\"protocol\":\"fuchsia.logger.LogSink\"}],\"children\":[],\"collections\":[],\"expose\":[\
    {\"as\":\"fuchsia.logger.LogSink\",\"availability\":\"required\",\"from\":\"self\",\"protoco\
    l\":\"fuchsia.logger.LogSink\"}],\"offer\":[],\"program\":{\"runner\":\"elf\"},\"use\":[]}\n\
    == asked: the answer of the script `$route$` and its journal, up to entry 2\n\
    | 0 route /svc/fuchsia.logger.LogSink at logger incarnation 1 through use client, offer ., e\
    xpose logger, capability logger\n\
    | journal\n\
    | root fuchsia-pkg://t/a#meta/root.cm\n\
    | 1 0 find client => need 0\n\
    | 2 0 begin resolve 0 => begun 1\n\
    == resolves-root: what is behind the caller of entry 3\n\
    end 1 resolved fuchsia-pkg://t/a#meta/root.cm $ask-root$ => ended resolved\n\
    == entries-5-to-10: the further entries but the last\n\
    | 5 0 route 2 /svc/fuchsia.logger.LogSink => need 2\n\
    | 6 0 begin resolve 2 => begun 2\n\
    | 7 0 end 2 resolved fuchsia-pkg://t/a#meta/client.cm $ask-client$ => ended resolved\n\
    | 8 0 route 2 /svc/fuchsia.logger.LogSink => need 1\n\
    | 9 0 begin resolve 1 => begun 3\n\
    | 10 0 end 3 resolved fuchsia-pkg://t/a#meta/logger.cm $ask-logger$ => ended resolved\n\
    == entry-11\n\
    | 11 0 route 2 /svc/fuchsia.logger.LogSink => given /svc/fuchsia.logger.LogSink at logger in\
    carnation 1 through use client, offer ., expose logger, capability logger\n\
    == root-resolved: a journal in which the root is resolved, up to its declaration\n\
    | journal\n\
    | root fuchsia-pkg://t/a#meta/root.cm\n\
    | 1 0 begin resolve 0 => begun 1\n\
    | 2 0 end 1 resolved fuchsia-pkg://t/a#meta/root.cm\n\
    == two: the declaration of a root with two children that are apart\n\
    {\"capabilities\":[],\"children\":[{\"name\":\"a\",\"startup\":\"lazy\",\"url\":\"#a\"},{\"n\
    ame\":\"b\",\"startup\":\"lazy\",\"url\":\"#b\"}],\"collections\":[],\"expose\":[],\"offer\"\
    :[],\"use\":[]}\n";
