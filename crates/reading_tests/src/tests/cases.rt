//! The tables of the readers: what each reads, and what it tells of that.

/// Names, paths and subdirectories.
pub const NAMES: &str = "\
    == name a\n\
    => a\n\
    == name _\n\
    => _\n\
    == name 0\n\
    => 0\n\
    == name Z.y-x_9\n\
    => Z.y-x_9\n\
    == name \n\
    => fault Empty\n\
    == name -a\n\
    => fault BadByte(0)\n\
    == name .\n\
    => fault BadByte(0)\n\
    == name a b\n\
    => fault BadByte(1)\n\
    == name ab\u{e9}\n\
    => fault BadByte(2)\n\
    == name a/b\n\
    => fault BadByte(1)\n\
    == path /a\n\
    => /a\n\
    == path /svc/fuchsia.logger.LogSink\n\
    => /svc/fuchsia.logger.LogSink\n\
    == path /.../..a/~\n\
    => /.../..a/~\n\
    == path /data\n\
    => /data\n\
    == path \n\
    => fault Empty\n\
    == path a//b\n\
    => fault NotAbsolute\n\
    == path /\n\
    => fault EmptyPart(1)\n\
    == path /a/\n\
    => fault EmptyPart(3)\n\
    == path /a//b c\n\
    => fault EmptyPart(3)\n\
    == path /a b//c\n\
    => fault BadByte(2)\n\
    == path /a/\u{7f}\n\
    => fault BadByte(3)\n\
    == path /./a\n\
    => fault DotPart(1)\n\
    == path /ab/..\n\
    => fault DotPart(4)\n\
    == path /../a b\n\
    => fault DotPart(1)\n\
    == subdir a\n\
    => a\n\
    == subdir a/b/c\n\
    => a/b/c\n\
    == subdir ...\n\
    => ...\n\
    == subdir logs\n\
    => logs\n\
    == subdir \n\
    => fault Empty\n\
    == subdir /a\n\
    => fault NotRelative\n\
    == subdir a/\n\
    => fault EmptyPart(2)\n\
    == subdir ..\n\
    => fault DotPart(0)\n\
    == subdir a/b\tc\n\
    => fault BadByte(3)\n";

/// Monikers. A fault has the longest prefix that some moniker begins with.
pub const MONIKERS: &str = "\
    == moniker .\n\
    => .\n\
    == moniker /\n\
    => .\n\
    == moniker a\n\
    => a\n\
    == moniker /core/coll:item\n\
    => core/coll:item\n\
    == moniker _0-9./x\n\
    => _0-9./x\n\
    == moniker \n\
    => fault BadMoniker(0)\n\
    == moniker ..\n\
    => fault BadMoniker(1)\n\
    == moniker //\n\
    => fault BadMoniker(1)\n\
    == moniker /.\n\
    => fault BadMoniker(1)\n\
    == moniker -a\n\
    => fault BadMoniker(0)\n\
    == moniker a/\n\
    => fault BadMoniker(2)\n\
    == moniker a//b\n\
    => fault BadMoniker(2)\n\
    == moniker a:b:c\n\
    => fault BadMoniker(3)\n\
    == moniker a:/b\n\
    => fault BadMoniker(2)\n\
    == moniker a/\u{e9}\n\
    => fault BadMoniker(2)\n\
    == below core/item core\n\
    => true\n\
    == below core/item .\n\
    => true\n\
    == below core core/item\n\
    => false\n\
    == is-root core\n\
    => false\n\
    == child-of core item\n\
    => core/item\n";

/// Words, and the rights that they stand for or the first fault.
pub const RIGHTS: &str = "\
    == rights r*\n\
    => connect,enumerate,get_attributes,read_bytes,traverse\n\
    == rights w*\n\
    => connect,enumerate,modify_directory,traverse,update_attributes,write_bytes\n\
    == rights x*\n\
    => connect,enumerate,execute,traverse\n\
    == rights rx* connect\n\
    => connect,enumerate,execute,get_attributes,read_bytes,traverse\n\
    == rights write_bytes traverse\n\
    => traverse,write_bytes\n\
    == rights rw*\n\
    => connect,enumerate,get_attributes,modify_directory,read_bytes,traverse,update_attributes,\
    write_bytes\n\
    == rights \n\
    => fault Empty\n\
    == rights r* read\n\
    => fault UnknownRight(1)\n\
    == rights r* w* r* R*\n\
    => fault RepeatedRight(2)\n\
    == rights  r* r*\n\
    => fault UnknownRight(0)\n";

/// Relaxed texts, and their JSON or their first fault.
pub const RELAXED: &str = "\
    == json {children:[{name:'a',url:'#meta/a.cm'},],/* one */}\n\
    => { \"children\" : [ { \"name\" : \"a\" , \"url\" : \"#meta/a.cm\" } ] }\n\
    == json ['a\"b', '\\'', '\\\"', \"'\\''\"]\n\
    => [ \"a\\\"b\" , \"'\" , \"\\\"\" , \"'\\''\" ]\n\
    == json [,][1,,]{,}[1,]\n\
    => [ , ] [ 1 , , ] { , } [ 1 ]\n\
    == json {a-b:1,$c:2,1d:3}//x\n\
    => { a-b : 1 , \"$c\" : 2 , 1d : 3 }\n\
    == json 1 // comment\r2\n\
    \t3 // at the end\n\
    => 1 3\n\
    == json ['\u{e9}\\\u{e9}\"', \"\u{e9}\"] /* \u{e9} */\n\
    => [ \"\u{e9}\\\u{e9}\\\"\" , \"\u{e9}\" ]\n\
    == json [a:1]\n\
    => [ \"a\" : 1 ]\n\
    == json ,]\n\
    => , ]\n\
    == json \n\
    => \n\
    == json {a:1}/ 'x\n\
    => fault BadToken(5)\n\
    == json [\u{e9}]\n\
    => fault BadToken(1)\n\
    == json \\ '\n\
    => fault BadToken(0)\n\
    == json [1, 'x\\'\n\
    => fault Unclosed(4)\n\
    == json \"\n\
    => fault Unclosed(0)\n\
    == json 1 /*/\n\
    => fault Unclosed(2)\n";

/// URLs, on the base of the second line; then a repository, and what is found in it.
pub const URLS: &str = "\
    == url fuchsia-pkg://t/a#meta/root.cm\n\
    => fuchsia-pkg://t/a#meta/root.cm\n\
    == url #meta/logger.cm\n\
    fuchsia-pkg://t/a#meta/root.cm\n\
    => fuchsia-pkg://t/a#meta/logger.cm\n\
    == url fuchsia-pkg://u/b#c\n\
    fuchsia-pkg://t/a#meta/root.cm\n\
    => fuchsia-pkg://u/b#c\n\
    == url fuchsia-boot:///#meta/root.cm\n\
    => fuchsia-boot:///#meta/root.cm\n\
    == url #x\n\
    fuchsia-boot:///#meta/root.cm\n\
    => fuchsia-boot:///#x\n\
    == url fuchsia-pkg://T/a b/../c?hash=1#d e\n\
    => fuchsia-pkg://T/c?hash=1#d%20e\n\
    == url #y\n\
    fuchsia-pkg:a#x\n\
    => fuchsia-pkg:a#y\n\
    == url #meta/logger.cm\n\
    => bad URL\n\
    == url #meta/logger.cm\n\
    meta/root.cm\n\
    => bad URL\n\
    == url meta/logger.cm\n\
    fuchsia-pkg://t/a#meta/root.cm\n\
    => bad URL\n\
    == url \n\
    fuchsia-pkg://t/a#meta/root.cm\n\
    => bad URL\n\
    == url fuchsia-pkg://t a/b#c\n\
    => bad URL\n\
    == url fuchsia-pkg://t:70000/a#c\n\
    => bad URL\n\
    == url foo:a b#c\n\
    => bad URL\n\
    == url foo:a%20b#c d\n\
    => foo:a%20b#c%20d\n\
    == url fuchsia-pkg://t/a\n\
    => no fragment\n\
    == url #\n\
    fuchsia-pkg://t/a#meta/root.cm\n\
    => no fragment\n\
    == blocks add {} fuchsia-pkg://t/a b#meta/root.cm\n\
    add [] fuchsia-pkg://t/a%20b#meta/root.cm\n\
    add [1] fuchsia-pkg://t/a%20b#meta/logger.cm\n\
    add [2] fuchsia-pkg://t/a\n\
    add [3] #meta/root.cm\n\
    find fuchsia-pkg://t/a%20b#meta/root.cm\n\
    find fuchsia-pkg://t/a%20b#meta/logger.cm\n\
    find fuchsia-pkg://t/a b#meta/root.cm\n\
    find fuchsia-pkg://t/a\n\
    => added;fault Repeated;added;fault NoFragment;fault BadUrl;{};[1];nothing;nothing;\n";

/// Commands, as they are written; then words of a line, or the place after which none goes on so.
pub const COMMANDS: &str = "\
    == command resolve .\n\
    => resolve .\n\
    == command start /\n\
    => start .\n\
    == command stop @0\n\
    => stop @0\n\
    == command shutdown /a/b:c\n\
    => shutdown a/b:c\n\
    == command destroy @18446744073709551615\n\
    => destroy @18446744073709551615\n\
    == command list a coll\n\
    => list a coll\n\
    == command open a /svc/x\n\
    => open a /svc/x\n\
    == command open-exposed a x\n\
    => open-exposed a x\n\
    == command route a/b /x/..a\n\
    => route a/b /x/..a\n\
    == command doctor .\n\
    => doctor .\n\
    == command show a\n\
    => show a\n\
    == command survey a\n\
    => survey a\n\
    == command exited @12\n\
    => exited @12\n\
    == command events / 0\n\
    => events . 0\n\
    == command events @7 18446744073709551615\n\
    => events @7 18446744073709551615\n\
    == command create . c n #m\n\
    => create . c n #m\n\
    == command create a c n #m + protocol p #x:y as=p + directory d self as=e rights=w*,r* \
    subdir=a/b weak optional + protocol q void weak\n\
    => create a c n #m + protocol p #x:y + directory d self as=e rights=connect,enumerate,\
    get_attributes,modify_directory,read_bytes,traverse,update_attributes,write_bytes subdir=a/b \
    weak optional + protocol q void weak\n\
    == command create . c n #m + protocol p parent transitional + protocol q self weak same_as_target\n\
    => create . c n #m + protocol p parent transitional + protocol q self weak same_as_target\n\
    == number-word 18446744073709551615\n\
    => 18446744073709551615\n\
    == number-word 18446744073709551616\n\
    => fault Bad(20)\n\
    == number-word 07\n\
    => fault Bad(2)\n\
    == number-word 1a\n\
    => fault Bad(2)\n\
    == moniker-word core/coll:b\n\
    => core/coll:b\n\
    == moniker-word .\n\
    => .\n\
    == moniker-word a//b\n\
    => fault Bad(3)\n";

/// The limits of lengths, just kept and just passed; of a long text the number of its bytes. Between the two
/// bars stands what is repeated.
pub const LARGE: &str = "\
    == many name 255 |a|\n\
    => 255 bytes\n\
    == many name 256 |a|\n\
    => fault TooLong\n\
    == many path 4095 /|a|\n\
    => 4096 bytes\n\
    == many path 4096 /|a|\n\
    => fault TooLong\n\
    == many moniker 255 |a|\n\
    => 255 bytes\n\
    == many moniker 256 |a|\n\
    => fault BadMoniker(255)\n\
    == many moniker 2047 |a/|aa\n\
    => 4096 bytes\n\
    == many moniker 2048 |a/|\n\
    => fault BadMoniker(4095)\n\
    == many moniker 2048 |a/|a\n\
    => fault TooLong\n\
    == many json 1048576 |[|\n\
    => 2097151 bytes\n\
    == many url 4078 fuchsia-pkg://t/|a|#x\n\
    => 4096 bytes\n\
    == many url 4079 fuchsia-pkg://t/|a|#x\n\
    => bad URL\n\
    == many url 1019 fuchsia-pkg://t/| b|#x\n\
    => 4094 bytes\n\
    == many url 1020 fuchsia-pkg://t/| b|#x\n\
    => bad URL\n\
    == many block 4078 fuchsia-pkg://t/|a|#x\n\
    => added\n\
    == many block 4079 fuchsia-pkg://t/|a|#x\n\
    => fault BadUrl\n\
    == many block 1019 fuchsia-pkg://t/| b|#x\n\
    => added\n\
    == many block 1020 fuchsia-pkg://t/| b|#x\n\
    => fault BadUrl\n\
    == many command 255 list . |a|\n\
    => 262 bytes\n\
    == many command 4095 open . /|a|\n\
    => 4103 bytes\n\
    == many command 4093 open . /|a|/a\n\
    => 4103 bytes\n\
    == many command 4096 create . c n |a|\n\
    => 4109 bytes\n";
