//! The calls, in their order, and what each is answered.

/// The URL of the root, and its manifest: two children, of which one offers the other a protocol, and a
/// collection.
pub const ROOT: &str = "fuchsia-pkg://t/a#meta/root.cm";

/// The manifest of the root: the two children, the collection, and the offer from one child to the
/// other.
pub const ROOT_MANIFEST: &str = "\
    {children:[{name:'logger',url:'#meta/logger.cm'},{name:'client',url:'#meta/client.cm'}],\
    collections:[{name:'coll',durability:'transient'}],\
    offer:[{protocol:'log',from:'#logger',to:'#client'}]}";

/// The URL of the child that has the protocol, and its manifest.
pub const LOGGER: &str = "fuchsia-pkg://t/a#meta/logger.cm";

/// The manifest of the child that provides the protocol.
pub const LOGGER_MANIFEST: &str = "\
    {program:{runner:'elf'},capabilities:[{protocol:'log'}],expose:[{protocol:'log',from:'self'}]}";

/// The URL of the child that uses it, and of the one that is created, and their manifest.
pub const CLIENT: &str = "fuchsia-pkg://t/a#meta/client.cm";

/// The manifest of the child that uses it.
pub const CLIENT_MANIFEST: &str = "{program:{runner:'elf'},use:[{protocol:'log'}]}";

/// Each line is a call, the incarnation of its instance, and after the arrow the answer and a number of it:
/// of the action, of the instance, of hops, or of how many are told; 1 for a program that was on.
pub const CALLS: &str = "\
    resolve 0 => resolved 1\n\
    resolve 0 => resolved 0\n\
    route 2 => routed 4\n\
    open_use 2 => refused 0\n\
    start 2 => started 4\n\
    open_use 2 => opened 4\n\
    open_exposed 1 => opened 2\n\
    show 1 => shown 1\n\
    create_child 0 => created 3\n\
    create_child 0 => refused 0\n\
    list_children 0 => children 1\n\
    survey 0 => surveyed 4\n\
    doctor 0 => doctored 2\n\
    exited 1 => left 1\n\
    exited 1 => left 0\n\
    events 1 => streamed 3\n\
    start 1 => started 6\n\
    stop 1 => stopped 7\n\
    destroy_child 3 => destroyed 0\n\
    destroy_child 3 => refused 0\n\
    events 3 => refused 0\n\
    events 0 => streamed 9\n\
    list_children 0 => children 0\n\
    shutdown 0 => shut 0\n\
    start 2 => refused 0\n";
