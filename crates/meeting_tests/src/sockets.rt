//! Clients of a real socket.

use cm_io::SocketDoor;
use program_player::{ask, closed, serve};
use std::{fs, thread};

/// A door over Unix sockets serves a client that a second thread plays.
#[test]
fn sockets_are_served(rt: HostRuntime) {
    let _ = fs::remove_dir_all(&rt, "socket_folder");
    assert!(rt; fs::create_dir(&rt, "socket_folder").is_ok());
    let alloc = rt.alloc();
    let (served, told) = thread::join(
        &rt,
        move || serve(&rt, alloc, SocketDoor::new(rt)),
        move || ask(&rt, alloc),
    );
    assert!(rt; closed(served) == Some((0, 3)));
    assert!(rt; told == [true; 3], "{told:?}");
    assert!(rt;
        fs::remove_dir(&rt, "socket_folder").is_ok(),
        "the socket file is there"
    );
}
