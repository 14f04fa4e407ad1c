//! Where bytes come from and go to: sources and sinks that count their faults, links that are both,
//! and doors that give links.
//!
//! The component manager reads its input through a [`Source`] and writes its output through a
//! [`Sink`]. Both say what they hold where they can (an object in memory can, a terminal can't),
//! and both count how often they failed. So a caller can be told that a fault was reported only
//! where the outside really failed.
//!
//! A [`Link`] is a source and a sink whose sides are apart, and a [`Door`] gives one link after
//! another. There are forms of all four in memory, which fail where it is planned, and adapters over
//! the standard streams and over Unix sockets.
//!
//! [`put_all`] writes a whole text, [`read_up_to`] reads a whole source up to a limit, and
//! [`LineReader`] takes one line after another. None of them depends on how the outside cuts the
//! bytes into pieces.
#![tactic(auto)]

pub mod door;
pub mod input;
pub mod lines;
pub mod link;
pub mod memory;
pub mod memory_door;
pub mod memory_link;
pub mod output;
pub mod sink;
pub mod sockets;
pub mod source;
pub mod standard;
pub mod steps;

pub use door::{Accept, Door, DoorCounts, Listen};
pub use input::{SourceFault, read_up_to};
pub use lines::{LineReader, Next};
pub use link::Link;
pub use memory::{FaultPlan, MemorySink, MemorySource};
pub use memory_door::MemoryDoor;
pub use memory_link::{LinkPlan, MemoryLink};
pub use output::{Put, put_all};
pub use sink::{Sink, Took};
pub use sockets::{SocketDoor, SocketLink};
pub use source::{Got, Source};
pub use standard::{Reading, Writing};
pub use steps::{LoggedMove, StepLog};
