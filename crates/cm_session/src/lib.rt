//! Sessions: commands over a connection, one line after another.
//!
//! A session reads the lines that its link gives, performs each that is a command with its caller's
//! pass and gates, and writes the reply before it reads on. It ends with the link, with a line
//! `quit`, after so many lines as one session may have, or where the link fails or memory runs out.
//!
//! Up to sixteen workers, side by side, accept links at one door by turns, and serve each by a session.
//!
//! | file of `specs/` | says |
//! |---|---|
//! | `Links` | what contracts see of a link, and prefixes of what was given and written |
//! | `LineOutcome` | what is made of a line, and how the reply is written |
//! | `Session` | which lines are served, what is written, and why a session ends |
//! | `Steps` | what a session has in hand, from line to line |
//! | `Doorway` | the accepts at a door that workers share by turns, and what they count |
//! | `Serving` | what comes back of serving all links of a door |
//! | `Pool`, `PoolParts`, `Closing` | what the workers have in hand, from step to step |
#![tactic(auto)]

pub mod doorway;
pub mod ended;
pub mod lines;
mod pool;
pub mod served;
pub mod serving;
mod workers;

pub use ended::Ended;
pub use lines::session;
pub use served::{Back, Cause, Served};
pub use serving::serve_sessions;
