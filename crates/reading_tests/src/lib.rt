//! Tests of the crates that read: names, relaxed texts, repositories and commands. They stand here, above
//! those crates, so that each crate is proved once. What manifests, scripts, and lines that come in pieces
//! are read as, who depends on whom, and what doors give is shown by runs, above the top call, at no cost
//! of proof; what comes of sockets by the clients of a server.
//!
//! Most cases stand in the texts of `cases`: the word of a reader, what it reads, and what it tells.
//! `player` takes them apart when they run, so that one more costs no proof.
#![tactic(auto)]

#[cfg(test)]
mod tests;
