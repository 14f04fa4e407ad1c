//! Tests of the top call in which threads have to meet: lanes at their gates, and clients at a socket. They
//! run over other gates and another door than the tables of `program_tests`, and stand apart from these,
//! since the prover's link has the whole program once for each kind of gates and door.
#![tactic(auto)]

#[cfg(test)]
mod meeting;
#[cfg(test)]
mod sockets;
