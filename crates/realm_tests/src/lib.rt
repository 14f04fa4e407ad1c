//! Tests of the crates that keep the realm tree and speak of it: its history, rows, walks and single
//! steps. They stand here, above those crates, so that each crate is proved once. What whole commands
//! come to, what gates answer, and how answers and journals are written is shown by runs, above the top
//! call, at no cost of proof.
//!
//! Most cases stand in the texts of `cases`: the steps of a realm and the lines that they tell.
//! `player` takes them apart when they run, so that one more costs no proof.
#![tactic(auto)]

#[cfg(test)]
mod book;
#[cfg(test)]
mod cases;
#[cfg(test)]
mod creating;
#[cfg(test)]
mod declarations;
#[cfg(test)]
mod endings;
#[cfg(test)]
mod graphs;
#[cfg(test)]
mod locating;
#[cfg(test)]
mod meanwhile;
#[cfg(test)]
mod picks;
#[cfg(test)]
mod player;
#[cfg(test)]
mod realms;
#[cfg(test)]
mod steps;
#[cfg(test)]
mod streams;
#[cfg(test)]
mod table;
#[cfg(test)]
mod walks;
#[cfg(test)]
mod words;
