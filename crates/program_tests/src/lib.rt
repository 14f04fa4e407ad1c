//! Tests of the top call: what no clause says, which are the printed words, and that ample memory is enough.
//! They stand here, above `cm_program`, so that it is proved once. `program_player` plays them.
#![tactic(auto)]

#[cfg(test)]
mod tables;
