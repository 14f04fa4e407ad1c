//! Tests of sessions. They stand here, above `cm_session`, so that it is proved once. What comes of several
//! links, and what is written to them, is shown by runs, above the top call, at no cost of proof.
#![tactic(auto)]

#[cfg(test)]
mod cases;
#[cfg(test)]
mod lock_step;
#[cfg(test)]
mod meeting;
#[cfg(test)]
mod player;
