//! Tests of the manager's calls, each by its own name. A run makes them all by `perform`, so what each answers
//! to a command is shown there; here each is called, once or more, over one small realm.
#![tactic(auto)]

#[cfg(test)]
mod calls;
#[cfg(test)]
mod cases;
#[cfg(test)]
mod player;
