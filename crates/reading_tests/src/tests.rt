//! The tests, their tables and what plays them.

mod cases;
mod doors;
mod player;
mod readers;
mod reading;
mod repositories;
mod rights;
mod values;
