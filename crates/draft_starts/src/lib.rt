//! Starts of calls of the program's methods, of which only the objects that move are looked at, however many arguments move.
#![tactic(auto)]

mod starts;

pub use starts::draft_start;
