//! What the laws of safety are about, definitions alone:
//!
//! - How a run agrees with the facts of the flow rules.
//! - What it is for a program to be safe: definitions alone, over the runs of the program.
//! - Which facts stand for what the places of a frame hold, and what owning fields hold.
//! - What every program of files has, and a program in hand need not have.
#![tactic(auto)]
