//! What it is to accept a program, definitions alone:
//!
//! - What holds of every program of files beside what a table says of itself, in words that the laws on its runs rest on: which methods
//!   its classes declare, and which classes its library has.
//! - Which exceptions its bodies can throw, and that the checked ones are caught or declared (JLS 11.2).
//! - What it is to accept a program: it is well formed, and no path in a body of it breaks a rule.
#![tactic(auto)]
