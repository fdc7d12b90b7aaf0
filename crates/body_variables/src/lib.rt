//! The variables of a body (JLS 4.12.3): its parameters, and those that its statements declare.
#![tactic(auto)]

mod declarations;
mod statement_variables;
mod variable_table;

pub use variable_table::variables_of_body;
