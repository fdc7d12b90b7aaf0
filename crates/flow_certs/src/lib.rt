//! Certificates of acceptance. A certificate lists, for each body of a program, facts at the nodes of the body's graph. It shows that no
//! path through the body breaks a rule where it has the facts with which paths begin, and what each step makes of each of its facts, and
//! where no such step breaks a rule. It is checked as it is read, without a search for the facts.
#![tactic(auto)]

mod births;
mod body;
mod certificate;
mod form;
mod laws;
mod line;
mod lists;
mod numbers;
mod pair;
mod places;
mod sets;
mod steps;

pub use certificate::check_cert;
pub use laws::{certificate_is_taken, certified_is_faultless, certified_passes_no_limit};
pub use pair::Pair;
