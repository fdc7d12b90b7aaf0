//! Certificates of accepted programs: the pairs of a node and a fact that paths reach in each body, written as a text that a checker takes
//! which does not search.
#![tactic(auto)]

mod bodies;
mod lines;
mod program;
mod sheet;

pub use flow_certs::check_cert;
pub use program::{Certified, write_cert};
pub use sheet::MAX_CERTIFICATE;
