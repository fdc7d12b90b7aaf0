//! By which classes exceptions end frames and leave calls, in programs whose checked exceptions are caught or declared (JLS 11.2), and so in
//! accepted programs.
#![tactic(auto)]

mod laws;

pub use laws::{
    accepted_program_exception_leaves_call, body_ends_by_covered_exception,
    covered_exception_leaves_call, overriding_method_covers, program_exception_leaves_call,
};
