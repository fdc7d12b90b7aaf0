//! Files of test cases: named cases, each of named sections, and the escapes in them; when an answer is the one that a case wants, and
//! the count of those that passed. `docs/CASES.md` says how such a file is written.
#![tactic(auto)]

mod answer;
mod cases;
mod comparison;
mod count;
mod cut;
mod escapes;
mod faults;
mod reports;

pub use answer::Answer;
pub use cases::{Case, Section, parse_cases, read_cases};
pub use comparison::{Comparison, agrees, same_text};
pub use count::Count;
pub use cut::Cut;
pub use escapes::decode;
pub use faults::FormFail;
