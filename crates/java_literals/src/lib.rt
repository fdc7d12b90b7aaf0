//! What a literal of a Java source means (JLS 3.10).
#![tactic(auto)]

mod characters;
mod numbers;
mod texts;
mod values;

pub use texts::text_value;
pub use values::{LiteralValue, literal_value};
