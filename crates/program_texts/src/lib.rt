//! How classes, fields, names and places are written in reports and ledgers, each put at the end of a text. After an error
//! a text may end in a part of what was put.
#![tactic(auto)]

mod texts;

pub use texts::{name_bytes, put_class, put_field, put_line, put_name, put_number, put_place};
