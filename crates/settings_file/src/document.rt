//! A settings document as a table of keys.

ghost use Rattle.std.specs.Prelude.{◌≡◌, option_and_then, option_map};
ghost use Rattle.toml.specs.Data.{as_integer, as_bool, get_member};
ghost use Rattle.toml.specs.View.{table_view, view};
ghost use Rattle.settings_file.specs.Document.{is_second, is_well_keyed, known_version, takes_all, version_in};

use crate::values::takes;
use toml::{Table, Value};

/// The value at a key.
pub fn value_at<'a>(table: &'a Table, key: &str) -> Option<&'a Value>
    ensures { option_map (λ v. view v.now) result ≡ get_member key.now (table_view table.now) }
{
    table.get(key)
}

// The integer at a key.
fn integer_at(table: &Table, key: &str) -> Option<i64>
    ensures { result ≡ option_and_then as_integer (get_member key.now (table_view table.now)) }
{
    match value_at(table, key) {
        Some(value) => value.as_integer(),
        None => None,
    }
}

/// The document's version, where it is a known one.
pub fn version_of(table: &Table) -> Option<u32>
    ensures { result ≡ known_version (version_in (table_view table.now)) }
{
    match integer_at(table, "version") {
        Some(1) => Some(1),
        Some(2) => Some(2),
        _ => None,
    }
}

// Whether the document is of version 2.
fn is_second(table: &Table) -> bool
    ensures { result ≡ is_second (table_view table.now) }
{
    integer_at(table, "version") == Some(2)
}

// Whether each key is known, and has a value of its type.
fn takes_all(table: &Table, second: bool) -> bool
    ensures { result ≡ takes_all second (table_view table.now) }
{
    'members: for (key, value) in table.iter() {
        if !takes(second, key.as_str(), value) {
            return false;
        }
    }
    true
}

/// Whether each key is one of its version, and has a value of its type.
pub fn is_well_keyed(table: &Table) -> bool
    ensures { result ≡ is_well_keyed (table_view table.now) }
{
    takes_all(table, is_second(table))
}

/// The truth value at a key.
pub fn flag_at(table: &Table, key: &str) -> Option<bool>
    ensures { result ≡ option_and_then as_bool (get_member key.now (table_view table.now)) }
{
    match value_at(table, key) {
        Some(value) => value.as_bool(),
        None => None,
    }
}
