//! The values that a settings document has.

ghost use Rattle.std.specs.Prelude.{◌≡◌, [], ◌∷◌, ◌++◌, All, IfOk, OnOk};
ghost use Rattle.std.specs.Str.{IsUtf8};
ghost use Rattle.toml.specs.Data.{as_array, as_str};
ghost use Rattle.toml.specs.View.{array_view, view};
ghost use Rattle.settings_file.specs.Document.{are_texts, is_text_list, takes, texts, texts_in, with_text};

use rlc_base::{NoMemory, Text};
use std::alloc::Global;
use toml::Value;

// Whether an array holds texts and nothing else.
fn are_texts(values: &Vec<Value>) -> bool
    ensures { result ≡ are_texts (array_view values.now) }
{
    'each: for value in values.iter() {
        if !value.is_str() {
            return false;
        }
    }
    true
}

/// Whether a value is a list of texts.
pub fn is_text_list(value: &Value) -> bool
    ensures { result ≡ is_text_list (view value.now) }
{
    match value.as_array() {
        Some(values) => are_texts(values),
        None => false,
    }
}

/// Whether the key is one of the document's and the value is of its type.
pub fn takes(second: bool, key: &str, value: &Value) -> bool
    ensures { result ≡ takes second key.now (view value.now) }
{
    match key {
        "version" => value.is_integer(),
        "ignored" => is_text_list(value),
        "core" => value.is_bool(),
        "exact" => second && is_text_list(value),
        _ => false,
    }
}

// A text of these bytes.
fn text_of(alloc: Global, text: &str) -> Result<Text, NoMemory>
    ensures { IfOk result (λ copied. copied ≡ text.now) }
{
    let mut copied = Text::new(alloc);
    copied.push_bytes(text.as_bytes())?;
    Ok(copied)
}

/// Puts a name at the end.
pub fn push_name(alloc: Global, names: &mut Vec<Text>, name: &str) -> Result<(), NoMemory>
    ensures put { OnOk result (names.new.items ≡ names.old.items ++ name.now ∷ []) }
    ensures utf8 { OnOk result (All IsUtf8 names.old.items → All IsUtf8 names.new.items) }
{
    names.push(text_of(alloc, name)?)?;
    Ok(())
}

// Puts the text of a value at the end, where it is one.
fn push_text(alloc: Global, copied: &mut Vec<Text>, value: &Value) -> Result<(), NoMemory>
    ensures put { OnOk result (copied.new.items ≡ copied.old.items ++ with_text (as_str (view value.now)) []) }
    ensures utf8 { OnOk result (All IsUtf8 copied.old.items → All IsUtf8 copied.new.items) }
{
    let Some(text) = value.as_str() else {
        return Ok(());
    };
    push_name(alloc, copied, text)?;
    Ok(())
}

// The texts of an array, in their order.
fn texts_of(alloc: Global, values: &Vec<Value>) -> Result<Vec<Text>, NoMemory>
    ensures texts { IfOk result (λ v. v.items ≡ texts (array_view values.now)) }
    ensures utf8 { IfOk result (λ v. All IsUtf8 v.items) }
{
    let mut copied = Vec::new(alloc);
    'each: for value in values.iter() {
        push_text(alloc, &mut copied, value)?;
    }
    Ok(copied)
}

/// The texts of a list of texts.
pub fn texts_in(alloc: Global, value: &Value) -> Result<Vec<Text>, NoMemory>
    ensures texts { IfOk result (λ v. v.items ≡ texts_in (as_array (view value.now))) }
    ensures utf8 { IfOk result (λ v. All IsUtf8 v.items) }
{
    match value.as_array() {
        Some(values) => texts_of(alloc, values),
        None => Ok(Vec::new(alloc)),
    }
}
