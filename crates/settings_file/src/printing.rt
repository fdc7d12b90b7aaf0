//! Printing settings as a document of the newest version.

ghost use Rattle.std.specs.Prelude.{◌≡◌, ◌++◌, ℕ, List, All, IfOk, OnErr, OnOk};
ghost use Rattle.std.specs.Str.{IsUtf8};
ghost use Rattle.toml.specs.Data.{array, string};
ghost use Rattle.toml.specs.View.{table_view, view};
ghost use Rattle.settings_file.specs.Members.{members_of, put_member, text_items};
ghost use Rattle.settings_file.specs.Reading.{HasTexts, SaysSame};

use java_syntax::Settings;
use rlc_base::{NoMemory, Text};
use std::alloc::Global;
use toml::{Table, Value};

// The text of a name, which is UTF-8.
fn text_value(alloc: Global, name: &Text) -> Result<Value, NoMemory>
    requires { IsUtf8 name.now }
    ensures { IfOk result (λ v. view v ≡ string name.now) }
{
    match std::str::from_utf8(name.bytes()) {
        Ok(text) => Ok(Value::string(alloc, text)?),
        Err(_) => unreachable!(),
    }
}

// A list of names, each of which is UTF-8.
fn name_list(alloc: Global, names: &[Text]) -> Result<Value, NoMemory>
    requires { All IsUtf8 names.now }
    ensures { IfOk result (λ v. view v ≡ array (text_items names.now)) }
{
    let mut values = Vec::new(alloc);
    'each: for name in names {
        values.push(text_value(alloc, name)?)?;
    }
    Ok(Value::Array(values))
}

// Puts a value at a key.
fn put(alloc: Global, table: &mut Table, key: &str, value: Value) -> Result<(), NoMemory>
    ensures { OnOk result (table_view table.new ≡ put_member key.now (view value) (table_view table.old)) }
{
    let key = String::from_str(alloc, key)?;
    match table.insert(key, value) {
        Ok(_old) => Ok(()),
        Err(_returned) => Err(NoMemory),
    }
}

// The settings as a table.
fn table_of(alloc: Global, settings: &Settings) -> Result<Table, NoMemory>
    requires { HasTexts settings.now }
    ensures { IfOk result (λ t. table_view t ≡ members_of settings.now) }
{
    let mut table = Table::new(alloc);
    put(alloc, &mut table, "version", Value::from(2))?;
    put(
        alloc,
        &mut table,
        "ignored",
        name_list(alloc, &settings.ignored)?,
    )?;
    put(
        alloc,
        &mut table,
        "exact",
        name_list(alloc, &settings.exact)?,
    )?;
    put(alloc, &mut table, "core", Value::from(settings.core))?;
    Ok(table)
}

/// Appends a settings document of version 2 that says the same: the same ignored and exact names and the same `core`, so
/// that `read_settings` reads them back. Where memory runs out the text stays as it was. It asks that each name is UTF-8,
/// as those that were read are.
pub fn print_settings(alloc: Global, settings: &Settings, into: &mut Text) -> Result<(), NoMemory>
    requires { HasTexts settings.now }
    ensures printed { OnOk result ((text : List ℕ) × (into.new ≡ into.old ++ text) × SaysSame settings.now text) }
    ensures kept { OnErr result (into.new ≡ into.old) }
{
    let table = table_of(alloc, settings)?;
    let Ok(text) = toml::table_to_string(alloc, &table) else {
        return Err(NoMemory);
    };
    into.push_bytes(text.as_bytes())?;
    Ok(())
}
