//! Reading the settings of a check.

ghost use Rattle.std.specs.Prelude.{◌≡◌, true, Some, All, IfErr, IfOk};
ghost use Rattle.std.specs.Str.{IsUtf8};
ghost use Rattle.rlc_base.specs.Codes.{stop_of};
ghost use Rattle.toml.specs.View.{table_view};
ghost use Rattle.settings_file.specs.Document.{default_ignored, exact_in, ignored_in, is_well_keyed, known_version, version_in};
ghost use Rattle.settings_file.specs.Reading.{HasTexts, IsDefault, IsRead, IsSettingsOf, IsStopOf, unplaced};

use crate::document::{flag_at, is_well_keyed, value_at, version_of};
use crate::values::{push_name, texts_in};
use java_syntax::Settings;
use rlc_base::{Code, NoMemory, Pos, Refusal, Stop, Text};
use std::alloc::Global;
use toml::Table;

// The classes whose exceptions are ignored where the settings name none.
fn default_ignored(alloc: Global) -> Result<Vec<Text>, NoMemory>
    ensures names { IfOk result (λ v. v.items ≡ default_ignored) }
    ensures utf8 { IfOk result (λ v. All IsUtf8 v.items) }
{
    let mut names = Vec::new(alloc);
    push_name(alloc, &mut names, "java.lang.RuntimeException")?;
    push_name(alloc, &mut names, "java.lang.Error")?;
    Ok(names)
}

/// The settings where no file names any: version 1, unchecked exceptions ignored (JLS 11.1.1), the whole core library.
pub fn default_settings(alloc: Global) -> Result<Settings, NoMemory>
    ensures default { IfOk result IsDefault }
    ensures texts { IfOk result HasTexts }
{
    Ok(Settings {
        version: 1,
        ignored: default_ignored(alloc)?,
        exact: Vec::new(alloc),
        core: true,
    })
}

fn ignored_of(alloc: Global, table: &Table) -> Result<Vec<Text>, NoMemory>
    ensures names { IfOk result (λ v. v.items ≡ ignored_in (table_view table.now)) }
    ensures utf8 { IfOk result (λ v. All IsUtf8 v.items) }
{
    match value_at(table, "ignored") {
        Some(value) => texts_in(alloc, value),
        None => default_ignored(alloc),
    }
}

fn exact_of(alloc: Global, table: &Table) -> Result<Vec<Text>, NoMemory>
    ensures names { IfOk result (λ v. v.items ≡ exact_in (table_view table.now)) }
    ensures utf8 { IfOk result (λ v. All IsUtf8 v.items) }
{
    match value_at(table, "exact") {
        Some(value) => texts_in(alloc, value),
        None => Ok(Vec::new(alloc)),
    }
}

// The settings of a document whose keys are right.
fn settings_of(alloc: Global, table: &Table, version: u32) -> Result<Settings, NoMemory>
    requires keys { is_well_keyed (table_view table.now) ≡ true }
    requires version { known_version (version_in (table_view table.now)) ≡ Some version }
    ensures settings { IfOk result (IsSettingsOf (table_view table.now)) }
    ensures texts { IfOk result HasTexts }
{
    Ok(Settings {
        version,
        ignored: ignored_of(alloc, table)?,
        exact: exact_of(alloc, table)?,
        core: flag_at(table, "core").unwrap_or(true),
    })
}

// The stop of a settings file by a code. It has no place.
fn refused(file: u32, code: Code) -> Stop
    ensures { result ≡ stop_of (record { code = code; pos = unplaced file }) }
{
    let pos = Pos {
        file,
        line: 0,
        col: 0,
    };
    Refusal { code, pos }.stop()
}

/// The settings that a file says. `Refused` without a place: `BadToml` where it is no TOML document or no UTF-8; else
/// `BadKey` for a key that its version does not have, or a value of another type; else `BadVersion` where `version` is
/// absent, or neither 1 nor 2. `file` is the number of the file, which the refusal keeps.
pub fn read_settings(alloc: Global, file: u32, bytes: &[u8]) -> Result<Settings, Stop>
    ensures read { IfOk result (IsRead bytes.now) }
    ensures texts { IfOk result HasTexts }
    ensures cause { IfErr result (IsStopOf file bytes.now) }
{
    let table = match toml::table_from_slice(alloc, bytes) {
        Ok(table) => table,
        Err(error) if error.is_memory() => return Err(Stop::NoMemory),
        Err(_error) => return Err(refused(file, Code::BadToml)),
    };
    if !is_well_keyed(&table) {
        return Err(refused(file, Code::BadKey));
    }
    let Some(version) = version_of(&table) else {
        return Err(refused(file, Code::BadVersion));
    };
    Ok(settings_of(alloc, &table, version)?)
}
