//! The names of the files that a command reads.

ghost use Rattle.std.specs.Prelude.{◌≡◌, ◌++◌, ◌∷◌, [], map, string_bytes, option_map, IfOk, OnOk};
ghost use Rattle.input_files.specs.Names.{optional_name, reading_list};

use rlc_base::NoMemory;
use std::alloc::Global;

// Puts a name at the end.
fn put(alloc: Global, names: &mut Vec<String>, name: &str) -> Result<(), NoMemory>
    ensures { OnOk result (map string_bytes names.new.items ≡ map string_bytes names.old.items ++ name.now ∷ []) }
{
    let name = String::from_str(alloc, name)?;
    names.push(name)?;
    Ok(())
}

// Puts a name at the end, where there is one.
fn put_named(alloc: Global, names: &mut Vec<String>, name: Option<&str>) -> Result<(), NoMemory>
    ensures { OnOk result (map string_bytes names.new.items ≡ map string_bytes names.old.items ++ optional_name (option_map (λ text. text.now) name.entry)) }
{
    let Some(name) = name else {
        return Ok(());
    };
    put(alloc, names, name)
}

// Puts names at the end, in their order.
fn put_all(alloc: Global, names: &mut Vec<String>, files: &[&str]) -> Result<(), NoMemory>
    ensures { OnOk result (map string_bytes names.new.items ≡ map string_bytes names.old.items ++ map (λ text. text.now) files.now) }
{
    let [name, files @ ..] = files else {
        return Ok(());
    };
    put(alloc, names, name)?;
    put_all(alloc, names, files)
}

/// The names of the files that are read, in the order in which they are: the settings file and the choices file, where they
/// are named, and then the stub files and the Java sources in the order of the words.
pub fn reading_list(
    alloc: Global,
    settings: Option<&str>,
    choices: Option<&str>,
    files: &[&str],
) -> Result<Vec<String>, NoMemory>
    ensures { IfOk result (λ names. map string_bytes names.items ≡ reading_list (option_map (λ text. text.now) settings.entry) (option_map (λ text. text.now) choices.entry) (map (λ text. text.now) files.now)) }
{
    let mut names = Vec::new(alloc);
    put_named(alloc, &mut names, settings)?;
    put_named(alloc, &mut names, choices)?;
    put_all(alloc, &mut names, files)?;
    Ok(names)
}
