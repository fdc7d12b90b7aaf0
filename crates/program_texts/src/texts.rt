// The words of a program, each put at the end of a text.

ghost use Rattle.std.specs.Prelude.{◌≡◌, ◌++◌, codes, decimal, OnOk};
ghost use Rattle.program_texts.specs.Texts.{class_text, field_text, file_name, line_text, name_text, place_text};

use program_model::{ClassId, FieldId, Program};
use rlc_base::{NameId, NoMemory, Pos, Text};
use std::alloc::Global;

/// Puts a number in decimal digits.
pub fn put_number(alloc: Global, number: u64, into: &mut Text) -> Result<(), NoMemory>
    ensures { OnOk result (into.new ≡ into.old ++ decimal number) }
{
    let digits = format!(in alloc; "{number}")?;
    into.push_bytes(digits.as_bytes())
}

// The name of the file with this number.
fn put_file_name(files: &[Text], file: u32, into: &mut Text) -> Result<(), NoMemory>
    ensures { OnOk result (into.new ≡ into.old ++ file_name files.now file) }
{
    match files.get(file as usize) {
        None => Ok(()),
        Some(name) => into.push_bytes(name.bytes()),
    }
}

/// Puts the line and the column of a place.
pub fn put_line(alloc: Global, pos: Pos, into: &mut Text) -> Result<(), NoMemory>
    ensures { OnOk result (into.new ≡ into.old ++ line_text pos) }
{
    put_number(alloc, u64::from(pos.line), into)?;
    into.push_bytes(b":")?;
    put_number(alloc, u64::from(pos.col), into)
}

/// Puts a place: the name of its file, its line and its column. `files` are the names of the files by their numbers.
pub fn put_place(alloc: Global, files: &[Text], pos: Pos, into: &mut Text) -> Result<(), NoMemory>
    ensures { OnOk result (into.new ≡ into.old ++ place_text files.now pos) }
{
    put_file_name(files, pos.file, into)?;
    into.push_bytes(b":")?;
    put_line(alloc, pos, into)
}

/// Puts the qualified name of a class; nothing for a number of no class.
pub fn put_class(p: &Program, class: ClassId, into: &mut Text) -> Result<(), NoMemory>
    ensures { OnOk result (into.new ≡ into.old ++ class_text p.now class) }
{
    match p.class(class) {
        None => Ok(()),
        Some(found) => into.push_bytes(found.name.bytes()),
    }
}

/// Puts the name of a field; nothing for a number of no field.
pub fn put_field(p: &Program, field: FieldId, into: &mut Text) -> Result<(), NoMemory>
    ensures { OnOk result (into.new ≡ into.old ++ field_text p.now field) }
{
    match p.field(field) {
        None => Ok(()),
        Some(found) => into.push_bytes(found.name.bytes()),
    }
}

/// The bytes of a name of the table of names; none for a number of no name.
pub fn name_bytes(p: &Program, name: NameId) -> &[u8]
    ensures { result.now ≡ name_text p.now name }
{
    if name.0 < p.names.len() {
        p.names.text(name)
    } else {
        &[]
    }
}

/// Puts a name of the table of names; nothing for a number of no name.
pub fn put_name(p: &Program, name: NameId, into: &mut Text) -> Result<(), NoMemory>
    ensures { OnOk result (into.new ≡ into.old ++ name_text p.now name) }
{
    into.push_bytes(name_bytes(p, name))
}
