//! The rows of the index: the classes of each simple name.

ghost use Rattle.std.specs.Prelude.{◌≡◌, ◌++◌, ◌∷◌, [], ℕ, List, ◌≤◌, ◌^◌, length, if◌then◌else◌, OnOk, IfOk};
ghost use Rattle.std.specs.Str.{bytes_eq};
ghost use Rattle.rlc_base.specs.Names.{texts};
ghost use Rattle.class_names.specs.ClassNames.{row_of, rows_in, simply_named};

use crate::class_name::ClassName;
use indexmap::IndexSet;
use program_model::ClassId;
use rlc_base::NoMemory;
use std::alloc::Global;

// Puts a class into the row of its simple name, which is made where there is none yet.
fn put_in_row(
    names: &mut IndexSet<Vec<u8>>,
    rows: &mut Vec<Vec<ClassId>>,
    name: &[u8],
    class: ClassId,
) -> Result<(), NoMemory>
    requires { length rows.old.items ≡ length names.old.keys }
    ensures rows { OnOk result ((n : List ℕ) → row_of (texts names.new.keys) (rows_in rows.new.items) n ≡ row_of (texts names.old.keys) (rows_in rows.old.items) n ++ (if bytes_eq n name.now then class ∷ [] else [])) }
    ensures lengths { OnOk result (length rows.new.items ≡ length names.new.keys) }
{
    if let Some(place) = names.get_index_of(name) {
        let row = &mut rows[place];
        row.push(class)?;
        return Ok(());
    }
    let alloc = *names.allocator();
    let key = name.to_vec(alloc)?;
    let mut row = Vec::new(alloc);
    row.push(class)?;
    names.insert(key)?;
    rows.push(row)?;
    Ok(())
}

/// The simple names of the classes, each once, and beside each its classes in class order.
#[derive(Drop)]
pub(crate) struct Rows {
    pub names: IndexSet<Vec<u8>>,
    pub classes: Vec<Vec<ClassId>>,
}

/// The rows of these classes.
pub(crate) fn rows_of(alloc: Global, classes: &[ClassName]) -> Result<Rows, NoMemory>
    requires { length classes.now ≤ 2 ^ 32 }
    ensures beside { IfOk result (λ r. length r.classes.items ≡ length r.names.keys) }
    ensures rows { IfOk result (λ r. (n : List ℕ) → row_of (texts r.names.keys) (rows_in r.classes.items) n ≡ simply_named classes.now n) }
{
    let mut names = IndexSet::new(alloc);
    let mut rows = Vec::new(alloc);
    for (i, class) in classes.iter().enumerate() {
        put_in_row(
            &mut names,
            &mut rows,
            class.simple.bytes(),
            ClassId(i as u32),
        )?;
    }
    Ok(Rows {
        names,
        classes: rows,
    })
}
