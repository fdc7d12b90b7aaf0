//! The numbers of the members of each class.

ghost use Rattle.std.specs.Prelude.{◌≡◌, ◌≤◌, ◌<◌, ◌^◌, ◌++◌, ◌∷◌, [], ℕ, if◌then◌else◌, length, map, nat_eq, replicate, IfOk, OnOk};
ghost use Rattle.rlc_base.specs.Names.{texts};
ghost use Rattle.class_declarations.specs.Members.{written_field_of, written_method_of};
ghost use Rattle.class_table.specs.Numbers.{AreNumbers, row_at};
ghost use Rattle.class_table.specs.Table.{field_owners, method_owners};

use class_declarations::{DeclaredField, DeclaredMethod};
use program_model::ClassId;
use rlc_base::NoMemory;
use std::alloc::Global;

// So many rows, all empty.
fn empty_rows(alloc: Global, count: usize) -> Result<Vec<Vec<u32>>, NoMemory>
    ensures { IfOk result (λ v. texts v.items ≡ replicate count []) }
{
    let mut rows = Vec::new(alloc);
    for _row in 0..count {
        rows.push(Vec::new(alloc))?;
    }
    Ok(rows)
}

// Puts a number at the end of the row of a class.
fn put_number(rows: &mut Vec<Vec<u32>>, class: ClassId, number: u32) -> Result<(), NoMemory>
    ensures length { OnOk result (length rows.new.items ≡ length rows.old.items) }
    ensures row { OnOk result ((n : ℕ) → n < length rows.old.items → row_at (texts rows.new.items) n ≡ row_at (texts rows.old.items) n ++ (if nat_eq class.0 n then number ∷ [] else [])) }
{
    let place = class.0 as usize;
    if place < rows.len() {
        rows[place].push(number)?;
    }
    Ok(())
}

/// The numbers of the members of each of so many classes, by the classes of all members. It takes the time of the members and of
/// the classes.
pub fn member_numbers(
    alloc: Global,
    count: usize,
    owners: &[ClassId],
) -> Result<Vec<Vec<u32>>, NoMemory>
    requires { length owners.now ≤ 2 ^ 32 }
    ensures length { IfOk result (λ v. length v.items ≡ count) }
    ensures numbers { IfOk result (λ v. AreNumbers count owners.now (texts v.items)) }
{
    let mut rows = empty_rows(alloc, count)?;
    for (i, owner) in owners.iter().enumerate() {
        put_number(&mut rows, *owner, i as u32)?;
    }
    Ok(rows)
}

/// The classes of fields.
pub fn field_owners(alloc: Global, fields: &[DeclaredField]) -> Result<Vec<ClassId>, NoMemory>
    ensures { IfOk result (λ v. v.items ≡ field_owners (map written_field_of fields.now)) }
{
    let mut owners = Vec::new(alloc);
    for field in fields {
        owners.push(field.class)?;
    }
    Ok(owners)
}

/// The classes of methods, constructors and constants.
pub fn method_owners(alloc: Global, methods: &[DeclaredMethod]) -> Result<Vec<ClassId>, NoMemory>
    ensures { IfOk result (λ v. v.items ≡ method_owners (map written_method_of methods.now)) }
{
    let mut owners = Vec::new(alloc);
    for method in methods {
        owners.push(method.class)?;
    }
    Ok(owners)
}
