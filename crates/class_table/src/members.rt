//! The members of the table, and of each class the numbers of its own.

ghost use Rattle.std.specs.Prelude.{◌≡◌, ◌≤◌, ◌<◌, ◌^◌, [], length, map, All, IfOk};
ghost use Rattle.std.specs.List.{AllZip};
ghost use Rattle.rlc_base.specs.Names.{texts};
ghost use Rattle.class_order.specs.Declarations.{class_names, declaration_of};
ghost use Rattle.class_checks.specs.TypeCases.{all_type_cases};
ghost use Rattle.table_members.specs.Fields.{IsField};
ghost use Rattle.table_members.specs.Methods.{HasFewParameters, IsMethod};
ghost use Rattle.class_table.specs.Numbers.{AreNumbers};
ghost use Rattle.class_table.specs.Table.{all_fields, all_methods, field_owners, method_owners};

use crate::numbers::{field_owners, member_numbers, method_owners};
use class_declarations::{all_fields, all_methods};
use class_names::ClassNames;
use class_order::Declared;
use program_model::{Field, Method};
use rlc_base::NoMemory;
use std::alloc::Global;
use table_members::{table_fields, table_methods};

// How many fields a table has at most, and how many methods, so that their numbers fit 32 bits.
const MAX_MEMBERS: usize = 0xFFFF_FFFF;

/// The fields of the table, and of each class the numbers of its own.
#[derive(Drop)]
pub struct TableFields {
    /// The fields.
    pub fields: Vec<Field>,
    /// The numbers, a row for each class.
    pub rows: Vec<Vec<u32>>,
}

/// The methods, constructors and constants of the table, and of each class the numbers of its own.
#[derive(Drop)]
pub struct TableMethods {
    /// The methods, constructors and constants.
    pub methods: Vec<Method>,
    /// The numbers, a row for each class.
    pub rows: Vec<Vec<u32>>,
}

/// The fields of the classes, where each name in their types means a class.
///
/// # Errors
///
/// Memory may run out. More fields than their numbers reach count as that.
pub fn make_fields(
    alloc: Global,
    names: &ClassNames,
    order: &[Declared],
) -> Result<TableFields, NoMemory>
    requires few { length order.now ≤ 2 ^ 32 }
    requires known { all_type_cases names.now (map declaration_of order.now) ≡ [] }
    ensures fields { IfOk result (λ t. AllZip (IsField names.now) (all_fields (map declaration_of order.now)) t.fields.items) }
    ensures numbered { IfOk result (λ t. length t.fields.items < 2 ^ 32) }
    ensures rows { IfOk result (λ t. AreNumbers (length order.now) (field_owners (all_fields (map declaration_of order.now))) (texts t.rows.items)) }
    ensures length { IfOk result (λ t. length t.rows.items ≡ length order.now) }
{
    let written = all_fields(alloc, order)?;
    if written.len() > MAX_MEMBERS {
        return Err(NoMemory);
    }
    let owners = field_owners(alloc, &written)?;
    let rows = member_numbers(alloc, order.len(), &owners)?;
    let fields = table_fields(alloc, names, &written)?;
    Ok(TableFields { fields, rows })
}

/// The methods, constructors and constants of the classes, where each name in their heads means a class.
///
/// # Errors
///
/// Memory may run out. More of them than their numbers reach count as that, and 2^32 - 1 parameters of one of them and more.
pub fn make_methods(
    alloc: Global,
    names: &ClassNames,
    order: &[Declared],
) -> Result<TableMethods, NoMemory>
    requires few { length order.now ≤ 2 ^ 32 }
    requires names { names.now ≡ class_names (map declaration_of order.now) }
    requires known { all_type_cases names.now (map declaration_of order.now) ≡ [] }
    ensures methods { IfOk result (λ t. AllZip (IsMethod names.now) (all_methods (map declaration_of order.now)) t.methods.items) }
    ensures numbered { IfOk result (λ t. length t.methods.items < 2 ^ 32) }
    ensures parameters { IfOk result (λ t. All HasFewParameters t.methods.items) }
    ensures rows { IfOk result (λ t. AreNumbers (length order.now) (method_owners (all_methods (map declaration_of order.now))) (texts t.rows.items)) }
    ensures length { IfOk result (λ t. length t.rows.items ≡ length order.now) }
{
    let written = all_methods(alloc, names, order)?;
    if written.len() > MAX_MEMBERS {
        return Err(NoMemory);
    }
    let owners = method_owners(alloc, &written)?;
    let rows = member_numbers(alloc, order.len(), &owners)?;
    let methods = table_methods(alloc, names, &written)?;
    Ok(TableMethods { methods, rows })
}
