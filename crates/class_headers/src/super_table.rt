//! The super types of all classes, with what stands right above each.

ghost use Rattle.std.specs.Prelude.{◌≡◌, ◌≤◌, ◌^◌, Some, codes, length, map, IfOk};
ghost use Rattle.class_names.specs.ClassNames.{class_of_name, rows_in};
ghost use Rattle.class_order.specs.Declarations.{class_names, declaration_of};
ghost use Rattle.class_headers.specs.SuperTypes.{AreKnown, all_direct, all_supers, supers_of};

use crate::supers::{Supers, all_direct, all_supers};
use class_names::ClassNames;
use class_order::Declared;
use program_model::ClassId;
use rlc_base::NoMemory;
use std::alloc::Global;

/// The super types of all classes, in class order.
#[derive(Drop)]
pub struct SuperTable {
    /// Those that each class names, or that are implied.
    pub supers: Vec<Supers>,
    /// What stands right above each class: its super class, its interfaces, and `Object` above an interface.
    pub direct: Vec<Vec<ClassId>>,
}

/// The super types of all classes, where each name of a super type means a class. A name that means none, or two, is passed
/// over.
pub fn table_of_supers(
    alloc: Global,
    names: &ClassNames,
    object: ClassId,
    order: &[Declared],
) -> Result<SuperTable, NoMemory>
    requires names { names.now ≡ class_names (map declaration_of order.now) }
    requires object { class_of_name names.now (codes "java.lang.Object") ≡ Some object }
    ensures supers { IfOk result (λ t. map supers_of t.supers.items ≡ all_supers names.now object (map declaration_of order.now)) }
    ensures direct { IfOk result (λ t. rows_in t.direct.items ≡ all_direct object (map supers_of t.supers.items)) }
    ensures known { IfOk result (λ t. AreKnown (rows_in t.direct.items)) }
    ensures long { IfOk result (λ t. length order.now ≡ length t.direct.items) }
    ensures few { IfOk result (λ t. length t.direct.items ≤ 2 ^ 32) }
{
    let _count = names.len();
    let supers = all_supers(alloc, names, object, order)?;
    let direct = all_direct(alloc, object, &supers)?;
    Ok(SuperTable { supers, direct })
}
