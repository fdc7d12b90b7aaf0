//! The pass over super types and throws clauses.

ghost use Rattle.std.specs.Prelude.{◌≡◌, codes, length, map, Some, IfOk};
ghost use Rattle.class_names.specs.ClassNames.{class_of_name, rows_in};
ghost use Rattle.class_order.specs.Cases.{IsLeast};
ghost use Rattle.class_order.specs.Core.{AreCore};
ghost use Rattle.class_order.specs.Declarations.{class_names, declaration_of};
ghost use Rattle.class_headers.specs.SuperTypes.{AreKnown, all_direct, all_supers, supers_of};
ghost use Rattle.super_obligations.specs.SuperPass.{IsSuperCase};

use crate::obligations::obligation_refusal;
use class_headers::SuperTable;
use class_names::ClassNames;
use class_order::Declared;
use program_model::CoreClasses;
use refusal_order::lesser_of;
use rlc_base::{NoMemory, Refusal};
use std::alloc::Global;
use super_checks::{Hierarchy, core_refusal, kind_refusal, throws_refusal};

/// The least refusal of super types and throws clauses, code 34: at the class for a super type of a wrong kind, or a super class
/// of the library that has obligations; at a name in a throws clause that means a class that is not under `Throwable`; with no
/// place for a core library whose exceptions or class of strings are not as the language says.
pub fn super_refusal(
    alloc: Global,
    order: &[Declared],
    names: &ClassNames,
    core: CoreClasses,
    table: &SuperTable,
) -> Result<Option<Refusal>, NoMemory>
    requires names { names.now ≡ class_names (map declaration_of order.now) }
    requires core { AreCore names.now core }
    requires supers { map supers_of table.now.supers.items ≡ all_supers names.now core.object (map declaration_of order.now) }
    requires direct { rows_in table.now.direct.items ≡ all_direct core.object (map supers_of table.now.supers.items) }
    requires known { AreKnown (rows_in table.now.direct.items) }
    requires long { length order.now ≡ length table.now.direct.items }
    ensures { IfOk result (λ r. IsLeast (IsSuperCase (map declaration_of order.now) core) r) }
{
    let supers = table.supers.as_slice();
    let direct = table.direct.as_slice();
    let kinds = kind_refusal(order, supers);
    let hierarchy = Hierarchy {
        names,
        direct,
        throwable: core.throwable,
    };
    let throws = throws_refusal(alloc, &hierarchy, order)?;
    let obligations = obligation_refusal(alloc, order, supers, direct, core.object)?;
    let library = core_refusal(alloc, order, names, direct, core)?;
    let behind_throws = lesser_of(obligations, library);
    let behind_kinds = lesser_of(throws, behind_throws);
    Ok(lesser_of(kinds, behind_kinds))
}
