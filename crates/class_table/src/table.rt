//! The table of classes that no pass refuses.

ghost use Rattle.std.specs.Prelude.{◌≡◌, ◌<◌, ◌^◌, [], None, length, map, All, IfOk};
ghost use Rattle.class_order.specs.Cases.{IsLeast};
ghost use Rattle.class_order.specs.Core.{AreCore};
ghost use Rattle.class_order.specs.Declarations.{class_names, declaration_of};
ghost use Rattle.class_checks.specs.TypeCases.{all_type_cases};
ghost use Rattle.table_members.specs.Methods.{HasFewParameters};
ghost use Rattle.class_table.specs.Passes.{IsCycle, IsMade};
ghost use Rattle.class_table.specs.SuperTables.{AreSupers};

use crate::class_members::put_all_members;
use crate::members::{TableFields, TableMethods, make_fields, make_methods};
use class_headers::{SuperTable, header_table};
use class_names::ClassNames;
use class_order::Declared;
use java_syntax::Settings;
use program_model::{CoreClasses, Field, Method, Program};
use rlc_base::{Names, NoMemory};
use std::alloc::Global;

// Puts the fields and methods into a table, which has no bodies and no names.
fn put_tables(alloc: Global, program: &mut Program, fields: Vec<Field>, methods: Vec<Method>)
    ensures classes { program.new.classes ≡ program.old.classes }
    ensures core { program.new.core ≡ program.old.core }
    ensures ignored { program.new.ignored ≡ program.old.ignored }
    ensures exact { program.new.exact ≡ program.old.exact }
    ensures fields { program.new.fields.items ≡ fields.items }
    ensures methods { program.new.methods.items ≡ methods.items }
    ensures bodies { program.new.bodies.items ≡ [] }
    ensures names { program.new.names ≡ [] }
{
    program.fields = fields;
    program.methods = methods;
    program.bodies = Vec::new(alloc);
    program.names = Names::new(alloc);
}

/// The table of the classes, without bodies, where no class stands above itself and each name of a type means what it should.
///
/// # Errors
///
/// Memory may run out.
pub fn make_table(
    alloc: Global,
    order: &[Declared],
    names: &ClassNames,
    core: CoreClasses,
    supers: &SuperTable,
    settings: &Settings,
) -> Result<Program, NoMemory>
    requires names { names.now ≡ class_names (map declaration_of order.now) }
    requires core { AreCore names.now core }
    requires types { all_type_cases names.now (map declaration_of order.now) ≡ [] }
    requires supers { AreSupers (map declaration_of order.now) core supers.now }
    requires acyclic { IsLeast (IsCycle (map declaration_of order.now) core) None }
    ensures core { IfOk result (λ p. p.core ≡ core) }
    ensures made { IfOk result (λ p. IsMade (map declaration_of order.now) settings.now p) }
    ensures parameters { IfOk result (λ p. All HasFewParameters p.methods.items) }
{
    let TableFields {
        fields,
        rows: field_rows,
    } = make_fields(alloc, names, order)?;
    let TableMethods {
        methods,
        rows: method_rows,
    } = make_methods(alloc, names, order)?;
    let mut program = header_table(alloc, order, names, core, supers, settings)?;
    put_all_members(
        alloc,
        &mut program.classes,
        order,
        &field_rows,
        &method_rows,
    )?;
    put_tables(alloc, &mut program, fields, methods);
    Ok(program)
}
