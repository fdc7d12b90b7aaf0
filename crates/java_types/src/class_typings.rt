//! The typing of all bodies of a program.

ghost use Rattle.std.specs.Prelude.{◌≡◌, ◌++◌, [], IfOk, OnOk, map};
ghost use Rattle.class_names.specs.ClassNames.{doubles};
ghost use Rattle.source_classes.specs.Members.{environment_in};
ghost use Rattle.source_classes.specs.SourceClasses.{all_names, source_class_of};
ghost use Rattle.java_bodies.specs.Bodies.{all_bodies};
ghost use Rattle.java_types.specs.ProgramCases.{field_cases, typed_program, program_cases, typing_cases};
ghost use Rattle.java_types.specs.TypedBodies.{typed_bodies, typed_body_of};

use crate::body_typings::{BodyTyping, body_typings};
use crate::member_cases::count_members;
use java_bodies::{all_bodies, count_static_initializers, field_constants};
use java_syntax::Unit;
use program_model::Program;
use rlc_base::{NoMemory, Refusal};
use source_classes::{DeclaredClass, ProgramScope, index_names, source_classes};
use std::alloc::Global;

// Counts the refusals of static fields that cannot take their initialisers.
fn count_fields(
    alloc: Global,
    scope: &ProgramScope,
    classes: &[DeclaredClass],
    refusals: &mut Vec<Refusal>,
) -> Result<(), NoMemory>
    ensures { OnOk result (refusals.new.items ≡ refusals.old.items ++ field_cases (environment_in scope.now) (map source_class_of classes.now)) }
{
    for class in classes {
        count_static_initializers(alloc, scope, class, refusals)?;
    }
    Ok(())
}

// The typings of all bodies of these classes.
fn class_typings(
    alloc: Global,
    scope: &ProgramScope,
    classes: &[DeclaredClass],
    refusals: &mut Vec<Refusal>,
) -> Result<Vec<BodyTyping>, NoMemory>
    ensures typed { IfOk result (λ v. map typed_body_of v.items ≡ typed_bodies (environment_in scope.now) (all_bodies (environment_in scope.now) (map source_class_of classes.now))) }
    ensures cases { OnOk result (refusals.new.items ≡ refusals.old.items ++ typing_cases (environment_in scope.now) (map source_class_of classes.now)) }
{
    count_fields(alloc, scope, classes, refusals)?;
    let bodies = all_bodies(alloc, scope, classes)?;
    body_typings(alloc, scope, &bodies, refusals)
}

/// The typings of all bodies of the source files, by the table without bodies. All refusals of the program's members and bodies
/// come behind those that are counted already.
///
/// # Errors
///
/// Memory may run out.
pub fn program_typing(
    alloc: Global,
    table: &Program,
    units: &[Unit],
    refusals: &mut Vec<Refusal>,
) -> Result<Vec<BodyTyping>, NoMemory>
    requires { doubles (all_names table.now units.now) ≡ [] }
    ensures typed { IfOk result (λ v. map typed_body_of v.items ≡ typed_program table.now units.now) }
    ensures cases { OnOk result (refusals.new.items ≡ refusals.old.items ++ program_cases table.now units.now) }
{
    let names = index_names(alloc, table, units)?;
    let classes = source_classes(alloc, table, units)?;
    let constants = field_constants(alloc, table, &names, &classes)?;
    let scope = ProgramScope {
        program: table,
        names: &names,
        constants: &constants,
    };
    count_members(alloc, table, refusals)?;
    class_typings(alloc, &scope, &classes, refusals)
}
