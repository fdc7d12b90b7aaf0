//! Variables by their declarations.

ghost use Rattle.std.specs.Prelude.{◌≡◌, ◌++◌, IfOk, OnOk, Some, map};
ghost use Rattle.std.specs.List.{flat_map};
ghost use Rattle.java_syntax.specs.AnnotationTrees.{modifier_of};
ghost use Rattle.java_annotations.specs.Annotations.{annotation_in};
ghost use Rattle.java_syntax.specs.StatementTrees.{for_start_of, local_of, resource_of, variable_of};
ghost use Rattle.java_statement_rules.specs.Surroundings.{surroundings_of};
ghost use Rattle.body_variables.specs.BodyVariables.{catch_variable, local_variables, parameter_variables, resource_variables, start_variables};
ghost use Rattle.body_variables.specs.Declarations.{annotations_among, declared, variable_in, variable_with};

use java_annotations::raw_annotations;
use java_statement_rules::{BodyScope, cast_type, class_type, parameter_type};
use java_syntax::{ForStart, Local, Modifier, Name, Param, Resource, Variable};
use program_model::{ParamSig, RawAnno, VType, Var};
use rlc_base::NoMemory;
use std::alloc::Global;

fn annotations_among(alloc: Global, modifiers: &[Modifier]) -> Result<Vec<RawAnno>, NoMemory>
    ensures { IfOk result (λ v. map annotation_in v.items ≡ annotations_among (map modifier_of modifiers.now)) }
{
    raw_annotations(alloc, modifiers)
}

fn variable(
    alloc: Global,
    modifiers: &[Modifier],
    name: &Name,
    vtype: VType,
) -> Result<Var, NoMemory>
    ensures { IfOk result (λ x. variable_in x ≡ variable_with (map modifier_of modifiers.now) name.now vtype) }
{
    let text = name.text.clone()?;
    match annotations_among(alloc, modifiers) {
        Ok(annos) => Ok(Var {
            name: text,
            vtype,
            annos,
            pos: name.pos,
        }),
        Err(error) => Err(error),
    }
}

// Puts the variable at the end, where its type is not refused.
fn push_variable(
    alloc: Global,
    made: &mut Vec<Var>,
    modifiers: &[Modifier],
    name: &Name,
    vtype: Option<VType>,
) -> Result<(), NoMemory>
    ensures { OnOk result (map variable_in made.new.items ≡ map variable_in made.old.items ++ declared (map modifier_of modifiers.now) name.now vtype) }
{
    match vtype {
        None => Ok(()),
        Some(vtype) => {
            made.push(variable(alloc, modifiers, name, vtype)?)?;
            Ok(())
        }
    }
}

/// Puts the parameters at the end, with the types that the table has.
pub(crate) fn push_parameters(
    alloc: Global,
    made: &mut Vec<Var>,
    parameters: &[Param],
    signature: &[ParamSig],
) -> Result<(), NoMemory>
    ensures { OnOk result (map variable_in made.new.items ≡ map variable_in made.old.items ++ parameter_variables parameters.now signature.now) }
{
    for (written, typed) in parameters.iter().zip(signature) {
        let vtype = Some(typed.vtype);
        push_variable(alloc, made, &written.modifiers, &written.name, vtype)?;
    }
    Ok(())
}

// Puts variables of one type at the end.
fn push_variables(
    alloc: Global,
    made: &mut Vec<Var>,
    modifiers: &[Modifier],
    vtype: Option<VType>,
    variables: &[Variable],
) -> Result<(), NoMemory>
    ensures { OnOk result (map variable_in made.new.items ≡ map variable_in made.old.items ++ flat_map (λ v. declared (map modifier_of modifiers.now) v.name vtype) (map variable_of variables.now)) }
{
    for variable in variables {
        push_variable(alloc, made, modifiers, &variable.name, vtype)?;
    }
    Ok(())
}

/// Puts the variables of a declaration at the end.
pub(crate) fn push_local(
    alloc: Global,
    scope: &BodyScope,
    made: &mut Vec<Var>,
    local: &Local,
) -> Result<(), NoMemory>
    ensures { OnOk result (map variable_in made.new.items ≡ map variable_in made.old.items ++ local_variables (surroundings_of scope.now) (local_of local.now)) }
{
    let vtype = cast_type(scope, &local.typ);
    push_variables(alloc, made, &local.modifiers, vtype, &local.variables)
}

/// Puts the variables that a `for` declares at the end.
pub(crate) fn push_start(
    alloc: Global,
    scope: &BodyScope,
    made: &mut Vec<Var>,
    start: &ForStart,
) -> Result<(), NoMemory>
    ensures { OnOk result (map variable_in made.new.items ≡ map variable_in made.old.items ++ start_variables (surroundings_of scope.now) (for_start_of start.now)) }
{
    match start {
        ForStart::Declaration(local) => push_local(alloc, scope, made, local),
        ForStart::Expressions(_) => Ok(()),
    }
}

/// Puts the resources of a `try` at the end.
pub(crate) fn push_resources(
    alloc: Global,
    scope: &BodyScope,
    made: &mut Vec<Var>,
    resources: &[Resource],
) -> Result<(), NoMemory>
    ensures { OnOk result (map variable_in made.new.items ≡ map variable_in made.old.items ++ resource_variables (surroundings_of scope.now) (map resource_of resources.now)) }
{
    for resource in resources {
        let vtype = class_type(scope, &resource.class);
        push_variable(alloc, made, &resource.modifiers, &resource.name, vtype)?;
    }
    Ok(())
}

/// Puts the parameter of a catch clause at the end.
pub(crate) fn push_catch(
    alloc: Global,
    scope: &BodyScope,
    made: &mut Vec<Var>,
    modifiers: &[Modifier],
    classes: &[Name],
    name: &Name,
) -> Result<(), NoMemory>
    ensures { OnOk result (map variable_in made.new.items ≡ map variable_in made.old.items ++ catch_variable (surroundings_of scope.now) (map modifier_of modifiers.now) classes.now name.now) }
{
    push_variable(alloc, made, modifiers, name, parameter_type(scope, classes))
}
