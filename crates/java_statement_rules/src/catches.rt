//! Catch clauses (JLS 14.20).

ghost use Rattle.std.specs.Prelude.{◌≡◌, ◌++◌, OnOk, map};
ghost use Rattle.std.specs.Option.{option_map};
ghost use Rattle.program_model.specs.declared.kinds.VType.TheVariants as types;
ghost use Rattle.program_model.specs.Lookups.{optional};
ghost use Rattle.java_syntax.specs.AnnotationTrees.{modifier_of};
ghost use Rattle.java_call_rules.specs.WrittenTypes.{class_of_name};
ghost use Rattle.java_call_rules.specs.Surroundings.{surroundings_of};
ghost use Rattle.java_statement_rules.specs.CatchClauses.{alternative_cases, alternatives_cases, alternatives_over, are_apart, caught_by, caught_class, caught_classes, classes_named, each_alternative_cases, exception_cases, has_alternative, has_several, if_exception, is_exception_class, is_final_parameter, is_over, is_under_one, joined_class, joined_classes, or_throwable, parameter_type};

use crate::statements::count_unless;
use crate::variables::has_final;
use java_call_rules::{BodyScope, class_of_name, count_unknown};
use java_conversions::least_upper_bound;
use java_syntax::{Modifier, Name};
use program_model::{ClassId, Program, VType, under};
use rlc_base::{NoMemory, Pos, Refusal};

fn is_exception_class(p: &Program, class: ClassId) -> bool
    ensures { result ≡ is_exception_class p.now class }
{
    under(p, class, p.core.throwable)
}

fn if_exception(p: &Program, class: Option<ClassId>) -> Option<ClassId>
    ensures { result ≡ if_exception p.now class }
{
    match class {
        None => None,
        Some(found) => {
            if is_exception_class(p, found) {
                Some(found)
            } else {
                None
            }
        }
    }
}

fn caught_class(scope: &BodyScope, name: &Name) -> Option<ClassId>
    ensures { result ≡ caught_class (surroundings_of scope.now) name.now }
{
    if_exception(scope.scope.program, class_of_name(scope, &name.text))
}

fn count_exception(
    p: &Program,
    pos: Pos,
    class: Option<ClassId>,
    refusals: &mut Vec<Refusal>,
) -> Result<(), NoMemory>
    ensures { OnOk result (refusals.new.items ≡ refusals.old.items ++ exception_cases p.now pos class) }
{
    match class {
        None => Ok(()),
        Some(found) => count_unless(is_exception_class(p, found), pos, refusals),
    }
}

fn count_alternative(
    scope: &BodyScope,
    pos: Pos,
    name: &Name,
    refusals: &mut Vec<Refusal>,
) -> Result<(), NoMemory>
    ensures { OnOk result (refusals.new.items ≡ refusals.old.items ++ alternative_cases (surroundings_of scope.now) pos name.now) }
{
    let class = class_of_name(scope, &name.text);
    count_unknown(class.is_some(), name.pos, refusals)?;
    count_exception(scope.scope.program, pos, class, refusals)
}

fn count_each_alternative(
    scope: &BodyScope,
    pos: Pos,
    names: &[Name],
    refusals: &mut Vec<Refusal>,
) -> Result<(), NoMemory>
    ensures { OnOk result (refusals.new.items ≡ refusals.old.items ++ each_alternative_cases (surroundings_of scope.now) pos names.now) }
{
    for name in names {
        count_alternative(scope, pos, name, refusals)?;
    }
    Ok(())
}

fn has_alternative(names: &[Name]) -> bool
    ensures { result ≡ has_alternative names.now }
{
    !names.is_empty()
}

fn is_over(p: &Program, class: ClassId, alternative: Option<ClassId>) -> bool
    ensures { result ≡ is_over p.now class alternative }
{
    match alternative {
        None => false,
        Some(found) => under(p, class, found),
    }
}

// How many of these alternatives the class is under.
fn count_over(scope: &BodyScope, names: &[Name], class: ClassId) -> usize
    ensures { result ≡ alternatives_over (surroundings_of scope.now) names.now class }
{
    names
        .iter()
        .filter(|name| is_over(scope.scope.program, class, caught_class(scope, name)))
        .count()
}

// Whether of these alternatives the class is under one alone.
fn is_under_one(scope: &BodyScope, names: &[Name], class: Option<ClassId>) -> bool
    ensures { result ≡ is_under_one (surroundings_of scope.now) names.now class }
{
    match class {
        None => true,
        Some(found) => count_over(scope, names, found) <= 1,
    }
}

fn are_apart(scope: &BodyScope, names: &[Name]) -> bool
    ensures { result ≡ are_apart (surroundings_of scope.now) names.now }
{
    names.iter().all(|name| is_under_one(scope, names, caught_class(scope, name)))
}

/// Counts the refusals of the alternatives of a clause: of a name that means no class, and, at the `try`, of a class that is
/// none of exceptions, of a clause that names no class, and of one that is under another.
pub fn count_alternatives(
    scope: &BodyScope,
    pos: Pos,
    names: &[Name],
    refusals: &mut Vec<Refusal>,
) -> Result<(), NoMemory>
    ensures { OnOk result (refusals.new.items ≡ refusals.old.items ++ alternatives_cases (surroundings_of scope.now) pos names.now) }
{
    let settled = has_alternative(names) && are_apart(scope, names);
    count_unless(settled, pos, refusals)?;
    count_each_alternative(scope, pos, names, refusals)
}

fn or_throwable(p: &Program, class: Option<ClassId>) -> ClassId
    ensures { result ≡ or_throwable p.now class }
{
    match class {
        None => p.core.throwable,
        Some(found) => found,
    }
}

/// Puts the classes that a clause with these alternatives catches at the end. One with an alternative that is refused counts as
/// one that catches all exceptions.
pub fn push_caught(
    scope: &BodyScope,
    names: &[Name],
    caught: &mut Vec<ClassId>,
) -> Result<(), NoMemory>
    ensures { OnOk result (caught.new.items ≡ caught.old.items ++ caught_by (surroundings_of scope.now) names.now) }
{
    for name in names {
        let class = caught_class(scope, name);
        caught.push(or_throwable(scope.scope.program, class))?;
    }
    Ok(())
}

/// Puts the classes of exceptions that a clause names at the end.
pub fn push_named(
    scope: &BodyScope,
    names: &[Name],
    classes: &mut Vec<ClassId>,
) -> Result<(), NoMemory>
    ensures { OnOk result (classes.new.items ≡ classes.old.items ++ classes_named (surroundings_of scope.now) names.now) }
{
    for name in names {
        if let Some(class) = caught_class(scope, name) {
            classes.push(class)?;
        }
    }
    Ok(())
}

fn joined_class(p: &Program, vtype: Option<VType>, class: Option<ClassId>) -> Option<VType>
    ensures { result ≡ joined_class p.now vtype class }
{
    match vtype {
        None => None,
        Some(t) => match class {
            None => None,
            Some(c) => least_upper_bound(p, t, VType::Obj(c)),
        },
    }
}

fn joined_classes(scope: &BodyScope, first: Option<VType>, names: &[Name]) -> Option<VType>
    ensures { result ≡ joined_classes (surroundings_of scope.now).context.program first (caught_classes (surroundings_of scope.now) names.now) }
{
    let mut joined = first;
    for name in names {
        joined = joined_class(scope.scope.program, joined, caught_class(scope, name));
    }
    joined
}

fn type_caught(class: Option<ClassId>) -> Option<VType>
    ensures { result ≡ option_map types.Obj class }
{
    match class {
        None => None,
        Some(found) => Some(VType::Obj(found)),
    }
}

/// The type of a clause's parameter: the least class that all alternatives are under. None where one is refused.
pub fn parameter_type(scope: &BodyScope, names: &[Name]) -> Option<VType>
    ensures { result ≡ parameter_type (surroundings_of scope.now) names.now }
{
    match names {
        [] => None,
        [first, more @ ..] => {
            joined_classes(scope, type_caught(caught_class(scope, first)), more)
        }
    }
}

fn has_several(names: &[Name]) -> bool
    ensures { result ≡ has_several names.now }
{
    names.len() > 1
}

/// Whether a clause's parameter is final: `final` stands there, or there are several alternatives (JLS 14.20).
pub fn is_final_parameter(modifiers: &[Modifier], names: &[Name]) -> bool
    ensures { result ≡ is_final_parameter (map modifier_of modifiers.now) names.now }
{
    has_final(modifiers) || has_several(names)
}
