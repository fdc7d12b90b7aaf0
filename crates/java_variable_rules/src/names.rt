//! What the names in an expression mean: a variable of the body, a field or a class, in this order (JLS 6.4.2, 6.5.2).

ghost use Rattle.std.specs.Prelude.{◌≡◌, Some, slice_get, IfOk};
ghost use Rattle.std.specs.Option.{option_flatten};
ghost use Rattle.java_syntax.specs.ExpressionTrees.{expr_of};
ghost use Rattle.java_expression_parts.specs.WrittenTypes.{class_of_name};
ghost use Rattle.java_variable_rules.specs.Names.{class_meant, class_of_identifier, class_unless_variable, field_constant, field_meaning, identifier_by, member_meaning, name_meaning};
ghost use Rattle.java_expression_parts.specs.Surroundings.{surroundings_of};

use class_members::{FieldMember, field_named};
use java_expression_parts::{BodyScope, class_of_name};
use java_member_rules::name_by;
use java_syntax::Expr;
use java_typed_trees::{Answer, NameMeaning, local_named};
use program_model::{ClassId, FieldId};
use rlc_base::{NoMemory, Pos, Text};
use std::alloc::Global;

fn member_meaning(member: Option<FieldMember>) -> NameMeaning
    ensures { result ≡ member_meaning member }
{
    match member {
        None => NameMeaning::NoVariable,
        Some(FieldMember::Field(field)) => NameMeaning::Field(field),
        Some(FieldMember::Constant(method)) => NameMeaning::LibraryConstant(method),
    }
}

pub(crate) fn field_meaning(
    alloc: Global,
    scope: &BodyScope,
    name: &Text,
    class: ClassId,
) -> Result<NameMeaning, NoMemory>
    ensures { IfOk result (λ m. m ≡ field_meaning (surroundings_of scope.now) name.now class) }
{
    let from = scope.scope.class;
    let member = field_named(alloc, scope.scope.program, from, class, name.bytes())?;
    Ok(member_meaning(member))
}

fn name_meaning(alloc: Global, scope: &BodyScope, name: &Text) -> Result<NameMeaning, NoMemory>
    ensures { IfOk result (λ m. m ≡ name_meaning (surroundings_of scope.now) name.now) }
{
    match local_named(scope.scope.locals, name) {
        Some(found) => Ok(NameMeaning::Variable(found.variable)),
        None => field_meaning(alloc, scope, name, scope.scope.class),
    }
}

fn constant_at(constants: &[Option<i64>], field: FieldId) -> Option<i64>
    ensures { result ≡ option_flatten (slice_get constants.now field.0) }
{
    match constants.get(field.0 as usize) {
        None => None,
        Some(constant) => *constant,
    }
}

pub(crate) fn field_constant(scope: &BodyScope, meaning: NameMeaning) -> Option<i64>
    ensures { result ≡ field_constant (surroundings_of scope.now) meaning }
{
    match meaning {
        NameMeaning::Variable(_) => None,
        NameMeaning::Field(field) => constant_at(scope.constants, field),
        NameMeaning::LibraryConstant(_) => None,
        NameMeaning::NoVariable => None,
    }
}

/// An identifier as a value (JLS 6.5.6.1).
pub fn identifier_by(
    alloc: Global,
    scope: &BodyScope,
    name: &Text,
    pos: Pos,
) -> Result<Answer, NoMemory>
    ensures { IfOk result (λ r. r ≡ identifier_by (surroundings_of scope.now) name.now pos) }
{
    let meaning = name_meaning(alloc, scope, name)?;
    let constant = field_constant(scope, meaning);
    Ok(name_by(
        scope.scope.program,
        scope.scope.has_this,
        pos,
        constant,
        meaning,
    ))
}

fn class_unless_variable(scope: &BodyScope, name: &Text, meaning: NameMeaning) -> Option<ClassId>
    ensures { result ≡ class_unless_variable (surroundings_of scope.now) name.now meaning }
{
    match meaning {
        NameMeaning::Variable(_) => None,
        NameMeaning::Field(_) => None,
        NameMeaning::LibraryConstant(_) => None,
        NameMeaning::NoVariable => class_of_name(scope, name),
    }
}

fn class_of_identifier(
    alloc: Global,
    scope: &BodyScope,
    name: &Text,
) -> Result<Option<ClassId>, NoMemory>
    ensures { IfOk result (λ c. c ≡ class_of_identifier (surroundings_of scope.now) (Some name.now)) }
{
    let meaning = name_meaning(alloc, scope, name)?;
    Ok(class_unless_variable(scope, name, meaning))
}

/// The class that stands before a dot (JLS 6.5.2): only an identifier that is no variable means one.
pub fn class_meant(
    alloc: Global,
    scope: &BodyScope,
    target: &Expr,
) -> Result<Option<ClassId>, NoMemory>
    ensures { IfOk result (λ c. c ≡ class_meant (surroundings_of scope.now) (expr_of target.now)) }
{
    match target {
        Expr::Identifier { name, .. } => class_of_identifier(alloc, scope, name),
        _ => Ok(None),
    }
}
