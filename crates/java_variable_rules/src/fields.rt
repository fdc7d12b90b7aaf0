//! Names of variables and fields as values (JLS 6.5.6), field accesses (JLS 15.11) and the lengths of arrays (JLS 10.7).

ghost use Rattle.std.specs.Prelude.{◌≡◌, ◌++◌, IfOk, OnOk};
ghost use Rattle.program_model.specs.Typing.{is_array};
ghost use Rattle.java_variable_rules.specs.Fields.{access_of, class_access, class_access_typing, field_of_type, identifier_typing, is_length, object_access, object_access_typing};
ghost use Rattle.java_expression_parts.specs.Surroundings.{surroundings_of};
ghost use Rattle.java_expression_parts.specs.TypedParts.{own_refusals, typing_of};

use crate::names::{field_constant, field_meaning, identifier_by};
use java_expression_parts::{
    BodyScope, ExpressionTyping, one, operand, settle_in, with_implied_this,
};
use java_member_rules::{class_field_by, field_access_by};
use java_operator_rules::length_at;
use java_typed_trees::{Answer, Facts, NameMeaning, type_of};
use program_model::{ClassId, VType};
use rlc_base::{NoMemory, Pos, Refusal, Text};
use std::alloc::Global;

fn field_of_type(
    alloc: Global,
    scope: &BodyScope,
    name: &Text,
    vtype: VType,
) -> Result<NameMeaning, NoMemory>
    ensures { IfOk result (λ m. m ≡ field_of_type (surroundings_of scope.now) name.now vtype) }
{
    match vtype {
        VType::Primitive(_) => Ok(NameMeaning::NoVariable),
        VType::Str => {
            let class = scope.scope.program.core.string;
            field_meaning(alloc, scope, name, class)
        }
        VType::Arr(_) => Ok(NameMeaning::NoVariable),
        VType::Obj(class) => field_meaning(alloc, scope, name, class),
        VType::NullType => Ok(NameMeaning::NoVariable),
    }
}

fn is_array(vtype: VType) -> bool
    ensures { result ≡ is_array vtype }
{
    matches!(vtype, VType::Arr(_))
}

fn is_length(name: &Text, vtype: VType) -> bool
    ensures { result ≡ is_length name.now vtype }
{
    is_array(vtype) && name.bytes() == b"length".as_slice()
}

fn access_of(
    alloc: Global,
    scope: &BodyScope,
    pos: Pos,
    name: &Text,
    e: Facts,
    vtype: VType,
) -> Result<Answer, NoMemory>
    ensures { IfOk result (λ r. r ≡ access_of (surroundings_of scope.now) pos name.now e vtype) }
{
    if is_length(name, vtype) {
        Ok(length_at(pos))
    } else {
        let member = field_of_type(alloc, scope, name, vtype)?;
        Ok(field_access_by(scope.scope.program, pos, member, e))
    }
}

fn object_access(
    alloc: Global,
    scope: &BodyScope,
    pos: Pos,
    name: &Text,
    e: Facts,
) -> Result<Answer, NoMemory>
    ensures { IfOk result (λ r. r ≡ object_access (surroundings_of scope.now) pos name.now e) }
{
    match type_of(e) {
        None => Ok(Answer::Silent(pos)),
        Some(vtype) => access_of(alloc, scope, pos, name, e, vtype),
    }
}

fn class_access(
    alloc: Global,
    scope: &BodyScope,
    pos: Pos,
    name: &Text,
    class: ClassId,
) -> Result<Answer, NoMemory>
    ensures { IfOk result (λ r. r ≡ class_access (surroundings_of scope.now) pos name.now class) }
{
    let member = field_meaning(alloc, scope, name, class)?;
    let constant = field_constant(scope, member);
    Ok(class_field_by(scope.scope.program, pos, constant, member))
}

/// An identifier as a value (JLS 6.5.6.1).
pub fn identifier(
    alloc: Global,
    scope: &BodyScope,
    refusals: &mut Vec<Refusal>,
    pos: Pos,
    name: &Text,
) -> Result<ExpressionTyping, NoMemory>
    ensures typing { IfOk result (λ r. typing_of r ≡ identifier_typing (surroundings_of scope.now) pos name.now) }
    ensures cases { OnOk result (refusals.new.items ≡ refusals.old.items ++ own_refusals (surroundings_of scope.now) (identifier_typing (surroundings_of scope.now) pos name.now)) }
{
    let answer = identifier_by(alloc, scope, name, pos)?;
    let parts = with_implied_this(alloc, scope, pos, answer, Vec::new(alloc))?;
    settle_in(scope, refusals, answer, parts)
}

/// `e.f` (JLS 15.11), over the typing of e.
pub fn object_field(
    alloc: Global,
    scope: &BodyScope,
    refusals: &mut Vec<Refusal>,
    pos: Pos,
    name: &Text,
    target: ExpressionTyping,
) -> Result<ExpressionTyping, NoMemory>
    ensures typing { IfOk result (λ r. typing_of r ≡ object_access_typing (surroundings_of scope.now) pos name.now (typing_of target)) }
    ensures cases { OnOk result (refusals.new.items ≡ refusals.old.items ++ own_refusals (surroundings_of scope.now) (object_access_typing (surroundings_of scope.now) pos name.now (typing_of target))) }
{
    let answer = object_access(alloc, scope, pos, name, operand(target.answer))?;
    let parts = one(alloc, target.tree)?;
    settle_in(scope, refusals, answer, parts)
}

/// `C.f` (JLS 6.5.6.2).
pub fn class_field(
    alloc: Global,
    scope: &BodyScope,
    refusals: &mut Vec<Refusal>,
    pos: Pos,
    name: &Text,
    class: ClassId,
) -> Result<ExpressionTyping, NoMemory>
    ensures typing { IfOk result (λ r. typing_of r ≡ class_access_typing (surroundings_of scope.now) pos name.now class) }
    ensures cases { OnOk result (refusals.new.items ≡ refusals.old.items ++ own_refusals (surroundings_of scope.now) (class_access_typing (surroundings_of scope.now) pos name.now class)) }
{
    let answer = class_access(alloc, scope, pos, name, class)?;
    settle_in(scope, refusals, answer, Vec::new(alloc))
}
