//! The typing of an expression, with all refusals in it.

ghost use Rattle.std.specs.Prelude.{◌≡◌, ◌++◌, IfOk, None, OnOk, map};
ghost use Rattle.java_syntax.specs.ExpressionTrees.{expr_of, expressions};
ghost use Rattle.java_variable_rules.specs.Names.{class_meant};
ghost use Rattle.java_call_rules.specs.Surroundings.{surroundings_of};
ghost use Rattle.java_call_rules.specs.TypedParts.{own_refusals, typing_of};
ghost use Rattle.java_typed_expressions.specs.Cases.{argument_cases, cases, operand_cases, target_cases, value_cases};
ghost use Rattle.java_typed_expressions.specs.Targets.{target_typing, typing_of_target};
ghost use Rattle.java_typed_expressions.specs.Typings.{answer_under, operand_typing, typing, typings};

use crate::targets::{Target, field_access, method_call};
use java_call_rules::{
    BodyScope, ExpressionTyping, cast_type, class_of_name, count_unknown, element_type,
    needed_value, new_object, operand, settle_in, super_call, tested_type, unqualified_call,
};
use java_operator_expressions::{
    answer_under, binary, cast, conditional, element, instance_of, literal, new_array, operator_of,
    step_operator_of, this, unary, unary_operator_of,
};
use java_syntax::{Expr, PrefixOperator};
use java_typed_trees::type_of;
use java_variable_rules::{
    assignment, class_meant, compound_assignment, identifier, is_written_this, postfix_step,
    prefix_step,
};
use program_model::VType;
use rlc_base::{NoMemory, Refusal};
use std::alloc::Global;

/// The typing of an expression (JLS 15), with all refusals in it behind those that are counted already. `wanted` is the type
/// that an assignment context wants, if it stands in one (JLS 5.2).
#[cycle(expressions)]
pub fn expression(
    alloc: Global,
    scope: &BodyScope,
    refusals: &mut Vec<Refusal>,
    wanted: Option<VType>,
    e: &Expr,
) -> Result<ExpressionTyping, NoMemory>
    ensures typing { IfOk result (λ r. typing_of r ≡ typing (surroundings_of scope.now) wanted (expr_of e.now)) }
    ensures cases { OnOk result (refusals.new.items ≡ refusals.old.items ++ cases (surroundings_of scope.now) wanted (expr_of e.now)) }
{
    match e {
        Expr::Literal { text, pos } => literal(alloc, scope, refusals, *pos, text),
        Expr::Identifier { name, pos } => identifier(alloc, scope, refusals, *pos, name),
        Expr::This { pos } => this(alloc, scope, refusals, *pos),
        Expr::Call {
            name,
            arguments: es,
            pos,
        } => {
            let all = arguments(alloc, scope, refusals, es)?;
            unqualified_call(alloc, scope, refusals, *pos, name, all)
        }
        Expr::SuperCall {
            name,
            arguments: es,
            pos,
        } => {
            let all = arguments(alloc, scope, refusals, es)?;
            super_call(alloc, scope, refusals, *pos, name, all)
        }
        Expr::MethodCall {
            target,
            name,
            arguments: es,
            pos,
        } => {
            let t = typed_target(alloc, scope, refusals, target)?;
            let all = arguments(alloc, scope, refusals, es)?;
            let is_this = is_written_this(target);
            method_call(alloc, scope, refusals, *pos, name, is_this, t, all)
        }
        Expr::FieldAccess { target, name, pos } => {
            let t = typed_target(alloc, scope, refusals, target)?;
            field_access(alloc, scope, refusals, *pos, name, t)
        }
        Expr::Index { array, index, pos } => {
            let a = value(alloc, scope, refusals, None, array)?;
            let i = value(alloc, scope, refusals, None, index)?;
            element(alloc, scope, refusals, *pos, a, i)
        }
        Expr::NewObject {
            class,
            arguments: es,
            pos,
        } => {
            let is_known = class_of_name(scope, &class.text).is_some();
            count_unknown(is_known, class.pos, refusals)?;
            let all = arguments(alloc, scope, refusals, es)?;
            new_object(alloc, scope, refusals, *pos, class, all)
        }
        Expr::NewArray {
            element,
            length,
            pos,
        } => {
            let found = element_type(scope, element);
            count_unknown(found.is_some(), element.pos, refusals)?;
            let size = value(alloc, scope, refusals, None, length)?;
            new_array(alloc, scope, refusals, *pos, found, size)
        }
        Expr::Prefix {
            operator,
            operand,
            pos,
        } => {
            let a = unary_operand(alloc, scope, refusals, *operator, operand)?;
            unary(
                alloc,
                scope,
                refusals,
                unary_operator_of(*operator),
                *pos,
                a,
            )
        }
        Expr::PrefixStep {
            operator,
            operand,
            pos,
        } => {
            let x = value(alloc, scope, refusals, None, operand)?;
            let step = step_operator_of(*operator);
            prefix_step(alloc, scope, refusals, step, *pos, operand, x)
        }
        Expr::PostfixStep {
            operator,
            operand,
            pos,
        } => {
            let x = value(alloc, scope, refusals, None, operand)?;
            let step = step_operator_of(*operator);
            postfix_step(alloc, scope, refusals, step, *pos, operand, x)
        }
        Expr::Cast { typ, operand, pos } => {
            let to = cast_type(scope, typ);
            count_unknown(to.is_some(), typ.pos, refusals)?;
            let a = value(alloc, scope, refusals, None, operand)?;
            cast(alloc, scope, refusals, *pos, to, a)
        }
        Expr::Infix {
            operator,
            left,
            right,
            pos,
        } => {
            let a = value(alloc, scope, refusals, None, left)?;
            let b = value(alloc, scope, refusals, None, right)?;
            binary(alloc, scope, refusals, operator_of(*operator), *pos, a, b)
        }
        Expr::InstanceOf { operand, typ, pos } => {
            let a = value(alloc, scope, refusals, None, operand)?;
            let tested = tested_type(scope, typ);
            count_unknown(tested.is_some(), typ.pos, refusals)?;
            instance_of(alloc, scope, refusals, *pos, tested, a)
        }
        Expr::Conditional {
            condition,
            when_true,
            when_false,
            pos,
        } => {
            let c = value(alloc, scope, refusals, None, condition)?;
            let a = value(alloc, scope, refusals, wanted, when_true)?;
            let b = value(alloc, scope, refusals, wanted, when_false)?;
            conditional(alloc, scope, refusals, wanted, *pos, c, a, b)
        }
        Expr::Assignment { left, right, pos } => {
            let x = value(alloc, scope, refusals, None, left)?;
            let variable = type_of(operand(x.answer));
            let v = value(alloc, scope, refusals, variable, right)?;
            assignment(scope, refusals, *pos, left, x, v)
        }
        Expr::CompoundAssignment {
            operator,
            left,
            right,
            pos,
        } => {
            let x = value(alloc, scope, refusals, None, left)?;
            let v = value(alloc, scope, refusals, None, right)?;
            let o = operator_of(*operator);
            compound_assignment(alloc, scope, refusals, o, *pos, left, x, v)
        }
    }
}

/// The typing of an expression where a value is needed: the call of a method without a result is refused there (JLS 15.1).
#[cycle(expressions)]
pub fn value(
    alloc: Global,
    scope: &BodyScope,
    refusals: &mut Vec<Refusal>,
    wanted: Option<VType>,
    e: &Expr,
) -> Result<ExpressionTyping, NoMemory>
    ensures typing { IfOk result (λ r. typing_of r ≡ typing (surroundings_of scope.now) wanted (expr_of e.now)) }
    ensures cases { OnOk result (refusals.new.items ≡ refusals.old.items ++ value_cases (surroundings_of scope.now) wanted (expr_of e.now)) }
{
    let found = expression(alloc, scope, refusals, wanted, e)?;
    needed_value(found, refusals)
}

// What stands before a dot, with the refusals in it: a class has none.
#[cycle(expressions)]
fn typed_target(
    alloc: Global,
    scope: &BodyScope,
    refusals: &mut Vec<Refusal>,
    e: &Expr,
) -> Result<Target, NoMemory>
    ensures typing { IfOk result (λ r. typing_of_target r ≡ target_typing (class_meant (surroundings_of scope.now) (expr_of e.now)) (typing (surroundings_of scope.now) None (expr_of e.now))) }
    ensures cases { OnOk result (refusals.new.items ≡ refusals.old.items ++ target_cases (class_meant (surroundings_of scope.now) (expr_of e.now)) (value_cases (surroundings_of scope.now) None (expr_of e.now))) }
{
    match class_meant(alloc, scope, e)? {
        Some(class) => Ok(Target::Class(class)),
        None => {
            let t = value(alloc, scope, refusals, None, e)?;
            Ok(Target::Value(t))
        }
    }
}

// The operand of a unary expression: a literal under a minus has a rule of its own (JLS 3.10.1).
#[cycle(expressions)]
fn unary_operand(
    alloc: Global,
    scope: &BodyScope,
    refusals: &mut Vec<Refusal>,
    operator: PrefixOperator,
    e: &Expr,
) -> Result<ExpressionTyping, NoMemory>
    ensures typing { IfOk result (λ r. typing_of r ≡ operand_typing (answer_under operator (expr_of e.now)) (typing (surroundings_of scope.now) None (expr_of e.now))) }
    ensures cases { OnOk result (refusals.new.items ≡ refusals.old.items ++ operand_cases (surroundings_of scope.now) (answer_under operator (expr_of e.now)) (value_cases (surroundings_of scope.now) None (expr_of e.now))) }
{
    match answer_under(operator, e) {
        None => value(alloc, scope, refusals, None, e),
        Some(answer) => settle_in(scope, refusals, answer, Vec::new(alloc)),
    }
}

/// The typings of the arguments of a call or of an instance creation, which are values, with all refusals in them.
#[cycle(expressions)]
pub fn arguments(
    alloc: Global,
    scope: &BodyScope,
    refusals: &mut Vec<Refusal>,
    es: &[Expr],
) -> Result<Vec<ExpressionTyping>, NoMemory>
    ensures typings { IfOk result (λ v. map typing_of v.items ≡ typings (surroundings_of scope.now) (expressions (map expr_of es.now))) }
    ensures cases { OnOk result (refusals.new.items ≡ refusals.old.items ++ argument_cases (surroundings_of scope.now) (expressions (map expr_of es.now))) }
{
    let mut all = Vec::new(alloc);
    for e in es {
        let argument = value(alloc, scope, refusals, None, e)?;
        all.push(argument)?;
    }
    Ok(all)
}
