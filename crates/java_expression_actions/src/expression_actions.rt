ghost use Rattle.std.specs.Prelude.{◌≡◌, ℕ, true};
ghost use Rattle.java_values.specs.Values.{values_of};
ghost use Rattle.java_nodes.specs.Parts.{array_type};
ghost use Rattle.java_values.specs.Kinds.{Fits};
ghost use Rattle.java_values.specs.Outcomes.{Gives, IsNoMisfit};
ghost use Rattle.java_expression_actions.specs.ExpressionActions.{takes_expression, perform_expression, is_of_lists, is_of_types, is_of_calls, is_of_arrays, is_of_operators, is_of_parentheses};
ghost use Rattle.java_syntax.specs.declared.actions.ExpressionAction.TheVariants as action;

use java_nodes::{
    LOOSEST, assignment, cast, close_operations, compound, compound_operator, conditional, head,
    index, instance, name_expression, named_call, new_array, new_object, parenthesized, prefix,
    prefix_operator, prefix_step, selector, step_operator, super_call, type_named, type_of,
};
use java_syntax::{ExpressionAction, Typ};
use java_values::{
    BuildFail, Identifiers, Parenthesized, Value, added, leave, leave_expression, none, pop_call,
    pop_expression, pop_expressions, pop_identifiers, pop_name, pop_operations, pop_parenthesized,
    pop_place, pop_token, pop_typ,
};
use std::alloc::Global;

/// Does an action of lists of expressions and of operands.
#[tactic(auto, using(crate::proofs::ExpressionActionLaws::list_laws))]
fn list_action(
    alloc: Global,
    action: ExpressionAction,
    stack: &mut Vec<Value>,
) -> Result<(), BuildFail>
    requires group { is_of_lists action ≡ true }
    requires fits { Fits (takes_expression action) (values_of stack.old.items) }
    ensures { (limit : ℕ) → Gives (λ _. values_of stack.new.items) result (perform_expression limit action (values_of stack.old.items)) }
{
    match action {
        ExpressionAction::NoExpressions => leave(stack, Value::Expressions(none(alloc))),
        ExpressionAction::AndExpression => {
            let one = pop_expression(stack);
            let all = pop_expressions(stack);
            let made = added(all, one)?;
            leave(stack, Value::Expressions(made))
        }
        ExpressionAction::SomeCall => {
            let arguments = pop_expressions(stack);
            leave(stack, Value::Call(Some(arguments)))
        }
        ExpressionAction::NoCall => leave(stack, Value::Call(None)),
        ExpressionAction::BeginOperations => {
            let e = pop_expression(stack);
            let waiting = leave(stack, Value::Operations(Vec::new(alloc)));
            let operand = leave(stack, Value::Expression(e));
            waiting?;
            operand
        }
        ExpressionAction::LeavePlace => {
            let e = pop_expression(stack);
            let _start = pop_place(stack);
            leave(stack, Value::Expression(e))
        }
        _other => unreachable!(),
    }
}

/// An array of a type (JLS 10.1).
fn array_of(typ: Typ) -> Typ
    ensures { result ≡ array_type typ }
{
    Typ {
        is_array: true,
        ..typ
    }
}

/// Does an action of types.
#[tactic(auto, using(crate::proofs::ExpressionActionLaws::type_laws))]
fn type_action(action: ExpressionAction, stack: &mut Vec<Value>) -> Result<(), BuildFail>
    requires group { is_of_types action ≡ true }
    requires fits { Fits (takes_expression action) (values_of stack.old.items) }
    ensures { (limit : ℕ) → Gives (λ _. values_of stack.new.items) result (perform_expression limit action (values_of stack.old.items)) }
{
    match action {
        ExpressionAction::NamedType => {
            let name = pop_name(stack);
            leave(stack, Value::Type(type_named(name)))
        }
        ExpressionAction::IdentifiersType => {
            let names = pop_identifiers(stack);
            let typ = type_of(names)?;
            leave(stack, Value::Type(typ))
        }
        ExpressionAction::ArrayType => {
            let _opened = pop_place(stack);
            let names = pop_identifiers(stack);
            let typ = type_of(names)?;
            leave(stack, Value::Type(array_of(typ)))
        }
        ExpressionAction::ArrayOf => {
            let typ = pop_typ(stack);
            leave(stack, Value::Type(array_of(typ)))
        }
        _other => unreachable!(),
    }
}

/// Does an action of calls, names and new objects.
#[tactic(auto, using(crate::proofs::ExpressionActionLaws::call_laws))]
fn call_action(
    alloc: Global,
    limit: u32,
    action: ExpressionAction,
    stack: &mut Vec<Value>,
) -> Result<(), BuildFail>
    requires group { is_of_calls action ≡ true }
    requires fits { Fits (takes_expression action) (values_of stack.old.items) }
    ensures { Gives (λ _. values_of stack.new.items) result (perform_expression limit action (values_of stack.old.items)) }
{
    match action {
        ExpressionAction::Head => {
            let call = pop_call(stack);
            let name = pop_name(stack);
            leave_expression(stack, head(limit, name, call))
        }
        ExpressionAction::Selector => {
            let call = pop_call(stack);
            let name = pop_name(stack);
            let target = pop_expression(stack);
            leave_expression(stack, selector(alloc, limit, target, name, call))
        }
        ExpressionAction::SuperMethodCall => {
            let arguments = pop_expressions(stack);
            let name = pop_name(stack);
            leave_expression(stack, super_call(limit, name.text, arguments, name.pos))
        }
        ExpressionAction::NamedCall => {
            let arguments = pop_expressions(stack);
            let names = pop_identifiers(stack);
            leave_expression(stack, named_call(alloc, limit, names, arguments))
        }
        ExpressionAction::NameExpression => {
            let names = pop_identifiers(stack);
            leave_expression(stack, name_expression(alloc, limit, names))
        }
        ExpressionAction::NewObject => {
            let arguments = pop_expressions(stack);
            let class = pop_name(stack);
            let word = pop_place(stack);
            leave_expression(stack, new_object(limit, class, arguments, word.pos))
        }
        _other => unreachable!(),
    }
}

/// Does an action of arrays, casts and `instanceof`.
#[tactic(auto, using(crate::proofs::ExpressionActionLaws::array_laws))]
fn array_action(
    alloc: Global,
    limit: u32,
    action: ExpressionAction,
    stack: &mut Vec<Value>,
) -> Result<(), BuildFail>
    requires group { is_of_arrays action ≡ true }
    requires fits { Fits (takes_expression action) (values_of stack.old.items) }
    ensures { Gives (λ _. values_of stack.new.items) result (perform_expression limit action (values_of stack.old.items)) }
{
    match action {
        ExpressionAction::Index => {
            let position = pop_expression(stack);
            let opened = pop_place(stack);
            let array = pop_expression(stack);
            leave_expression(stack, index(alloc, limit, array, position, opened.pos))
        }
        ExpressionAction::NamedIndex => {
            let position = pop_expression(stack);
            let opened = pop_place(stack);
            let names = pop_identifiers(stack);
            let array = name_expression(alloc, limit, names)?;
            leave_expression(stack, index(alloc, limit, array, position, opened.pos))
        }
        ExpressionAction::NewArray => {
            let length = pop_expression(stack);
            let element = pop_typ(stack);
            let word = pop_place(stack);
            leave_expression(stack, new_array(alloc, limit, element, length, word.pos))
        }
        ExpressionAction::Cast => {
            let operand = pop_expression(stack);
            let typ = pop_typ(stack);
            let opened = pop_place(stack);
            leave_expression(stack, cast(alloc, limit, typ, operand, opened.pos))
        }
        ExpressionAction::InstanceOf => {
            let typ = pop_typ(stack);
            let word = pop_place(stack);
            let operand = pop_expression(stack);
            leave_expression(stack, instance(alloc, limit, operand, typ, word.pos))
        }
        _other => unreachable!(),
    }
}

/// Does an action of an operator whose operands stand on the stack.
#[tactic(auto, using(crate::proofs::ExpressionActionLaws::operator_laws))]
fn operator_action(
    alloc: Global,
    limit: u32,
    action: ExpressionAction,
    stack: &mut Vec<Value>,
) -> Result<(), BuildFail>
    requires group { is_of_operators action ≡ true }
    requires fits { Fits (takes_expression action) (values_of stack.old.items) }
    ensures { Gives (λ _. values_of stack.new.items) result (perform_expression limit action (values_of stack.old.items)) }
{
    match action {
        ExpressionAction::Prefix => {
            let operand = pop_expression(stack);
            let sign = pop_token(stack);
            let operator = prefix_operator(sign.text.bytes());
            leave_expression(stack, prefix(alloc, limit, operator, operand, sign.pos))
        }
        ExpressionAction::PrefixIncrement => {
            let operand = pop_expression(stack);
            let sign = pop_token(stack);
            let operator = step_operator(sign.text.bytes());
            let made = prefix_step(alloc, limit, operator, operand, sign.pos);
            leave_expression(stack, made)
        }
        ExpressionAction::Conditional => {
            let when_false = pop_expression(stack);
            let when_true = pop_expression(stack);
            let question = pop_place(stack);
            let condition = pop_expression(stack);
            let made = conditional(alloc, limit, condition, when_true, when_false, question.pos);
            leave_expression(stack, made)
        }
        ExpressionAction::Assignment => {
            let right = pop_expression(stack);
            let word = pop_place(stack);
            let left = pop_expression(stack);
            leave_expression(stack, assignment(alloc, limit, left, right, word.pos))
        }
        ExpressionAction::CompoundAssignment => {
            let right = pop_expression(stack);
            let word = pop_token(stack);
            let left = pop_expression(stack);
            let operator = compound_operator(word.text.bytes());
            let made = compound(alloc, limit, operator, left, right, word.pos);
            leave_expression(stack, made)
        }
        _other => unreachable!(),
    }
}

/// What the parentheses hold is the type of a cast (JLS 15.16).
#[tactic(auto, unfolding(crate::specs::ExpressionActions::perform_expression))]
fn cast_type_action(limit: u32, stack: &mut Vec<Value>) -> Result<(), BuildFail>
    requires fits { Fits (takes_expression action.CastType) (values_of stack.old.items) }
    requires meant { IsNoMisfit (perform_expression limit action.CastType (values_of stack.old.items)) }
    ensures { Gives (λ _. values_of stack.new.items) result (perform_expression limit action.CastType (values_of stack.old.items)) }
{
    let inside = pop_parenthesized(stack);
    let typ = match inside {
        Parenthesized::Names(names) => type_of(names)?,
        Parenthesized::Array(typ) => typ,
        Parenthesized::Expression(_) => unreachable!(),
    };
    leave(stack, Value::Type(typ))
}

/// What the parentheses hold is an expression.
#[tactic(auto, unfolding(crate::specs::ExpressionActions::perform_expression))]
fn parenthesized_expression_action(
    alloc: Global,
    limit: u32,
    stack: &mut Vec<Value>,
) -> Result<(), BuildFail>
    requires fits { Fits (takes_expression action.ParenthesizedExpression) (values_of stack.old.items) }
    requires meant { IsNoMisfit (perform_expression limit action.ParenthesizedExpression (values_of stack.old.items)) }
    ensures { Gives (λ _. values_of stack.new.items) result (perform_expression limit action.ParenthesizedExpression (values_of stack.old.items)) }
{
    let inside = pop_parenthesized(stack);
    let _opened = pop_place(stack);
    let e = match inside {
        Parenthesized::Names(names) => name_expression(alloc, limit, names)?,
        Parenthesized::Array(_) => unreachable!(),
        Parenthesized::Expression(e) => e,
    };
    let whole = parenthesized(limit, e);
    leave_expression(stack, whole)
}

/// Does an action of parentheses, or that of the end of operations.
#[tactic(auto, using(crate::proofs::ExpressionActionLaws::parentheses_laws))]
fn parentheses_action(
    alloc: Global,
    limit: u32,
    action: ExpressionAction,
    stack: &mut Vec<Value>,
) -> Result<(), BuildFail>
    requires group { is_of_parentheses action ≡ true }
    requires fits { Fits (takes_expression action) (values_of stack.old.items) }
    requires meant { IsNoMisfit (perform_expression limit action (values_of stack.old.items)) }
    ensures { Gives (λ _. values_of stack.new.items) result (perform_expression limit action (values_of stack.old.items)) }
{
    match action {
        ExpressionAction::Parentheses => {
            let e = pop_expression(stack);
            leave_expression(stack, parenthesized(limit, e))
        }
        ExpressionAction::NamesInside => {
            let names = pop_identifiers(stack);
            leave(stack, Value::Parenthesized(Parenthesized::Names(names)))
        }
        ExpressionAction::ArrayInside => {
            let typ = pop_typ(stack);
            leave(stack, Value::Parenthesized(Parenthesized::Array(typ)))
        }
        ExpressionAction::ExpressionInside => {
            let e = pop_expression(stack);
            leave(stack, Value::Parenthesized(Parenthesized::Expression(e)))
        }
        ExpressionAction::EndOperations => {
            let right = pop_expression(stack);
            let waiting = pop_operations(stack);
            let joined = close_operations(alloc, limit, LOOSEST, right, waiting)?;
            leave(stack, Value::Expression(joined.operand))
        }
        ExpressionAction::CastType => cast_type_action(limit, stack),
        ExpressionAction::ParenthesizedExpression => parenthesized_expression_action(
            alloc, limit, stack,
        ),
        _other => unreachable!(),
    }
}

/// Does the action, which finds values of the kinds that it takes.
///
/// # Errors
///
/// `TooDeep` where what it makes would be deeper than the limit.
#[tactic(auto, using(crate::proofs::ExpressionActionLaws::expression_fits))]
pub fn perform_expression_action(
    alloc: Global,
    limit: u32,
    action: ExpressionAction,
    stack: &mut Vec<Value>,
) -> Result<(), BuildFail>
    requires { IsNoMisfit (perform_expression limit action (values_of stack.old.items)) }
    ensures { Gives (λ _. values_of stack.new.items) result (perform_expression limit action (values_of stack.old.items)) }
{
    match action {
        ExpressionAction::NoExpressions
        | ExpressionAction::AndExpression
        | ExpressionAction::SomeCall
        | ExpressionAction::NoCall
        | ExpressionAction::BeginOperations
        | ExpressionAction::LeavePlace => list_action(alloc, action, stack),
        ExpressionAction::NamedType
        | ExpressionAction::IdentifiersType
        | ExpressionAction::ArrayType
        | ExpressionAction::ArrayOf => type_action(action, stack),
        ExpressionAction::Head
        | ExpressionAction::Selector
        | ExpressionAction::SuperMethodCall
        | ExpressionAction::NamedCall
        | ExpressionAction::NameExpression
        | ExpressionAction::NewObject => call_action(alloc, limit, action, stack),
        ExpressionAction::Index
        | ExpressionAction::NamedIndex
        | ExpressionAction::NewArray
        | ExpressionAction::Cast
        | ExpressionAction::InstanceOf => array_action(alloc, limit, action, stack),
        ExpressionAction::Prefix
        | ExpressionAction::PrefixIncrement
        | ExpressionAction::Conditional
        | ExpressionAction::Assignment
        | ExpressionAction::CompoundAssignment => operator_action(alloc, limit, action, stack),
        ExpressionAction::Parentheses
        | ExpressionAction::NamesInside
        | ExpressionAction::ArrayInside
        | ExpressionAction::ExpressionInside
        | ExpressionAction::CastType
        | ExpressionAction::ParenthesizedExpression
        | ExpressionAction::EndOperations => parentheses_action(alloc, limit, action, stack),
    }
}
