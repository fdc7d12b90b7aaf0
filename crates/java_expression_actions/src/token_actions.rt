ghost use Rattle.std.specs.Prelude.{◌≡◌, ◌∷◌, ℕ, true};
ghost use Rattle.java_values.specs.NestedTrees.{lexeme_in};
ghost use Rattle.java_nodes.specs.Closed.{closed_of};
ghost use Rattle.java_values.specs.Values as kinds;
ghost use Rattle.java_values.specs.Values.{values_of};
ghost use Rattle.java_values.specs.Kinds.{Fits};
ghost use Rattle.java_values.specs.Outcomes.{Gives, IsNoMisfit, Made};
ghost use Rattle.java_expression_actions.specs.TokenActions.{takes_token, perform_token, is_of_names, is_of_operands, is_of_ends};
ghost use Rattle.java_syntax.specs.declared.actions.TokenAction.TheVariants as action;

use java_nodes::{
    COMPARISON, Closed, block, close_operations, extended, infix_operator, level_of, literal,
    name_at, postfix_step, primitive_at, statement, step_operator, this, with_identifier,
    with_operator,
};
use java_syntax::{ConstructorBody, Stmt, TokenAction};
use java_values::{
    BuildFail, Identifiers, Lexeme, Place, Value, leave, leave_expression, leave_statement,
    pop_expression, pop_identifiers, pop_name, pop_operations, pop_place, pop_statements,
    pop_super_call,
};
use std::alloc::Global;

/// Does an action that leaves the token, its place, or a name or type that it belongs to.
#[tactic(auto, using(crate::proofs::TokenActionLaws::name_laws))]
fn name_action(
    alloc: Global,
    token: Lexeme,
    action: TokenAction,
    stack: &mut Vec<Value>,
) -> Result<(), BuildFail>
    requires group { is_of_names action ≡ true }
    requires fits { Fits (takes_token action) (values_of stack.old.items) }
    ensures { (limit : ℕ) → Gives (λ _. values_of stack.new.items) result (perform_token limit (lexeme_in token) action (values_of stack.old.items)) }
{
    match action {
        TokenAction::Place => leave(stack, Value::Place(Place { pos: token.pos })),
        TokenAction::Keep => leave(stack, Value::Token(token)),
        TokenAction::Name => leave(stack, Value::Name(name_at(token))),
        TokenAction::ExtendName => {
            let name = pop_name(stack);
            let made = extended(name, token)?;
            leave(stack, Value::Name(made))
        }
        TokenAction::FirstIdentifier => {
            let first = name_at(token);
            let more = Vec::new(alloc);
            leave(stack, Value::Identifiers(Identifiers { first, more }))
        }
        TokenAction::NextIdentifier => {
            let names = pop_identifiers(stack);
            let made = with_identifier(names, name_at(token))?;
            leave(stack, Value::Identifiers(made))
        }
        TokenAction::PrimitiveType => leave(stack, Value::Type(primitive_at(token))),
        _other => unreachable!(),
    }
}

/// Leaves the operators that wait, the left operand of `instanceof`, and its place.
fn leave_operand(stack: &mut Vec<Value>, joined: Closed, place: Place) -> Result<(), BuildFail>
    ensures { Gives (λ _. values_of stack.new.items) result (Made (kinds.APlace place.pos ∷ kinds.AExpression (closed_of joined).operand ∷ kinds.AOperations (closed_of joined).waiting ∷ values_of stack.old.items)) }
{
    let waiting = leave(stack, Value::Operations(joined.waiting));
    let operand = leave(stack, Value::Expression(joined.operand));
    let word = leave(stack, Value::Place(place));
    waiting?;
    operand?;
    word
}

/// Does an action of a token that is an operand or an operator. Those before an operator between two operands that bind at least
/// as tight have their right operands now.
#[tactic(auto, using(crate::proofs::TokenActionLaws::operand_laws))]
fn operand_action(
    alloc: Global,
    limit: u32,
    token: Lexeme,
    action: TokenAction,
    stack: &mut Vec<Value>,
) -> Result<(), BuildFail>
    requires group { is_of_operands action ≡ true }
    requires fits { Fits (takes_token action) (values_of stack.old.items) }
    ensures { Gives (λ _. values_of stack.new.items) result (perform_token limit (lexeme_in token) action (values_of stack.old.items)) }
{
    match action {
        TokenAction::Literal => leave_expression(stack, literal(limit, token.text, token.pos)),
        TokenAction::This => leave_expression(stack, this(limit, token.pos)),
        TokenAction::Increment => {
            let operand = pop_expression(stack);
            let operator = step_operator(token.text.bytes());
            let made = postfix_step(alloc, limit, operator, operand, token.pos);
            leave_expression(stack, made)
        }
        TokenAction::Operator => {
            let right = pop_expression(stack);
            let waiting = pop_operations(stack);
            let operator = infix_operator(token.text.bytes());
            let joined = close_operations(alloc, limit, level_of(operator), right, waiting)?;
            let operations = with_operator(joined, operator, token.pos)?;
            leave(stack, Value::Operations(operations))
        }
        TokenAction::InstanceOperator => {
            let right = pop_expression(stack);
            let waiting = pop_operations(stack);
            let joined = close_operations(alloc, limit, COMPARISON, right, waiting)?;
            leave_operand(stack, joined, Place { pos: token.pos })
        }
        _other => unreachable!(),
    }
}

/// Does an action of a token with which a statement or a body ends.
#[tactic(auto, using(crate::proofs::TokenActionLaws::end_laws))]
fn end_action(
    limit: u32,
    token: Lexeme,
    action: TokenAction,
    stack: &mut Vec<Value>,
) -> Result<(), BuildFail>
    requires group { is_of_ends action ≡ true }
    requires fits { Fits (takes_token action) (values_of stack.old.items) }
    ensures { Gives (λ _. values_of stack.new.items) result (perform_token limit (lexeme_in token) action (values_of stack.old.items)) }
{
    let pos = token.pos;
    match action {
        TokenAction::EmptyStatement => {
            leave_statement(stack, statement(limit, 0, Stmt::Empty { pos }, pos))
        }
        TokenAction::Break => leave_statement(stack, statement(limit, 0, Stmt::Break { pos }, pos)),
        TokenAction::Continue => {
            leave_statement(stack, statement(limit, 0, Stmt::Continue { pos }, pos))
        }
        TokenAction::Block => {
            let all = pop_statements(stack);
            let opened = pop_place(stack);
            leave(stack, Value::Block(block(all, opened.pos, pos)))
        }
        TokenAction::ConstructorBody => {
            let all = pop_statements(stack);
            let super_call = pop_super_call(stack);
            let opened = pop_place(stack);
            let block = block(all, opened.pos, pos).tree;
            let body = ConstructorBody { super_call, block };
            leave(stack, Value::ConstructorBody(body))
        }
        _other => unreachable!(),
    }
}

/// Does the action, which finds values of the kinds that it takes.
///
/// # Errors
///
/// `TooDeep` where what it makes would be deeper than the limit.
#[tactic(auto, using(crate::proofs::TokenActionLaws::token_fits))]
pub fn perform_token_action(
    alloc: Global,
    limit: u32,
    token: Lexeme,
    action: TokenAction,
    stack: &mut Vec<Value>,
) -> Result<(), BuildFail>
    requires { IsNoMisfit (perform_token limit (lexeme_in token) action (values_of stack.old.items)) }
    ensures { Gives (λ _. values_of stack.new.items) result (perform_token limit (lexeme_in token) action (values_of stack.old.items)) }
{
    match action {
        TokenAction::Place
        | TokenAction::Keep
        | TokenAction::Name
        | TokenAction::ExtendName
        | TokenAction::FirstIdentifier
        | TokenAction::NextIdentifier
        | TokenAction::PrimitiveType => name_action(alloc, token, action, stack),
        TokenAction::Literal
        | TokenAction::This
        | TokenAction::Increment
        | TokenAction::Operator
        | TokenAction::InstanceOperator => operand_action(alloc, limit, token, action, stack),
        TokenAction::EmptyStatement
        | TokenAction::Break
        | TokenAction::Continue
        | TokenAction::Block
        | TokenAction::ConstructorBody => end_action(limit, token, action, stack),
    }
}
