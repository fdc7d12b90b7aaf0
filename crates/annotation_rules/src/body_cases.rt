//! Which annotations of variables are refused, and which assignments of parameters.

ghost use Rattle.std.specs.Prelude.{◌≡◌, ◌+◌, drop, length};
ghost use Rattle.std.specs.List.{flat_map, list_any};
ghost use Rattle.std.specs.Option.{option_copied};
ghost use Rattle.program_model.specs.Lookups.{expression_at};
ghost use Rattle.refusal_order.specs.Refusals.{least};
ghost use Rattle.annotation_rules.specs.AnnotationCases.{assigned_at, assigned_cases, assignment_cases, body_cases, cases_in_body, is_spoken_in, parameter_count, variable_cases};
ghost use Rattle.must_call_sets.specs.Assigned.{assigned_variable, is_spoken_of, variable_in, variable_of, variable_to};
ghost use Rattle.must_call_sets.specs.Signatures.{is_at, is_position};
ghost use Rattle.annotation_rules.specs.Declarations.{declaration_cases};

use crate::declaration::{Declaration, declaration_refusal};
use program_model::{
    AssignmentTarget, Body, ExprId, ExpressionKind, Method, Program, Promise, Sig, TExpr, Target,
    Var,
};
use refusal_order::{lesser_of, where_true};
use rlc_base::{Code, Refusal};

fn is_position(position: Option<u32>, k: u64) -> bool
    ensures { result ≡ is_position position k }
{
    match position {
        None => false,
        Some(j) => u64::from(j) == k,
    }
}

fn is_target(target: Target, k: u64) -> bool
    ensures { result ≡ is_at target k }
{
    match target {
        Target::At(j) => u64::from(j) == k,
        Target::OfField(_) => false,
    }
}

fn is_promised(k: u64, promises: &[Promise]) -> bool
    ensures { result ≡ list_any (λ x. is_at x.target k) promises.now }
{
    promises.iter().any(|promise| is_target(promise.target, k))
}

// Whether the position is the alias position, the reset's target or the target of a promise of either kind.
fn is_spoken_of(sig: &Sig, k: u64) -> bool
    ensures { result ≡ is_spoken_of sig.now k }
{
    is_position(sig.alias, k)
        || is_position(sig.reset, k)
        || is_promised(k, &sig.promises)
        || is_promised(k, &sig.on_throw)
}

fn variable_of(kind: &ExpressionKind) -> Option<u32>
    ensures { result ≡ variable_of kind.now }
{
    match kind {
        ExpressionKind::Local(variable) => Some(*variable),
        _other => None,
    }
}

fn variable_at(body: &Body, expression: ExprId) -> Option<u32>
    ensures { result ≡ variable_in (expression_at body.now expression) }
{
    match body.expression(expression) {
        None => None,
        Some(found) => variable_of(&found.kind),
    }
}

fn variable_to(target: AssignmentTarget) -> Option<u32>
    ensures { result ≡ variable_to target }
{
    match target {
        AssignmentTarget::Local(variable) => Some(variable),
        AssignmentTarget::Field(_, _)
        | AssignmentTarget::StaticField(_)
        | AssignmentTarget::Element(_, _) => None,
    }
}

// The variable that an expression assigns (JLS 15.26, 15.14.2, 15.15.1).
fn assigned_variable(body: &Body, kind: &ExpressionKind) -> Option<u32>
    ensures { result ≡ assigned_variable body.now kind.now }
{
    match kind {
        ExpressionKind::Assignment(target, _) => variable_to(*target),
        ExpressionKind::OperatorAssignment(assignment) => variable_at(body, assignment.target),
        ExpressionKind::PostfixStep(assignment) => variable_at(body, assignment.target),
        _other => None,
    }
}

fn parameter_count(method: Option<&Method>) -> usize
    ensures { result ≡ parameter_count (option_copied method.entry) }
{
    match method {
        None => 0,
        Some(method) => method.sig.params.len(),
    }
}

// Whether the variable is a parameter that the signature speaks of.
fn is_spoken_in(method: Option<&Method>, variable: u32) -> bool
    ensures { result ≡ is_spoken_in (option_copied method.entry) variable }
{
    match method {
        None => false,
        Some(method) => {
            (variable as usize) < method.sig.params.len()
                && is_spoken_of(&method.sig, u64::from(variable) + 1)
        }
    }
}

fn assigned_at(holds: bool, variable: Option<&Var>) -> Option<Refusal>
    ensures { result ≡ least (assigned_at holds (option_copied variable.entry)) }
{
    match variable {
        None => None,
        Some(variable) => where_true(holds, Code::BadAnno, variable.pos),
    }
}

// The refusal of an assignment of this variable.
fn assigned_refusal(method: Option<&Method>, body: &Body, variable: Option<u32>) -> Option<Refusal>
    ensures { result ≡ least (assigned_cases (option_copied method.entry) body.now variable) }
{
    match variable {
        None => None,
        Some(variable) => assigned_at(is_spoken_in(method, variable), body.variable(variable)),
    }
}

// The least refusal of the annotations of variables.
fn variable_refusal(variables: &[Var]) -> Option<Refusal>
    ensures { result ≡ least (flat_map (λ v. declaration_cases Declaration.Variable v.annos.items) variables.now) }
{
    let mut least = None;
    for variable in variables {
        let refusal = declaration_refusal(Declaration::Variable, &variable.annos);
        least = lesser_of(least, refusal);
    }
    least
}

// The variables behind so many parameters.
fn behind(variables: &[Var], count: usize) -> &[Var]
    ensures { result.now ≡ drop count variables.now }
{
    if count <= variables.len() {
        &variables[count..]
    } else {
        &[]
    }
}

// The least refusal of an assignment of a parameter.
fn assignment_refusal(
    method: Option<&Method>,
    body: &Body,
    expressions: &[TExpr],
) -> Option<Refusal>
    ensures { result ≡ least (flat_map (λ e. assigned_cases (option_copied method.entry) body.now (assigned_variable body.now e.kind)) expressions.now) }
{
    let mut least = None;
    for expression in expressions {
        let variable = assigned_variable(body, &expression.kind);
        let refusal = assigned_refusal(method, body, variable);
        least = lesser_of(least, refusal);
    }
    least
}

fn refusal_in_body(method: Option<&Method>, body: &Body) -> Option<Refusal>
    ensures { result ≡ least (cases_in_body (option_copied method.entry) body.now) }
{
    let others = behind(&body.vars, parameter_count(method));
    lesser_of(
        variable_refusal(others),
        assignment_refusal(method, body, &body.expressions),
    )
}

/// The least refusal in a body: of an annotation on a variable that is no parameter, or of an assignment of a parameter that
/// its signature speaks of.
pub fn body_refusal(p: &Program, body: &Body) -> Option<Refusal>
    ensures { result ≡ least (body_cases p.now body.now) }
{
    refusal_in_body(p.method(body.method), body)
}
