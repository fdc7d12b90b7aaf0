//! The call of a constructor of the super class with which the body of a constructor begins (JLS 8.8.7.1).

ghost use Rattle.std.specs.Prelude.{◌≡◌, ◌++◌, ◌∷◌, [], Some, IfOk, OnOk, map};
ghost use Rattle.java_typed_trees.specs.Settling.{own_cases};
ghost use Rattle.java_typed_trees.specs.StatementTrees.{Statement, no_statement, statement_of};
ghost use Rattle.java_typed_trees.specs.StatementTrees as forms;
ghost use Rattle.java_call_rules.specs.CallParts.{method_in, method_of_shape, trees_for};
ghost use Rattle.java_call_rules.specs.Surroundings.{surroundings_of};
ghost use Rattle.java_call_rules.specs.TypedParts.{typing_of};
ghost use Rattle.declared_bodies.specs.SuperCalls.{is_made, is_other, statement_of_call, super_call_by, super_call_cases, super_call_in, super_call_of, super_call_statements, typed_call_cases};

use class_members::{constructors_of, super_of};
use field_initializers::arguments;
use java_call_rules::{BodyScope, ExpressionTyping, MethodResolution, resolution, trees_for};
use java_syntax::Expr;
use java_typed_trees::{
    Answer, Shape, StatementShape, StatementTree, settle, statement_tree, value_at,
};
use program_model::{ClassId, MethodId, Program, VType};
use rlc_base::{NoMemory, Pos, Refusal};
use std::alloc::Global;

/// A call of a constructor of the super class.
#[derive(Clone, Copy)]
pub struct ConstructorCall<'d> {
    /// Its arguments. An implied one has none.
    pub arguments: &'d [Expr],
    /// The place of the word `super`. An implied one has that of its constructor.
    pub pos: Pos,
    /// It is written.
    pub written: bool,
}

fn is_other(p: &Program, class: Option<ClassId>) -> bool
    ensures { result ≡ is_other p.now class }
{
    match class {
        None => false,
        Some(found) => found.0 != p.core.object.0,
    }
}

// Whether a constructor of the class calls one of its super class: that of `Object` is not called.
fn is_made(scope: &BodyScope) -> bool
    ensures { result ≡ is_made (surroundings_of scope.now) }
{
    let p = scope.scope.program;
    is_other(p, super_of(p, scope.scope.class))
}

// The constructor of the class that is meant, as an instance creation names it (JLS 15.12.2).
fn super_call_of(
    alloc: Global,
    scope: &BodyScope,
    pos: Pos,
    class: Option<ClassId>,
    arguments: &[ExpressionTyping],
) -> Result<Answer, NoMemory>
    ensures { IfOk result (λ r. r ≡ super_call_of (surroundings_of scope.now) pos class (map typing_of arguments.now)) }
{
    match class {
        None => Ok(Answer::Silent(pos)),
        Some(found) => {
            let p = scope.scope.program;
            let candidates = constructors_of(alloc, p, scope.scope.class, found)?;
            match resolution(alloc, p, pos, &candidates, arguments)? {
                MethodResolution::NoMethod(answer) => Ok(answer),
                MethodResolution::Method(method) => Ok(Answer::Is(
                    Shape::NewObject(found, method),
                    value_at(pos, VType::Obj(found)),
                )),
            }
        }
    }
}

// The constructor of the super class that is meant.
fn super_call_by(
    alloc: Global,
    scope: &BodyScope,
    pos: Pos,
    arguments: &[ExpressionTyping],
) -> Result<Answer, NoMemory>
    ensures { IfOk result (λ r. r ≡ super_call_by (surroundings_of scope.now) pos (map typing_of arguments.now)) }
{
    let class = super_of(scope.scope.program, scope.scope.class);
    super_call_of(alloc, scope, pos, class, arguments)
}

fn method_of_shape(shape: Shape) -> Option<MethodId>
    ensures { result ≡ method_of_shape shape }
{
    match shape {
        Shape::Call(_, method) => Some(method),
        Shape::NewObject(_, method) => Some(method),
        _ => None,
    }
}

fn method_in(answer: Answer) -> Option<MethodId>
    ensures { result ≡ method_in answer }
{
    match answer {
        Answer::Is(shape, _) => method_of_shape(shape),
        Answer::Wrong(_, _) => None,
        Answer::Silent(_) => None,
    }
}

// Counts the refusals of the call itself: that no constructor is applicable or most specific, and what the constructor throws.
fn count_call(
    alloc: Global,
    scope: &BodyScope,
    refusals: &mut Vec<Refusal>,
    answer: Answer,
) -> Result<(), NoMemory>
    ensures { OnOk result (refusals.new.items ≡ refusals.old.items ++ own_cases (surroundings_of scope.now).context.program (surroundings_of scope.now).context.covered answer) }
{
    let parts = Vec::new(alloc);
    let _typed = settle(
        scope.scope.program,
        scope.scope.covered,
        refusals,
        answer,
        parts,
    )?;
    Ok(())
}

fn push_call(
    alloc: Global,
    p: &Program,
    trees: &mut Vec<StatementTree>,
    pos: Pos,
    written: bool,
    method: MethodId,
    arguments: Vec<ExpressionTyping>,
) -> Result<(), NoMemory>
    ensures { OnOk result (map statement_of trees.new.items ≡ map statement_of trees.old.items ++ Statement (forms.SuperCall method written) pos (trees_for p.now (Some method) (map typing_of arguments.items)) no_statement ∷ []) }
{
    let inner = Vec::new(alloc);
    let values = trees_for(alloc, p, Some(method), arguments)?;
    let shape = StatementShape::SuperCall(method, written);
    trees.push(statement_tree(shape, pos, values, inner))?;
    Ok(())
}

// Puts the call of the constructor at the end, where one is meant.
fn push_statement(
    alloc: Global,
    p: &Program,
    trees: &mut Vec<StatementTree>,
    pos: Pos,
    written: bool,
    method: Option<MethodId>,
    arguments: Vec<ExpressionTyping>,
) -> Result<(), NoMemory>
    ensures { OnOk result (map statement_of trees.new.items ≡ map statement_of trees.old.items ++ statement_of_call p.now pos written method (map typing_of arguments.items)) }
{
    match method {
        None => Ok(()),
        Some(found) => push_call(alloc, p, trees, pos, written, found, arguments),
    }
}

// A call that is typed.
fn typed_call(
    alloc: Global,
    scope: &BodyScope,
    refusals: &mut Vec<Refusal>,
    trees: &mut Vec<StatementTree>,
    call: &ConstructorCall,
) -> Result<(), NoMemory>
    ensures tree { OnOk result (map statement_of trees.new.items ≡ map statement_of trees.old.items ++ super_call_statements (surroundings_of scope.now) (super_call_in call.now)) }
    ensures cases { OnOk result (refusals.new.items ≡ refusals.old.items ++ typed_call_cases (surroundings_of scope.now) (super_call_in call.now)) }
{
    let pos = call.pos;
    let typings = arguments(alloc, scope, refusals, call.arguments)?;
    let answer = super_call_by(alloc, scope, pos, &typings)?;
    count_call(alloc, scope, refusals, answer)?;
    if is_made(scope) {
        let p = scope.scope.program;
        push_statement(
            alloc,
            p,
            trees,
            pos,
            call.written,
            method_in(answer),
            typings,
        )
    } else {
        Ok(())
    }
}

/// Puts the call at the end as a statement, and counts the refusals in it. A constructor whose super class is `Object` makes none,
/// also where one is written.
pub(crate) fn push_super_call(
    alloc: Global,
    scope: &BodyScope,
    refusals: &mut Vec<Refusal>,
    trees: &mut Vec<StatementTree>,
    call: &ConstructorCall,
) -> Result<(), NoMemory>
    ensures tree { OnOk result (map statement_of trees.new.items ≡ map statement_of trees.old.items ++ super_call_statements (surroundings_of scope.now) (super_call_in call.now)) }
    ensures cases { OnOk result (refusals.new.items ≡ refusals.old.items ++ super_call_cases (surroundings_of scope.now) (super_call_in call.now)) }
{
    if call.written || is_made(scope) {
        typed_call(alloc, scope, refusals, trees, call)
    } else {
        Ok(())
    }
}
