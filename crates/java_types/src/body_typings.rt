//! Bodies with their typed statements.

ghost use Rattle.std.specs.Prelude.{◌≡◌, ◌++◌, IfOk, OnOk, map};
ghost use Rattle.source_classes.specs.Members.{environment_in};
ghost use Rattle.java_bodies.specs.Bodies.{body_cases, source_body_of};
ghost use Rattle.java_types.specs.ProgramCases.{bodies_cases};
ghost use Rattle.java_types.specs.TypedBodies.{typed_bodies, typed_body, typed_body_of};

use java_bodies::{DeclaredBody, body_statements, variable_table};
use java_typed_trees::StatementTree;
use program_model::{MethodId, Var};
use rlc_base::{NoMemory, Pos, Refusal};
use source_classes::ProgramScope;
use std::alloc::Global;

/// A body before it is laid into its tables.
#[derive(Drop)]
pub struct BodyTyping {
    /// The method or constructor that it is of.
    pub method: MethodId,
    /// Its variables, in the order of the text.
    pub variables: Vec<Var>,
    /// Its typed statements.
    pub statements: Vec<StatementTree>,
    /// The place of the closing brace, and that of the constructor where none is written.
    pub end: Pos,
}

// The typing of a body. The refusals in it come behind those that are counted already.
fn body_typing(
    alloc: Global,
    scope: &ProgramScope,
    b: &DeclaredBody,
    refusals: &mut Vec<Refusal>,
) -> Result<BodyTyping, NoMemory>
    ensures typed { IfOk result (λ t. typed_body_of t ≡ typed_body (environment_in scope.now) (source_body_of b.now)) }
    ensures cases { OnOk result (refusals.new.items ≡ refusals.old.items ++ body_cases (environment_in scope.now) (source_body_of b.now)) }
{
    let variables = variable_table(alloc, scope, b)?;
    match body_statements(alloc, scope, b, refusals) {
        Ok(statements) => Ok(BodyTyping {
            method: b.method,
            variables,
            statements,
            end: b.body.end,
        }),
        Err(error) => Err(error),
    }
}

/// The typings of bodies, in their order. The refusals in them come behind those that are counted already.
pub(crate) fn body_typings(
    alloc: Global,
    scope: &ProgramScope,
    bodies: &[DeclaredBody],
    refusals: &mut Vec<Refusal>,
) -> Result<Vec<BodyTyping>, NoMemory>
    ensures typed { IfOk result (λ v. map typed_body_of v.items ≡ typed_bodies (environment_in scope.now) (map source_body_of bodies.now)) }
    ensures cases { OnOk result (refusals.new.items ≡ refusals.old.items ++ bodies_cases (environment_in scope.now) (map source_body_of bodies.now)) }
{
    let mut all = Vec::new(alloc);
    for b in bodies {
        all.push(body_typing(alloc, scope, b, refusals)?)?;
    }
    Ok(all)
}
