//! The table of a body's variables.

ghost use Rattle.std.specs.Prelude.{◌≡◌, IfOk, map};
ghost use Rattle.java_syntax.specs.StatementTrees.{statements, stmt_of};
ghost use Rattle.java_statement_rules.specs.Surroundings.{surroundings_of};
ghost use Rattle.body_variables.specs.BodyVariables.{body_variables};
ghost use Rattle.body_variables.specs.Declarations.{variable_in};

use crate::declarations::push_parameters;
use crate::statement_variables::push_statements;
use java_statement_rules::BodyScope;
use java_syntax::{Param, Stmt};
use program_model::{ParamSig, Var};
use rlc_base::NoMemory;
use std::alloc::Global;

/// The variables of a body in the order of the text: its parameters, which have the types of the signature, and those that its
/// statements declare (JLS 4.12.3). One whose type is refused is left out.
///
/// # Errors
///
/// Memory may run out.
pub fn variables_of_body(
    alloc: Global,
    scope: &BodyScope,
    parameters: &[Param],
    signature: &[ParamSig],
    all: &[Stmt],
) -> Result<Vec<Var>, NoMemory>
    ensures { IfOk result (λ v. map variable_in v.items ≡ body_variables (surroundings_of scope.now) parameters.now signature.now (statements (map stmt_of all.now))) }
{
    let mut made = Vec::new(alloc);
    push_parameters(alloc, &mut made, parameters, signature)?;
    push_statements(alloc, scope, &mut made, all)?;
    Ok(made)
}
