//! The variables of a body.

ghost use Rattle.std.specs.Prelude.{◌≡◌, IfOk, map};
ghost use Rattle.body_variables.specs.Declarations.{variable_in};
ghost use Rattle.field_initializers.specs.SourceClassesMembers.{environment_in};
ghost use Rattle.declared_bodies.specs.Bodies.{body_variables_in, source_body_of};

use crate::declared_bodies::DeclaredBody;
use body_variables::variables_of_body;
use field_initializers::{ProgramScope, surroundings_in};
use program_model::Var;
use rlc_base::NoMemory;
use std::alloc::Global;

/// The table of the body's variables, in the order of the text. One whose type is refused is left out.
///
/// # Errors
///
/// Memory may run out.
pub fn variable_table(
    alloc: Global,
    scope: &ProgramScope,
    b: &DeclaredBody,
) -> Result<Vec<Var>, NoMemory>
    ensures { IfOk result (λ v. map variable_in v.items ≡ body_variables_in (environment_in scope.now) (source_body_of b.now)) }
{
    let inner = surroundings_in(scope, &b.class, false, None, &[], &[]);
    let written = &b.body;
    let signature = &b.signature.sig.params;
    variables_of_body(
        alloc,
        &inner,
        written.parameters,
        signature,
        written.statements,
    )
}
