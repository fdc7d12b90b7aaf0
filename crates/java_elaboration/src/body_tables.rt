//! Typed bodies, each laid into its two tables.

ghost use Rattle.std.specs.Prelude.{All, IfOk, map};
ghost use Rattle.std.specs.List.{AllZip};
ghost use Rattle.java_types.specs.TypedBodies.{typed_body_of};
ghost use Rattle.java_elaboration.specs.Elaborations.{HasWellFormedStatements, IsBodyOf};

use java_laying::lay_body;
use java_types::BodyTyping;
use program_model::Body;
use rlc_base::NoMemory;
use std::alloc::Global;
use tree_sizes::check_room;

// Lays a typed body into its two tables.
fn laid_body(alloc: Global, typing: BodyTyping) -> Result<Body, NoMemory>
    requires { HasWellFormedStatements (typed_body_of typing) }
    ensures { IfOk result (IsBodyOf (typed_body_of typing)) }
{
    let BodyTyping {
        method,
        variables,
        statements,
        end,
    } = typing;
    check_room(&statements)?;
    lay_body(alloc, method, variables, &statements, end)
}

/// Lays typed bodies, each into its two tables.
///
/// # Errors
///
/// Where memory runs out, for which a body of 1,000,000,000 nodes or more counts too.
pub fn laid_bodies(alloc: Global, typings: Vec<BodyTyping>) -> Result<Vec<Body>, NoMemory>
    requires { All HasWellFormedStatements (map typed_body_of typings.items) }
    ensures { IfOk result (λ v. AllZip IsBodyOf (map typed_body_of typings.items) v.items) }
{
    let mut bodies = Vec::new(alloc);
    for typing in typings {
        bodies.push(laid_body(alloc, typing)?)?;
    }
    Ok(bodies)
}
