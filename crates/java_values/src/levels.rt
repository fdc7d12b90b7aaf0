ghost use Rattle.std.specs.Prelude.{◌≡◌, IfOk};
ghost use Rattle.java_values.specs.declared.levels.BuildFail.TheVariants as fails;
ghost use Rattle.java_values.specs.Outcomes.{Gives};
ghost use Rattle.java_values.specs.Outcomes as outcomes;

use java_syntax::Expr;
use rlc_base::{NoMemory, Pos};
use std::alloc::{AllocError, AllocFailed, Global};
use thiserror::Error;

/// Why no value was built.
#[derive(Clone, Copy, Debug, Error)]
pub enum BuildFail {
    /// The node at this place would stand deeper than the limit.
    #[error("too deep: {0:?}")]
    TooDeep(Pos),
    /// Memory ran out.
    #[error("out of memory")]
    NoMemory,
}

impl From<AllocError> for BuildFail {
    ghost from_gives = { λ _ fail. fail ≡ fails.NoMemory };

    fn from(_error: AllocError) -> BuildFail {
        BuildFail::NoMemory
    }
}

impl<T: Drop> From<AllocFailed<T>> for BuildFail {
    ghost from_gives = { λ _ fail. fail ≡ fails.NoMemory };

    fn from(_error: AllocFailed<T>) -> BuildFail {
        BuildFail::NoMemory
    }
}

impl From<NoMemory> for BuildFail {
    ghost from_gives = { λ _ fail. fail ≡ fails.NoMemory };

    fn from(_error: NoMemory) -> BuildFail {
        BuildFail::NoMemory
    }
}

/// One more than the depth, which is the depth of a node whose parts are at most so deep.
///
/// # Errors
///
/// `TooDeep` with this place where the depth is not below the limit.
pub fn deeper(limit: u32, depth: u32, pos: Pos) -> Result<u32, BuildFail>
    ensures { Gives (λ d. d) result (outcomes.deeper limit depth) }
{
    if depth < limit {
        Ok(depth + 1)
    } else {
        Err(BuildFail::TooDeep(pos))
    }
}

/// The tree in a box.
pub fn boxed<T: Drop>(alloc: Global, tree: T) -> Result<Box<T>, NoMemory>
    ensures { IfOk result (λ part. part.value ≡ tree) }
{
    Ok(Box::new(alloc, tree)?)
}

/// The place of an expression.
pub fn place_of(e: &Expr) -> Pos {
    match e {
        Expr::Literal { pos, .. } => *pos,
        Expr::Identifier { pos, .. } => *pos,
        Expr::This { pos } => *pos,
        Expr::Call { pos, .. } => *pos,
        Expr::SuperCall { pos, .. } => *pos,
        Expr::MethodCall { pos, .. } => *pos,
        Expr::FieldAccess { pos, .. } => *pos,
        Expr::Index { pos, .. } => *pos,
        Expr::NewObject { pos, .. } => *pos,
        Expr::NewArray { pos, .. } => *pos,
        Expr::Prefix { pos, .. } => *pos,
        Expr::PrefixStep { pos, .. } => *pos,
        Expr::PostfixStep { pos, .. } => *pos,
        Expr::Cast { pos, .. } => *pos,
        Expr::Infix { pos, .. } => *pos,
        Expr::InstanceOf { pos, .. } => *pos,
        Expr::Conditional { pos, .. } => *pos,
        Expr::Assignment { pos, .. } => *pos,
        Expr::CompoundAssignment { pos, .. } => *pos,
    }
}
