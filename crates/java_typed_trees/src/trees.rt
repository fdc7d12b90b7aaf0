//! Typed expressions as trees.

ghost use Rattle.std.specs.Prelude.{◌≡◌, map};
ghost use Rattle.java_typed_trees.specs.ExpressionTrees.{Node, expressions, tree_of};

use crate::facts::Facts;
use crate::shapes::Shape;
use program_model::VType;
use rlc_base::Pos;

/// A typed expression with its parts.
#[derive(Drop)]
pub struct ExpressionTree {
    pub shape: Shape,
    /// None for a call of a method without a result, and for an expression without a type.
    pub vtype: Option<VType>,
    /// The place, as that of a typed expression of a body.
    pub pos: Pos,
    /// The parts, in the order of their evaluation.
    pub parts: Vec<ExpressionTree>,
}

/// What the typing of an expression gives: its facts, and its typed tree.
#[derive(Drop)]
pub struct TypedExpression {
    pub facts: Facts,
    pub tree: ExpressionTree,
}

/// The expression of this shape and type with these parts.
pub fn expression_tree(
    shape: Shape,
    vtype: Option<VType>,
    pos: Pos,
    parts: Vec<ExpressionTree>,
) -> ExpressionTree
    ensures { tree_of result ≡ Node shape vtype pos (expressions (map tree_of parts.items)) }
{
    ExpressionTree {
        shape,
        vtype,
        pos,
        parts,
    }
}
