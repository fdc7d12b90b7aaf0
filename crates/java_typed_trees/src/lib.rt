//! What the typing of expressions and statements speaks of: the facts of an expression, what a rule answers, the scope of
//! a name, and the typed trees that are made.
#![tactic(auto)]

mod exceptions;
mod facts;
mod scope;
mod settling;
mod shapes;
mod statements;
mod trees;

pub use exceptions::{classes_thrown, count_undeclared, is_checked, is_undeclared, thrown_by};
pub use facts::{
    Answer, Facts, StaticType, as_value, constant_at, erroneous, facts_in, mismatch, type_of,
    value_at,
};
pub use scope::{Local, NameMeaning, Scope, Variable, local_named, meaning_of};
pub use settling::{needed_value, settle};
pub use shapes::{CallShape, Shape, TargetShape};
pub use statements::{
    CatchShape, DeclaratorShape, ForShape, InitialShape, ResourceShape, StatementShape,
    StatementTree, TryShape, statement_tree,
};
pub use trees::{ExpressionTree, TypedExpression, expression_tree};
