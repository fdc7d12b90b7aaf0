//! The syntax of the subset: its trees, its grammar as a table with actions, the classes of tokens that it tells apart, and derivations.
#![tactic(auto)]

mod actions;
mod annotation_trees;
mod declaration_trees;
mod declarations;
mod expression_trees;
mod expressions;
mod names;
mod operators;
mod productions;
mod settings;
mod statement_trees;
mod statements;
mod surroundings;
mod symbols;
mod table;
mod tokens;
mod words;

pub use actions::{
    Action, AnnotationAction, DeclarationAction, ExpressionAction, StatementAction, TokenAction,
};
pub use annotation_trees::{Anno, AnnoArgument, AnnoValue, Modifier};
pub use declaration_trees::{
    ClassDecl, ConstructorBody, ConstructorDecl, FieldDecl, Import, Member, MethodDecl, Param,
    SuperCall, Unit,
};
pub use expression_trees::Expr;
pub use names::{Name, PrimitiveName, Typ, TypeName};
pub use operators::{InfixOperator, PrefixOperator, StepOperator};
pub use productions::{
    DeclarationProduction, ExpressionProduction, Production, StatementProduction,
};
pub use settings::Settings;
pub use statement_trees::{Block, Catch, ForStart, Local, Resource, Stmt, Variable};
pub use surroundings::{Modifiers, Owner};
pub use symbols::{Item, Symbol};
pub use table::body;
pub use tokens::{Event, Token};
pub use words::{Effect, Word};
