// The typed program: classes, members and typed bodies, what makes one valid, and the relation of super types.
#![tactic(auto)]

mod hierarchy;
mod kinds;
mod lookups;
mod program;
mod tree;

pub use hierarchy::{is_ignored, under};
pub use kinds::{
    BinaryOperator, BodyId, ClassId, ElementType, ExprId, FieldId, Literal, MethodId, MethodKind,
    OperandType, Primitive, StmtId, Target, UnaryOperator, VType,
};
pub use program::{
    Class, CoreClasses, Field, Method, ParamSig, Program, Promise, RawAnno, RawArg, Sig,
};
pub use tree::{
    AssignmentTarget, BinaryExpression, Body, CallExpression, CallTarget, CatchClause, Declarator,
    ExpressionKind, ForInitial, ForLoop, NewObject, OperatorAssignment, Resource, StatementKind,
    SuperCall, TExpr, TStmt, TextPart, TryStatement, Var,
};
