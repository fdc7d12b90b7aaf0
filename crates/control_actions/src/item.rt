//! What is left of a body to run.

use crate::action::{Action, Completion, Scope};
use program_model::{ExprId, MethodId, StmtId};
use rlc_base::Pos;

/// A condition. An absent one, of a `for`, is true, and has the place of that statement.
#[derive(Clone, Copy, PartialEq, Eq)]
pub enum Condition {
    Of(ExprId),
    Absent(Pos),
}

/// The closing of a resource of a `try` statement (JLS 14.20.3.1).
#[derive(Clone, Copy, PartialEq, Eq)]
pub struct Closing {
    pub variable: u32,
    /// The `close()` that the resource's declared type names.
    pub close: MethodId,
    /// The place of the resource's name.
    pub pos: Pos,
    /// The `try` statement.
    pub statement: StmtId,
}

/// One item of what is left to run. A number of type `u32` that is named depth is that of the first temp which the item may
/// use. A list within an item is named by its number in the table of lists. The hash looks at no more than tells most items
/// apart: at a place, the number of a statement or an expression, or the lists that follow, and at no depth but that of a closing.
#[derive(Clone, Copy, PartialEq, Eq)]
#[derive_where(Hash)]
pub enum Item {
    /// A statement, at a depth.
    Do(StmtId, #[derive_where(skip(Hash))] u32),
    /// An expression, whose value goes into the temp of this depth.
    Ev(ExprId, #[derive_where(skip(Hash))] u32),
    /// An action, with its place: that of the statement or expression that gives it, or of a declared name, a resource's
    /// name or the word `super`.
    Act(#[derive_where(skip(Hash))] Action, Pos),
    /// A condition, at a depth, and the lists that follow where it is true and where it is false.
    Cond(#[derive_where(skip(Hash))] Condition, #[derive_where(skip(Hash))] u32, usize, usize),
    /// The value in the temp of this depth is tested for null, and the first list follows where it is. The place is that of
    /// the condition.
    NullFork(Pos, #[derive_where(skip(Hash))] u32, usize, usize),
    /// The value in the temp of this depth is tested, and the first list follows where it is true. The place is that of the
    /// condition.
    BoolFork(Pos, #[derive_where(skip(Hash))] u32, usize, usize),
    /// The end of a loop's body, where a `break` stops and a `continue` goes on.
    LoopEnd(StmtId, #[derive_where(skip(Hash))] u32),
    /// A `for` statement whose first part is done.
    For(StmtId, #[derive_where(skip(Hash))] u32),
    /// The end of a scope, with the place of its block or statement.
    Leave(#[derive_where(skip(Hash))] Scope, Pos),
    /// The catch clauses of a `try` statement.
    Catch(StmtId, #[derive_where(skip(Hash))] u32),
    /// A `finally` block.
    Fin(StmtId, #[derive_where(skip(Hash))] u32),
    /// The closing of a resource.
    Close(#[derive_where(skip(Hash))] Closing, u32),
    /// The completion that waits while a `finally` block runs, with the value in the temp of this depth, and the block.
    Finish(Completion, #[derive_where(skip(Hash))] u32, #[derive_where(skip(Hash))] StmtId),
    /// The completion that waits while a resource is closed, with the value in the temp of this depth, and the `try`
    /// statement.
    Supp(Completion, #[derive_where(skip(Hash))] u32, #[derive_where(skip(Hash))] StmtId),
    /// A completion on its way out.
    Out(Completion),
    /// The frame has ended.
    Ended,
}
