//! Whether the tables of a body have room for typed statements.

ghost use Rattle.std.specs.Prelude.{◌<◌, OnOk, map};
ghost use Rattle.java_typed_trees.specs.StatementTrees.{statement_of, statements};
ghost use Rattle.java_laying.specs.StatementFlat.{expression_counts, statement_sizes};

use crate::statement_sizes::{expression_counts, statement_sizes};
use java_typed_trees::StatementTree;
use rlc_base::NoMemory;

/// How many nodes a table of a body may not have.
const TOO_MANY: u32 = 1000000000;

/// Looks whether the statements and the expressions in them are few enough for the two tables of a body.
///
/// # Errors
///
/// Where one of the tables would have 1,000,000,000 nodes or more, for which memory does not suffice.
pub fn check_room(trees: &[StatementTree]) -> Result<(), NoMemory>
    ensures statements { OnOk result (statement_sizes (statements (map statement_of trees.now)) < 1000000000) }
    ensures expressions { OnOk result (expression_counts (statements (map statement_of trees.now)) < 1000000000) }
{
    if statement_sizes(trees)? < TOO_MANY && expression_counts(trees)? < TOO_MANY {
        Ok(())
    } else {
        Err(NoMemory)
    }
}
