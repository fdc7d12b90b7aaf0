//! What a rule's answer makes of an expression: the refusals that it counts, and the typed tree.

ghost use Rattle.std.specs.Prelude.{◌≡◌, ◌++◌, OnOk, IfOk, map};
ghost use Rattle.java_typed_trees.specs.Answers.{as_value, facts_in, void_cases};
ghost use Rattle.java_typed_trees.specs.ExpressionTrees.{expressions, tree_of};
ghost use Rattle.java_typed_trees.specs.Settling.{own_cases, tree_in};

use crate::exceptions::{classes_thrown, count_undeclared};
use crate::facts::{Answer, Facts, StaticType, as_value, facts_in, type_of};
use crate::shapes::Shape;
use crate::trees::{ExpressionTree, TypedExpression, expression_tree};
use program_model::{ClassId, Program};
use rlc_base::{Code, NoMemory, Refusal};

// The typed tree over those of the parts.
fn tree_in(answer: Answer, parts: Vec<ExpressionTree>) -> ExpressionTree
    ensures { tree_of result ≡ tree_in answer (expressions (map tree_of parts.items)) }
{
    match answer {
        Answer::Is(shape, facts) => expression_tree(shape, type_of(facts), facts.pos, parts),
        Answer::Wrong(_, pos) => expression_tree(Shape::Erroneous, None, pos, parts),
        Answer::Silent(pos) => expression_tree(Shape::Erroneous, None, pos, parts),
    }
}

// Counts the refusals of an expression itself.
fn count_own(
    p: &Program,
    covered: &[ClassId],
    answer: Answer,
    refusals: &mut Vec<Refusal>,
) -> Result<(), NoMemory>
    ensures { OnOk result (refusals.new.items ≡ refusals.old.items ++ own_cases p.now covered.now answer) }
{
    match answer {
        Answer::Is(shape, facts) => {
            count_undeclared(p, covered, classes_thrown(p, shape), facts.pos, refusals)
        }
        Answer::Wrong(code, pos) => {
            refusals.push(Refusal { code, pos })?;
            Ok(())
        }
        Answer::Silent(_) => Ok(()),
    }
}

/// The expression of which a rule has given this answer, over its parts: the only call that counts the refusals of an
/// expression itself.
pub fn settle(
    p: &Program,
    covered: &[ClassId],
    refusals: &mut Vec<Refusal>,
    answer: Answer,
    parts: Vec<ExpressionTree>,
) -> Result<TypedExpression, NoMemory>
    ensures facts { IfOk result (λ r. r.facts ≡ facts_in answer) }
    ensures tree { IfOk result (λ r. tree_of r.tree ≡ tree_in answer (expressions (map tree_of parts.items))) }
    ensures cases { OnOk result (refusals.new.items ≡ refusals.old.items ++ own_cases p.now covered.now answer) }
{
    let tree = tree_in(answer, parts);
    count_own(p, covered, answer, refusals)?;
    let facts = facts_in(answer);
    Ok(TypedExpression { facts, tree })
}

// Counts the refusal of a call without a result where a value is needed.
fn count_void(facts: Facts, refusals: &mut Vec<Refusal>) -> Result<(), NoMemory>
    ensures { OnOk result (refusals.new.items ≡ refusals.old.items ++ void_cases facts) }
{
    if matches!(facts.static_type, StaticType::Void) {
        let code = Code::Mismatch;
        refusals.push(Refusal {
            code,
            pos: facts.pos,
        })?;
    }
    Ok(())
}

/// The expression where a value is needed: the call of a method without a result is refused there (JLS 15.1).
pub fn needed_value(
    typed: TypedExpression,
    refusals: &mut Vec<Refusal>,
) -> Result<TypedExpression, NoMemory>
    ensures facts { IfOk result (λ r. r.facts ≡ as_value typed.facts) }
    ensures tree { IfOk result (λ r. tree_of r.tree ≡ tree_of typed.tree) }
    ensures cases { OnOk result (refusals.new.items ≡ refusals.old.items ++ void_cases typed.facts) }
{
    count_void(typed.facts, refusals)?;
    let facts = as_value(typed.facts);
    let tree = typed.tree;
    Ok(TypedExpression { facts, tree })
}
