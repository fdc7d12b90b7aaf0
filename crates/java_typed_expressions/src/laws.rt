//! What holds of an expression that is accepted. Each law is the contract of a function that does nothing.

ghost use Rattle.std.specs.Prelude.{◌≡◌, Option, []};
ghost use Rattle.program_model.specs.declared.kinds.VType.{VType};
ghost use Rattle.java_syntax.specs.ExpressionTrees.{ExprTree};
ghost use Rattle.java_typed_trees.specs.WellFormed.{IsWellFormed};
ghost use Rattle.java_call_rules.specs.Surroundings.{Surroundings};
ghost use Rattle.java_typed_expressions.specs.Accepted.{GivesValue, HaveTypes};
ghost use Rattle.java_typed_expressions.specs.Cases.{cases, value_cases};
ghost use Rattle.java_typed_expressions.specs.Typings.{tree, value_facts};

/// The typed tree of an expression in which nothing is refused is well-formed: each expression in it is typed, and has the parts
/// that its shape takes.
pub fn accepted_is_well_formed()
    ensures { (s : Surroundings) → HaveTypes s.context.locals → (wanted : Option VType) (e : ExprTree) → cases s wanted e ≡ [] → IsWellFormed (tree s wanted e) }
{}

/// An expression in which nothing is refused where a value is needed gives a value of a type (JLS 15.3).
pub fn accepted_value_has_type()
    ensures { (s : Surroundings) → HaveTypes s.context.locals → (wanted : Option VType) (e : ExprTree) → value_cases s wanted e ≡ [] → GivesValue (value_facts s wanted e) }
{}
