//! What holds of typed trees and of the bodies that are laid from them. Each law is the contract of a function that does nothing.

ghost use Rattle.std.specs.Prelude.{◌≡◌, List, Option, Some, true};
ghost use Rattle.program_model.specs.Lookups.{expression_at, method_at, type_at};
ghost use Rattle.program_model.specs.Typing.{IsTypedExpression};
ghost use Rattle.program_model.specs.declared.kinds.MethodId.{MethodId};
ghost use Rattle.program_model.specs.declared.program.Method.{Method};
ghost use Rattle.program_model.specs.declared.program.ParamSig.{ParamSig};
ghost use Rattle.program_model.specs.declared.program.Program.{Program};
ghost use Rattle.program_model.specs.declared.kinds.ClassId.{ClassId};
ghost use Rattle.program_model.specs.declared.kinds.ExprId.{ExprId};
ghost use Rattle.program_model.specs.declared.kinds.VType.{VType};
ghost use Rattle.program_model.specs.declared.tree.Body.{Body};
ghost use Rattle.program_model.specs.declared.tree.TExpr.{TExpr};
ghost use Rattle.program_model.specs.declared.tree.Var.{Var};
ghost use Rattle.java_syntax.specs.ExpressionTrees.{ExprTree, ExprTrees};
ghost use Rattle.java_typed_trees.specs.Answers.{type_of};
ghost use Rattle.java_typed_trees.specs.StatementTrees.{StmtTrees};
ghost use Rattle.java_call_rules.specs.Surroundings.{Surroundings};
ghost use Rattle.java_statement_parts.specs.Typings.{tree, typings, value_facts};
ghost use Rattle.java_call_rules.specs.Arguments.{argument_types, takes_values};
ghost use Rattle.java_call_rules.specs.CallParts.{trees_for};
ghost use Rattle.java_call_rules.specs.TypedParts.{have_types};
ghost use Rattle.java_laying.specs.Cells.{cells_of};
ghost use Rattle.java_laying.specs.Forest.{StandAt, StandsAt};
ghost use Rattle.java_typing_laws.specs.LaidParts.{AreTypedArguments, ArePassedTo, TypedTree, TypedTrees};
ghost use Rattle.java_laying.specs.Bodies.{IsLaid};
ghost use Rattle.java_typing_laws.specs.StatementExpressions.{HaveTypedTrees};
ghost use Rattle.java_typing_laws.specs.TypedTrees.{AreArguments, IsTypedTree, part_of, parts_in};
ghost use Rattle.java_typing_laws.specs.TypingContexts.{IfDeclarable, IsBodyIn, IsInBody, TypingContext, context_with};

/// In the typed tree of an expression, each expression has the type that its parts give it, but for those that are refused
/// (JLS 15).
pub fn typing_is_typed()
    ensures { (s : Surroundings) (variables : List Var) (owner : Option ClassId) → IsInBody s variables owner → (wanted : Option VType) → IfDeclarable s.context.program wanted → (e : ExprTree) → IsTypedTree (context_with s variables owner) (tree s wanted e) }
{}

/// Where the statements of which a body is laid have typed trees, each expression of the body is typed.
pub fn laid_expressions_are_typed()
    ensures { (c : TypingContext) (b : Body) (ts : StmtTrees) → IsBodyIn c b → IsLaid b ts → HaveTypedTrees c ts → (e : ExprId) (x : TExpr) → expression_at b e ≡ Some x → IsTypedExpression c.program b x }
{}

/// The typed tree of an expression has the type that the expression gives where a value is needed.
pub fn typing_gives_its_type()
    ensures { (s : Surroundings) (variables : List Var) (owner : Option ClassId) → IsInBody s variables owner → (wanted : Option VType) → IfDeclarable s.context.program wanted → (e : ExprTree) → (part_of (tree s wanted e)).vtype ≡ type_of (value_facts s wanted e) }
{}

/// The arguments of a call, of an instance creation or of a super call, in the contexts of the parameters of a method that takes
/// them, are typed and fit the parameters (JLS 15.12.2.2).
pub fn arguments_are_passed()
    ensures { (s : Surroundings) (variables : List Var) (owner : Option ClassId) → IsInBody s variables owner → (m : MethodId) (x : Method) → method_at s.context.program m ≡ Some x → (es : ExprTrees) → have_types (typings s es) ≡ true → takes_values s.context.program (argument_types (typings s es)) (Some x) ≡ true → ArePassedTo (context_with s variables owner) x.sig.params.items (trees_for s.context.program (Some m) (typings s es)) }
{}

/// Where a tree stands in the table of a body, the expression has the tree's type.
pub fn laid_type_is_kept()
    ensures { (b : Body) (e : ExprId) (t : TypedTree) → StandsAt (cells_of b.expressions.items) e t → type_at b e ≡ (part_of t).vtype }
{}

/// Where trees that fit parameters stand in the table of a body, the expressions are arguments for these.
pub fn laid_arguments_fit()
    ensures { (p : Program) (b : Body) (es : List ExprId) (ts : TypedTrees) (params : List ParamSig) → StandAt (cells_of b.expressions.items) es ts → AreArguments p (parts_in ts) params → AreTypedArguments p b es params }
{}
