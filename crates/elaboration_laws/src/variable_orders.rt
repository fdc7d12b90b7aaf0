//! In which order the variables of bodies stand. Each law is the contract of a function that does nothing.

ghost use Rattle.std.specs.Prelude.{◌≡◌, List, Some, []};
ghost use Rattle.java_syntax.specs.declared.declaration_trees.Unit as tree;
ghost use Rattle.java_syntax.specs.declared.settings.Settings.{Settings};
ghost use Rattle.program_model.specs.declared.kinds.BodyId.{BodyId};
ghost use Rattle.program_model.specs.declared.program.Program.{Program};
ghost use Rattle.program_model.specs.declared.tree.Body.{Body};
ghost use Rattle.program_model.specs.Lookups.{body_at};
ghost use Rattle.program_model.specs.TextOrder.{declared_variables};
ghost use Rattle.program_model.specs.Validity.{IsOrderedBody};
ghost use Rattle.class_table.specs.Passes.{IsBuilt, classes_of};
ghost use Rattle.java_typed_trees.specs.StatementTrees.{StmtTrees};
ghost use Rattle.java_typing_laws.specs.Bodies.{IsLaid};
ghost use Rattle.java_elaboration.specs.ProgramCases.{program_cases, typed_program};
ghost use Rattle.java_elaboration.specs.Elaborations.{IsProgramOf};
ghost use Rattle.elaboration_laws.specs.DeclaredVariables.{variables_declared};

/// A body that is laid from typed statements declares the variables that these declare, in their order (JLS 14.4).
pub fn laid_variables_are_declared()
    ensures { (b : Body) (ts : StmtTrees) → IsLaid b ts → declared_variables b ≡ variables_declared ts }
{}

/// In the program of a built table and the bodies of its source files, in which nothing is refused, each body has its parts where they
/// should be: its variables are the parameters and then those that its statements declare, each once, in the order of the text
/// (JLS 8.4.1, 14.4); the super call that is due and the initialisers of fields come first (JLS 8.8.7, 12.5); and each `break` and
/// `continue` stands in a loop (JLS 14.15, 14.16).
pub fn elaborated_bodies_are_in_order()
    ensures { (units stubs : List tree.Unit) (settings : Settings) (p q : Program) → IsBuilt (classes_of units stubs settings) settings p → program_cases p units ≡ [] → IsProgramOf p (typed_program p units) q → (n : BodyId) (x : Body) → body_at q n ≡ Some x → IsOrderedBody q x }
{}
