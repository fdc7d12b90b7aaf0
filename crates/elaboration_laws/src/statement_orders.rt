//! What holds of the bodies of an elaborated program. The law is the contract of a function that does nothing.

ghost use Rattle.std.specs.Prelude.{◌≡◌, List, []};
ghost use Rattle.java_syntax.specs.declared.declaration_trees.Unit as tree;
ghost use Rattle.java_syntax.specs.declared.settings.Settings.{Settings};
ghost use Rattle.program_model.specs.declared.program.Program.{Program};
ghost use Rattle.class_table.specs.Passes.{IsBuilt, classes_of};
ghost use Rattle.java_elaboration.specs.ProgramCases.{program_cases, typed_program};
ghost use Rattle.java_elaboration.specs.Elaborations.{IsProgramOf};
ghost use Rattle.elaboration_laws.specs.ElaboratedOrders.{AreOrderedBodies};

/// In the program of a built table and the bodies of its source files, in which nothing is refused, the statements of each body are
/// in order: a constructor begins with the super call that is due and the initialisers of its class's fields, all constructors of a
/// class with the same ones (JLS 8.8.7, 12.5), and each `break` and `continue` stands in a loop (JLS 14.15, 14.16).
pub fn elaborated_bodies_are_ordered()
    ensures { (units stubs : List tree.Unit) (settings : Settings) (p q : Program) → IsBuilt (classes_of units stubs settings) settings p → program_cases p units ≡ [] → IsProgramOf p (typed_program p units) q → AreOrderedBodies q }
{}
