//! What holds of the program that a table is with the bodies of its source files. Each law is the contract of a function that does
//! nothing.

ghost use Rattle.std.specs.Prelude.{◌≡◌, List, []};
ghost use Rattle.java_syntax.specs.declared.declaration_trees.Unit as tree;
ghost use Rattle.java_syntax.specs.declared.settings.Settings.{Settings};
ghost use Rattle.program_model.specs.declared.program.Program.{Program};
ghost use Rattle.program_model.specs.Validity.{HasBodies, IsValid};
ghost use Rattle.method_bodies.specs.MethodBodies.{body_cases};
ghost use Rattle.class_table.specs.Passes.{IsBuilt, classes_of};
ghost use Rattle.java_elaboration.specs.ProgramCases.{program_cases, typed_program};
ghost use Rattle.java_elaboration.specs.Elaborations.{IsProgramOf};

/// The program of a built table and of the bodies of its source files, in which nothing is refused, is valid: its tables belong
/// together, its bodies are typed trees, and their parts stand where they should (JLS 8, 14, 15).
pub fn elaborated_program_is_valid()
    ensures { (units stubs : List tree.Unit) (settings : Settings) (p q : Program) → IsBuilt (classes_of units stubs settings) settings p → body_cases units ≡ [] → program_cases p units ≡ [] → IsProgramOf p (typed_program p units) q → IsValid q }
{}

/// In it each method of a program class that is not abstract has its body (JLS 8.4.7).
pub fn elaborated_program_has_bodies()
    ensures { (units stubs : List tree.Unit) (settings : Settings) (p q : Program) → IsBuilt (classes_of units stubs settings) settings p → body_cases units ≡ [] → IsProgramOf p (typed_program p units) q → HasBodies q }
{}
