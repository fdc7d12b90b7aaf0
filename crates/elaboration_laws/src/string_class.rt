//! Laws of the class of strings. A law is the contract of a function that does nothing.

ghost use Rattle.std.specs.Prelude.{◌≡◌, List};
ghost use Rattle.std.specs.List.{All};
ghost use Rattle.java_syntax.specs.declared.declaration_trees.Unit as tree;
ghost use Rattle.java_syntax.specs.declared.settings.Settings.{Settings};
ghost use Rattle.program_model.specs.declared.program.Program.{Program};
ghost use Rattle.class_table.specs.Passes.{IsBuilt, classes_of};
ghost use Rattle.java_elaboration.specs.SourceClassesMembers.{Environment};
ghost use Rattle.java_elaboration.specs.SourceClasses.{source_classes};
ghost use Rattle.java_elaboration.specs.Bodies.{SourceBody, all_bodies};
ghost use Rattle.java_typing_laws.specs.Tables.{HasFinalString};

/// In a table that is built no class is under that of strings but itself, and it is no class of exceptions (JLS 4.3.3, 8.1.1.2,
/// 11.1.1).
pub fn built_table_has_final_string()
    ensures { (units stubs : List tree.Unit) (settings : Settings) (p : Program) → IsBuilt (classes_of units stubs settings) settings p → HasFinalString p }
{}

/// No body of the source files is one of the class of strings.
pub fn no_source_body_is_of_string()
    ensures { (units stubs : List tree.Unit) (settings : Settings) (e : Environment) → IsBuilt (classes_of units stubs settings) settings e.program → All (λ (b : SourceBody). b.class'.class' ≡ e.program.core.string → ⊥) (all_bodies e (source_classes e.program units)) }
{}
