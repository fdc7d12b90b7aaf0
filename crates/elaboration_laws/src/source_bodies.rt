//! To which methods the bodies of the source files belong. Each law is the contract of a function that does nothing.

ghost use Rattle.std.specs.Prelude.{◌≡◌, All, Contains, List, Some, []};
ghost use Rattle.java_syntax.specs.declared.declaration_trees.Unit as tree;
ghost use Rattle.java_syntax.specs.declared.settings.Settings.{Settings};
ghost use Rattle.program_model.specs.declared.kinds.MethodId.{MethodId};
ghost use Rattle.program_model.specs.declared.program.Method.{Method};
ghost use Rattle.program_model.specs.Lookups.{method_at};
ghost use Rattle.program_model.specs.Validity.{IsTypedProgram, RunsBody};
ghost use Rattle.method_bodies.specs.MethodBodies.{body_cases};
ghost use Rattle.class_table.specs.Passes.{classes_of};
ghost use Rattle.class_table.specs.Table.{IsTable};
ghost use Rattle.java_elaboration.specs.SourceClassesMembers.{Environment};
ghost use Rattle.java_elaboration.specs.SourceClasses.{source_classes};
ghost use Rattle.java_elaboration.specs.Bodies.{all_bodies};
ghost use Rattle.elaboration_laws.specs.MethodNumbers.{AreDistinct, method_numbers};
ghost use Rattle.elaboration_laws.specs.SourceBodies.{IsSourceBody, source_declaration};

/// Each body of the source files is that of a method or constructor which the table has of its class, with as many parameters.
pub fn source_bodies_have_their_methods()
    ensures { (units stubs : List tree.Unit) (settings : Settings) (e : Environment) → IsTable (classes_of units stubs settings) settings e.program → All (IsSourceBody e.program (source_declaration e.program units)) (all_bodies e (source_classes e.program units)) }
{}

/// Where each method and constructor of the source files has a body exactly where it may, each body is that of a method of a program
/// class that is not abstract (JLS 8.4.7).
pub fn source_bodies_are_run()
    ensures { (units stubs : List tree.Unit) (settings : Settings) (e : Environment) → IsTable (classes_of units stubs settings) settings e.program → body_cases units ≡ [] → All (λ b. RunsBody e.program b.signature) (all_bodies e (source_classes e.program units)) }
{}

/// There each such method of the table has its body in the source files.
pub fn methods_have_source_bodies()
    ensures { (units stubs : List tree.Unit) (settings : Settings) (e : Environment) → IsTable (classes_of units stubs settings) settings e.program → IsTypedProgram e.program → body_cases units ≡ [] → (m : MethodId) (x : Method) → method_at e.program m ≡ Some x → RunsBody e.program x → Contains (method_numbers (all_bodies e (source_classes e.program units))) m.0 }
{}

/// No two bodies of the source files are of one method.
pub fn source_bodies_are_of_distinct_methods()
    ensures { (e : Environment) (units : List tree.Unit) → IsTypedProgram e.program → AreDistinct (method_numbers (all_bodies e (source_classes e.program units))) }
{}
