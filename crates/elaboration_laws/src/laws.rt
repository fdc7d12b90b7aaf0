//! What holds of each table that is built. A law is the contract of a function that does nothing.

ghost use Rattle.std.specs.Prelude.{◌≡◌, ◌<◌, List, length, map};
ghost use Rattle.std.specs.List.{All};
ghost use Rattle.java_syntax.specs.declared.declaration_trees.Unit as tree;
ghost use Rattle.java_syntax.specs.declared.settings.Settings.{Settings};
ghost use Rattle.program_model.specs.declared.program.Class.{Class};
ghost use Rattle.program_model.specs.declared.program.Program.{Program};
ghost use Rattle.class_names.specs.ClassNames.{names_of};
ghost use Rattle.class_table.specs.Passes.{IsBuilt, classes_of};
ghost use Rattle.class_table.specs.Table.{IsTable};
ghost use Rattle.java_elaboration.specs.SourceClasses.{SourceClass, all_names, library_classes, source_classes};

/// The names of classes by which bodies are typed are those of the table, in class order.
pub fn names_are_those_of_the_table()
    ensures { (units stubs : List tree.Unit) (settings : Settings) (p : Program) → IsTable (classes_of units stubs settings) settings p → names_of (all_names p units) ≡ map (λ (k : Class). k.name) p.classes.items }
{}

/// The class of strings is one of the library, whose classes come first (JLS 4.3.3).
pub fn string_is_of_the_library()
    ensures { (units stubs : List tree.Unit) (settings : Settings) (p : Program) → IsBuilt (classes_of units stubs settings) settings p → p.core.string.0 < length (library_classes p) }
{}

/// No class of the source files is that of strings.
pub fn no_source_class_is_string()
    ensures { (units stubs : List tree.Unit) (settings : Settings) (p : Program) → IsBuilt (classes_of units stubs settings) settings p → All (λ (c : SourceClass). c.class' ≡ p.core.string → ⊥) (source_classes p units) }
{}
