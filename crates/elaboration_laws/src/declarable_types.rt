//! What holds of a table and the names of its classes. The law is the contract of a function that does nothing.

ghost use Rattle.std.specs.Prelude.{List};
ghost use Rattle.program_model.specs.declared.program.Program.{Program};
ghost use Rattle.program_model.specs.Validity.{IsTypedProgram};
ghost use Rattle.class_names.specs.declared.class_name.ClassName.{ClassName};
ghost use Rattle.class_names.specs.Meanings.{CompilationUnit};
ghost use Rattle.java_typing_laws.specs.Scopes.{HasDeclarableTypes};
ghost use Rattle.java_typing_laws.specs.Tables.{HasFinalString};
ghost use Rattle.elaboration_laws.specs.NamedTables.{AreNamesOf};

/// In each compilation unit, types that are written may be declared in the table, and names of classes mean classes of it (JLS 4.1,
/// 6.4.1), where String is final.
pub fn named_table_has_declarable_types()
    ensures { (p : Program) → IsTypedProgram p → HasFinalString p → (classes : List ClassName) → AreNamesOf p classes → (u : CompilationUnit) → HasDeclarableTypes p classes u }
{}
