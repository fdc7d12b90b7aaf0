//! Methods of one name and one parameter list. Each law is the contract of a function that does nothing.

ghost use Rattle.std.specs.Prelude.{◌≡◌, List, []};
ghost use Rattle.java_syntax.specs.declared.settings.Settings.{Settings};
ghost use Rattle.program_model.specs.declared.program.Program.{Program};
ghost use Rattle.program_reading.specs.ClassOrderDeclarations.{Declaration, class_names};
ghost use Rattle.program_reading.specs.DoubleMembers.{double_member_cases};
ghost use Rattle.program_reading.specs.Table.{IsTable};
ghost use Rattle.program_reading.specs.Programs.{Input, IsProgram};
ghost use Rattle.accepted_programs.specs.Conditions.{DeclaresOnce};

/// Where no member of a class is refused as double, no class of the table declares two methods of one signature (JLS 8.4.2).
pub fn table_declares_once()
    ensures { (order : List Declaration) (settings : Settings) (p : Program) → IsTable order settings p → double_member_cases (class_names order) order ≡ [] → DeclaresOnce p }
{}

/// No class of the program of files declares two methods of one signature.
pub fn read_program_declares_once()
    ensures { (input : Input) (p : Program) → IsProgram input p → DeclaresOnce p }
{}
