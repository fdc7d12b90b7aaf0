//! The library of a program stands by itself. Each law is the contract of a function that does nothing.

ghost use Rattle.std.specs.Prelude.{◌≡◌, true, false, Some, List, All};
ghost use Rattle.java_syntax.specs.declared.settings.Settings.{Settings};
ghost use Rattle.program_model.specs.declared.kinds.ClassId.{ClassId};
ghost use Rattle.program_model.specs.declared.kinds.MethodId.{MethodId};
ghost use Rattle.program_model.specs.declared.kinds.MethodKind.TheVariants as methods;
ghost use Rattle.program_model.specs.declared.kinds.VType.TheVariants as types;
ghost use Rattle.program_model.specs.declared.program.Method.{Method};
ghost use Rattle.program_model.specs.declared.program.Program.{Program};
ghost use Rattle.program_model.specs.Lookups.{method_at};
ghost use Rattle.program_model.specs.Overrides.{is_library};
ghost use Rattle.program_model.specs.SuperTests.{is_under};
ghost use Rattle.agreement.specs.AcceptedProgramsConditions.{HasWholeLibrary};
ghost use Rattle.agreement.specs.LibraryClasses.{HasLightTexts, language_exceptions};
ghost use Rattle.acceptance_laws.specs.ClassOrderDeclarations.{Declaration};
ghost use Rattle.acceptance_laws.specs.Passes.{IsBuilt};
ghost use Rattle.acceptance_laws.specs.Programs.{Input, IsProgram};

/// In a table that is built all classes above one of a stub are of stubs: a name in a stub means a class of a stub, and so is the
/// root of all classes (JLS 4.3.2, 8.1.4, 8.1.5).
pub fn table_has_whole_library()
    ensures { (order : List Declaration) (settings : Settings) (p : Program) → IsBuilt order settings p → HasWholeLibrary p }
{}

/// In the program of files all classes above one of a stub are of stubs.
pub fn read_program_has_whole_library()
    ensures { (input : Input) (p : Program) → IsProgram input p → HasWholeLibrary p }
{}

/// In the program of files the result of a method of the library, where it is of a class, is of a class of the library.
pub fn read_library_gives_its_classes()
    ensures { (input : Input) (p : Program) → IsProgram input p → (m : MethodId) (x : Method) (c : ClassId) → method_at p m ≡ Some x → is_library p x.class ≡ true
        → x.sig.result ≡ Some (types.Obj c) → is_library p c ≡ true }
{}

/// In the program of files the throws clause of a method of the library lists classes of the library.
pub fn read_library_throws_its_classes()
    ensures { (input : Input) (p : Program) → IsProgram input p → (m : MethodId) (x : Method) → method_at p m ≡ Some x → is_library p x.class ≡ true
        → All (λ c. is_library p c ≡ true) x.sig.throws.items }
{}

/// In the program of files the root of all classes and the class of strings are of the library (JLS 4.3.2, 4.3.3).
pub fn read_roots_are_library()
    ensures { (input : Input) (p : Program) → IsProgram input p → (is_library p p.core.object ≡ true) × (is_library p p.core.string ≡ true) }
{}

/// In the program of files the exceptions that the language itself throws are of the library (JLS 11.1.1, 15.6).
pub fn read_exceptions_are_library()
    ensures { (input : Input) (p : Program) → IsProgram input p → All (λ c. is_library p c ≡ true) (language_exceptions p.core) }
{}

/// In the program of files the class of strings is no class of exceptions (JLS 4.3.3, 11.1.1).
pub fn read_string_is_no_exception()
    ensures { (input : Input) (p : Program) → IsProgram input p → is_under p p.core.string p.core.throwable ≡ false }
{}

/// In the program of files constants are declared by classes of the library: a static field of a source is a field.
pub fn read_constants_are_library()
    ensures { (input : Input) (p : Program) → IsProgram input p → (m : MethodId) (x : Method) → method_at p m ≡ Some x → x.kind ≡ methods.Constant → is_library p x.class ≡ true }
{}

/// In the program of files the class of strings has no obligation, by itself or from above, nothing but `Object` is above it, none of its constructors makes an
/// alias of an argument, and none of its methods creates its obligation anew: the rules on signatures refuse a library that says otherwise.
pub fn read_texts_are_light()
    ensures { (input : Input) (p : Program) → IsProgram input p → HasLightTexts p }
{}
