//! What holds of the exceptions by which frames end. Each law is the contract of a function that does nothing.

ghost use Rattle.std.specs.Prelude.{◌≡◌, true, false, Some};
ghost use Rattle.program_model.specs.declared.kinds.BodyId.{BodyId};
ghost use Rattle.program_model.specs.declared.kinds.ClassId.{ClassId};
ghost use Rattle.program_model.specs.declared.kinds.MethodId.{MethodId};
ghost use Rattle.program_model.specs.declared.program.Method.{Method};
ghost use Rattle.program_model.specs.declared.program.Program.{Program};
ghost use Rattle.program_model.specs.declared.tree.Body.{Body};
ghost use Rattle.program_model.specs.Hierarchy.{IsHierarchy, IsUnder};
ghost use Rattle.program_model.specs.Lookups.{body_at, method_at};
ghost use Rattle.program_model.specs.SuperTests.{is_under};
ghost use Rattle.program_model.specs.Validity.{IsTypedProgram};
ghost use Rattle.accepted_programs.specs.Accept.{Accept};
ghost use Rattle.accepted_programs.specs.Results.{throws_no_more};
ghost use Rattle.accepted_programs.specs.Conditions.{HasWholeLibrary};
ghost use Rattle.accepted_programs.specs.Coverage.{CoversItsExceptions, is_undeclared};
ghost use Rattle.accepted_programs.specs.Exceptions.{throws_clause};
ghost use Rattle.dispatch_laws.specs.PlainForms.{MayRun};
ghost use Rattle.exception_laws.specs.Ends.{EndsBy, LeavesCall};

/// Where the program covers its exceptions, each class by which an exception that ends a body is known is one of exceptions, and it is
/// unchecked or declared by the body's method (JLS 11.2).
pub fn body_ends_by_covered_exception()
    ensures exception { (p : Program) → IsTypedProgram p → CoversItsExceptions p → (n : BodyId) (b : Body) → body_at p n ≡ Some b → (c : ClassId) → EndsBy p n c → is_under p c p.core.throwable ≡ true }
    ensures covered { (p : Program) → IsTypedProgram p → CoversItsExceptions p → (n : BodyId) (b : Body) → body_at p n ≡ Some b → (c : ClassId) → EndsBy p n c → is_undeclared p (throws_clause p b.method) c ≡ false }
{}

/// An exception that is known by a class that the signature covers leaves a call that names the method by a class that its own class is
/// under: one of the throws clause, or a root of the unchecked exceptions.
pub fn covered_exception_leaves_call()
    ensures { (p : Program) → IsHierarchy p → (m : Method) (c : ClassId) → is_under p c p.core.throwable ≡ true → is_undeclared p m.sig.throws.items c ≡ false → (e : ClassId) → IsUnder p e c → LeavesCall p m e }
{}

/// What an overriding method covers, the overridden one covers (JLS 8.4.8.3).
pub fn overriding_method_covers()
    ensures { (p : Program) → IsHierarchy p → (x m : Method) → throws_no_more p x m ≡ true → (c : ClassId) → is_undeclared p x.sig.throws.items c ≡ false → is_undeclared p m.sig.throws.items c ≡ false }
{}

/// Where the program covers its exceptions, an exception that ends the body of a method leaves each call that names the method, or one
/// that it overrides: by a class for which the call has an edge, and never as if the call had ended normally. `c` is the class by which
/// the exception is known at the body's end, `e` its own.
pub fn program_exception_leaves_call()
    ensures { (p : Program) → IsTypedProgram p → CoversItsExceptions p → (n : BodyId) (b : Body) → body_at p n ≡ Some b → (x m : Method) → method_at p b.method ≡ Some x → throws_no_more p x m ≡ true → (c : ClassId) → EndsBy p n c → (e : ClassId) → IsUnder p e c → LeavesCall p m e }
{}

/// In an accepted program, whose library stands by itself, an exception that ends the body of a method leaves each call at which that
/// method may run (JLS 15.12.4.4): by a class for which the call has an edge, and never as if the call had ended normally. `c` is the
/// class by which the exception is known at the body's end, `e` its own.
pub fn accepted_program_exception_leaves_call()
    ensures { (p : Program) → Accept p → HasWholeLibrary p → (n : BodyId) (b : Body) → body_at p n ≡ Some b → (m : MethodId) (named : Method) → MayRun p m b.method → method_at p m ≡ Some named → (c : ClassId) → EndsBy p n c → (e : ClassId) → IsUnder p e c → LeavesCall p named e }
{}
