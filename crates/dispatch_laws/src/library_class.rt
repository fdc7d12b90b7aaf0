//! Of which classes objects are that no `new` of the program makes, and constants of the library. Each law is the contract of a function that
//! does nothing.

ghost use Rattle.std.specs.Prelude.{◌≡◌, ℕ, true, None, Some, List};
ghost use Rattle.program_model.specs.declared.kinds.ClassId.{ClassId};
ghost use Rattle.program_model.specs.declared.kinds.MethodId.{MethodId};
ghost use Rattle.program_model.specs.declared.kinds.MethodKind.TheVariants as methods;
ghost use Rattle.program_model.specs.declared.program.Method.{Method};
ghost use Rattle.program_model.specs.declared.program.Program.{Program};
ghost use Rattle.program_model.specs.Lookups.{method_at};
ghost use Rattle.agreement.specs.Accept.{Accept};
ghost use Rattle.agreement.specs.LibraryClasses.{GivesLibraryClasses, ThrowsMadeClasses};
ghost use Rattle.agreement.specs.PlainForms.{may_be_made};
ghost use Rattle.control_actions.specs.declared.action.Action.{Action};
ghost use Rattle.stub_conduct.specs.declared.choice.Choice.{Choice};
ghost use Rattle.ledger_state.specs.Contents.{HeapContents};
ghost use Rattle.ledger_state.specs.declared.array.ArrayObject.{ArrayObject};
ghost use Rattle.ledger_state.specs.declared.locals.Locals.{Locals};
ghost use Rattle.ledger_state.specs.declared.value.Value.{Value};
ghost use Rattle.agreement.specs.Obligations.{is_library_method};
ghost use Rattle.agreement.specs.Operations.{thrown_by_operation};
ghost use Rattle.agreement.specs.Conducts.{on_this, settled};
ghost use Rattle.dispatch_laws.specs.MadeClasses.{HasMadeClass};

/// By whatever choice, an object that a call of the library makes is of a class of which there may be objects, and so is an exception that the
/// call throws: each is of a class that the signature names, or of one of the library under it.
pub fn library_makes_made_classes()
    ensures { (p : Program) → GivesLibraryClasses p → ThrowsMadeClasses p → (h : HeapContents) (arrays : List ArrayObject) (m : MethodId) (choice : Choice) (at : ℕ → Value) (a : Action)
        → is_library_method p (method_at p m) ≡ true → HasMadeClass p (on_this a (settled p h arrays m choice at)) }
{}

/// An exception that an operator throws is of a class of which there may be objects (JLS 15.6).
pub fn operations_throw_made_classes()
    ensures { (p : Program) → ThrowsMadeClasses p → (h : HeapContents) (arrays : List ArrayObject) (l : Locals) (a : Action) (e : ClassId)
        → thrown_by_operation p h arrays l a ≡ Some e → may_be_made p e ≡ true }
{}

/// In an accepted program a constant of the library creates no obligation anew: no annotation may stand on it.
pub fn constants_create_nothing()
    ensures { (p : Program) → Accept p → (m : MethodId) (x : Method) → method_at p m ≡ Some x → x.kind ≡ methods.Constant → x.sig.reset ≡ None }
{}
