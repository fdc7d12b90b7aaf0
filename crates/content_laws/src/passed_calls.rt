//! Calls on aliases of the program. The law is the contract of a function that does nothing.

ghost use Rattle.std.specs.FinSet as set;
ghost use Rattle.std.specs.Prelude.{◌≡◌, ℕ, true, false, Some};
ghost use Rattle.rlc_base.specs.declared.name_id.NameId.{NameId};
ghost use Rattle.program_model.specs.declared.kinds.MethodId.{MethodId};
ghost use Rattle.program_model.specs.declared.program.Method.{Method};
ghost use Rattle.program_model.specs.declared.program.Program.{Program};
ghost use Rattle.program_model.specs.Lookups.{method_at};
ghost use Rattle.program_model.specs.SuperTests.{is_under};
ghost use Rattle.must_call_sets.specs.MustCallSets.{must_of};
ghost use Rattle.ledger_state.specs.Contents.{HeapContents};
ghost use Rattle.ledger_state.specs.Heaps.{object_at, root};
ghost use Rattle.ledger_state.specs.declared.object.Object.{Object};
ghost use Rattle.covering_laws.specs.Accept.{Accept};
ghost use Rattle.covering_laws.specs.Heaps.{HasEarlierLinks};
ghost use Rattle.covering_laws.specs.Linking.{LinkedAreAliases, LinksReachAliased};
ghost use Rattle.content_laws.specs.Passing.{PassesProgram};

/// A call that is noted on an object, and whose name goes on from there through an alias of the program, is none that must be made on the object at the
/// end of the links. (The one name of the alias's set does not go on: the alias's own method calls it on what its field holds.)
pub fn calls_are_made_behind()
    ensures { (p : Program) → Accept p → (h : HeapContents) → HasEarlierLinks h → LinkedAreAliases p h → LinksReachAliased p h → (m : MethodId) (d : Method) (n : NameId) → method_at p m ≡ Some d → d.sig.interest ≡ Some n
        → (k : ℕ) (x : Object) → object_at h k ≡ Some x → is_under p x.class d.class ≡ true → PassesProgram p h n k → (o : ℕ) (y : Object) → root h k ≡ o → object_at h o ≡ Some y → set.contains (must_of p y.class) n.0 ≡ false }
{}
