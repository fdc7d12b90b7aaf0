//! Objects over a call of the library, of a signature without a reset. Each law is the contract of a function that does nothing.

ghost use Rattle.std.specs.Prelude.{◌≡◌, ◌⊎◌, ℕ, ◌+◌, ◌<◌, true, false, Option, Some, None, slice_get};
ghost use Rattle.std.specs.List.{list_any};
ghost use Rattle.std.specs.FinSet as set;
ghost use Rattle.rlc_base.specs.declared.place.Pos.{Pos};
ghost use Rattle.program_model.specs.declared.kinds.ClassId.{ClassId};
ghost use Rattle.program_model.specs.declared.kinds.FieldId.{FieldId};
ghost use Rattle.program_model.specs.declared.kinds.Target.TheVariants as promised;
ghost use Rattle.program_model.specs.declared.program.Method.{Method};
ghost use Rattle.program_model.specs.declared.program.ParamSig.{ParamSig};
ghost use Rattle.program_model.specs.declared.program.Program.{Program};
ghost use Rattle.program_model.specs.declared.program.Promise.{Promise};
ghost use Rattle.control_actions.specs.declared.action.Action.{Action};
ghost use Rattle.stub_conduct.specs.declared.choice.Conduct.{Conduct};
ghost use Rattle.ledger_state.specs.Contents.{HeapContents};
ghost use Rattle.ledger_state.specs.Fields.{field_of};
ghost use Rattle.ledger_state.specs.Heaps.{next_number, object_at, root_of};
ghost use Rattle.ledger_state.specs.Values.{number_of};
ghost use Rattle.ledger_state.specs.declared.entry.Owner.TheVariants as owners;
ghost use Rattle.ledger_state.specs.declared.locals.Locals.{Locals};
ghost use Rattle.ledger_state.specs.declared.object.Object.{Object};
ghost use Rattle.ledger_state.specs.declared.value.Value.TheVariants as values;
ghost use Rattle.ledger_obligations.specs.declared.note.Note.{Note};
ghost use Rattle.ledger_obligations.specs.Obligations.{has_note, may_move};
ghost use Rattle.ledger_steps.specs.LedgerCallsCalls.{alias_position, operand_of, params_in, receiver_note, reset_position};
ghost use Rattle.ledger_steps.specs.Conducts.{promises_by};
ghost use Rattle.ledger_steps.specs.CallSteps.{library_entries, library_heap};
ghost use Rattle.ledger_steps.specs.InnerSteps.{thrown_heap};
ghost use Rattle.ledger_state.specs.Leaks.{is_leak};
ghost use Rattle.heap_laws.specs.Heaps.{Evolves, HasEarlierLinks, IsOlder};
ghost use Rattle.heap_laws.specs.Leading.{Leads, is_passed_on};
ghost use Rattle.heap_laws.specs.LibraryCalls.{HasSmallInterest, IsAliasMadeAs, IsMadeAs};

/// After a call of a signature without an alias each object is one that was there before, with its owner or given to the library, or the
/// one that the call made.
pub fn library_objects_are_older_or_made()
    ensures { (p : Program) (l : Locals) (a : Action) (named m : Option Method) (d : Conduct) (i : ℕ) (h : HeapContents) (n : ℕ) (y : Object)
        → reset_position named ≡ None → alias_position m ≡ None → object_at (library_heap p l a named m d i h) n ≡ Some y
        → IsOlder h n y owners.Library ⊎ ((n ≡ next_number h) × IsMadeAs p a m i d y) }
{}

/// The same of a signature with an aliased argument: the result is an alias of it.
pub fn library_aliases_are_older_or_made()
    ensures { (p : Program) (l : Locals) (a : Action) (named m : Option Method) (d : Conduct) (i : ℕ) (h : HeapContents) (n k : ℕ) (y : Object)
        → reset_position named ≡ None → alias_position m ≡ Some k → object_at (library_heap p l a named m d i h) n ≡ Some y
        → IsOlder h n y owners.Library ⊎ ((n ≡ next_number h) × IsAliasMadeAs l a k d y) }
{}

/// Each object goes on over the call.
pub fn library_objects_go_on()
    ensures { (p : Program) (l : Locals) (a : Action) (named m : Option Method) (d : Conduct) (i : ℕ) (h : HeapContents) → reset_position named ≡ None
        → Evolves h (library_heap p l a named m d i h) }
{}

/// Links lead to earlier objects still, where the aliased argument is an object that is there.
pub fn library_links_stay()
    ensures { (p : Program) (l : Locals) (a : Action) (named m : Option Method) (d : Conduct) (i : ℕ) (h : HeapContents) → HasEarlierLinks h → reset_position named ≡ None
        → ((k w : ℕ) → alias_position m ≡ Some k → number_of (operand_of l a k) ≡ Some w → (0 < w) × (w < next_number h)) → HasEarlierLinks (library_heap p l a named m d i h) }
{}

/// The root of an owning argument that may move is the library's after the call.
pub fn given_arguments_stay_given()
    ensures { (p : Program) (l : Locals) (a : Action) (named m : Option Method) (d : Conduct) (i j : ℕ) (q : ParamSig) (h : HeapContents) (n : ℕ) (x y : Object)
        → reset_position named ≡ None → slice_get (params_in named) j ≡ Some q → q.owning ≡ true → root_of h (operand_of l a (1 + j)) ≡ Some n
        → object_at h n ≡ Some x → may_move p q.vtype x ≡ true → object_at (library_heap p l a named m d i h) n ≡ Some y → y.owner ≡ owners.Library }
{}

/// A call without arguments, whose name goes on from its receiver, has been called on the object to which the receiver's links lead.
pub fn receiver_is_called()
    ensures { (p : Program) (l : Locals) (a : Action) (named m : Option Method) (d : Conduct) (i : ℕ) (h : HeapContents) (note : Note) (r : ℕ) (x y : Object)
        → HasEarlierLinks h → HasSmallInterest named → reset_position named ≡ None → has_note (receiver_note l a named) note ≡ true → object_at h note.object ≡ Some x
        → is_passed_on p note x ≡ true → Leads p h note.object r → object_at (library_heap p l a named m d i h) r ≡ Some y → set.contains y.called note.name.0 ≡ true }
{}

/// What the signature promises of an operand, as the call ends, was called on the object to which the operand's links lead; and what it promises of a
/// field of the receiver, on that to which those of what the field held lead. The table of names has 128 names at most.
pub fn promised_names_are_called()
    ensures position { (p : Program) (l : Locals) (a : Action) (named m : Option Method) (d : Conduct) (i : ℕ) (h : HeapContents) (j : ℕ) (q : Promise) (k n o : ℕ) (x y : Object)
        → HasEarlierLinks h → HasSmallInterest named → reset_position named ≡ None → slice_get (promises_by m d) j ≡ Some q → q.target ≡ promised.At k → set.contains q.names n ≡ true
        → n < 128 → root_of h (operand_of l a k) ≡ Some o → object_at h o ≡ Some x → ((w : ℕ) → operand_of l a k ≡ values.Object w → Leads p h w o)
        → object_at (library_heap p l a named m d i h) o ≡ Some y → set.contains y.called n ≡ true }
    ensures field { (p : Program) (l : Locals) (a : Action) (named m : Option Method) (d : Conduct) (i : ℕ) (h : HeapContents) (j : ℕ) (q : Promise) (f : FieldId) (n o : ℕ) (x y : Object)
        → HasEarlierLinks h → HasSmallInterest named → reset_position named ≡ None → slice_get (promises_by m d) j ≡ Some q → q.target ≡ promised.OfField f → set.contains q.names n ≡ true
        → n < 128 → root_of h (field_of p h (operand_of l a 0) f) ≡ Some o → object_at h o ≡ Some x
        → ((w : ℕ) → field_of p h (operand_of l a 0) f ≡ values.Object w → Leads p h w o) → object_at (library_heap p l a named m d i h) o ≡ Some y → set.contains y.called n ≡ true }
{}

/// The lines of a call of the library are no leaks.
pub fn library_calls_leak_nothing()
    ensures { (p : Program) (pos : Pos) (l : Locals) (a : Action) (named m : Option Method) (d : Conduct) (i : ℕ) (h : HeapContents)
        → list_any is_leak (library_entries p pos l a named m d i h) ≡ false }
{}

/// An exception that an operation throws is one object more, which is of its class and the library's.
pub fn exceptions_are_the_librarys()
    ensures { (p : Program) (e : Option ClassId) (h : HeapContents) (n : ℕ) (y : Object) → object_at (thrown_heap p e h) n ≡ Some y
        → (object_at h n ≡ Some y) ⊎ ((n ≡ next_number h) × (y.owner ≡ owners.Library) × (y.link ≡ None) × (e ≡ Some y.class)) }
{}

/// Nobody owns an object that is not finished, where that was so before the call, or before an operation throws.
pub fn unfinished_objects_stay_unowned()
    ensures call { (p : Program) (l : Locals) (a : Action) (named m : Option Method) (d : Conduct) (i : ℕ) (h : HeapContents) (n : ℕ) (y : Object) → reset_position named ≡ None
        → ((k : ℕ) (x : Object) → object_at h k ≡ Some x → x.finished ≡ false → x.owner ≡ owners.Unowned)
        → object_at (library_heap p l a named m d i h) n ≡ Some y → y.finished ≡ false → y.owner ≡ owners.Unowned }
    ensures exception { (p : Program) (e : Option ClassId) (h : HeapContents) (n : ℕ) (y : Object) → object_at (thrown_heap p e h) n ≡ Some y → y.finished ≡ false → object_at h n ≡ Some y }
{}

/// Links lead to earlier objects still where an operation throws, and each object goes on.
pub fn exceptions_keep_links()
    ensures links { (p : Program) (e : Option ClassId) (h : HeapContents) → HasEarlierLinks h → HasEarlierLinks (thrown_heap p e h) }
    ensures evolves { (p : Program) (e : Option ClassId) (h : HeapContents) → Evolves h (thrown_heap p e h) }
{}
