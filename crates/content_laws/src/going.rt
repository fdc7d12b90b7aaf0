//! How the heap goes on over each kind of step. Each law is the contract of a function that does nothing.

ghost use Rattle.std.specs.Prelude.{◌≡◌, ℕ, ◌<◌, true, false, Option, Some, None, List};
ghost use Rattle.std.specs.FinSet as set;
ghost use Rattle.rlc_base.specs.declared.name_id.NameId.{NameId};
ghost use Rattle.program_model.specs.declared.kinds.ClassId.{ClassId};
ghost use Rattle.program_model.specs.declared.kinds.FieldId.{FieldId};
ghost use Rattle.program_model.specs.declared.kinds.MethodId.{MethodId};
ghost use Rattle.program_model.specs.declared.program.Method.{Method};
ghost use Rattle.program_model.specs.declared.program.Program.{Program};
ghost use Rattle.program_model.specs.Lookups.{method_at};
ghost use Rattle.must_call_sets.specs.MustCallSets.{is_heavy_class, must_of};
ghost use Rattle.control_actions.specs.declared.action.Action.{Action};
ghost use Rattle.stub_conduct.specs.declared.choice.Conduct.{Conduct};
ghost use Rattle.ledger_state.specs.Contents.{HeapContents};
ghost use Rattle.ledger_state.specs.Heaps.{change_one, object_at, root};
ghost use Rattle.ledger_state.specs.declared.entry.Owner.TheVariants as owners;
ghost use Rattle.ledger_state.specs.declared.locals.Locals.{Locals};
ghost use Rattle.ledger_state.specs.declared.object.Object.{Object};
ghost use Rattle.ledger_state.specs.declared.value.Value.{Value};
ghost use Rattle.ledger_obligations.specs.Obligations.{is_unmet, lose};
ghost use Rattle.ledger_steps.specs.LedgerCallsCalls.{interest_in, reset_position};
ghost use Rattle.covering_laws.specs.Configuration.{Frame};
ghost use Rattle.ledger_steps.specs.CallSteps.{began_heap, library_heap};
ghost use Rattle.ledger_steps.specs.Ends.{frame_gone, returned_reset};
ghost use Rattle.ledger_steps.specs.InnerSteps.{heap_stored, store_of, store_unless, thrown_heap};
ghost use Rattle.covering_laws.specs.Heaps.{GoesOn, HasEarlierLinks};
ghost use Rattle.covering_laws.specs.FieldContents.{HaveContents, IsContent, LinksLead, is_made_in, promised_on};
ghost use Rattle.covering_laws.specs.PlaceFacts.{OwesOrHolds};
ghost use Rattle.content_laws.specs.Going.{Goes, IsNotedBy, KeepsArgument, NoName, PromisesItsOwn, linked};

/// The heap goes on over a step within a frame that stores nothing.
pub fn inner_step_goes_on()
    ensures { (p : Program) (m : Option Method) (l : Locals) (e : Option ClassId) (a : Action) (held : List (List Value)) (h : HeapContents) → store_unless e (store_of l a) ≡ None → HasEarlierLinks h
        → Goes p h (lose held (heap_stored p m l (store_unless e (store_of l a)) (thrown_heap p e h))) NoName }
{}

/// The heap goes on where a call begins a frame.
pub fn call_start_goes_on()
    ensures { (p : Program) (l : Locals) (a : Action) (named : Option Method) (j : ℕ) (held : List (List Value)) (h : HeapContents) → HasEarlierLinks h
        → Goes p h (lose held (began_heap p l a named j h)) NoName }
{}

/// The heap goes on over a call of the library, which is noted on its receiver, and with what it promises.
pub fn library_call_goes_on()
    ensures { (p : Program) (l : Locals) (a : Action) (named : Option Method) (d : Conduct) (i : ℕ) (held : List (List Value)) (h : HeapContents)
        → reset_position named ≡ None → ((n : NameId) → interest_in named ≡ Some n → n.0 < 128) → HasEarlierLinks h → Goes p h (lose held (library_heap p l a named named d i h)) (IsNotedBy l a named) }
{}

/// The heap goes on where a frame and its call end, which is noted on its receiver, before a `new` finishes its object.
pub fn call_end_goes_on()
    ensures { (p : Program) (i : ℕ) (self : Value) (l : Locals) (a : Action) (runs named : Option Method) (v : Value) (e : Option ClassId) (h : HeapContents) → reset_position named ≡ None
        → ((n : NameId) → interest_in named ≡ Some n → n.0 < 128) → HasEarlierLinks h
        → Goes p h (returned_reset p l a named (frame_gone p i self runs v e h)) (IsNotedBy l a named) }
{}

/// What owning fields own they own on over a call, where for its name, noted on a finished holder, all that the holder's method promises
/// was called on what is still unmet, and the constructors of holders that are not finished go on. (Where a name reaches the holder through a link, or a method of
/// the library promises it, the machine itself does what the holder's own method promises.)
pub fn contents_go_on()
    ensures { (p : Program) (h k : HeapContents) (l : Locals) (a : Action) (named : Option Method) → Goes p h k (IsNotedBy l a named) → PromisesItsOwn p → LinksLead p h → (frs gs : List Frame) → HaveContents p frs h
        → ((o : ℕ) (x y : Object) (w : ℕ) (f : FieldId) → object_at h o ≡ Some x → object_at k o ≡ Some y → is_heavy_class p y.class ≡ true → GoesOn x y → x.owner ≡ owners.Field w f → (content : IsContent p frs h o x w f)
        → (m : MethodId) (d : Method) (n : NameId) → content.holder.finished ≡ true → method_at p m ≡ Some d → d.class ≡ content.holder.class → d.sig.interest ≡ Some n
        → set.contains (must_of p content.holder.class) n.0 ≡ true → IsNotedBy l a named w n.0 → is_unmet y ≡ true → set.is_subset (promised_on f d) y.called ≡ true)
        → ((o : ℕ) (x y : Object) (w : ℕ) (f : FieldId) (content : IsContent p frs h o x w f) → object_at k o ≡ Some y → y.owner ≡ owners.Field w f → content.holder.finished ≡ false
        → is_made_in p w content.field.class frs ≡ true → is_made_in p w content.field.class gs ≡ true)
        → HaveContents p gs k }
{}

/// Calls on each object reach its root as before, over a call: an object that is made is linked by the library, if at all.
pub fn leads_go_on()
    ensures { (p : Program) (h k : HeapContents) (l : Locals) (a : Action) (named : Option Method) → Goes p h k (IsNotedBy l a named) → HasEarlierLinks h → LinksLead p h → HasEarlierLinks k → LinksLead p k }
{}

/// Where a constructor of the program has kept its aliased argument in a field, and the object that it made is linked to this, calls on each
/// object reach its root as before.
pub fn linked_object_leads()
    ensures { (p : Program) (h : HeapContents) (w a : ℕ) → (0 < a) × (a < w) → (x : Object) → object_at h w ≡ Some x → x.link ≡ None → x.finished ≡ false → is_heavy_class p x.class ≡ true
        → HasEarlierLinks h → HasEarlierLinks (change_one w (linked p (Some a)) h) → LinksLead p h
        → ((o : ℕ) (y : Object) → root h a ≡ o → object_at h o ≡ Some y → is_heavy_class p y.class ≡ true → OwesOrHolds p h o y → KeepsArgument p h w x o) → LinksLead p (change_one w (linked p (Some a)) h) }
{}
