//! Which calls on linked objects reach the ends of their links, and one object that is linked. Each law is the contract of a function that does nothing.

ghost use Rattle.std.specs.Prelude.{◌≡◌, ◌⊎◌, ℕ, Some, None};
ghost use Rattle.program_model.specs.declared.program.Program.{Program};
ghost use Rattle.ledger_state.specs.Contents.{HeapContents};
ghost use Rattle.ledger_state.specs.Heaps.{object_at, root, root_of};
ghost use Rattle.ledger_state.specs.declared.object.Link.{Link};
ghost use Rattle.ledger_state.specs.declared.object.Object.{Object};
ghost use Rattle.ledger_state.specs.declared.value.Value.{Value};
ghost use Rattle.heap_laws.specs.Heaps.{Evolves, HasEarlierLinks};
ghost use Rattle.heap_laws.specs.Leading.{KeepsContents, Leads, LinksOne};

/// Calls on an object lead to its root, which is linked to none, and an object that is linked to none leads to itself.
pub fn leading_links()
    ensures root { (p : Program) (h : HeapContents) (k r : ℕ) → HasEarlierLinks h → Leads p h k r → root h k ≡ r }
    ensures end { (p : Program) (h : HeapContents) (k r : ℕ) → Leads p h k r → (y : Object) × (object_at h r ≡ Some y) × (y.link ≡ None) }
    ensures itself { (p : Program) (h : HeapContents) (k r : ℕ) (x : Object) → root h k ≡ r → object_at h k ≡ Some x → x.link ≡ None → Leads p h k r }
    ensures on { (p : Program) (h j : HeapContents) (k r : ℕ) → HasEarlierLinks h → Evolves h j → KeepsContents p h j → Leads p h k r → Leads p j k r }
{}

/// Where fields hold what they held, those of finished objects do.
pub fn unchanged_fields_keep_contents()
    ensures { (p : Program) (h j : HeapContents) → j.fields ≡ h.fields → KeepsContents p h j }
{}

/// What leads to an object that is linked leads on from there.
pub fn leading_links_over_a_link()
    ensures { (h j : HeapContents) (w : ℕ) (l : Link) → HasEarlierLinks h → LinksOne w l h j → (p : Program) → KeepsContents p h j → (o : ℕ) → Leads p j w o
        → (k r : ℕ) → Leads p h k r → (r ≡ w → Leads p j k o) × ((r ≡ w → ⊥) → Leads p j k r) }
{}

/// Where one object is linked, what had it for a root has the root of the object to which it is linked, and all other roots stay.
pub fn roots_over_a_link()
    ensures linked { (h j : HeapContents) (w : ℕ) (l : Link) → HasEarlierLinks h → LinksOne w l h j → HasEarlierLinks j → root j w ≡ root h l.to }
    ensures number { (h j : HeapContents) (w : ℕ) (l : Link) → HasEarlierLinks h → LinksOne w l h j → HasEarlierLinks j → (k : ℕ) (x : Object) → object_at h k ≡ Some x
        → (root h k ≡ w → root j k ≡ root h l.to) × ((root h k ≡ w → ⊥) → root j k ≡ root h k) }
    ensures value { (h j : HeapContents) (w : ℕ) (l : Link) → HasEarlierLinks h → LinksOne w l h j → HasEarlierLinks j → (v : Value) (r : ℕ) (x : Object) → root_of h v ≡ Some r
        → object_at h r ≡ Some x → (r ≡ w → root_of j v ≡ Some (root h l.to)) × ((r ≡ w → ⊥) → root_of j v ≡ Some r) }
    ensures before { (h j : HeapContents) (w : ℕ) (l : Link) → HasEarlierLinks h → LinksOne w l h j → HasEarlierLinks j → (v : Value) (o : ℕ) (y : Object) → root_of j v ≡ Some o
        → object_at j o ≡ Some y → (root_of h v ≡ Some o) ⊎ ((root_of h v ≡ Some w) × (root h l.to ≡ o)) }
{}
