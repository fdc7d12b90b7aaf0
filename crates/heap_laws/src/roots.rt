//! The ends of links. Each law is the contract of a function that does nothing.

ghost use Rattle.std.specs.Prelude.{◌≡◌, ℕ, Option, Some, None, List};
ghost use Rattle.program_model.specs.declared.kinds.ClassId.{ClassId};
ghost use Rattle.program_model.specs.declared.kinds.VType.{VType};
ghost use Rattle.program_model.specs.declared.program.ParamSig.{ParamSig};
ghost use Rattle.program_model.specs.declared.program.Program.{Program};
ghost use Rattle.ledger_state.specs.Contents.{HeapContents};
ghost use Rattle.ledger_state.specs.Heaps.{append, change_each, object_at, root, root_of};
ghost use Rattle.ledger_state.specs.declared.entry.Owner.{Owner};
ghost use Rattle.ledger_state.specs.declared.object.Link.{Link};
ghost use Rattle.ledger_state.specs.declared.object.Object.{Object};
ghost use Rattle.ledger_state.specs.declared.value.Value.{Value};
ghost use Rattle.ledger_obligations.specs.declared.note.Note.{Note};
ghost use Rattle.ledger_obligations.specs.Obligations.{end_frame, end_holder, lose, move, noted};
ghost use Rattle.ledger_steps.specs.LedgerCallsCalls.{move_params};
ghost use Rattle.heap_laws.specs.Heaps.{Evolves, HasEarlierLinks, KeepsLinks};

/// The end of the links of an object: it is an object that is not linked.
pub fn roots_of_links()
    ensures itself { (h : HeapContents) (k : ℕ) (x : Object) → object_at h k ≡ Some x → x.link ≡ None → root h k ≡ k }
    ensures there { (h : HeapContents) (k : ℕ) (x : Object) → HasEarlierLinks h → object_at h k ≡ Some x → (y : Object) × (object_at h (root h k) ≡ Some y) × (y.link ≡ None) }
    ensures linked { (h : HeapContents) (k : ℕ) (x : Object) (l : Link) → HasEarlierLinks h → object_at h k ≡ Some x → x.link ≡ Some l → root h k ≡ root h l.to }
    ensures absent { (h : HeapContents) (k : ℕ) → object_at h k ≡ None → root h k ≡ k }
{}

/// Objects that keep their links keep their roots, and the root of a value is not linked.
pub fn roots_go_on()
    ensures number { (h k : HeapContents) (n : ℕ) (x : Object) → HasEarlierLinks h → KeepsLinks h k → object_at h n ≡ Some x → root k n ≡ root h n }
    ensures value { (h k : HeapContents) (v : Value) (o : ℕ) (x : Object) → HasEarlierLinks h → KeepsLinks h k → root_of h v ≡ Some o → object_at h o ≡ Some x → root_of k v ≡ Some o }
    ensures root { (h : HeapContents) (v : Value) (o : ℕ) (x : Object) → HasEarlierLinks h → root_of h v ≡ Some o → object_at h o ≡ Some x → x.link ≡ None }
{}

/// Links lead to earlier objects where each object that is linked was linked so, with the same owner.
pub fn links_go_on()
    ensures { (h k : HeapContents) → HasEarlierLinks h
        → ((n : ℕ) (y : Object) (l : Link) → object_at k n ≡ Some y → y.link ≡ Some l → (x : Object) × (object_at h n ≡ Some x) × (x.link ≡ Some l) × (y.owner ≡ x.owner) × (y.finished ≡ x.finished))
        → HasEarlierLinks k }
{}

/// Links lead to earlier objects still where arguments move, a value moves, an object is made, calls are noted, a frame or an object ends, and what
/// no place holds is lost.
pub fn links_stay()
    ensures moved { (p : Program) (o : Owner) (arguments : ℕ → Value) (k : ℕ) (params : List ParamSig) (h : HeapContents) → HasEarlierLinks h
        → HasEarlierLinks (move_params p o arguments k params h) }
    ensures value { (p : Program) (t : VType) (o : Owner) (v : Value) (h : HeapContents) → HasEarlierLinks h → HasEarlierLinks (move p t o v h) }
    ensures made { (h : HeapContents) (c : ClassId) → HasEarlierLinks h → HasEarlierLinks (append h c) }
    ensures noted { (p : Program) (notes : List Note) (h : HeapContents) → HasEarlierLinks h → HasEarlierLinks (noted p notes h) }
    ensures frame { (j : ℕ) (h : HeapContents) → HasEarlierLinks h → HasEarlierLinks (end_frame j h) }
    ensures holder { (w : Option ℕ) (h : HeapContents) → HasEarlierLinks h → HasEarlierLinks (end_holder w h) }
    ensures lost { (held : List (List Value)) (h : HeapContents) → HasEarlierLinks h → HasEarlierLinks (lose held h) }
{}

/// Each object goes on in these changes.
pub fn objects_go_on()
    ensures value { (p : Program) (t : VType) (o : Owner) (v : Value) (h : HeapContents) → Evolves h (move p t o v h) }
    ensures made { (h : HeapContents) (c : ClassId) → Evolves h (append h c) }
    ensures frame { (j : ℕ) (h : HeapContents) → Evolves h (end_frame j h) }
    ensures holder { (w : Option ℕ) (h : HeapContents) → Evolves h (end_holder w h) }
    ensures lost { (held : List (List Value)) (h : HeapContents) → Evolves h (lose held h) }
{}

/// A change of objects that keeps their links keeps their roots.
pub fn root_of_changed()
    ensures { (change : ℕ → Object → Object) (h : HeapContents) (k : ℕ) → ((n : ℕ) (x : Object) → (change n x).link ≡ x.link) → root (change_each change h) k ≡ root h k }
{}
