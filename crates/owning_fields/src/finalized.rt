//! The names that the must-call methods of a class promise on a field.

ghost use Rattle.std.specs.Prelude.{◌≡◌};
ghost use Rattle.program_model.specs.Lookups.{method_at};
ghost use Rattle.program_model.specs.NameSets.{names_of_all};
ghost use Rattle.must_call_sets.specs.OwningCases.{finalized, finalized_by};

use must_call_sets::{is_must_call_method, names_promised_on_field};
use program_model::{ClassId, FieldId, MethodId, Program};
use rlc_base::NameSet;

fn finalized_by(p: &Program, class: ClassId, f: FieldId, m: MethodId) -> NameSet
    ensures { result ≡ finalized_by p.now class f (method_at p.now m) }
{
    match p.method(m) {
        None => NameSet::empty(),
        Some(method) => {
            if is_must_call_method(p, class, method) {
                names_promised_on_field(&method.sig.promises, f)
            } else {
                NameSet::empty()
            }
        }
    }
}

fn finalized_by_all(p: &Program, class: ClassId, f: FieldId, methods: &[MethodId]) -> NameSet
    ensures { result ≡ names_of_all (λ m. finalized_by p.now class f (method_at p.now m)) methods.now }
{
    let mut names = NameSet::empty();
    for m in methods {
        names = names.union(finalized_by(p, class, f, *m));
    }
    names
}

/// The names that the must-call methods which the class declares promise on the field.
pub(crate) fn finalized(p: &Program, class: ClassId, f: FieldId) -> NameSet
    ensures { result ≡ finalized p.now class f }
{
    match p.class(class) {
        None => NameSet::empty(),
        Some(found) => finalized_by_all(p, class, f, &found.methods),
    }
}
