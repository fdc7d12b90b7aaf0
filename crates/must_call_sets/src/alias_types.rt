//! Of which classes aliases and what they stand for may be, as the signatures say.

ghost use Rattle.std.specs.List.{list_any};
ghost use Rattle.std.specs.Prelude.{◌≡◌};
ghost use Rattle.program_model.specs.SuperTests.{has_class};
ghost use Rattle.must_call_sets.specs.OwningCases.{given_type, gives_alias_of, gives_as_alias, has_alias, is_alias_of_type, is_of_type, type_at_some};

use crate::bodies::is_constructor_kind;
use crate::signatures::type_at;
use program_model::{Class, ClassId, Method, Program, Sig, VType};

fn lists(classes: &[ClassId], class: ClassId) -> bool
    ensures { result ≡ has_class classes.now class }
{
    classes.iter().any(|listed| *listed == class)
}

/// Whether objects of the class are of the type.
pub fn is_of_type(class: &Class, vtype: Option<VType>) -> bool
    ensures { result ≡ is_of_type class.now vtype }
{
    match vtype {
        Some(VType::Obj(above)) => lists(&class.above, above),
        _ => false,
    }
}

/// The declared type of an optional position.
pub fn type_at_some(sig: &Sig, position: Option<u32>) -> Option<VType>
    ensures { result ≡ type_at_some sig.now position }
{
    match position {
        None => None,
        Some(position) => type_at(sig, position),
    }
}

// The type of what the method or constructor gives.
fn given_type(method: &Method) -> Option<VType>
    ensures { result ≡ given_type method.now }
{
    if is_constructor_kind(method.kind) {
        Some(VType::Obj(method.class))
    } else {
        method.sig.result
    }
}

/// Whether objects of the class may be what the method or constructor gives as an alias.
pub fn gives_as_alias(class: &Class, method: &Method) -> bool
    ensures { result ≡ gives_as_alias class.now method.now }
{
    method.sig.alias.is_some() && is_of_type(class, given_type(method))
}

fn gives_alias_of(class: &Class, method: &Method) -> bool
    ensures { result ≡ gives_alias_of class.now method.now }
{
    is_of_type(class, type_at_some(&method.sig, method.sig.alias))
}

/// Whether some method or constructor gives objects of the class as aliases.
pub fn is_given_as_alias(p: &Program, class: &Class) -> bool
    ensures { result ≡ list_any (gives_as_alias class.now) p.now.methods.items }
{
    p.methods.iter().any(|method| gives_as_alias(class, method))
}

/// Whether some method or constructor gives aliases of objects of the class.
pub fn is_aliased(p: &Program, class: &Class) -> bool
    ensures { result ≡ list_any (gives_alias_of class.now) p.now.methods.items }
{
    p.methods.iter().any(|method| gives_alias_of(class, method))
}

fn is_alias_of_type(p: &Program, vtype: VType, class: &Class) -> bool
    ensures { result ≡ is_alias_of_type p.now vtype class.now }
{
    is_of_type(class, Some(vtype)) && is_given_as_alias(p, class)
}

/// Whether some method or constructor gives an object of the type as an alias.
pub fn has_alias(p: &Program, vtype: VType) -> bool
    ensures { result ≡ has_alias p.now vtype }
{
    p.classes
        .iter()
        .any(|class| is_alias_of_type(p, vtype, class))
}
