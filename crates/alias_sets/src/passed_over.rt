//! Which alias classes of the program may stand before an object on which more must be called than on the alias, where some call on an alias
//! would count for it.

ghost use Rattle.std.specs.Prelude.{◌≡◌, ◌&&◌};
ghost use Rattle.std.specs.List.{list_any};
ghost use Rattle.program_model.specs.Lookups.{method_at};
ghost use Rattle.must_call_sets.specs.AliasCases.{gives_before, is_library_alias_with, is_made_alias, is_miscounted, is_passed_over, makes_as_alias, may_be_behind, may_be_called_on, may_stand_at, passes_over};
ghost use Rattle.must_call_sets.specs.Signatures.{has_name};

use crate::alias_methods::lists;
use must_call_sets::{gives_as_alias, is_aliased, is_constructor_kind, is_of_type, type_at_some};
use program_model::{Class, Method, MethodId, Program, VType};
use rlc_base::{NameId, NameSet};

// Objects of the class may be made as aliases by the method or constructor.
fn makes_as_alias(class: &Class, method: &Method) -> bool
    ensures { result ≡ makes_as_alias class.now method.now }
{
    gives_as_alias(class, method) && (class.library || is_constructor_kind(method.kind))
}

fn is_made_as_alias(p: &Program, class: &Class) -> bool
    ensures { result ≡ list_any (makes_as_alias class.now) p.now.methods.items }
{
    p.methods.iter().any(|method| makes_as_alias(class, method))
}

fn is_made_alias(p: &Program, vtype: VType, class: &Class) -> bool
    ensures { result ≡ is_made_alias p.now vtype class.now }
{
    is_of_type(class, Some(vtype)) && is_made_as_alias(p, class)
}

fn has_made_alias(p: &Program, vtype: VType) -> bool
    ensures { result ≡ list_any (is_made_alias p.now vtype) p.now.classes.items }
{
    p.classes.iter().any(|class| is_made_alias(p, vtype, class))
}

// What is of the type may be an object of the class, or an alias.
fn may_stand_at(p: &Program, vtype: Option<VType>, class: &Class) -> bool
    ensures { result ≡ may_stand_at p.now vtype class.now }
{
    match vtype {
        None => false,
        Some(vtype) => {
            is_of_type(class, Some(vtype)) || is_aliased(p, class) && has_made_alias(p, vtype)
        }
    }
}

// The aliased argument of the method or constructor may be an object of the class, or an alias of one.
fn may_be_behind(p: &Program, method: &Method, class: &Class) -> bool
    ensures { result ≡ may_be_behind p.now method.now class.now }
{
    may_stand_at(p, type_at_some(&method.sig, method.sig.alias), class)
}

fn gives_before(p: &Program, class: &Class, alias: &Class, method: &Method) -> bool
    ensures { result ≡ gives_before p.now class.now alias.now method.now }
{
    gives_as_alias(alias, method) && may_be_behind(p, method, class)
}

fn may_be_before(p: &Program, class: &Class, alias: &Class) -> bool
    ensures { result ≡ list_any (gives_before p.now class.now alias.now) p.now.methods.items }
{
    p.methods
        .iter()
        .any(|method| gives_before(p, class, alias, method))
}

// A class of the library that has the method, and whose objects may be aliases of objects of the class.
fn is_library_alias_with(p: &Program, class: &Class, method: &Method, alias: &Class) -> bool
    ensures { result ≡ is_library_alias_with p.now class.now method.now alias.now }
{
    alias.library && lists(&alias.above, method.class) && may_be_before(p, class, alias)
}

fn has_library_alias_with(p: &Program, class: &Class, method: &Method) -> bool
    ensures { result ≡ list_any (is_library_alias_with p.now class.now method.now) p.now.classes.items }
{
    p.classes
        .iter()
        .any(|alias| is_library_alias_with(p, class, method, alias))
}

// The method may be called on objects of the class, or on aliases of them that the library makes.
fn may_be_called_on(p: &Program, class: &Class, method: &Method) -> bool
    ensures { result ≡ may_be_called_on p.now class.now method.now }
{
    lists(&class.above, method.class) || has_library_alias_with(p, class, method)
}

fn has_name(names: NameSet, name: Option<NameId>) -> bool
    ensures { result ≡ has_name names name }
{
    match name {
        None => false,
        Some(name) => names.contains(name),
    }
}

// The call must be made on objects of the class `behind`, and not on those of the alias class, but may be made on these.
fn is_miscounted(p: &Program, class: &Class, behind: &Class, method: &Method) -> bool
    ensures { result ≡ is_miscounted p.now class.now behind.now method.now }
{
    has_name(behind.must, method.sig.interest)
        && !has_name(class.must, method.sig.interest)
        && may_be_called_on(p, class, method)
}

fn has_miscounted(p: &Program, class: &Class, behind: &Class) -> bool
    ensures { result ≡ list_any (is_miscounted p.now class.now behind.now) p.now.methods.items }
{
    p.methods
        .iter()
        .any(|method| is_miscounted(p, class, behind, method))
}

fn is_passed_over(p: &Program, class: &Class, constructor: &Method, behind: &Class) -> bool
    ensures { result ≡ is_passed_over p.now class.now constructor.now behind.now }
{
    !behind.must.is_subset(class.must)
        && may_be_behind(p, constructor, behind)
        && has_miscounted(p, class, behind)
}

fn passes_over_some(p: &Program, class: &Class, constructor: &Method) -> bool
    ensures { result ≡ list_any (is_passed_over p.now class.now constructor.now) p.now.classes.items }
{
    p.classes
        .iter()
        .any(|behind| is_passed_over(p, class, constructor, behind))
}

// Behind aliases that the constructor makes there may be objects on which more must be called, and for which some call on an alias would count.
pub(crate) fn passes_over(p: &Program, class: &Class, constructor: MethodId) -> bool
    ensures { result ≡ passes_over p.now class.now (method_at p.now constructor) }
{
    match p.method(constructor) {
        None => false,
        Some(found) => is_constructor_kind(found.kind) && passes_over_some(p, class, found),
    }
}
