//! Whether an owning field may hold an object that asks for no call, and whose obligation some method may create anew.

ghost use Rattle.std.specs.FinSet as set;
ghost use Rattle.std.specs.List.{list_any};
ghost use Rattle.std.specs.Prelude.{◌≡◌, ◌&&◌, ◌||◌, Some};
ghost use Rattle.must_call_sets.specs.MustCallSets.{no_names};
ghost use Rattle.must_call_sets.specs.OwningCases.{gives_alias_of, is_of_type, is_reset_alias, is_reset_somewhere, may_hold_unseen_reset, resets_objects, resets_some_alias};

use must_call_sets::{has_alias, is_aliased, is_given_as_alias, is_of_type, type_at_some};
use program_model::{Class, Method, Program, VType};
use rlc_base::NameSet;

fn resets_objects(class: &Class, method: &Method) -> bool
    ensures { result ≡ resets_objects class.now method.now }
{
    is_of_type(class, type_at_some(&method.sig, method.sig.reset))
}

fn is_reset_somewhere(p: &Program, class: &Class) -> bool
    ensures { result ≡ is_reset_somewhere p.now class.now }
{
    p.methods.iter().any(|method| resets_objects(class, method))
}

fn is_reset_alias(p: &Program, class: &Class) -> bool
    ensures { result ≡ is_reset_alias p.now class.now }
{
    is_given_as_alias(p, class) && is_reset_somewhere(p, class)
}

/// Whether some alias may stand for an object whose obligation some method may create anew through it.
pub(crate) fn resets_some_alias(p: &Program) -> bool
    ensures { result ≡ resets_some_alias p.now }
{
    p.classes.iter().any(|class| is_reset_alias(p, class))
}

// Whether some method may create the obligation of objects of the class anew, by themselves or through an alias, where some alias is renewed so.
fn may_be_reset(p: &Program, class: &Class, renewed: bool) -> bool
    ensures { result ≡ (is_reset_somewhere p.now class.now || list_any (gives_alias_of class.now) p.now.methods.items && renewed) }
{
    is_reset_somewhere(p, class) || renewed && is_aliased(p, class)
}

// Whether a field of the type may hold objects of the class, where it may hold aliases.
fn may_be_held(p: &Program, vtype: VType, class: &Class, through: bool) -> bool
    ensures { result ≡ (is_of_type class.now (Some vtype) || list_any (gives_alias_of class.now) p.now.methods.items && through) }
{
    is_of_type(class, Some(vtype)) || through && is_aliased(p, class)
}

fn is_unseen_reset(p: &Program, vtype: VType, class: &Class, through: bool, renewed: bool) -> bool
    ensures { result ≡ (set.is_subset class.now.must no_names && (is_of_type class.now (Some vtype) || list_any (gives_alias_of class.now) p.now.methods.items && through) && (is_reset_somewhere p.now class.now || list_any (gives_alias_of class.now) p.now.methods.items && renewed)) }
{
    class.must.is_subset(NameSet::empty())
        && may_be_held(p, vtype, class, through)
        && may_be_reset(p, class, renewed)
}

/// Whether a field of the type may hold an object of a class that asks for no call, by itself or through an alias, whose
/// obligation some method may create anew, by itself or through an alias. The last asks whether there are such aliases at all, which is `renewed`.
pub(crate) fn may_hold_unseen_reset(p: &Program, vtype: VType, renewed: bool) -> bool
    requires { renewed ≡ resets_some_alias p.now }
    ensures { result ≡ may_hold_unseen_reset p.now vtype }
{
    let through = has_alias(p, vtype);
    p.classes
        .iter()
        .any(|class| is_unseen_reset(p, vtype, class, through, renewed))
}
