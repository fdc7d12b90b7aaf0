//! What the stubs of the library may not say of `String`.

ghost use Rattle.std.specs.List.{list_any};
ghost use Rattle.std.specs.Prelude.{◌≡◌, ◌||◌};
ghost use Rattle.refusal_order.specs.Refusals.{least, verdict_of};
ghost use Rattle.must_call_sets.specs.MustCallSets.{is_heavy_class};
ghost use Rattle.signature_rules.specs.TextCases.{has_bad_classes, has_bad_methods, is_no_text_class, is_receiver, makes_alias_text, renews_own_text, text_cases};

use must_call_sets::{is_constructor_kind, is_heavy_class};
use program_model::{Class, ClassId, Method, Program};
use refusal_order::{verdict_of, where_true};
use rlc_base::{Code, Refusal};

// Whether the class, or one above it, has an obligation.
fn is_heavy_above(p: &Program, class: &Class) -> bool
    ensures { result ≡ list_any (is_heavy_class p.now) class.now.above.items }
{
    class.above.iter().any(|above| is_heavy_class(p, *above))
}

fn makes_alias_text(p: &Program, method: &Method) -> bool
    ensures { result ≡ makes_alias_text p.now method.now }
{
    is_constructor_kind(method.kind) && method.class == p.core.string && method.sig.alias.is_some()
}

// Whether some constructor of `String` makes an alias of an argument.
fn has_alias_texts(p: &Program) -> bool
    ensures { result ≡ list_any (makes_alias_text p.now) p.now.methods.items }
{
    p.methods.iter().any(|method| makes_alias_text(p, method))
}

fn is_no_text_class(p: &Program, class: ClassId) -> bool
    ensures { result ≡ is_no_text_class p.now class }
{
    !(class == p.core.string || class == p.core.object)
}

// Whether a class or interface other than `String` and `Object` is among those above it.
fn has_others_above(p: &Program, string: &Class) -> bool
    ensures { result ≡ list_any (is_no_text_class p.now) string.now.above.items }
{
    string.above.iter().any(|above| is_no_text_class(p, *above))
}

fn has_bad_classes(p: &Program, string: &Class) -> bool
    ensures { result ≡ has_bad_classes p.now string.now }
{
    is_heavy_above(p, string) || has_others_above(p, string)
}

fn is_receiver(position: Option<u32>) -> bool
    ensures { result ≡ is_receiver position }
{
    match position {
        Some(0) => true,
        Some(_) | None => false,
    }
}

fn renews_own_text(p: &Program, method: &Method) -> bool
    ensures { result ≡ renews_own_text p.now method.now }
{
    method.class == p.core.string && is_receiver(method.sig.reset)
}

// Whether a method of `String` creates the obligation of its text anew.
fn has_renewed_texts(p: &Program) -> bool
    ensures { result ≡ list_any (renews_own_text p.now) p.now.methods.items }
{
    p.methods.iter().any(|method| renews_own_text(p, method))
}

// Whether objects of class `String` may be aliases, or a method of it creates their obligation anew.
fn has_bad_methods(p: &Program) -> bool
    ensures { result ≡ has_bad_methods p.now }
{
    has_alias_texts(p) || has_renewed_texts(p)
}

fn is_bad(p: &Program, string: &Class) -> bool
    ensures { result ≡ (has_bad_classes p.now string.now || has_bad_methods p.now) }
{
    has_bad_classes(p, string) || has_bad_methods(p)
}

fn refusal_of(p: &Program) -> Option<Refusal>
    ensures { result ≡ least (text_cases p.now) }
{
    match p.class(p.core.string) {
        None => None,
        Some(string) => where_true(is_bad(p, string), Code::BadAlias, string.pos),
    }
}

/// Refuses a program whose class `String` has an obligation, by itself or from above, or has a constructor that makes an alias of an
/// argument, or a method that creates the obligation of its text anew: nobody owns a text. So it does where another class or interface than `Object`
/// is above `String`. It is refused at the class. The stubs that come with the checker say none of this.
pub fn text_rule(p: &Program) -> Result<(), Refusal>
    ensures { result ≡ verdict_of (least (text_cases p.now)) }
{
    verdict_of(refusal_of(p))
}
