//! Which program classes with an alias constructor are refused.

ghost use Rattle.std.specs.Prelude.{◌≡◌, filter, flat_map, length};
ghost use Rattle.std.specs.List.{list_all, list_any};
ghost use Rattle.program_model.specs.Lookups.{class_at, field_at, method_at};
ghost use Rattle.program_model.specs.Validity.{IsNumbered};
ghost use Rattle.refusal_order.specs.Refusals.{least};
ghost use Rattle.must_call_sets.specs.Overridings.{class_ids};
ghost use Rattle.must_call_sets.specs.AliasCases.{alias_cases_in, is_alias_class, is_alias_constructor_in, is_bad_alias_class, is_final_in, is_heavy_super, is_one_final, is_owning_in, owning_fields, passes_over, resets_near};

use crate::passed_over::passes_over;
use must_call_sets::{is_constructor_kind, is_heavy_class, is_position};
use program_model::{Class, ClassId, FieldId, Method, MethodId, Program, under};
use refusal_order::{lesser_of, where_true};
use rlc_base::{Code, Refusal};

fn is_alias_constructor(p: &Program, method: MethodId) -> bool
    ensures { result ≡ is_alias_constructor_in (method_at p.now method) }
{
    match p.method(method) {
        None => false,
        Some(found) => is_constructor_kind(found.kind) && found.sig.alias.is_some(),
    }
}

fn has_alias_constructor(p: &Program, methods: &[MethodId]) -> bool
    ensures { result ≡ list_any (λ m. is_alias_constructor_in (method_at p.now m)) methods.now }
{
    methods
        .iter()
        .any(|method| is_alias_constructor(p, *method))
}

// A program class with an alias constructor.
fn is_alias_class(p: &Program, class: &Class) -> bool
    ensures { result ≡ is_alias_class p.now class.now }
{
    !class.library && has_alias_constructor(p, &class.methods)
}

fn is_owning(p: &Program, field: FieldId) -> bool
    ensures { result ≡ is_owning_in (field_at p.now field) }
{
    match p.field(field) {
        None => false,
        Some(found) => found.owning,
    }
}

fn is_final(p: &Program, field: FieldId) -> bool
    ensures { result ≡ is_final_in (field_at p.now field) }
{
    match p.field(field) {
        None => false,
        Some(found) => found.is_final,
    }
}

// How many owning fields the class declares.
fn owning_count(p: &Program, class: &Class) -> usize
    ensures { result ≡ length (owning_fields p.now class.now) }
{
    class
        .fields
        .iter()
        .filter(|field| is_owning(p, **field))
        .count()
}

// Whether all owning fields among these are final.
fn are_owning_final(p: &Program, fields: &[FieldId]) -> bool
    ensures { result ≡ list_all (λ f. is_final_in (field_at p.now f)) (filter (λ f. is_owning_in (field_at p.now f)) fields.now) }
{
    fields
        .iter()
        .copied()
        .filter(|field| is_owning(p, *field))
        .all(|field| is_final(p, field))
}

fn is_one_final(p: &Program, class: &Class) -> bool
    ensures { result ≡ is_one_final p.now (owning_fields p.now class.now) }
{
    owning_count(p, class) == 1 && are_owning_final(p, &class.fields)
}

fn is_heavy_super(p: &Program, sup: Option<ClassId>) -> bool
    ensures { result ≡ is_heavy_super p.now sup }
{
    match sup {
        None => false,
        Some(class) => is_heavy_class(p, class),
    }
}

// The method creates the obligation of `this` anew, and the class or one above or under it declares it.
fn resets_near(p: &Program, class: ClassId, method: &Method) -> bool
    ensures { result ≡ resets_near p.now class method.now }
{
    is_position(method.sig.reset, 0)
        && (under(p, class, method.class) || under(p, method.class, class))
}

fn is_reset_near(p: &Program, class: ClassId, methods: &[Method]) -> bool
    ensures { result ≡ list_any (resets_near p.now class) methods.now }
{
    methods.iter().any(|method| resets_near(p, class, method))
}

// Some constructor of the class passes over what must be called on the object behind its alias.
fn is_passing_over(p: &Program, class: &Class) -> bool
    ensures { result ≡ list_any (λ m. passes_over p.now class.now (method_at p.now m)) class.now.methods.items }
{
    class
        .methods
        .iter()
        .any(|method| passes_over(p, class, *method))
}

fn is_bad_alias_class(p: &Program, number: ClassId, class: &Class) -> bool
    ensures { result ≡ is_bad_alias_class p.now number class.now }
{
    !is_one_final(p, class)
        || is_heavy_super(p, class.sup)
        || is_reset_near(p, number, &p.methods)
        || is_passing_over(p, class)
}

fn class_case(p: &Program, number: ClassId) -> Option<Refusal>
    ensures { result ≡ least (alias_cases_in p.now number (class_at p.now number)) }
{
    match p.class(number) {
        None => None,
        Some(class) => {
            let refused = is_alias_class(p, class) && is_bad_alias_class(p, number, class);
            where_true(refused, Code::BadAlias, class.pos)
        }
    }
}

// The least refusal of a program class with an alias constructor.
pub(crate) fn class_cases(p: &Program) -> Option<Refusal>
    requires { IsNumbered p.now }
    ensures { result ≡ least (flat_map (λ c. alias_cases_in p.now c (class_at p.now c)) (class_ids p.now)) }
{
    let mut least = None;
    for number in 0..p.classes.len() {
        least = lesser_of(least, class_case(p, ClassId(number as u32)));
    }
    least
}
