//! Which resource aliases of methods and constructors are refused (Checker Framework manual, Resource Leak Checker,
//! "Aliased resources").

ghost use Rattle.std.specs.Prelude.{◌≡◌, flat_map, Some};
ghost use Rattle.program_model.specs.Lookups.{method_at, statement_at};
ghost use Rattle.program_model.specs.SuperTests.{has_class};
ghost use Rattle.refusal_order.specs.Refusals.{least, least_of_all};
ghost use Rattle.must_call_sets.specs.AliasCases.{alias_cases_of_method, are_one_name, calls_alias, calls_alias_at, calls_alias_by, calls_alias_in, gives_exception, has_bad_alias_form, has_exception_under, has_owning_alias, has_unequal_sets, is_bad_alias_method, is_exception_under, is_half_marked, is_marked, is_single, marks, names_alias_constructor, result_set};

use must_call_sets::{is_constructor_kind, is_owning_at, must, must_of_optional, type_at};
use program_model::{
    Body, Class, ClassId, Method, MethodId, Program, RawAnno, Sig, StatementKind, StmtId, VType,
};
use refusal_order::{lesser_of, where_true};
use rlc_base::{Code, NameId, NameSet, Refusal};

// Whether `@MustCallAlias` stands there.
fn is_marked(annos: &[RawAnno]) -> bool
    ensures { result ≡ is_marked annos.now }
{
    annos
        .iter()
        .any(|anno| anno.name.bytes() == b"MustCallAlias".as_slice())
}

// At how many positions it stands.
fn marks(sig: &Sig) -> usize
    ensures { result ≡ marks sig.now }
{
    let on_parameters = sig
        .params
        .iter()
        .filter(|parameter| is_marked(&parameter.annos))
        .count();
    if is_marked(&sig.receiver.annos) {
        1 + on_parameters
    } else {
        on_parameters
    }
}

fn is_half_marked(method: &Method) -> bool
    ensures { result ≡ is_half_marked method.now }
{
    let on_method = is_marked(&method.annos);
    let count = marks(&method.sig);
    (on_method || count != 0) && !(on_method && count == 1)
}

// What must be called on the result, or on the constructed object.
fn result_set(p: &Program, method: &Method) -> NameSet
    ensures { result ≡ result_set p.now method.now }
{
    if is_constructor_kind(method.kind) {
        must(p, method.class)
    } else {
        must_of_optional(p, method.sig.result)
    }
}

// The set has one name of the table, and no other.
#[tactic(auto, using(crate::proofs::AnyLaws::any_from, crate::proofs::AnyLaws::any_past))]
fn is_single(p: &Program, names: NameSet) -> bool
    ensures { result ≡ is_single p.now names }
{
    for number in 0..p.names.len() {
        if names == NameSet::empty().insert(NameId(number)) {
            return true;
        }
    }
    false
}

fn are_one_name(p: &Program, names: NameSet, others: NameSet) -> bool
    ensures { result ≡ are_one_name p.now names others }
{
    names == others && is_single(p, names)
}

fn has_unequal_sets(p: &Program, method: &Method, position: Option<u32>) -> bool
    ensures { result ≡ has_unequal_sets p.now method.now position }
{
    match position {
        None => false,
        Some(k) => {
            let aliased = must_of_optional(p, type_at(&method.sig, k));
            !are_one_name(p, aliased, result_set(p, method))
        }
    }
}

fn has_owning_alias(method: &Method, position: Option<u32>) -> bool
    ensures { result ≡ has_owning_alias method.now position }
{
    match position {
        None => false,
        Some(k) => is_owning_at(&method.sig, k),
    }
}

fn names_alias_constructor(p: &Program, constructor: MethodId) -> bool
    ensures { result ≡ names_alias_constructor (method_at p.now constructor) }
{
    match p.method(constructor) {
        None => false,
        Some(method) => method.sig.alias.is_some(),
    }
}

fn calls_alias_by(p: &Program, kind: &StatementKind) -> bool
    ensures { result ≡ calls_alias_by p.now kind.now }
{
    match kind {
        StatementKind::SuperCall(call) => names_alias_constructor(p, call.constructor),
        _ => false,
    }
}

fn calls_alias_at(p: &Program, body: &Body, statement: StmtId) -> bool
    ensures { result ≡ calls_alias_at p.now (statement_at body.now statement) }
{
    match body.statement(statement) {
        None => false,
        Some(found) => calls_alias_by(p, &found.kind),
    }
}

fn calls_alias_in(p: &Program, body: &Body) -> bool
    ensures { result ≡ calls_alias_in p.now (Some body.now) }
{
    body.stmts
        .iter()
        .any(|statement| calls_alias_at(p, body, *statement))
}

// The super call of a constructor names an alias constructor.
fn calls_alias(p: &Program, method: &Method) -> bool
    ensures { result ≡ calls_alias p.now method.now }
{
    match method.body {
        None => false,
        Some(body) => match p.body(body) {
            None => false,
            Some(found) => calls_alias_in(p, found),
        },
    }
}

pub(crate) fn lists(classes: &[ClassId], class: ClassId) -> bool
    ensures { result ≡ has_class classes.now class }
{
    classes.iter().any(|listed| *listed == class)
}

// The class is the named one or under it, and one of exceptions.
fn is_exception_under(p: &Program, named: ClassId, class: &Class) -> bool
    ensures { result ≡ is_exception_under p.now named class.now }
{
    lists(&class.above, named) && lists(&class.above, p.core.throwable)
}

fn has_exception_under(p: &Program, named: ClassId) -> bool
    ensures { result ≡ has_exception_under p.now named }
{
    p.classes
        .iter()
        .any(|class| is_exception_under(p, named, class))
}

// The alias may be an exception.
fn gives_exception(p: &Program, method: &Method) -> bool
    ensures { result ≡ gives_exception p.now method.now }
{
    match method.sig.result {
        Some(VType::Obj(class)) if method.sig.alias.is_some() => has_exception_under(p, class),
        _ => false,
    }
}

// The annotations, the sets or the super call do not go with an alias.
fn has_bad_alias_form(p: &Program, method: &Method) -> bool
    ensures { result ≡ has_bad_alias_form p.now method.now }
{
    is_half_marked(method)
        || has_unequal_sets(p, method, method.sig.alias)
        || has_owning_alias(method, method.sig.alias)
        || calls_alias(p, method)
}

fn is_bad_alias_method(p: &Program, method: &Method) -> bool
    ensures { result ≡ is_bad_alias_method p.now method.now }
{
    has_bad_alias_form(p, method) || gives_exception(p, method)
}

fn method_case(p: &Program, method: &Method) -> Option<Refusal>
    ensures { result ≡ least (alias_cases_of_method p.now method.now) }
{
    where_true(is_bad_alias_method(p, method), Code::BadAlias, method.pos)
}

fn cases_of_methods(p: &Program, methods: &[Method]) -> Option<Refusal>
    ensures { result ≡ least_of_all (λ m. least (alias_cases_of_method p.now m)) methods.now }
{
    let mut least = None;
    for method in methods {
        least = lesser_of(least, method_case(p, method));
    }
    least
}

// The least refusal of a method or constructor.
#[tactic(auto, using(crate::proofs::AliasLaws::of_each))]
pub(crate) fn method_cases(p: &Program) -> Option<Refusal>
    ensures { result ≡ least (flat_map (alias_cases_of_method p.now) p.now.methods.items) }
{
    cases_of_methods(p, &p.methods)
}
