//! The effective signature of a method or constructor, from its annotations.

ghost use Rattle.std.specs.Prelude.{◌≡◌, ◌-◌, ◌<◌, ◌^◌, nat_eq, ◌∷◌, ◌++◌, length, count_by, map, position, IfOk, IfSome, OnOk};
ghost use Rattle.std.specs.List.{filter_map};
ghost use Rattle.std.specs.Option.{option_copied};
ghost use Rattle.program_model.specs.Lookups.{optional};
ghost use Rattle.effective_signatures.specs.Effective.{alias_position, first_aliased, has_owning_result, interest, is_aliased, is_constant_kind, is_instance_kind, is_plain, normal_promises, promise, promises_by, reset_by, reset_in, reset_position, reset_text, signed_parameter, signed_receiver, throwing_promises};
ghost use Rattle.effective_signatures.specs.SignedMethods.{IsSignedMethod};
ghost use Rattle.effective_signatures.specs.Targets.{target_of};

use crate::sets::{called_before, first_set, number_in, numbers_of};
use crate::targets::{has_object, keeps_object, own_fields, position_of, target_of};
use annotation_kinds::{AnnotationKind, first_of, is_marked, texts_at};
use program_model::{
    Class, Field, FieldId, Method, MethodKind, ParamSig, Promise, RawAnno, Sig, Target,
};
use rlc_base::{NameId, NameSet, Names, NoMemory, Text};
use std::alloc::Global;

// Gives a parameter its marks.
fn sign_parameter(names: &Names, parameter: &mut ParamSig)
    ensures { parameter.new ≡ signed_parameter names.now parameter.old }
{
    parameter.owning = is_marked(AnnotationKind::Owning, &parameter.annos);
    parameter.before = called_before(names, &parameter.annos);
}

// Gives each parameter its marks.
fn sign_parameters(names: &Names, parameters: &mut [ParamSig])
    ensures { parameters.new ≡ map (signed_parameter names.now) parameters.old }
{
    for parameter in parameters.iter_mut() {
        sign_parameter(names, parameter);
    }
}

// Takes the marks of declared parameters from the receiver.
fn sign_receiver(receiver: &mut ParamSig)
    ensures { receiver.new ≡ signed_receiver receiver.old }
{
    receiver.owning = false;
    receiver.before = NameSet::empty();
}

fn is_constant_kind(kind: MethodKind) -> bool
    ensures { result ≡ is_constant_kind kind }
{
    match kind {
        MethodKind::Constant => true,
        MethodKind::Instance | MethodKind::Static | MethodKind::Ctor => false,
    }
}

// Whether the result moves to the caller.
fn has_owning_result(method: &Method) -> bool
    ensures { result ≡ has_owning_result method.now }
{
    !is_constant_kind(method.kind) && !is_marked(AnnotationKind::NotOwning, &method.annos)
}

fn is_aliased(parameter: &ParamSig) -> bool
    ensures { result ≡ is_aliased parameter.now }
{
    is_marked(AnnotationKind::MustCallAlias, &parameter.annos)
}

fn aliased_parameters(parameters: &[ParamSig]) -> usize
    ensures { result ≡ count_by is_aliased parameters.now }
{
    parameters.iter().filter(|x| is_aliased(x)).count()
}

fn first_aliased_parameter(parameters: &[ParamSig]) -> Option<usize>
    ensures place { result ≡ position is_aliased parameters.now }
    ensures within { IfSome result (λ k. k < length parameters.now) }
{
    parameters.iter().position(|x| is_aliased(x))
}

// Whether `@MustCallAlias` stands on exactly one position.
fn has_one_alias(sig: &Sig) -> bool
    ensures { result ≡ nat_eq (count_by is_aliased (sig.now.receiver ∷ sig.now.params.items)) 1 }
{
    let count = aliased_parameters(&sig.params);
    if is_aliased(&sig.receiver) {
        count == 0
    } else {
        count == 1
    }
}

// The first position on which `@MustCallAlias` stands.
fn first_aliased(sig: &Sig) -> Option<u32>
    requires { length sig.now.params.items < 2 ^ 32 - 1 }
    ensures { result ≡ first_aliased sig.now }
{
    if is_aliased(&sig.receiver) {
        return Some(0);
    }
    match first_aliased_parameter(&sig.params) {
        None => None,
        Some(k) => Some(k as u32 + 1),
    }
}

// The position that stands for the same resource as the result, or as the constructed object.
fn alias_position(method: &Method) -> Option<u32>
    requires { length method.now.sig.params.items < 2 ^ 32 - 1 }
    ensures { result ≡ alias_position method.now }
{
    if is_marked(AnnotationKind::MustCallAlias, &method.annos) && has_one_alias(&method.sig) {
        first_aliased(&method.sig)
    } else {
        None
    }
}

// The text that names a reset's target.
fn reset_text(texts: &[Text]) -> &[u8]
    ensures { result.now ≡ reset_text texts.now }
{
    match texts.first() {
        None => b"this",
        Some(text) => text.bytes(),
    }
}

/// The position whose obligation an annotation says that the call creates anew.
pub fn reset_by(method: &Method, annotation: &RawAnno) -> Option<u32>
    requires { length method.now.sig.params.items < 2 ^ 32 - 1 }
    ensures { result ≡ reset_by method.now annotation.now }
{
    position_of(
        has_object(method.kind),
        method.sig.params.len() as u32,
        reset_text(texts_at(annotation, "value")),
    )
}

// The position whose obligation the call creates anew.
fn reset_position(method: &Method) -> Option<u32>
    requires { length method.now.sig.params.items < 2 ^ 32 - 1 }
    ensures { result ≡ reset_position method.now }
{
    match first_of(AnnotationKind::CreatesMustCallFor, &method.annos) {
        None => None,
        Some(annotation) => reset_by(method, annotation),
    }
}

fn promise(names: NameSet, target: Option<Target>) -> Option<Promise>
    ensures { result ≡ promise names target }
{
    match target {
        None => None,
        Some(target) => Some(Promise { target, names }),
    }
}

fn is_instance_kind(kind: MethodKind) -> bool
    ensures { result ≡ is_instance_kind kind }
{
    match kind {
        MethodKind::Instance => true,
        MethodKind::Static | MethodKind::Ctor | MethodKind::Constant => false,
    }
}

/// Whether it is an instance method without parameters.
pub fn is_plain(method: &Method) -> bool
    ensures { result ≡ is_plain method.now }
{
    is_instance_kind(method.kind) && method.sig.params.is_empty()
}

// The number of the method's name, where it is an instance method without parameters and the table holds the name.
fn interest(names: &Names, method: &Method) -> Option<NameId>
    ensures { result ≡ interest names.now method.now }
{
    if is_plain(method) {
        number_in(names, method.name.bytes())
    } else {
        None
    }
}

// What a text promises of its target.
fn promise_of(
    with_object: bool,
    count: u32,
    fields: &[Field],
    own: &[FieldId],
    names: NameSet,
    text: &Text,
) -> Option<Promise>
    ensures { result ≡ promise names (target_of with_object count fields.now own.now text.now) }
{
    promise(
        names,
        target_of(with_object, count, fields, own, text.bytes()),
    )
}

// Puts an item at the end of a list, where there is one.
fn put<T: Drop>(list: &mut Vec<T>, item: Option<T>) -> Result<(), NoMemory>
    ensures { OnOk result (list.new.items ≡ list.old.items ++ optional item) }
{
    if let Some(item) = item {
        list.push(item)?;
    }
    Ok(())
}

// What these texts promise of their targets, in their order.
fn promises_of(
    alloc: Global,
    with_object: bool,
    count: u32,
    fields: &[Field],
    own: &[FieldId],
    names: NameSet,
    texts: &[Text],
) -> Result<Vec<Promise>, NoMemory>
    ensures { IfOk result (λ list. list.items ≡ filter_map (λ text. promise names (target_of with_object count fields.now own.now text)) texts.now) }
{
    let mut list = Vec::new(alloc);
    for text in texts {
        let promise = promise_of(with_object, count, fields, own, names, text);
        put(&mut list, promise)?;
    }
    Ok(list)
}

// What an annotation promises, in the order of its texts.
fn promises_by(
    alloc: Global,
    names: &Names,
    fields: &[Field],
    own: &[FieldId],
    count: u32,
    with_object: bool,
    annotation: Option<&RawAnno>,
) -> Result<Vec<Promise>, NoMemory>
    ensures { IfOk result (λ list. list.items ≡ promises_by names.now fields.now own.now count with_object (option_copied annotation.entry)) }
{
    match annotation {
        None => Ok(Vec::new(alloc)),
        Some(annotation) => {
            let called = numbers_of(names, texts_at(annotation, "methods"));
            let texts = texts_at(annotation, "value");
            promises_of(alloc, with_object, count, fields, own, called, texts)
        }
    }
}

// What was called when the method ends normally.
fn normal_promises(
    alloc: Global,
    names: &Names,
    fields: &[Field],
    own: &[FieldId],
    method: &Method,
) -> Result<Vec<Promise>, NoMemory>
    requires { length method.now.sig.params.items < 2 ^ 32 - 1 }
    ensures { IfOk result (λ list. list.items ≡ normal_promises names.now fields.now own.now method.now) }
{
    let annotation = first_of(AnnotationKind::EnsuresCalledMethods, &method.annos);
    let count = method.sig.params.len() as u32;
    promises_by(
        alloc,
        names,
        fields,
        own,
        count,
        has_object(method.kind),
        annotation,
    )
}

// What was called when the method ends by an exception.
fn throwing_promises(
    alloc: Global,
    names: &Names,
    fields: &[Field],
    own: &[FieldId],
    method: &Method,
) -> Result<Vec<Promise>, NoMemory>
    requires { length method.now.sig.params.items < 2 ^ 32 - 1 }
    ensures { IfOk result (λ list. list.items ≡ throwing_promises names.now fields.now own.now method.now) }
{
    let annotation = first_of(
        AnnotationKind::EnsuresCalledMethodsOnException,
        &method.annos,
    );
    let count = method.sig.params.len() as u32;
    promises_by(
        alloc,
        names,
        fields,
        own,
        count,
        keeps_object(method.kind),
        annotation,
    )
}

/// Gives a method of the program with these classes and fields its effective signature. Where memory runs out it stays as
/// it was.
pub fn sign(
    alloc: Global,
    names: &Names,
    fields: &[Field],
    classes: &[Class],
    method: &mut Method,
) -> Result<(), NoMemory>
    requires { length method.old.sig.params.items < 2 ^ 32 - 1 }
    ensures { OnOk result (IsSignedMethod names.now fields.now classes.now method.old method.new) }
{
    let own = own_fields(classes, method.class);
    let promises = normal_promises(alloc, names, fields, own, method)?;
    let on_throw = throwing_promises(alloc, names, fields, own, method)?;
    let owning_result = has_owning_result(method);
    let alias = alias_position(method);
    let first = first_set(names, method);
    let reset = reset_position(method);
    let interest = interest(names, method);
    let sig = &mut method.sig;
    sig.promises = promises;
    sig.on_throw = on_throw;
    sig.owning_result = owning_result;
    sig.alias = alias;
    sig.first = first;
    sig.reset = reset;
    sig.interest = interest;
    sign_receiver(&mut sig.receiver);
    sign_parameters(names, &mut sig.params);
    Ok(())
}
