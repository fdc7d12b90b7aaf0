//! The signatures of the table, of which nothing but types and the throws clause is read yet.

ghost use Rattle.std.specs.Prelude.{◌≡◌, ◌<◌, ◌-◌, ◌^◌, All, IfOk, IsSome, Some, false, length, map};
ghost use Rattle.std.specs.List.{AllZip};
ghost use Rattle.std.specs.Option.{option_copied};
ghost use Rattle.class_names.specs.Meanings.{unit_of};
ghost use Rattle.class_names.specs.WrittenTypes.{type_of_class, written_type};
ghost use Rattle.class_headers.specs.SuperTypes.{class_named};
ghost use Rattle.class_declarations.specs.Members.{written_of};
ghost use Rattle.java_annotations.specs.Annotations.{annotation_in};
ghost use Rattle.table_members.specs.Methods.{IsKnown, IsKnownHead, IsKnownResult, IsNamedClass, IsParameter, IsReceiver, IsSignature, IsUnsigned, IsWrittenAs, receiver_annotations};

use class_declarations::MethodTree;
use class_headers::class_named;
use class_names::{ClassNames, Scope, written_type};
use java_annotations::raw_annotations;
use java_syntax::{Name, Param, Typ};
use program_model::{ClassId, ParamSig, RawAnno, Sig, VType};
use rlc_base::{NameSet, NoMemory};
use std::alloc::Global;

// How many parameters a method has at most, so that their numbers and their count fit 32 bits.
const MAX_PARAMETERS: usize = 0xFFFF_FFFE;

/// The type that is written, where its name means a class.
pub fn known_type(names: &ClassNames, scope: &Scope, typ: &Typ) -> VType
    requires { IsKnown names.now (unit_of scope.now) typ.now }
    ensures { written_type names.now (unit_of scope.now) typ.now ≡ Some result }
{
    match written_type(names, scope, typ) {
        Some(vtype) => vtype,
        None => unreachable!(),
    }
}

// The class that is named, where its name means one.
fn known_class(names: &ClassNames, scope: &Scope, name: &Name) -> ClassId
    requires { IsSome (class_named names.now (unit_of scope.now) name.now) }
    ensures { class_named names.now (unit_of scope.now) name.now ≡ Some result }
{
    match class_named(names, scope, name) {
        Some(class) => class,
        None => unreachable!(),
    }
}

// The type of a class's objects.
fn type_of_this(names: &ClassNames, class: ClassId) -> VType
    ensures { type_of_class names.now class false ≡ Some result }
{
    match names.class(class) {
        None => VType::Obj(class),
        Some(_) => {
            if names.name(class) == b"java.lang.String".as_slice() {
                VType::Str
            } else {
                VType::Obj(class)
            }
        }
    }
}

fn parameter(
    alloc: Global,
    names: &ClassNames,
    scope: &Scope,
    written: &Param,
) -> Result<ParamSig, NoMemory>
    requires { IsKnown names.now (unit_of scope.now) written.now.typ }
    ensures { IfOk result (λ x. IsParameter names.now (unit_of scope.now) written.now x) }
{
    let annos = raw_annotations(alloc, &written.modifiers)?;
    Ok(ParamSig {
        vtype: known_type(names, scope, &written.typ),
        owning: false,
        before: NameSet::empty(),
        annos,
    })
}

// The declared parameters. More of them than their numbers reach count as want of memory.
fn parameters(
    alloc: Global,
    names: &ClassNames,
    scope: &Scope,
    written: &[Param],
) -> Result<Vec<ParamSig>, NoMemory>
    requires { All (λ x. IsKnown names.now (unit_of scope.now) x.typ) written.now }
    ensures parameters { IfOk result (λ v. AllZip (IsParameter names.now (unit_of scope.now)) written.now v.items) }
    ensures few { IfOk result (λ v. length v.items < 2 ^ 32 - 1) }
{
    let mut made = Vec::new(alloc);
    'each: for param in written {
        made.push(parameter(alloc, names, scope, param)?)?;
    }
    if made.len() > MAX_PARAMETERS {
        return Err(NoMemory);
    }
    Ok(made)
}

// The annotations of a receiver parameter.
fn on_receiver(alloc: Global, written: Option<&Param>) -> Result<Vec<RawAnno>, NoMemory>
    ensures { IfOk result (λ v. map annotation_in v.items ≡ receiver_annotations (option_copied written.entry)) }
{
    match written {
        None => Ok(Vec::new(alloc)),
        Some(param) => raw_annotations(alloc, &param.modifiers),
    }
}

fn receiver(
    alloc: Global,
    names: &ClassNames,
    class: ClassId,
    written: Option<&Param>,
) -> Result<ParamSig, NoMemory>
    ensures { IfOk result (λ x. IsReceiver names.now class (option_copied written.entry) x) }
{
    let annos = on_receiver(alloc, written)?;
    Ok(ParamSig {
        vtype: type_of_this(names, class),
        owning: false,
        before: NameSet::empty(),
        annos,
    })
}

fn result_type(names: &ClassNames, scope: &Scope, written: Option<&Typ>) -> Option<VType>
    requires { IsKnownResult names.now (unit_of scope.now) (option_copied written) }
    ensures { IsWrittenAs names.now (unit_of scope.now) (option_copied written.entry) result }
{
    match written {
        None => None,
        Some(typ) => Some(known_type(names, scope, typ)),
    }
}

// The classes of a throws clause.
fn thrown(
    alloc: Global,
    names: &ClassNames,
    scope: &Scope,
    written: &[Name],
) -> Result<Vec<ClassId>, NoMemory>
    requires { All (λ n. IsSome (class_named names.now (unit_of scope.now) n)) written.now }
    ensures { IfOk result (λ v. AllZip (IsNamedClass names.now (unit_of scope.now)) written.now v.items) }
{
    let mut classes = Vec::new(alloc);
    'each: for name in written {
        classes.push(known_class(names, scope, name))?;
    }
    Ok(classes)
}

// A signature of these parts.
fn unsigned(
    alloc: Global,
    params: Vec<ParamSig>,
    receiver: ParamSig,
    result_type: Option<VType>,
    throws: Vec<ClassId>,
) -> Sig
    ensures params { result.params.items ≡ params.items }
    ensures receiver { result.receiver ≡ receiver }
    ensures result_type { result.result ≡ result_type }
    ensures throws { result.throws.items ≡ throws.items }
    ensures unsigned { IsUnsigned result }
{
    Sig {
        params,
        receiver,
        result: result_type,
        throws,
        owning_result: false,
        alias: None,
        first: None,
        reset: None,
        promises: Vec::new(alloc),
        on_throw: Vec::new(alloc),
        interest: None,
    }
}

/// The signature of what a class has as a method, where each name in it means a class.
///
/// # Errors
///
/// Memory may run out. 2^32 - 1 parameters and more count as that.
pub fn signature(
    alloc: Global,
    names: &ClassNames,
    scope: &Scope,
    class: ClassId,
    tree: &MethodTree,
) -> Result<Sig, NoMemory>
    requires { IsKnownHead names.now (unit_of scope.now) (written_of tree.now) }
    ensures signature { IfOk result (λ s. IsSignature names.now class (unit_of scope.now) (written_of tree.now) s) }
    ensures few { IfOk result (λ s. length s.params.items < 2 ^ 32 - 1) }
{
    let returned = result_type(names, scope, tree.result());
    let throws = thrown(alloc, names, scope, tree.throws())?;
    let params = parameters(alloc, names, scope, tree.parameters())?;
    match receiver(alloc, names, class, tree.receiver()) {
        Ok(this) => Ok(unsigned(alloc, params, this, returned, throws)),
        Err(error) => Err(error),
    }
}
