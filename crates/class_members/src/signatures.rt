//! Method signatures (JLS 8.4.2).

ghost use Rattle.std.specs.Prelude.{◌≡◌, zip};
ghost use Rattle.std.specs.List.{list_all};
ghost use Rattle.program_model.specs.declared.kinds.ElementType.TheVariants as elements;
ghost use Rattle.program_model.specs.Overrides.{are_types, is_array_of, is_method_kind, is_null_type, is_object_of, is_primitive, is_text, is_type};
ghost use Rattle.class_members.specs.Signatures.{have_one_signature};

use program_model::{ClassId, ElementType, Method, MethodKind, ParamSig, Primitive, VType};

/// Whether it is a method, and no constructor or constant.
pub fn is_method_kind(kind: MethodKind) -> bool
    ensures { result ≡ is_method_kind kind }
{
    match kind {
        MethodKind::Instance => true,
        MethodKind::Static => true,
        MethodKind::Ctor => false,
        MethodKind::Constant => false,
    }
}

fn is_primitive(t: Primitive, other: VType) -> bool
    ensures { result ≡ is_primitive t other }
{
    match other {
        VType::Primitive(other) => t == other,
        _ => false,
    }
}

fn is_text(t: VType) -> bool
    ensures { result ≡ is_text t }
{
    matches!(t, VType::Str)
}

fn is_array_of(t: ElementType, other: VType) -> bool
    ensures { result ≡ is_array_of t other }
{
    match other {
        VType::Arr(other) => t == other,
        _ => false,
    }
}

fn is_object_of(class: ClassId, other: VType) -> bool
    ensures { result ≡ is_object_of class other }
{
    match other {
        VType::Obj(other) => class.0 == other.0,
        _ => false,
    }
}

fn is_null_type(t: VType) -> bool
    ensures { result ≡ is_null_type t }
{
    matches!(t, VType::NullType)
}

/// Whether the two types are one.
pub fn is_type(t: VType, other: VType) -> bool
    ensures { result ≡ is_type t other }
{
    match t {
        VType::Primitive(t) => is_primitive(t, other),
        VType::Str => is_text(other),
        VType::Arr(t) => is_array_of(t, other),
        VType::Obj(class) => is_object_of(class, other),
        VType::NullType => is_null_type(other),
    }
}

fn are_paired(params: &[ParamSig], others: &[ParamSig]) -> bool
    ensures { result ≡ list_all (λ x. is_type x.0.vtype x.1.vtype) (zip params.now others.now) }
{
    params
        .iter()
        .zip(others)
        .all(|x| is_type(x.0.vtype, x.1.vtype))
}

/// Whether two lists of parameters have the same types (JLS 8.4.2).
#[tactic(auto, using(crate::proofs::Types::types_by_pairs))]
pub fn are_types(params: &[ParamSig], others: &[ParamSig]) -> bool
    ensures { result ≡ are_types params.now others.now }
{
    params.len() == others.len() && are_paired(params, others)
}

/// Whether two methods have one name and one list of parameter types (JLS 8.4.2).
pub fn have_one_signature(m: &Method, other: &Method) -> bool
    ensures { result ≡ have_one_signature m.now other.now }
{
    m.name == other.name && are_types(&m.sig.params, &other.sig.params)
}
