//! The `main` of a program.

ghost use Rattle.std.specs.Prelude.{◌≡◌};
ghost use Rattle.std.specs.List.{find};
ghost use Rattle.std.specs.Option.{option_copied};
ghost use Rattle.program_model.specs.Lookups.{method_at};
ghost use Rattle.ledger_interp.specs.Mains.{class_named, is_main, is_main_in, is_program_class_named, is_static, is_texts, main_in, main_of, takes_texts};

use program_model::{Class, ElementType, Method, MethodId, MethodKind, ParamSig, Program, VType};

fn is_static(kind: MethodKind) -> bool
    ensures { result ≡ is_static kind }
{
    match kind {
        MethodKind::Static => true,
        MethodKind::Instance | MethodKind::Ctor | MethodKind::Constant => false,
    }
}

// Whether this is the type `String[]`.
fn is_texts(vtype: VType) -> bool
    ensures { result ≡ is_texts vtype }
{
    match vtype {
        VType::Arr(ElementType::Str) => true,
        VType::Arr(ElementType::Primitive(_))
        | VType::Primitive(_)
        | VType::Str
        | VType::Obj(_)
        | VType::NullType => false,
    }
}

// Whether one parameter stands here, which is an array of texts.
fn takes_texts(params: &[ParamSig]) -> bool
    ensures { result ≡ takes_texts params.now }
{
    match params {
        [only] => is_texts(only.vtype),
        _ => false,
    }
}

fn is_main(m: &Method) -> bool
    ensures { result ≡ is_main m.now }
{
    is_static(m.kind)
        && m.sig.result.is_none()
        && m.name.bytes() == b"main".as_slice()
        && takes_texts(&m.sig.params)
}

fn is_main_at(p: &Program, method: MethodId) -> bool
    ensures { result ≡ is_main_in (method_at p.now method) }
{
    match p.method(method) {
        None => false,
        Some(m) => is_main(m),
    }
}

fn main_among(p: &Program, methods: &[MethodId]) -> Option<MethodId>
    ensures { result ≡ find (λ m. is_main_in (method_at p.now m)) methods.now }
{
    methods.iter().copied().find(|m| is_main_at(p, *m))
}

fn is_program_class_named(name: &str, class: &Class) -> bool
    ensures { result ≡ is_program_class_named name.now class.now }
{
    !class.library && class.name.bytes() == name.as_bytes()
}

// The class of the program with this qualified name.
fn class_named<'a>(p: &'a Program, name: &str) -> Option<&'a Class>
    ensures { option_copied result ≡ class_named p.now name.now }
{
    p.classes
        .iter()
        .find(|class| is_program_class_named(name, class))
}

/// The `main` (JLS 12.1.4) that the class of the program with this qualified name declares: a static method without a
/// result, named `main`, whose one parameter is an array of texts. None where no class of the program has the name, and
/// where it declares no such method. A class of a stub is no class of the program. It takes no memory.
pub(crate) fn main_of(p: &Program, name: &str) -> Option<MethodId>
    ensures { result ≡ main_of p.now name.now }
{
    match class_named(p, name) {
        None => None,
        Some(class) => main_among(p, &class.methods),
    }
}
