//! The conduct of the library at a call: the ways of a choice, and what each gives.

ghost use Rattle.std.specs.Prelude.{◌≡◌, ◌∷◌, [], length, slice_get};
ghost use Rattle.stub_conduct.specs.Conducts.{array_length, beyond, conduct, cut, existing, existing_way, given, given_result, instead, null_way, plain, thrown};

use crate::choice::{Choice, Conduct};
use crate::classes::picked;
use program_model::{ClassId, Method, MethodId, MethodKind, Primitive, Program, Sig, VType};

/// The value cut to a primitive type: its lowest bits, as many as the type has, and of a truth value one.
pub fn cut(to: Primitive, value: i64) -> i64
    ensures { result ≡ cut to value }
{
    match to {
        Primitive::Boolean => (value.cast_unsigned() % 2) as i64,
        Primitive::Byte => i64::from(((value.cast_unsigned() % 256) as u8).cast_signed()),
        Primitive::Char => (value.cast_unsigned() % 65536) as i64,
        Primitive::Int => i64::from(((value.cast_unsigned() % 0x1_0000_0000) as u32).cast_signed()),
        Primitive::Long => value,
    }
}

fn array_length(value: i64) -> i64
    ensures { result ≡ array_length value }
{
    (value.cast_unsigned() % 0x8000_0000) as i64
}

// What a plain return gives where this type is declared.
fn given(p: &Program, vtype: VType, value: i64) -> Conduct
    ensures { result ≡ given p.now vtype value }
{
    match vtype {
        VType::Primitive(to) => Conduct::Value(cut(to, value)),
        VType::Str => Conduct::Value(0),
        VType::Arr(_) => Conduct::Value(array_length(value)),
        VType::Obj(class) => Conduct::Fresh(picked(p, class, value)),
        VType::NullType => Conduct::Null,
    }
}

fn given_result(p: &Program, result_type: Option<VType>, value: i64) -> Conduct
    ensures { result ≡ given_result p.now result_type value }
{
    match result_type {
        None => Conduct::Nothing,
        Some(vtype) => given(p, vtype, value),
    }
}

fn plain(p: &Program, m: &Method, value: i64) -> Conduct
    ensures { result ≡ plain p.now m.now.kind m.now value }
{
    match m.kind {
        MethodKind::Ctor => Conduct::Fresh(m.class),
        MethodKind::Instance | MethodKind::Static | MethodKind::Constant => {
            given_result(p, m.sig.result, value)
        }
    }
}

// The argument itself for an alias result, and null for every other class, text or array.
fn instead(p: &Program, alias: Option<u32>, vtype: VType, value: i64) -> Conduct
    ensures { result ≡ instead p.now alias vtype value }
{
    match vtype {
        VType::Primitive(_) => given(p, vtype, value),
        VType::Obj(_) => match alias {
            None => Conduct::Null,
            Some(_) => Conduct::Argument,
        },
        VType::Str | VType::Arr(_) | VType::NullType => Conduct::Null,
    }
}

fn null_way(p: &Program, m: &Method, value: i64) -> Conduct
    ensures { result ≡ null_way p.now m.now.kind m.now value }
{
    if m.kind == MethodKind::Ctor {
        return Conduct::Fresh(m.class);
    }
    match m.sig.result {
        None => Conduct::Nothing,
        Some(vtype) => instead(p, m.sig.alias, vtype, value),
    }
}

// The existing object with this number for a class result that is neither owning nor an alias.
fn existing(p: &Program, sig: &Sig, vtype: VType, value: i64) -> Conduct
    ensures { result ≡ existing p.now sig.now vtype value }
{
    match vtype {
        VType::Obj(class) => {
            if sig.owning_result || sig.alias.is_some() || value < 0 {
                Conduct::Fresh(picked(p, class, value))
            } else {
                Conduct::Existing(value.cast_unsigned())
            }
        }
        VType::Primitive(_) | VType::Str | VType::Arr(_) | VType::NullType => {
            given(p, vtype, value)
        }
    }
}

fn existing_way(p: &Program, m: &Method, value: i64) -> Conduct
    ensures { result ≡ existing_way p.now m.now.kind m.now value }
{
    if m.kind == MethodKind::Ctor {
        return Conduct::Fresh(m.class);
    }
    match m.sig.result {
        None => Conduct::Nothing,
        Some(vtype) => existing(p, &m.sig, vtype, value),
    }
}

// Behind the throws clause stand the roots of the unchecked exceptions.
fn unchecked_root(p: &Program, place: u64) -> Option<ClassId>
    ensures { result ≡ slice_get (p.now.core.runtime_exception ∷ p.now.core.error ∷ []) place }
{
    match place {
        0 => Some(p.core.runtime_exception),
        1 => Some(p.core.error),
        _ => None,
    }
}

// The class at this place among those that a call of the method may throw.
fn thrown_at(p: &Program, m: &Method, place: u64) -> Option<ClassId>
    ensures { result ≡ slice_get (thrown p.now m.now.kind m.now) place }
{
    if m.kind == MethodKind::Constant {
        return None;
    }
    let declared = m.sig.throws.len() as u64;
    if place < declared {
        Some(m.sig.throws[place as usize])
    } else {
        unchecked_root(p, place - declared)
    }
}

// How many classes a call of the method may throw by.
fn thrown_count(p: &Program, m: &Method) -> u64
    ensures { result ≡ length (thrown p.now m.now.kind m.now) }
{
    match m.kind {
        MethodKind::Constant => 0,
        MethodKind::Instance | MethodKind::Static | MethodKind::Ctor => {
            m.sig.throws.len() as u64 + 2
        }
    }
}

fn beyond(p: &Program, m: &Method, further: u64, value: i64) -> Conduct
    ensures { result ≡ beyond p.now m.now further value }
{
    match further {
        0 => null_way(p, m, value),
        1 => existing_way(p, m, value),
        _ => plain(p, m, value),
    }
}

/// What the library does at a call of the method, or at a read of the constant, by this choice.
pub fn conduct(p: &Program, m: MethodId, c: Choice) -> Conduct
    ensures { result ≡ conduct p.now m c }
{
    match p.method(m) {
        None => Conduct::Nothing,
        Some(method) => {
            if c.way == 0 {
                return plain(p, method, c.value);
            }
            let place = u64::from(c.way) - 1;
            match thrown_at(p, method, place) {
                Some(class) => Conduct::Throws(picked(p, class, c.value)),
                None => beyond(p, method, place - thrown_count(p, method), c.value),
            }
        }
    }
}
