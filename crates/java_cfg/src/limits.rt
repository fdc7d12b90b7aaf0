//! The limits on a body: how many controls it may reach, and how many places its frames may have.

ghost use Rattle.std.specs.Prelude.{◌≡◌, length, filter};
ghost use Rattle.java_control.specs.Owned.{fields_in, is_owning};
ghost use Rattle.java_cfg.specs.Limits.{method_of, method_place, owning_count, variable_count, variables_in};
ghost use Rattle.std.specs.Option.{option_copied};

use program_model::{BodyId, FieldId, Method, Program};
use rlc_base::Pos;

/// The most nodes that a graph may have.
pub const MAX_NODES: usize = 65536;

/// The most parameters and locals that a body may have.
pub const MAX_VARIABLES: usize = 160;

/// The most fields with the mark `@Owning` that the class of a body may have.
pub const MAX_OWNING_FIELDS: usize = 16;

/// The depths of temps that an action may name are those below this number.
pub const MAX_TEMPS: u64 = 64;

fn method_of(p: &Program, b: BodyId) -> Option<&Method>
    ensures { option_copied result ≡ method_of p.now b }
{
    match p.body(b) {
        None => None,
        Some(body) => p.method(body.method),
    }
}

/// The place of the method whose body it is.
pub fn method_place(p: &Program, b: BodyId) -> Pos
    ensures { result ≡ method_place p.now b }
{
    match method_of(p, b) {
        None => Pos {
            file: 0,
            line: 0,
            col: 0,
        },
        Some(method) => method.pos,
    }
}

fn is_owning(p: &Program, f: FieldId) -> bool
    ensures { result ≡ is_owning p.now f }
{
    match p.field(f) {
        None => false,
        Some(found) => found.owning,
    }
}

fn count_owning(p: &Program, fields: &[FieldId]) -> usize
    ensures { result ≡ length (filter (is_owning p.now) fields.now) }
{
    fields.iter().filter(|f| is_owning(p, **f)).count()
}

/// How many fields of the class of a body's method have the mark `@Owning`.
pub fn owning_count(p: &Program, b: BodyId) -> usize
    ensures { result ≡ owning_count p.now b }
{
    match method_of(p, b) {
        None => 0,
        Some(method) => match p.class(method.class) {
            None => 0,
            Some(class) => count_owning(p, &class.fields),
        },
    }
}

/// How many parameters and locals a body has.
pub fn variable_count(p: &Program, b: BodyId) -> usize
    ensures { result ≡ variable_count p.now b }
{
    match p.body(b) {
        None => 0,
        Some(body) => body.vars.len(),
    }
}
