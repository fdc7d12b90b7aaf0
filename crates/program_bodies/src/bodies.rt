//! Puts bodies into a program's table.

ghost use Rattle.std.specs.Prelude.{◌≡◌, ◌<◌, ◌^◌, IfOk, length};
ghost use Rattle.program_bodies.specs.ProgramBodies.{AreBodyNumbers, HasBodies, methods_from, noted, with_body};

use program_model::{Body, BodyId, Method, MethodId, Program};
use rlc_base::NoMemory;
use std::alloc::Global;

// How many bodies there are, where each has a number of 32 bits.
fn body_count(bodies: &[Body]) -> Result<u32, NoMemory>
    ensures { IfOk result (λ n. n ≡ length bodies.now) }
{
    match u32::try_from(bodies.len()) {
        Ok(count) => Ok(count),
        Err(_) => Err(NoMemory),
    }
}

// Notes the number of a method's body, where there is such a method.
fn note_body(numbers: &mut [Option<BodyId>], method: MethodId, body: BodyId)
    ensures { numbers.new ≡ noted numbers.old method.0 body }
{
    let method = method.0 as usize;
    if method < numbers.len() {
        numbers[method] = Some(body);
    }
}

// For each of the first methods the number of its body, if it has one. What is noted for an earlier body replaces what is noted for
// a later one.
fn body_numbers(
    alloc: Global,
    bodies: &[Body],
    methods: usize,
) -> Result<Vec<Option<BodyId>>, NoMemory>
    ensures numbers { IfOk result (λ v. AreBodyNumbers bodies.now methods v.items) }
    ensures few { IfOk result (λ v. length bodies.now < 2 ^ 32) }
{
    let mut numbers = vec![in alloc; None; methods]?;
    let mut number = body_count(bodies)?;
    while number > 0 {
        number -= 1;
        note_body(&mut numbers, bodies[number as usize].method, BodyId(number));
    }
    Ok(numbers)
}

fn with_body(body: Option<BodyId>, method: Method) -> Method
    ensures { result ≡ with_body body method }
{
    Method { body, ..method }
}

// The methods, each with the number of its body.
fn methods_with(
    alloc: Global,
    bodies: &[Body],
    methods: Vec<Method>,
) -> Result<Vec<Method>, NoMemory>
    ensures methods { IfOk result (λ v. v.items ≡ methods_from bodies.now 0 methods.items) }
    ensures few { IfOk result (λ v. length bodies.now < 2 ^ 32) }
{
    let numbers = body_numbers(alloc, bodies, methods.len())?;
    let mut made = Vec::new(alloc);
    for method in methods {
        made.push(with_body(numbers[made.len()], method))?;
    }
    Ok(made)
}

/// The table with these bodies, in this order: each method has the number of its body. Bodies that it had before are dropped.
///
/// # Errors
///
/// Where memory runs out, for which 2 ^ 32 bodies or more count too.
pub fn with_bodies(alloc: Global, table: Program, bodies: Vec<Body>) -> Result<Program, NoMemory>
    ensures { IfOk result (HasBodies table bodies.items) }
{
    let Program {
        classes,
        methods,
        fields,
        bodies: _earlier,
        ignored,
        exact,
        names,
        core,
    } = table;
    match methods_with(alloc, &bodies, methods) {
        Ok(methods) => Ok(Program {
            classes,
            methods,
            fields,
            bodies,
            ignored,
            exact,
            names,
            core,
        }),
        Err(error) => Err(error),
    }
}
