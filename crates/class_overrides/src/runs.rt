//! The method that an object of a class runs.

ghost use Rattle.std.specs.Prelude.{◌≡◌, ◌&&◌, not};
ghost use Rattle.std.specs.List.{find, flat_map};
ghost use Rattle.program_model.specs.Overrides.{is_alike, is_method_kind, method_run, methods_of, super_classes};

use crate::alike::{alike_in, has_code};
use crate::carried::carried_run;
use class_members::{is_method_kind, super_of};
use program_model::{ClassId, Method, MethodId, Program};

// The method alike to `n` that the class or the nearest of its super classes declares.
fn nearest(p: &Program, n: &Method, class: ClassId) -> Option<MethodId>
    ensures { result ≡ find (is_alike p.now n.now) (flat_map (methods_of p.now) (super_classes p.now class)) }
{
    let mut next = Some(class);
    for step in 0..p.classes.len() {
        match next {
            None => return None,
            Some(class) => match alike_in(p, n, class) {
                Some(found) => return Some(found),
                None => next = super_of(p, class),
            },
        }
    }
    None
}

// The method that the class runs where a call names `n`, by a walk up its super classes and one through its interfaces.
#[tactic(auto, using(crate::proofs::Walks::runs_found))]
fn run_above(p: &Program, n: &Method, class: ClassId) -> Option<MethodId>
    ensures { result ≡ method_run p.now n.now class }
{
    match nearest(p, n, class) {
        None => carried_run(p, n, class),
        Some(found) => {
            if has_code(p, found) {
                Some(found)
            } else {
                None
            }
        }
    }
}

// Whether another method may be alike to this one: it is no constructor and no constant, and not private.
fn may_have_alike(n: &Method) -> bool
    ensures { result ≡ (is_method_kind n.now.kind && not n.now.is_private) }
{
    is_method_kind(n.kind) && !n.is_private
}

/// The method that an object of the class runs where a call names `n` (JLS 15.12.4.4): the nearest alike to it that the
/// class or a super class declares, where that one has a body, and else that of a stub's interface which has a body in the
/// class. None where the class has no body for it. A constructor and a private method are alike to none, and so nothing is
/// looked through for them.
pub fn method_run(p: &Program, n: &Method, class: ClassId) -> Option<MethodId>
    ensures { result ≡ method_run p.now n.now class }
{
    if may_have_alike(n) {
        run_above(p, n, class)
    } else {
        None
    }
}
