//! The classes above a class.

ghost use Rattle.std.specs.Prelude.{◌≡◌, IfOk};
ghost use Rattle.program_model.specs.Lookups.{class_at};
ghost use Rattle.program_model.specs.Overrides.{is_interface, is_library, super_classes, super_in};

use program_model::{ClassId, Program};
use rlc_base::NoMemory;
use std::alloc::Global;

/// Whether the number names an interface.
pub fn is_interface(p: &Program, class: ClassId) -> bool
    ensures { result ≡ is_interface p.now class }
{
    match p.class(class) {
        None => false,
        Some(found) => found.interface,
    }
}

/// Whether a stub declares the class.
pub fn is_library(p: &Program, class: ClassId) -> bool
    ensures { result ≡ is_library p.now class }
{
    match p.class(class) {
        None => false,
        Some(found) => found.library,
    }
}

/// The direct super class (JLS 8.1.4), which `Object` and the interfaces don't have.
pub fn super_of(p: &Program, class: ClassId) -> Option<ClassId>
    ensures { result ≡ super_in (class_at p.now class) }
{
    match p.class(class) {
        None => None,
        Some(found) => found.sup,
    }
}

/// The class and its super classes (JLS 8.1.4), nearest first.
pub fn super_classes(alloc: Global, p: &Program, class: ClassId) -> Result<Vec<ClassId>, NoMemory>
    ensures { IfOk result (λ v. v.items ≡ super_classes p.now class) }
{
    let mut found = Vec::new(alloc);
    let mut next = Some(class);
    for step in 0..p.classes.len() {
        match next {
            None => {}
            Some(class) => {
                found.push(class)?;
                next = super_of(p, class);
            }
        }
    }
    Ok(found)
}
