//! The names of all classes, by the table and the source files.

ghost use Rattle.std.specs.Prelude.{◌≡◌, ◌++◌, ◌≤◌, ◌∷◌, [], drop, length, map, if◌then◌else◌, IfOk, OnOk};
ghost use Rattle.class_names.specs.ClassNames.{doubles};
ghost use Rattle.class_order.specs.Declarations.{class_name_of, class_names, declaration_of};
ghost use Rattle.source_classes.specs.SourceClasses.{all_names, behind_last_dot, library_classes, library_name, package_name, simple_name};

use class_names::{ClassName, ClassNames, Indexed};
use class_order::{Declared, class_order};
use java_syntax::Unit;
use program_model::{Class, Program};
use rlc_base::{NoMemory, Text};
use std::alloc::Global;

// Where what stands behind the last dot of a name begins: at 0 where it has no dot.
fn last_part_start(name: &[u8]) -> usize
    ensures within { result ≤ length name.now }
    ensures behind { drop result name.now ≡ behind_last_dot name.now name.now }
{
    let mut start = 0;
    for (i, byte) in name.iter().enumerate() {
        if *byte == b'.' {
            start = i + 1;
        }
    }
    start
}

// The package of a qualified name (JLS 6.2): what stands in front of its last dot.
fn package_name(name: &[u8]) -> &[u8]
    ensures { result.now ≡ package_name name.now }
{
    let start = last_part_start(name);
    &name[..start.saturating_sub(1)]
}

// The simple name of a qualified name (JLS 6.2): what stands behind the dot of its package, and the whole name where that is empty.
#[tactic(auto, using(crate::proofs::NameLemmas::simple_behind, crate::proofs::NameLemmas::simple_whole))]
fn simple_name(name: &[u8]) -> &[u8]
    ensures { result.now ≡ simple_name name.now }
{
    let start = last_part_start(name);
    if start > 1 { &name[start..] } else { name }
}

fn text(alloc: Global, bytes: &[u8]) -> Result<Text, NoMemory>
    ensures { IfOk result (λ t. t ≡ bytes.now) }
{
    Ok(Text::from_bytes(bytes.to_vec(alloc)?))
}

// A class of a stub by its name, which no unit of a source file declares: they have other numbers than this.
fn library_name(alloc: Global, unit: usize, class: &Class) -> Result<ClassName, NoMemory>
    ensures { IfOk result (λ k. k ≡ library_name unit class.now) }
{
    let name = class.name.bytes();
    Ok(ClassName {
        package: text(alloc, package_name(name))?,
        simple: text(alloc, simple_name(name))?,
        unit,
        library: true,
    })
}

// A class of a source file by its name.
fn source_name(class: &Declared) -> Result<ClassName, NoMemory>
    ensures { IfOk result (λ k. k ≡ class_name_of (declaration_of class.now)) }
{
    Ok(ClassName {
        package: class.scope.unit.package.clone()?,
        simple: class.declaration.name.text.clone()?,
        unit: class.scope.number,
        library: class.scope.library,
    })
}

// Puts a class at the end by its name, where a stub declares it.
fn push_library_name(
    alloc: Global,
    names: &mut Vec<ClassName>,
    unit: usize,
    class: &Class,
) -> Result<(), NoMemory>
    ensures { OnOk result (names.new.items ≡ names.old.items ++ (if class.now.library then library_name unit class.now ∷ [] else [])) }
{
    if class.library {
        names.push(library_name(alloc, unit, class)?)?;
    }
    Ok(())
}

// The classes of the stubs by their names.
fn library_names(alloc: Global, p: &Program, unit: usize) -> Result<Vec<ClassName>, NoMemory>
    ensures { IfOk result (λ v. v.items ≡ map (library_name unit) (library_classes p.now)) }
{
    let mut names = Vec::new(alloc);
    for class in &p.classes {
        push_library_name(alloc, &mut names, unit, class)?;
    }
    Ok(names)
}

// Puts the classes of the source files at the end by their names.
fn push_source_names(names: &mut Vec<ClassName>, order: &[Declared]) -> Result<(), NoMemory>
    ensures { OnOk result (names.new.items ≡ names.old.items ++ class_names (map declaration_of order.now)) }
{
    for class in order {
        names.push(source_name(class)?)?;
    }
    Ok(())
}

/// The index of all classes of the program by their names, in class order.
///
/// # Errors
///
/// Where memory runs out, for which more classes than there are numbers of classes, 2 ^ 32, count too.
pub fn index_names(alloc: Global, p: &Program, units: &[Unit]) -> Result<ClassNames, NoMemory>
    requires { doubles (all_names p.now units.now) ≡ [] }
    ensures { IfOk result (λ names. names ≡ all_names p.now units.now) }
{
    let order = class_order(alloc, false, &[], units)?;
    let mut names = library_names(alloc, p, units.len())?;
    push_source_names(&mut names, &order)?;
    match ClassNames::new(alloc, names)? {
        Indexed::Names(found) => Ok(found),
        Indexed::Doubles(_) => unreachable!(),
    }
}
