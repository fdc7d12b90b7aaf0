//! Declared classes, in class order.

ghost use Rattle.std.specs.Prelude.{◌≡◌, ◌++◌, ◌∷◌, [], ◌||◌, ℕ, List, map, if◌then◌else◌, IfOk, OnOk};
ghost use Rattle.rlc_base.specs.Names.{texts};
ghost use Rattle.class_names.specs.ClassNames.{is_among};
ghost use Rattle.class_order.specs.Declarations.{class_order, declaration_of, declared_from, declared_in, is_core, is_replaced, is_replacing, library_classes, name_of, stays};

use class_names::{Scope, qualified_name};
use indexmap::IndexSet;
use java_syntax::{ClassDecl, Unit};
use rlc_base::NoMemory;
use std::alloc::Global;

/// A class or interface as it is declared, with the compilation unit in which it stands.
#[derive(Clone, Copy)]
pub struct Declared<'d, 'u> {
    /// The declaration.
    pub declaration: &'d ClassDecl,
    /// Its unit.
    pub scope: Scope<'u>,
}

// Puts the classes of a unit at the end.
fn push_unit<'u>(
    all: &mut Vec<Declared<'u, 'u>>,
    unit: &'u Unit,
    number: usize,
    library: bool,
) -> Result<(), NoMemory>
    ensures { OnOk result (map declaration_of all.new.items ≡ map declaration_of all.old.items ++ declared_in number library unit.now) }
{
    for declaration in &unit.types {
        all.push(Declared {
            declaration,
            scope: Scope {
                unit,
                number,
                library,
            },
        })?;
    }
    Ok(())
}

// Puts the classes of units at the end, where the first unit has this number.
fn push_units<'u>(
    all: &mut Vec<Declared<'u, 'u>>,
    units: &'u [Unit],
    first: usize,
    library: bool,
) -> Result<(), NoMemory>
    ensures { OnOk result (map declaration_of all.new.items ≡ map declaration_of all.old.items ++ declared_from first library units.now) }
{
    for (i, unit) in units.iter().enumerate() {
        let Some(number) = first.checked_add(i) else {
            return Err(NoMemory);
        };
        push_unit(all, unit, number, library)?;
    }
    Ok(())
}

/// The qualified name of a class (JLS 6.7).
pub fn name_of(alloc: Global, class: &Declared) -> Result<Vec<u8>, NoMemory>
    ensures { IfOk result (λ v. v.items ≡ name_of (declaration_of class.now)) }
{
    qualified_name(
        alloc,
        class.scope.unit.package.bytes(),
        class.declaration.name.text.bytes(),
    )
}

// Whether the core library declares the class.
fn is_core(class: &Declared) -> bool
    ensures { result ≡ is_core (declaration_of class.now) }
{
    class.declaration.name.pos.file == 0
}

// Takes the name of a class of a user's stub in.
fn put_replacing(
    alloc: Global,
    names: &mut IndexSet<Vec<u8>>,
    stub: &Declared,
) -> Result<(), NoMemory>
    ensures { OnOk result ((q : List ℕ) → is_among (texts names.new.keys) q ≡ (is_among (texts names.old.keys) q || is_replacing q (declaration_of stub.now))) }
{
    if is_core(stub) {
        return Ok(());
    }
    let name = name_of(alloc, stub)?;
    names.insert(name)?;
    Ok(())
}

// The qualified names of the classes of users' stubs.
fn replacing_names(alloc: Global, stubs: &[Declared]) -> Result<IndexSet<Vec<u8>>, NoMemory>
    ensures { IfOk result (λ s. (q : List ℕ) → is_among (texts s.keys) q ≡ is_replaced (map declaration_of stubs.now) q) }
{
    let mut names = IndexSet::new(alloc);
    for stub in stubs {
        put_replacing(alloc, &mut names, stub)?;
    }
    Ok(names)
}

// Whether a name is one of these.
fn holds(names: &IndexSet<Vec<u8>>, name: &[u8]) -> bool
    ensures { result ≡ is_among (texts names.now.keys) name.now }
{
    names.contains(name)
}

// Whether a class of a stub counts, by whether a class of a user's stub has its name.
fn stays(core: bool, class: &Declared, replaced: bool) -> bool
    ensures { result ≡ stays core (declaration_of class.now) replaced }
{
    !(is_core(class) && class.scope.number != 0) || (core && !replaced)
}

// Puts a class at the end, where it counts.
fn keep<'d, 'u>(
    kept: &mut Vec<Declared<'d, 'u>>,
    class: &Declared<'d, 'u>,
    stays: bool,
) -> Result<(), NoMemory>
    ensures { OnOk result (map declaration_of kept.new.items ≡ map declaration_of kept.old.items ++ (if stays then declaration_of class.now ∷ [] else [])) }
{
    if stays {
        kept.push(*class)?;
    }
    Ok(())
}

// The classes of the stubs that count.
fn library_classes<'d, 'u>(
    alloc: Global,
    core: bool,
    stubs: &[Declared<'d, 'u>],
) -> Result<Vec<Declared<'d, 'u>>, NoMemory>
    ensures { IfOk result (λ v. map declaration_of v.items ≡ library_classes core (map declaration_of stubs.now)) }
{
    let replacing = replacing_names(alloc, stubs)?;
    let mut kept = Vec::new(alloc);
    for stub in stubs {
        let name = name_of(alloc, stub)?;
        let stub_stays = stays(core, stub, holds(&replacing, &name));
        keep(&mut kept, stub, stub_stays)?;
    }
    Ok(kept)
}

/// The classes of a program in class order: those of the stubs, the core library first, and then those of the source files,
/// each as the text has them. A class of the core library's other parts, which are all but its first section, is there only
/// where `core` says that they are read and no class of a user's stub has its name.
pub fn class_order<'u>(
    alloc: Global,
    core: bool,
    stubs: &'u [Unit],
    units: &'u [Unit],
) -> Result<Vec<Declared<'u, 'u>>, NoMemory>
    ensures { IfOk result (λ v. map declaration_of v.items ≡ class_order core stubs.now units.now) }
{
    let mut library = Vec::new(alloc);
    push_units(&mut library, stubs, 0, true)?;
    let mut order = library_classes(alloc, core, &library)?;
    push_units(&mut order, units, stubs.len(), false)?;
    Ok(order)
}
