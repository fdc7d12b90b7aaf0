//! Must-call sets with their inheritance.

ghost use Rattle.std.specs.Prelude.{◌≡◌, ◌+◌, ◌<◌, ◌≤◌, All, fold, length, map, slice_index_or, slice_set};
ghost use Rattle.program_model.specs.declared.program.Class.{Class};
ghost use Rattle.program_model.specs.Lookups.{optional};
ghost use Rattle.program_model.specs.NameSets.{no_names};
ghost use Rattle.must_call_types.specs.MustSets.{but_set, inherited_or_own, set_at, settled, with_own_set, with_set, IsGraded, IsMustSet, IsSettledTo};

use effective_signatures::{own_or, own_set};
use program_model::{Class, ClassId};
use rlc_base::{NameSet, Names};

// Gives a class the set of its own annotation.
fn put_own_set(names: &Names, class: &mut Class)
    ensures { class.new ≡ with_own_set names.now class.old }
{
    class.own_must = own_set(names, &class.annos);
}

/// Gives each class the set of its own annotation.
pub fn put_own_sets(names: &Names, classes: &mut [Class])
    ensures { classes.new ≡ map (with_own_set names.now) classes.old }
{
    for class in classes.iter_mut() {
        put_own_set(names, class);
    }
}

// The must-call set that the class has so far.
fn set_at(classes: &[Class], class: ClassId) -> NameSet
    ensures { result ≡ set_at classes.now class }
{
    match classes.get(class.0 as usize) {
        None => NameSet::empty(),
        Some(found) => found.must,
    }
}

// The union of a set and those of these classes.
fn join_sets(classes: &[Class], first: NameSet, others: &[ClassId]) -> NameSet
    ensures { result ≡ fold (with_set classes.now) first others.now }
{
    let mut set = first;
    for class in others {
        set = set.union(set_at(classes, *class));
    }
    set
}

// The set of the super class, where there is one.
fn super_set(classes: &[Class], super_class: Option<ClassId>) -> NameSet
    ensures { result ≡ fold (with_set classes.now) no_names (optional super_class) }
{
    match super_class {
        None => NameSet::empty(),
        Some(class) => NameSet::empty().union(set_at(classes, class)),
    }
}

// The set of its own, or where it has none the union of those of its super class and its interfaces.
fn inherited_or_own(classes: &[Class], class: &Class) -> NameSet
    ensures { result ≡ inherited_or_own classes.now class.now }
{
    let above = super_set(classes, class.sup);
    own_or(class.own_must, join_sets(classes, above, &class.faces))
}

// How many are above a class, itself included.
fn level_of(classes: &[Class], class: usize) -> usize
    requires { class < length classes.now }
    ensures { (k : Class) → result ≡ length (slice_index_or classes.now class k).above.items }
{
    classes[class].above.len()
}

// The same of the class that stands there.
fn set_of(classes: &[Class], class: usize) -> NameSet
    requires { class < length classes.now }
    ensures { (k : Class) → result ≡ inherited_or_own classes.now (slice_index_or classes.now class k) }
{
    inherited_or_own(classes, &classes[class])
}

// Gives the class its must-call set, from those of its super types.
fn settle_class(classes: &mut [Class], class: usize)
    requires { class < length classes.old }
    ensures { (k : Class) → classes.new ≡ slice_set classes.old class (settled classes.old (slice_index_or classes.old class k)) }
{
    let set = set_of(classes, class);
    classes[class].must = set;
}

// Gives the class its must-call set, where it has so many above it.
fn settle_at(classes: &mut [Class], size: usize, class: usize)
    requires class { class < length classes.old }
    requires graded { IsGraded classes.old }
    requires before { IsSettledTo classes.old size class }
    ensures kept { map but_set classes.new ≡ map but_set classes.old }
    ensures after { IsSettledTo classes.new size (class + 1) }
{
    if level_of(classes, class) == size {
        settle_class(classes, class);
    }
}

// Gives their must-call sets to the classes that have so many above them, where those with fewer have theirs.
fn settle_level(classes: &mut [Class], size: usize)
    requires graded { IsGraded classes.old }
    requires before { IsSettledTo classes.old size 0 }
    ensures kept { map but_set classes.new ≡ map but_set classes.old }
    ensures after { IsSettledTo classes.new (size + 1) 0 }
{
    for class in 0..classes.len() {
        settle_at(classes, size, class);
    }
}

// No class has more above it.
fn greatest_level(classes: &[Class]) -> usize
    ensures { All (λ k. length k.above.items ≤ result) classes.now }
{
    let mut greatest = 0;
    for class in classes {
        greatest = greatest.max(class.above.len());
    }
    greatest
}

/// Gives each class its must-call set, from those of its super types.
pub fn settle(classes: &mut [Class])
    requires { IsGraded classes.old }
    ensures kept { map but_set classes.new ≡ map but_set classes.old }
    ensures sets { All (IsMustSet classes.new) classes.new }
{
    let greatest = greatest_level(classes);
    for size in 0..=greatest {
        settle_level(classes, size);
    }
}
