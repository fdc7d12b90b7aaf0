//! The search for what stands above a class.

ghost use Rattle.std.specs.Prelude.{◌≡◌, ◌+◌, ◌<◌, ◌∷◌, [], true, false, length, All, IfOk, OnOk};
ghost use Rattle.program_model.specs.declared.kinds.ClassId.{ClassId};
ghost use Rattle.class_names.specs.ClassNames.{rows_in};
ghost use Rattle.class_headers.specs.Search.{AreAbove, AreFound, AreMarked, Grows, is_marked, open_count};
ghost use Rattle.class_headers.specs.SuperTypes.{AreKnown, right_above};

use program_model::ClassId;
use rlc_base::NoMemory;
use std::alloc::Global;

// What stands right above a class.
pub(crate) fn right_above(direct: &[Vec<ClassId>], class: ClassId) -> &[ClassId]
    ensures { result.now ≡ right_above (rows_in direct.now) class }
{
    match direct.get(class.0 as usize) {
        None => &[],
        Some(row) => row.as_slice(),
    }
}

// Marks a class and puts it at the end of those found, if it has no mark yet.
fn put(found: &mut Vec<ClassId>, marks: &mut Vec<bool>, class: ClassId) -> Result<(), NoMemory>
    requires within { class.0 < length marks.old.items }
    requires marked { AreMarked found.old.items marks.old.items }
    ensures grows { OnOk result (Grows found.old.items found.new.items (class ∷ [])) }
    ensures marked { OnOk result (AreMarked found.new.items marks.new.items) }
    ensures count { OnOk result (open_count marks.new.items + length found.new.items ≡ open_count marks.old.items + length found.old.items) }
    ensures length { OnOk result (length marks.new.items ≡ length marks.old.items) }
{
    let place = class.0 as usize;
    if marks[place] {
        return Ok(());
    }
    found.push(class)?;
    marks[place] = true;
    Ok(())
}

// Marks classes and puts them at the end, those that have no mark yet.
fn put_all(
    found: &mut Vec<ClassId>,
    marks: &mut Vec<bool>,
    classes: &[ClassId],
) -> Result<(), NoMemory>
    requires within { All (λ c. c.0 < length marks.old.items) classes.now }
    requires marked { AreMarked found.old.items marks.old.items }
    ensures grows { OnOk result (Grows found.old.items found.new.items classes.now) }
    ensures marked { OnOk result (AreMarked found.new.items marks.new.items) }
    ensures count { OnOk result (open_count marks.new.items + length found.new.items ≡ open_count marks.old.items + length found.old.items) }
    ensures length { OnOk result (length marks.new.items ≡ length marks.old.items) }
{
    for class in classes {
        put(found, marks, *class)?;
    }
    Ok(())
}

/// The class and what it stands under, each once, where no class has a mark yet. They have one then.
fn search(
    alloc: Global,
    direct: &[Vec<ClassId>],
    marks: &mut Vec<bool>,
    class: ClassId,
) -> Result<Vec<ClassId>, NoMemory>
    requires known { AreKnown (rows_in direct.now) }
    requires within { class.0 < length direct.now }
    requires long { length marks.old.items ≡ length direct.now }
    requires clear { AreMarked [] marks.old.items }
    ensures found { IfOk result (λ v. AreFound (rows_in direct.now) class v.items) }
    ensures marked { IfOk result (λ v. AreMarked v.items marks.new.items) }
    ensures length { OnOk result (length marks.new.items ≡ length marks.old.items) }
{
    let mut found = Vec::new(alloc);
    put(&mut found, marks, class)?;
    let mut at = 0;
    'search: while at < found.len() {
        let next = found[at];
        put_all(&mut found, marks, right_above(direct, next))?;
        at += 1;
    }
    Ok(found)
}

/// As many marks as there are classes, none of them set.
pub fn clear_marks(alloc: Global, count: usize) -> Result<Vec<bool>, NoMemory>
    ensures clear { IfOk result (λ m. AreMarked [] m.items) }
    ensures length { IfOk result (λ m. length m.items ≡ count) }
{
    let marks = Vec::from_elem(alloc, false, count)?;
    Ok(marks)
}

// Takes the marks of these classes away.
fn clear(marks: &mut Vec<bool>, found: &[ClassId])
    requires { AreMarked found.now marks.old.items }
    ensures clear { AreMarked [] marks.new.items }
    ensures length { length marks.new.items ≡ length marks.old.items }
{
    for class in found {
        unmark(marks, *class);
    }
}

// Takes the mark of a class away.
fn unmark(marks: &mut Vec<bool>, class: ClassId)
    ensures gone { is_marked marks.new.items class ≡ false }
    ensures others { (c : ClassId) → is_marked marks.new.items c ≡ true → is_marked marks.old.items c ≡ true }
    ensures length { length marks.new.items ≡ length marks.old.items }
{
    let place = class.0 as usize;
    if place < marks.len() {
        marks[place] = false;
    }
}

/// The class and what it stands under, each once, by marks of which none is set, before and after. It takes the time of what
/// it finds.
pub fn found_above(
    alloc: Global,
    direct: &[Vec<ClassId>],
    marks: &mut Vec<bool>,
    class: ClassId,
) -> Result<Vec<ClassId>, NoMemory>
    requires known { AreKnown (rows_in direct.now) }
    requires within { class.0 < length direct.now }
    requires long { length marks.old.items ≡ length direct.now }
    requires clear { AreMarked [] marks.old.items }
    ensures found { IfOk result (λ v. AreFound (rows_in direct.now) class v.items) }
    ensures clear { OnOk result (AreMarked [] marks.new.items) }
    ensures length { OnOk result (length marks.new.items ≡ length marks.old.items) }
{
    let found = search(alloc, direct, marks, class)?;
    clear(marks, &found);
    Ok(found)
}

/// Marks of the classes that the class stands under, itself among them.
pub(crate) fn marks_above(
    alloc: Global,
    direct: &[Vec<ClassId>],
    class: ClassId,
) -> Result<Vec<bool>, NoMemory>
    requires known { AreKnown (rows_in direct.now) }
    requires within { class.0 < length direct.now }
    ensures above { IfOk result (λ m. AreAbove (rows_in direct.now) class m.items) }
    ensures length { IfOk result (λ m. length m.items ≡ length direct.now) }
{
    let mut marks = clear_marks(alloc, direct.len())?;
    search(alloc, direct, &mut marks, class)?;
    Ok(marks)
}
