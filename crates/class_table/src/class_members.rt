//! The members and annotations of the classes of the table.

ghost use Rattle.std.specs.Prelude.{◌≡◌, length, map, IfOk, OnOk};
ghost use Rattle.rlc_base.specs.Names.{texts};
ghost use Rattle.program_model.specs.declared.kinds.FieldId.{FieldId};
ghost use Rattle.program_model.specs.declared.kinds.MethodId.{MethodId};
ghost use Rattle.class_order.specs.Declarations.{declaration_of};
ghost use Rattle.class_headers.specs.Headers.{header_of};
ghost use Rattle.class_table.specs.Numbers.{row_at};
ghost use Rattle.class_table.specs.Table.{AllHave, HasMembers, bare_of};

use class_order::Declared;
use java_annotations::raw_annotations;
use program_model::{Class, FieldId, MethodId};
use rlc_base::{NameSet, NoMemory};
use std::alloc::Global;

// Fields by their numbers.
fn field_ids(alloc: Global, numbers: &[u32]) -> Result<Vec<FieldId>, NoMemory>
    ensures { IfOk result (λ v. map (λ (f : FieldId). f.0) v.items ≡ numbers.now) }
{
    let mut ids = Vec::new(alloc);
    for number in numbers {
        ids.push(FieldId(*number))?;
    }
    Ok(ids)
}

// Methods by their numbers.
fn method_ids(alloc: Global, numbers: &[u32]) -> Result<Vec<MethodId>, NoMemory>
    ensures { IfOk result (λ v. map (λ (m : MethodId). m.0) v.items ≡ numbers.now) }
{
    let mut ids = Vec::new(alloc);
    for number in numbers {
        ids.push(MethodId(*number))?;
    }
    Ok(ids)
}

// Gives a class its members, by their numbers, and its annotations.
fn put_members(
    alloc: Global,
    class: &mut Class,
    declared: &Declared,
    fields: &[u32],
    methods: &[u32],
) -> Result<(), NoMemory>
    ensures bare { OnOk result (bare_of class.new ≡ bare_of class.old) }
    ensures members { OnOk result (HasMembers fields.now methods.now (declaration_of declared.now) class.new) }
{
    let annos = raw_annotations(alloc, &declared.declaration.modifiers)?;
    let own_fields = field_ids(alloc, fields)?;
    let own_methods = method_ids(alloc, methods)?;
    class.annos = annos;
    class.fields = own_fields;
    class.methods = own_methods;
    class.own_must = None;
    class.must = NameSet::empty();
    Ok(())
}

/// Gives the classes their members, by the numbers in their rows, and their annotations.
pub fn put_all_members(
    alloc: Global,
    classes: &mut [Class],
    order: &[Declared],
    fields: &[Vec<u32>],
    methods: &[Vec<u32>],
) -> Result<(), NoMemory>
    requires long { length classes.old ≡ length order.now }
    requires fields { length fields.now ≡ length order.now }
    requires methods { length methods.now ≡ length order.now }
    ensures bare { OnOk result (map bare_of classes.new ≡ map bare_of classes.old) }
    ensures members { OnOk result (AllHave (row_at (texts fields.now)) (row_at (texts methods.now)) (map declaration_of order.now) classes.new) }
{
    for number in 0..order.len() {
        put_members(
            alloc,
            &mut classes[number],
            &order[number],
            &fields[number],
            &methods[number],
        )?;
    }
    Ok(())
}
