//! The table of names.

ghost use Rattle.std.specs.Prelude.{◌≡◌, ◌+◌, ◌*◌, ◌<◌, ◌≤◌, ◌^◌, [], ◌++◌, fold, length, map, IfErr, IfOk, OnOk};
ghost use Rattle.std.specs.List.{flat_map};
ghost use Rattle.rlc_base.specs.Codes.{stop_of};
ghost use Rattle.must_call_types.specs.NameTable.{annotations, annotations_of, past_limit, place_number, with_names, IsInTextOrder, IsNameStop, IsNameTable, IsPastStop};

use annotation_kinds::names_listed;
use program_model::{Class, Field, Method, ParamSig, Program, RawAnno};
use rlc_base::{Code, InternFail, Names, NoMemory, Pos, Refusal, Stop};
use std::alloc::Global;

// Puts these annotations at the end.
fn put_annotations<'a>(
    list: &mut Vec<&'a RawAnno>,
    annotations: &'a [RawAnno],
) -> Result<(), NoMemory>
    ensures { OnOk result (map (λ a. a.now) list.new.items ≡ map (λ a. a.now) list.old.items ++ annotations.now) }
{
    for annotation in annotations {
        list.push(annotation)?;
    }
    Ok(())
}

// A place as a number, in the order of files, lines and columns.
fn place_number(pos: Pos) -> u128
    ensures { result ≡ place_number pos }
{
    (u128::from(pos.file) * 0x1_0000_0000 + u128::from(pos.line)) * 0x1_0000_0000
        + u128::from(pos.col)
}

// Brings the annotations into the order of their places.
fn sort_annotations(list: &mut Vec<&RawAnno>) -> Result<(), NoMemory>
    ensures { OnOk result (IsInTextOrder (map (λ a. a.now) list.old.items) (map (λ a. a.now) list.new.items)) }
{
    list.sort_by_key(|annotation| place_number(annotation.pos))?;
    Ok(())
}

// Puts the annotations of classes and interfaces at the end.
fn put_of_classes<'a>(list: &mut Vec<&'a RawAnno>, classes: &'a [Class]) -> Result<(), NoMemory>
    ensures { OnOk result (map (λ a. a.now) list.new.items ≡ map (λ a. a.now) list.old.items ++ flat_map (λ k. k.annos.items) classes.now) }
{
    for class in classes {
        put_annotations(list, &class.annos)?;
    }
    Ok(())
}

// Puts the annotations of fields at the end.
fn put_of_fields<'a>(list: &mut Vec<&'a RawAnno>, fields: &'a [Field]) -> Result<(), NoMemory>
    ensures { OnOk result (map (λ a. a.now) list.new.items ≡ map (λ a. a.now) list.old.items ++ flat_map (λ x. x.annos.items) fields.now) }
{
    for field in fields {
        put_annotations(list, &field.annos)?;
    }
    Ok(())
}

// Puts the annotations of parameters at the end.
fn put_of_parameters<'a>(
    list: &mut Vec<&'a RawAnno>,
    parameters: &'a [ParamSig],
) -> Result<(), NoMemory>
    ensures { OnOk result (map (λ a. a.now) list.new.items ≡ map (λ a. a.now) list.old.items ++ flat_map (λ x. x.annos.items) parameters.now) }
{
    for parameter in parameters {
        put_annotations(list, &parameter.annos)?;
    }
    Ok(())
}

// Puts the annotations of a method, constructor or constant and of its parameters at the end.
fn put_of_method<'a>(list: &mut Vec<&'a RawAnno>, method: &'a Method) -> Result<(), NoMemory>
    ensures { OnOk result (map (λ a. a.now) list.new.items ≡ map (λ a. a.now) list.old.items ++ annotations_of method.now) }
{
    put_annotations(list, &method.annos)?;
    put_annotations(list, &method.sig.receiver.annos)?;
    put_of_parameters(list, &method.sig.params)
}

// Puts those of all methods at the end.
fn put_of_methods<'a>(list: &mut Vec<&'a RawAnno>, methods: &'a [Method]) -> Result<(), NoMemory>
    ensures { OnOk result (map (λ a. a.now) list.new.items ≡ map (λ a. a.now) list.old.items ++ flat_map annotations_of methods.now) }
{
    for method in methods {
        put_of_method(list, method)?;
    }
    Ok(())
}

// The annotations of classes, members and parameters.
fn annotations(alloc: Global, p: &Program) -> Result<Vec<&RawAnno>, NoMemory>
    ensures { IfOk result (λ list. map (λ a. a.now) list.items ≡ annotations p.now) }
{
    let mut list = Vec::new(alloc);
    put_of_classes(&mut list, &p.classes)?;
    put_of_fields(&mut list, &p.fields)?;
    put_of_methods(&mut list, &p.methods)?;
    Ok(list)
}

// Takes the names that an annotation lists into the table.
fn put_names(table: &mut Names, annotation: &RawAnno) -> Result<(), InternFail>
    requires { length table.old ≤ 128 }
    ensures taken { OnOk result (table.new ≡ with_names table.old annotation.now) }
    ensures few { OnOk result (length table.new ≤ 128) }
    ensures full { result ≡ Err InternFail.TooManyNames → 128 < length (with_names table.old annotation.now) }
{
    for name in names_listed(annotation) {
        match table.intern(name.bytes()) {
            Ok(_number) => {}
            Err(fail) => return Err(fail),
        }
    }
    Ok(())
}

// The refusal of a program that lists too many names.
fn too_many_names(pos: Pos) -> Stop
    ensures { result ≡ stop_of (record { code = Code.TooManyNames; pos = pos }) }
{
    Refusal {
        code: Code::TooManyNames,
        pos,
    }
    .stop()
}

// The table of the names that these annotations list, in this order.
fn table_of(alloc: Global, annotations: &[&RawAnno]) -> Result<Names, Stop>
    ensures table { IfOk result (λ table. table ≡ fold with_names [] (map (λ a. a.now) annotations.now)) }
    ensures few { OnOk result (past_limit [] (map (λ a. a.now) annotations.now) ≡ None) }
    ensures stopped { IfErr result (IsPastStop (map (λ a. a.now) annotations.now)) }
{
    let mut table = Names::new(alloc);
    for annotation in annotations {
        match put_names(&mut table, annotation) {
            Ok(()) => {}
            Err(InternFail::TooManyNames) => return Err(too_many_names(annotation.pos)),
            Err(InternFail::NoMemory) => return Err(Stop::NoMemory),
        }
    }
    Ok(table)
}

/// The table of the names that the program lists, each once, in the order of files and places.
///
/// # Errors
///
/// `TooMuch` with `TooManyNames` where they are more than 128: at the annotation that brings the 129th. Memory may run out.
pub fn name_table(alloc: Global, p: &Program) -> Result<Names, Stop>
    ensures table { IfOk result (IsNameTable p.now) }
    ensures stopped { IfErr result (IsNameStop p.now) }
{
    let mut list = annotations(alloc, p)?;
    sort_annotations(&mut list)?;
    table_of(alloc, &list)
}
