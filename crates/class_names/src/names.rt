//! The index of the classes of a program by their names.

ghost use Rattle.std.specs.Prelude.{◌≡◌, ◌≤◌, ◌^◌, length, IfOk};
ghost use Rattle.std.specs.Option.{option_copied};
ghost use Rattle.class_names.specs.Indexes.{IsIndexed};
ghost use Rattle.class_names.specs.ClassNames.{class_at, class_of_name, name_in, simply_named};

use crate::class_name::ClassName;
use crate::doubles::qualified_names;
use crate::rows::{Rows, rows_of};
use indexmap::IndexSet;
use program_model::ClassId;
use rlc_base::NoMemory;
use std::alloc::Global;
use std::marker::Model;

/// The classes of a program with an index of their names. A class is named by its number in class order.
/// Contracts see it as the list of its classes.
#[derive(Drop)]
pub struct ClassNames {
    classes: Vec<ClassName>,
    qualified: IndexSet<Vec<u8>>,
    rows: Rows,
}

/// What indexing answers: the index, or the numbers of the classes that have the qualified name of an earlier one.
#[derive(Drop)]
pub enum Indexed {
    /// Each class has a name of its own.
    Names(ClassNames),
    /// These have not, in class order.
    Doubles(Vec<usize>),
}

impl Model for ClassNames {
    ghost use Rattle.std.specs.Prelude.{List};
    ghost use Rattle.rlc_base.specs.Names.{texts};
    ghost use Rattle.class_names.specs.declared.class_name.ClassName.{ClassName};
    ghost use Rattle.class_names.specs.ClassNames.{IsIndex, rows_in};

    ghost Value = { List ClassName };

    ghost view = { λ s. s.classes.items };

    ghost invariant = { λ s. IsIndex s.classes.items (texts s.qualified.keys) (texts s.rows.names.keys) (rows_in s.rows.classes.items) };
}

impl ClassNames {
    /// The index of these classes, in class order, or those that have the qualified name of an earlier one.
    ///
    /// # Errors
    ///
    /// Where memory runs out, for which more classes than there are numbers of classes, 2 ^ 32, count too.
    pub fn new(alloc: Global, classes: Vec<ClassName>) -> Result<Indexed, NoMemory>
        ensures { IfOk result (λ r. IsIndexed classes.items r) }
    {
        if classes.len() > u32::MAX as usize {
            return Err(NoMemory);
        }
        let qualified = qualified_names(alloc, &classes)?;
        if !qualified.doubles.is_empty() {
            return Ok(Indexed::Doubles(qualified.doubles));
        }
        let rows = rows_of(alloc, &classes)?;
        Ok(Indexed::Names(ClassNames {
            classes,
            qualified: qualified.names,
            rows,
        }))
    }

    /// How many classes there are, at most 2 ^ 32.
    pub fn len(&self) -> usize
        ensures len { result ≡ length self.now }
        ensures few { length self.now ≤ 2 ^ 32 }
    {
        self.classes.len()
    }

    /// The class with this number.
    pub fn class(&self, class: ClassId) -> Option<&ClassName>
        ensures { option_copied result ≡ class_at self.now class }
    {
        self.classes.get(class.0 as usize)
    }

    /// The qualified name of the class with this number, and an empty one for a number of no class.
    pub fn name(&self, class: ClassId) -> &[u8]
        ensures { result.now ≡ name_in (class_at self.now class) }
    {
        match self.qualified.get_index(class.0 as usize) {
            None => &[],
            Some(name) => name.as_slice(),
        }
    }

    /// The class whose qualified name this is.
    pub fn find(&self, name: &[u8]) -> Option<ClassId>
        ensures { result ≡ class_of_name self.now name.now }
    {
        match self.qualified.get_index_of(name) {
            None => None,
            Some(place) => Some(ClassId(place as u32)),
        }
    }

    /// The classes whose simple name this is, in class order.
    pub fn simply_named(&self, name: &[u8]) -> &[ClassId]
        ensures { result.now ≡ simply_named self.now name.now }
    {
        match self.rows.names.get_index_of(name) {
            None => &[],
            Some(place) => self.rows.classes[place].as_slice(),
        }
    }
}
