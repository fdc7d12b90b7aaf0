//! The qualified names of classes, and the classes that have the name of an earlier one.

ghost use Rattle.std.specs.Prelude.{◌≡◌, [], IfOk};
ghost use Rattle.rlc_base.specs.Names.{texts};
ghost use Rattle.class_names.specs.ClassNames.{doubles, names_of};

use crate::class_name::{ClassName, qualified_name};
use indexmap::IndexSet;
use rlc_base::NoMemory;
use std::alloc::Global;

/// The qualified names of the classes, each once, and the numbers of those that have the name of an earlier one.
#[derive(Drop)]
pub(crate) struct Qualified {
    pub names: IndexSet<Vec<u8>>,
    pub doubles: Vec<usize>,
}

/// The qualified names of these classes.
pub(crate) fn qualified_names(alloc: Global, classes: &[ClassName]) -> Result<Qualified, NoMemory>
    ensures doubles { IfOk result (λ q. q.doubles.items ≡ doubles classes.now) }
    ensures names { IfOk result (λ q. q.doubles.items ≡ [] → texts q.names.keys ≡ names_of classes.now) }
{
    let mut names = IndexSet::new(alloc);
    let mut found = Vec::new(alloc);
    for (i, class) in classes.iter().enumerate() {
        let name = qualified_name(alloc, class.package.bytes(), class.simple.bytes())?;
        if !names.insert(name)? {
            found.push(i)?;
        }
    }
    Ok(Qualified {
        names,
        doubles: found,
    })
}
