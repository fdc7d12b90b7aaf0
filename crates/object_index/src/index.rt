//! The index of a heap.

ghost use Rattle.std.specs.Prelude.{◌≡◌};
ghost use Rattle.object_index.specs.ObjectIndexes.{aliases_of, contents_of};

use crate::lists::list_of;
use std::alloc::Global;

/// For each object which others its fields may own, and which may be linked to it. The lists of the objects stand in the order of their
/// numbers, which begin at 1; an object for which there is none has the empty list.
#[derive(Drop)]
pub struct ObjectIndex {
    /// The objects that fields of the object may own.
    pub contents: Vec<Vec<u64>>,
    /// The objects that may be linked to the object, each of which was made after it.
    pub aliases: Vec<Vec<u64>>,
}

impl ObjectIndex {
    /// An index without lists. It takes no memory.
    pub fn new(alloc: Global) -> ObjectIndex {
        ObjectIndex {
            contents: Vec::new(alloc),
            aliases: Vec::new(alloc),
        }
    }

    /// The objects that fields of the object with this number may own.
    pub fn contents_of(&self, holder: u64) -> &[u64]
        ensures { result.now ≡ contents_of self.now holder }
    {
        list_of(&self.contents, holder)
    }

    /// The objects that may be linked to the object with this number.
    pub fn aliases_of(&self, object: u64) -> &[u64]
        ensures { result.now ≡ aliases_of self.now object }
    {
        list_of(&self.aliases, object)
    }
}
