//! The graph of a body.

ghost use Rattle.std.specs.Prelude.{◌≡◌, ◌<◌, ◌≤◌, length, Some, slice_get, vec_len};
ghost use Rattle.indexmap.specs.IndexSet.{index_set_len};

use crate::arc::Arc;
use indexmap::IndexSet;
use java_control::Lists;

/// The control-flow graph of a body. Its nodes are numbered from 0, and stand for the controls that the body's start
/// reaches; node 0 is the start. The arcs of a node are the steps of its control, in order.
#[derive(Drop)]
pub struct Graph {
    pub(crate) lists: Lists,
    pub(crate) numbers: IndexSet<usize>,
    pub(crate) rows: Vec<Vec<Arc>>,
    ghost few: { length rows.items ≤ 65536 },
    ghost each: { length rows.items ≡ length numbers.keys },
}
