//! One run of a program at one moment, over a table of lists.

use control_actions::Lists;
use ledger_obligations::ActiveFrame;
use ledger_state::{ArrayObject, Entry, Heap, StoredStatic};
use object_index::ObjectIndex;
use program_model::ClassId;
use stub_conduct::Choice;

/// One run of a program at one moment.
#[derive(Drop)]
pub struct RunState {
    /// What is left to run, of all frames.
    pub lists: Lists,
    /// The frame of `main` stands first.
    pub frames: Vec<ActiveFrame>,
    pub heap: Heap,
    pub arrays: Vec<ArrayObject>,
    pub statics: Vec<StoredStatic>,
    /// The lines of the ledger so far.
    pub entries: Vec<Entry>,
    pub choices: Vec<Choice>,
    /// How many choices are used.
    pub used: usize,
    /// Where no frame is left, the class of the exception by which `main` ended.
    pub ended: Option<ClassId>,
    /// Where this is true, no object is left to lose; where it is false, nothing is said.
    pub settled: bool,
    /// For each frame, that of `main` first, the objects that it may own: where `settled` is true, at least those which it owns.
    pub owned: Vec<Vec<u64>>,
    /// Which objects the fields of an object may own, and which may be linked to it: where `settled` is true, it is the index of the heap.
    pub index: ObjectIndex,
}
