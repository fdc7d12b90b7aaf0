//! What a search comes to.

use fact_pool::Handle;

/// A node, and the handle of the fact with which it is reached, if there is one.
#[derive(Clone, Copy, PartialEq, Eq, Hash)]
pub struct Visit {
    pub node: u32,
    pub fact: Option<Handle>,
}

/// The step by which a visit was reached first: the place of the visit that it goes on from, and the place of the arc
/// among those of its node, both counted from 0.
#[derive(Clone, Copy)]
pub struct Source {
    pub visit: usize,
    pub arc: usize,
}

/// A node and a fact, if there is one, to which a search comes: at the start, or by a step.
#[derive(Clone, Copy)]
pub struct Point<F> {
    pub node: u32,
    pub fact: Option<F>,
    pub source: Option<Source>,
}
