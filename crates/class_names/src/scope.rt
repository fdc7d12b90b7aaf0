//! Where a name stands.

use java_syntax::Unit;

/// The compilation unit in which a name stands.
#[derive(Clone, Copy)]
pub struct Scope<'a> {
    /// The unit.
    pub unit: &'a Unit,
    /// Its number among all units: the sections of the stubs first, then the source files.
    pub number: usize,
    /// It is a section of a stub, in which only the classes of stubs are seen.
    pub library: bool,
}
