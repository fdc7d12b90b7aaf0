//! What a name means as that of a class.

use program_model::ClassId;

/// What a name means as that of a class, where it stands.
#[derive(Clone, Copy, Debug, PartialEq, Eq)]
pub enum Meaning {
    /// This class or interface.
    Named(ClassId),
    /// No class has the name there.
    NoClass,
    /// Two classes have it on the level that decides.
    TwoClasses,
}
