//! The name of a class.

ghost use Rattle.std.specs.Prelude.{◌≡◌, IfOk};
ghost use Rattle.class_names.specs.ClassNames.{qualified_name};

use rlc_base::{NoMemory, Text};
use std::alloc::Global;

/// A class or interface by its name, with the compilation unit that declares it.
#[derive(Drop)]
pub struct ClassName {
    /// The name of its package; empty for the package without a name (JLS 7.4.2).
    pub package: Text,
    /// Its simple name.
    pub simple: Text,
    /// The number of the unit that declares it.
    pub unit: usize,
    /// A stub declares it.
    pub library: bool,
}

/// The qualified name of a class of a package (JLS 6.7).
pub fn qualified_name(
    alloc: Global,
    package_name: &[u8],
    simple: &[u8],
) -> Result<Vec<u8>, NoMemory>
    ensures { IfOk result (λ v. v.items ≡ qualified_name package_name.now simple.now) }
{
    let mut name = package_name.to_vec(alloc)?;
    if !name.is_empty() {
        name.push(b'.')?;
    }
    name.extend_from_slice(simple)?;
    Ok(name)
}
