//! The stub files that cases may take.

use case_files::FormFail;
use outside::Files;
use std::alloc::Global;

/// A stub file.
#[derive(Drop)]
pub struct StubFile {
    pub name: String,
    pub bytes: Vec<u8>,
}

/// Whether this is the name of a stub file.
pub fn is_stub(file: &str) -> bool {
    file.ends_with(".astub")
}

/// Reads one more stub file.
///
/// # Errors
///
/// `NotRead` where it cannot be read or is too big. Memory may run out.
pub fn read_stub<F: Files>(
    alloc: Global,
    files: &mut F,
    name: &str,
    stubs: &mut Vec<StubFile>,
) -> Result<(), FormFail> {
    let mut bytes = Vec::new(alloc);
    files.read(name, &mut bytes)?;
    let name = String::from_str(alloc, name)?;
    stubs.push(StubFile { name, bytes })?;
    Ok(())
}
