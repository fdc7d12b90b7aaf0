//! The settings of a check. They stand beside the trees, since the layer that makes the table of classes reads both.

use rlc_base::Text;

/// What a check takes for granted: which exceptions are ignored, and which part of the core library is read.
#[derive(Drop)]
pub struct Settings {
    /// The version of the settings document, 1 or 2.
    pub version: u32,
    /// The qualified names of the classes whose exceptions are ignored, each with its subclasses. A name that is no class
    /// has no effect.
    pub ignored: Vec<Text>,
    /// The qualified names of the classes whose exceptions are ignored, each without its subclasses. Empty under version 1.
    pub exact: Vec<Text>,
    /// Whether the parts of the core library beside `java.lang` are read.
    pub core: bool,
}
