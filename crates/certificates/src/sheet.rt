//! The text of a certificate, as it is made.

use rlc_base::{NoMemory, Text};
use std::alloc::Global;

/// The most bytes that a certificate may have.
pub const MAX_CERTIFICATE: usize = 67_108_864;

/// The text of a certificate so far, or nothing from where on it is longer than a certificate may be.
#[derive(Drop)]
pub(crate) struct Sheet {
    text: Option<Text>,
}

impl Sheet {
    /// A text with nothing in it.
    pub(crate) fn new(alloc: Global) -> Sheet {
        Sheet {
            text: Some(Text::new(alloc)),
        }
    }

    /// Puts bytes at the end.
    pub(crate) fn put(&mut self, bytes: &[u8]) -> Result<(), NoMemory> {
        if let Some(text) = &mut self.text {
            if bytes.len() > MAX_CERTIFICATE - text.bytes().len().min(MAX_CERTIFICATE) {
                self.text = None;
            } else {
                text.push_bytes(bytes)?;
            }
        }
        Ok(())
    }

    /// The text, where it is not too long.
    pub(crate) fn into_text(self) -> Option<Text> {
        let Sheet { text } = self;
        text
    }
}
