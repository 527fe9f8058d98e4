//! A text in memory.

ghost use Rattle.std.specs.Prelude.{◌≡◌, [], None, IfOk};

use crate::sink::TextSink;
use pipe_types::bytes::Bytes;
use std::alloc::{AllocError, Global};

/// The bytes that were written, unless memory was wanting for some.
#[derive(Drop)]
pub struct MemoryText {
    pub bytes: Vec<u8>,
    pub wanting: Option<AllocError>,
}

impl MemoryText {
    /// No bytes.
    pub fn new(alloc: Global) -> MemoryText
        ensures { (result.bytes.items ≡ []) × (result.wanting ≡ None) }
    {
        MemoryText {
            bytes: Vec::new(alloc),
            wanting: None,
        }
    }

    /// All that was written, or want of memory.
    pub fn into_bytes(self) -> Result<Bytes, AllocError>
        ensures { IfOk result (λ bytes. (self.wanting ≡ None) × (bytes ≡ self.bytes.items)) }
    {
        match self.wanting {
            None => Ok(Bytes::from_vec(self.bytes)),
            Some(e) => Err(e),
        }
    }
}

impl TextSink for MemoryText {
    ghost use Rattle.journal_texts.specs.Sinks.{Extends, extends_nothing, extends_both};

    ghost puts = { λ old new text. Extends old.wanting old.bytes.items new.wanting new.bytes.items text };

    fn put(&mut self, text: &[u8]) {
        if self.wanting.is_none() {
            if let Err(e) = self.bytes.extend_from_slice(text) {
                self.wanting = Some(e);
            }
        }
    }

    ghost nothing = { λ now. extends_nothing now.wanting now.bytes.items };

    ghost together = { λ old mid new first second. extends_both old.wanting mid.wanting new.wanting old.bytes.items mid.bytes.items new.bytes.items first second };
}
