//! A sink in memory that grows.
ghost use Rattle.std.specs.Prelude.{◌≡◌, []};

use sq_port::{Failed, Sink};
use std::alloc::Global;

/// A put fails only for want of memory.
#[derive(Drop)]
pub(crate) struct TextSink {
    text: Vec<u8>,
    faults: u64,
}

impl TextSink {
    /// With no text, and no memory.
    pub(crate) fn new(alloc: Global) -> TextSink
        ensures { (result.text.items ≡ []) × (result.faults ≡ 0) }
    {
        TextSink {
            text: Vec::new(alloc),
            faults: 0,
        }
    }

    /// The text that it got.
    pub(crate) fn into_text(self) -> Vec<u8>
        ensures { result.items ≡ self.text.items }
    {
        let TextSink { text, faults: _ } = self;
        text
    }
}

impl Sink for TextSink {
    ghost use Rattle.std.specs.Prelude.{Some};

    ghost written = { λ s. Some s.text.items };

    ghost faults = { λ s. s.faults };

    fn put(&mut self, piece: &[u8]) -> Result<usize, Failed> {
        match self.text.extend_from_slice(piece) {
            Ok(()) => Ok(piece.len()),
            Err(_) => {
                self.faults = self.faults.saturating_add(1);
                Err(Failed)
            }
        }
    }
}
