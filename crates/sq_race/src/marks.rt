//! What earlier iterations did to one array.
ghost use Rattle.std.specs.Prelude.{◌≡◌, OnOk, if◌then◌else◌};
ghost use Rattle.sq_race.specs.Layers.{meets_any};
ghost use Rattle.sq_race.specs.Marks as spec;

use crate::block::Block;
use crate::layers::Layers;
use std::alloc::{AllocError, Global};

/// The coordinates that were read by accesses that don't write, and those that were written.
#[derive(Drop)]
pub struct Marks {
    pub read: Layers,
    pub written: Layers,
}

impl Marks {
    pub fn new(alloc: Global) -> Marks
        ensures { result ≡ spec.blank }
    {
        Marks {
            read: Layers::new(alloc),
            written: Layers::new(alloc),
        }
    }

    /// Whether a further access of the block may race.
    pub fn meets(&self, block: &Block, writes: bool) -> bool
        ensures { result ≡ meets_any (if writes then spec.touched self.now else self.now.written) block.now }
    {
        if writes {
            self.read.meets(block) || self.written.meets(block)
        } else {
            self.written.meets(block)
        }
    }

    pub fn add(&mut self, alloc: Global, block: &Block, writes: bool) -> Result<(), AllocError>
        ensures { OnOk result (spec.Marked block.now writes self.old self.new) }
    {
        if writes {
            self.written.add(alloc, block)?;
        } else {
            self.read.add(alloc, block)?;
        }
        Ok(())
    }
}
