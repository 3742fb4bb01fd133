//! A set of coordinates, as a tree of cuts.
ghost use Rattle.std.specs.Prelude.{◌≡◌, IfOk, OnOk};
ghost use Rattle.sq_race.specs.Cells as spec;

use crate::block::{Block, Line};
use std::alloc::{AllocError, Global};

/// A set of coordinates: none, all, or those below a line that the first tree has, and those from it on that the
/// second has.
#[derive(Drop)]
pub enum Cells {
    Free,
    Full,
    Cut(Line, Box<Cells>, Box<Cells>),
}

impl Cells {
    /// Whether a coordinate of the block is in the set.
    pub fn meets(&self, block: &Block) -> bool
        ensures { result ≡ spec.meets self.now block.now }
    {
        match self {
            Cells::Free => false,
            Cells::Full => true,
            Cells::Cut(line, low, high) => {
                let part = block.along(line.axis);
                (part.lo < line.at && low.meets(&block.below(*line)))
                    || (line.at < part.hi && high.meets(&block.above(*line)))
            }
        }
    }

    #[cycle(adding)]
    /// Adds a block to what the set has in a region.
    pub fn add(&mut self, alloc: Global, region: &Block, block: &Block) -> Result<(), AllocError>
        ensures { OnOk result (spec.Adds region.now block.now self.old self.new) }
    {
        if block.covers(region) {
            *self = Cells::Full;
            return Ok(());
        }
        match self {
            Cells::Full => Ok(()),
            Cells::Free => {
                *self = filled(alloc, region, block)?;
                Ok(())
            }
            Cells::Cut(line, low, high) => {
                low.add_part(alloc, &region.below(*line), block)?;
                high.add_part(alloc, &region.above(*line), block)?;
                self.join();
                Ok(())
            }
        }
    }

    #[cycle(adding)]
    fn add_part(&mut self, alloc: Global, region: &Block, block: &Block) -> Result<(), AllocError>
        ensures { OnOk result (spec.Adds region.now block.now self.old self.new) }
    {
        if region.overlaps(block) {
            self.add(alloc, region, block)?;
        }
        Ok(())
    }

    // Two full halves are one full set.
    fn join(&mut self)
        ensures { spec.IsSame self.old self.new }
    {
        if let Cells::Cut(_, low, high) = self {
            if low.is_full() && high.is_full() {
                *self = Cells::Full;
            }
        }
    }

    fn is_full(&self) -> bool
        ensures { result ≡ spec.is_full self.now }
    {
        match self {
            Cells::Full => true,
            _ => false,
        }
    }
}

// The set that has just the block in a region.
fn filled(alloc: Global, region: &Block, block: &Block) -> Result<Cells, AllocError>
    ensures { IfOk result (λ cells. spec.Fills region.now block.now cells) }
{
    if !region.overlaps(block) {
        return Ok(Cells::Free);
    }
    if block.covers(region) {
        return Ok(Cells::Full);
    }
    let line = region.line(block);
    let low = filled(alloc, &region.below(line), block)?;
    let high = filled(alloc, &region.above(line), block)?;
    let low = Box::new(alloc, low)?;
    let high = Box::new(alloc, high)?;
    Ok(Cells::Cut(line, low, high))
}
