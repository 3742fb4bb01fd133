//! A set of coordinates in layers, one for each size of block.
ghost use Rattle.std.specs.Prelude.{◌≡◌, ◌<◌, ◌≤◌, [], length, IfSome, OnOk};
ghost use Rattle.sq_race.specs.Layers as spec;

use crate::block::Block;
use crate::cells::Cells;
use sq_text::Span;
use std::alloc::{AllocError, Global};
use std::marker::Model;

/// What the blocks of one size have.
#[derive(Drop)]
pub struct Layer {
    pub size: u32,
    pub cells: Cells,
}

/// A set of coordinates that blocks join. Contracts see the list of the layers. Any block may join any layer; that
/// blocks of about one size share one keeps the trees small.
#[derive(Drop)]
pub struct Layers {
    layers: Vec<Layer>,
}

impl Model for Layers {
    ghost use Rattle.std.specs.Prelude.{List};
    ghost use Rattle.sq_race.specs.declared.layers.Layer.{Layer};

    ghost Value = { List Layer };

    ghost use Rattle.sq_race.specs.contracts.cells.Cells as cells;
    ghost use Rattle.std.specs.Coded.{codes};

    ghost coded = { Prim.hlevel (codes, cells.the_row.coded) };

    ghost view = { λ l. l.layers.items };
}

impl Layers {
    pub fn new(alloc: Global) -> Layers
        ensures { result ≡ [] }
    {
        Layers {
            layers: Vec::new(alloc),
        }
    }

    /// Whether a coordinate of the block is in the set.
    pub fn meets(&self, block: &Block) -> bool
        ensures { result ≡ spec.meets_any self.now block.now }
    {
        self.layers.iter().any(|layer| layer.cells.meets(block))
    }

    /// Adds a block.
    pub fn add(&mut self, alloc: Global, block: &Block) -> Result<(), AllocError>
        ensures { OnOk result (spec.Joins block.now self.old self.new) }
    {
        let size = size_of(block);
        match place_of(&self.layers, size) {
            Some(at) => {
                self.layers[at].cells.add(alloc, &Block::whole(), block)?;
                Ok(())
            }
            None => {
                let mut cells = Cells::Free;
                cells.add(alloc, &Block::whole(), block)?;
                self.layers.push(Layer { size, cells })?;
                Ok(())
            }
        }
    }
}

// Where the layer of a size stands.
fn place_of(layers: &[Layer], size: u32) -> Option<usize>
    ensures { IfSome result (λ at. at < length layers.now) }
{
    for at in 0..layers.len() {
        if layers[at].size == size {
            return Some(at);
        }
    }
    None
}

// The size of a block, by powers of two.
fn size_of(block: &Block) -> u32 {
    (bits(block.first) * 64 + bits(block.second)) * 64 + bits(block.third)
}

fn bits(span: Span) -> u32
    ensures { result ≤ 32 }
{
    32 - span.hi.saturating_sub(span.lo).leading_zeros()
}
