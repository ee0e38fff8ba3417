//! The least box that holds all blocks.

ghost use Rattle.std.specs.Prelude.{◌≡◌, ◌↔◌, ◌<◌, ◌≤◌};
ghost use Rattle.std.specs.Prelude.{All, IfOk, IsTrue, length};
ghost use Rattle.layout_drawing.specs.Blocks.{IsExtent, IsOfDims, IsOwned, highs, lows};
ghost use Rattle.layout_drawing.specs.Drawing.{IsLeastBox, cell_count, most_cells};

use crate::blocks::Block;
use crate::span::Span;
use std::alloc::{AllocError, Global};

/// How many cells a drawing may have.
const MOST_CELLS: u128 = 1_000_000;

// From the least number of all blocks in a dimension to their greatest.
fn extent(dims: usize, blocks: &[Block], d: usize) -> Span
    requires some { 0 < length blocks.now }
    requires dims { All (IsOfDims dims) blocks.now }
    requires dimension { d < dims }
    ensures { IsExtent blocks.now d result }
{
    let mut span = blocks[0].spans[d];
    for block in blocks {
        span = span.joined(&block.spans[d]);
    }
    span
}

/// The least box that holds all blocks, by its span in each dimension.
pub fn least_box(alloc: Global, dims: usize, blocks: &[Block]) -> Result<Vec<Span>, AllocError>
    requires some { 0 < length blocks.now }
    requires dims { All (IsOfDims dims) blocks.now }
    ensures least { IfOk result (λ v.
        IsLeastBox dims (IsOwned blocks.now) (lows v.items) (highs v.items)) }
    ensures dims { IfOk result (λ v. length v.items ≡ dims) }
{
    let mut spans = Vec::new(alloc);
    for d in 0..dims {
        spans.push(extent(dims, blocks, d))?;
    }
    Ok(spans)
}

/// Whether the box has no more cells than a drawing may have. It stops at the first product that is
/// too large, so that none is wider than 128 bits.
pub fn is_small(spans: &[Span]) -> bool
    ensures { IsTrue result ↔ (cell_count (lows spans.now) (highs spans.now) ≤ most_cells) }
{
    let mut count: u128 = 1;
    for span in spans {
        count *= span.width();
        if count > MOST_CELLS {
            return false;
        }
    }
    true
}
