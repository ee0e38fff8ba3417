//! A row of a picture: the owners of its cells, painted block by block, and its signs.

ghost use Rattle.std.specs.Prelude.{◌≡◌, ◌↔◌, ◌+◌, ◌<◌, ◌≤◌, ◌++◌};
ghost use Rattle.std.specs.Prelude.{◌≤ℤ◌};
ghost use Rattle.std.specs.Prelude.{All, IfOk, IsTrue, List, length, ℕ, ℤ};
ghost use Rattle.geo_base.specs.Boxes.{coordinate};
ghost use Rattle.layout_drawing.specs.declared.owner.Owner.TheVariants.{Nobody};
ghost use Rattle.layout_drawing.specs.Blocks.{IsOfDims, Owns, high_of, low_of};
ghost use Rattle.layout_drawing.specs.Drawing.{AreSigns, row as row_of, width};
ghost use Rattle.layout_drawing.specs.Painting.{CountsBlock, ReachesRow, ShowsOwners};
ghost use Rattle.layout_drawing.specs.Painting.{owner_at, owner_with};

use crate::blocks::Block;
use crate::owner::Owner;
use crate::span::Span;
use geo_conditions::ObjId;
use std::alloc::AllocError;

// Counts the object as an owner of the cells at the places from `from` on and below `to`.
fn paint(row: &mut [Owner], from: usize, to: usize, object: ObjId)
    requires ordered { from ≤ to }
    requires within { to ≤ length row.old }
    ensures inside { (k : ℕ) → from ≤ k → k < to
        → owner_at row.new k ≡ owner_with (owner_at row.old k) object }
    ensures before { (k : ℕ) → k < from → owner_at row.new k ≡ owner_at row.old k }
    ensures behind { (k : ℕ) → to ≤ k → owner_at row.new k ≡ owner_at row.old k }
{
    for i in from..to {
        row[i] = row[i].with(object);
    }
}

// Whether the block has cells whose coordinates from x2 on are these.
fn reaches(block: &Block, others: &[i128]) -> bool
    requires { IsOfDims (length others.now + 1) block.now }
    ensures { IsTrue result ↔ ReachesRow block.now others.now }
{
    for (i, number) in others.iter().enumerate() {
        if !block.spans[i + 1].has(*number) {
            return false;
        }
    }
    true
}

// Counts the block at each cell of the row that it has.
fn count_block(block: &Block, span: &Span, others: &[i128], row: &mut [Owner])
    requires dims { IsOfDims (length others.now + 1) block.now }
    requires from { span.now.low ≤ℤ low_of block.now 0 }
    requires to { high_of block.now 0 ≤ℤ span.now.high }
    requires wide { length row.old ≡ width span.now.low span.now.high }
    ensures { CountsBlock block.now span.now.low others.now row.old row.new }
{
    if !reaches(block, others) {
        return;
    }
    let part = block.spans[0];
    let first = span.place_of(part.low);
    let last = span.place_of(part.high);
    paint(row, first, last + 1, block.object);
}

// Makes the cells of the row free.
fn clear(row: &mut [Owner])
    ensures { (k : ℕ) → owner_at row.new k ≡ Nobody }
{
    for owner in row.iter_mut() {
        *owner = Owner::Nobody;
    }
}

// Finds the owners of the cells of a row.
fn find_owners(blocks: &[Block], span: &Span, others: &[i128], row: &mut [Owner])
    requires dims { All (IsOfDims (length others.now + 1)) blocks.now }
    requires from { All (λ b. span.now.low ≤ℤ low_of b 0) blocks.now }
    requires to { All (λ b. high_of b 0 ≤ℤ span.now.high) blocks.now }
    requires wide { length row.old ≡ width span.now.low span.now.high }
    ensures { ShowsOwners blocks.now span.now.low others.now row.new }
{
    clear(row);
    for block in blocks {
        count_block(block, span, others, row);
    }
}

/// Appends the row whose coordinates from x2 on are these; `row` is written over.
pub fn push_row(
    blocks: &[Block],
    span: &Span,
    others: &[i128],
    row: &mut [Owner],
    text: &mut Vec<u8>,
) -> Result<(), AllocError>
    requires dims { All (IsOfDims (length others.now + 1)) blocks.now }
    requires from { All (λ b. span.now.low ≤ℤ low_of b 0) blocks.now }
    requires to { All (λ b. high_of b 0 ≤ℤ span.now.high) blocks.now }
    requires wide { length row.old ≡ width span.now.low span.now.high }
    ensures { (sign : List ℤ → ℕ) → AreSigns (Owns blocks.now) sign
        → IfOk result (λ _. text.new.items
        ≡ text.old.items ++ row_of sign span.now.low span.now.high others.now) }
{
    find_owners(blocks, span, others, row);
    for owner in row.iter() {
        text.push(owner.sign())?;
    }
    text.push(b'\n')?;
    Ok(())
}
