//! The picture: the line of the box, the lines of layers, and rows.

ghost use Rattle.std.specs.Prelude.{◌≡◌, ◌+◌, ◌≤◌, ◌++◌, IfOk};
ghost use Rattle.std.specs.Prelude.{List, drop, length, take, ℕ, ℤ};
ghost use Rattle.std.specs.Fmt.{signed_decimal};
ghost use Rattle.layout_drawing.specs.Blocks.{Owns, highs, lows};
ghost use Rattle.layout_drawing.specs.Drawing.{AreSigns, picture};
ghost use Rattle.layout_drawing.specs.Drawing.{box_line, layer_line, range_text};
ghost use Rattle.layout_drawing.specs.Painting.{IsFrame, IsWide, layer_of, layers_behind};

use crate::blocks::Block;
use crate::owner::Owner;
use crate::row::push_row;
use crate::span::Span;
use itoa::Buffer;
use std::alloc::{AllocError, Global};

fn push_number(number: i128, text: &mut Vec<u8>) -> Result<(), AllocError>
    ensures { IfOk result (λ _. text.new.items ≡ text.old.items ++ signed_decimal number) }
{
    text.extend_from_slice(Buffer::new().format(number).as_bytes())
}

fn push_range(span: &Span, text: &mut Vec<u8>) -> Result<(), AllocError>
    ensures { IfOk result (λ _. text.new.items
        ≡ text.old.items ++ range_text span.now.low span.now.high) }
{
    text.push(b' ')?;
    push_number(span.low, text)?;
    text.extend_from_slice(b"..")?;
    push_number(span.high, text)
}

/// Appends the line of the box.
pub fn push_box(spans: &[Span], text: &mut Vec<u8>) -> Result<(), AllocError>
    ensures { IfOk result (λ _. text.new.items
        ≡ text.old.items ++ box_line (lows spans.now) (highs spans.now)) }
{
    text.extend_from_slice(b"box")?;
    for span in spans {
        push_range(span, text)?;
    }
    text.push(b'\n')?;
    Ok(())
}

// Appends the line of a layer, where there are coordinates from x3 on.
fn push_layer_line(outer: &[i128], text: &mut Vec<u8>) -> Result<(), AllocError>
    ensures { IfOk result (λ _. text.new.items ≡ text.old.items ++ layer_line outer.now) }
{
    if outer.is_empty() {
        return Ok(());
    }
    text.extend_from_slice(b"layer")?;
    for number in outer {
        text.push(b' ')?;
        push_number(*number, text)?;
    }
    text.push(b'\n')?;
    Ok(())
}

// Appends the rows of the layer whose coordinates from x3 on stand behind the first of `others`.
// That first one and `row` are written over.
fn push_layer(
    blocks: &[Block],
    spans: &[Span],
    others: &mut [i128],
    row: &mut [Owner],
    text: &mut Vec<u8>,
) -> Result<(), AllocError>
    requires frame { IsFrame blocks.now spans.now }
    requires others { (length others.old + 1 ≡ length spans.now) × (1 ≤ length others.old) }
    requires row { IsWide spans.now row.old }
    ensures text { (sign : List ℤ → ℕ) → AreSigns (Owns blocks.now) sign
        → IfOk result (λ _. text.new.items
        ≡ text.old.items ++ layer_of sign spans.now (drop 1 others.old)) }
    ensures others { drop 1 others.new ≡ drop 1 others.old }
{
    push_layer_line(&others[1..], text)?;
    let span = spans[1];
    for i in 0..span.width() as usize {
        others[0] = span.nth_back(i);
        push_row(blocks, &spans[0], others, row, text)?;
    }
    Ok(())
}

// Appends the layers whose coordinates begin with the first `fixed` of `others`, the very first one
// aside.
fn push_layers(
    blocks: &[Block],
    spans: &[Span],
    others: &mut [i128],
    fixed: usize,
    row: &mut [Owner],
    text: &mut Vec<u8>,
) -> Result<(), AllocError>
    requires frame { IsFrame blocks.now spans.now }
    requires others { (length others.old + 1 ≡ length spans.now) × (1 ≤ length others.old) }
    requires fixed { (1 ≤ fixed) × (fixed ≤ length others.old) }
    requires row { IsWide spans.now row.old }
    ensures text { (sign : List ℤ → ℕ) → AreSigns (Owns blocks.now) sign
        → IfOk result (λ _. text.new.items ≡ text.old.items
        ++ layers_behind sign spans.now (fixed + 1) (drop 1 (take fixed others.old))) }
    ensures others { drop 1 (take fixed others.new) ≡ drop 1 (take fixed others.old) }
{
    if fixed == others.len() {
        return push_layer(blocks, spans, others, row, text);
    }
    let span = spans[fixed + 1];
    for i in 0..span.width() as usize {
        others[fixed] = span.nth(i);
        push_layers(blocks, spans, others, fixed + 1, row, text)?;
    }
    Ok(())
}

/// Appends the picture of the blocks in the box of these spans.
pub fn push_picture(
    alloc: Global,
    blocks: &[Block],
    spans: &[Span],
    text: &mut Vec<u8>,
) -> Result<(), AllocError>
    requires frame { IsFrame blocks.now spans.now }
    ensures { (sign : List ℤ → ℕ) → AreSigns (Owns blocks.now) sign
        → IfOk result (λ _. text.new.items
        ≡ text.old.items ++ picture sign (lows spans.now) (highs spans.now)) }
{
    let mut row = vec![in alloc; Owner::Nobody; spans[0].width() as usize]?;
    if spans.len() == 1 {
        return push_row(blocks, &spans[0], &[], &mut row, text);
    }
    let mut others = vec![in alloc; 0; spans.len() - 1]?;
    push_layers(blocks, spans, &mut others, 1, &mut row, text)
}
