//! Blocks of arrays, as bytes.

ghost use Rattle.std.specs.Prelude.{◌≡◌, ◌*◌, ◌-◌, ◌<◌, ◌≤◌, ◌++◌, length, ℕ, OnOk};
ghost use Rattle.sq_rect.specs.Extents.{product};
ghost use Rattle.sq_blocks.specs.Arguments.{lengths};
ghost use Rattle.sq_flat.specs.Blocks.{Fits, block_bytes, pieces_bytes, pieces_put, with_bytes};

use sq_text::Span;
use std::alloc::AllocError;

// The size of a piece where so many bytes are a number of pieces of one size.
fn piece_size(bytes: usize, pieces: u32) -> usize
    requires { 0 < pieces }
    ensures { (size : ℕ) → bytes ≡ size * pieces → result ≡ size }
{
    bytes / pieces as usize
}

/// Puts the bytes of a block behind those that are there, its elements in order of coordinates.
#[cycle(push)]
pub(crate) fn push_block(
    spans: &[Span],
    extents: &[u32],
    width: usize,
    array: &[u8],
    into: &mut Vec<u8>,
) -> Result<(), AllocError>
    requires whole { length array.now ≡ width * product extents.now }
    requires within { Fits spans.now extents.now }
    ensures { OnOk result (into.new.items ≡ into.old.items ++ block_bytes width spans.now extents.now array.now) }
{
    let Some((span, spans)) = spans.split_first() else {
        into.extend_from_slice(array)?;
        return Ok(());
    };
    let Some((extent, extents)) = extents.split_first() else {
        return Ok(());
    };
    let size = piece_size(array.len(), *extent);
    push_pieces(spans, span, extents, width, size, array, into)
}

#[cycle(push)]
fn push_pieces(
    spans: &[Span],
    span: &Span,
    extents: &[u32],
    width: usize,
    size: usize,
    array: &[u8],
    into: &mut Vec<u8>,
) -> Result<(), AllocError>
    requires size { size ≡ width * product extents.now }
    requires inside { span.now.hi * size ≤ length array.now }
    requires within { Fits spans.now extents.now }
    ensures { OnOk result (into.new.items ≡ into.old.items ++ pieces_bytes width spans.now extents.now size array.now
        span.now) }
{
    for x in span.lo..span.hi {
        let at = x as usize * size;
        push_block(spans, extents, width, &array[at..at + size], into)?;
    }
    Ok(())
}

/// Replaces a block by these bytes, which are its elements in order of coordinates.
#[cycle(put)]
pub(crate) fn put_block(
    spans: &[Span],
    extents: &[u32],
    width: usize,
    block: &[u8],
    array: &mut [u8],
)
    requires whole { length array.old ≡ width * product extents.now }
    requires block { length block.now ≡ width * product (lengths spans.now) }
    requires within { Fits spans.now extents.now }
    ensures { array.new ≡ with_bytes width spans.now extents.now block.now array.old }
{
    let Some((span, spans)) = spans.split_first() else {
        array.copy_from_slice(block);
        return;
    };
    let Some((extent, extents)) = extents.split_first() else {
        return;
    };
    let size = piece_size(array.len(), *extent);
    let from = piece_size(block.len(), span.hi - span.lo);
    put_pieces(spans, span, extents, width, size, from, block, array);
}

#[cycle(put)]
fn put_pieces(
    spans: &[Span],
    span: &Span,
    extents: &[u32],
    width: usize,
    size: usize,
    from: usize,
    block: &[u8],
    array: &mut [u8],
)
    requires size { size ≡ width * product extents.now }
    requires from { from ≡ width * product (lengths spans.now) }
    requires inside { span.now.hi * size ≤ length array.old }
    requires block { (span.now.hi - span.now.lo) * from ≤ length block.now }
    requires within { Fits spans.now extents.now }
    ensures { array.new ≡ pieces_put width spans.now extents.now size from block.now span.now array.old }
{
    for x in span.lo..span.hi {
        let at = x as usize * size;
        let start = (x - span.lo) as usize * from;
        put_block(
            spans,
            extents,
            width,
            &block[start..start + from],
            &mut array[at..at + size],
        );
    }
}
