//! Where arrays stand.

ghost use Rattle.std.specs.Prelude.{◌≡◌, ◌++◌, ◌<◌, ◌^◌, IfOk, OnOk, map, true};
ghost use Rattle.sq_ir.specs.Rect.Extents.{behind_first};
ghost use Rattle.sq_ir.specs.Lifting.{lift};
ghost use Rattle.sq_term.specs.Placed.Tables as tables;
ghost use Rattle.sq_term.specs.Terms as terms;
ghost use Rattle.sq_term.specs.Placed.Trees as trees;

use sq_ir::{BufferIds, Dims, LeafView, LeafViews, Num, Numbers, Nums, Shape, Slot};
use sq_term::Home;
use sqlite_items::Items;
use std::alloc::{AllocError, Global};

// The same view with another number.
fn at_slot(v: &LeafView, at: Num) -> LeafView
    ensures { result ≡ terms.at_slot v.now at }
{
    LeafView {
        slot: Slot {
            buffer: v.slot.buffer,
            at,
        },
        elem: v.elem,
        extents: v.extents.copy(),
        strides: v.strides.copy(),
    }
}

/// The same view.
pub fn copy_view(alloc: Global, v: &LeafView) -> Result<LeafView, AllocError>
    ensures { IfOk result (λ w. w ≡ v.now) }
{
    let at = v.slot.at.copy(alloc)?;
    Ok(at_slot(v, at))
}

/// The same views.
pub fn copy_views(alloc: Global, views: &[LeafView]) -> Result<LeafViews, AllocError>
    ensures { IfOk result (λ ws. ws ≡ views.now) }
{
    let mut out = Vec::new(alloc);
    for view in views {
        let same = copy_view(alloc, view)?;
        out.push(same)?;
    }
    Ok(Items::from_vec(out))
}

fn lift_view(alloc: Global, v: &LeafView) -> Result<LeafView, AllocError>
    ensures { IfOk result (λ w. w ≡ terms.lift_view v.now) }
{
    let at = v.slot.at.lifted(alloc, 1)?;
    Ok(at_slot(v, at))
}

/// The views under one loop more.
pub fn lift_views(alloc: Global, views: &[LeafView]) -> Result<LeafViews, AllocError>
    ensures { IfOk result (λ ws. ws ≡ map terms.lift_view views.now) }
{
    let mut out = Vec::new(alloc);
    for view in views {
        let lifted = lift_view(alloc, view)?;
        out.push(lifted)?;
    }
    Ok(Items::from_vec(out))
}

/// The numbers under one loop more.
pub fn lift_nums(alloc: Global, nums: &[Num]) -> Result<Nums, AllocError>
    ensures { IfOk result (λ ns. ns ≡ map (lift 1) nums.now) }
{
    let mut out = Vec::new(alloc);
    for num in nums {
        let lifted = num.lifted(alloc, 1)?;
        out.push(lifted)?;
    }
    Ok(Items::from_vec(out))
}

/// The same numbers.
pub fn copy_nums(alloc: Global, nums: &[Num]) -> Result<Nums, AllocError>
    ensures { IfOk result (λ ns. ns ≡ nums.now) }
{
    let mut out = Vec::new(alloc);
    for num in nums {
        let same = num.copy(alloc)?;
        out.push(same)?;
    }
    Ok(Items::from_vec(out))
}

// Whether strides have 32 bits.
fn are_small(extents: &[u32]) -> bool
    ensures { result ≡ true → behind_first extents.now < 2 ^ 32 }
{
    match extents {
        [_, b, c] => u64::from(*b) * u64::from(*c) < 4_294_967_296,
        [_, b] => u64::from(*b) < 4_294_967_296,
        [_] => true,
        _ => false,
    }
}

/// An array that fills a buffer. Of one whose strides don't have 32 bits there is no room in memory.
pub fn buffer_view(buffer: u32, shape: &Shape) -> Result<LeafView, AllocError>
    ensures { IfOk result (λ v. v ≡ terms.buffer_view buffer shape.now) }
{
    if !are_small(shape.extents.as_slice()) {
        return Err(AllocError);
    }
    Ok(LeafView {
        slot: Slot {
            buffer,
            at: Num::Const(0),
        },
        elem: shape.elem,
        extents: shape.extents.copy(),
        strides: shape.extents.row_major(),
    })
}

fn with_table(
    alloc: Global,
    table: &Option<Numbers>,
    ordinal: &Num,
    at: &Num,
) -> Result<Num, AllocError>
    ensures { IfOk result (λ n. n ≡ terms.with_table table.now ordinal.now at.now) }
{
    match table {
        None => at.copy(alloc),
        Some(numbers) => {
            let far = Num::pick(alloc, numbers.copy()?, ordinal.copy(alloc)?)?;
            match at.copy(alloc) {
                Err(end) => {
                    drop(far);
                    Err(end)
                }
                Ok(first) => Num::sum(alloc, first, far),
            }
        }
    }
}

/// A block of an array.
pub fn block_view(
    alloc: Global,
    table: &Option<Numbers>,
    ordinal: &Num,
    extents: &Dims,
    v: &LeafView,
) -> Result<LeafView, AllocError>
    ensures { IfOk result (λ w. w ≡ terms.block_view table.now ordinal.now extents.now v.now) }
{
    let at = with_table(alloc, table, ordinal, &v.slot.at)?;
    Ok(LeafView {
        slot: Slot {
            buffer: v.slot.buffer,
            at,
        },
        elem: v.elem,
        extents: extents.copy(),
        strides: v.strides.copy(),
    })
}

/// Where the callee has a parameter.
pub fn own_view(
    alloc: Global,
    shape: &Shape,
    home: Home,
    outside: &LeafView,
) -> Result<LeafView, AllocError>
    ensures { IfOk result (λ v. v ≡ terms.own_view shape.now home outside.now) }
{
    match home {
        Home::InPlace => copy_view(alloc, outside),
        Home::Own(buffer) => buffer_view(buffer, shape),
        Home::Held { buffer, .. } => buffer_view(buffer, shape),
        Home::Twin { first, .. } => buffer_view(first, shape),
    }
}

/// Where locals stand.
pub fn push_locals(out: &mut LeafViews, shapes: &[Shape], buffers: &[u32]) -> Result<(), AllocError>
    ensures { OnOk result (out.new ≡ out.old ++ map terms.local_view (tables.placed_locals shapes.now buffers.now)) }
{
    match shapes {
        [] => Ok(()),
        [shape, more @ ..] => match buffers {
            [] => Ok(()),
            [buffer, others @ ..] => {
                out.push(buffer_view(*buffer, shape)?)?;
                push_locals(out, more, others)?;
                Ok(())
            }
        },
    }
}

/// The buffers of locals.
pub fn push_local_buffers(
    out: &mut BufferIds,
    shapes: &[Shape],
    buffers: &[u32],
) -> Result<(), AllocError>
    ensures { OnOk result (out.new ≡ out.old ++ trees.local_buffers (tables.placed_locals shapes.now buffers.now)) }
{
    match shapes {
        [] => Ok(()),
        [_, more @ ..] => match buffers {
            [] => Ok(()),
            [buffer, others @ ..] => {
                out.push(*buffer)?;
                push_local_buffers(out, more, others)?;
                Ok(())
            }
        },
    }
}
