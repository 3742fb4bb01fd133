//! The touches of rows and of a leaf call's views.

ghost use Rattle.std.specs.Prelude.{◌≡◌, ◌+◌, ◌<◌, ◌^◌, IfOk, OnOk, length};
ghost use Rattle.std.specs.List.{All};
ghost use Rattle.sq_check_laws.specs.Touches.{row_touch, view_touches};
ghost use Rattle.sq_touches.specs.Acts.{IsNear, AreNear, seen_way};
ghost use Rattle.sq_touches.specs.ActLaws.{ShowsTouch};
ghost use Rattle.sq_touches.specs.Puts.{ArePut, AreBelow, HaveStrides, first_flag, rest_flags, way_of};

use crate::touch::{Touch, Touches, Way};
use sq_areas::Area;
use sq_rect::View;
use sqlite_items::Items;
use std::alloc::{AllocError, Global};

/// A row of so many bytes.
pub fn row(alloc: Global, node: u32, at: u32, bytes: u64, way: Way) -> Touch
    ensures shows { ShowsTouch result (row_touch (record { node = node; at = at }) bytes (seen_way way)) }
    ensures near { bytes < 2 ^ 40 → IsNear result }
{
    Touch {
        node,
        way,
        area: Area {
            at: u64::from(at),
            run: bytes,
            steps: Items::new(alloc),
        },
    }
}

// Whether the first view is written; where no flag is left it isn't.
fn flag_of(flags: &[bool]) -> bool
    ensures { result ≡ first_flag flags.now }
{
    match flags.split_first() {
        None => false,
        Some((first, _)) => *first,
    }
}

// The flags of the others.
fn flags_behind(flags: &[bool]) -> &[bool]
    ensures { result.now ≡ rest_flags flags.now }
{
    match flags.split_first() {
        None => flags,
        Some((_, rest)) => rest,
    }
}

// How a view is touched.
fn way_by(is_written: bool) -> Way
    ensures { result ≡ way_of is_written }
{
    if is_written { Way::Writes } else { Way::Reads }
}

/// Puts the views of a leaf call behind others. A flag tells of each whether it is written.
pub fn put_views(
    alloc: Global,
    node: u32,
    flags: &[bool],
    views: &[View],
    touches: &mut Touches,
) -> Result<(), AllocError>
    requires { HaveStrides views.now }
    ensures put { OnOk result (ArePut touches.old touches.new (view_touches node flags.now views.now)) }
    ensures near { OnOk result (AreBelow views.now → AreNear touches.old → AreNear touches.new) }
{
    let Some((view, views)) = views.split_first() else {
        return Ok(());
    };
    let area = Area::of_view(alloc, view)?;
    let way = way_by(flag_of(flags));
    touches.push(Touch { node, way, area })?;
    put_views(alloc, node, flags_behind(flags), views, touches)
}
