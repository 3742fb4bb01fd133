//! What events reach: ranges of keys round the bytes that they touch.

ghost use Rattle.std.specs.Prelude.{◌≡◌, ◌+◌, ◌*◌, ◌<◌, ◌≤◌, ◌^◌, [], OnOk};
ghost use Rattle.sq_areas.specs.Areas.{reach_of};
ghost use Rattle.sq_areas.specs.Alike as alike;
ghost use Rattle.sq_touches.specs.Acts.{IsNear, AreNear};
ghost use Rattle.sq_clashes.specs.Colors.{color_of};
ghost use Rattle.sq_clashes.specs.Keys.{node_key};
ghost use Rattle.sq_clashes.specs.Reached.{HaveMore, ReachRuns, ReachTouches, ReachPath};

use crate::color::color_of;
use crate::key::{node_key, path_key};
use sq_areas::Step;
use sq_plan_check::Reach;
use sq_touches::Touch;
use sqlite_items::Items;
use std::alloc::{AllocError, Global};

pub(crate) type Reaches = Items<Reach>;

// Over how many bytes the runs stand.
fn span_of(steps: &[Step], run: u64) -> u64
    requires { reach_of steps.now run < 2 ^ 64 }
    ensures is { result ≡ alike.span_of steps.now + run }
    ensures within { result ≤ reach_of steps.now run }
{
    let Some((first, rest)) = steps.split_first() else {
        return run;
    };
    let inner = span_of(rest, run);
    if first.count == 0 {
        return inner;
    }
    (first.count - 1) * first.step + inner
}

// The key at which a turn begins.
fn turn_key(key: u64, first: Step, t: u64) -> u64
    requires { (t < first.count) × (key + first.count * first.step < 2 ^ 64) }
    ensures { result ≡ key + t * first.step }
{
    key + t * first.step
}

// Reaches so many keys.
fn put_range(reaches: &mut Reaches, key: u64, len: u64, color: u32) -> Result<(), AllocError>
    requires { key + len < 2 ^ 64 }
    ensures more { OnOk result (HaveMore reaches.old reaches.new) }
    ensures reached { OnOk result (ReachRuns reaches.new key len [] color) }
{
    reaches.push(Reach {
        lo: key,
        hi: key + len,
        color,
    })
}

// Reaches the runs, the first of which begins at a key: each by itself, or those of as many turns together as there are
// more than `most` of.
fn put_runs(
    reaches: &mut Reaches,
    key: u64,
    run: u64,
    steps: &[Step],
    color: u32,
    most: u64,
) -> Result<(), AllocError>
    requires { key + reach_of steps.now run < 2 ^ 64 }
    ensures more { OnOk result (HaveMore reaches.old reaches.new) }
    ensures reached { OnOk result (ReachRuns reaches.new key run steps.now color) }
{
    let Some((first, rest)) = steps.split_first() else {
        put_range(reaches, key, run, color)?;
        return Ok(());
    };
    if first.count > most {
        put_range(reaches, key, span_of(steps, run), color)?;
        return Ok(());
    }
    for t in 0..first.count {
        put_runs(
            reaches,
            turn_key(key, *first, t),
            run,
            rest,
            color,
            most / first.count,
        )?;
    }
    Ok(())
}

// Reaches what is touched.
fn put_touch(reaches: &mut Reaches, touch: &Touch, own: u32, most: u64) -> Result<(), AllocError>
    requires { IsNear touch.now }
    ensures more { OnOk result (HaveMore reaches.old reaches.new) }
    ensures reached { OnOk result (ReachRuns reaches.new (node_key touch.now.node + touch.now.area.at)
        touch.now.area.run touch.now.area.steps (color_of touch.now.way own)) }
{
    let color = color_of(touch.way, own);
    let key = node_key(touch.node) + touch.area.at;
    put_runs(
        reaches,
        key,
        touch.area.run,
        touch.area.steps.as_slice(),
        color,
        most,
    )?;
    Ok(())
}

/// Reaches what an event with this own color touches. Runs of one touch are reached each by itself where there are at
/// most so many of them.
pub(crate) fn put_touches(
    reaches: &mut Reaches,
    touches: &[Touch],
    own: u32,
    most: u64,
) -> Result<(), AllocError>
    requires { AreNear touches.now }
    ensures more { OnOk result (HaveMore reaches.old reaches.new) }
    ensures reached { OnOk result (ReachTouches reaches.new touches.now own) }
{
    for touch in touches {
        put_touch(reaches, touch, own, most)?;
    }
    Ok(())
}

/// Reaches the key of a leaf call's path.
pub(crate) fn put_path(
    reaches: &mut Reaches,
    path: &Option<Items<u32>>,
    own: u32,
) -> Result<(), AllocError>
    ensures more { OnOk result (HaveMore reaches.old reaches.new) }
    ensures reached { OnOk result (ReachPath reaches.new path.now own) }
{
    match path {
        None => Ok(()),
        Some(path) => {
            put_range(reaches, path_key(path.as_slice()), 1, own)?;
            Ok(())
        }
    }
}
