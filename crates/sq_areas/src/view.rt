//! The area of a view.

ghost use Rattle.std.specs.Prelude.{◌≡◌, ◌+◌, ◌-◌, ◌*◌, ◌<◌, ◌≤◌, ◌^◌, ℕ, true, false, List, length, slice_get, Some, IfOk, OnOk, MatchOption, ◌++◌};
ghost use Rattle.std.specs.List.{All};
ghost use Rattle.sq_num.specs.Elements as elements;
ghost use Rattle.sq_areas.specs.Areas.{reach_of};
ghost use Rattle.sq_areas.specs.Viewed.{steps_of};
ghost use Rattle.sq_areas.specs.Alike.{AreAlike, AreMany, IsPut, IsJoined, IsAreaOf, IsBelow};

use crate::areas::{Area, Step};
use sq_num::width;
use sq_rect::View;
use sqlite_items::Items;
use std::alloc::{AllocError, Global};

// The longest run that others join: what they are together has a word.
const LONG_RUN: u64 = 1 << 30;

// Puts a step behind others, but for one whose turns add no byte.
fn put_step(steps: &mut Items<Step>, step: Step) -> Result<(), AllocError>
    ensures { OnOk result (IsPut step steps.old steps.new) }
{
    if step.count == 1 || (step.step == 0 && step.count != 0) {
        return Ok(());
    }
    steps.push(step)
}

// Puts the steps of some dimensions behind others.
fn put_steps(
    steps: &mut Items<Step>,
    width: u64,
    extents: &[u32],
    strides: &[u32],
) -> Result<(), AllocError>
    requires { (width ≤ 8) × (length strides.now ≡ length extents.now) }
    ensures alike { OnOk result ((run : ℕ) → AreAlike run (steps.old ++ steps_of width extents.now strides.now) run
        steps.new) }
    ensures many { OnOk result (All (λ n. 0 < n) extents.now → AreMany steps.old → AreMany steps.new) }
{
    let Some((extent, extents)) = extents.split_first() else {
        return Ok(());
    };
    let Some((stride, strides)) = strides.split_first() else {
        return Ok(());
    };
    let step = Step {
        count: u64::from(*extent),
        step: width * u64::from(*stride),
    };
    put_step(steps, step)?;
    put_steps(steps, width, extents, strides)
}

// Whether the runs of a step's turns are one run.
fn is_joined(step: Step, run: u64) -> bool
    ensures { result ≡ true → IsJoined step run }
{
    step.count != 0 && step.count <= 4_294_967_296 && step.step <= run && run <= LONG_RUN
}

// The number of a step whose turns are one run.
fn joined_step(steps: &[Step], run: u64) -> Option<usize>
    ensures { MatchOption result Unit (λ i. (i < length steps.now) × ((d : Step) → slice_get steps.now i ≡ Some d
        → IsJoined d run)) }
{
    for i in 0..steps.len() {
        if is_joined(steps[i], run) {
            return Some(i);
        }
    }
    None
}

// How long the one run is.
fn joined(step: Step, run: u64) -> u64
    requires { IsJoined step run }
    ensures { result ≡ run + (step.count - 1) * step.step }
{
    run + (step.count - 1) * step.step
}

// The same bytes by fewer steps.
fn settle(steps: &mut Items<Step>, mut run: u64) -> u64
    ensures alike { AreAlike run steps.old result steps.new }
    ensures many { AreMany steps.old → AreMany steps.new }
    ensures more { run ≤ result }
{
    while let Some(i) = joined_step(steps.as_slice(), run) {
        let step = steps.remove(i);
        run = joined(step, run);
    }
    run
}

impl Area {
    /// The bytes of a view. Turns that add none are left out, and runs that touch are joined.
    pub fn of_view(alloc: Global, view: &View) -> Result<Area, AllocError>
        requires { length view.now.strides ≡ length view.now.extents }
        ensures same { IfOk result (λ a. IsAreaOf view.now a) }
        ensures near { IfOk result (λ a. IsBelow view.now (2 ^ 32) → a.at + reach_of a.steps a.run < 2 ^ 63) }
    {
        let width = width(view.elem) as u64;
        let mut steps = Items::new(alloc);
        put_steps(
            &mut steps,
            width,
            view.extents.as_slice(),
            view.strides.as_slice(),
        )?;
        let run = settle(&mut steps, width);
        Ok(Area {
            at: u64::from(view.at),
            run,
            steps,
        })
    }
}
