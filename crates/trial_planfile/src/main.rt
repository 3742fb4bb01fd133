//! What the plans in data/ are written as: fills in two loops, and three iterations spread over two children.
#![tactic(auto)]

ghost use Rattle.sq_ir.specs.DraftLeaves.{leaves_of};
ghost use Rattle.sq_ir.specs.Plans.{IsGood};

use fixture_cases::{Case, read_cases};
use fixture_plans::{fills, int_leaf, three_lanes};
use sq_ir::Plan;
use sq_planfile::{PlanFile, plan_text};
use sq_text::{SpreadRule, Stop};
use sqlite_items::Items;
use std::alloc::{AllocError, Global};
use std::fmt::Write;
use std::io;
use std::rc::Rc;

// A longer text is told by its length.
const MOST_SHOWN: usize = 2_000;

const LEAF: &[u8] = b"task share::leaf(inout int X[1]) { X[0] = 12 / X[0]; }";

fn main(rt: HostRuntime) -> io::Result<()> {
    let alloc = rt.alloc();
    let mut out = String::new(alloc);
    for case in &read_cases(&rt, "plans.cases")? {
        let name = case.name.as_str();
        write!(out, "== {name}\n")?;
        tell_case(alloc, case, &mut out)?;
    }
    print!(rt; "{out}")
}

fn tell_case(alloc: Global, case: &Case, out: &mut String) -> Result<(), AllocError> {
    match case.words("lanes") {
        "" => tell_fills(
            alloc,
            case.words("outer").parse::<u32>().unwrap_or(0),
            case.words("inner").parse::<u64>().unwrap_or(0),
            out,
        ),
        "cyclic" => tell_lanes(alloc, SpreadRule::Cyclic, out),
        _ => tell_lanes(alloc, SpreadRule::Blocked, out),
    }
}

fn tell_fills(alloc: Global, outer: u32, inner: u64, out: &mut String) -> Result<(), AllocError> {
    if inner < 9_223_372_036_854_775_808 {
        let plan = fills(alloc, 16, outer, inner, 4)?;
        return tell(alloc, plan, out);
    }
    Ok(())
}

fn tell_lanes(alloc: Global, rule: SpreadRule, out: &mut String) -> Result<(), AllocError> {
    match int_leaf(alloc, b"share", LEAF)? {
        Some(leaf) => {
            let plan = three_lanes(alloc, rule, leaf)?;
            tell(alloc, plan, out)
        }
        None => Ok(()),
    }
}

// The text of a plan without arrays, or its fault.
fn tell(alloc: Global, plan: Rc<Plan>, out: &mut String) -> Result<(), AllocError>
    requires { IsGood (leaves_of plan.value.draft) plan.value }
{
    let file = PlanFile::new(plan, Items::new(alloc));
    match plan_text(alloc, &file) {
        Ok(text) => tell_text(text.as_slice(), out),
        Err(Stop::Refused(fault)) => {
            let code = fault.code;
            write!(out, "{code:?}\n")
        }
        Err(Stop::NoMemory) => Err(AllocError),
    }
}

fn tell_text(text: &[u8], out: &mut String) -> Result<(), AllocError> {
    let bytes = text.len();
    if MOST_SHOWN < bytes {
        return write!(out, "{bytes} bytes\n");
    }
    out.push_str(str::from_utf8(text).unwrap_or_default())
}
