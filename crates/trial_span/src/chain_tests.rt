//! The heaviest chains of plans that are made by hand: worked out apart from the project's code.
ghost use Rattle.std.specs.Prelude.{IfOk};
ghost use Rattle.sq_ir.specs.Plans.{IsGood};
ghost use Rattle.sq_ir.specs.DraftLeaves.{leaves_of};

use fixture_plans::{fills, int_leaf, three_lanes};
use sq_ir::Plan;
use sq_leaf::Trap;
use sq_machfile::read_machine;
use sq_num::{Elem, RedOp};
use sq_port::MemSink;
use sq_sched::{Event, Spot};
use sq_span::{Costs, Links, Span, heaviest_chain, read_cost, weight};
use sq_span_text::put_span;
use sq_text::{Code, Phase, SpreadRule, Stop};
use std::alloc::{AllocError, Global};
use std::process::Abort;
use std::rc::Rc;
use std::test::Fail;

const TWO: &[u8] =
    b"machine 1; level host { capacity 64; } children 2; level core { capacity 32; }";

const ONE: &[u8] = b"machine 1; level host { capacity 64; }";

// A leaf call weighs 50, and a row over the edge 1 and twice its bytes.
const USUAL: &[u8] =
    b"cost 1; level host { row 0; byte 0; leaf 0; } level core { row 1; byte 2; leaf 50; }";

const NOTHING: &[u8] =
    b"cost 1; level host { row 0; byte 0; leaf 0; } level core { row 0; byte 0; leaf 0; }";

const ROWS: &[u8] = b"cost 1; level host { row 1; byte 0; leaf 0; }";

const MOST: &[u8] = b"cost 1; level host { row 1000000; byte 1000000; leaf 1000000; }";

const LEAF: &[u8] = b"task share::leaf(inout int X[1]) { X[0] = 12 / X[0]; }";

fn costs(rt: &impl Abort, alloc: Global, machine: &[u8], text: &[u8]) -> Costs {
    let machine = read_machine(alloc, machine).expect(rt, "a machine");
    read_cost(alloc, text, &machine).expect(rt, "costs")
}

// Three iterations over two children, each of a copy, a leaf call, a fill, two sums and a copy.
fn lanes(alloc: Global, rule: SpreadRule) -> Result<Rc<Plan>, AllocError>
    ensures { IfOk result (λ p. IsGood (leaves_of p.value.draft) p.value) }
{
    match int_leaf(alloc, b"share", LEAF)? {
        Some(leaf) => {
            let plan = three_lanes(alloc, rule, leaf)?;
            Ok(plan)
        }
        None => Err(AllocError),
    }
}

fn chain_of(alloc: Global, plan: &Plan, costs: &Costs) -> Result<Span, Stop>
    requires { IsGood (leaves_of plan.now.draft) plan.now }
{
    heaviest_chain::<Trap>(alloc, plan, costs)
}

fn text_of(rt: &impl Abort, alloc: Global, rule: SpreadRule, text: &[u8]) -> Result<MemSink, Fail> {
    let costs = costs(rt, alloc, TWO, text);
    let plan = lanes(alloc, rule)?;
    let span = chain_of(alloc, &plan, &costs).expect(rt, "a chain");
    let mut out = MemSink::new(alloc, 4096)?;
    put_span(&mut out, &plan, &span).expect(rt, "a text");
    Ok(out)
}

const BY_TURNS: &[u8] = b"span 190 events 12 of 18
9 copy 0.0:0 1.0:0 4
50 leaf 1.0 share
9 fill 1.0:4 4
9 acc + 1.0:0 1.0:4 4
9 acc + 1.0:4 0.0:12 4
9 copy 1.0:4 0.0:0 4
9 copy 0.0:8 1.0:0 4
50 leaf 1.0 share
9 fill 1.0:4 4
9 acc + 1.0:0 1.0:4 4
9 acc + 1.0:4 0.0:12 4
9 copy 1.0:4 0.0:8 4
";

const BY_BLOCKS: &[u8] = b"span 0 events 12 of 18
0 copy 0.0:0 1.0:0 4
0 leaf 1.0 share
0 fill 1.0:4 4
0 acc + 1.0:0 1.0:4 4
0 acc + 1.0:4 0.0:12 4
0 copy 1.0:4 0.0:0 4
0 copy 0.0:4 1.0:0 4
0 leaf 1.0 share
0 fill 1.0:4 4
0 acc + 1.0:0 1.0:4 4
0 acc + 1.0:4 0.0:12 4
0 copy 1.0:4 0.0:4 4
";

#[test]
fn the_heavier_child_is_the_chain(rt: HostRuntime) -> Result<(), Fail> {
    let out = text_of(&rt, rt.alloc(), SpreadRule::Cyclic, USUAL)?;
    assert_eq!(rt; out.written(), BY_TURNS);
    Ok(())
}

#[test]
fn where_nothing_weighs_anything_the_first_child_is(rt: HostRuntime) -> Result<(), Fail> {
    let out = text_of(&rt, rt.alloc(), SpreadRule::Blocked, NOTHING)?;
    assert_eq!(rt; out.written(), BY_BLOCKS);
    Ok(())
}

// What a chain of so many fills, in a loop of a loop, weighs, and its events; or that they are too many.
fn fills_weigh(
    rt: &impl Abort,
    alloc: Global,
    counts: (u32, u32),
    bytes: u32,
    text: &[u8],
) -> Result<Option<(u128, u64)>, Fail> {
    let costs = costs(rt, alloc, ONE, text);
    let inner = u64::from(counts.1);
    let plan = fills(alloc, 1 << 30, counts.0, inner, bytes.min(1 << 30))?;
    match chain_of(alloc, &plan, &costs) {
        Ok(span) => Ok(Some((span.total, span.events))),
        Err(Stop::Refused(fault)) => {
            assert_eq!(rt;
                (fault.phase, fault.code, fault.place),
                (Phase::Cost, Code::LimitEvents, None)
            );
            assert!(rt; fault.args.is_empty());
            Ok(None)
        }
        Err(Stop::NoMemory) => Err(Fail::from(AllocError)),
    }
}

#[test]
fn as_many_events_as_there_may_be_and_one_more(rt: HostRuntime) -> Result<(), Fail> {
    let most = fills_weigh(&rt, rt.alloc(), (256, 256), 4, ROWS)?;
    assert_eq!(rt; most, Some((65_536, 65_536)));
    let more = fills_weigh(&rt, rt.alloc(), (1, 65_537), 4, ROWS)?;
    assert_eq!(rt; more, None);
    let far_more = fills_weigh(&rt, rt.alloc(), (1 << 20, 1 << 20), 4, ROWS)?;
    assert_eq!(rt; far_more, None);
    Ok(())
}

#[test]
fn a_plan_without_events(rt: HostRuntime) -> Result<(), Fail> {
    let none = fills_weigh(&rt, rt.alloc(), (0, 7), 4, ROWS)?;
    assert_eq!(rt; none, Some((0, 0)));
    let looped = fills_weigh(&rt, rt.alloc(), (1_000_000, 0), 4, ROWS)?;
    assert_eq!(rt; looped, Some((0, 0)));
    Ok(())
}

#[test]
fn weights_past_64_bits(rt: HostRuntime) -> Result<(), Fail> {
    // 65,536 times (1 + 2^30) * 1,000,000
    let most = fills_weigh(&rt, rt.alloc(), (256, 256), 1 << 30, MOST)?;
    assert_eq!(rt; most, Some((70_368_744_243_200_000_000, 65_536)));
    Ok(())
}

#[test]
fn a_text_of_73_bits(rt: HostRuntime) -> Result<(), Fail> {
    let plan = lanes(rt.alloc(), SpreadRule::Cyclic)?;
    let span = Span {
        total: (1 << 73) - 1,
        events: u64::MAX,
        chain: Links::new(rt.alloc()),
    };
    let mut out = MemSink::new(rt.alloc(), 4096)?;
    put_span(&mut out, &plan, &span).expect(&rt, "a text");
    assert_eq!(rt;
        out.written(),
        b"span 9444732965739290427391 events 0 of 18446744073709551615\n".as_slice()
    );
    Ok(())
}

#[test]
fn a_put_that_fails_ends_the_text(rt: HostRuntime) -> Result<(), Fail> {
    let costs = costs(&rt, rt.alloc(), TWO, USUAL);
    let plan = lanes(rt.alloc(), SpreadRule::Cyclic)?;
    let span = chain_of(rt.alloc(), &plan, &costs).expect(&rt, "a chain");
    let mut out = MemSink::new(rt.alloc(), 4096)?;
    out.fail_at(3);
    assert!(rt; put_span(&mut out, &plan, &span).is_err());
    assert!(rt; BY_TURNS.starts_with(out.written()));
    assert!(rt; out.written().len() < BY_TURNS.len());
    Ok(())
}

fn spot(node: u32) -> Spot {
    Spot { node, at: 0 }
}

#[test]
fn what_single_events_weigh(rt: HostRuntime) -> Result<(), Fail> {
    let costs = costs(&rt, rt.alloc(), TWO, USUAL);
    let plan = lanes(rt.alloc(), SpreadRule::Cyclic)?;
    let down = Event::Copy {
        from: spot(0),
        to: spot(2),
        bytes: 7,
    };
    let inside = Event::Copy {
        from: spot(0),
        to: spot(0),
        bytes: 7,
    };
    let filled = Event::Fill {
        to: spot(1),
        elem: Elem::Long,
        count: 3,
        value: 0,
    };
    let summed = Event::Acc {
        op: RedOp::Add,
        elem: Elem::Int,
        from: spot(1),
        to: spot(0),
        count: 5,
    };
    let largest = Event::Fill {
        to: spot(1),
        elem: Elem::Long,
        count: u32::MAX,
        value: 0,
    };
    assert_eq!(rt; weight(&down, &plan, &costs), 15);
    assert_eq!(rt; weight(&inside, &plan, &costs), 0);
    assert_eq!(rt; weight(&filled, &plan, &costs), 49);
    assert_eq!(rt; weight(&summed, &plan, &costs), 41);
    assert_eq!(rt; weight(&largest, &plan, &costs), 68_719_476_721);
    Ok(())
}
