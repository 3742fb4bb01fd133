//! The term of a form, from the tables of forms and the homes of their arrays.

ghost use Rattle.std.specs.Prelude.{◌≡◌, ◌+◌, [], ◌∷◌, map, IfOk, true, Some};
ghost use Rattle.sq_ir.specs.declared.term.Term.TheVariants as term;
ghost use Rattle.sq_tables.specs.Placed.Tables as tables;
ghost use Rattle.sq_tables.specs.Term.Terms as terms;
ghost use Rattle.sq_tables.specs.Cases as cases;
ghost use Rattle.sq_tables.specs.Loops as loops;
ghost use Rattle.sq_draft.specs.Building as building;
ghost use Rattle.sq_draft.specs.Piping as piping;

use crate::args::moves;
use crate::forms::{
    CalleeArrays, Forms, Holding, MapTable, PipeCall, Places, Round, Set, local_shapes, round_in,
};
use crate::held::holding;
use crate::parts::{
    call_scope, case_term, child_scope, leaf_term, locals_scope, map_term, push_fills,
};
use crate::pipes::{
    moves_in, pipe_in, piped_term, places_in, push_come, push_leave, push_turns, shell_of,
};
use crate::transfers::{Transfer, push_transfers};
use sq_contexts::{LocalArrays, at_child_already, count_num, in_callee, in_map, start_table};
use sq_ir::{Num, Term, Terms};
use sq_num::RedOp;
use sq_spec::{Body, CallInstance, Statement};
use sq_tables::{
    Arm, CallTable, Context, Home, Homes, Move, Pipe, any_lower, any_same, arms_of, spread_of,
    tables_of,
};
use sq_text::SpreadRule;
use sqlite_items::{Items, at};
use std::alloc::{AllocError, Global};

// One map or call less that may stand inside. What runs out of them is answered as want of memory: no program within
// the limits does.
fn deeper(left: u32) -> Result<u32, AllocError>
    ensures { IfOk result (λ n. n + 1 ≡ left) }
{
    match left.checked_sub(1) {
        Some(n) => Ok(n),
        None => Err(AllocError),
    }
}

#[cycle(build)]
fn statements(
    alloc: Global,
    left: u32,
    forms: &Forms<'_>,
    round: Round,
    list: &[Statement],
    c: &Context,
) -> Result<Terms, AllocError>
    ensures { IfOk result (λ ts. ts ≡ terms.all_terms (map
        (building.part_in forms.now.bodies.now forms.now.homes.now forms.now.depth round.rule) list.now)
        round.op round.inside c.now) }
{
    let mut out = Vec::new(alloc);
    for x in list {
        let term = statement(alloc, left, forms, round, x, c)?;
        out.push(term)?;
    }
    Ok(Items::from_vec(out))
}

#[cycle(build)]
fn statement(
    alloc: Global,
    left: u32,
    forms: &Forms<'_>,
    round: Round,
    x: &Statement,
    c: &Context,
) -> Result<Term, AllocError>
    ensures { IfOk result (λ t. t ≡
        (building.part_in forms.now.bodies.now forms.now.homes.now forms.now.depth round.rule x.now).build
        round.op round.inside c.now) }
{
    let less = deeper(left)?;
    match x {
        Statement::Call { lower, instances } => {
            let rows = instances.as_slice();
            let made = rows_term(alloc, less, forms, round.op, *lower, rows, c)?;
            Ok(made)
        }
        Statement::Map {
            kind,
            counts,
            starts,
            body,
            ..
        } => {
            let numbers = counts.as_slice();
            let before = starts.as_slice();
            let list = body.as_slice();
            let table = MapTable {
                kind: *kind,
                counts: numbers,
                starts: before,
                body: list,
            };
            let made = map_of(alloc, less, forms, round, x, &table, c)?;
            Ok(made)
        }
    }
}

// A map, which arguments of its call may leave.
#[cycle(build)]
fn map_of(
    alloc: Global,
    left: u32,
    forms: &Forms<'_>,
    round: Round,
    x: &Statement,
    table: &MapTable<'_>,
    c: &Context,
) -> Result<Term, AllocError>
    ensures { IfOk result (λ t. t ≡ building.hold_by
        (building.holding_of forms.now.bodies.now forms.now.homes.now (loops.chain_in x.now) c.now)
        round.inside c.now (building.run_in forms.now.bodies.now forms.now.homes.now forms.now.depth round.rule
        table.now.kind table.now.counts.now table.now.starts.now table.now.body.now)) }
{
    match holding(alloc, forms, x, c)? {
        None => run_term(alloc, left, forms, round, table, c),
        Some(held) => hold(alloc, left, forms, round, held, table, c),
    }
}

#[cycle(build)]
fn hold(
    alloc: Global,
    left: u32,
    forms: &Forms<'_>,
    round: Round,
    held: Holding,
    table: &MapTable<'_>,
    c: &Context,
) -> Result<Term, AllocError>
    ensures { IfOk result (λ t. t ≡ building.hold_by (Some held) round.inside c.now
        (building.run_in forms.now.bodies.now forms.now.homes.now forms.now.depth round.rule
        table.now.kind table.now.counts.now table.now.starts.now table.now.body.now)) }
{
    let parts = hold_parts(alloc, left, forms, round, held.moves.as_slice(), table, c)?;
    let made = child_scope(alloc, true, c, held.buffers, parts)?;
    Ok(made)
}

// What comes in, the loop at the child already, and what goes out.
#[cycle(build)]
fn hold_parts(
    alloc: Global,
    left: u32,
    forms: &Forms<'_>,
    round: Round,
    ms: &[Move],
    table: &MapTable<'_>,
    c: &Context,
) -> Result<Terms, AllocError>
    ensures { IfOk result (λ ts. ts ≡ term.Par (map terms.hold_in_term ms.now)
        ∷ building.run_in forms.now.bodies.now forms.now.homes.now forms.now.depth round.rule
        table.now.kind table.now.counts.now table.now.starts.now table.now.body.now true (terms.at_child_already c.now)
        ∷ term.Par (map terms.hold_out_term ms.now) ∷ []) }
{
    let mut parts = Items::new(alloc);
    push_transfers(alloc, &mut parts, Transfer::HoldIn, ms)?;
    let made = held_loop(alloc, left, forms, round, table, c)?;
    parts.push(made)?;
    push_transfers(alloc, &mut parts, Transfer::HoldOut, ms)?;
    Ok(parts)
}

// The loop, at the child already.
#[cycle(build)]
fn held_loop(
    alloc: Global,
    left: u32,
    forms: &Forms<'_>,
    round: Round,
    table: &MapTable<'_>,
    c: &Context,
) -> Result<Term, AllocError>
    ensures { IfOk result (λ t. t ≡ building.run_in forms.now.bodies.now forms.now.homes.now forms.now.depth
        round.rule table.now.kind table.now.counts.now table.now.starts.now table.now.body.now true
        (terms.at_child_already c.now)) }
{
    let inner = at_child_already(alloc, c)?;
    let held = Round {
        rule: round.rule,
        op: round.op,
        spread: None,
        inside: true,
    };
    let made = run_term(alloc, left, forms, held, table, &inner);
    drop(inner);
    made
}

// A map whose transfers overlap or don't.
#[cycle(build)]
fn run_term(
    alloc: Global,
    left: u32,
    forms: &Forms<'_>,
    round: Round,
    table: &MapTable<'_>,
    c: &Context,
) -> Result<Term, AllocError>
    ensures { IfOk result (λ t. t ≡ building.run_in forms.now.bodies.now forms.now.homes.now forms.now.depth
        round.rule table.now.kind table.now.counts.now table.now.starts.now table.now.body.now round.inside c.now) }
{
    match pipe_in(forms.homes, round, table) {
        None => loop_term(alloc, left, forms, round, table, c),
        Some(pipe) => piped(alloc, left, forms, &pipe, table, c),
    }
}

// A loop whose transfers overlap, with its tables.
#[cycle(build)]
fn piped(
    alloc: Global,
    left: u32,
    forms: &Forms<'_>,
    pipe: &Pipe<'_>,
    table: &MapTable<'_>,
    c: &Context,
) -> Result<Term, AllocError>
    ensures { IfOk result (λ t. t ≡ building.pipe_by forms.now.bodies.now forms.now.homes.now forms.now.depth
        (Some pipe.now) table.now.counts.now table.now.starts.now c.now term.Skip) }
{
    let Some(row) = at(pipe.rows, 0) else {
        return Err(AllocError);
    };
    let Some(own) = at(forms.homes, row.form) else {
        return Err(AllocError);
    };
    let Some(body) = at(forms.bodies, row.form) else {
        return Err(AllocError);
    };
    let callee = CalleeArrays {
        shapes: body.arrays.as_slice(),
        homes: own.params.as_slice(),
    };
    let offsets = tables_of(alloc, c.views.as_slice(), pipe.rows)?;
    let starts = start_table(alloc, table.starts)?;
    let call = PipeCall {
        call: CallTable {
            op: None,
            lower: true,
            instances: pipe.rows,
            offsets: offsets.as_slice(),
        },
        form: row.form,
        callee,
        locals: LocalArrays {
            shapes: local_shapes(callee.shapes, own.params.len()),
            buffers: own.locals.as_slice(),
        },
        args: row.args.as_slice(),
        starts: &starts,
    };
    let made = piped_call(alloc, left, forms, &call, pipe.spread, table.counts, c)?;
    Ok(made)
}

#[cycle(build)]
fn piped_call(
    alloc: Global,
    left: u32,
    forms: &Forms<'_>,
    pipe: &PipeCall<'_>,
    spread: Option<SpreadRule>,
    counts: &[u32],
    c: &Context,
) -> Result<Term, AllocError>
    requires { piping.HasTables pipe.now c.now }
    ensures { IfOk result (λ t. t ≡ piping.piped_in
        (building.callee_in forms.now.bodies.now forms.now.homes.now forms.now.depth) (piping.seen pipe.now) spread
        (terms.count_num counts.now c.now) c.now) }
{
    let places = places_in(alloc, spread, counts, pipe.starts, c)?;
    let made = piped_at(alloc, left, forms, pipe, spread, &places, c)?;
    Ok(made)
}

// Its parts, where these stand.
#[cycle(build)]
fn piped_at(
    alloc: Global,
    left: u32,
    forms: &Forms<'_>,
    pipe: &PipeCall<'_>,
    spread: Option<SpreadRule>,
    places: &Places,
    c: &Context,
) -> Result<Term, AllocError>
    requires outer { piping.HasTables pipe.now places.now.outer.context }
    requires inner { piping.HasTables pipe.now places.now.inner.context }
    requires work { piping.HasTables pipe.now places.now.work }
    ensures { IfOk result (λ t. t ≡ piping.piped_at
        (building.callee_in forms.now.bodies.now forms.now.homes.now forms.now.depth) (piping.seen pipe.now) spread
        places.now c.now) }
{
    let shell = shell_of(alloc, pipe, &places.outer.lane, c)?;
    let parts = lane_parts(alloc, left, forms, pipe, places)?;
    let made = piped_term(alloc, spread, shell, parts)?;
    Ok(made)
}

// What comes in first, so many iterations, and what goes out last.
#[cycle(build)]
fn lane_parts(
    alloc: Global,
    left: u32,
    forms: &Forms<'_>,
    pipe: &PipeCall<'_>,
    places: &Places,
) -> Result<Terms, AllocError>
    requires outer { piping.HasTables pipe.now places.now.outer.context }
    requires inner { piping.HasTables pipe.now places.now.inner.context }
    requires work { piping.HasTables pipe.now places.now.work }
    ensures { IfOk result (λ ts. ts ≡ piping.lane_parts (piping.seen pipe.now) places.now (piping.works_in
        (building.callee_in forms.now.bodies.now forms.now.homes.now forms.now.depth) (piping.seen pipe.now)
        places.now.work)) }
{
    let mut parts = Items::new(alloc);
    push_come(alloc, &mut parts, pipe, &places.outer)?;
    let made = works(alloc, left, forms, pipe, &places.work)?;
    push_turns(alloc, &mut parts, pipe, places, made)?;
    push_leave(alloc, &mut parts, pipe, &places.outer)?;
    Ok(parts)
}

// The work of an iteration, in either set.
#[cycle(build)]
fn works(
    alloc: Global,
    left: u32,
    forms: &Forms<'_>,
    pipe: &PipeCall<'_>,
    c: &Context,
) -> Result<Terms, AllocError>
    requires { piping.HasTables pipe.now c.now }
    ensures { IfOk result (λ ts. ts ≡ piping.works_in
        (building.callee_in forms.now.bodies.now forms.now.homes.now forms.now.depth) (piping.seen pipe.now) c.now) }
{
    let mut out = Items::new(alloc);
    let first = work(alloc, left, forms, pipe, Set::First, c)?;
    out.push(first)?;
    let second = work(alloc, left, forms, pipe, Set::Second, c)?;
    out.push(second)?;
    Ok(out)
}

#[cycle(build)]
fn work(
    alloc: Global,
    left: u32,
    forms: &Forms<'_>,
    pipe: &PipeCall<'_>,
    set: Set,
    c: &Context,
) -> Result<Term, AllocError>
    requires { piping.HasTables pipe.now c.now }
    ensures { IfOk result (λ t. t ≡ piping.work_in
        (building.callee_in forms.now.bodies.now forms.now.homes.now forms.now.depth) (piping.seen pipe.now)
        (piping.set_number set) c.now) }
{
    let ms = moves_in(alloc, pipe, set, c)?;
    let parts = work_parts(alloc, left, forms, pipe, ms.as_slice(), c)?;
    Ok(Term::Seq(parts))
}

// The fills of what is held, and the callee.
#[cycle(build)]
fn work_parts(
    alloc: Global,
    left: u32,
    forms: &Forms<'_>,
    pipe: &PipeCall<'_>,
    ms: &[Move],
    c: &Context,
) -> Result<Terms, AllocError>
    ensures { IfOk result (λ ts. ts ≡ piping.work_parts
        (building.callee_in forms.now.bodies.now forms.now.homes.now forms.now.depth) (piping.seen pipe.now)
        ms.now c.now) }
{
    let mut parts = Items::new(alloc);
    push_transfers(alloc, &mut parts, Transfer::Fill, ms)?;
    let made = called(alloc, left, forms, pipe.form, ms, &pipe.locals, c)?;
    parts.push(made)?;
    Ok(parts)
}

// A map in the context in which it stands.
#[cycle(build)]
fn loop_term(
    alloc: Global,
    left: u32,
    forms: &Forms<'_>,
    round: Round,
    table: &MapTable<'_>,
    c: &Context,
) -> Result<Term, AllocError>
    ensures { IfOk result (λ t. t ≡ building.loop_in forms.now.bodies.now forms.now.homes.now forms.now.depth
        round.rule table.now.kind table.now.counts.now table.now.starts.now table.now.body.now round.inside c.now) }
{
    let lower = any_lower(table.body);
    let same = any_same(table.body);
    let spread = spread_of(round.rule, table.kind, round.inside, lower, same);
    let inner = round_in(round, table.kind, spread);
    let count = count_num(alloc, table.counts, c)?;
    let parts = turn(alloc, left, forms, inner, &count, table, c)?;
    let made = map_term(alloc, spread, count, parts)?;
    Ok(made)
}

// The parts of an iteration of a map, round which this stands.
#[cycle(build)]
fn turn(
    alloc: Global,
    left: u32,
    forms: &Forms<'_>,
    round: Round,
    count: &Num,
    table: &MapTable<'_>,
    c: &Context,
) -> Result<Terms, AllocError>
    ensures { IfOk result (λ ts. ts ≡ terms.all_terms (map
        (building.part_in forms.now.bodies.now forms.now.homes.now forms.now.depth round.rule) table.now.body.now)
        round.op round.inside (terms.in_map round.spread count.now table.now.starts.now c.now)) }
{
    let inner = in_map(alloc, round.spread, count, table.starts, c)?;
    let made = statements(alloc, left, forms, round, table.body, &inner);
    drop(inner);
    made
}

// A call, which has an arm for each form that it reaches.
#[cycle(build)]
fn rows_term(
    alloc: Global,
    left: u32,
    forms: &Forms<'_>,
    op: Option<RedOp>,
    lower: bool,
    instances: &[CallInstance],
    c: &Context,
) -> Result<Term, AllocError>
    ensures { IfOk result (λ t. t ≡ terms.rows_term (terms.body_in forms.now.bodies.now)
        (terms.homes_in forms.now.homes.now)
        (building.callee_in forms.now.bodies.now forms.now.homes.now forms.now.depth) op lower c.now instances.now) }
{
    let offsets = tables_of(alloc, c.views.as_slice(), instances)?;
    let call = CallTable {
        op,
        lower,
        instances,
        offsets: offsets.as_slice(),
    };
    let made = case_of(alloc, left, forms, &call, c)?;
    Ok(made)
}

#[cycle(build)]
fn case_of(
    alloc: Global,
    left: u32,
    forms: &Forms<'_>,
    call: &CallTable<'_>,
    c: &Context,
) -> Result<Term, AllocError>
    requires { cases.AreTables c.now.views call.now.instances.now call.now.offsets.now }
    ensures { IfOk result (λ t. t ≡ terms.rows_term (terms.body_in forms.now.bodies.now)
        (terms.homes_in forms.now.homes.now)
        (building.callee_in forms.now.bodies.now forms.now.homes.now forms.now.depth)
        call.now.op call.now.lower c.now call.now.instances.now) }
{
    let arms = arms_of(alloc, call.instances)?;
    let parts = arm_terms(alloc, left, forms, call, arms.list.as_slice(), c)?;
    let made = case_term(alloc, &arms, call.instances, parts, c)?;
    Ok(made)
}

#[cycle(build)]
fn arm_terms(
    alloc: Global,
    left: u32,
    forms: &Forms<'_>,
    call: &CallTable<'_>,
    arms: &[Arm<'_>],
    c: &Context,
) -> Result<Terms, AllocError>
    requires { cases.AreTables c.now.views call.now.instances.now call.now.offsets.now }
    ensures { IfOk result (λ ts. ts ≡ term.Skip ∷ map (terms.arm_of_form (terms.body_in forms.now.bodies.now)
        (terms.homes_in forms.now.homes.now)
        (building.callee_in forms.now.bodies.now forms.now.homes.now forms.now.depth)
        call.now.op call.now.lower c.now call.now.instances.now) arms.now) }
{
    let mut out = Vec::new(alloc);
    out.push(Term::Skip)?;
    for arm in arms {
        let term = arm_term(alloc, left, forms, call, arm.row, c)?;
        out.push(term)?;
    }
    Ok(Items::from_vec(out))
}

#[cycle(build)]
fn arm_term(
    alloc: Global,
    left: u32,
    forms: &Forms<'_>,
    call: &CallTable<'_>,
    row: &CallInstance,
    c: &Context,
) -> Result<Term, AllocError>
    requires { cases.AreTables c.now.views call.now.instances.now call.now.offsets.now }
    ensures { IfOk result (λ t. t ≡ terms.arm_of_form (terms.body_in forms.now.bodies.now)
        (terms.homes_in forms.now.homes.now)
        (building.callee_in forms.now.bodies.now forms.now.homes.now forms.now.depth)
        call.now.op call.now.lower c.now call.now.instances.now row.now) }
{
    let Some(own) = at(forms.homes, row.form) else {
        return Err(AllocError);
    };
    let made = call_term(alloc, left, forms, own.params.as_slice(), call, row, c)?;
    Ok(made)
}

/// A call of one form, whose parameters have these homes.
#[cycle(build)]
pub fn call_term(
    alloc: Global,
    left: u32,
    forms: &Forms<'_>,
    params: &[Home],
    call: &CallTable<'_>,
    row: &CallInstance,
    c: &Context,
) -> Result<Term, AllocError>
    requires { cases.AreTables c.now.views call.now.instances.now call.now.offsets.now }
    ensures { IfOk result (λ t. t ≡ terms.arm_term (terms.body_in forms.now.bodies.now)
        (terms.homes_in forms.now.homes.now)
        (building.callee_in forms.now.bodies.now forms.now.homes.now forms.now.depth)
        params.now call.now.op call.now.lower c.now call.now.instances.now row.now) }
{
    let Some(own) = at(forms.homes, row.form) else {
        return Err(AllocError);
    };
    let Some(body) = at(forms.bodies, row.form) else {
        return Err(AllocError);
    };
    let callee = CalleeArrays {
        shapes: body.arrays.as_slice(),
        homes: params,
    };
    let locals = LocalArrays {
        shapes: local_shapes(callee.shapes, own.params.len()),
        buffers: own.locals.as_slice(),
    };
    let args = row.args.as_slice();
    let ms = moves(alloc, call, &callee, c, args)?;
    let parts = call_parts(alloc, left, forms, row.form, ms.as_slice(), &locals, c)?;
    let made = call_scope(alloc, call.lower, params, args, parts, c)?;
    Ok(made)
}

// What brings the parameters in, the callee, and what gives them back.
#[cycle(build)]
fn call_parts(
    alloc: Global,
    left: u32,
    forms: &Forms<'_>,
    form: usize,
    ms: &[Move],
    locals: &LocalArrays<'_>,
    c: &Context,
) -> Result<Terms, AllocError>
    ensures { IfOk result (λ ts. ts ≡ terms.call_parts ms.now
        (tables.placed_locals locals.now.shapes.now locals.now.buffers.now)
        (building.callee_in forms.now.bodies.now forms.now.homes.now forms.now.depth form
        (terms.in_callee c.now ms.now (tables.placed_locals locals.now.shapes.now locals.now.buffers.now)))) }
{
    let mut parts = Items::new(alloc);
    push_transfers(alloc, &mut parts, Transfer::Bring, ms)?;
    let made = called(alloc, left, forms, form, ms, locals, c)?;
    parts.push(made)?;
    push_transfers(alloc, &mut parts, Transfer::Back, ms)?;
    Ok(parts)
}

// The callee, in its own context.
#[cycle(build)]
fn called(
    alloc: Global,
    left: u32,
    forms: &Forms<'_>,
    form: usize,
    ms: &[Move],
    locals: &LocalArrays<'_>,
    c: &Context,
) -> Result<Term, AllocError>
    ensures { IfOk result (λ t. t ≡ terms.callee_term
        (tables.placed_locals locals.now.shapes.now locals.now.buffers.now)
        (building.callee_in forms.now.bodies.now forms.now.homes.now forms.now.depth form
        (terms.in_callee c.now ms.now (tables.placed_locals locals.now.shapes.now locals.now.buffers.now)))) }
{
    let inner = in_callee(alloc, c, ms, locals)?;
    let made = callee(alloc, left, forms, form, locals, &inner);
    drop(inner);
    made
}

#[cycle(build)]
fn callee(
    alloc: Global,
    left: u32,
    forms: &Forms<'_>,
    form: usize,
    locals: &LocalArrays<'_>,
    inner: &Context,
) -> Result<Term, AllocError>
    ensures { IfOk result (λ t. t ≡ terms.callee_term
        (tables.placed_locals locals.now.shapes.now locals.now.buffers.now)
        (building.callee_in forms.now.bodies.now forms.now.homes.now forms.now.depth form inner.now)) }
{
    let mut parts = Items::new(alloc);
    push_fills(alloc, &mut parts, locals)?;
    let body = form_term(alloc, left, forms, form, inner)?;
    parts.push(body)?;
    let made = locals_scope(alloc, locals, parts)?;
    Ok(made)
}

// The term of a form.
#[cycle(build)]
fn form_term(
    alloc: Global,
    left: u32,
    forms: &Forms<'_>,
    form: usize,
    c: &Context,
) -> Result<Term, AllocError>
    ensures { IfOk result (λ t. t ≡
        building.callee_in forms.now.bodies.now forms.now.homes.now forms.now.depth form c.now) }
{
    let Some(depth) = forms.depth.checked_sub(1) else {
        return Ok(Term::Skip);
    };
    let Some(own) = at(forms.homes, form) else {
        return Err(AllocError);
    };
    let Some(body) = at(forms.bodies, form) else {
        return Err(AllocError);
    };
    let inner = Forms {
        bodies: forms.bodies,
        homes: forms.homes,
        depth,
    };
    let made = body_term(alloc, left, &inner, own, &body.body, c)?;
    Ok(made)
}

#[cycle(build)]
fn body_term(
    alloc: Global,
    left: u32,
    forms: &Forms<'_>,
    own: &Homes,
    body: &Body,
    c: &Context,
) -> Result<Term, AllocError>
    ensures { IfOk result (λ t. t ≡ terms.body_term (terms.body_in forms.now.bodies.now)
        (terms.homes_in forms.now.homes.now)
        (building.callee_in forms.now.bodies.now forms.now.homes.now forms.now.depth) own.now body.now c.now) }
{
    match body {
        Body::Leaf(_) => leaf_term(alloc, own.code, c),
        Body::Inner(list) => {
            let round = Round {
                rule: own.rule,
                op: None,
                spread: None,
                inside: false,
            };
            let parts = statements(alloc, left, forms, round, list.as_slice(), c)?;
            Ok(Term::Seq(parts))
        }
    }
}
