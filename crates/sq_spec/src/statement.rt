//! The statements of a form, each with a row for every time that it is begun, in the order in which they would run.

ghost use Rattle.std.specs.Prelude.{◌≡◌, ◌==◌, ◌+◌, ◌∷◌, ◌++◌, [], List, suc, map, slice_get, IfOk, OnOk};
ghost use Rattle.std.specs.Map.{lookup};
ghost use Rattle.sq_text.specs.Names.{same_name};
ghost use Rattle.std.specs.Option.{option_copied};
ghost use Rattle.sq_form_laws.specs.Blocks.declared.argument.Argument.{Argument as SpecArgument};
ghost use Rattle.sq_form_laws.specs.Forms.Faults.{Makes};
ghost use Rattle.sq_form_laws.specs.Forms.Args as argued;
ghost use Rattle.sq_form_laws.specs.Forms.Worlds as worlds;
ghost use Rattle.sq_form_laws.specs.Forms.Steps as steps;
ghost use Rattle.sq_form_laws.specs.Forms.Calls as calls;
ghost use Rattle.sq_form_laws.specs.Forms.Stmts as stmts;
ghost use Rattle.sq_spec.specs.Statements as spec;

use indexmap::IndexMap;
use sq_ast::{ArgUse, Call, Elem, MapKind, Param, Range, Stmt};
use sq_form_laws::{
    Argument, Bindings, Callee, Env, Found, Frame, Key, Known, bind_iteration, bounds, callee_of,
    calls_in, examine, flags, key_of, lengths, plus, reduced_by, times,
};
use sq_text::{Name, Place, Stop};
use sq_work::{Dims, Reduction};
use sqlite_items::{Items, at};
use std::alloc::{AllocError, Global};
use std::marker::Model;

/// How the iterations of a map stand to one another.
#[derive(Clone, Copy, Debug, PartialEq, Eq)]
pub enum LoopKind {
    /// `mapseq`
    Sequential,
    /// `mappar`
    Parallel,
    /// `mapreduce`
    Reduction(Reduction),
}

/// One run of a call: the form that it reaches, and its arguments.
#[derive(Drop)]
pub struct CallInstance {
    /// The number of the callee's form.
    pub form: usize,
    pub args: Items<Argument>,
}

/// A statement with its tables, which have a row for each time that it is begun in one run of its form.
#[derive(Drop)]
pub enum Statement {
    Call {
        /// Whether the callee stands at the next level.
        lower: bool,
        instances: Items<CallInstance>,
    },
    Map {
        place: Place,
        kind: LoopKind,
        /// How many iterations there are; no rows where there is none at any time.
        counts: Items<u32>,
        /// How many began in the times before.
        starts: Items<usize>,
        body: Items<Statement>,
    },
}

/// A map round a statement.
#[derive(Drop)]
pub struct EnclosingMap<'a> {
    ranges: &'a [Range],
}

impl<'a> Model for EnclosingMap<'a> {
    ghost use Rattle.std.specs.Prelude.{List};
    ghost use Rattle.std.specs.Coded.{coded_list};
    ghost use Rattle.sq_ast.specs.contracts.stmt.Range as row;
    ghost use Rattle.sq_ast.specs.declared.stmt.Range.{Range};

    ghost Value = { List Range };

    ghost coded = { coded_list row.the_row.coded };

    ghost view = { λ l. l.ranges.now };
}

/// What is known in a form before its statements, and the forms that its calls reach.
#[derive(Clone, Copy)]
pub struct FormContext<'a> {
    pub frame: &'a Frame<'a>,
    pub known: &'a Known,
    pub forms: &'a IndexMap<Key, Found>,
    /// The types of the arrays' elements.
    pub elems: &'a [Elem],
}

// The bounds; none where one is at fault.
fn bounds_or_none(
    alloc: Global,
    known: &Known,
    numbers: &Bindings,
    ranges: &[Range],
) -> Result<Option<Items<i64>>, AllocError>
    ensures { IfOk result (λ o. o ≡ spec.worth_or_none
        (stmts.bounds ranges.now numbers.now (argued.names_of known.now).lists)) }
{
    let env = Env {
        numbers,
        lists: &known.lists,
    };
    match bounds(alloc, &env, ranges) {
        Ok(bounds) => Ok(Some(bounds)),
        Err(Stop::Refused(_)) => Ok(None),
        Err(Stop::NoMemory) => Err(AllocError),
    }
}

// A count that has 32 bits; else memory would have run out before.
fn count(bounds: &[i64]) -> Result<u32, AllocError>
    ensures { IfOk result (λ n. n ≡ stmts.times bounds.now) }
{
    let count = times(bounds);
    if count > u64::from(u32::MAX) {
        return Err(AllocError);
    }
    Ok(count as u32)
}

fn count_at(
    alloc: Global,
    known: &Known,
    numbers: &Bindings,
    ranges: &[Range],
) -> Result<u32, AllocError>
    ensures { IfOk result (λ n. n ≡ spec.count_at ranges.now (argued.names_of known.now).lists numbers.now) }
{
    match bounds_or_none(alloc, known, numbers, ranges)? {
        Some(bounds) => count(bounds.as_slice()),
        None => Ok(0),
    }
}

// An argument, unless it is at fault.
fn push_argument(
    alloc: Global,
    known: &Known,
    numbers: &Bindings,
    reduced: Option<&Name>,
    param: Option<&Param>,
    a: &ArgUse,
    list: &mut Items<Argument>,
) -> Result<(), AllocError>
    ensures { OnOk result ((later : List SpecArgument)
        → list.new ++ later ≡ list.old ++ argued.with_value
        (argued.argument (argued.names_of known.now) numbers.now (option_copied reduced.entry)
        (option_copied param.entry) a.now) later) }
{
    match examine(alloc, known, numbers, reduced, param, a) {
        Ok(x) => {
            list.push(x)?;
            Ok(())
        }
        Err(Stop::Refused(_)) => Ok(()),
        Err(Stop::NoMemory) => Err(AllocError),
    }
}

fn arguments(
    alloc: Global,
    known: &Known,
    numbers: &Bindings,
    reduced: Option<&Name>,
    params: &[Param],
    list: &[ArgUse],
) -> Result<Items<Argument>, AllocError>
    ensures { IfOk result (λ xs. xs ≡ argued.arguments (argued.names_of known.now) numbers.now
        (option_copied reduced.entry) params.now 0 list.now) }
{
    let mut out = Items::new(alloc);
    for (i, a) in list.iter().enumerate() {
        push_argument(alloc, known, numbers, reduced, at(params, i), a, &mut out)?;
    }
    Ok(out)
}

fn extents_of(alloc: Global, list: &[Argument]) -> Result<Items<Dims>, AllocError>
    ensures { Makes result (calls.extents_of list.now) }
{
    let mut extents = Items::new(alloc);
    for x in list {
        extents.push(lengths(&x.rect))?;
    }
    Ok(extents)
}

// The number of the form that a call with these arguments reaches.
fn number_of(
    alloc: Global,
    context: &FormContext<'_>,
    call: u32,
    callee: &Callee<'_>,
    list: &[Argument],
) -> Result<usize, AllocError>
    ensures { IfOk result (λ n. n ≡ spec.number_or
        (steps.key_number context.now.forms.now.entries
        (calls.key_of context.now.frame.now.form call callee.now.instance
        (calls.flags (callee.now.level == context.now.frame.now.level) list.now) (calls.extents_of list.now)))) }
{
    let extents = extents_of(alloc, list)?;
    let in_place = flags(alloc, callee.level == context.frame.level, list)?;
    let key = key_of(
        alloc,
        context.frame.form,
        call,
        callee.instance,
        in_place.as_slice(),
        extents.as_slice(),
    )?;
    match context.forms.get_index_of(&key) {
        Some(number) => Ok(number),
        None => Ok(0),
    }
}

/// A call in the text of a form.
#[derive(Clone, Copy)]
struct TextCall<'a> {
    /// In text order.
    number: u32,
    /// The array that the map round it reduces into.
    reduced: Option<&'a Name>,
    callee: Callee<'a>,
    args: &'a [ArgUse],
}

fn reach(
    alloc: Global,
    context: &FormContext<'_>,
    numbers: &Bindings,
    text_call: &TextCall<'_>,
) -> Result<CallInstance, AllocError>
    ensures { IfOk result (λ r. r ≡ spec.call_instance context.now.forms.now.entries
        (worlds.frame_of context.now.frame.now) (argued.names_of context.now.known.now) text_call.now.number
        (option_copied text_call.now.reduced)
        (worlds.callee_by text_call.now.callee) text_call.now.args.now numbers.now) }
{
    let callee = text_call.callee;
    let args = arguments(
        alloc,
        context.known,
        numbers,
        text_call.reduced,
        callee.params,
        text_call.args,
    )?;
    let form = number_of(alloc, context, text_call.number, &callee, args.as_slice())?;
    Ok(CallInstance { form, args })
}

// A map's counts, for the times at which these maps begin it.
fn push_counts(
    alloc: Global,
    context: &FormContext<'_>,
    numbers: &mut Bindings,
    nest: &[EnclosingMap<'_>],
    ranges: &[Range],
    counts: &mut Items<u32>,
) -> Result<(), AllocError>
    ensures counts { OnOk result (counts.new ≡ counts.old ++ map
        (spec.count_at ranges.now (argued.names_of context.now.known.now).lists)
        (spec.iteration_points nest.now (argued.names_of context.now.known.now).lists numbers.old)) }
    ensures numbers { OnOk result (numbers.new ≡ numbers.old) }
{
    let Some((outer, inside)) = nest.split_first() else {
        counts.push(count_at(alloc, context.known, numbers, ranges)?)?;
        return Ok(());
    };
    let Some(bounds) = bounds_or_none(alloc, context.known, numbers, outer.ranges)? else {
        return Ok(());
    };
    let outside = numbers.len();
    for t in 0..count(bounds.as_slice())? {
        bind_iteration(numbers, outer.ranges, bounds.as_slice(), t)?;
        push_counts(alloc, context, numbers, inside, ranges, counts)?;
        numbers.truncate(outside);
    }
    Ok(())
}

// A row for each time that these maps begin the call.
fn push_instances(
    alloc: Global,
    context: &FormContext<'_>,
    numbers: &mut Bindings,
    nest: &[EnclosingMap<'_>],
    text_call: &TextCall<'_>,
    instances: &mut Items<CallInstance>,
) -> Result<(), AllocError>
    ensures instances { OnOk result
        (instances.new ≡ instances.old ++ map
        (spec.call_instance context.now.forms.now.entries (worlds.frame_of context.now.frame.now)
        (argued.names_of context.now.known.now) text_call.now.number (option_copied text_call.now.reduced)
        (worlds.callee_by text_call.now.callee) text_call.now.args.now)
        (spec.iteration_points nest.now (argued.names_of context.now.known.now).lists numbers.old)) }
    ensures numbers { OnOk result (numbers.new ≡ numbers.old) }
{
    let Some((outer, inside)) = nest.split_first() else {
        instances.push(reach(alloc, context, numbers, text_call)?)?;
        return Ok(());
    };
    let Some(bounds) = bounds_or_none(alloc, context.known, numbers, outer.ranges)? else {
        return Ok(());
    };
    let outside = numbers.len();
    for t in 0..count(bounds.as_slice())? {
        bind_iteration(numbers, outer.ranges, bounds.as_slice(), t)?;
        push_instances(alloc, context, numbers, inside, text_call, instances)?;
        numbers.truncate(outside);
    }
    Ok(())
}

// These maps, and one inside them.
fn deeper<'a>(
    alloc: Global,
    nest: &[EnclosingMap<'a>],
    ranges: &'a [Range],
) -> Result<Items<EnclosingMap<'a>>, AllocError>
    ensures { Makes result (nest.now ++ ranges.now ∷ []) }
{
    let mut maps = Items::new(alloc);
    for outer in nest {
        maps.push(EnclosingMap {
            ranges: outer.ranges,
        })?;
    }
    maps.push(EnclosingMap { ranges })?;
    Ok(maps)
}

fn elem_at(elems: &[Elem], i: usize) -> Elem
    ensures { result ≡ spec.elem_or_long (slice_get elems.now i) }
{
    match at(elems, i) {
        Some(elem) => *elem,
        None => Elem::Long,
    }
}

fn array_number(known: &Known, name: &Name) -> u32
    ensures { result ≡ spec.array_number (lookup (same_name name.now) (argued.names_of known.now).arrays) }
{
    match known.arrays.get(name) {
        Some(array) => array.number,
        None => 0,
    }
}

fn loop_kind_of(context: &FormContext<'_>, kind: &MapKind) -> LoopKind
    ensures { result ≡ spec.loop_kind_of context.now.elems.now (argued.names_of context.now.known.now) kind.now }
{
    match kind {
        MapKind::Par => LoopKind::Parallel,
        MapKind::Seq => LoopKind::Sequential,
        MapKind::Reduce { op, array } => {
            let number = array_number(context.known, &array.name);
            LoopKind::Reduction(Reduction {
                op: *op,
                elem: elem_at(context.elems, number as usize),
                array: number,
            })
        }
    }
}

fn is_lower(callee: &Callee<'_>, frame: &Frame<'_>) -> bool
    ensures { result ≡ (callee.now.level == suc frame.now.level) }
{
    u64::from(callee.level) == u64::from(frame.level) + 1
}

fn call_table(
    alloc: Global,
    context: &FormContext<'_>,
    numbers: &mut Bindings,
    nest: &[EnclosingMap<'_>],
    reduced: Option<&Name>,
    call: u32,
    c: &Call,
) -> Result<Statement, AllocError>
    ensures table { IfOk result (λ b. b ≡ spec.call_table context.now.forms.now.entries
        (worlds.frame_of context.now.frame.now)
        (argued.names_of context.now.known.now) context.now.elems.now numbers.old c.now
        (worlds.callee_of (worlds.frame_of context.now.frame.now) c.now.task) call
        (option_copied reduced.entry) nest.now) }
    ensures numbers { OnOk result (numbers.new ≡ numbers.old) }
{
    let mut instances = Items::new(alloc);
    let Some(callee) = callee_of(context.frame, &c.task) else {
        return Ok(Statement::Call {
            lower: false,
            instances,
        });
    };
    let text_call = TextCall {
        number: call,
        reduced,
        callee,
        args: c.args.as_slice(),
    };
    push_instances(alloc, context, numbers, nest, &text_call, &mut instances)?;
    Ok(Statement::Call {
        lower: is_lower(&callee, context.frame),
        instances,
    })
}

fn has_iterations(counts: &[u32]) -> bool
    ensures { result ≡ spec.has_iterations counts.now }
{
    for count in counts {
        if *count > 0 {
            return true;
        }
    }
    false
}

fn count_rows(alloc: Global, counts: Items<u32>) -> Items<u32>
    ensures { result ≡ spec.count_rows counts }
{
    if has_iterations(counts.as_slice()) {
        counts
    } else {
        Items::new(alloc)
    }
}

fn counts_of(
    alloc: Global,
    context: &FormContext<'_>,
    numbers: &mut Bindings,
    nest: &[EnclosingMap<'_>],
    ranges: &[Range],
) -> Result<Items<u32>, AllocError>
    ensures counts { IfOk result (λ counts. counts ≡ spec.count_rows (map
        (spec.count_at ranges.now (argued.names_of context.now.known.now).lists)
        (spec.iteration_points nest.now (argued.names_of context.now.known.now).lists numbers.old))) }
    ensures numbers { OnOk result (numbers.new ≡ numbers.old) }
{
    let mut counts = Items::new(alloc);
    push_counts(alloc, context, numbers, nest, ranges, &mut counts)?;
    Ok(count_rows(alloc, counts))
}

// How many iterations there are before each time; sums that don't have 64 bits have no room in memory.
fn starts_of(alloc: Global, counts: &[u32]) -> Result<Items<usize>, AllocError>
    ensures { IfOk result (λ starts. starts ≡ spec.starts_from 0 counts.now) }
{
    let mut starts = Items::new(alloc);
    let mut start = 0;
    for count in counts {
        starts.push(start)?;
        start = sum(start, *count)?;
    }
    Ok(starts)
}

fn sum(start: usize, count: u32) -> Result<usize, AllocError>
    ensures { IfOk result (λ n. n ≡ start + count) }
{
    match start.checked_add(count as usize) {
        Some(sum) => Ok(sum),
        None => Err(AllocError),
    }
}

#[cycle(tables)]
#[tactic(auto, using(crate::proofs::OpenedStatement::opened_statement))]
fn table_of<'a>(
    alloc: Global,
    context: &FormContext<'_>,
    numbers: &mut Bindings,
    nest: &[EnclosingMap<'a>],
    reduced: Option<&'a Name>,
    call: u32,
    s: &'a Stmt,
) -> Result<Statement, AllocError>
    ensures table { IfOk result (λ b. b ≡
        (spec.table_of context.now.forms.now.entries (worlds.frame_of context.now.frame.now)
        (argued.names_of context.now.known.now) context.now.elems.now numbers.old s.now).table call
        (option_copied reduced.entry) nest.now) }
    ensures numbers { OnOk result (numbers.new ≡ numbers.old) }
{
    match s {
        Stmt::Call(c) => {
            let table = call_table(alloc, context, numbers, nest, reduced, call, c)?;
            Ok(table)
        }
        Stmt::Map {
            place,
            kind,
            ranges,
            body,
        } => {
            let list = ranges.as_slice();
            let inside = deeper(alloc, nest, list)?;
            let body = statements(
                alloc,
                context,
                numbers,
                inside.as_slice(),
                reduced_by(kind),
                call,
                body.as_slice(),
            )?;
            let counts = counts_of(alloc, context, numbers, nest, list)?;
            let starts = starts_of(alloc, counts.as_slice())?;
            Ok(Statement::Map {
                place: *place,
                kind: loop_kind_of(context, kind),
                counts,
                starts,
                body,
            })
        }
    }
}

/// Statements, with what each is begun with.
#[cycle(tables)]
pub fn statements<'a>(
    alloc: Global,
    context: &FormContext<'_>,
    numbers: &mut Bindings,
    nest: &[EnclosingMap<'a>],
    reduced: Option<&'a Name>,
    call: u32,
    list: &'a [Stmt],
) -> Result<Items<Statement>, AllocError>
    ensures tables { IfOk result (λ bs. bs ≡ spec.all_of
        (map (spec.table_of context.now.forms.now.entries (worlds.frame_of context.now.frame.now)
        (argued.names_of context.now.known.now) context.now.elems.now numbers.old) list.now) call
        (option_copied reduced.entry) nest.now) }
    ensures numbers { OnOk result (numbers.new ≡ numbers.old) }
{
    let mut tables = Items::new(alloc);
    let mut call = call;
    for s in list {
        tables.push(table_of(alloc, context, numbers, nest, reduced, call, s)?)?;
        call = plus(call, calls_in(s)?)?;
    }
    Ok(tables)
}
