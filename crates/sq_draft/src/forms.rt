//! What a part of a term is made from.

ghost use Rattle.std.specs.Prelude.{◌≡◌, ◌||◌, is_some, drop, true};
ghost use Rattle.sq_tables.specs.Placed.Tables as tables;

use sq_contexts::LocalArrays;
use sq_ir::{BufferIds, Num, Numbers, Shape};
use sq_num::RedOp;
use sq_spec::{Argument, FormBody, LoopKind, Statement};
use sq_tables::{CallTable, Context, Home, Homes, Lane, Move, op_of};
use sq_text::SpreadRule;
use sqlite_items::Items;

/// The forms of a program by their numbers: what each does, and where its arrays stand; and how many calls of forms may
/// still stand within one another.
#[derive(Clone, Copy)]
pub struct Forms<'a> {
    pub bodies: &'a [FormBody],
    pub homes: &'a [Homes],
    pub depth: u32,
}

/// A map with its tables and its statements.
#[derive(Clone, Copy)]
pub struct MapTable<'a> {
    pub kind: LoopKind,
    pub counts: &'a [u32],
    pub starts: &'a [usize],
    pub body: &'a [Statement],
}

/// The arrays of a callee, its parameters first, and where these stand.
#[derive(Clone, Copy)]
pub struct CalleeArrays<'a> {
    pub shapes: &'a [Shape],
    pub homes: &'a [Home],
}

/// The arguments that leave a loop, and the buffers that the loop brings into scope.
#[derive(Drop)]
pub struct Holding {
    pub moves: Items<Move>,
    pub buffers: BufferIds,
}

/// The call in a loop whose transfers overlap: its rows, the arrays of its callee, the arguments of its first row; and
/// how
/// many iterations began before, each time that the loop is begun.
#[derive(Clone, Copy)]
pub struct PipeCall<'a> {
    pub call: CallTable<'a>,
    pub form: usize,
    pub callee: CalleeArrays<'a>,
    pub locals: LocalArrays<'a>,
    pub args: &'a [Argument],
    pub starts: &'a Numbers,
}

/// One of the two sets of buffers that such a loop has in turn.
#[derive(Clone, Copy)]
pub enum Set {
    First,
    Second,
}

/// The iterations of a loop at one child, and where it stands.
pub struct LanePlace {
    pub lane: Lane,
    pub context: Context,
}

// By hand, so that a call stands wherever one is let go, and not its dozens of numbers.
impl Drop for LanePlace {
    fn drop(self) {
        let LanePlace { lane, context } = self;
        drop(lane);
        drop(context);
    }
}

/// The same round the loop and in an iteration of it, and where the work of that iteration stands.
pub struct Places {
    pub outer: LanePlace,
    pub inner: LanePlace,
    pub work: Context,
}

impl Drop for Places {
    fn drop(self) {
        let Places { outer, inner, work } = self;
        drop(outer);
        drop(inner);
        drop(work);
    }
}

/// What stands round the parts of such a loop: the child, the buffers of both sets, and how many iterations there are.
pub struct Shell {
    pub child: Option<Num>,
    pub buffers: BufferIds,
    pub many: Num,
}

impl Drop for Shell {
    fn drop(self) {
        let Shell {
            child,
            buffers,
            many,
        } = self;
        drop(child);
        drop(buffers);
        drop(many);
    }
}

impl Shell {
    pub fn parts(self) -> (Option<Num>, BufferIds, Num)
        ensures { result ≡ (self.child, self.buffers, self.many) }
    {
        let Shell {
            child,
            buffers,
            many,
        } = self;
        (child, buffers, many)
    }
}

/// The shapes of a form's locals, which stand behind its parameters.
pub fn local_shapes<'a>(shapes: &'a [Shape], params: usize) -> &'a [Shape]
    ensures { result.now ≡ drop params shapes.now }
{
    if params < shapes.len() {
        &shapes[params..]
    } else {
        &[]
    }
}

/// What stands round a statement: the rule of its form, by which operator the map round it reduces and whether that is
/// spread, and whether a spread map, or a loop that arguments leave, stands round it.
#[derive(Clone, Copy)]
pub struct Round {
    pub rule: SpreadRule,
    pub op: Option<RedOp>,
    pub spread: Option<SpreadRule>,
    pub inside: bool,
}

/// What stands round the statements in a map.
pub fn round_in(round: Round, kind: LoopKind, spread: Option<SpreadRule>) -> Round
    ensures rule { result.rule ≡ round.rule }
    ensures op { result.op ≡ tables.op_of kind }
    ensures spread { result.spread ≡ spread }
    ensures inside { result.inside ≡ (round.inside || is_some spread) }
{
    Round {
        rule: round.rule,
        op: op_of(kind),
        spread,
        inside: round.inside || spread.is_some(),
    }
}
