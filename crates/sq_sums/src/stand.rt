//! Where a part of a term stands, and what its numbers are there.

ghost use Rattle.std.specs.Prelude.{◌≡◌};
ghost use Rattle.sq_ir.specs.Plans.{node_at};
ghost use Rattle.sq_term_nums.specs.Words.{env_of, value};
ghost use Rattle.sq_sums.specs.Scales.{arm_index};

use sq_ir::{Num, PlanNode};
use sq_term_nums::{Env, Turns, value_of};

/// The numbers of the iterations round a part, the node in force, and the bytes of the buffers that are open at it.
#[derive(Clone, Copy, Drop)]
pub(crate) struct Stand<'a> {
    pub(crate) turns: &'a Turns<'a>,
    pub(crate) node: u64,
    pub(crate) held: u64,
}

/// A memory; one that is not there has no children.
#[tactic(auto, using(crate::proofs::Lists::past))]
pub(crate) fn memory(nodes: &[PlanNode], node: u64) -> PlanNode
    ensures { result ≡ node_at nodes.now node }
{
    let node = node as usize;
    if node < nodes.len() {
        nodes[node]
    } else {
        PlanNode {
            level: 0,
            capacity: 0,
            first_child: 0,
            children: 0,
        }
    }
}

/// The number of an arm, of so many; how many there are where that has none.
pub(crate) fn arm_for(pick: &Num, env: &Env<'_>, arms: usize) -> usize
    ensures { result ≡ arm_index (value pick.now (env_of env.now)) arms }
{
    let k = value_of(pick, env);
    if k < 0 {
        return arms;
    }
    let i = k as usize;
    if i < arms { i } else { arms }
}
