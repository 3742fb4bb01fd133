//! The nodes of a machine as the memories of a plan.

ghost use Rattle.std.specs.Prelude.{◌≡◌, map, IfOk};
ghost use Rattle.sq_machfile.specs.Machines.{WithinLimits};
ghost use Rattle.sq_plan_good.specs.DraftLaws.Choosing.{AreMemories};
ghost use Rattle.sq_plan_good.specs.DraftLaws.Memories as spec;

use sq_ir::{PlanNode, PlanNodes};
use sq_machfile::{Machine, Node};
use sq_plan_good::sq_draft_laws::laws::nodes_are_memories;
use sqlite_items::Items;
use std::alloc::{AllocError, Global};

fn plan_node(node: &Node) -> PlanNode
    ensures { result ≡ spec.plan_node node.now }
{
    PlanNode {
        level: node.level,
        capacity: node.capacity,
        first_child: node.first_child,
        children: node.children,
    }
}

// So many nodes, one for each.
fn all_nodes(alloc: Global, nodes: &[Node]) -> Result<PlanNodes, AllocError>
    ensures { IfOk result (λ ns. ns ≡ map spec.plan_node nodes.now) }
{
    let mut out = Items::new(alloc);
    for node in nodes {
        out.push(plan_node(node))?;
    }
    Ok(out)
}

/// The memories of a machine, which is within the limits, level by level, and in each level from the left.
pub fn plan_nodes(alloc: Global, machine: &Machine) -> Result<PlanNodes, AllocError>
    ensures nodes { IfOk result (λ ns. ns ≡ map spec.plan_node machine.now.nodes) }
    ensures memories { IfOk result (λ ns. AreMemories machine.now.levels ns) }
    ensures limits { WithinLimits machine.now }
{
    nodes_are_memories();
    all_nodes(alloc, machine.tree())
}
