//! What is true of banks and of runs.

ghost use Rattle.sq_leaf.specs.declared.trap.Trap as trap;
ghost use Rattle.sq_ir.specs.Events as events;
ghost use Rattle.sq_ir.specs.Scopes as scopes;
ghost use Rattle.sq_tree.specs.UnderOrders.{RunsUnderAreRuns, FirstPicksZero, RunsUnderGoOn};
ghost use Rattle.sq_tree.specs.Totals.{AreSums, HaveThePlansSums};
ghost use Rattle.sq_tree.specs.Prepared.{OpenedArePrepared, PutsKeepPrepared};

use sq_ir::laws::good_plans_have_one_result;
use sq_leaf::Trap;

/// What an order's answers lead to is a run under these answers as picks; and an order that always answers 0 picks 0
/// each time.
pub fn runs_under_orders_are_runs<Event, Scope, Address, Cause>()
    ensures runs { RunsUnderAreRuns Event Scope Address Cause }
    ensures first { FirstPicksZero Event Scope Address Cause }
{}

/// Each run of a plan under an order goes on under it until nothing is ready.
pub fn runs_under_orders_go_on()
    ensures { RunsUnderGoOn events.Event scopes.Scope events.Spot trap.Trap }
{}

/// What events carry over an edge and how many there are of each kind are sums over them, each stopped at the greatest
/// number of 64 bits. A run that goes on until nothing is ready, and in which nothing traps, has the sums of the plan
/// written out.
pub fn runs_carry_what_the_plan_does()
    ensures sums { AreSums }
    ensures whole { HaveThePlansSums }
{
    good_plans_have_one_result::<Trap>();
}

/// A bank that was opened with a plan is ready for a run of it, also with other bytes in its root.
pub fn opened_banks_are_prepared()
    ensures opened { OpenedArePrepared }
    ensures put { PutsKeepPrepared }
{}
