//! The term of a whole draft.

ghost use Rattle.std.specs.Prelude.{◌≡◌, [], ◌∷◌, length, IfOk, None, false};
ghost use Rattle.sq_tables.specs.Term.Terms as terms;
ghost use Rattle.sq_draft.specs.Building as building;

use crate::build::call_term;
use crate::forms::Forms;
use sq_contexts::entry_context;
use sq_ir::Term;
use sq_spec::{Argument, CallInstance, FormBody};
use sq_tables::{CallTable, Context, Homes, tables_of};
use sqlite_items::{Items, at};
use std::alloc::{AllocError, Global};

// More maps and calls than stand within one another in a program within the limits.
const MOST_LEVELS: u32 = 400;

fn entry_rows(alloc: Global, args: Items<Argument>) -> Result<Items<CallInstance>, AllocError>
    ensures { IfOk result (λ rows. rows ≡ terms.entry_row args ∷ []) }
{
    let mut rows = Items::new(alloc);
    rows.push(CallInstance { form: 0, args })?;
    Ok(rows)
}

fn depth_of(bodies: &[FormBody]) -> Result<u32, AllocError>
    ensures { IfOk result (λ n. n ≡ length bodies.now) }
{
    match u32::try_from(bodies.len()) {
        Ok(n) => Ok(n),
        Err(_) => Err(AllocError),
    }
}

fn entry_call(
    alloc: Global,
    bodies: &[FormBody],
    homes: &[Homes],
    instances: &[CallInstance],
    row: &CallInstance,
    c: &Context,
) -> Result<Term, AllocError>
    ensures { IfOk result (λ t. t ≡ terms.arm_term (terms.body_in bodies.now) (terms.homes_in homes.now)
        (building.callee_in bodies.now homes.now (length bodies.now)) [] None false c.now instances.now row.now) }
{
    let depth = depth_of(bodies)?;
    let forms = Forms {
        bodies,
        homes,
        depth,
    };
    let offsets = tables_of(alloc, c.views.as_slice(), instances)?;
    let call = CallTable {
        op: None,
        lower: false,
        instances,
        offsets: offsets.as_slice(),
    };
    let made = call_term(alloc, MOST_LEVELS, &forms, &[], &call, row, c)?;
    Ok(made)
}

// In a context that is let go behind it.
fn entry_in(
    alloc: Global,
    bodies: &[FormBody],
    homes: &[Homes],
    instances: &[CallInstance],
    row: &CallInstance,
    c: Context,
) -> Result<Term, AllocError>
    ensures { IfOk result (λ t. t ≡ terms.arm_term (terms.body_in bodies.now) (terms.homes_in homes.now)
        (building.callee_in bodies.now homes.now (length bodies.now)) [] None false c instances.now row.now) }
{
    let made = entry_call(alloc, bodies, homes, instances, row, &c);
    drop(c);
    made
}

/// The term of the entry, called with these arguments, where its buffers are in scope: forms do what the first list
/// says, and their arrays have the homes of the second one.
pub fn draft_term(
    alloc: Global,
    bodies: &[FormBody],
    homes: &[Homes],
    args: Items<Argument>,
) -> Result<Term, AllocError>
    ensures { IfOk result (λ t. t ≡ terms.entry_term (terms.body_in bodies.now) (terms.homes_in homes.now)
        (length bodies.now) args) }
{
    let Some(own) = at(homes, 0) else {
        return Err(AllocError);
    };
    let Some(body) = at(bodies, 0) else {
        return Err(AllocError);
    };
    let rows = entry_rows(alloc, args)?;
    let list = rows.as_slice();
    let Some(row) = at(list, 0) else {
        return Err(AllocError);
    };
    let c = entry_context(alloc, body, own)?;
    let made = entry_in(alloc, bodies, homes, list, row, c)?;
    Ok(made)
}
