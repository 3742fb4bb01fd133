//! The tables of the arguments of a call.

ghost use Rattle.std.specs.Prelude.{◌≡◌, length, IfOk};
ghost use Rattle.sq_term.specs.Terms as terms;
ghost use Rattle.sq_tables.specs.Cases as cases;

use crate::blocks::offsets;
use sq_num::RedOp;
use sq_spec::CallInstance;
use sq_term::parts::{LeafView, Numbers};
use sqlite_items::{Items, at};
use std::alloc::{AllocError, Global};

/// A call with its rows: by which operator the map round it reduces, and where the blocks of its arguments begin.
#[derive(Clone, Copy)]
pub struct CallTable<'a> {
    pub op: Option<RedOp>,
    pub lower: bool,
    pub instances: &'a [CallInstance],
    pub offsets: &'a [Option<Numbers>],
}

fn most_args(instances: &[CallInstance]) -> usize
    ensures { result ≡ cases.most_args instances.now }
{
    let mut most = 0;
    for row in instances {
        if row.args.len() > most {
            most = row.args.len();
        }
    }
    most
}

/// Where the blocks of each argument begin, for all arms of a call: a table for each that one of its rows has.
pub fn tables_of(
    alloc: Global,
    views: &[LeafView],
    instances: &[CallInstance],
) -> Result<Items<Option<Numbers>>, AllocError>
    ensures tables { IfOk result (λ ts. cases.AreTables views.now instances.now ts) }
    ensures many { IfOk result (λ ts. length ts ≡ cases.most_args instances.now) }
{
    let mut out = Items::new(alloc);
    for i in 0..most_args(instances) {
        let table = offsets(alloc, views, instances, i)?;
        out.push(table)?;
    }
    Ok(out)
}

fn copy_table(table: &Option<Numbers>) -> Result<Option<Numbers>, AllocError>
    ensures { IfOk result (λ t. t ≡ table.now) }
{
    match table {
        None => Ok(None),
        Some(numbers) => {
            let same = numbers.copy()?;
            Ok(Some(same))
        }
    }
}

/// The table of an argument; one that wasn't made before is made here.
pub fn table_of(
    alloc: Global,
    views: &[LeafView],
    call: &CallTable<'_>,
    i: usize,
) -> Result<Option<Numbers>, AllocError>
    requires { cases.AreTables views.now call.now.instances.now call.now.offsets.now }
    ensures { IfOk result (λ t. t ≡ terms.offsets views.now call.now.instances.now i) }
{
    match at(call.offsets, i) {
        Some(table) => {
            let same = copy_table(table)?;
            Ok(same)
        }
        None => {
            let table = offsets(alloc, views, call.instances, i)?;
            Ok(table)
        }
    }
}
