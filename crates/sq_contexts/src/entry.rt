//! Where the entry stands.

ghost use Rattle.std.specs.Prelude.{◌≡◌, ◌++◌, IfOk, OnOk};
ghost use Rattle.sq_term.specs.Terms as terms;

use crate::places::buffer_view;
use sq_ir::{LeafViews, Num, Shape};
use sq_term::{Context, FormBody, Home, Homes};
use sqlite_items::Items;
use std::alloc::{AllocError, Global};

fn buffer_or(home: Home) -> u32
    ensures { result ≡ terms.buffer_or home }
{
    match home {
        Home::InPlace => 0,
        Home::Own(buffer) => buffer,
        Home::Held { buffer, .. } => buffer,
        Home::Twin { first, .. } => first,
    }
}

fn push_views(out: &mut LeafViews, shapes: &[Shape], homes: &[Home]) -> Result<(), AllocError>
    ensures { OnOk result (out.new ≡ out.old ++ terms.entry_views shapes.now homes.now) }
{
    match homes {
        [] => Ok(()),
        [home, others @ ..] => match shapes {
            [] => Ok(()),
            [shape, more @ ..] => {
                out.push(buffer_view(buffer_or(*home), shape)?)?;
                push_views(out, more, others)?;
                Ok(())
            }
        },
    }
}

/// The context of the entry.
pub fn entry_context(alloc: Global, body: &FormBody, own: &Homes) -> Result<Context, AllocError>
    ensures { IfOk result (λ c. c ≡ terms.entry_context body.now own.now) }
{
    let mut views = Items::new(alloc);
    push_views(&mut views, body.arrays.as_slice(), own.params.as_slice())?;
    Ok(Context {
        ordinal: Num::Const(0),
        child: Some(Num::Const(0)),
        path: Items::new(alloc),
        views,
    })
}
