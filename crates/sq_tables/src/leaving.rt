//! The arguments that leave a loop.

ghost use Rattle.std.specs.Prelude.{◌≡◌, IfOk, get_or};
ghost use Rattle.sq_term.specs.Placed.declared.home.Home.TheVariants as home;
ghost use Rattle.sq_term.specs.Placed.Tables as tables;

use sq_spec::Argument;
use sq_term::Home;
use sqlite_items::{Items, at};
use std::alloc::{AllocError, Global};
use std::marker::Model;

/// An argument that leaves a loop, and its position.
#[derive(Drop)]
pub struct Left<'a> {
    pub position: usize,
    pub arg: &'a Argument,
}

impl<'a> Model for Left<'a> {
    ghost use Rattle.std.specs.Prelude.{ℕ};
    ghost use Rattle.std.specs.Coded.{codes};
    ghost use Rattle.sq_spec.specs.Blocks.contracts.argument.Argument as contract;
    ghost use Rattle.sq_spec.specs.Blocks.declared.argument.Argument.{Argument as Left_argument};

    ghost Value = { ℕ × Left_argument };

    ghost coded = { Prim.hlevel (codes, contract.the_row.coded) };

    ghost view = { λ l. (l.position, l.arg.now) };
}

/// The home of a parameter.
pub fn home_at(homes: &[Home], i: usize) -> Home
    ensures { result ≡ get_or homes.now i home.InPlace }
{
    match at(homes, i) {
        Some(home) => *home,
        None => Home::InPlace,
    }
}

fn leaves_loop(loops: u32, home: Home) -> bool
    ensures { result ≡ tables.leaves_loop loops home }
{
    match home {
        Home::InPlace | Home::Own(_) | Home::Twin { .. } => false,
        Home::Held { loops: its, .. } => its == loops,
    }
}

/// The arguments that leave the loop, of so many round their call.
pub fn leaving_args<'a>(
    alloc: Global,
    loops: u32,
    homes: &[Home],
    args: &'a [Argument],
) -> Result<Items<Left<'a>>, AllocError>
    ensures { IfOk result (λ ps. ps ≡ tables.leaving_args loops homes.now 0 args.now) }
{
    let mut out = Items::new(alloc);
    for (position, arg) in args.iter().enumerate() {
        if leaves_loop(loops, home_at(homes, position)) {
            out.push(Left { position, arg })?;
        }
    }
    Ok(out)
}
