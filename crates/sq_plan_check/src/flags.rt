//! Which of its views a leaf may write.

ghost use Rattle.std.specs.Prelude.{◌≡◌, ◌++◌, [], ◌∷◌, map, IfOk, OnOk};
ghost use Rattle.sq_ast.specs.Modes.{is_written};
ghost use Rattle.sq_leaf.specs.Leaf.{local_flags, written_of};
ghost use Rattle.sq_ir.specs.DraftLeaves.{leaves_of};

use sq_ast::{Decl, Param, Variant};
use sq_ir::Plan;
use sqlite_items::Items;
use std::alloc::{AllocError, Global};

// Puts a flag for each parameter behind others.
fn put_params(params: &[Param], flags: &mut Items<bool>) -> Result<(), AllocError>
    ensures { OnOk result (flags.new ≡ flags.old ++ map (λ p. is_written p.mode) params.now) }
{
    for param in params {
        flags.push(param.mode.is_written())?;
    }
    Ok(())
}

// Puts a flag for a local behind others.
fn put_local(decl: &Decl, flags: &mut Items<bool>) -> Result<(), AllocError>
    ensures { OnOk result (flags.new ≡ flags.old ++ local_flags (decl.now ∷ [])) }
{
    match decl {
        Decl::Local {
            place: _,
            elem: _,
            name: _,
            extents: _,
        } => flags.push(true),
        _ => Ok(()),
    }
}

// Puts a flag for each local behind others.
fn put_locals(decls: &[Decl], flags: &mut Items<bool>) -> Result<(), AllocError>
    ensures { OnOk result (flags.new ≡ flags.old ++ local_flags decls.now) }
{
    for decl in decls {
        put_local(decl, flags)?;
    }
    Ok(())
}

// The flags of a variant.
fn flags_of_variant(alloc: Global, variant: &Variant) -> Result<Items<bool>, AllocError>
    ensures { IfOk result (λ fs. fs ≡ written_of variant.now) }
{
    let mut flags = Items::new(alloc);
    put_params(variant.params.as_slice(), &mut flags)?;
    put_locals(variant.decls.as_slice(), &mut flags)?;
    Ok(flags)
}

/// For each view of a leaf whether the leaf may write it; none where there is no such leaf.
pub(crate) fn flags_of(alloc: Global, plan: &Plan, code: u32) -> Result<Items<bool>, AllocError>
    ensures { IfOk result (λ fs. fs ≡ (leaves_of plan.now.draft).written code) }
{
    match plan.draft.leaves.get(code as usize) {
        None => Ok(Items::new(alloc)),
        Some(leaf) => flags_of_variant(alloc, leaf.code.variant()),
    }
}
