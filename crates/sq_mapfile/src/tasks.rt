//! The variants of a program by their tasks and kinds, and what each requires.

ghost use Rattle.std.specs.Prelude.{◌≡◌, Some, None, is_none, if◌then◌else◌, map, option_map, IfOk, OnOk};
ghost use Rattle.std.specs.Option.{option_copied};
ghost use Rattle.sq_ast.specs.declared.program.VariantKind.TheVariants.{Inner, Leaf};
ghost use Rattle.sq_text.specs.Names.{Bytes, item_of, kept};
ghost use Rattle.sq_mapping.specs.Names.{variant_of};
ghost use Rattle.sq_mapfile.specs.Names as spec;
ghost use Rattle.sq_mapping.specs.Names.{is_variant, variant_index};
ghost use Rattle.sq_mapping.specs.Required.{required_by};

use crate::required::Required;
use sq_ast::{Variant, VariantKind};
use sq_text::{FirstItems, Name};
use sqlite_items::Items;
use std::alloc::{AllocError, Global};

// The variant at an index counts where it is of this kind, and the first of its task.
fn enter_variant(
    alloc: Global,
    first: &mut FirstItems,
    kind: VariantKind,
    variant: &Variant,
    i: usize,
) -> Result<(), AllocError>
    ensures { OnOk result ((n : Bytes) → item_of first.new n ≡ kept (item_of first.old n)
        (if is_variant n kind variant.now then Some i else None)) }
{
    match (kind, variant.kind) {
        (VariantKind::Inner, VariantKind::Inner) | (VariantKind::Leaf, VariantKind::Leaf) => {
            first.enter(alloc, &variant.task, i)?;
            Ok(())
        }
        _ => Ok(()),
    }
}

fn first_of_kind(
    alloc: Global,
    variants: &[Variant],
    kind: VariantKind,
) -> Result<FirstItems, AllocError>
    ensures { IfOk result (λ first. (n : Bytes) → item_of first n ≡ variant_index variants.now n kind) }
{
    let mut first = FirstItems::new(alloc);
    for (i, v) in variants.iter().enumerate() {
        enter_variant(alloc, &mut first, kind, v, i)?;
    }
    Ok(first)
}

fn all_required(alloc: Global, variants: &[Variant]) -> Result<Items<Required>, AllocError>
    ensures { IfOk result (λ required. required ≡ map required_by variants.now) }
{
    let mut required = Items::new(alloc);
    for v in variants {
        required.push(Required::new(alloc, v)?)?;
    }
    Ok(required)
}

/// The variants of a program, with the first of each task and kind.
#[derive(Drop)]
pub struct Tasks<'a> {
    pub variants: &'a [Variant],
    required: Items<Required>,
    inner: FirstItems,
    leaf: FirstItems,
    ghost all_required: { required ≡ map required_by variants.now },
    ghost first_inner: { (n : Bytes) → item_of inner n ≡ variant_index variants.now n Inner },
    ghost first_leaf: { (n : Bytes) → item_of leaf n ≡ variant_index variants.now n Leaf },
}

impl<'a> Tasks<'a> {
    pub fn new(alloc: Global, variants: &'a [Variant]) -> Result<Tasks<'a>, AllocError>
        ensures { IfOk result (λ t. t.variants.now ≡ variants.now) }
    {
        let required = all_required(alloc, variants)?;
        let inner = first_of_kind(alloc, variants, VariantKind::Inner)?;
        let leaf = first_of_kind(alloc, variants, VariantKind::Leaf)?;
        Ok(Tasks {
            variants,
            required,
            inner,
            leaf,
        })
    }

    pub fn has(&self, task: &Name) -> bool
        ensures { result ≡ spec.has_task self.now.variants.now task.now }
    {
        let inner = self.index(task, VariantKind::Inner);
        let leaf = self.index(task, VariantKind::Leaf);
        inner.is_some() || leaf.is_some()
    }

    fn index(&self, task: &Name, kind: VariantKind) -> Option<usize>
        ensures { result ≡ variant_index self.now.variants.now task.now kind }
    {
        match kind {
            VariantKind::Inner => self.inner.get(task),
            VariantKind::Leaf => self.leaf.get(task),
        }
    }

    /// What the first variant of this task and kind requires.
    pub fn required(&self, task: &Name, kind: VariantKind) -> Option<&Required>
        ensures { option_copied result ≡ option_map required_by (variant_of self.now.variants.now task.now kind) }
    {
        let i = self.index(task, kind)?;
        self.required.get(i)
    }

    /// Whether the program has no variant of this task and kind.
    pub fn lacks(&self, task: &Name, kind: VariantKind) -> bool
        ensures { result ≡ is_none (variant_of self.now.variants.now task.now kind) }
    {
        self.required(task, kind).is_none()
    }
}
