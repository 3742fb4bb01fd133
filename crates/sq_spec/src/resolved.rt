//! The forms of a program under its mapping.

ghost use Rattle.std.specs.Prelude.{◌≡◌, ◌<◌, Some, Ok, true, length, slice_get, IfOk};
ghost use Rattle.std.specs.Coded.{Coded-set, coded_list};
ghost use Rattle.sq_text.specs.declared.fault.Fault.{Fault};
ghost use Rattle.sq_ast.specs.contracts.program.Variant as row;
ghost use Rattle.sq_text.specs.Answers.{IfRefused};
ghost use Rattle.sq_ast.specs.Grammar.{most_levels};
ghost use Rattle.sq_work.specs.Types.Nesting.{HasLoops};
ghost use Rattle.sq_work.specs.Types.Sound.{is_sound};
ghost use Rattle.sq_form_laws.specs.Mappings.Sound.{Sound};
ghost use Rattle.sq_form_laws.specs.Forms.Forms.{AreForms, IsFirstMet};
ghost use Rattle.sq_form_laws.specs.Forms.Resolving.{Resolves, resolution, entry_params};
ghost use Rattle.sq_form_laws.specs.Forms.Tables.{first_of_kind};
ghost use Rattle.sq_spec.specs.Bodies.{body_of};
ghost use Rattle.sq_spec.specs.Walked.{IsWalked};
ghost use Rattle.sq_spec.specs.Works.{found_in};

use crate::bodies;
use crate::body::FormBody;
use indexmap::IndexMap;
use sq_ast::laws::given_programs_are_formed;
use sq_ast::{Param, Program, VariantKind};
use sq_form_laws::{
    Form, Found, Instance, Key, Machine, Mapping, Resolving, Use, Variants, entry_params,
    resolve_forms,
};
use sq_text::{Name, Stop};
use sq_work::{Typed, leaf_variants_may_be_compiled};
use sqlite_items::Items;
use std::alloc::{AllocError, Global};

/// A program, its mapping and its machine, with the forms in the order in which they are found, and the accesses of
/// each.
#[derive(Drop)]
pub struct Resolved<'a> {
    typed: &'a Typed,
    mapping: &'a Mapping,
    machine: &'a Machine,
    variants: Variants<'a>,
    found: IndexMap<Key, Found>,
    forms: Items<Form>,
    uses: Items<Items<Use>>,
    ghost listed: { variants.list.now ≡ typed.now.tasks } by { Coded-set (coded_list row.the_row.coded) _ _ },
    ghost paired: { length uses ≡ length forms },
    ghost walked: { ∥ IsWalked typed.now machine.now.levels mapping.now found.entries forms uses ∥₁ },
}

impl<'a> Resolved<'a> {
    /// The program.
    pub fn typed(&self) -> &'a Typed
        ensures { result.now ≡ self.now.typed.now }
    {
        self.typed
    }

    /// The mapping.
    pub fn mapping(&self) -> &'a Mapping
        ensures { result.now ≡ self.now.mapping.now }
    {
        self.mapping
    }

    /// The machine.
    pub fn machine(&self) -> &'a Machine
        ensures { result.now ≡ self.now.machine.now }
    {
        self.machine
    }

    /// The forms, the entry first, in the order in which they are found.
    pub fn forms(&self) -> &[Form]
        ensures { result.now ≡ self.now.forms }
    {
        self.forms.as_slice()
    }

    /// The accesses of a form, in the order in which they would run.
    pub fn uses(&self, form: u32) -> &[Use]
        requires { form < length self.now.forms }
        ensures { slice_get self.now.uses form ≡ Some result.now }
    {
        self.uses.as_slice()[form as usize].as_slice()
    }

    /// The parameters of the entry.
    pub fn entry_params(&self) -> &'a [Param]
        ensures { result.now ≡ entry_params self.now.typed.now.tasks
            (slice_get self.now.mapping.now.instances self.now.mapping.now.entry) }
    {
        entry_params(&self.variants, self.mapping)
    }

    /// The number of the first variant of a task and kind, looked up in a table.
    pub fn variant_number(&self, task: &Name, kind: VariantKind) -> Option<usize>
        ensures { result ≡ first_of_kind kind 0 self.now.typed.now.tasks task.now }
    {
        self.variants.number(task, kind)
    }

    /// The arrays of a form and what it does; of statements, with what each is begun with in one run of the form.
    pub fn body(&self, alloc: Global, form: u32) -> Result<FormBody, AllocError>
        ensures { IfOk result (λ b. b ≡ body_of self.now.typed.now.tasks self.now.mapping.now.instances
            self.now.found.entries form) }
    {
        form_body(
            alloc,
            self.typed.program(),
            &self.variants,
            self.mapping.instances.as_slice(),
            &self.found,
            form,
        )
    }
}

fn form_body(
    alloc: Global,
    program: &Program,
    variants: &Variants<'_>,
    instances: &[Instance],
    found: &IndexMap<Key, Found>,
    form: u32,
) -> Result<FormBody, AllocError>
    requires sound { is_sound program.now ≡ true }
    requires loops { HasLoops most_levels program.now.tasks }
    requires listed { variants.now.list.now ≡ program.now.tasks }
    ensures { IfOk result (λ b. b ≡ body_of program.now.tasks instances.now found.now.entries form) }
{
    leaf_variants_may_be_compiled();
    bodies::body_of(alloc, variants, instances, found, form)
}

fn variants_of<'a>(alloc: Global, program: &'a Program) -> Result<Variants<'a>, AllocError>
    ensures { IfOk result (λ v. v.list.now ≡ program.now.tasks) }
{
    Variants::new(alloc, program.tasks.as_slice())
}

fn resolve_program(
    alloc: Global,
    program: &Program,
    variants: &Variants<'_>,
    mapping: &Mapping,
) -> Result<Resolving, Stop>
    requires { variants.now.list.now ≡ program.now.tasks }
    ensures { Resolves result (resolution program.now.tasks mapping.now) }
{
    resolve_forms(alloc, variants, mapping)
}

/// The forms of a program under its mapping, or the first fault that the walk over them meets.
pub fn resolve<'a>(
    alloc: Global,
    typed: &'a Typed,
    mapping: &'a Mapping,
    machine: &'a Machine,
) -> Result<Resolved<'a>, Stop>
    requires { Sound typed.now machine.now.levels mapping.now }
    ensures forms { IfOk result (λ r. AreForms typed.now mapping.now r.forms r.uses) }
    ensures found { IfOk result (λ r. found_in (resolution typed.now.tasks mapping.now) ≡ r.found.entries) }
    ensures first { IfRefused result (λ its. IsFirstMet typed.now mapping.now its) }
    ensures program { IfOk result (λ r. r.typed.now ≡ typed.now) }
    ensures mapping { IfOk result (λ r. r.mapping.now ≡ mapping.now) }
    ensures machine { IfOk result (λ r. r.machine.now ≡ machine.now) }
{
    given_programs_are_formed();
    let program = typed.program();
    let variants = variants_of(alloc, program)?;
    let found = resolve_program(alloc, program, &variants, mapping)?;
    let walk = found.walk;
    Ok(Resolved {
        typed,
        mapping,
        machine,
        variants,
        found: walk.forms,
        forms: found.forms,
        uses: found.uses,
    })
}
