//! What a form does, from what is known of it.

ghost use Rattle.std.specs.Prelude.{◌≡◌, ◌++◌, ◌∷◌, [], Ok, slice_get, IfOk, OnOk};
ghost use Rattle.std.specs.Option.{option_copied};
ghost use Rattle.sq_form_laws.specs.Forms.Faults.{Makes};
ghost use Rattle.sq_form_laws.specs.Forms.Args as argued;
ghost use Rattle.sq_form_laws.specs.Forms.Worlds as worlds;
ghost use Rattle.sq_form_laws.specs.Forms.Decls as decls;
ghost use Rattle.sq_spec.specs.Statements as tables;
ghost use Rattle.sq_spec.specs.Works as works;
ghost use Rattle.sq_spec.specs.Bodies as spec;

use crate::body::{Body, FormBody};
use crate::statement::{EnclosingMap, FormContext, Statement, statements};
use indexmap::IndexMap;
use sq_ast::{Body as Text, Elem, Param, Stmt, Variant};
use sq_form_laws::{
    Bindings, Env, Found, Frame, Instance, Key, LocalArray, RoutesByTask, Scope, SettingsByName,
    Variants, declare_all, params,
};
use sq_text::Stop;
use sq_work::{Dims, Shape, compile_leaf};
use sqlite_items::{Items, at};
use std::alloc::{AllocError, Global};

// The element types of all arrays, the parameters' first.
fn elems_of(
    alloc: Global,
    params: &[Param],
    locals: &[LocalArray],
) -> Result<Items<Elem>, AllocError>
    ensures { Makes result (tables.param_elems params.now ++ tables.local_elems locals.now) }
{
    let mut elems = Items::new(alloc);
    for p in params {
        elems.push(p.elem)?;
    }
    for local in locals {
        elems.push(local.elem)?;
    }
    Ok(elems)
}

fn push_shape(elem: Elem, extents: &Dims, shapes: &mut Items<Shape>) -> Result<(), AllocError>
    ensures { OnOk result (shapes.new ≡ shapes.old ++ record { elem = elem; extents = extents.now } ∷ []) }
{
    shapes.push(Shape {
        elem,
        extents: extents.copy(),
    })
}

// The shape of a parameter; each has its extents where those of all fit.
fn push_param(
    p: &Param,
    extents: Option<&Dims>,
    shapes: &mut Items<Shape>,
) -> Result<(), AllocError>
    ensures { OnOk result (shapes.new ≡ shapes.old
        ++ record { elem = p.now.elem; extents = works.extents_at (option_copied extents.entry) } ∷ []) }
{
    match extents {
        Some(extents) => push_shape(p.elem, extents, shapes),
        None => Err(AllocError),
    }
}

// The shapes of all arrays, the parameters' first.
fn shapes_of(
    alloc: Global,
    params: &[Param],
    extents: &[Dims],
    locals: &[LocalArray],
) -> Result<Items<Shape>, AllocError>
    ensures { Makes result (works.param_shapes params.now 0 extents.now ++ works.local_shapes locals.now) }
{
    let mut shapes = Items::new(alloc);
    for (i, p) in params.iter().enumerate() {
        push_param(p, at(extents, i), &mut shapes)?;
    }
    for local in locals {
        push_shape(local.elem, &local.extents, &mut shapes)?;
    }
    Ok(shapes)
}

fn list_tables(
    alloc: Global,
    context: &FormContext<'_>,
    numbers: &mut Bindings,
    list: &[Stmt],
) -> Result<Items<Statement>, AllocError>
    ensures { IfOk result (λ bs. bs ≡ tables.tables context.now.forms.now.entries
        (worlds.frame_of context.now.frame.now)
        (argued.names_of context.now.known.now) context.now.elems.now numbers.old list.now) }
{
    let nest: Items<EnclosingMap<'_>> = Items::new(alloc);
    let tables = statements(alloc, context, numbers, nest.as_slice(), None, 0, list)?;
    Ok(tables)
}

fn what_runs(
    alloc: Global,
    frame: &Frame<'_>,
    forms: &IndexMap<Key, Found>,
    v: &Variant,
    scope: &mut Scope,
) -> Result<Body, AllocError>
    requires { spec.MayCompile v.now }
    ensures { IfOk result (λ b. b ≡ spec.what_runs forms.now.entries (worlds.frame_of frame.now) v.now v.now.body
        (decls.scope_of scope.old)) }
{
    match &v.body {
        Text::Inner(list) => {
            let elems = elems_of(alloc, v.params.as_slice(), scope.locals.as_slice())?;
            let context = FormContext {
                frame,
                known: &scope.known,
                forms,
                elems: elems.as_slice(),
            };
            let tables = list_tables(alloc, &context, &mut scope.numbers, list.as_slice())?;
            Ok(Body::Inner(tables))
        }
        Text::Leaf(_) => {
            let env = Env {
                numbers: &scope.numbers,
                lists: &scope.known.lists,
            };
            let code = compile_leaf(alloc, v, &env)?;
            Ok(Body::Leaf(code))
        }
    }
}

// A form whose declarations went through.
fn declared_body(
    alloc: Global,
    frame: &Frame<'_>,
    forms: &IndexMap<Key, Found>,
    v: &Variant,
    form: &Found,
    scope: &mut Scope,
) -> Result<FormBody, AllocError>
    requires { spec.MayCompile v.now }
    ensures { IfOk result (λ b. b ≡ spec.declared_body forms.now.entries (worlds.frame_of frame.now) v.now form.now
        (Ok (decls.scope_of scope.old))) }
{
    let arrays = shapes_of(
        alloc,
        v.params.as_slice(),
        form.extents.as_slice(),
        scope.locals.as_slice(),
    )?;
    let body = what_runs(alloc, frame, forms, v, scope)?;
    Ok(FormBody { arrays, body })
}

fn no_body(alloc: Global) -> FormBody
    ensures { result ≡ spec.no_body }
{
    FormBody {
        arrays: Items::new(alloc),
        body: Body::Inner(Items::new(alloc)),
    }
}

// A form whose parameters are known. A fault of a declaration was met when it was walked.
fn scope_body(
    alloc: Global,
    frame: &Frame<'_>,
    forms: &IndexMap<Key, Found>,
    x: &Instance,
    v: &Variant,
    form: &Found,
    mut scope: Scope,
) -> Result<FormBody, AllocError>
    requires { spec.MayCompile v.now }
    ensures { IfOk result (λ b. b ≡ spec.declared_body forms.now.entries (worlds.frame_of frame.now) v.now form.now
        (decls.all_declared x.now.tunings (decls.scope_of scope) v.now.decls)) }
{
    let settings = SettingsByName::new(alloc, x.tunings.as_slice())?;
    match declare_all(alloc, &mut scope, &settings, v.decls.as_slice()) {
        Ok(()) => declared_body(alloc, frame, forms, v, form, &mut scope),
        Err(Stop::Refused(_)) => Ok(no_body(alloc)),
        Err(Stop::NoMemory) => Err(AllocError),
    }
}

fn found_body(
    alloc: Global,
    variants: &Variants<'_>,
    instances: &[Instance],
    forms: &IndexMap<Key, Found>,
    k: u32,
    form: &Found,
) -> Result<FormBody, AllocError>
    requires { spec.AllCompile variants.now.list.now }
    ensures { IfOk result (λ b. b ≡ spec.instance_body forms.now.entries variants.now.list.now instances.now k form.now
        (slice_get instances.now form.now.instance)) }
{
    let Some(x) = at(instances, form.instance as usize) else {
        return Ok(no_body(alloc));
    };
    let Some(v) = variants.get(&x.task, x.kind) else {
        return Ok(no_body(alloc));
    };
    let mut scope = Scope::new(alloc);
    let list = v.params.as_slice();
    if !params(alloc, &mut scope, list, form.extents.as_slice())? {
        return Ok(no_body(alloc));
    }
    let routes = RoutesByTask::new(alloc, x.routes.as_slice())?;
    let frame = Frame {
        variants,
        instances,
        routes: &routes,
        form: k,
        level: x.level,
        maps: form.maps,
        depth: form.depth,
    };
    scope_body(alloc, &frame, forms, x, v, form, scope)
}

/// What the form with this number does.
pub fn body_of(
    alloc: Global,
    variants: &Variants<'_>,
    instances: &[Instance],
    forms: &IndexMap<Key, Found>,
    k: u32,
) -> Result<FormBody, AllocError>
    requires { spec.AllCompile variants.now.list.now }
    ensures { IfOk result (λ b. b ≡ spec.body_of variants.now.list.now instances.now forms.now.entries k) }
{
    match forms.get_index(k as usize) {
        Some((_, form)) => found_body(alloc, variants, instances, forms, k, form),
        None => Ok(no_body(alloc)),
    }
}
