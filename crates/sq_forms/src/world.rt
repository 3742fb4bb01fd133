//! What a form is walked in: the program, the mapping, and where the form stands.

ghost use Rattle.std.specs.Prelude.{◌≡◌, option_map};
ghost use Rattle.sq_forms.specs.Worlds as spec;

use crate::tables::{RoutesByTask, Variants};
use sq_ast::Param;
use sq_mapping::Instance;
use sq_text::Name;
use sqlite_items::at;

/// The form that is walked, with the program's variants and the mapping's instances.
#[derive(Clone, Copy)]
pub struct Frame<'a> {
    pub variants: &'a Variants<'a>,
    pub instances: &'a [Instance],
    pub routes: &'a RoutesByTask<'a>,
    pub form: u32,
    pub level: u32,
    /// The maps round the call by which the form is reached, from the entry down.
    pub maps: usize,
    /// The forms from the entry down to this one.
    pub depth: usize,
}

/// The instance that serves a call.
#[derive(Clone, Copy)]
pub struct Callee<'a> {
    pub instance: u32,
    pub level: u32,
    pub params: &'a [Param],
}

/// The instance that serves calls of a task.
pub fn callee_of<'a>(frame: &Frame<'a>, task: &Name) -> Option<Callee<'a>>
    ensures { option_map spec.callee_by result ≡ spec.callee_of (spec.frame_of frame.now) task.now }
{
    let number = frame.routes.get(task)?;
    let instance = at(frame.instances, number as usize)?;
    let variant = frame.variants.get(&instance.task, instance.kind)?;
    Some(Callee {
        instance: number,
        level: instance.level,
        params: variant.params.as_slice(),
    })
}
