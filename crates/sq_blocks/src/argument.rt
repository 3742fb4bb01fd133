//! The arguments of calls.

use sq_ast::Mode;
use sq_rect::Rect;

/// An argument of a call: a block of an array of the caller, and how the callee may use it.
#[derive(Drop)]
pub struct Argument {
    pub mode: Mode,
    /// Whether it is the array that a reduction is into.
    pub is_reduced: bool,
    /// Of the caller's arrays, in text order: parameters, and then locals.
    pub array: u32,
    pub rect: Rect,
}
