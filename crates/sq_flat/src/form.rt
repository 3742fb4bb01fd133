//! Forms as they are evaluated.

use sq_leaf::Trap;
use sq_rect::Views;
use sq_spec::Body;

/// A form: where its arrays stand in its memory, and what it does.
#[derive(Drop)]
pub struct FormCode {
    pub views: Views,
    pub body: Body,
}

/// A trap of leaf code, and the numbers of the iterations round it so far, the innermost first.
#[derive(Drop)]
pub struct Unwound {
    pub trap: Trap,
    pub turns: Vec<u32>,
}

/// Why a run ended before its end.
#[derive(Drop)]
pub enum End {
    Trapped(Unwound),
    NoMemory,
}
