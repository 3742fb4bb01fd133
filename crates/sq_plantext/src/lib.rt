//! Plan files as text: what stands in their lines, the grammar, and the layout.
#![tactic(auto)]

mod print;
mod text;

pub use print::{put_head, put_leaf, put_plan, put_term};
pub use text::{
    ArrayLine, ArrayLines, Binding, Bindings, BufferLine, BufferLines, EventText, LeafText,
    LeafTexts, Naturals, NodeLine, NodeLines, PLAN_LEVELS, PlanText, SlotText, TermText, TermTexts,
    ViewText, ViewTexts,
};
