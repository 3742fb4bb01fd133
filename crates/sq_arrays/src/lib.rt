//! Array text: reads arrays through a window of fixed size, and writes them. Nothing here takes memory.
#![tactic(auto)]

mod exact;
mod expect;
mod head;
pub mod laws;
mod number;
mod observer;
mod reader;
mod reading;
mod refusal;
mod runs;
mod target;
mod value;
mod values;
mod want;
mod window;
mod word;
mod write;

pub use reader::ArrayReader;
pub use reading::read_arrays;
pub use refusal::{ArraysEnd, InputCode, InputEnd};
pub use target::ArrayTarget;
pub use want::Want;
pub use write::write_array;
