//! The top call on words and files that are handed in as bytes: it gives the status and both texts, and reads and writes
//! nothing else.
#![tactic(auto)]

mod calling;
mod given;
mod handed;
mod text_sink;

pub use calling::{Said, call};
pub use handed::File;
pub use sq_driver::Status;
