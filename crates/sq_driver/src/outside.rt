//! What a command is handed, and how it ends.

pub mod end;
pub mod status;
pub mod world;
