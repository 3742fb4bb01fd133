//! What is true of forms, their calls and their accesses.
#![tactic(auto)]

pub mod laws;

pub use sq_blocks::{Argument, Bindings, Env};
pub use sq_forms::args::examine;
pub use sq_forms::call::{flags, is_written, key_of, lengths};
pub use sq_forms::decls::{Scope, declare_all, params};
pub use sq_forms::ranges::{bind_iteration, bounds, times};
pub use sq_forms::tally::{calls_in, plus};
pub use sq_forms::{
    Callee, Form, Found, Frame, Instance, Key, Known, LocalArray, Machine, Mapping, Resolving,
    RoutesByTask, SettingsByName, Use, Variants, callee_of, entry_params, reduced_by,
    resolve_forms,
};
