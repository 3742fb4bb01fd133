//! What a mapping stands for: instances with their tunables and routes, and what holds of every one that is accepted.
#![tactic(auto)]

mod mapping;

pub use mapping::{
    Instance, Instances, Mapping, Numbers, Route, Routes, Setting, SizeSet, SizeSets, Tuning,
    Tunings,
};
pub use sq_machfile::{Machine, Node};
