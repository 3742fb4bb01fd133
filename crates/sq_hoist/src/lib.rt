//! Which arguments leave the plain loops round their calls.
#![tactic(auto)]

mod blocks;
mod choices;
mod hoisting;
mod names;
mod nest;
mod notes;
mod sites;

pub use blocks::{behind, front, shares};
pub use choices::choices_of;
pub use hoisting::{hoisted, sites_of};
pub use notes::push_site;
pub use sites::Site;
pub use sq_chosen::{
    Choice, Chosen, array_size, choice_at, drop_body, flag_at, form_number, is_moved, level_at,
    name_at, number_at, rule_at,
};
