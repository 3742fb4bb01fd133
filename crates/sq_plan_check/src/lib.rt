//! The checker of plans that were written out: whether they are good, or their first flaw.
#![tactic(auto)]

mod act;
mod acts;
mod count;
mod entry;
mod events;
mod flags;
mod pairs;
mod reach;
mod sweep;
mod top;
mod tops;
mod walk;

pub use act::act_in;
pub use acts::acts_of;
pub use entry::{Deed, Entries, Entry};
pub use events::entries_of;
pub use pairs::{Pair, first_clash};
pub use reach::{Reach, Row};
pub use sq_areas::{Area, Step};
pub use sq_check_laws::Flaw;
pub use sweep::candidates;
