//! The directory as plain rows: what is refused, what is found, and what a change makes of them.
#![tactic(auto)]

mod applying;
mod changing;
mod finding;
mod fresh;
mod lawful;
mod laws;
mod limits;
mod refusing;
mod room;
mod search;
#[cfg(test)]
mod tests;

pub use applying::apply;
pub use changing::{answer, change_at, first_base, may_lie};
pub use finding::{descriptor, found};
pub use fresh::common_rows;
pub use lawful::is_lawful_change;
pub use laws::{
    lawful_changes_keep_law, least_base_is_least, numbers_are_never_used_again,
    served_changes_are_lawful,
};
pub use limits::{MAX_ITEMS, MAX_REGION_SIZE, MAX_REGIONS, MAX_TOTAL_SIZE, NOBODY, NUMBER_END};
pub use refusing::refusal;
pub use search::{item, item_named, region, region_named};
