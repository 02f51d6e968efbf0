//! The journal of directory changes, in two areas of a disk.
#![tactic(auto)]

mod area;
mod doubt;
mod header;
mod journal;
mod laws;
mod reading;
mod record;
mod reserve;
mod short_form;
mod starting;

pub use area::Area;
pub use doubt::Doubt;
pub use journal::Journal;
pub use laws::{
    lawful_changes_have_bodies, short_form_is_small, short_form_restores, worked_journals,
};
pub use starting::OpenFault;
